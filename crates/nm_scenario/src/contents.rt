//! How the configurations and edits of contents are written.

ghost use Rattle.std.specs.Prelude.{Result};
ghost use Rattle.serde_json.specs.Data.{Data};
ghost use Rattle.serde_json.specs.View.{view};
ghost use Rattle.nm_scenario_form.specs.declared.fault.Cause.{Cause};
ghost use Rattle.nm_scenario_form.specs.Reading.{Gives};
ghost use Rattle.nm_scenario_form.specs.Form.{leaf};
ghost use Rattle.nm_scenario_form.specs.Read.{told};

use nm_scenario_form::{ReadError, Reader};
use serde_json::Value;
use std::alloc::Global;

/// Contents whose configurations and edits stand in a scenario.
pub trait Written {
    type Config: Drop;

    type Edit: Drop;

    /// The running configuration that a part says, which is valid and holds no marks, or why it says none.
    ghost config_said: { Self → Data → Result Self.Config Cause };

    /// The edit that a part says, or why it says none.
    ghost edit_said: { Self → Data → Result Self.Edit Cause };

    fn read_config(&self, alloc: Global, part: &Value) -> Result<Self::Config, ReadError>
        ensures { Gives result (told (config_said self.now (view part.now))) };

    fn read_edit(&self, alloc: Global, part: &Value) -> Result<Self::Edit, ReadError>
        ensures { Gives result (told (edit_said self.now (view part.now))) };
}

/// A running configuration.
#[derive(Drop)]
pub struct Running<'a, W> {
    pub contents: &'a W,
}

impl<'a, W: Written> Reader for Running<'a, W> {
    type Out = W::Config;

    ghost form = { λ r. leaf (W.config_said r.contents.now) };

    fn read(&self, alloc: Global, part: &Value) -> Result<W::Config, ReadError> {
        self.contents.read_config(alloc, part)
    }
}

/// An edit.
#[derive(Drop)]
pub struct Edits<'a, W> {
    pub contents: &'a W,
}

impl<'a, W: Written> Reader for Edits<'a, W> {
    type Out = W::Edit;

    ghost form = { λ r. leaf (W.edit_said r.contents.now) };

    fn read(&self, alloc: Global, part: &Value) -> Result<W::Edit, ReadError> {
        self.contents.read_edit(alloc, part)
    }
}
