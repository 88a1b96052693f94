//! How the paths of rules are written.

ghost use Rattle.std.specs.Prelude.{List, Result};
ghost use Rattle.serde_json.specs.Data.{Data};
ghost use Rattle.serde_json.specs.View.{view};
ghost use Rattle.nm_types.specs.Path.{PathStep};
ghost use Rattle.nm_scenario_form.specs.declared.fault.Cause.{Cause};
ghost use Rattle.nm_scenario_form.specs.Reading.{Gives};
ghost use Rattle.nm_scenario_form.specs.Form.{leaf};
ghost use Rattle.nm_scenario_form.specs.Read.{told};

use nm_access::Target;
use nm_scenario_form::{ReadError, Reader};
use nm_types::Path;
use serde_json::Value;
use std::alloc::Global;

/// Reads the paths of rules, by a schema or otherwise.
pub trait RulePaths {
    /// The path that a part says, or why it says none.
    ghost path_said: { Self → Data → Result (List PathStep) Cause };

    fn read_path(&self, alloc: Global, part: &Value) -> Result<Path, ReadError>
        ensures { Gives result (told (path_said self.now (view part.now))) };
}

/// The member `path` of a rule, as what the rule is about.
#[derive(Drop)]
pub(crate) struct PathTarget<'a, P> {
    pub(crate) paths: &'a P,
}

impl<'a, P: RulePaths> Reader for PathTarget<'a, P> {
    type Out = Option<Target>;

    ghost use Rattle.nm_access_form.specs.Table.{path_target};

    ghost form = { λ r. path_target (P.path_said r.paths.now) };

    fn read(&self, alloc: Global, part: &Value) -> Result<Option<Target>, ReadError> {
        let path = self.paths.read_path(alloc, part)?;
        Ok(Some(Target::Path(path)))
    }
}
