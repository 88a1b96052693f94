//! YANG contents: their configurations and edits are data by the schema tree of their modules (RFC 7951).

ghost use Rattle.std.specs.Prelude.{◌≡◌, IfOk};
ghost use Rattle.nm_validate.specs.Told.{violation_told};
ghost use Rattle.nm_scenario_form.specs.Reading.{Gives};
ghost use Rattle.nm_scenario_form.specs.Read.{told};
ghost use Rattle.nm_scenario.specs.Yang.{data_said, holds_marks, nodes_said, valid_rows};

use crate::causes::{data_fault, edit_fault, refusal_fault};
use crate::contents::Written;
use nm_base::NoMemory;
use nm_config::Config;
use nm_content::{YangContent, marks_path};
use nm_edit::{Edit, EditFault};
use nm_edit_json::read_edit;
use nm_json::{JsonFault, config_of};
use nm_proto::CheckFault;
use nm_scenario_form::places::fault_here;
use nm_scenario_form::{ReadError, ScenarioKind};
use nm_validate::check_rows;
use serde_json::Value;
use std::alloc::Global;

impl Written for YangContent {
    type Config = Config;

    type Edit = Edit;

    ghost config_said = { λ tree. data_said tree };

    ghost edit_said = { λ tree. nodes_said tree };

    #[tactic(auto, unfolding(crate::specs::Yang::data_said))]
    fn read_config(&self, alloc: Global, part: &Value) -> Result<Config, ReadError> {
        match config_of(alloc, self.schema(), part) {
            Ok(config) => only_valid(alloc, self, config),
            Err(JsonFault::TooManyRows) => fault_here(alloc, ScenarioKind::TooMany),
            Err(JsonFault::NoMemory) => Err(ReadError::NoMemory),
            Err(JsonFault::Bad { kind, path }) => data_fault(alloc, kind, path),
            Err(JsonFault::NotJson) => fault_here(alloc, ScenarioKind::Content),
        }
    }

    #[tactic(auto, unfolding(crate::specs::Yang::nodes_said))]
    fn read_edit(&self, alloc: Global, part: &Value) -> Result<Edit, ReadError> {
        match read_edit(alloc, self.schema(), part) {
            Ok(edit) => Ok(edit),
            Err(EditFault::Refused { tag, path }) => edit_fault(alloc, tag, path),
            Err(EditFault::NoMemory) => Err(ReadError::NoMemory),
        }
    }
}

// Whether a configuration holds marks of change sets.
#[tactic(auto, unfolding(crate::specs::Yang::holds_marks))]
fn holds_marks(alloc: Global, config: &Config) -> Result<bool, NoMemory>
    ensures { IfOk result (λ holds. holds ≡ holds_marks config.now) }
{
    let path = marks_path(alloc)?;
    Ok(config.any_under(&path))
}

// A configuration that is valid and holds no marks.
fn only_valid(alloc: Global, content: &YangContent, config: Config) -> Result<Config, ReadError>
    ensures { Gives result (told (valid_rows config (holds_marks config) (violation_told content.now config))) }
{
    if holds_marks(alloc, &config)? {
        return fault_here(alloc, ScenarioKind::Invalid);
    }
    match check_rows(alloc, content.schema(), &config) {
        Ok(()) => Ok(config),
        Err(CheckFault::Violation { tag, path }) => {
            refusal_fault(alloc, ScenarioKind::Invalid, tag, path)
        }
        Err(CheckFault::NoMemory) => Err(ReadError::NoMemory),
    }
}
