//! The member `operators`: the users for whom sessions are opened beside the manager's.

ghost use Rattle.std.specs.Prelude.{◌||◌, Some, false, codes};
ghost use Rattle.std.specs.Str.{bytes_eq};
ghost use Rattle.nm_scenario_form.specs.Reading.{Gives};
ghost use Rattle.nm_scenario_form.specs.Read.{told};
ghost use Rattle.nm_scenario.specs.Operators.{operator_form, operators_form, user, user_in};

use crate::nothing::Nothing;
use nm_base::{Label, MANAGER};
use nm_proto::Listed;
use nm_scenario_events::limits::OPERATOR_LIMIT;
use nm_scenario_form::places::{KnownNames, fault_here};
use nm_scenario_form::{
    ItemReader, ReadError, Reader, ScenarioKind, no_other_names, optional, read_list, read_object,
    required,
};
use serde_json::Value;
use std::alloc::Global;

/// How long a user's name may be, in bytes.
pub const USER_LIMIT: usize = 64;

/// The member `user` of an operator.
#[derive(Drop)]
struct User;

impl Reader for User {
    type Out = Label;

    ghost form = { λ _. user };

    #[tactic(auto, unfolding(crate::specs::Operators::user_said))]
    fn read(&self, alloc: Global, part: &Value) -> Result<Label, ReadError> {
        match part.as_str() {
            None => fault_here(alloc, ScenarioKind::BadValue),
            Some(name) => read_user(alloc, name),
        }
    }
}

// The manager's name is no operator's.
fn read_user(alloc: Global, name: &str) -> Result<Label, ReadError>
    ensures { Gives result (told (user_in (Some name.now))) }
{
    if name == MANAGER {
        return fault_here(alloc, ScenarioKind::BadValue);
    }
    if 1 <= name.len() && name.len() <= USER_LIMIT {
        return Ok(Label::new(alloc, name)?);
    }
    fault_here(alloc, ScenarioKind::BadValue)
}

#[derive(Drop)]
struct OperatorNames;

impl KnownNames for OperatorNames {
    ghost knows = { λ _ name. bytes_eq name (codes "user") || (bytes_eq name (codes "script") || false) };

    fn knows(&self, name: &str) -> bool {
        name == "user" || name == "script"
    }
}

/// The member `operators`.
#[derive(Drop)]
pub struct Operators;

impl ItemReader for Operators {
    type Out = Label;

    ghost form = { λ _ _ _. operator_form };

    fn read(
        &self,
        alloc: Global,
        _whole: &Value,
        _place: usize,
        part: &Value,
    ) -> Result<Label, ReadError> {
        let none = Nothing {
            otherwise: ScenarioKind::NotBuilt,
        };
        read_object(alloc, part)?;
        let user = required(alloc, part, "user", &User)?;
        optional(alloc, part, "script", (), &none)?;
        no_other_names(alloc, part, &OperatorNames)?;
        Ok(user)
    }
}

impl Reader for Operators {
    type Out = Listed<Label>;

    ghost form = { λ _. operators_form };

    #[tactic(auto, unfolding(crate::specs::Operators::operators_form))]
    fn read(&self, alloc: Global, part: &Value) -> Result<Listed<Label>, ReadError> {
        read_list(alloc, part, 0, OPERATOR_LIMIT, self)
    }
}
