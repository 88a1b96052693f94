//! The member `access` of a scenario.

ghost use Rattle.std.specs.Prelude.{◌||◌, false, codes};
ghost use Rattle.std.specs.Str.{bytes_eq};
ghost use Rattle.nm_access_form.specs.Table.{access_form};

use crate::action::ActionWord;
use crate::names::Groups;
use crate::paths::RulePaths;
use crate::rules::Lists;
use nm_access::{AccessRules, Action};
use nm_scenario_form::places::KnownNames;
use nm_scenario_form::{ReadError, Reader, no_other_names, optional, read_object, required};
use serde_json::Value;
use std::alloc::Global;

/// How many groups there are at most: few enough for a look at each of them.
pub const GROUP_LIMIT: usize = 64;

/// How many lists of rules there are at most: few enough for a look at each of them.
pub const LIST_LIMIT: usize = 64;

/// How many rules there are at most in all lists together.
pub const RULE_LIMIT: u64 = 1000;

#[derive(Drop)]
struct AccessNames;

impl KnownNames for AccessNames {
    ghost knows = { λ _ name. bytes_eq name (codes "groups") || (bytes_eq name (codes "lists") || (bytes_eq name (codes "write-default")
        || (bytes_eq name (codes "exec-default") || false))) };

    fn knows(&self, name: &str) -> bool {
        name == "groups" || name == "lists" || name == "write-default" || name == "exec-default"
    }
}

/// The member `access`, in whose rules paths are read so.
///
/// At most 64 groups, 64 lists and 1,000 rules in all lists together. Names of groups, users, lists, rules, modules and operations
/// are any texts, may come twice, and may name nothing.
#[derive(Drop)]
pub struct AccessMember<'a, P> {
    pub paths: &'a P,
}

impl<'a, P: RulePaths> Reader for AccessMember<'a, P> {
    type Out = AccessRules;

    ghost form = { λ r. access_form (P.path_said r.paths.now) };

    #[tactic(auto, unfolding(crate::specs::Table::access_form))]
    fn read(&self, alloc: Global, part: &Value) -> Result<AccessRules, ReadError> {
        let lists = Lists { paths: self.paths };
        read_object(alloc, part)?;
        let groups = required(alloc, part, "groups", &Groups)?;
        let lists = required(alloc, part, "lists", &lists)?;
        let write_default = optional(alloc, part, "write-default", Action::Deny, &ActionWord)?;
        let exec_default = optional(alloc, part, "exec-default", Action::Permit, &ActionWord)?;
        no_other_names(alloc, part, &AccessNames)?;
        Ok(AccessRules {
            groups,
            lists,
            write_default,
            exec_default,
        })
    }
}
