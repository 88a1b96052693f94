//! Rules, and lists of them.

ghost use Rattle.std.specs.Prelude.{◌≡◌, ◌||◌, Some, None, false, codes};
ghost use Rattle.std.specs.Str.{bytes_eq};
ghost use Rattle.serde_json.specs.View.{view};
ghost use Rattle.nm_scenario_form.specs.Form.{closed, list};
ghost use Rattle.nm_scenario_form.specs.Reading.{Gives};
ghost use Rattle.nm_scenario_form.specs.Read.{read};
ghost use Rattle.nm_access_form.specs.Table as table;

use crate::action::ActionWord;
use crate::member::{LIST_LIMIT, RULE_LIMIT};
use crate::names::{ModuleTarget, Name, Names, OperationTarget};
use crate::paths::{PathTarget, RulePaths};
use crate::words::AccessWords;
use nm_access::{Rule, RuleList, Target};
use nm_proto::Listed;
use nm_scenario_form::lists::item_count;
use nm_scenario_form::places::{KnownNames, fault_here};
use nm_scenario_form::{
    ItemReader, ReadError, Reader, ScenarioKind, Weigh, no_other_names, optional, read_list,
    read_object, read_weighed, required,
};
use serde_json::Value;
use std::alloc::Global;

// ---- what a rule is about

fn has(part: &Value, name: &str) -> bool
    ensures { result ≡ table.has name.now (view part.now) }
{
    part.get(name).is_some()
}

fn two_of(first: bool, second: bool, third: bool) -> bool
    ensures { result ≡ table.two_of first second third }
{
    first && (second || third) || second && third
}

fn names_two(part: &Value) -> bool
    ensures { result ≡ table.names_two (view part.now) }
{
    two_of(
        has(part, "module"),
        has(part, "operation"),
        has(part, "path"),
    )
}

fn about(owner: Option<Target>, operation: Option<Target>, path: Option<Target>) -> Target
    ensures { result ≡ table.about owner operation path }
{
    if let Some(target) = owner {
        return target;
    }
    if let Some(target) = operation {
        return target;
    }
    match path {
        Some(target) => target,
        None => Target::Everything,
    }
}

// ---- a rule

#[derive(Drop)]
struct RuleNames;

impl KnownNames for RuleNames {
    ghost knows = { λ _ name. bytes_eq name (codes "name") || (bytes_eq name (codes "action") || (bytes_eq name (codes "access")
        || (bytes_eq name (codes "module") || (bytes_eq name (codes "operation") || (bytes_eq name (codes "path") || false))))) };

    fn knows(&self, name: &str) -> bool {
        name == "name"
            || name == "action"
            || name == "access"
            || name == "module"
            || name == "operation"
            || name == "path"
    }
}

/// The member `rules` of a list, whose paths are read so.
#[derive(Drop)]
struct Rules<'a, P> {
    paths: &'a P,
}

fn read_rule<P: RulePaths>(alloc: Global, part: &Value, paths: &P) -> Result<Rule, ReadError>
    ensures { Gives result (read (closed (table.rule_parts (P.path_said paths.now)) table.rule_of) (view part.now)) }
{
    read_object(alloc, part)?;
    let name = required(alloc, part, "name", &Name)?;
    let action = required(alloc, part, "action", &ActionWord)?;
    let accesses = required(alloc, part, "access", &AccessWords)?;
    let owner = optional(alloc, part, "module", None, &ModuleTarget)?;
    let operation = optional(alloc, part, "operation", None, &OperationTarget)?;
    let path = optional(alloc, part, "path", None, &PathTarget { paths })?;
    no_other_names(alloc, part, &RuleNames)?;
    Ok(Rule {
        name,
        action,
        accesses,
        target: about(owner, operation, path),
    })
}

impl<'a, P: RulePaths> ItemReader for Rules<'a, P> {
    type Out = Rule;

    ghost form = { λ r _ _. table.rule_form (P.path_said r.paths.now) };

    fn read(
        &self,
        alloc: Global,
        _whole: &Value,
        _place: usize,
        part: &Value,
    ) -> Result<Rule, ReadError> {
        if names_two(part) {
            return fault_here(alloc, ScenarioKind::BadValue);
        }
        read_rule(alloc, part, self.paths)
    }
}

impl<'a, P: RulePaths> Reader for Rules<'a, P> {
    type Out = Listed<Rule>;

    ghost form = { λ r. table.rules_form (P.path_said r.paths.now) };

    #[tactic(auto, unfolding(crate::specs::Table::rules_form))]
    fn read(&self, alloc: Global, part: &Value) -> Result<Listed<Rule>, ReadError> {
        read_list(alloc, part, 0, usize::MAX, self)
    }
}

// ---- a list

#[derive(Drop)]
struct ListNames;

impl KnownNames for ListNames {
    ghost knows = { λ _ name. bytes_eq name (codes "name") || (bytes_eq name (codes "groups") || (bytes_eq name (codes "rules") || false)) };

    fn knows(&self, name: &str) -> bool {
        name == "name" || name == "groups" || name == "rules"
    }
}

/// The member `lists`, whose rules have paths that are read so.
#[derive(Drop)]
pub(crate) struct Lists<'a, P> {
    pub(crate) paths: &'a P,
}

impl<'a, P: RulePaths> ItemReader for Lists<'a, P> {
    type Out = RuleList;

    ghost form = { λ r _ _. table.list_form (P.path_said r.paths.now) };

    fn read(
        &self,
        alloc: Global,
        _whole: &Value,
        _place: usize,
        part: &Value,
    ) -> Result<RuleList, ReadError> {
        let rules = Rules { paths: self.paths };
        read_object(alloc, part)?;
        let name = required(alloc, part, "name", &Name)?;
        let groups = required(alloc, part, "groups", &Names)?;
        let rules = required(alloc, part, "rules", &rules)?;
        no_other_names(alloc, part, &ListNames)?;
        Ok(RuleList {
            name,
            groups,
            rules,
        })
    }
}

// A list weighs as much as it has rules.
#[derive(Drop)]
struct RuleCount;

impl Weigh for RuleCount {
    ghost weight = { λ _. table.rules_in };

    #[tactic(auto, unfolding(crate::specs::Table::rules_in))]
    fn weight(&self, part: &Value) -> u64 {
        match part.get("rules") {
            None => 0,
            Some(rules) => item_count(rules) as u64,
        }
    }
}

impl<'a, P: RulePaths> Reader for Lists<'a, P> {
    type Out = Listed<RuleList>;

    ghost form = { λ r. table.lists_form (P.path_said r.paths.now) };

    #[tactic(auto, unfolding(crate::specs::Table::lists_form))]
    fn read(&self, alloc: Global, part: &Value) -> Result<Listed<RuleList>, ReadError> {
        if item_count(part) > LIST_LIMIT {
            return fault_here(alloc, ScenarioKind::TooMany);
        }
        read_weighed(alloc, part, 0, RULE_LIMIT, &RuleCount, self)
    }
}
