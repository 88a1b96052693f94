//! Judging by the rules: whose lists they are, which rule matches first, and what it decides.

ghost use Rattle.std.specs.Prelude.{◌≡◌, ◌++◌, ◌∷◌, None, Some, find, option_copied, MatchOption, IfOk};
ghost use Rattle.std.specs.List.{list_any};
ghost use Rattle.nm_access.specs.declared.access.Judgement.TheVariants.{Deny};
ghost use Rattle.nm_access.specs.Rule as rule_spec;
ghost use Rattle.nm_access.specs.Judged as spec;

use crate::matches::{matches_operation, matches_row};
use crate::rule::{AccessRules, Action, Group, Rule, RuleList};
use nm_base::{Label, NoMemory};
use nm_proto::RowAccess;
use nm_types::Path;
use std::alloc::Global;
use std::marker::Model;

/// What is decided of an operation, or of the rows of an edit.
#[derive(Drop)]
pub enum Judgement {
    Permit,
    Deny {
        /// The rule that denies, as `LIST/RULE`, or `write-default`, `exec-default` or `kill-session`.
        by: Label,
        /// The row that is denied, where one is.
        path: Option<Path>,
    },
}

/// Rules to judge by.
#[derive(Drop)]
pub struct Access {
    alloc: Global,
    rules: AccessRules,
}

impl Model for Access {
    ghost use Rattle.nm_access.specs.declared.rule.AccessRules.{AccessRules as Rules};

    ghost Value = { Rules };

    ghost view = { λ access. access.rules };
}

// A rule with the name of its list.
#[derive(Drop)]
struct Found<'a> {
    list: &'a Label,
    rule: &'a Rule,
}

impl<'a> Model for Found<'a> {
    ghost use Rattle.nm_access.specs.Judged.{Ruled};

    ghost Value = { Ruled };

    ghost view = { λ found. record { list = found.list.now; rule = found.rule.now } };
}

// ---- a user's lists

fn has_user(group: &Group, user: &Label) -> bool
    ensures { result ≡ spec.has_user user.now group.now }
{
    group.users.as_slice().iter().any(|other| other == user)
}

fn is_group_of(group: &Group, user: &Label, name: &Label) -> bool
    ensures { result ≡ spec.is_group_of user.now name.now group.now }
{
    group.name == *name && has_user(group, user)
}

// Whether a user is in a group of a name.
fn is_in_named(groups: &[Group], user: &Label, name: &Label) -> bool
    ensures { result ≡ list_any (spec.is_group_of user.now name.now) groups.now }
{
    groups.iter().any(|group| is_group_of(group, user, name))
}

fn is_in(groups: &[Group], user: &Label, name: &Label) -> bool
    ensures { result ≡ spec.is_in groups.now user.now name.now }
{
    name.as_str() == "*" || is_in_named(groups, user, name)
}

// Whether a user is in any group.
fn is_in_some(groups: &[Group], user: &Label) -> bool
    ensures { result ≡ list_any (spec.has_user user.now) groups.now }
{
    groups.iter().any(|group| has_user(group, user))
}

// Whether one of some names is that of a user's group.
fn is_in_any(groups: &[Group], user: &Label, names: &[Label]) -> bool
    ensures { result ≡ list_any (spec.is_in groups.now user.now) names.now }
{
    names.iter().any(|name| is_in(groups, user, name))
}

/// Whether a list of rules is one of a user's: it names one of his groups, or `*`. Who is in no group has none.
pub fn is_list_of(groups: &[Group], user: &Label, list: &RuleList) -> bool
    ensures { result ≡ spec.is_list_of groups.now user.now list.now }
{
    is_in_some(groups, user) && is_in_any(groups, user, list.groups.as_slice())
}

// ---- the first rule that matches

fn first_operation_rule<'a>(rules: &'a [Rule], name: &str) -> Option<&'a Rule>
    ensures { option_copied result ≡ find (rule_spec.matches_operation name.now) rules.now }
{
    rules.iter().find(|rule| matches_operation(rule, name))
}

fn first_row_rule<'a>(rules: &'a [Rule], row: &(Path, RowAccess)) -> Option<&'a Rule>
    ensures { option_copied result ≡ find (rule_spec.matches_row row.now) rules.now }
{
    rules.iter().find(|rule| matches_row(rule, row))
}

// The first rule of a list that matches an operation, where the list is the user's.
#[tactic(auto, using(crate::proofs::Firsts::ruled_find))]
fn operation_rule_in<'a>(
    groups: &[Group],
    user: &Label,
    list: &'a RuleList,
    name: &str,
) -> Option<Found<'a>>
    ensures { MatchOption result (spec.in_list (rule_spec.matches_operation name.now) groups.now user.now list.now ≡ None)
        (λ found. spec.in_list (rule_spec.matches_operation name.now) groups.now user.now list.now ≡ Some found) }
{
    if !is_list_of(groups, user, list) {
        return None;
    }
    match first_operation_rule(list.rules.as_slice(), name) {
        None => None,
        Some(rule) => Some(Found {
            list: &list.name,
            rule,
        }),
    }
}

// The first rule of a list that matches a row, where the list is the user's.
#[tactic(auto, using(crate::proofs::Firsts::ruled_find))]
fn row_rule_in<'a>(
    groups: &[Group],
    user: &Label,
    list: &'a RuleList,
    row: &(Path, RowAccess),
) -> Option<Found<'a>>
    ensures { MatchOption result (spec.in_list (rule_spec.matches_row row.now) groups.now user.now list.now ≡ None)
        (λ found. spec.in_list (rule_spec.matches_row row.now) groups.now user.now list.now ≡ Some found) }
{
    if !is_list_of(groups, user, list) {
        return None;
    }
    match first_row_rule(list.rules.as_slice(), row) {
        None => None,
        Some(rule) => Some(Found {
            list: &list.name,
            rule,
        }),
    }
}

// The first rule of a user's lists that matches an operation.
fn first_operation_of<'a>(
    groups: &[Group],
    user: &Label,
    lists: &'a [RuleList],
    name: &str,
) -> Option<Found<'a>>
    ensures { MatchOption result (spec.first_of (rule_spec.matches_operation name.now) groups.now user.now lists.now ≡ None)
        (λ found. spec.first_of (rule_spec.matches_operation name.now) groups.now user.now lists.now ≡ Some found) }
{
    let mut rest = lists;
    'lists: while let [list, more @ ..] = rest {
        match operation_rule_in(groups, user, list, name) {
            None => rest = more,
            Some(found) => return Some(found),
        }
    }
    None
}

// The first rule of a user's lists that matches a row.
fn first_row_of<'a>(
    groups: &[Group],
    user: &Label,
    lists: &'a [RuleList],
    row: &(Path, RowAccess),
) -> Option<Found<'a>>
    ensures { MatchOption result (spec.first_of (rule_spec.matches_row row.now) groups.now user.now lists.now ≡ None)
        (λ found. spec.first_of (rule_spec.matches_row row.now) groups.now user.now lists.now ≡ Some found) }
{
    let mut rest = lists;
    'lists: while let [list, more @ ..] = rest {
        match row_rule_in(groups, user, list, row) {
            None => rest = more,
            Some(found) => return Some(found),
        }
    }
    None
}

// ---- what it decides

// `LIST/RULE`.
fn name_of(alloc: Global, list: &Label, rule: &Label) -> Result<Label, NoMemory>
    ensures { IfOk result (λ name. name ≡ list.now ++ 47 ∷ rule.now) }
{
    let mut name = String::new(alloc);
    name.push_str(list.as_str())?;
    name.push('/')?;
    name.push_str(rule.as_str())?;
    Label::new(alloc, name.as_str())
}

/// By what an action denies, where it does: by this name.
pub fn denied_by(alloc: Global, action: Action, name: &str) -> Result<Option<Label>, NoMemory>
    ensures { IfOk result (λ denial. denial ≡ spec.denied_by action name.now) }
{
    match action {
        Action::Permit => Ok(None),
        Action::Deny => Ok(Some(Label::new(alloc, name)?)),
    }
}

/// By what a rule of the list of a name denies, where it does: `LIST/RULE`.
pub fn rule_denial(alloc: Global, list: &Label, rule: &Rule) -> Result<Option<Label>, NoMemory>
    ensures { IfOk result (λ denial. denial ≡ spec.denial_of (spec.ruled_in list.now rule.now)) }
{
    match rule.action {
        Action::Permit => Ok(None),
        Action::Deny => Ok(Some(name_of(alloc, list, &rule.name)?)),
    }
}

fn operation_default(alloc: Global, default: Action, name: &str) -> Result<Option<Label>, NoMemory>
    ensures { IfOk result (λ denial. denial ≡ spec.operation_default default name.now) }
{
    if name == "kill-session" {
        return Ok(Some(Label::new(alloc, "kill-session")?));
    }
    denied_by(alloc, default, "exec-default")
}

// A denial of the row at a path.
fn denial_at(alloc: Global, by: Label, path: &Path) -> Result<Judgement, NoMemory>
    ensures { IfOk result (λ judgement. judgement ≡ Deny by (Some path.now)) }
{
    let path = path.copy(alloc)?;
    Ok(Judgement::Deny {
        by,
        path: Some(path),
    })
}

impl Access {
    /// Rules to judge by. It takes no memory.
    pub fn new(alloc: Global, rules: AccessRules) -> Access
        ensures { result ≡ rules }
    {
        Access { alloc, rules }
    }

    /// The rules.
    pub fn rules(&self) -> &AccessRules
        ensures { result.now ≡ self.now }
    {
        &self.rules
    }

    // By what an operation is denied.
    fn operation_denial(&self, user: &Label, name: &str) -> Result<Option<Label>, NoMemory>
        ensures { IfOk result (λ denial. denial ≡ spec.operation_denial self.now user.now name.now) }
    {
        if name == "close-session" {
            return Ok(None);
        }
        let groups = self.rules.groups.as_slice();
        let lists = self.rules.lists.as_slice();
        match first_operation_of(groups, user, lists, name) {
            Some(found) => rule_denial(self.alloc, found.list, found.rule),
            None => operation_default(self.alloc, self.rules.exec_default, name),
        }
    }

    // By what a row is denied.
    fn row_denial(&self, user: &Label, row: &(Path, RowAccess)) -> Result<Option<Label>, NoMemory>
        ensures { IfOk result (λ denial. denial ≡ spec.row_denial self.now user.now row.now) }
    {
        let groups = self.rules.groups.as_slice();
        let lists = self.rules.lists.as_slice();
        match first_row_of(groups, user, lists, row) {
            Some(found) => rule_denial(self.alloc, found.list, found.rule),
            None => denied_by(self.alloc, self.rules.write_default, "write-default"),
        }
    }

    /// Whether a user may ask for an operation, which goes by its name in NETCONF, as `edit-config`, `kill-session` or
    /// `close-session`.
    ///
    /// The first rule of the user's lists that matches decides, and without one the default. `close-session` is permitted whatever
    /// the rules say, and `kill-session` denied without a rule (RFC 8341 section 3.4.4).
    #[tactic(auto, unfolding(crate::specs::Judged::judged_operation))]
    pub fn judge_operation(&self, user: &Label, operation: &str) -> Result<Judgement, NoMemory>
        ensures { IfOk result (λ judgement. judgement ≡ spec.judged_operation self.now user.now operation.now) }
    {
        match self.operation_denial(user, operation)? {
            None => Ok(Judgement::Permit),
            Some(by) => Ok(Judgement::Deny { by, path: None }),
        }
    }

    /// Whether a user may do this to rows. Of those that are denied the first answers (RFC 8341 section 3.4.5).
    #[tactic(auto, unfolding(crate::specs::Judged::judged_rows))]
    pub fn judge_rows(
        &self,
        user: &Label,
        rows: &[(Path, RowAccess)],
    ) -> Result<Judgement, NoMemory>
        ensures { IfOk result (λ judgement. judgement ≡ spec.judged_rows self.now user.now rows.now) }
    {
        let mut rest = rows;
        'rows: while let [row, more @ ..] = rest {
            match self.row_denial(user, row)? {
                None => rest = more,
                Some(by) => return denial_at(self.alloc, by, &row.0),
            }
        }
        Ok(Judgement::Permit)
    }
}
