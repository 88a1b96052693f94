//! Rules as a scenario gives them: groups of users, and lists of rules for them (RFC 8341 section 3.2).

use nm_base::Label;
use nm_proto::Listed;
use nm_types::Path;

/// What a rule, or a default, decides.
#[derive(Clone, Copy)]
pub enum Action {
    Permit,
    Deny,
}

/// Which accesses a rule is about. Reading isn't judged.
#[derive(Clone, Copy)]
pub struct Accesses {
    /// A row comes.
    pub create: bool,
    /// A row gets another value.
    pub update: bool,
    /// A row goes.
    pub delete: bool,
    /// An operation is asked for.
    pub exec: bool,
}

/// What a rule is about.
#[derive(Drop)]
pub enum Target {
    /// All operations and all rows.
    Everything,
    /// The rows of a module.
    Module(Label),
    /// All operations.
    AnyOperation,
    /// The operation of a name.
    Operation(Label),
    /// The rows at and below a path, in which a list or a leaf-list without its keys stands for all its entries.
    Path(Path),
}

/// One rule of a list.
#[derive(Drop)]
pub struct Rule {
    pub name: Label,
    pub action: Action,
    pub accesses: Accesses,
    pub target: Target,
}

/// Users under one name.
#[derive(Drop)]
pub struct Group {
    pub name: Label,
    pub users: Listed<Label>,
}

/// Rules for the users of some groups, the first that matches before the others.
#[derive(Drop)]
pub struct RuleList {
    pub name: Label,
    /// The names of groups; `*` is that of all of them.
    pub groups: Listed<Label>,
    pub rules: Listed<Rule>,
}

/// All groups and lists, and what is decided where no rule matches.
#[derive(Drop)]
pub struct AccessRules {
    pub groups: Listed<Group>,
    pub lists: Listed<RuleList>,
    /// For rows.
    pub write_default: Action,
    /// For operations.
    pub exec_default: Action,
}
