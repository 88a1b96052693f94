//! Names of any text: those of groups and users, of lists and rules, and of what rules are about.

ghost use Rattle.nm_access_form.specs.Parts.{any_text, module_of, operation_of};
ghost use Rattle.nm_access_form.specs.Table.{group, groups, target, texts};
ghost use Rattle.std.specs.Prelude.{◌≡◌};
ghost use Rattle.serde_json.specs.View.{view};
ghost use Rattle.nm_scenario_form.specs.Reading.{Gives};
ghost use Rattle.nm_scenario_form.specs.Read.{read};

use crate::entries::{EntryReader, read_entries};
use crate::member::GROUP_LIMIT;
use nm_access::{Group, Target};
use nm_base::Label;
use nm_proto::Listed;
use nm_scenario_form::places::fault_here;
use nm_scenario_form::{ItemReader, ReadError, Reader, ScenarioKind, read_list};
use serde_json::Value;
use std::alloc::Global;

/// A text.
#[derive(Drop)]
pub(crate) struct Name;

impl Reader for Name {
    type Out = Label;

    ghost form = { λ _. any_text };

    #[tactic(auto, unfolding(crate::specs::Parts::any_text_said))]
    fn read(&self, alloc: Global, part: &Value) -> Result<Label, ReadError> {
        match part.as_str() {
            None => fault_here(alloc, ScenarioKind::BadValue),
            Some(text) => Ok(Label::new(alloc, text)?),
        }
    }
}

/// Texts, any number of them.
#[derive(Drop)]
pub(crate) struct Names;

impl ItemReader for Names {
    type Out = Label;

    ghost form = { λ _ _ _. any_text };

    fn read(
        &self,
        alloc: Global,
        _whole: &Value,
        _place: usize,
        part: &Value,
    ) -> Result<Label, ReadError> {
        Name.read(alloc, part)
    }
}

impl Reader for Names {
    type Out = Listed<Label>;

    ghost form = { λ _. texts };

    fn read(&self, alloc: Global, part: &Value) -> Result<Listed<Label>, ReadError> {
        read_names(alloc, part)
    }
}

#[tactic(auto, unfolding(crate::specs::Table::texts))]
fn read_names(alloc: Global, part: &Value) -> Result<Listed<Label>, ReadError>
    ensures { Gives result (read texts (view part.now)) }
{
    read_list(alloc, part, 0, usize::MAX, &Names)
}

/// The member `groups`: the users of each group, by its name.
#[derive(Drop)]
pub(crate) struct Groups;

impl EntryReader for Groups {
    type Out = Group;

    ghost form = { λ _ name. group name };

    fn read(&self, alloc: Global, name: &str, part: &Value) -> Result<Group, ReadError> {
        let users = read_names(alloc, part)?;
        let name = Label::new(alloc, name)?;
        Ok(Group { name, users })
    }
}

impl Reader for Groups {
    type Out = Listed<Group>;

    ghost form = { λ _. groups };

    fn read(&self, alloc: Global, part: &Value) -> Result<Listed<Group>, ReadError> {
        read_entries(alloc, part, GROUP_LIMIT, self)
    }
}

/// The member `module` of a rule.
#[derive(Drop)]
pub(crate) struct ModuleTarget;

impl Reader for ModuleTarget {
    type Out = Option<Target>;

    ghost form = { λ _. target module_of };

    fn read(&self, alloc: Global, part: &Value) -> Result<Option<Target>, ReadError> {
        let name = Name.read(alloc, part)?;
        Ok(Some(module_of(name)))
    }
}

fn module_of(name: Label) -> Target
    ensures { result ≡ module_of name }
{
    if name.as_str() == "*" {
        return Target::Everything;
    }
    Target::Module(name)
}

/// The member `operation` of a rule.
#[derive(Drop)]
pub(crate) struct OperationTarget;

impl Reader for OperationTarget {
    type Out = Option<Target>;

    ghost form = { λ _. target operation_of };

    fn read(&self, alloc: Global, part: &Value) -> Result<Option<Target>, ReadError> {
        let name = Name.read(alloc, part)?;
        Ok(Some(operation_of(name)))
    }
}

fn operation_of(name: Label) -> Target
    ensures { result ≡ operation_of name }
{
    if name.as_str() == "*" {
        return Target::AnyOperation;
    }
    Target::Operation(name)
}
