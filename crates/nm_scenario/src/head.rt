//! What comes first in a scenario: its version, the form of its contents and its modules.

ghost use Rattle.std.specs.Prelude.{◌≡◌, IfOk};
ghost use Rattle.serde_json.specs.View.{view};
ghost use Rattle.nm_yang.specs.Module.{reading};
ghost use Rattle.nm_scenario_form.specs.Reading.{Gives};
ghost use Rattle.nm_scenario_form.specs.Form.{leaf, object};
ghost use Rattle.nm_scenario_form.specs.Read.{read, told};
ghost use Rattle.nm_scenario.specs.Head.{any_name, contents, flat_parts, has_word, head_form, module_read, module_said, modules_form, plain_parts, statements_of, texts_of, yang_parts};
ghost use Rattle.nm_scenario.specs.declared.head.Head.TheVariants as head;

use crate::causes::text_fault;
use crate::nothing::Nothing;
use nm_base::{Label, NoMemory};
use nm_proto::Listed;
use nm_scenario_form::places::{KnownNames, fault_here};
use nm_scenario_form::{
    ItemReader, Number, ReadError, Reader, ScenarioKind, no_other_names, optional, read_list,
    read_object, required,
};
use nm_yang::{Statement, YangFault, read_module};
use serde_json::Value;
use std::alloc::Global;

/// A module as it was read.
#[derive(Drop)]
pub struct ReadModule {
    pub text: Label,
    pub statement: Statement,
}

/// What comes first in a scenario.
#[derive(Drop)]
pub enum Head {
    /// Numbered cells.
    Flat,
    /// Data of these YANG modules (RFC 7950).
    Yang { modules: Listed<ReadModule> },
}

/// How many modules a scenario may have: their schema trees stay below what one device's configuration may take.
pub const MODULE_LIMIT: usize = 16;

// Whether a member is this word.
fn has_word(whole: &Value, name: &str, word: &str) -> bool
    ensures { result ≡ has_word name.now word.now (view whole.now) }
{
    match whole.get(name) {
        None => false,
        Some(part) => match part.as_str() {
            None => false,
            Some(text) => text == word,
        },
    }
}

/// The member `contents`.
#[derive(Drop)]
struct Contents;

impl Reader for Contents {
    type Out = ();

    ghost form = { λ _. contents };

    #[tactic(auto, unfolding(crate::specs::Head::contents_said))]
    fn read(&self, alloc: Global, part: &Value) -> Result<(), ReadError> {
        match part.as_str() {
            Some(word) if word == "flat" || word == "yang" => Ok(()),
            _ => fault_here(alloc, ScenarioKind::BadValue),
        }
    }
}

/// The member `modules`: the texts of modules.
#[derive(Drop)]
struct Modules;

impl ItemReader for Modules {
    type Out = ReadModule;

    ghost form = { λ _ _ _. leaf module_said };

    #[tactic(auto, unfolding(crate::specs::Head::module_said))]
    fn read(
        &self,
        alloc: Global,
        _whole: &Value,
        _place: usize,
        part: &Value,
    ) -> Result<ReadModule, ReadError> {
        match part.as_str() {
            None => fault_here(alloc, ScenarioKind::BadValue),
            Some(text) => read_text(alloc, text),
        }
    }
}

fn read_text(alloc: Global, text: &str) -> Result<ReadModule, ReadError>
    ensures { Gives result (told (module_read text.now (reading text.now))) }
{
    match read_module(alloc, text.as_bytes()) {
        Ok(statement) => Ok(ReadModule {
            text: Label::new(alloc, text)?,
            statement,
        }),
        Err(YangFault::Bad { place, kind }) => text_fault(alloc, kind, place),
        Err(YangFault::NoMemory) => Err(ReadError::NoMemory),
    }
}

impl Reader for Modules {
    type Out = Listed<ReadModule>;

    ghost form = { λ _. modules_form };

    #[tactic(auto, unfolding(crate::specs::Head::modules_form))]
    fn read(&self, alloc: Global, part: &Value) -> Result<Listed<ReadModule>, ReadError> {
        read_list(alloc, part, 0, MODULE_LIMIT, self)
    }
}

#[derive(Drop)]
struct AnyName;

impl KnownNames for AnyName {
    ghost knows = { λ _. any_name };

    fn knows(&self, _name: &str) -> bool {
        true
    }
}

/// What comes first in a scenario.
#[tactic(auto, unfolding(crate::specs::Head::head_form))]
pub fn read_head(alloc: Global, whole: &Value) -> Result<Head, ReadError>
    ensures { Gives result (read head_form (view whole.now)) }
{
    if has_word(whole, "contents", "yang") {
        return yang_head(alloc, whole);
    }
    if has_word(whole, "contents", "flat") {
        return flat_head(alloc, whole);
    }
    plain_head(alloc, whole)
}

fn yang_head(alloc: Global, whole: &Value) -> Result<Head, ReadError>
    ensures { Gives result (read (object any_name yang_parts (λ version contents modules. head.Yang modules)) (view whole.now)) }
{
    read_object(alloc, whole)?;
    required(alloc, whole, "netm", &Number { low: 1, high: 1 })?;
    required(alloc, whole, "contents", &Contents)?;
    let modules = optional(alloc, whole, "modules", Listed::new(alloc), &Modules)?;
    no_other_names(alloc, whole, &AnyName)?;
    Ok(Head::Yang { modules })
}

fn flat_head(alloc: Global, whole: &Value) -> Result<Head, ReadError>
    ensures { Gives result (read (object any_name flat_parts (λ version contents modules. head.Flat)) (view whole.now)) }
{
    let none = Nothing {
        otherwise: ScenarioKind::BadValue,
    };
    read_object(alloc, whole)?;
    required(alloc, whole, "netm", &Number { low: 1, high: 1 })?;
    required(alloc, whole, "contents", &Contents)?;
    optional(alloc, whole, "modules", (), &none)?;
    no_other_names(alloc, whole, &AnyName)?;
    Ok(Head::Flat)
}

fn plain_head(alloc: Global, whole: &Value) -> Result<Head, ReadError>
    ensures { Gives result (read (object any_name plain_parts (λ version contents. head.Flat)) (view whole.now)) }
{
    read_object(alloc, whole)?;
    required(alloc, whole, "netm", &Number { low: 1, high: 1 })?;
    required(alloc, whole, "contents", &Contents)?;
    no_other_names(alloc, whole, &AnyName)?;
    Ok(Head::Flat)
}

/// The texts of modules, and their statements.
#[derive(Drop)]
pub struct ModuleParts {
    pub texts: Listed<Label>,
    pub statements: Listed<Statement>,
}

/// Parts modules into their texts and their statements.
pub fn parts_of(alloc: Global, modules: Listed<ReadModule>) -> Result<ModuleParts, NoMemory>
    ensures texts { IfOk result (λ parts. parts.texts ≡ texts_of modules) }
    ensures statements { IfOk result (λ parts. parts.statements ≡ statements_of modules) }
{
    let mut texts = Listed::new(alloc);
    let mut statements = Listed::new(alloc);
    let mut rest = modules.into_vec().into_iter();
    while let Some(module) = rest.next() {
        texts.push(module.text)?;
        statements.push(module.statement)?;
    }
    Ok(ModuleParts { texts, statements })
}
