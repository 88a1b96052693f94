//! What is wrong with the names of a row.

ghost use Rattle.std.specs.Prelude.{◌≡◌, IfOk};
ghost use Rattle.nm_schema_statements.specs.Flaw as grammar;
ghost use Rattle.nm_schema_names.specs.Flaw as spec;

use crate::names::{RowNames, is_marker};
use nm_base::{Label, NoMemory};
use nm_schema_statements::{Flaw, Row, Word, is_builtin};

fn is_before(first: Option<usize>, at: usize) -> bool
    ensures { result ≡ grammar.is_before first at }
{
    match first {
        None => false,
        Some(first) => first < at,
    }
}

fn again_flaw(first: Option<usize>, at: usize, name: &Label) -> Result<Option<Flaw>, NoMemory>
    ensures { IfOk result (λ flaw. flaw ≡ spec.again_flaw first at name.now) }
{
    if is_before(first, at) {
        return Ok(Some(Flaw::Duplicate(name.copy()?)));
    }
    Ok(None)
}

fn reference_flaw(target: Option<usize>, text: &Label) -> Result<Option<Flaw>, NoMemory>
    ensures { IfOk result (λ flaw. flaw ≡ spec.reference_flaw target text.now) }
{
    match target {
        None => Ok(Some(Flaw::BadReference(text.copy()?))),
        Some(_) => Ok(None),
    }
}

impl<'a> RowNames<'a> {
    fn module_flaw(&self, at: usize, name: &'a Label) -> Result<Option<Flaw>, NoMemory>
        ensures { IfOk result (λ flaw. flaw ≡ spec.module_flaw self.now at name.now) }
    {
        if is_marker(name.as_str()) {
            return Ok(Some(Flaw::Duplicate(name.copy()?)));
        }
        again_flaw(self.named(None, Word::Module, name.as_str()), at, name)
    }

    fn import_flaw(&self, name: &'a Label) -> Result<Option<Flaw>, NoMemory>
        ensures { IfOk result (λ flaw. flaw ≡ spec.import_flaw self.now name.now) }
    {
        match self.module_named(name.as_str()) {
            None => Ok(Some(Flaw::Unknown(name.copy()?))),
            Some(_) => Ok(None),
        }
    }

    fn type_flaw(&self, at: usize, text: &'a Label) -> Result<Option<Flaw>, NoMemory>
        ensures { IfOk result (λ flaw. flaw ≡ spec.type_flaw self.now at text.now) }
    {
        if is_builtin(text.as_str()) {
            return Ok(None);
        }
        reference_flaw(self.definition(at, Word::Typedef, text.as_str()), text)
    }

    fn text_flaw(&self, at: usize, row: &'a Row, text: &'a Label) -> Result<Option<Flaw>, NoMemory>
        ensures { IfOk result (λ flaw. flaw ≡ spec.text_flaw self.now at row.now row.now.word text.now) }
    {
        let name = text.as_str();
        match row.word {
            Word::Module => self.module_flaw(at, text),
            Word::Import => self.import_flaw(text),
            Word::Prefix => again_flaw(self.named_within(row.module, Word::Prefix, name), at, text),
            Word::Typedef => again_flaw(self.named(row.parent, Word::Typedef, name), at, text),
            Word::Grouping => again_flaw(self.named(row.parent, Word::Grouping, name), at, text),
            Word::Type => self.type_flaw(at, text),
            Word::Uses => reference_flaw(self.definition(at, Word::Grouping, name), text),
            _ => Ok(None),
        }
    }

    /// What is wrong with the names of the row of a number from 0 (RFC 7950 sections 5.5, 6.2.1, 7.1.4 and 7.1.5): of a
    /// module, a prefix, a typedef or a grouping, an earlier one of its name where it counts; of an import, no given
    /// module of its name; of a type or a uses, a name that leads nowhere. A module of the name of that which netm adds
    /// is a second one. None of other rows and past the last row.
    #[tactic(auto, unfolding(crate::specs::Flaw::name_flaw))]
    pub fn name_flaw(&self, at: usize) -> Result<Option<Flaw>, NoMemory>
        ensures { IfOk result (λ flaw. flaw ≡ spec.name_flaw self.now at) }
    {
        let Some(row) = self.rows().row(at) else {
            return Ok(None);
        };
        match &row.argument {
            None => Ok(None),
            Some(text) => self.text_flaw(at, row, text),
        }
    }
}
