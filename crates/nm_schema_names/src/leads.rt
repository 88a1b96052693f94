//! Where the names of types and groupings lead.

ghost use Rattle.std.specs.Prelude.{◌≡◌, ◌<◌, Some, IfSome, length};
ghost use Rattle.nm_schema_names.specs.Leads as spec;
ghost use Rattle.nm_schema_names.specs.Standing.{Stands};

use crate::names::RowNames;
use nm_schema_statements::{Word, is_builtin, name_of, prefix_of};

impl<'a> RowNames<'a> {
    // The definition of a name in the statements around a row, from inside out.
    #[tactic(auto, using(crate::proofs::Scopes::looked, crate::proofs::Scopes::found, crate::proofs::Scopes::ended), unfolding(crate::specs::Leads::scoped, crate::specs::Leads::enclosing))]
    fn scoped(&self, at: usize, word: Word, name: &'a str) -> Option<usize>
        ensures { result ≡ spec.scoped self.now at word name.now }
    {
        let mut steps = at;
        let mut scope = self.parent_of(at);
        while steps > 0 {
            let Some(inside) = scope else {
                return None;
            };
            if let Some(found) = self.named(Some(inside), word, name) {
                return Some(found);
            }
            scope = self.parent_of(inside);
            steps -= 1;
        }
        None
    }

    // The definition of a name with a prefix.
    fn prefixed(
        &self,
        at: usize,
        word: Word,
        owner: usize,
        prefix: &'a str,
        name: &'a str,
    ) -> Option<usize>
        ensures { result ≡ spec.definition_by self.now at word owner (Some prefix.now) name.now }
    {
        if self.is_own(owner, prefix) {
            return self.scoped(at, word, name);
        }
        self.named_in(self.prefix_leads(owner, prefix), word, name)
    }

    /// The typedef or grouping, by the word, that a name leads to as it is written at a row: without a prefix, or with
    /// the module's own, the first in the statements around the row, from inside out; else the one directly in the
    /// module of the prefix (RFC 7950 sections 5.5, 7.3 and 7.13).
    #[tactic(auto, using(crate::proofs::Standing::found_stands))]
    pub fn definition(&self, at: usize, word: Word, text: &'a str) -> Option<usize>
        ensures value { result ≡ spec.definition self.now at word text.now }
        ensures stands { IfSome result (Stands self.now at word text.now) }
    {
        self.defined(at, word, text)
    }

    #[tactic(auto, unfolding(crate::specs::Leads::definition))]
    fn defined(&self, at: usize, word: Word, text: &'a str) -> Option<usize>
        ensures { result ≡ spec.definition self.now at word text.now }
    {
        let Some(row) = self.rows().row(at) else {
            return None;
        };
        match prefix_of(text) {
            None => self.scoped(at, word, name_of(text)),
            Some(prefix) => self.prefixed(at, word, row.module, prefix, name_of(text)),
        }
    }

    // What the argument of a type or a uses leads to.
    fn text_leads(&self, at: usize, word: Word, text: &'a str) -> Option<usize>
        ensures { result ≡ spec.text_leads self.now at word text.now }
    {
        match word {
            Word::Type => {
                if is_builtin(text) {
                    return None;
                }
                self.definition(at, Word::Typedef, text)
            }
            Word::Uses => self.definition(at, Word::Grouping, text),
            _ => None,
        }
    }

    /// The typedef that a type names, and the grouping that a uses names. None of a built-in type, where there is none
    /// of the name, and of other rows.
    pub fn leads_to(&self, at: usize) -> Option<usize>
        ensures value { result ≡ spec.leads_to self.now at }
        ensures within { IfSome result (λ found. found < length self.now) }
    {
        self.led_to(at)
    }

    #[tactic(auto, unfolding(crate::specs::Leads::leads_to))]
    fn led_to(&self, at: usize) -> Option<usize>
        ensures { result ≡ spec.leads_to self.now at }
    {
        let Some(row) = self.rows().row(at) else {
            return None;
        };
        match &row.argument {
            None => None,
            Some(argument) => self.text_leads(at, row.word, argument.as_str()),
        }
    }
}
