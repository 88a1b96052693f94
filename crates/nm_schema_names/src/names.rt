//! The names of modules and prefixes.

ghost use Rattle.std.specs.Prelude.{◌≡◌, IfOk, Some};
ghost use Rattle.nm_schema_names.specs.Named as spec;

use crate::key::{Key, Reach};
use crate::modules::modules_of;
use crate::table::{Table, table_of};
use indexmap::IndexMap;
use nm_base::{MARKER, NoMemory};
use nm_schema_statements::{Row, Rows, Word};
use std::alloc::Global;
use std::marker::Model;

/// The names of the rows of modules. They are seen as the list of the rows.
///
/// To find a row takes time as the logarithm of the rows, and a definition that once for each statement around.
#[derive(Drop)]
pub struct RowNames<'a> {
    rows: &'a Rows,
    beside: Table<'a>,
    within: Table<'a>,
    modules: IndexMap<&'a str, usize>,
}

impl<'a> Model for RowNames<'a> {
    ghost use Rattle.std.specs.Prelude.{List};
    ghost use Rattle.nm_schema_statements.specs.declared.row.Row.{Row};
    ghost use Rattle.nm_schema_names.specs.declared.key.Reach.TheVariants as reach;
    ghost use Rattle.nm_schema_names.specs.Table.{IsTable};
    ghost use Rattle.nm_schema_names.specs.Modules.{AreModules};

    ghost Value = { List Row };

    ghost view = { λ n. n.rows.now };

    ghost invariant = { λ n. IsTable reach.Statement n.rows.now n.beside × IsTable reach.Module n.rows.now n.within × AreModules n.rows.now n.modules };
}

/// Whether a module's name is that of the module that netm adds by itself.
#[tactic(auto, unfolding(crate::specs::Named::is_marker, nm_base::specs::Words::marker_name))]
pub fn is_marker(name: &str) -> bool
    ensures { result ≡ spec.is_marker name.now }
{
    name == MARKER
}

impl<'a> RowNames<'a> {
    /// The names of all rows.
    pub fn new(alloc: Global, rows: &'a Rows) -> Result<RowNames<'a>, NoMemory>
        ensures { IfOk result (λ names. names ≡ rows.now) }
    {
        let beside = table_of(alloc, rows, Reach::Statement)?;
        let within = table_of(alloc, rows, Reach::Module)?;
        let modules = modules_of(alloc, rows)?;
        Ok(RowNames {
            rows,
            beside,
            within,
            modules,
        })
    }

    /// The rows.
    pub fn rows(&self) -> &'a Rows
        ensures { result.now ≡ self.now }
    {
        self.rows
    }

    /// The first row directly in row `parent`, or outermost, that has a word and the name as its argument.
    #[tactic(auto, unfolding(crate::specs::Table::IsTable))]
    pub fn named(&self, parent: Option<usize>, word: Word, name: &'a str) -> Option<usize>
        ensures { result ≡ spec.named self.now parent word name.now }
    {
        self.beside.get(&Key {
            space: parent,
            number: word.number(),
            name,
        })
    }

    /// The first row anywhere in the module of a number from 0 that has a word and the name as its argument.
    #[tactic(auto, unfolding(crate::specs::Table::IsTable))]
    pub fn named_within(&self, owner: usize, word: Word, name: &'a str) -> Option<usize>
        ensures { result ≡ spec.named_within self.now owner word name.now }
    {
        self.within.get(&Key {
            space: Some(owner),
            number: word.number(),
            name,
        })
    }

    /// The row of the module of a number from 0, and None past the last.
    pub fn top(&self, owner: usize) -> Option<usize>
        ensures { result ≡ spec.top self.now owner }
    {
        self.rows.roots().get(owner).copied()
    }

    /// The given module of a name. The module that netm adds by itself is none of them.
    #[tactic(auto, unfolding(crate::specs::Named::module_named, crate::specs::Modules::AreModules))]
    pub fn module_named(&self, name: &'a str) -> Option<usize>
        ensures { result ≡ spec.module_named self.now name.now }
    {
        if is_marker(name) {
            return None;
        }
        self.modules.get(name).copied()
    }

    /// The first row directly in a row, if there is one, that has a word and the name as its argument.
    pub fn named_in(&self, parent: Option<usize>, word: Word, name: &'a str) -> Option<usize>
        ensures { result ≡ spec.named_in self.now parent word name.now }
    {
        match parent {
            None => None,
            Some(parent) => self.named(Some(parent), word, name),
        }
    }

    /// Whether a prefix is that of the module itself.
    #[tactic(auto, unfolding(crate::specs::Named::is_own))]
    pub fn is_own(&self, owner: usize, prefix: &'a str) -> bool
        ensures { result ≡ spec.is_own self.now owner prefix.now }
    {
        self.named_in(self.top(owner), Word::Prefix, prefix)
            .is_some()
    }

    /// The row that a row stands in.
    pub fn parent_of(&self, at: usize) -> Option<usize>
        ensures { result ≡ spec.parent_of self.now at }
    {
        match self.rows.row(at) {
            None => None,
            Some(row) => row.parent,
        }
    }

    // The module that an import takes in.
    fn imported(&self, around: &'a Row) -> Option<usize>
        ensures { result ≡ spec.module_called self.now (spec.imported (Some around.now)) }
    {
        if !around.word.same(Word::Import) {
            return None;
        }
        match &around.argument {
            None => None,
            Some(name) => self.module_named(name.as_str()),
        }
    }

    // The module that the import around a prefix takes in.
    fn import_leads(&self, prefix: Option<usize>) -> Option<usize>
        ensures { result ≡ spec.import_leads self.now prefix }
    {
        let Some(prefix) = prefix else {
            return None;
        };
        let Some(parent) = self.parent_of(prefix) else {
            return None;
        };
        match self.rows.row(parent) {
            None => None,
            Some(around) => self.imported(around),
        }
    }

    /// The module that a prefix leads to in the module of a number from 0: that module itself by its own prefix, or one
    /// that it imports (RFC 7950 sections 7.1.4 and 7.1.5).
    #[tactic(auto, unfolding(crate::specs::Named::prefix_leads))]
    pub fn prefix_leads(&self, owner: usize, prefix: &'a str) -> Option<usize>
        ensures { result ≡ spec.prefix_leads self.now owner prefix.now }
    {
        if self.is_own(owner, prefix) {
            return self.top(owner);
        }
        self.import_leads(self.named_within(owner, Word::Prefix, prefix))
    }
}
