//! The rows of modules, and what stands in each.

ghost use Rattle.std.specs.Prelude.{◌≡◌, ◌++◌, ◌<◌, ◌∷◌, [], length, IfOk, OnOk, Some, None, slice_get, MatchOption, get_or, slice_set, nat_eq};
ghost use Rattle.nm_yang.specs.Tree.{trees_of};
ghost use Rattle.nm_schema_statements.specs.Rows as spec;

use crate::row::Row;
use crate::word::{Word, word_of};
use nm_base::{Label, NoMemory, Numbers};
use nm_yang::Statement;
use std::alloc::Global;
use std::marker::Model;

/// The rows of modules. They are seen as their list.
#[derive(Drop)]
pub struct Rows {
    rows: Vec<Row>,
    below: Vec<Numbers>,
    top: Numbers,
}

impl Model for Rows {
    ghost use Rattle.std.specs.Prelude.{List};
    ghost use Rattle.nm_schema_statements.specs.declared.row.Row.{Row};
    ghost use Rattle.nm_schema_statements.specs.Rows.{IsIndexed, FromModules};

    ghost Value = { List Row };

    ghost view = { λ r. r.rows.items };

    ghost invariant = { λ r. IsIndexed r.rows.items r.below.items r.top × FromModules r.rows.items };
}

impl Rows {
    /// How many rows there are.
    pub fn len(&self) -> usize
        ensures { result ≡ length self.now }
    {
        self.rows.len()
    }

    /// Whether there are no rows.
    pub fn is_empty(&self) -> bool
        ensures { result ≡ nat_eq (length self.now) 0 }
    {
        self.rows.is_empty()
    }

    /// The row of a number from 0, and None past the last.
    pub fn row(&self, at: usize) -> Option<&Row>
        ensures { MatchOption result (slice_get self.now at ≡ None) (λ row. slice_get self.now at ≡ Some row.now) }
    {
        self.rows.get(at)
    }

    /// The numbers of the rows directly in a row, ascending, and none past the last row.
    pub fn below(&self, at: usize) -> &[usize]
        ensures { result.now ≡ spec.children self.now at }
    {
        if at < self.below.len() {
            return self.below[at].as_slice();
        }
        &[]
    }

    /// The numbers of the rows of the modules themselves, in the order of the modules.
    pub fn roots(&self) -> &[usize]
        ensures { result.now ≡ spec.roots self.now }
    {
        self.top.as_slice()
    }

    /// What holds of the rows of modules. It does nothing: its contract is the law.
    #[tactic(auto, using(crate::proofs::Laws::are_rows))]
    pub fn laws(&self)
        ensures { spec.AreRows self.now }
    {
        let _count = self.rows.len();
    }

    // Whether the row of a number is there and has a word.
    fn has_word(&self, at: usize, wanted: Word) -> bool
        ensures { result ≡ spec.has_word wanted (slice_get self.now at) }
    {
        match self.row(at) {
            None => false,
            Some(row) => row.word.same(wanted),
        }
    }

    // The first of these rows that has a word.
    #[tactic(auto, using(crate::proofs::Finding::found, crate::proofs::Finding::passed))]
    fn first_with(&self, wanted: Word, numbers: &[usize]) -> Option<usize>
        ensures { result ≡ spec.first_with self.now wanted numbers.now }
    {
        for number in numbers {
            if self.has_word(*number, wanted) {
                return Some(*number);
            }
        }
        None
    }

    /// The first row directly in a row that has a word.
    pub fn first_below(&self, at: usize, wanted: Word) -> Option<usize>
        ensures { result ≡ spec.first_below self.now at wanted }
    {
        self.first_with(wanted, self.below(at))
    }

    /// The first row beside a row, or the row itself, that has a word: directly in `parent`, or outermost.
    pub fn first_in(&self, parent: Option<usize>, wanted: Word) -> Option<usize>
        ensures { result ≡ spec.first_with self.now wanted (spec.those_in 0 parent self.now) }
    {
        match parent {
            Some(at) => self.first_with(wanted, self.below(at)),
            None => self.first_with(wanted, self.roots()),
        }
    }
}

// The rows of modules while they are made.
#[derive(Drop)]
struct Draft {
    rows: Vec<Row>,
    below: Vec<Numbers>,
    top: Numbers,
}

fn copy_of(label: &Option<Label>) -> Result<Option<Label>, NoMemory>
    ensures { IfOk result (λ copy. copy ≡ label.now) }
{
    match label {
        None => Ok(None),
        Some(label) => Ok(Some(label.copy()?)),
    }
}

fn row_for(owner: usize, parent: Option<usize>, statement: &Statement) -> Result<Row, NoMemory>
    ensures { IfOk result (λ row. row ≡ spec.row_of owner parent statement.now) }
{
    Ok(Row {
        word: word_of(statement.keyword.as_str()),
        keyword: statement.keyword.copy()?,
        argument: copy_of(&statement.argument)?,
        place: statement.place,
        parent,
        module: owner,
    })
}

fn is_skipped(word: Word) -> bool
    ensures { result ≡ spec.is_skipped word }
{
    match word {
        Word::Skipped => true,
        _ => false,
    }
}

fn is_opened(word: Word) -> bool
    ensures { result ≡ spec.is_opened word }
{
    match word {
        Word::Skipped => false,
        Word::Unsupported => false,
        Word::Unknown => false,
        _ => true,
    }
}

fn add_number(below: &mut Vec<Numbers>, parent: usize, number: usize) -> Result<(), NoMemory>
    requires { parent < length below.old.items }
    ensures { OnOk result (below.new.items ≡ slice_set below.old.items parent (get_or below.old.items parent [] ++ number ∷ [])) }
{
    below[parent].push(number)
}

// The row of a module itself.
fn push_root(alloc: Global, draft: &mut Draft, row: Row) -> Result<(), NoMemory>
    requires indexed { spec.IsIndexed draft.old.rows.items draft.old.below.items draft.old.top }
    requires outermost { row.parent ≡ None }
    ensures pushed { OnOk result (draft.new.rows.items ≡ draft.old.rows.items ++ row ∷ []) }
    ensures indexed { OnOk result (spec.IsIndexed draft.new.rows.items draft.new.below.items draft.new.top) }
{
    let at = draft.rows.len();
    draft.top.push(at)?;
    draft.below.push(Numbers::new(alloc))?;
    draft.rows.push(row)?;
    Ok(())
}

// A row within an earlier one.
fn push_below(alloc: Global, draft: &mut Draft, parent: usize, row: Row) -> Result<(), NoMemory>
    requires indexed { spec.IsIndexed draft.old.rows.items draft.old.below.items draft.old.top }
    requires earlier { parent < length draft.old.rows.items }
    requires within { row.parent ≡ Some parent }
    ensures pushed { OnOk result (draft.new.rows.items ≡ draft.old.rows.items ++ row ∷ []) }
    ensures indexed { OnOk result (spec.IsIndexed draft.new.rows.items draft.new.below.items draft.new.top) }
{
    let at = draft.rows.len();
    add_number(&mut draft.below, parent, at)?;
    draft.below.push(Numbers::new(alloc))?;
    draft.rows.push(row)?;
    Ok(())
}

#[cycle(put)]
fn put_each(
    alloc: Global,
    draft: &mut Draft,
    owner: usize,
    parent: usize,
    statements: &[Statement],
) -> Result<(), NoMemory>
    requires indexed { spec.IsIndexed draft.old.rows.items draft.old.below.items draft.old.top }
    requires earlier { parent < length draft.old.rows.items }
    ensures put { OnOk result
        (draft.new.rows.items ≡ draft.old.rows.items ++ spec.rows_within owner parent (length draft.old.rows.items) (trees_of statements.now)) }
    ensures indexed { OnOk result (spec.IsIndexed draft.new.rows.items draft.new.below.items draft.new.top) }
{
    for statement in statements {
        put_statement(alloc, draft, owner, parent, statement)?;
    }
    Ok(())
}

#[cycle(put)]
fn put_statement(
    alloc: Global,
    draft: &mut Draft,
    owner: usize,
    parent: usize,
    statement: &Statement,
) -> Result<(), NoMemory>
    requires indexed { spec.IsIndexed draft.old.rows.items draft.old.below.items draft.old.top }
    requires earlier { parent < length draft.old.rows.items }
    ensures put { OnOk result (draft.new.rows.items ≡ draft.old.rows.items ++ spec.rows_kept owner parent (length draft.old.rows.items) statement.now) }
    ensures indexed { OnOk result (spec.IsIndexed draft.new.rows.items draft.new.below.items draft.new.top) }
{
    let word = word_of(statement.keyword.as_str());
    if is_skipped(word) {
        return Ok(());
    }
    let at = draft.rows.len();
    let row = row_for(owner, Some(parent), statement)?;
    push_below(alloc, draft, parent, row)?;
    if !is_opened(word) {
        return Ok(());
    }
    put_each(alloc, draft, owner, at, &statement.below)
}

fn put_module(
    alloc: Global,
    draft: &mut Draft,
    owner: usize,
    statement: &Statement,
) -> Result<(), NoMemory>
    requires { spec.IsIndexed draft.old.rows.items draft.old.below.items draft.old.top }
    ensures put { OnOk result (draft.new.rows.items ≡ draft.old.rows.items ++ spec.rows_from owner None (length draft.old.rows.items) statement.now) }
    ensures indexed { OnOk result (spec.IsIndexed draft.new.rows.items draft.new.below.items draft.new.top) }
{
    let at = draft.rows.len();
    let row = row_for(owner, None, statement)?;
    push_root(alloc, draft, row)?;
    if !is_opened(word_of(statement.keyword.as_str())) {
        return Ok(());
    }
    put_each(alloc, draft, owner, at, &statement.below)
}

fn draft_of(alloc: Global, modules: &[Statement]) -> Result<Draft, NoMemory>
    ensures rows { IfOk result (λ draft. draft.rows.items ≡ spec.rows_of modules.now) }
    ensures indexed { IfOk result (λ draft. spec.IsIndexed draft.rows.items draft.below.items draft.top) }
{
    let mut draft = Draft {
        rows: Vec::new(alloc),
        below: Vec::new(alloc),
        top: Numbers::new(alloc),
    };
    for owner in 0..modules.len() {
        put_module(alloc, &mut draft, owner, &modules[owner])?;
    }
    Ok(draft)
}

/// The rows of modules, in the order of modules and places.
pub fn rows_of(alloc: Global, modules: &[Statement]) -> Result<Rows, NoMemory>
    ensures rows { IfOk result (λ rows. rows ≡ spec.rows_of modules.now) }
    ensures roots { IfOk result (λ rows. length (spec.roots rows) ≡ length modules.now) }
{
    let draft = draft_of(alloc, modules)?;
    Ok(Rows {
        rows: draft.rows,
        below: draft.below,
        top: draft.top,
    })
}
