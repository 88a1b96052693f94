//! What is unique in lists.

ghost use Rattle.std.specs.Prelude.{◌≡◌, ℕ, IfOk, false, filter, is_some, length, map, slice_index_or};
ghost use Rattle.std.specs.List.{find};
ghost use Rattle.nm_graph.specs.Value.{all_there};
ghost use Rattle.nm_schema_keys.specs.ConfigUse.{ConfigUse, IsConfigUse, loses_state};
ghost use Rattle.nm_schema_keys.specs.Uniques as spec;

use crate::finder::Finder;
use crate::found::{Found, has_word, is_there, loses_state};
use crate::passage::Passage;
use crate::said::{Said, said_at};
use crate::words::{pieces_of, words_of};
use nm_base::{Label, NoMemory, Numbers};
use nm_schema_names::RowNames;
use nm_schema_statements::{Flaw, Rows, Word};
use nm_schema_uses::Shape;
use std::alloc::Global;
use std::marker::Model;

/// What a `unique` statement says: for each of its words the rows that it leads through. It is seen as the list of these.
#[derive(Drop)]
pub struct Unique {
    ways: Vec<Numbers>,
}

impl Model for Unique {
    ghost use Rattle.std.specs.Prelude.{List, ℕ};

    ghost Value = { List (List ℕ) };

    ghost view = { λ u. u.ways.items };
}

impl Unique {
    /// For each word the rows that it leads through.
    pub fn ways(&self) -> &[Numbers]
        ensures { result.now ≡ self.now }
    {
        self.ways.as_slice()
    }
}

/// What the `unique` statements of a list say, in their order. It is seen as the list of these.
#[derive(Drop)]
pub struct Uniques {
    all: Vec<Unique>,
}

impl Model for Uniques {
    ghost use Rattle.std.specs.Prelude.{List, ℕ};

    ghost Value = { List (List (List ℕ)) };

    ghost view = { λ u. u.all.items };
}

impl Uniques {
    /// What each statement says.
    pub fn as_slice(&self) -> &[Unique]
        ensures { result.now ≡ self.now }
    {
        self.all.as_slice()
    }
}

// From where the words of a `unique` are followed.
#[derive(Clone, Copy)]
struct Start {
    // The row of the list.
    list: usize,
    // The number of the module of the statement.
    owner: usize,
    // Whether state is lost in the list.
    loses: bool,
}

// From where the words of a statement are followed.
fn start_of(shape: &Shape<'_>, said: &Said<'_>) -> Start
    ensures list { result.list ≡ said.now.list }
    ensures owner { result.owner ≡ said.now.owner }
    ensures loses { (standing : ConfigUse) → IsConfigUse shape.now.rows shape.now.groupings standing → result.loses ≡ loses_state standing said.now.list }
{
    Start {
        list: said.list,
        owner: said.owner,
        loses: loses_state(shape, said.list),
    }
}

fn word_before(pieces: &[&str]) -> Word
    ensures { result ≡ spec.word_before (map (λ t. t.now) pieces.now) }
{
    match pieces {
        [] => Word::Leaf,
        [_, ..] => Word::Container,
    }
}

impl<'n, 'a, 's> Finder<'n, 'a, 's> {
    // The member of a row that the first of some pieces of a word names.
    #[tactic(auto, unfolding(crate::specs::Uniques::next_row))]
    fn next_row(
        &mut self,
        alloc: Global,
        start: Start,
        at: usize,
        piece: &'a str,
        pieces: &[&'a str],
    ) -> Result<Found, NoMemory>
        ensures same { self.new ≡ self.old }
        ensures found { IfOk result
            (λ found. found ≡ spec.next_row self.old.rows self.old.groupings start.loses start.owner at piece.now (map (λ t. t.now) pieces.now)) }
    {
        let wanted = word_before(pieces);
        self.fit(alloc, at, start.loses, start.owner, wanted, piece)
    }

    // The rows that pieces of a word lead through from the list.
    fn passage_along(
        &mut self,
        alloc: Global,
        start: Start,
        pieces: &[&'a str],
    ) -> Result<Passage, NoMemory>
        ensures same { self.new ≡ self.old }
        ensures passage { IfOk result (λ passage. passage
            ≡ spec.passage_along self.old.rows self.old.groupings start.loses start.owner start.list (map (λ t. t.now) pieces.now)) }
    {
        let mut way = Numbers::new(alloc);
        let mut at = start.list;
        let mut pieces = pieces;
        while let [piece, rest @ ..] = pieces {
            match self.next_row(alloc, start, at, piece, rest) {
                Ok(Found::Row(next)) => at = next,
                Ok(Found::Missing) => return Ok(Passage::Missing),
                Ok(Found::Unknown) => return Ok(Passage::Unknown),
                Err(error) => return Err(error),
            }
            way.push(at)?;
            pieces = rest;
        }
        Ok(Passage::Through(way))
    }

    // The rows that a word leads through from the list.
    #[tactic(auto, unfolding(crate::specs::Uniques::passage_of))]
    fn passage_of(
        &mut self,
        alloc: Global,
        start: Start,
        word: &'a str,
    ) -> Result<Passage, NoMemory>
        ensures same { self.new ≡ self.old }
        ensures passage { IfOk result (λ passage. passage ≡ spec.passage_of self.old.rows self.old.groupings start.loses start.owner start.list word.now) }
    {
        let pieces = pieces_of(alloc, word)?;
        self.passage_along(alloc, start, &pieces)
    }

    // Whether a word leads to nothing that fits.
    #[tactic(auto, unfolding(crate::specs::Uniques::leads_nowhere))]
    fn leads_nowhere(
        &mut self,
        alloc: Global,
        start: Start,
        word: &'a str,
    ) -> Result<bool, NoMemory>
        ensures same { self.new ≡ self.old }
        ensures astray { IfOk result (λ astray. astray ≡ spec.leads_nowhere self.old.rows self.old.groupings start.loses start.owner start.list word.now) }
    {
        let passage = self.passage_of(alloc, start, word)?;
        Ok(passage.is_missing())
    }

    // The rows that a word leads through.
    #[tactic(auto, unfolding(crate::specs::Uniques::way_of))]
    fn way_of(
        &mut self,
        alloc: Global,
        start: Start,
        word: &'a str,
    ) -> Result<Option<Numbers>, NoMemory>
        ensures same { self.new ≡ self.old }
        ensures way { IfOk result (λ way. way ≡ spec.way_of self.old.rows self.old.groupings start.loses start.owner start.list word.now) }
    {
        let passage = self.passage_of(alloc, start, word)?;
        Ok(passage.way())
    }

    // The first word that leads to nothing that fits.
    fn first_astray(
        &mut self,
        alloc: Global,
        start: Start,
        words: &[&'a str],
    ) -> Result<Option<Label>, NoMemory>
        ensures same { self.new ≡ self.old }
        ensures word { IfOk result (λ word. word
            ≡ find (spec.leads_nowhere self.old.rows self.old.groupings start.loses start.owner start.list) (map (λ t. t.now) words.now)) }
    {
        for word in words {
            match self.leads_nowhere(alloc, start, word) {
                Ok(false) => {}
                Ok(true) => return Ok(Some(Label::new(alloc, word)?)),
                Err(error) => return Err(error),
            }
        }
        Ok(None)
    }

    // What is wrong with the words of a statement.
    fn words_flaw(
        &mut self,
        alloc: Global,
        start: Start,
        words: &[&'a str],
    ) -> Result<Option<Flaw>, NoMemory>
        ensures same { self.new ≡ self.old }
        ensures flaw { IfOk result (λ flaw. flaw
            ≡ spec.unique_words_flaw (spec.leads_nowhere self.old.rows self.old.groupings start.loses start.owner start.list)
            (map (λ t. t.now) words.now)) }
    {
        if words.is_empty() {
            return Ok(Some(Flaw::BadArgument(Label::new(alloc, Word::Unique.text())?)));
        }
        match self.first_astray(alloc, start, words)? {
            None => Ok(None),
            Some(word) => Ok(Some(Flaw::BadReference(word))),
        }
    }

    // What is wrong with the `unique` statement of a row.
    #[tactic(auto, unfolding(crate::specs::Uniques::unique_flaw))]
    fn unique_flaw(&mut self, alloc: Global, at: usize) -> Result<Option<Flaw>, NoMemory>
        ensures same { self.new ≡ self.old }
        ensures flaw { (standing : ConfigUse) → IsConfigUse self.old.rows self.old.groupings standing
            → IfOk result (λ flaw. flaw ≡ spec.unique_flaw self.old.rows self.old.groupings standing at) }
    {
        let said = match said_at(self.names().rows(), Word::Unique, at) {
            None => return Ok(None),
            Some(said) => said,
        };
        let start = start_of(self.shape(), &said);
        let words = words_of(alloc, said.text)?;
        self.words_flaw(alloc, start, &words)
    }

    // The rows that each of some words leads through.
    fn ways_along(
        &mut self,
        alloc: Global,
        start: Start,
        words: &[&'a str],
    ) -> Result<Option<Unique>, NoMemory>
        ensures same { self.new ≡ self.old }
        ensures ways { IfOk result (λ ways. ways
            ≡ all_there (map (spec.way_of self.old.rows self.old.groupings start.loses start.owner start.list) (map (λ t. t.now) words.now))) }
    {
        let mut ways = Vec::new(alloc);
        for word in words {
            match self.way_of(alloc, start, word) {
                Ok(Some(way)) => ways.push(way)?,
                Ok(None) => return Ok(None),
                Err(error) => return Err(error),
            }
        }
        Ok(Some(Unique { ways }))
    }

    // The rows that each word of a statement leads through.
    fn words_ways(
        &mut self,
        alloc: Global,
        start: Start,
        words: &[&'a str],
    ) -> Result<Option<Unique>, NoMemory>
        ensures same { self.new ≡ self.old }
        ensures ways { IfOk result (λ ways. ways
            ≡ spec.unique_words_ways (spec.way_of self.old.rows self.old.groupings start.loses start.owner start.list) (map (λ t. t.now) words.now)) }
    {
        if words.is_empty() {
            return Ok(None);
        }
        self.ways_along(alloc, start, words)
    }

    // What the `unique` statement of a row says.
    #[tactic(auto, unfolding(crate::specs::Uniques::unique_at))]
    fn unique_at(&mut self, alloc: Global, at: usize) -> Result<Option<Unique>, NoMemory>
        ensures same { self.new ≡ self.old }
        ensures unique { (standing : ConfigUse) → IsConfigUse self.old.rows self.old.groupings standing
            → IfOk result (λ unique. unique ≡ spec.unique_at self.old.rows self.old.groupings standing at) }
    {
        let said = match said_at(self.names().rows(), Word::Unique, at) {
            None => return Ok(None),
            Some(said) => said,
        };
        let start = start_of(self.shape(), &said);
        let words = words_of(alloc, said.text)?;
        self.words_ways(alloc, start, &words)
    }

    // Whether each row, of all that there are, is a `unique` statement that has a flaw.
    fn marks(&mut self, alloc: Global, count: usize) -> Result<Vec<bool>, NoMemory>
        requires { count ≡ length self.old.rows }
        ensures size { IfOk result (λ marks. length marks.items ≡ count) }
        ensures marks { (standing : ConfigUse) → IsConfigUse self.old.rows self.old.groupings standing
            → IfOk result (λ marks. (at : ℕ) → slice_index_or marks.items at false
            ≡ is_some (spec.unique_flaw self.old.rows self.old.groupings standing at)) }
    {
        let mut marks = Vec::with_capacity(alloc, count)?;
        for at in 0..count {
            match self.unique_flaw(alloc, at) {
                Ok(flaw) => marks.push(is_there(flaw))?,
                Err(error) => return Err(error),
            }
        }
        Ok(marks)
    }

    // What each of some statements says.
    fn all_at(&mut self, alloc: Global, numbers: &[usize]) -> Result<Option<Uniques>, NoMemory>
        ensures { (standing : ConfigUse) → IsConfigUse self.old.rows self.old.groupings standing
            → IfOk result (λ uniques. uniques ≡ all_there (map (spec.unique_at self.old.rows self.old.groupings standing) numbers.now)) }
    {
        let mut all = Vec::new(alloc);
        for at in numbers {
            match self.unique_at(alloc, *at) {
                Ok(Some(unique)) => all.push(unique)?,
                Ok(None) => return Ok(None),
                Err(error) => return Err(error),
            }
        }
        Ok(Some(Uniques { all }))
    }
}

/// What is wrong with the `unique` statement of the row of a number in a list (RFC 7950 section 7.8.3): no word at all
/// (BadArgument with `unique`), or the first word that doesn't lead from the list through containers to a leaf (BadReference
/// with the word). A name has no prefix or that of its module. A node that says `config false` itself is none where the list
/// is configuration. None of other rows, and of words whose way isn't known.
pub fn unique_flaw(
    alloc: Global,
    names: &RowNames<'_>,
    shape: &Shape<'_>,
    at: usize,
) -> Result<Option<Flaw>, NoMemory>
    requires { names.now ≡ shape.now.rows }
    ensures { (standing : ConfigUse) → IsConfigUse shape.now.rows shape.now.groupings standing
        → IfOk result (λ flaw. flaw ≡ spec.unique_flaw shape.now.rows shape.now.groupings standing at) }
{
    let mut finder = Finder::new(alloc, names, shape);
    finder.unique_flaw(alloc, at)
}

/// For each row whether it is a `unique` statement that has a flaw, as `unique_flaw` tells it. Time: the sum over the lists
/// that have such a statement, and the containers that its words lead through, of their members, and the words, each with the
/// logarithm of the rows.
pub fn flawed_uniques(
    alloc: Global,
    names: &RowNames<'_>,
    shape: &Shape<'_>,
) -> Result<Vec<bool>, NoMemory>
    requires { names.now ≡ shape.now.rows }
    ensures size { IfOk result (λ marks. length marks.items ≡ length shape.now.rows) }
    ensures marks { (standing : ConfigUse) → IsConfigUse shape.now.rows shape.now.groupings standing
        → IfOk result (λ marks. (at : ℕ) → slice_index_or marks.items at false
        ≡ is_some (spec.unique_flaw shape.now.rows shape.now.groupings standing at)) }
{
    let mut finder = Finder::new(alloc, names, shape);
    finder.marks(alloc, names.rows().len())
}

#[tactic(auto, unfolding(crate::specs::Uniques::is_unique))]
fn is_unique(rows: &Rows, at: usize) -> bool
    ensures { result ≡ spec.is_unique rows.now at }
{
    has_word(rows, at, Word::Unique)
}

// Those of some rows that are `unique` statements.
fn uniques_among(alloc: Global, rows: &Rows, numbers: &[usize]) -> Result<Vec<usize>, NoMemory>
    ensures { IfOk result (λ found. found.items ≡ filter (spec.is_unique rows.now) numbers.now) }
{
    let found = numbers
        .iter()
        .copied()
        .filter(|number| is_unique(rows, *number))
        .collect(alloc)?;
    Ok(found)
}

/// What the `unique` statements directly in the list of a row's number say, in their order: for each word the rows that it
/// leads through (RFC 7950 section 7.8.3). None where one of them has a flaw or isn't known.
#[tactic(auto, unfolding(crate::specs::Uniques::uniques_of))]
pub fn uniques_of(
    alloc: Global,
    names: &RowNames<'_>,
    shape: &Shape<'_>,
    list: usize,
) -> Result<Option<Uniques>, NoMemory>
    requires { names.now ≡ shape.now.rows }
    ensures { (standing : ConfigUse) → IsConfigUse shape.now.rows shape.now.groupings standing
        → IfOk result (λ uniques. uniques ≡ spec.uniques_of shape.now.rows shape.now.groupings standing list) }
{
    let numbers = uniques_among(alloc, names.rows(), names.rows().below(list))?;
    let mut finder = Finder::new(alloc, names, shape);
    finder.all_at(alloc, &numbers)
}
