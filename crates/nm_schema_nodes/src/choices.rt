//! The choices and cases of configuration in rows.
//!
//! What a row brings is made once, from what it leads to, and a row that leads to one row alone shares what that brings.

ghost use Rattle.std.specs.Prelude.{◌≡◌, ◌<◌, ◌∷◌, [], IfOk, All, Some, length, drop, slice_get};
ghost use Rattle.nm_graph.specs.Value.{values_at};
ghost use Rattle.nm_schema_uses.specs.Members.{is_astray};
ghost use Rattle.nm_schema_nodes.specs.Forks as forks;
ghost use Rattle.nm_schema_nodes.specs.Choices as spec;

use crate::forks::Forks;
use crate::graph::{is_data, kept_among, kept_bringing, kept_graph};
use nm_base::NoMemory;
use nm_graph::{Visitor, order, values};
use nm_schema_statements::{Row, Word};
use nm_schema_uses::Shape;
use std::alloc::Global;
use std::marker::Model;
use std::sync::Arc;

/// What a row brings, shared by those that bring the same. It is seen as this.
#[derive(Drop)]
pub struct Shared {
    forks: Arc<Forks>,
}

impl Model for Shared {
    ghost use Rattle.nm_schema_nodes.specs.Forks.{Forking};

    ghost Value = { Forking };

    ghost view = { λ s. s.forks.value };
}

impl Shared {
    fn new(alloc: Global, forks: Forks) -> Result<Shared, NoMemory>
        ensures { IfOk result (λ shared. shared ≡ forks) }
    {
        Ok(Shared {
            forks: Arc::new(alloc, forks)?,
        })
    }

    // The same once more, in constant time.
    fn copy(&self) -> Result<Shared, NoMemory>
        ensures { IfOk result (λ shared. shared ≡ self.now) }
    {
        Ok(Shared {
            forks: Arc::try_clone(&self.forks)?,
        })
    }

    /// The choices, the cases, and for each node the innermost case that it stands in.
    pub fn get(&self) -> &Forks
        ensures { result.now ≡ self.now }
    {
        &self.forks
    }
}

// What some rows bring, one after another, no more of anything than a limit.
fn joined(
    alloc: Global,
    limit: usize,
    values: &[Option<Shared>],
    successors: &[usize],
) -> Result<Option<Shared>, NoMemory>
    requires { All (λ next. next < length values.now) successors.now }
    ensures { IfOk result (λ all. all ≡ spec.joined_all limit (values_at values.now successors.now)) }
{
    let mut all = Forks::new(alloc);
    for next in successors {
        match &values[*next] {
            None => return Ok(None),
            Some(more) => all = all.join(more.get())?,
        }
        if !all.is_within(limit) {
            return Ok(None);
        }
    }
    Ok(Some(Shared::new(alloc, all)?))
}

// What one row brings: the same, shared.
fn alone(limit: usize, value: &Option<Shared>) -> Result<Option<Shared>, NoMemory>
    ensures { IfOk result (λ all. all ≡ spec.joined_all limit (value.now ∷ [])) }
{
    match value {
        None => Ok(None),
        Some(value) => {
            if !value.get().is_within(limit) {
                return Ok(None);
            }
            Ok(Some(value.copy()?))
        }
    }
}

// What some rows bring, one after another. What one row brings is shared, and not copied.
fn gathered(
    alloc: Global,
    limit: usize,
    values: &[Option<Shared>],
    successors: &[usize],
) -> Result<Option<Shared>, NoMemory>
    requires { All (λ next. next < length values.now) successors.now }
    ensures { IfOk result (λ all. all ≡ spec.joined_all limit (values_at values.now successors.now)) }
{
    if successors.len() == 1 {
        return alone(limit, &values[successors[0]]);
    }
    joined(alloc, limit, values, successors)
}

// A case more, named by the row of a number among some, and none where there is no such row.
fn add_next(all: Forks, cases: &[usize], at: usize, inner: &Forks) -> Result<Forks, NoMemory>
    requires { 0 < length all.choices }
    ensures { IfOk result (λ more. more ≡ forks.with_next all (drop at cases.now) inner.now) }
{
    if at < cases.len() {
        return all.add_case(cases[at], inner);
    }
    Ok(all)
}

// A choice, with a case for each of some rows, of what each successor brings.
fn choice_with(
    alloc: Global,
    limit: usize,
    row: usize,
    cases: &[usize],
    values: &[Option<Shared>],
    successors: &[usize],
) -> Result<Option<Shared>, NoMemory>
    requires { All (λ next. next < length values.now) successors.now }
    ensures { IfOk result (λ all. all ≡ spec.choice_all limit row cases.now (values_at values.now successors.now)) }
{
    let mut all = Forks::choice(alloc, row)?;
    for at in 0..successors.len() {
        match &values[successors[at]] {
            None => return Ok(None),
            Some(inner) => all = add_next(all, cases, at, inner.get())?,
        }
        if !all.is_within(limit) {
            return Ok(None);
        }
    }
    if !all.is_within(limit) {
        return Ok(None);
    }
    Ok(Some(Shared::new(alloc, all)?))
}

// Whether a row is a uses whose grouping isn't there.
fn is_astray(shape: &Shape<'_>, at: usize, row: &Row) -> bool
    requires { slice_get shape.now.rows at ≡ Some row.now }
    ensures { result ≡ is_astray shape.now.groupings at row.now }
{
    match row.word {
        Word::Uses => shape.leads_to(at).is_empty(),
        _ => false,
    }
}

// What each row brings.
#[derive(Drop)]
struct Forking<'a> {
    shape: &'a Shape<'a>,
}

impl Visitor for Forking<'_> {
    type Value = Shared;

    ghost step = { λ f. spec.fork_step f.shape.now.rows f.shape.now.groupings };

    #[tactic(auto, unfolding(crate::specs::Choices::fork_step))]
    fn visit(
        &self,
        alloc: Global,
        node: usize,
        values: &[Option<Shared>],
        successors: &[usize],
    ) -> Result<Option<Shared>, NoMemory> {
        let rows = self.shape.rows();
        let row = match rows.row(node) {
            None => return Ok(None),
            Some(row) => row,
        };
        if is_data(row.word) {
            return Ok(Some(Shared::new(alloc, Forks::lone(alloc)?)?));
        }
        if row.word.same(Word::Choice) {
            let cases = kept_bringing(alloc, self.shape, node)?;
            return choice_with(alloc, rows.len(), node, &cases, values, successors);
        }
        if is_astray(self.shape, node, row) {
            return Ok(None);
        }
        gathered(alloc, rows.len(), values, successors)
    }
}

/// The choices and cases of configuration in rows. They are seen as what stands in what.
#[derive(Drop)]
pub struct Choices<'a> {
    shape: &'a Shape<'a>,
    values: Vec<Option<Shared>>,
}

impl<'a> Model for Choices<'a> {
    ghost use Rattle.nm_schema_uses.specs.Outline.{Outline};
    ghost use Rattle.nm_schema_nodes.specs.Choices.{AreForked};

    ghost Value = { Outline };

    ghost view = { λ c. c.shape.now };

    ghost invariant = { λ c. AreForked c.shape.now.rows c.shape.now.groupings c.values.items };
}

impl Choices<'_> {
    /// The choices of configuration that stand in a row, choices and cases around them left aside, with their cases, and for each
    /// kept member of the row, in order, the innermost case that it stands in (RFC 7950 sections 7.9, 7.13 and 7.21.1). None where
    /// the members aren't known.
    #[tactic(auto, unfolding(crate::specs::Choices::forks_of, nm_schema_uses::specs::Config::kept_of))]
    pub fn forks_of(&self, alloc: Global, at: usize) -> Result<Option<Shared>, NoMemory>
        ensures { IfOk result (λ forks. forks ≡ spec.forks_of self.now.rows self.now.groupings at) }
    {
        self.shape.laws();
        let rows = self.shape.rows();
        let successors = kept_among(alloc, rows, self.shape.leads_to(at))?;
        gathered(alloc, rows.len(), &self.values, &successors)
    }
}

/// The choices and cases of configuration in the rows of modules.
pub fn choices_of<'a>(alloc: Global, shape: &'a Shape<'a>) -> Result<Choices<'a>, NoMemory>
    ensures { IfOk result (λ choices. choices ≡ shape.now) }
{
    let graph = kept_graph(alloc, shape)?;
    let ordered = order(alloc, &graph)?;
    let values = values(alloc, &Forking { shape }, &graph, &ordered.nodes)?;
    Ok(Choices { shape, values })
}
