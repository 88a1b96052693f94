//! The names that rows claim where they stand: a node of data and a choice their own, and a uses those of its grouping.
//!
//! What stands in a choice stands where the choice does, and claims its names there by itself. So each row is looked at once,
//! however many choices are around it.

ghost use Rattle.std.specs.Prelude.{◌≡◌, ◌<◌, IfOk, OnOk, IfSome, length};
ghost use Rattle.nm_graph.specs.Graph.{IsGraph};
ghost use Rattle.nm_graph.specs.Order.{IsWholeOrder};
ghost use Rattle.nm_schema_uses.specs.Holding.{AreNamed, Draws};
ghost use Rattle.nm_schema_uses.specs.Worth.{AreWorth};
ghost use Rattle.nm_schema_names.specs.Clash as spec;

use nm_base::NoMemory;
use nm_graph::{Visitor, values};
use nm_schema_statements::Rows;
use nm_schema_uses::{
    Nodes, gathered, grouping_at, is_astray, is_fork_at, is_node, is_part_at, is_uses, one_or_none,
};
use std::alloc::Global;

fn around(rows: &Rows, at: usize) -> Option<usize>
    ensures around { result ≡ spec.around rows.now at }
    ensures earlier { IfSome result (λ parent. parent < at) }
{
    rows.laws();
    match rows.row(at) {
        None => None,
        Some(row) => row.parent,
    }
}

// What a row stands in, choices and cases left aside, given what those before it do.
#[tactic(auto, unfolding(crate::specs::Clash::holder_of))]
fn next_holder(rows: &Rows, holders: &[Option<usize>], at: usize) -> Option<usize>
    requires { spec.AreHolders rows.now at holders.now }
    ensures { result ≡ spec.holder_of rows.now at }
{
    rows.laws();
    if !is_part_at(rows, at) {
        return None;
    }
    match around(rows, at) {
        None => None,
        Some(parent) => {
            if is_fork_at(rows, parent) {
                return holders[parent];
            }
            Some(parent)
        }
    }
}

// What each row stands in, choices and cases left aside.
pub(crate) fn holders_of(alloc: Global, rows: &Rows) -> Result<Vec<Option<usize>>, NoMemory>
    ensures { IfOk result (λ holders. spec.AreHolders rows.now (length rows.now) holders.items) }
{
    let mut holders = Vec::with_capacity(alloc, rows.len())?;
    for at in 0..rows.len() {
        let holder = next_holder(rows, &holders, at);
        holders.push(holder)?;
    }
    Ok(holders)
}

// Whether a row claims what stands in it.
#[tactic(auto, unfolding(crate::specs::Clash::gathers))]
fn gathers(rows: &Rows, at: usize) -> bool
    ensures { result ≡ spec.gathers rows.now at }
{
    match rows.row(at) {
        None => false,
        Some(row) => !(is_node(row.word) || is_uses(row.word)),
    }
}

// The grouping that a uses claims, and nothing for another row.
#[tactic(auto, unfolding(crate::specs::Clash::gathers, crate::specs::Clash::claiming))]
fn named_claim(
    alloc: Global,
    rows: &Rows,
    groupings: &[Option<usize>],
    at: usize,
) -> Result<Vec<usize>, NoMemory>
    ensures { IfOk result (λ nodes. nodes.items ≡ spec.claiming_to rows.now groupings.now 0 at) }
{
    match rows.row(at) {
        None => Ok(Vec::new(alloc)),
        Some(row) => {
            if is_node(row.word) {
                return Ok(Vec::new(alloc));
            }
            if is_uses(row.word) {
                return one_or_none(alloc, grouping_at(groupings, at));
            }
            Ok(Vec::new(alloc))
        }
    }
}

fn named_claims(
    alloc: Global,
    rows: &Rows,
    groupings: &[Option<usize>],
) -> Result<Vec<Vec<usize>>, NoMemory>
    requires { AreNamed rows.now groupings.now }
    ensures { IfOk result (λ graph. spec.AreClaiming rows.now groupings.now 0 graph.items) }
{
    let mut graph = Vec::with_capacity(alloc, rows.len())?;
    for at in 0..rows.len() {
        let nodes = named_claim(alloc, rows, groupings, at)?;
        graph.push(nodes)?;
    }
    Ok(graph)
}

// Puts a row to what it stands in, if that claims what stands in it.
fn put_claim(
    rows: &Rows,
    graph: &mut Vec<Vec<usize>>,
    holder: Option<usize>,
    at: usize,
) -> Result<(), NoMemory>
    requires within { IfSome holder (λ h. h < length graph.old.items) }
    ensures { OnOk result (spec.PutsClaim rows.now holder at graph.old.items graph.new.items) }
{
    let holder = match holder {
        None => return Ok(()),
        Some(holder) => holder,
    };
    if !gathers(rows, holder) {
        return Ok(());
    }
    graph[holder].push(at)?;
    Ok(())
}

// What the names that each row claims rest on.
pub(crate) fn claiming_of(
    alloc: Global,
    rows: &Rows,
    groupings: &[Option<usize>],
    holders: &[Option<usize>],
) -> Result<Vec<Vec<usize>>, NoMemory>
    requires named { AreNamed rows.now groupings.now }
    requires holders { spec.AreHolders rows.now (length rows.now) holders.now }
    ensures claiming { IfOk result (λ graph. Draws (spec.claiming rows.now groupings.now) (length rows.now) graph.items) }
    ensures graph { IfOk result (λ graph. IsGraph graph.items) }
{
    rows.laws();
    let mut graph = named_claims(alloc, rows, groupings)?;
    for at in 0..rows.len() {
        put_claim(rows, &mut graph, holders[at], at)?;
    }
    Ok(graph)
}

// The rows whose names each row claims.
#[derive(Drop)]
struct Claiming<'a> {
    rows: &'a Rows,
    groupings: &'a [Option<usize>],
}

impl Visitor for Claiming<'_> {
    type Value = Nodes;

    ghost step = { λ c. spec.claim_step c.rows.now c.groupings.now };

    #[tactic(auto, unfolding(crate::specs::Clash::claim_step))]
    fn visit(
        &self,
        alloc: Global,
        node: usize,
        values: &[Option<Nodes>],
        successors: &[usize],
    ) -> Result<Option<Nodes>, NoMemory> {
        let row = match self.rows.row(node) {
            None => return Ok(None),
            Some(row) => row,
        };
        if is_node(row.word) {
            return Ok(Some(Nodes::new(alloc, vec![in alloc; node; 1]?)?));
        }
        if is_astray(self.groupings, node, row) {
            return Ok(None);
        }
        gathered(alloc, self.rows.len(), values, successors)
    }
}

// The rows whose names each row claims where it stands, along what this rests on.
pub(crate) fn claimed(
    alloc: Global,
    rows: &Rows,
    groupings: &[Option<usize>],
    graph: &[Vec<usize>],
    order: &[usize],
) -> Result<Vec<Option<Nodes>>, NoMemory>
    requires graph { IsGraph graph.now }
    requires claiming { Draws (spec.claiming rows.now groupings.now) (length rows.now) graph.now }
    requires order { IsWholeOrder graph.now order.now }
    ensures { IfOk result (λ values. AreWorth (spec.claimed rows.now groupings.now) (length rows.now) values.items) }
{
    values(alloc, &Claiming { rows, groupings }, graph, order)
}
