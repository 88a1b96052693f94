//! The names that come twice.

ghost use Rattle.std.specs.Prelude.{◌≡◌, IfOk};
ghost use Rattle.nm_schema_uses.specs.Holding.{AreNamed};
ghost use Rattle.nm_schema_uses.specs.Outline.{outline};
ghost use Rattle.nm_schema_names.specs.Clash.{claimed, clash_flaw, duplicate, AreClashes};

use crate::cases::case_clashes;
use crate::claims::{claimed, claiming_of, holders_of};
use crate::clash::clashes;
use crate::sources::sources;
use nm_base::{Label, NoMemory};
use nm_graph::order;
use nm_schema_statements::{Flaw, Rows};
use std::alloc::Global;
use std::marker::Model;

/// The names that come twice in modules. They are seen as the rows of the modules and the grouping of each uses.
#[derive(Drop)]
pub struct Clashes<'a> {
    rows: &'a Rows,
    groupings: &'a [Option<usize>],
    clashes: Vec<Option<Label>>,
    case_clashes: Vec<Option<Label>>,
}

impl<'a> Model for Clashes<'a> {
    ghost use Rattle.nm_schema_uses.specs.Outline.{Outline, outline};
    ghost use Rattle.nm_schema_names.specs.Clashes.{AreAllClashes};

    ghost Value = { Outline };

    ghost view = { λ c. outline c.rows.now c.groupings.now };

    ghost invariant = { λ c. AreAllClashes c.rows.now c.groupings.now c.clashes.items c.case_clashes.items };
}

impl Clashes<'_> {
    /// The first name that a node of data, a choice or a uses claims in the statement that it stands in, choices and cases left
    /// aside, and that an earlier one claims there already; or the name of a case that an earlier case of its choice has:
    /// Duplicate with the name (RFC 7950 sections 6.2.1, 7.9 and 7.13).
    pub fn clash_flaw(&self, at: usize) -> Result<Option<Flaw>, NoMemory>
        ensures { IfOk result (λ flaw. flaw ≡ clash_flaw self.now.rows self.now.groupings at) }
    {
        if at >= self.clashes.len() {
            return Ok(None);
        }
        let clash = &self.clashes[at];
        if clash.is_some() {
            return duplicate(clash);
        }
        duplicate(&self.case_clashes[at])
    }
}

fn duplicate(name: &Option<Label>) -> Result<Option<Flaw>, NoMemory>
    ensures { IfOk result (λ flaw. flaw ≡ duplicate name.now) }
{
    match name {
        None => Ok(None),
        Some(name) => Ok(Some(Flaw::Duplicate(name.copy()?))),
    }
}

// The clash of each row.
fn row_clashes(
    alloc: Global,
    rows: &Rows,
    groupings: &[Option<usize>],
) -> Result<Vec<Option<Label>>, NoMemory>
    requires { AreNamed rows.now groupings.now }
    ensures { IfOk result (λ clashes. AreClashes (claimed rows.now groupings.now) rows.now clashes.items) }
{
    let holders = holders_of(alloc, rows)?;
    let claiming = claiming_of(alloc, rows, groupings, &holders)?;
    let ordered = order(alloc, &claiming)?;
    let claims = claimed(alloc, rows, groupings, &claiming, &ordered.nodes)?;
    let sources = sources(alloc, rows, &claiming, &claims, &ordered.nodes)?;
    clashes(alloc, rows, &claims, &sources, &holders)
}

/// The names that come twice in modules. `groupings` has for the row of a uses the row of the grouping that it names.
pub fn clashes_of<'a>(
    alloc: Global,
    rows: &'a Rows,
    groupings: &'a [Option<usize>],
) -> Result<Clashes<'a>, NoMemory>
    requires { AreNamed rows.now groupings.now }
    ensures { IfOk result (λ clashes. clashes ≡ outline rows.now groupings.now) }
{
    let clashes = row_clashes(alloc, rows, groupings)?;
    let case_clashes = case_clashes(alloc, rows)?;
    Ok(Clashes {
        rows,
        groupings,
        clashes,
        case_clashes,
    })
}
