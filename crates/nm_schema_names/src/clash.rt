//! Two nodes of one name in one statement, choices and cases left aside.
//!
//! A row is looked up in what stands before it in the same row only. What brings more than a few names isn't copied: its names are
//! looked up in those that others bring, the fewer in the more, so that the time is the sum over such pairs of the fewer names,
//! times the logarithm of the more. One alone takes constant time. Only where two names clash is each name looked at.

ghost use Rattle.std.specs.Prelude.{◌≡◌, ◌<◌, ◌+◌, length, replicate, IfOk, OnOk, IfSome};
ghost use Rattle.nm_schema_names.specs.Clash as spec;
ghost use Rattle.nm_schema_names.specs.Sharing.{AreSources};

use crate::earlier::Earlier;
use crate::known::Known;
use crate::sources::source_at;
use nm_base::{Label, NoMemory};
use nm_schema_statements::Rows;
use nm_schema_uses::Nodes;
use std::alloc::Global;

// The clash of a row, once the names of the rows before it are taken; then its own are taken too.
fn next_clash(
    alloc: Global,
    rows: &Rows,
    known: &mut Known<'_>,
    sources: &[usize],
    holder: Option<usize>,
    taken: &mut Vec<Earlier>,
    at: usize,
) -> Result<Option<Label>, NoMemory>
    requires within { at < length rows.now }
    requires holder { holder ≡ spec.holder_of rows.now at }
    requires held { IfSome holder (λ h. h < length rows.now) }
    requires rows { known.old.rows ≡ rows.now }
    requires sources { AreSources known.old.brought sources.now }
    requires taken { spec.AreTaken known.old at taken.old.items }
    ensures known { OnOk result (known.new ≡ known.old) }
    ensures clash { IfOk result (λ clash. clash ≡ spec.clash_by (spec.known_at known.old.brought) rows.now at) }
    ensures taken { OnOk result (spec.AreTaken known.old (at + 1) taken.new.items) }
{
    let holder = match holder {
        None => return Ok(None),
        Some(holder) => holder,
    };
    let source = source_at(sources, at);
    let clash = taken[holder].take(alloc, known, source)?;
    Ok(clash)
}

// Nothing taken in any row.
fn none_taken(alloc: Global, count: usize) -> Result<Vec<Earlier>, NoMemory>
    ensures { IfOk result (λ taken. taken.items ≡ replicate count spec.no_parts) }
{
    let mut taken = Vec::new(alloc);
    for _ in 0..count {
        taken.push(Earlier::new(alloc))?;
    }
    Ok(taken)
}

// The clash of each row.
pub(crate) fn clashes(
    alloc: Global,
    rows: &Rows,
    brought: &[Option<Nodes>],
    sources: &[usize],
    holders: &[Option<usize>],
) -> Result<Vec<Option<Label>>, NoMemory>
    requires sources { AreSources brought.now sources.now }
    requires holders { spec.AreHolders rows.now (length rows.now) holders.now }
    ensures { IfOk result (λ clashes. spec.AreClashes (spec.known_at brought.now) rows.now clashes.items) }
{
    rows.laws();
    let mut known = Known::new(alloc, rows, brought)?;
    let mut taken = none_taken(alloc, rows.len())?;
    let mut clashes = Vec::new(alloc);
    for at in 0..rows.len() {
        match next_clash(
            alloc,
            rows,
            &mut known,
            sources,
            holders[at],
            &mut taken,
            at,
        ) {
            Ok(clash) => clashes.push(clash)?,
            Err(error) => return Err(error),
        }
    }
    Ok(clashes)
}
