//! What is wrong with the paths of leafrefs.

ghost use Rattle.std.specs.Prelude.{◌≡◌, ◌<◌, ◌↔◌, ℕ, IfOk, OnOk, None, Some, length, slice_index_or, true, false};
ghost use Rattle.nm_schema_uses.specs.Config.{Marks};
ghost use Rattle.nm_schema_leafref.specs.Known as known;
ghost use Rattle.nm_schema_leafref.specs.Fault as spec;
ghost use Rattle.nm_schema_leafref.specs.Target.{IsCircular};
ghost use Rattle.nm_schema_leafref.specs.Walk.{led_to};

use crate::led::{Led, is_marked, led_at};
use crate::leds::Scene;
use nm_base::NoMemory;
use std::alloc::Global;

/// What is wrong with the path of a leafref.
#[derive(Clone, Copy, Debug)]
pub enum PathFault {
    /// It leads to nothing, or to what is no leaf or leaf-list.
    Missing,
    /// The leafref leads to itself.
    Circular,
}

// What is wrong with a node, by where it leads and whether it leads to itself.
fn fault_of(led: Option<Led>, circular: bool) -> Option<PathFault>
    ensures { result ≡ known.fault_of led circular }
{
    match led {
        None => None,
        Some(Led::Unknown) => None,
        Some(Led::Missing) => Some(PathFault::Missing),
        Some(Led::Node(_)) => {
            if circular {
                return Some(PathFault::Circular);
            }
            None
        }
    }
}

// Notes the fault of a node at the row of its path, unless that has one.
fn note(faults: &mut Vec<Option<PathFault>>, row: Option<usize>, fault: Option<PathFault>)
    ensures size { length faults.new.items ≡ length faults.old.items }
    ensures noted { (p : ℕ) → p < length faults.old.items
        → slice_index_or faults.new.items p None ≡ known.noted p row fault (slice_index_or faults.old.items p None) }
{
    let Some(row) = row else {
        return;
    };
    if row >= faults.len() {
        return;
    }
    if faults[row].is_some() {
        return;
    }
    faults[row] = fault;
}

fn no_faults(alloc: Global, count: usize) -> Result<Vec<Option<PathFault>>, NoMemory>
    ensures size { IfOk result (λ faults. length faults.items ≡ count) }
    ensures none { IfOk result (λ faults. (p : ℕ) → slice_index_or faults.items p None ≡ None) }
{
    let mut faults = Vec::with_capacity(alloc, count)?;
    for _ in 0..count {
        faults.push(None)?;
    }
    Ok(faults)
}

/// What is wrong with the path of each row: that of the first node that is faulty by it.
pub fn faults<'a: 'b, 'b>(
    alloc: Global,
    scene: &Scene<'_, 'a, 'b>,
    leds: &[Option<Led>],
    circular: &[bool],
) -> Result<Vec<Option<PathFault>>, NoMemory>
    requires leds { (x : ℕ) → slice_index_or leds.now x None ≡ led_to scene.now.typedefs scene.now.tree x }
    requires circular { Marks (IsCircular scene.now.typedefs scene.now.tree) circular.now }
    requires leds_size { length leds.now ≡ length scene.now.tree.nodes }
    ensures size { IfOk result (λ faults. length faults.items ≡ length scene.now.tree.rows) }
    ensures faults { IfOk result (λ faults. (p : ℕ) → p < length scene.now.tree.rows
        → spec.HasFault scene.now.typedefs scene.now.tree p (slice_index_or faults.items p None)) }
{
    let mut faults = no_faults(alloc, scene.tree().rows().len())?;
    for node in 0..leds.len() {
        let row = scene.path_row(node);
        let fault = fault_of(led_at(leds, node), is_marked(circular, node));
        note(&mut faults, row, fault);
    }
    Ok(faults)
}
