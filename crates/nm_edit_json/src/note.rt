//! Noting nodes and faults.

ghost use Rattle.std.specs.Prelude.{◌≡◌, ◌∷◌, [], IfOk, OnOk, Some};
ghost use Rattle.nm_types.specs.Path.{whole};
ghost use Rattle.nm_types.specs.Chosen.{choice_of};
ghost use Rattle.nm_json.specs.Findings.{step_below as path_below};
ghost use Rattle.nm_json.specs.Spots.{spot_of};
ghost use Rattle.nm_edit_json.specs.Noted.{gathered as all_noted};
ghost use Rattle.nm_edit_json.specs.Findings as spec;
ghost use Rattle.nm_edit_json.specs.declared.fault.FaultKind.TheVariants.{Annotation};

use crate::fault::{Fault, FaultKind, fault_at};
use crate::gathered::Gathered;
use crate::said::Said;
use nm_base::{Label, NoMemory};
use nm_edit::{EditNode, Operation};
use nm_json::fault::Place;
use nm_json::spot::{Spot, step_below};
use nm_schema_tree::Node;
use nm_types::{Chosen, Path, Value};
use std::alloc::Global;

/// The operation that is said.
pub fn told(said: Said) -> Option<Operation>
    ensures { result ≡ spec.told said }
{
    match said {
        Said::Unsaid => None,
        Said::Says(operation) => Some(operation),
        Said::Misread => None,
    }
}

// Whether only merge may be said below an operation.
fn is_strong(operation: Operation) -> bool
    ensures { result ≡ spec.is_strong operation }
{
    match operation {
        Operation::Merge => false,
        Operation::Replace | Operation::Create | Operation::Delete | Operation::Remove => true,
    }
}

/// Whether an operation other than merge is said of a node or above it.
pub fn held_by(held: bool, said: Said) -> bool
    ensures { result ≡ spec.held_by held said }
{
    match said {
        Said::Unsaid => held,
        Said::Says(operation) => held || is_strong(operation),
        Said::Misread => held,
    }
}

// Whether something is said that may not be.
fn is_misplaced(held: bool, said: Said) -> bool
    ensures { result ≡ spec.is_misplaced held said }
{
    match said {
        Said::Unsaid => false,
        Said::Says(operation) => held && is_strong(operation),
        Said::Misread => true,
    }
}

/// Notes a fault at a path.
#[tactic(auto, unfolding(crate::specs::Noted::gathered))]
pub fn note_at(
    alloc: Global,
    gathered: &mut Gathered,
    path: Path,
    kind: FaultKind,
) -> Result<(), NoMemory>
    ensures { OnOk result (gathered.new ≡ all_noted gathered.old (spec.wrong (spec.fault_at path kind) ∷ [])) }
{
    gathered.note_fault(alloc, fault_at(path, kind))
}

// The place of a name below a path.
fn place_below(alloc: Global, above: &Path, name: &str) -> Result<Place, NoMemory>
    ensures { IfOk result (λ place. place ≡ record { path = above.now; below = Some name.now }) }
{
    let below = Some(Label::new(alloc, name)?);
    let path = above.copy(alloc)?;
    Ok(Place { path, below })
}

/// Notes a fault at a name below a path.
#[tactic(auto, unfolding(crate::specs::Noted::gathered))]
pub fn note_below(
    alloc: Global,
    gathered: &mut Gathered,
    above: &Path,
    name: &str,
    kind: FaultKind,
) -> Result<(), NoMemory>
    ensures { OnOk result (gathered.new ≡ all_noted gathered.old (spec.wrong (spec.fault_below above.now name.now kind) ∷ [])) }
{
    let place = place_below(alloc, above, name)?;
    gathered.note_fault(alloc, Fault { kind, place })
}

/// Notes a fault at a node below a path.
pub fn note_child(
    alloc: Global,
    gathered: &mut Gathered,
    above: &Path,
    node: &Node,
    kind: FaultKind,
) -> Result<(), NoMemory>
    ensures { OnOk result (gathered.new ≡ all_noted gathered.old (spec.wrong (spec.fault_at (path_below above.now node.now whole) kind) ∷ [])) }
{
    let path = step_below(alloc, above, node, Chosen::Whole)?;
    note_at(alloc, gathered, path, kind)
}

/// Notes that a JSON value is of another kind than a node wants.
pub fn note_misfit(alloc: Global, gathered: &mut Gathered, spot: &Spot) -> Result<(), NoMemory>
    ensures { OnOk result (gathered.new ≡ all_noted gathered.old (spec.misfit (spot_of spot.now))) }
{
    note_child(alloc, gathered, spot.above, spot.node, FaultKind::Invalid)
}

/// Notes the fault of an annotation at a node, if it has one.
#[tactic(auto, unfolding(crate::specs::Noted::gathered))]
pub fn note_misplaced(
    alloc: Global,
    gathered: &mut Gathered,
    above: &Path,
    node: &Node,
    misplaced: bool,
) -> Result<(), NoMemory>
    ensures { OnOk result (gathered.new ≡ all_noted gathered.old (spec.misplaced_found (path_below above.now node.now whole) misplaced)) }
{
    if !misplaced {
        return Ok(());
    }
    note_child(alloc, gathered, above, node, FaultKind::Annotation)
}

// Notes a node, and that what is said of it may not be said there.
#[tactic(auto, unfolding(crate::specs::Noted::gathered))]
fn note_misheld(alloc: Global, gathered: &mut Gathered, node: EditNode) -> Result<(), NoMemory>
    ensures { OnOk result (gathered.new ≡ all_noted gathered.old (spec.named node ∷ spec.wrong (spec.fault_at node.path Annotation) ∷ [])) }
{
    let path = match node.path.copy(alloc) {
        Ok(path) => path,
        Err(error) => {
            drop(node);
            return Err(error);
        }
    };
    match gathered.note_node(alloc, node) {
        Ok(()) => gathered.note_fault(alloc, fault_at(path, FaultKind::Annotation)),
        Err(error) => {
            drop(path);
            Err(error)
        }
    }
}

/// Notes a node with what is said of it.
#[tactic(auto, unfolding(crate::specs::Noted::gathered))]
pub fn note_node(
    alloc: Global,
    gathered: &mut Gathered,
    path: Path,
    held: bool,
    said: Said,
    value: Option<Value>,
) -> Result<(), NoMemory>
    ensures { OnOk result (gathered.new ≡ all_noted gathered.old (spec.node_found path held said value)) }
{
    let node = EditNode {
        path,
        operation: told(said),
        value,
    };
    if !is_misplaced(held, said) {
        return gathered.note_node(alloc, node);
    }
    note_misheld(alloc, gathered, node)
}

/// Notes a node below a path with what is said of it.
pub fn note_node_below(
    alloc: Global,
    gathered: &mut Gathered,
    above: &Path,
    node: &Node,
    held: bool,
    said: Said,
    value: Option<Value>,
) -> Result<(), NoMemory>
    ensures { OnOk result (gathered.new ≡ all_noted gathered.old (spec.node_found (path_below above.now node.now whole) held said value)) }
{
    match step_below(alloc, above, node, Chosen::Whole) {
        Ok(path) => note_node(alloc, gathered, path, held, said, value),
        Err(error) => {
            drop(value);
            Err(error)
        }
    }
}

// Notes a node of a path with what is said of it.
fn note_path(
    alloc: Global,
    gathered: &mut Gathered,
    path: &Path,
    held: bool,
    said: Said,
    value: Option<Value>,
) -> Result<(), NoMemory>
    ensures { OnOk result (gathered.new ≡ all_noted gathered.old (spec.node_found path.now held said value)) }
{
    match path.copy(alloc) {
        Ok(own) => note_node(alloc, gathered, own, held, said, value),
        Err(error) => {
            drop(value);
            Err(error)
        }
    }
}

/// Notes the node of a spot with what is said of it, and answers its path.
pub fn note_step(
    alloc: Global,
    gathered: &mut Gathered,
    spot: &Spot,
    chosen: Chosen,
    held: bool,
    said: Said,
    value: Option<Value>,
) -> Result<Path, NoMemory>
    ensures path { IfOk result (λ path. path ≡ path_below spot.now.above.now spot.now.node.now (choice_of chosen)) }
    ensures noted { OnOk result (gathered.new ≡ all_noted gathered.old
        (spec.node_found (path_below spot.now.above.now spot.now.node.now (choice_of chosen)) held said value)) }
{
    let path = match step_below(alloc, spot.above, spot.node, chosen) {
        Ok(path) => path,
        Err(error) => {
            drop(value);
            return Err(error);
        }
    };
    match note_path(alloc, gathered, &path, held, said, value) {
        Ok(()) => Ok(path),
        Err(error) => {
            drop(path);
            Err(error)
        }
    }
}
