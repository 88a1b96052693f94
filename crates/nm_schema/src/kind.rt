//! What nodes are: containers, leafs and leaf-lists.

ghost use Rattle.std.specs.Prelude.{◌≡◌, IfOk, MatchOption, Some, None};
ghost use Rattle.nm_schema_typing.specs.Restricting.{argument_below};
ghost use Rattle.nm_schema_uses.specs.Config.{is_true};
ghost use Rattle.nm_schema.specs.Kind as spec;

use nm_base::{Label, NoMemory, read_decimal};
use nm_schema_faults::Grounds;
use nm_schema_leafref::Led;
use nm_schema_nodes::Instance;
use nm_schema_statements::{Rows, Word};
use nm_schema_tree::{Elements, NodeKind, Reference, SharedType};
use nm_types::{Value, ValueFault, read_value};
use std::alloc::Global;

// The argument of the first statement with a word that stands directly in a row.
fn argument_below(rows: &Rows, at: usize, word: Word) -> Option<&Label>
    ensures { MatchOption result (argument_below rows.now at word ≡ None) (λ text. argument_below rows.now at word ≡ Some text.now) }
{
    let Some(row) = rows.first_below(at, word) else {
        return None;
    };
    match rows.row(row) {
        None => None,
        Some(row) => row.argument.as_ref(),
    }
}

// ---- containers

// Whether what stands in a row is known.
#[tactic(auto, unfolding(crate::specs::Kind::is_filled))]
pub(crate) fn is_filled(
    alloc: Global,
    grounds: &Grounds<'_, '_>,
    row: usize,
) -> Result<bool, NoMemory>
    ensures { IfOk result (λ filled. filled ≡ spec.is_filled grounds.now.rows row) }
{
    let members = grounds.shape().kept_members(alloc, row)?;
    Ok(members.is_some())
}

/// A container, by its row. None where what stands in it isn't known.
#[tactic(auto, unfolding(crate::specs::Kind::container_of))]
pub(crate) fn container_of(
    alloc: Global,
    grounds: &Grounds<'_, '_>,
    row: usize,
) -> Result<Option<NodeKind>, NoMemory>
    ensures { IfOk result (λ kind. kind ≡ spec.container_of grounds.now.rows row) }
{
    if !is_filled(alloc, grounds, row)? {
        return Ok(None);
    }
    Ok(Some(NodeKind::Container {
        presence: grounds.rows().first_below(row, Word::Presence).is_some(),
    }))
}

// ---- leafs

// The value of a type that a text spells.
fn value_in(
    alloc: Global,
    leaf_type: &SharedType,
    text: &str,
) -> Result<Option<Option<Value>>, NoMemory>
    ensures { IfOk result (λ value. value ≡ spec.value_of leaf_type.now (Some text.now)) }
{
    match read_value(alloc, leaf_type.get(), text) {
        Ok(value) => Ok(Some(Some(value))),
        Err(ValueFault::BadText) => Ok(None),
        Err(ValueFault::OutOfRange) => Ok(None),
        Err(ValueFault::NoMemory) => Err(NoMemory),
    }
}

// The default of a leaf of a type, if it has one. None where that isn't known.
#[tactic(auto, unfolding(crate::specs::Kind::default_in))]
fn default_in(
    alloc: Global,
    grounds: &Grounds<'_, '_>,
    node: Instance,
    leaf_type: &SharedType,
) -> Result<Option<Option<Value>>, NoMemory>
    ensures { IfOk result (λ default. default ≡ spec.default_in grounds.now.rows grounds.now.facts node leaf_type.now) }
{
    if grounds.is_key_node(node) {
        return Ok(Some(None));
    }
    match grounds.default_text(node.row) {
        None => Ok(Some(None)),
        Some(text) => value_in(alloc, leaf_type, text.as_str()),
    }
}

#[tactic(auto, unfolding(nm_schema_uses::specs::Config::is_true))]
fn is_true(text: &str) -> bool
    ensures { result ≡ is_true text.now }
{
    text == "true"
}

// Whether a statement with a word stands in a row and says true.
pub(crate) fn says_true(rows: &Rows, at: usize, word: Word) -> bool
    ensures { result ≡ spec.says_true (argument_below rows.now at word) }
{
    match argument_below(rows, at, word) {
        None => false,
        Some(text) => is_true(text.as_str()),
    }
}

// Whether a leaf must be there.
#[tactic(auto, unfolding(crate::specs::Kind::is_mandatory))]
fn is_mandatory(grounds: &Grounds<'_, '_>, node: Instance) -> bool
    ensures { result ≡ spec.is_mandatory grounds.now.rows grounds.now.facts node }
{
    if grounds.is_key_node(node) {
        return false;
    }
    says_true(grounds.rows(), node.row, Word::Mandatory)
}

// Where a node leads as a leafref, if it is one. None where that isn't known.
#[tactic(auto, unfolding(crate::specs::Kind::reference_of))]
fn reference_of(grounds: &Grounds<'_, '_>, number: usize) -> Option<Option<Reference>>
    ensures { result ≡ spec.reference_of grounds.now.rows grounds.now.facts number }
{
    let leafrefs = grounds.leafrefs();
    match leafrefs.led(number) {
        None => Some(None),
        Some(Led::Node(target)) => Some(Some(Reference {
            target,
            up: leafrefs.up(number),
        })),
        Some(Led::Missing) => None,
        Some(Led::Unknown) => None,
    }
}

/// A node as a leaf. None where its type, its default or its reference isn't known.
#[tactic(auto, unfolding(crate::specs::Kind::leaf_of))]
pub(crate) fn leaf_of(
    alloc: Global,
    grounds: &Grounds<'_, '_>,
    number: usize,
    node: Instance,
) -> Result<Option<NodeKind>, NoMemory>
    ensures { IfOk result (λ kind. kind ≡ spec.leaf_of grounds.now.rows grounds.now.facts number node) }
{
    let Some(leaf_type) = grounds.leafrefs().leaf_type(number) else {
        return Ok(None);
    };
    let Some(default) = default_in(alloc, grounds, node, leaf_type)? else {
        return Ok(None);
    };
    let Some(reference) = reference_of(grounds, number) else {
        return Ok(None);
    };
    Ok(Some(NodeKind::Leaf {
        leaf_type: leaf_type.copy()?,
        default,
        mandatory: is_mandatory(grounds, node),
        reference,
    }))
}

// ---- leaf-lists

// The number that a statement with a word says, if one stands in a row.
fn bound(rows: &Rows, at: usize, word: Word) -> Option<u64>
    ensures { result ≡ spec.bound (argument_below rows.now at word) }
{
    match argument_below(rows, at, word) {
        None => None,
        Some(text) => read_decimal(text.as_str().as_bytes()),
    }
}

/// How many elements a list or leaf-list may have, by its row.
#[tactic(auto, unfolding(crate::specs::Kind::elements_of))]
pub(crate) fn elements_of(rows: &Rows, row: usize) -> Elements
    ensures { result ≡ spec.elements_of rows.now row }
{
    Elements {
        min: bound(rows, row, Word::MinElements),
        max: bound(rows, row, Word::MaxElements),
    }
}

/// A node as a leaf-list. None where its type or its reference isn't known.
#[tactic(auto, unfolding(crate::specs::Kind::leaf_list_of))]
pub(crate) fn leaf_list_of(
    grounds: &Grounds<'_, '_>,
    number: usize,
    node: Instance,
) -> Result<Option<NodeKind>, NoMemory>
    ensures { IfOk result (λ kind. kind ≡ spec.leaf_list_of grounds.now.rows grounds.now.facts number node) }
{
    let Some(leaf_type) = grounds.leafrefs().leaf_type(number) else {
        return Ok(None);
    };
    let Some(reference) = reference_of(grounds, number) else {
        return Ok(None);
    };
    Ok(Some(NodeKind::LeafList {
        leaf_type: leaf_type.copy()?,
        reference,
        elements: elements_of(grounds.rows(), node.row),
    }))
}
