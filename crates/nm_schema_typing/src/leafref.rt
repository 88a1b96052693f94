//! The paths of leafrefs.

ghost use Rattle.std.specs.Prelude.{◌≡◌, ◌≤◌, ◌∷◌, [], length, map, drop, IfOk, option_map, Some, None};
ghost use Rattle.nm_schema_typing.specs.Leafref as spec;

use nm_base::{Label, NoMemory};
use nm_schema_statements::{is_reference, name_of, prefix_of};
use std::alloc::{AllocError, Global};
use std::marker::Model;

/// Where a leafref's path begins.
#[derive(Clone, Copy)]
pub enum Start {
    /// At the top: the path is absolute.
    Root,
    /// So many nodes above the leafref, from 1.
    Up(usize),
}

/// A node as a path names it.
#[derive(Drop)]
pub struct NodeName {
    /// The prefix of its module, if it is written.
    pub prefix: Option<Label>,
    pub name: Label,
}

/// The path of a leafref (RFC 7950 section 9.9.2).
#[derive(Drop)]
pub struct LeafrefPath {
    pub start: Start,
    /// The nodes that it goes through, at least one; the last is the leafref's target.
    pub nodes: Vec<NodeName>,
}

impl Model for LeafrefPath {
    ghost use Rattle.nm_schema_typing.specs.Leafref as spec;

    ghost Value = { spec.LeafrefPath };

    ghost view = { λ p. record { start = p.start; nodes = p.nodes.items } };
}

// The pieces of a path, which `/` parts.
fn pieces(alloc: Global, text: &str) -> Result<Vec<&str>, AllocError>
    ensures { IfOk result (λ all. map (λ piece. piece.now) all.items ≡ spec.pieces text.now) }
{
    text.split('/').collect(alloc)
}

// The node that a piece names.
#[tactic(auto, unfolding(crate::specs::Leafref::node_named))]
fn node_named(alloc: Global, piece: &str) -> Result<Option<NodeName>, NoMemory>
    ensures { IfOk result (λ node. node ≡ spec.node_named piece.now) }
{
    if !is_reference(piece) {
        return Ok(None);
    }
    let prefix = match prefix_of(piece) {
        None => None,
        Some(text) => Some(Label::new(alloc, text)?),
    };
    let name = Label::new(alloc, name_of(piece))?;
    Ok(Some(NodeName { prefix, name }))
}

// The nodes that pieces name, if each names one.
fn nodes_named(alloc: Global, pieces: &[&str]) -> Result<Option<Vec<NodeName>>, NoMemory>
    ensures { IfOk result (λ found. option_map (λ nodes. nodes.items) found ≡ spec.nodes_named (map (λ piece. piece.now) pieces.now)) }
{
    let mut nodes = Vec::with_capacity(alloc, pieces.len())?;
    for piece in pieces {
        match node_named(alloc, piece)? {
            Some(node) => nodes.push(node)?,
            None => return Ok(None),
        }
    }
    Ok(Some(nodes))
}

// How many pieces at the beginning go one node up.
fn ups(pieces: &[&str]) -> usize
    ensures count { result ≡ spec.ups (map (λ piece. piece.now) pieces.now) }
    ensures most { result ≤ length pieces.now }
{
    let mut count = 0;
    for piece in pieces {
        if *piece != ".." {
            return count;
        }
        count += 1;
    }
    count
}

// A path with at least one node.
fn path_along(alloc: Global, start: Start, pieces: &[&str]) -> Result<Option<LeafrefPath>, NoMemory>
    ensures { IfOk result (λ path. path ≡ spec.path_along start (map (λ piece. piece.now) pieces.now)) }
{
    if pieces.is_empty() {
        return Ok(None);
    }
    match nodes_named(alloc, pieces)? {
        Some(nodes) => Ok(Some(LeafrefPath { start, nodes })),
        None => Ok(None),
    }
}

// A path that goes up first.
#[tactic(auto, unfolding(crate::specs::Leafref::relative_path))]
fn relative_path(alloc: Global, pieces: &[&str]) -> Result<Option<LeafrefPath>, NoMemory>
    ensures { IfOk result (λ path. path ≡ spec.relative_path (map (λ piece. piece.now) pieces.now)) }
{
    let count = ups(pieces);
    if count == 0 {
        return Ok(None);
    }
    path_along(alloc, Start::Up(count), &pieces[count..])
}

// The path of some pieces.
fn path_of_pieces(alloc: Global, pieces: &[&str]) -> Result<Option<LeafrefPath>, NoMemory>
    ensures { IfOk result (λ path. path ≡ spec.path_of_pieces (map (λ piece. piece.now) pieces.now)) }
{
    match pieces {
        [] => Ok(None),
        [first, rest @ ..] => {
            if first.is_empty() {
                return path_along(alloc, Start::Root, rest);
            }
            relative_path(alloc, pieces)
        }
    }
}

/// The path that the argument of a `path` statement is (RFC 7950 section 9.9.2): absolute, as `/p:a/p:b`, or `../`
/// once or more and then names. None where it is no path, also where it holds a blank or a predicate.
#[tactic(auto, unfolding(crate::specs::Leafref::path_read))]
pub fn read_path(alloc: Global, text: &str) -> Result<Option<LeafrefPath>, NoMemory>
    ensures exact { IfOk result (λ path. path ≡ spec.path_read text.now) }
{
    let pieces = pieces(alloc, text)?;
    path_of_pieces(alloc, &pieces)
}

/// Whether a path has the bracket that begins a predicate.
pub fn has_predicate(text: &str) -> bool
    ensures { result ≡ spec.has_predicate text.now }
{
    text.as_bytes().iter().any(|byte| *byte == b'[')
}
