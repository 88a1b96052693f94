//! What follows from the laws of every content.

ghost use Rattle.nm_proto.specs.Sameness.{IsSameness};

use crate::content::Content;

/// That two configurations have the same at a node, and that they have the same marks, is so of each with itself, either way
/// round, and from one over a second to a third.
pub fn sameness_is_equality<C: Content>(content: &C)
    ensures at_nodes { (node : C.Node) → IsSameness (λ one other. (C.meaning content.now).same_at one other node) }
    ensures of_marks { IsSameness (C.meaning content.now).same_marks }
{}
