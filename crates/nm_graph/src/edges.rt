//! What a node leads to.

ghost use Rattle.std.specs.Prelude.{◌≡◌, ◌↔◌, ◌<◌, IsTrue, All, length};
ghost use Rattle.nm_graph.specs.Graph.{IsGraph, successors_of};

// The nodes that a node leads to in one step.
pub(crate) fn successors_of(successors: &[Vec<usize>], node: usize) -> &[usize]
    requires { node < length successors.now }
    ensures { result.now ≡ successors_of successors.now node }
{
    successors[node].as_slice()
}

// Whether all of these are below a number.
fn are_below(nodes: &[usize], count: usize) -> bool
    ensures { IsTrue result ↔ All (λ node. node < count) nodes.now }
{
    for node in nodes {
        if *node >= count {
            return false;
        }
    }
    true
}

/// Whether each node leads to nodes of the graph.
pub fn is_graph(successors: &[Vec<usize>]) -> bool
    ensures { IsTrue result ↔ IsGraph successors.now }
{
    for nodes in successors {
        if !are_below(nodes.as_slice(), successors.len()) {
            return false;
        }
    }
    true
}
