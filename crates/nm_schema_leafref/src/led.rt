//! Where paths lead.

ghost use Rattle.std.specs.Prelude.{◌≡◌, None, slice_index_or, false};

/// Where the path of a leafref leads.
#[derive(Clone, Copy)]
pub enum Led {
    /// To a leaf or leaf-list, by the number of its node.
    Node(usize),
    /// To nothing, or to what is no leaf or leaf-list.
    Missing,
    /// Into what isn't expanded or isn't known, so that nothing is said.
    Unknown,
}

/// Where one has come to along a path.
#[derive(Clone, Copy)]
pub enum Spot {
    /// Above all nodes.
    Root,
    /// To a node, by its number.
    Node(usize),
    /// To nothing.
    Missing,
    /// Into what isn't expanded or isn't known.
    Unknown,
}

/// Where a node leads, in a list of one place for each node.
pub fn led_at(leds: &[Option<Led>], at: usize) -> Option<Led>
    ensures { result ≡ slice_index_or leds.now at None }
{
    if at >= leds.len() {
        return None;
    }
    leds[at]
}

/// Whether a place is marked.
pub fn is_marked(marks: &[bool], at: usize) -> bool
    ensures { result ≡ slice_index_or marks.now at false }
{
    if at >= marks.len() {
        return false;
    }
    marks[at]
}
