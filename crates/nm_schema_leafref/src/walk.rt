//! Where paths lead from a node.

ghost use Rattle.std.specs.Prelude.{◌≡◌};
ghost use Rattle.nm_schema_leafref.specs.declared.led.Spot.TheVariants as spots;
ghost use Rattle.nm_schema_leafref.specs.Walk as spec;

use crate::led::{Led, Spot};
use crate::tree::Tree;
use nm_schema_typing::{LeafrefPath, NodeName, Start};

fn spot_at(node: Option<usize>) -> Spot
    ensures { result ≡ spec.spot_at node }
{
    match node {
        None => Spot::Root,
        Some(node) => Spot::Node(node),
    }
}

// The node of a name.
fn found_or(node: Option<usize>, known: bool) -> Spot
    ensures { result ≡ spec.found_or node known }
{
    match node {
        Some(node) => Spot::Node(node),
        None => {
            if known {
                return Spot::Missing;
            }
            Spot::Unknown
        }
    }
}

impl<'g, 'a: 'b, 'b> Tree<'g, 'a, 'b> {
    // One node up.
    #[tactic(auto, unfolding(crate::specs::Walk::above))]
    fn above(&self, spot: Spot) -> Spot
        ensures { result ≡ spec.above self.now spot }
    {
        match spot {
            Spot::Root => Spot::Missing,
            Spot::Node(node) => spot_at(self.parent_of(node)),
            Spot::Missing => Spot::Missing,
            Spot::Unknown => Spot::Unknown,
        }
    }

    // So many nodes up. It stops where there is nothing.
    fn raised(&self, ups: usize, from: usize) -> Spot
        ensures { result ≡ spec.raised self.now ups (spots.Node from) }
    {
        let mut spot = Spot::Node(from);
        let mut left = ups;
        while left > 0 {
            match spot {
                Spot::Missing => return Spot::Missing,
                _ => {}
            }
            spot = self.above(spot);
            left -= 1;
        }
        spot
    }

    // Where a path of a node begins.
    fn begun(&self, node: usize, start: Start) -> Spot
        ensures { result ≡ spec.begun self.now node start }
    {
        match start {
            Start::Root => Spot::Root,
            Start::Up(ups) => self.raised(ups, node),
        }
    }

    // The module of a name.
    #[tactic(auto, unfolding(crate::specs::Walk::named_module))]
    fn named_module(&self, written: usize, owner: usize, name: &'a NodeName) -> Option<usize>
        ensures { result ≡ spec.named_module self.now.rows written owner name.now.prefix }
    {
        let Some(prefix) = &name.prefix else {
            return Some(owner);
        };
        let Some(row) = self.names().prefix_leads(written, prefix.as_str()) else {
            return None;
        };
        match self.rows().row(row) {
            None => None,
            Some(row) => Some(row.module),
        }
    }

    #[tactic(auto, unfolding(crate::specs::Walk::into_module))]
    fn into_module(&self, owner: usize, name: &'b str) -> Spot
        ensures { result ≡ spec.into_module self.now owner name.now }
    {
        let found = self.expansion().top_named(owner, name);
        found_or(found, self.is_known_module(owner))
    }

    #[tactic(auto, unfolding(crate::specs::Walk::into_node))]
    fn into_node(&self, at: usize, owner: usize, name: &'b str) -> Spot
        ensures { result ≡ spec.into_node self.now at owner name.now }
    {
        if !self.is_of_module(at, owner) {
            return Spot::Missing;
        }
        let found = self.expansion().child_named(at, name);
        found_or(found, self.is_known_node(at))
    }

    // One node down, to the name of a module.
    fn down(&self, spot: Spot, owner: Option<usize>, name: &'b str) -> Spot
        ensures { result ≡ spec.down self.now spot owner name.now }
    {
        match spot {
            Spot::Root => match owner {
                None => Spot::Missing,
                Some(owner) => self.into_module(owner, name),
            },
            Spot::Node(at) => match owner {
                None => Spot::Missing,
                Some(owner) => self.into_node(at, owner, name),
            },
            Spot::Missing => Spot::Missing,
            Spot::Unknown => Spot::Unknown,
        }
    }

    #[tactic(auto, unfolding(crate::specs::Walk::stepped))]
    fn stepped(&self, written: usize, owner: usize, spot: Spot, name: &'a NodeName) -> Spot
        ensures { result ≡ spec.stepped self.now written owner spot name.now }
    {
        let named = self.named_module(written, owner, name);
        self.down(spot, named, name.name.as_str())
    }

    // Down by each of some names. It stops where nothing is found.
    fn walked(&self, written: usize, owner: usize, from: Spot, names: &'a [NodeName]) -> Spot
        ensures { result ≡ spec.walked self.now written owner from names.now }
    {
        let mut spot = from;
        for name in names {
            match spot {
                Spot::Missing => return Spot::Missing,
                Spot::Unknown => return Spot::Unknown,
                _ => {}
            }
            spot = self.stepped(written, owner, spot, name);
        }
        spot
    }

    fn ended(&self, spot: Spot) -> Led
        ensures { result ≡ spec.ended self.now spot }
    {
        match spot {
            Spot::Node(at) => {
                if self.is_leaf_node(at) {
                    return Led::Node(at);
                }
                Led::Missing
            }
            Spot::Root => Led::Missing,
            Spot::Missing => Led::Missing,
            Spot::Unknown => Led::Unknown,
        }
    }

    /// Where a path that is written in a module leads from a node of another.
    #[tactic(auto, unfolding(crate::specs::Walk::led_along))]
    pub fn led_along(&self, written: usize, owner: usize, node: usize, path: &'a LeafrefPath) -> Led
        ensures { result ≡ spec.led_along self.now written owner node path.now }
    {
        let begun = self.begun(node, path.start);
        let spot = self.walked(written, owner, begun, &path.nodes);
        self.ended(spot)
    }
}
