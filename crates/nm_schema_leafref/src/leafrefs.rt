//! What leafrefs of a tree are.

ghost use Rattle.std.specs.Prelude.{◌≡◌, IfOk, MatchOption, Some, None, length, slice_get, slice_index_or, false};
ghost use Rattle.nm_schema_typing.specs.Flaws.{AreMeanings};
ghost use Rattle.nm_schema_leafref.specs.Known as spec;
ghost use Rattle.nm_schema_statements.specs.Flaw as grammar;
ghost use Rattle.nm_schema_leafref.specs.Fault.{flaw_in};

use crate::fault::{PathFault, faults};
use crate::graph::{circular, graph_of};
use crate::led::{Led, is_marked, led_at};
use crate::leds::{Scene, leds, ups};
use crate::paths::Paths;
use crate::tree::tree_of;
use crate::types::types_of_nodes;
use nm_base::{Label, NoMemory};
use nm_graph::order;
use nm_schema_names::RowNames;
use nm_schema_nodes::Expansion;
use nm_schema_statements::{Flaw, Rows};
use nm_schema_tree::SharedType;
use nm_schema_typing::Types;
use nm_schema_uses::Shape;
use std::alloc::Global;
use std::marker::Model;

/// What is known of the nodes of a tree as leafrefs, and what is wrong with their paths.
#[derive(Drop)]
pub struct Leafrefs {
    leds: Vec<Option<Led>>,
    ups: Vec<usize>,
    circular: Vec<bool>,
    types: Vec<Option<SharedType>>,
    faults: Vec<Option<PathFault>>,
}

impl Model for Leafrefs {
    ghost use Rattle.nm_schema_leafref.specs.Known.{Known};

    ghost Value = { Known };

    ghost view = { λ l. record { leds = l.leds.items; ups = l.ups.items; circular = l.circular.items; types = l.types.items; faults = l.faults.items } };
}

fn text_of(alloc: Global, argument: &Option<Label>) -> Result<Label, NoMemory>
    ensures { IfOk result (λ text. text ≡ grammar.text_of argument.now) }
{
    match argument {
        None => Label::new(alloc, ""),
        Some(text) => text.copy(),
    }
}

impl Leafrefs {
    /// Where the path of a node leads, and None where the node is no leafref.
    pub fn led(&self, node: usize) -> Option<Led>
        ensures exact { result ≡ slice_index_or self.now.leds node None }
    {
        led_at(&self.leds, node)
    }

    /// How many nodes the path of a node goes up, an absolute one to above all nodes; 0 where the node is no leafref.
    pub fn up(&self, node: usize) -> usize
        ensures exact { result ≡ slice_index_or self.now.ups node 0 }
    {
        if node >= self.ups.len() {
            return 0;
        }
        self.ups[node]
    }

    /// Whether a node leads to itself, in one step or more.
    pub fn is_circular(&self, node: usize) -> bool
        ensures exact { result ≡ slice_index_or self.now.circular node false }
    {
        is_marked(&self.circular, node)
    }

    /// The type of a leaf or leaf-list: its own, or for a leafref that of the node that it leads to, and so on. None where that
    /// leads to nothing or to a cycle, and of other nodes.
    pub fn leaf_type(&self, node: usize) -> Option<&SharedType>
        ensures exact { MatchOption result (slice_index_or self.now.types node None ≡ None)
            (λ shared. slice_index_or self.now.types node None ≡ Some shared.now) }
    {
        if node >= self.types.len() {
            return None;
        }
        self.types[node].as_ref()
    }

    /// What is wrong with the path of a row: that of the first node, by number, that is faulty by it.
    pub fn path_fault(&self, at: usize) -> Option<PathFault>
        ensures exact { result ≡ slice_index_or self.now.faults at None }
    {
        if at >= self.faults.len() {
            return None;
        }
        self.faults[at]
    }

    /// The same as a flaw, by the text of the path: BadReference where it leads to nothing, and Cycle where the leafref leads to
    /// itself.
    pub fn path_flaw(&self, alloc: Global, rows: &Rows, at: usize) -> Result<Option<Flaw>, NoMemory>
        ensures exact { IfOk result (λ flaw. flaw ≡ flaw_in (slice_get rows.now at) (slice_index_or self.now.faults at None)) }
    {
        let Some(row) = rows.row(at) else {
            return Ok(None);
        };
        match self.path_fault(at) {
            None => Ok(None),
            Some(PathFault::Missing) => Ok(Some(Flaw::BadReference(text_of(
                alloc,
                &row.argument,
            )?))),
            Some(PathFault::Circular) => Ok(Some(Flaw::Cycle(text_of(alloc, &row.argument)?))),
        }
    }
}

// What is known of the nodes of a tree.
fn known_of<'a: 'b, 'b>(alloc: Global, scene: &Scene<'_, 'a, 'b>) -> Result<Leafrefs, NoMemory>
    ensures leafrefs { IfOk result (spec.AreLeafrefs scene.now.typedefs scene.now.tree) }
    ensures size { IfOk result (λ leafrefs. length leafrefs.faults ≡ length scene.now.tree.rows) }
{
    let leds = leds(alloc, scene)?;
    let ups = ups(alloc, scene)?;
    let graph = graph_of(alloc, &leds)?;
    let ordered = order(alloc, &graph)?;
    let circular = circular(alloc, &graph, &ordered.nodes)?;
    let types = types_of_nodes(alloc, scene, &graph, &ordered.nodes)?;
    let faults = faults(alloc, scene, &leds, &circular)?;
    Ok(Leafrefs {
        leds,
        ups,
        circular,
        types,
        faults,
    })
}

/// The leafrefs of a tree of modules. `typedefs` has for the row of a type the row of the typedef that it names, as for `types_of`.
/// The paths are made before the names, since these keep the text of what is looked up.
///
/// Takes time in proportion to the nodes, their names along paths, and the logarithm of what is looked up in; where nodes lead to
/// themselves, a search more for each node that leads to such a one.
pub fn leafrefs_of<'a: 'b, 'b>(
    alloc: Global,
    names: &RowNames<'a>,
    paths: &'a Paths,
    shape: &Shape<'_>,
    expansion: &Expansion<'b>,
    types: &Types,
    typedefs: &[Option<usize>],
) -> Result<Leafrefs, NoMemory>
    requires names { names.now ≡ expansion.now.rows }
    requires paths { spec.ArePaths expansion.now.rows paths.now }
    requires rows { shape.now.rows ≡ expansion.now.rows }
    requires groupings { shape.now.groupings ≡ expansion.now.groupings }
    requires meanings { AreMeanings expansion.now.rows typedefs.now types.now.meanings }
    ensures leafrefs { IfOk result (spec.AreLeafrefs typedefs.now expansion.now) }
    ensures size { IfOk result (λ leafrefs. length leafrefs.faults ≡ length expansion.now.rows) }
{
    let tree = tree_of(alloc, names, shape, expansion)?;
    let scene = Scene::new(tree, paths, types, typedefs);
    known_of(alloc, &scene)
}
