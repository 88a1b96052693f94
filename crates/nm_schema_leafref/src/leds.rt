//! Where the nodes of a tree lead.

ghost use Rattle.std.specs.Prelude.{◌≡◌, ℕ, IfOk, None, length, slice_index_or};
ghost use Rattle.nm_schema_leafref.specs.Known.{scene};
ghost use Rattle.nm_schema_leafref.specs.Known as known;
ghost use Rattle.nm_schema_leafref.specs.Target as target;
ghost use Rattle.nm_schema_leafref.specs.Walk as spec;
ghost use Rattle.nm_schema_typing.specs.Flaws.{AreMeanings};

use crate::led::Led;
use crate::paths::Paths;
use crate::tree::Tree;
use nm_base::NoMemory;
use nm_schema_typing::{Start, Types};
use std::alloc::Global;
use std::marker::Model;

/// A tree of modules with the types and paths of its rows. It is seen as the tree and the typedef of each type.
#[derive(Drop)]
pub struct Scene<'g, 'a, 'b> {
    tree: Tree<'g, 'a, 'b>,
    paths: &'a Paths,
    types: &'g Types,
    typedefs: &'g [Option<usize>],
}

impl<'g, 'a, 'b> Model for Scene<'g, 'a, 'b> {
    ghost use Rattle.nm_schema_typing.specs.Flaws.{AreMeanings};
    ghost use Rattle.nm_schema_leafref.specs.Known.{Scene, scene, ArePaths};

    ghost Value = { Scene };

    ghost view = { λ s. scene s.typedefs.now s.tree };

    ghost invariant = { λ s. ArePaths s.tree.rows s.paths.now × AreMeanings s.tree.rows s.typedefs.now s.types.now.meanings };
}

impl<'g, 'a: 'b, 'b> Scene<'g, 'a, 'b> {
    /// A tree with the types and paths of its rows.
    pub fn new(
        tree: Tree<'g, 'a, 'b>,
        paths: &'a Paths,
        types: &'g Types,
        typedefs: &'g [Option<usize>],
    ) -> Scene<'g, 'a, 'b>
        requires paths { known.ArePaths tree.rows paths.now }
        requires meanings { AreMeanings tree.rows typedefs.now types.now.meanings }
        ensures { result ≡ scene typedefs.now tree.entry }
    {
        Scene {
            tree,
            paths,
            types,
            typedefs,
        }
    }

    /// The tree.
    pub fn tree(&self) -> &Tree<'g, 'a, 'b>
        ensures { result.now ≡ self.now.tree }
    {
        &self.tree
    }

    /// The types of the rows.
    pub fn types(&self) -> &'g Types
        ensures { AreMeanings self.now.tree.rows self.now.typedefs result.now.meanings }
    {
        self.types
    }

    /// The row of the path of a node, where that is a leafref.
    #[tactic(auto, unfolding(crate::specs::Walk::path_row))]
    pub fn path_row(&self, node: usize) -> Option<usize>
        ensures { result ≡ spec.path_row self.now.typedefs self.now.tree node }
    {
        let Some(row) = self.tree.row_of(node) else {
            return None;
        };
        match self.types.meaning(row) {
            None => None,
            Some(meaning) => meaning.path(),
        }
    }

    // Where the path of a row leads from a node.
    #[tactic(auto, unfolding(crate::specs::Walk::led_by))]
    fn led_by(&self, node: usize, row: usize) -> Led
        ensures { result ≡ spec.led_by self.now.tree node row }
    {
        let Some(statement) = self.tree.rows().row(row) else {
            return Led::Missing;
        };
        let Some(owner) = self.tree.owner_of(node) else {
            return Led::Missing;
        };
        match self.paths.path(row) {
            None => Led::Missing,
            Some(path) => self.tree.led_along(statement.module, owner, node, path),
        }
    }

    /// Where a node leads, if it is a leafref.
    #[tactic(auto, unfolding(crate::specs::Walk::led_to))]
    pub fn led_to(&self, node: usize) -> Option<Led>
        ensures { result ≡ spec.led_to self.now.typedefs self.now.tree node }
    {
        match self.path_row(node) {
            None => None,
            Some(row) => Some(self.led_by(node, row)),
        }
    }

    fn ups_from(&self, node: usize, start: Start) -> usize
        ensures { result ≡ target.ups_from self.now.tree node start }
    {
        match start {
            Start::Root => self.tree.levels_of(node),
            Start::Up(ups) => ups,
        }
    }

    /// How many nodes the path of a node goes up.
    #[tactic(auto, unfolding(crate::specs::Target::up_of))]
    pub fn up_of(&self, node: usize) -> usize
        ensures { result ≡ target.up_of self.now.typedefs self.now.tree node }
    {
        let Some(row) = self.path_row(node) else {
            return 0;
        };
        match self.paths.path(row) {
            None => 0,
            Some(path) => self.ups_from(node, path.start),
        }
    }
}

/// Where each node leads.
pub fn leds<'a: 'b, 'b>(
    alloc: Global,
    scene: &Scene<'_, 'a, 'b>,
) -> Result<Vec<Option<Led>>, NoMemory>
    ensures size { IfOk result (λ leds. length leds.items ≡ length scene.now.tree.nodes) }
    ensures exact { IfOk result (λ leds. (x : ℕ) → slice_index_or leds.items x None ≡ spec.led_to scene.now.typedefs scene.now.tree x) }
{
    let count = scene.tree().nodes().len();
    let mut leds = Vec::with_capacity(alloc, count)?;
    for node in 0..count {
        leds.push(scene.led_to(node))?;
    }
    Ok(leds)
}

/// How many nodes the path of each node goes up.
pub fn ups<'a: 'b, 'b>(alloc: Global, scene: &Scene<'_, 'a, 'b>) -> Result<Vec<usize>, NoMemory>
    ensures { IfOk result (λ ups. (x : ℕ) → slice_index_or ups.items x 0 ≡ target.up_of scene.now.typedefs scene.now.tree x) }
{
    let count = scene.tree().nodes().len();
    let mut ups = Vec::with_capacity(alloc, count)?;
    for node in 0..count {
        ups.push(scene.up_of(node))?;
    }
    Ok(ups)
}
