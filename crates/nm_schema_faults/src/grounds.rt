//! What the faults of modules are found by.

ghost use Rattle.std.specs.Prelude.{◌≡◌, ℕ, IfOk, MatchOption, None, Some, false, length, is_some, slice_index_or};
ghost use Rattle.nm_schema_uses.specs.Outline.{outline};
ghost use Rattle.nm_schema_uses.specs.Config.{Marks};
ghost use Rattle.nm_schema_leafref.specs.Known.{AreLeafrefs, ArePaths};
ghost use Rattle.nm_schema_keys.specs.ConfigUse.{ConfigUse, IsConfigUse};
ghost use Rattle.nm_schema_keys.specs.Keys as keys;
ghost use Rattle.nm_schema_keys.specs.Uniques as uniques;
ghost use Rattle.nm_schema_typing.specs.Defaults as defaults;
ghost use Rattle.nm_schema_typing.specs.Flaws.{AreMeanings};
ghost use Rattle.nm_schema_typing.specs.Listing.{AreJudgements};
ghost use Rattle.nm_schema_faults.specs.Facts as spec;

use crate::cycle::cycle_of;
use crate::keys::keys_of_all;
use nm_base::{Label, NoMemory};
use nm_schema_keys::{Keys, Uniques, flawed_uniques, key_leafs, uniques_of};
use nm_schema_leafref::{Leafrefs, Paths, leafrefs_of};
use nm_schema_names::{Clashes, RowNames, clashes_of};
use nm_schema_nodes::Expansion;
use nm_schema_statements::Rows;
use nm_schema_typing::{Defaults, Judgement, Types, defaults_of, judgements_of, types_of};
use nm_schema_uses::Shape;
use std::alloc::Global;
use std::marker::Model;

/// What the faults of modules are found by, all of it made once. It is seen as the rows of the modules and what is so in them.
#[derive(Drop)]
pub struct Grounds<'g, 'a> {
    pub(crate) names: &'g RowNames<'a>,
    pub(crate) definitions: &'a [Option<usize>],
    pub(crate) shape: &'a Shape<'a>,
    pub(crate) clashes: Clashes<'a>,
    pub(crate) expansion: &'g Expansion<'a>,
    pub(crate) types: Types,
    pub(crate) judgements: Vec<Judgement>,
    pub(crate) defaults: Defaults,
    pub(crate) leafrefs: Leafrefs,
    pub(crate) keys: Vec<Option<Keys>>,
    pub(crate) is_key: Vec<bool>,
    pub(crate) flawed_uniques: Vec<bool>,
    pub(crate) configured: &'a [bool],
    pub(crate) in_state: &'a [bool],
    pub(crate) cycle: Option<usize>,
}

impl<'g, 'a> Model for Grounds<'g, 'a> {
    ghost use Rattle.nm_schema_faults.specs.Facts.{facts_of};
    ghost use Rattle.nm_schema_faults.specs.Grounded.{Grounded, grounded, AreGrounds};

    ghost Value = { Grounded };

    ghost view = { λ g. grounded g.names.now (facts_of g.cycle g.configured.now g.in_state.now g.is_key.items g.expansion.now.nodes g.leafrefs.faults) };

    ghost invariant = { λ g. AreGrounds g.names.now
        (facts_of g.cycle g.configured.now g.in_state.now g.is_key.items g.expansion.now.nodes g.leafrefs.faults)
        g.definitions.now g.shape.now g.clashes g.expansion.now g.types g.judgements.items g.defaults g.leafrefs
        g.keys.items g.flawed_uniques.items };
}

/// What the types of rows are known by.
#[derive(Drop)]
struct Typed {
    types: Types,
    judgements: Vec<Judgement>,
    defaults: Defaults,
}

// Types, what is to be said of them, and defaults.
fn typed_of(alloc: Global, rows: &Rows, definitions: &[Option<usize>]) -> Result<Typed, NoMemory>
    ensures meanings { IfOk result (λ typed. AreMeanings rows.now definitions.now typed.types.meanings) }
    ensures judgements { IfOk result (λ typed. AreJudgements rows.now definitions.now typed.judgements.items) }
    ensures defaults { IfOk result
        (λ typed. (i : ℕ) → defaults.joined (slice_index_or typed.defaults i None) ≡ defaults.default_of rows.now definitions.now i) }
{
    let types = types_of(alloc, rows, definitions)?;
    let judgements = judgements_of(alloc, rows, definitions, &types)?;
    let defaults = defaults_of(alloc, rows, definitions)?;
    Ok(Typed {
        types,
        judgements,
        defaults,
    })
}

/// What lists are known by.
#[derive(Drop)]
struct Keyed {
    keys: Vec<Option<Keys>>,
    is_key: Vec<bool>,
    flawed_uniques: Vec<bool>,
}

// The keys of lists, which rows are keys, and which `unique` statements have a flaw.
fn keyed_of(alloc: Global, names: &RowNames<'_>, shape: &Shape<'_>) -> Result<Keyed, NoMemory>
    requires { names.now ≡ shape.now.rows }
    ensures keys { (standing : ConfigUse) → IsConfigUse shape.now.rows shape.now.groupings standing
        → IfOk result (λ keyed. (i : ℕ) → slice_index_or keyed.keys.items i None ≡ keys.keys_of shape.now.rows shape.now.groupings standing i) }
    ensures marks { (standing : ConfigUse) → IsConfigUse shape.now.rows shape.now.groupings standing
        → IfOk result (λ keyed. Marks (keys.IsKey shape.now.rows shape.now.groupings standing) keyed.is_key.items) }
    ensures size { IfOk result (λ keyed. length keyed.is_key.items ≡ length shape.now.rows) }
    ensures flawed { (standing : ConfigUse) → IsConfigUse shape.now.rows shape.now.groupings standing
        → IfOk result (λ keyed. (i : ℕ) → slice_index_or keyed.flawed_uniques.items i false
        ≡ is_some (uniques.unique_flaw shape.now.rows shape.now.groupings standing i)) }
{
    let keys = keys_of_all(alloc, names, shape)?;
    let is_key = key_leafs(alloc, names, shape)?;
    let flawed_uniques = flawed_uniques(alloc, names, shape)?;
    Ok(Keyed {
        keys,
        is_key,
        flawed_uniques,
    })
}

impl<'g, 'a> Grounds<'g, 'a> {
    /// What the faults of the modules of some names are found by. The rows of the names, their definitions and all that is made
    /// of these are kept by the caller, each for the ones made after it.
    pub fn new(
        alloc: Global,
        names: &'g RowNames<'a>,
        definitions: &'a [Option<usize>],
        shape: &'a Shape<'a>,
        expansion: &'g Expansion<'a>,
        paths: &'a Paths,
    ) -> Result<Grounds<'g, 'a>, NoMemory>
        requires definitions { definitions.now ≡ spec.definitions names.now }
        requires shape { shape.now ≡ outline names.now definitions.now }
        requires expansion { (expansion.now.rows ≡ names.now) × (expansion.now.groupings ≡ definitions.now) }
        requires paths { ArePaths names.now paths.now }
        ensures { IfOk result (λ grounds. grounds.rows ≡ names.now) }
    {
        expansion.laws();
        let rows = names.rows();
        let cycle = cycle_of(alloc, names)?;
        let clashes = clashes_of(alloc, rows, definitions)?;
        let typed = typed_of(alloc, rows, definitions)?;
        let keyed = keyed_of(alloc, names, shape)?;
        let types = &typed.types;
        let leafrefs = leafrefs_of(alloc, names, paths, shape, expansion, types, definitions)?;
        Ok(Grounds {
            names,
            definitions,
            shape,
            clashes,
            expansion,
            types: typed.types,
            judgements: typed.judgements,
            defaults: typed.defaults,
            leafrefs,
            keys: keyed.keys,
            is_key: keyed.is_key,
            flawed_uniques: keyed.flawed_uniques,
            configured: shape.configured(),
            in_state: shape.in_state(),
            cycle,
        })
    }

    /// The rows of the modules.
    pub fn rows(&self) -> &'a Rows
        ensures { result.now ≡ self.now.rows }
    {
        self.names.rows()
    }

    /// What stands in what.
    pub fn shape(&self) -> &'a Shape<'a>
        ensures { result.now ≡ outline self.now.rows (spec.definitions self.now.rows) }
    {
        self.shape
    }

    /// The tree of the modules.
    pub fn expansion(&self) -> &'g Expansion<'a>
        ensures { result.now ≡ spec.tree self.now.rows self.now.facts }
    {
        self.expansion
    }

    /// Where the leafrefs of the tree lead, and the types of its nodes.
    pub fn leafrefs(&self) -> &Leafrefs
        ensures { AreLeafrefs (spec.definitions self.now.rows) (spec.tree self.now.rows self.now.facts) result.now }
    {
        &self.leafrefs
    }

    /// The key leafs of the list of a row's number, in the order of its `key`. None where it has no `key`, or one with a flaw, or
    /// where its members aren't known.
    pub fn keys_of(&self, list: usize) -> Option<&Keys>
        ensures { MatchOption result
            (keys.keys_of self.now.rows (spec.definitions self.now.rows) (spec.standing self.now.facts) list ≡ None)
            (λ found. keys.keys_of self.now.rows (spec.definitions self.now.rows) (spec.standing self.now.facts) list ≡ Some found.now) }
    {
        if list >= self.keys.len() {
            return None;
        }
        self.keys[list].as_ref()
    }

    /// What the `unique` statements directly in the list of a row's number say, in their order: for each word the rows that it
    /// leads through. None where one of them has a flaw or isn't known.
    pub fn uniques_of(&self, alloc: Global, list: usize) -> Result<Option<Uniques>, NoMemory>
        ensures { IfOk result (λ found. found ≡ uniques.uniques_of self.now.rows (spec.definitions self.now.rows) (spec.standing self.now.facts) list) }
    {
        uniques_of(alloc, self.names, self.shape, list)
    }

    /// The default of a leaf or typedef, by its row's number: its own, else that of the typedef that its type names, and so on.
    pub fn default_text(&self, row: usize) -> Option<&Label>
        ensures { MatchOption result (defaults.default_of self.now.rows (spec.definitions self.now.rows) row ≡ None)
            (λ text. defaults.default_of self.now.rows (spec.definitions self.now.rows) row ≡ Some text.now) }
    {
        self.defaults.text(row)
    }

    /// What is so in the rows. It does nothing: its contract is the law.
    pub fn laws(&self)
        ensures { spec.AreFacts self.now.rows self.now.facts }
    {
        let _count = self.keys.len();
    }
}
