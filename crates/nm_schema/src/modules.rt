//! From the statements of modules to their schema tree.

ghost use Rattle.std.specs.Prelude.{◌≡◌, IfOk, OnOk};
ghost use Rattle.nm_schema_statements.specs.Rows.{FromModules};
ghost use Rattle.nm_schema_uses.specs.Holding.{AreNamed};
ghost use Rattle.nm_schema_uses.specs.Outline.{outline};
ghost use Rattle.nm_schema_leafref.specs.Known.{ArePaths};
ghost use Rattle.nm_schema_faults.specs.Facts as facts;
ghost use Rattle.nm_path.specs.Written.{IsWellNamed};
ghost use Rattle.nm_path.specs.Sound.{IsSound};
ghost use Rattle.nm_schema.specs.Built as spec;
ghost use Rattle.nm_schema.specs.Faultless.{HaveNoFault};
ghost use Rattle.nm_schema.specs.Marker.{HasMarker};
ghost use Rattle.nm_schema.specs.Whole.{AreWhole};

use crate::fault::SchemaFault;
use crate::tree::schema_of;
use nm_base::NoMemory;
use nm_schema_faults::{Grounds, definitions};
use nm_schema_leafref::{Paths, paths_of};
use nm_schema_names::RowNames;
use nm_schema_nodes::expand;
use nm_schema_statements::{Rows, rows_of};
use nm_schema_tree::Schema;
use nm_schema_uses::{Shape, shape_of};
use nm_yang::Statement;
use std::alloc::Global;

// What modules give, by what is known of them.
#[tactic(auto, using(crate::proofs::Answering::answered))]
fn answer(alloc: Global, grounds: &Grounds<'_, '_>) -> Result<Schema, SchemaFault>
    requires { FromModules grounds.now.rows }
    ensures { spec.Answered grounds.now.rows result }
{
    grounds.laws();
    schema_of(alloc, grounds)
}

// What modules give, by what was made of their rows.
fn answer_made<'a>(
    alloc: Global,
    rows: &'a Rows,
    definitions: &'a [Option<usize>],
    paths: &'a Paths,
    shape: &'a Shape<'a>,
) -> Result<Schema, SchemaFault>
    requires from { FromModules rows.now }
    requires definitions { definitions.now ≡ facts.definitions rows.now }
    requires paths { ArePaths rows.now paths.now }
    requires shape { shape.now ≡ outline rows.now definitions.now }
    ensures { spec.Answered rows.now result }
{
    let names = RowNames::new(alloc, rows)?;
    let expansion = expand(alloc, shape)?;
    let grounds = Grounds::new(alloc, &names, definitions, shape, &expansion, paths)?;
    answer(alloc, &grounds)
}

// Where the names of all rows lead.
fn definitions_of(alloc: Global, rows: &Rows) -> Result<Vec<Option<usize>>, NoMemory>
    ensures value { IfOk result (λ found. found.items ≡ facts.definitions rows.now) }
    ensures named { IfOk result (λ found. AreNamed rows.now found.items) }
{
    let names = RowNames::new(alloc, rows)?;
    definitions(alloc, &names)
}

// What modules give, by their rows.
fn answer_rows(alloc: Global, rows: &Rows) -> Result<Schema, SchemaFault>
    requires { FromModules rows.now }
    ensures { spec.Answered rows.now result }
{
    let definitions = definitions_of(alloc, rows)?;
    let paths = paths_of(alloc, rows)?;
    let shape = shape_of(alloc, rows, &definitions)?;
    answer_made(alloc, rows, &definitions, &paths, &shape)
}

/// The schema tree of modules, given as their statements (RFC 7950 section 3): each node of configuration, with `uses` expanded
/// and state left out, and after them the nodes of the module `netm-marker`. Or the first fault of the modules, in the order of
/// modules and places.
///
/// The names in a tree are identifiers, and tell the nodes of one place, the keys of a list and the bits of a type apart. Each
/// node stands at the top, or in an earlier container or list of its module. A list has keys, which are leafs in it. A leafref
/// leads to a leaf or leaf-list of its own type, a unique statement names leafs below its list in containers alone, and a default
/// is a value of its leaf's type.
///
/// Modules give a tree where nothing is wrong with them, and are refused where anything is.
pub fn build(alloc: Global, modules: &[Statement]) -> Result<Schema, SchemaFault>
    ensures answers { spec.Answers modules.now result }
    ensures built { spec.Gives result (spec.built_of modules.now) }
    ensures named { IfOk result (λ schema. IsWellNamed schema.nodes) }
    ensures sound { IfOk result (λ schema. IsSound schema.nodes) }
    ensures marked { IfOk result HasMarker }
    ensures whole { IfOk result (λ schema. AreWhole schema.nodes) }
    ensures faultless { OnOk result (HaveNoFault modules.now) }
    ensures refused { spec.IsRefusal result → ¬ (HaveNoFault modules.now) }
{
    let rows = rows_of(alloc, modules)?;
    answer_rows(alloc, &rows)
}
