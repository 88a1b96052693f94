//! Laws of the trees that modules give. Each function does nothing: its contract is the law.

ghost use Rattle.std.specs.Prelude.{◌≡◌, ◌↔◌, ◌<◌, ℕ, List, length, Some, Result, Ok};
ghost use Rattle.nm_yang.specs.Tree.{Tree};
ghost use Rattle.nm_schema_tree.specs.Nodes.{SchemaTree, case_at};
ghost use Rattle.nm_path.specs.Sound.{IsSound};
ghost use Rattle.nm_schema_faults.specs.declared.fault.Fault.{Fault};
ghost use Rattle.nm_schema_statements.specs.Rows.{rows_of};
ghost use Rattle.nm_schema_faults.specs.Facts.{AreFacts};
ghost use Rattle.nm_schema.specs.FactsOf.{facts_in};
ghost use Rattle.nm_schema.specs.Built as spec;
ghost use Rattle.nm_schema.specs.Faultless.{HaveNoFault};
ghost use Rattle.nm_schema.specs.Whole.{AreWhole};
ghost use Rattle.nm_schema.specs.Marker.{HasMarker};

/// The nodes of a tree that modules give: their names are identifiers and tell them apart, each stands in an earlier container or
/// list of its module or at the top, each list has keys, which are leafs in it, and the types are those of YANG.
pub fn sound_nodes()
    ensures { (modules : List Tree) (t : SchemaTree) → spec.Builds modules (Ok t) → IsSound t.nodes }
{}

/// In a tree that modules give each leafref leads to a leaf or leaf-list of its own type, and its path turns at a node that the
/// target stands in, or above all nodes; each unique statement names leafs below its list, in containers alone; each default is a
/// value of its leaf's type, and keys have none.
pub fn whole_nodes()
    ensures { (modules : List Tree) (t : SchemaTree) → spec.Builds modules (Ok t) → AreWhole t.nodes }
{}

/// The nodes of the marker module stand in a tree that modules give.
pub fn marker_stands()
    ensures { (modules : List Tree) (t : SchemaTree) → spec.Builds modules (Ok t) → HasMarker t }
{}

/// The cases that nodes of a tree that modules give stand in are there (RFC 7950 section 7.9.2).
pub fn cases_stand()
    ensures { (modules : List Tree) (t : SchemaTree) → spec.Builds modules (Ok t) → (x c : ℕ) → case_at t.nodes x ≡ Some c → c < length t.cases }
{}

/// Modules give one tree or one fault: two that they give are the same.
pub fn one_answer()
    ensures { (modules : List Tree) (given other : Result SchemaTree Fault) → spec.Builds modules given → spec.Builds modules other → given ≡ other }
{}

/// What the function says of the rows of modules is so: which row is the first that leads to itself, which are configuration or
/// state, which are keys, which nodes the tree has, and what is wrong with paths.
pub fn facts_hold()
    ensures { (modules : List Tree) → AreFacts (rows_of modules) (facts_in (rows_of modules)) }
{}

/// What modules give is a function of them.
pub fn given_by_function()
    ensures { (modules : List Tree) (given : Result SchemaTree Fault) → spec.Builds modules given ↔ (given ≡ spec.built_of modules) }
{}

/// Modules give a tree exactly where nothing is wrong with any of their statements and none of them is too large.
pub fn faultless_have_tree()
    ensures { (modules : List Tree) → HaveNoFault modules ↔ spec.HaveTree modules }
{}
