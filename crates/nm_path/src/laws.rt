//! Laws of the texts of paths. Each function does nothing: its contract is the law.

ghost use Rattle.std.specs.Prelude.{◌≡◌, ℕ, List};
ghost use Rattle.nm_types.specs.Path.{PathStep};
ghost use Rattle.nm_schema_tree.specs.Nodes.{SchemaTree};
ghost use Rattle.nm_path.specs.Spelling.{SpellsPath, IsPath, IsFullPath};

/// A text spells one path of a schema at most.
pub fn one_path()
    ensures { (tree : SchemaTree) (text : List ℕ) (one other : List PathStep) → SpellsPath tree text one → SpellsPath tree text other → one ≡ other }
{}

/// A path without a bare list or leaf-list is a path.
pub fn full_paths()
    ensures { (tree : SchemaTree) (path : List PathStep) → IsFullPath tree path → IsPath tree path }
{}
