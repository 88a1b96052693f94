//! A law of what stands at nodes. The function does nothing: its contract is the law.

ghost use Rattle.std.specs.Prelude.{◌≡◌, ℕ, true, List, Some};
ghost use Rattle.std.specs.FinMap.{get};
ghost use Rattle.nm_schema_tree.specs.Nodes.{SchemaTree};
ghost use Rattle.nm_path.specs.Spelling.{node_of};
ghost use Rattle.nm_config.specs.Rows.{Rows};
ghost use Rattle.nm_validate_rules.specs.Guards.{front};
ghost use Rattle.nm_content_place.specs.declared.place.YangNode.{YangNode};
ghost use Rattle.nm_content_place.specs.Place.{found, is_key_at, part};

/// Configurations with equal parts at a key leaf have its entry alike, both or neither: who has locked a key leaf keeps its entry.
pub fn a_key_leaf_keeps_its_entry()
    ensures { (t : SchemaTree) (text : List ℕ) (node : YangNode) (one other : Rows) → found t text ≡ Some node → is_key_at t (node_of t node.path) ≡ true
        → part one node ≡ part other node → get one (front node.path) ≡ get other (front node.path) }
{}
