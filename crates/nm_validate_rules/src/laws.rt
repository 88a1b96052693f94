//! Laws of what is valid. Each function does nothing: its contract is the law.

ghost use Rattle.std.specs.Prelude.{◌≡◌, ◌↔◌, ◌<◌, ℕ, List, [], codes, length, true, Some, None, Contains};
ghost use Rattle.nm_types.specs.Path.{PathStep};
ghost use Rattle.nm_schema_tree.specs.Nodes.{SchemaTree};
ghost use Rattle.nm_schema_tree.specs.Levels.{IsTree};
ghost use Rattle.nm_path.specs.Sound.{IsSound};
ghost use Rattle.nm_path.specs.Spelling.{node_of};
ghost use Rattle.nm_config.specs.Rows.{Rows};
ghost use Rattle.nm_json.specs.Configs.{IsConfigOf};
ghost use Rattle.nm_validate_rules.specs.Standing.{StandsIn};
ghost use Rattle.nm_validate_rules.specs.Cases.{case_holds, HaveCases};
ghost use Rattle.nm_validate_rules.specs.Guards.{holds_at, stands};
ghost use Rattle.nm_validate_rules.specs.Places.{places};
ghost use Rattle.nm_validate_rules.specs.Violation.{IsTold, violation};
ghost use Rattle.nm_validate_rules.specs.declared.rule.Rule.TheVariants as rule;
ghost use Rattle.nm_validate_rules.specs.Sample as sample;

/// What is a configuration of a schema, as everything that is read by one, stands in its tree.
pub fn configs_stand()
    ensures { (t : SchemaTree) (rows : Rows) → IsConfigOf t rows → StandsIn t rows }
{}

/// The places of a node are exactly the paths at which it may stand.
pub fn places_stand()
    ensures { (t : SchemaTree) (rows : Rows) (x : ℕ) (path : List PathStep) → IsSound t.nodes → x < length t.nodes
        → Contains (places t rows x) path ↔ ((node_of t path ≡ Some x) × (stands t rows path ≡ true)) }
{}

/// A case is the nearer guard: where rows stand in the tree and a case has a node at a place, what guards the place holds.
pub fn cases_tell()
    ensures { (t : SchemaTree) (rows : Rows) (above : List PathStep) (c : ℕ) → IsSound t.nodes → HaveCases t → StandsIn t rows
        → case_holds t rows above c ≡ true → holds_at t rows above ≡ true }
{}

/// What is told of a configuration is its least violation: a rule is violated there, whatever is violated elsewhere comes
/// later in the order of rules and paths, and nothing is told exactly of what is valid.
pub fn violation_is_least()
    ensures { (t : SchemaTree) (rows : Rows) → IsTree t.nodes → IsTold t rows (violation t rows) }
{}

/// What is told of small configurations with a choice: a mandatory choice without a node, and nodes of two cases.
pub fn choices_told()
    ensures missing { sample.told_of sample.sample_tree [] ≡ sample.tells rule.MandatoryChoice (sample.in_addr (codes "how")) }
    ensures two { sample.told_of sample.sample_tree sample.two_rows ≡ sample.tells rule.OneCase (sample.in_addr (codes "ip")) }
{}

/// What is told of small configurations with a leafref to a key and a unique statement.
pub fn references_told()
    ensures lost { sample.told_of sample.listed_tree sample.lost_rows ≡ sample.tells rule.Leafref sample.uplink }
    ensures doubled { sample.told_of sample.listed_tree sample.doubled_rows ≡ sample.tells rule.Unique (sample.iface (codes "b")) }
{}

/// What is told behind a container with presence: nothing without it; a mandatory leaf, too few entries, and a default that
/// is in use in a unique statement; and nothing where a leafref finds a default in use.
pub fn guards_told()
    ensures nothing { sample.told_of sample.guarded_tree [] ≡ None }
    ensures missing { sample.told_of sample.guarded_tree sample.bare_rows ≡ sample.tells rule.Mandatory sample.must }
    ensures few { sample.told_of sample.guarded_tree sample.few_rows ≡ sample.tells rule.MinElements (sample.in_box (codes "srv")) }
    ensures same { sample.told_of sample.guarded_tree sample.same_rows ≡ sample.tells rule.Unique (sample.srv (codes "b")) }
    ensures valid { sample.told_of sample.guarded_tree sample.valid_rows ≡ None }
{}
