//! Laws of what the rules read. Each function does nothing: its contract is the law.

ghost use Rattle.std.specs.Prelude.{◌≡◌, List, true, Contains};
ghost use Rattle.std.specs.List.{list_any};
ghost use Rattle.std.specs.FinMap.{get};
ghost use Rattle.nm_types.specs.Path.{PathStep};
ghost use Rattle.nm_schema_tree.specs.Nodes.{SchemaTree};
ghost use Rattle.nm_path.specs.Sound.{IsSound};
ghost use Rattle.nm_config.specs.Rows.{Rows};
ghost use Rattle.nm_validate_rules.specs.declared.rule.Rule.{Rule};
ghost use Rattle.nm_validate_rules.specs.declared.rule.Rule.TheVariants.{OneCase};
ghost use Rattle.nm_validate_rules.specs.Standing.{is_row_path, StandsIn};
ghost use Rattle.nm_validate_rules.specs.Violated.{violated};
ghost use Rattle.nm_validate_rules.specs.Violation.{IsValid};
ghost use Rattle.nm_validate_rules.specs.Reads.{reads};
ghost use Rattle.nm_validate_rules.specs.Candidates.{candidates, has_candidates, other_children};
ghost use Rattle.nm_validate_rules.specs.Concerns.{concerns};
ghost use Rattle.nm_validate_rules.specs.Reaches.{AgreeOn, DifferAmong, Covers, Reaches};

/// Configurations of a schema that agree on the rows that a rule reads at a path are judged alike there.
pub fn agree()
    ensures { (t : SchemaTree) (one other : Rows) (rule : Rule) (path : List PathStep) → IsSound t.nodes → StandsIn t one → StandsIn t other
        → AgreeOn (reads t rule path) one other → violated t one rule path ≡ violated t other rule path }
{}

/// What is violated after a change of a valid configuration reads a row that changed.
pub fn is_read()
    ensures { (t : SchemaTree) (base next : Rows) (differing : List (List PathStep)) (rule : Rule) (path : List PathStep) → IsSound t.nodes
        → StandsIn t base → StandsIn t next → IsValid t base → DifferAmong differing base next → violated t next rule path ≡ true
        → list_any (reads t rule path) differing ≡ true }
{}

/// A constraint that reads a row at which configurations differ is reached by the paths that cover what they differ in.
pub fn is_reached()
    ensures { (t : SchemaTree) (base next : Rows) (touched : List (List PathStep)) (rule : Rule) (path row : List PathStep) → Covers touched base next
        → (get base row ≡ get next row → ⊥) → reads t rule path row ≡ true → Reaches t base next touched rule path }
{}

/// What is violated after a change of a valid configuration is a constraint that is reached by the paths that cover the change.
pub fn only_reached()
    ensures { (t : SchemaTree) (base next : Rows) (touched : List (List PathStep)) (rule : Rule) (path : List PathStep) → IsSound t.nodes
        → StandsIn t base → StandsIn t next → IsValid t base → Covers touched base next → violated t next rule path ≡ true
        → Reaches t base next touched rule path }
{}

/// A row that a rule reads somewhere concerns the rule.
pub fn concerned()
    ensures { (t : SchemaTree) (rule : Rule) (path row : List PathStep) → IsSound t.nodes → reads t rule path row ≡ true
        → concerns t rule row ≡ true }
{}

/// Rules on values, keys, single nodes and missing choices read a row at its candidates alone.
pub fn is_candidate()
    ensures { (t : SchemaTree) (rule : Rule) (path row : List PathStep) → IsSound t.nodes → has_candidates rule ≡ true
        → reads t rule path row ≡ true → Contains (candidates t rule row) path }
{}

/// A child of another case than the first whose rule reads a row is such a child at a place that the row is below.
pub fn is_other_child()
    ensures { (t : SchemaTree) (rows : Rows) (path row : List PathStep) → StandsIn t rows → is_row_path t row ≡ true
        → violated t rows OneCase path ≡ true → reads t OneCase path row ≡ true → Contains (other_children t rows row) path }
{}
