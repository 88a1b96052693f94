//! Laws of what is found among the rows that differ. Each function does nothing: its contract is the law.

ghost use Rattle.std.specs.Prelude.{◌≡◌, ◌≤◌, ◌+◌, ℕ, List, length, true};
ghost use Rattle.nm_types.specs.Path.{PathStep};
ghost use Rattle.nm_schema_tree.specs.Nodes.{SchemaTree};
ghost use Rattle.nm_path.specs.Sound.{IsSound};
ghost use Rattle.nm_config.specs.Rows.{Rows};
ghost use Rattle.nm_validate_rules.specs.declared.rule.Rule.{Rule};
ghost use Rattle.nm_validate_rules.specs.Rule.{all_rules};
ghost use Rattle.nm_validate_rules.specs.Reads.{reads};
ghost use Rattle.nm_validate_rules.specs.Candidates.{has_candidates};
ghost use Rattle.nm_validate_rules.specs.Standing.{StandsIn};
ghost use Rattle.nm_validate_rules.specs.Violation.{IsValid, violation};
ghost use Rattle.nm_validate_rules.specs.Reaches.{DifferAmong, Covers};
ghost use Rattle.nm_incremental.specs.Read.{first_found, all_judged};
ghost use Rattle.nm_incremental.specs.Differing.{differing};
ghost use Rattle.nm_incremental.specs.Bound.{Continues, IsBounded};

/// After a change of a valid configuration, what is found first among the constraints that read a row that differs is the
/// violation that a whole check tells.
pub fn violation_is_found()
    ensures { (t : SchemaTree) (base next : Rows) (rows : List (List PathStep)) → IsSound t.nodes → StandsIn t base → StandsIn t next
        → IsValid t base → DifferAmong rows base next → first_found t next rows all_rules ≡ violation t next }
{}

/// Where touched paths cover a change, each row that differs lies at or below one of them.
pub fn all_differ()
    ensures { (base next : Rows) (touched : List (List PathStep)) → Covers touched base next → DifferAmong (differing base next touched) base next }
{}

/// The constraints that are judged are reached by the touched paths, and none of them comes twice.
pub fn steps_are_bounded()
    ensures { (t : SchemaTree) (base next : Rows) (touched : List (List PathStep)) (before after : ℕ)
        → after ≤ before + length (all_judged t (differing base next touched) all_rules) → IsBounded t base next touched before after }
{}

/// Rules on values, keys, single nodes and missing choices read a row at its own path alone, at that of what it stands in, and at places below
/// one of these: a constraint at a place where nothing is reads nothing.
pub fn a_row_is_read_at_its_places()
    ensures { (t : SchemaTree) (rule : Rule) (path row : List PathStep) → IsSound t.nodes → has_candidates rule ≡ true → reads t rule path row ≡ true
        → Continues row path }
{}
