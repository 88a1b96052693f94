//! Laws of judgements. Each function does nothing: its contract is the law.

ghost use Rattle.std.specs.Prelude.{◌≡◌, ◌↔◌, ◌⊎◌, ℕ, List, [], true, Option, Some, None, is_some, codes};
ghost use Rattle.nm_types.specs.Path.{PathStep};
ghost use Rattle.nm_proto.specs.declared.message.RowAccess.{RowAccess};
ghost use Rattle.nm_access.specs.declared.rule.Action.TheVariants as action;
ghost use Rattle.nm_access.specs.declared.rule.RuleList.{RuleList};
ghost use Rattle.nm_access.specs.declared.rule.AccessRules.{AccessRules};
ghost use Rattle.nm_access.specs.declared.access.Judgement.TheVariants.{Permit, Deny};
ghost use Rattle.nm_access.specs.Covers.{covers, IsOver};
ghost use Rattle.nm_access.specs.Judged.{first_for_operation, first_for_row, judged_operation, judged_rows, operation_denial, row_denial, rules_of};
ghost use Rattle.nm_access.specs.Laws.{ArePermitted, IsDenied, IsLeftOut, IsRuledOut, with_lists};

/// A path is over a row exactly where the row begins with as many steps, for each of which one of the path's stands.
pub fn paths_are_over_what_they_begin()
    ensures { (path row : List PathStep) → (covers path row ≡ true) ↔ IsOver path row }
{}

/// Where the default denies, rows that are permitted are each permitted by a rule of the user. So nobody without a permitting rule
/// comes to a row that a default denies.
pub fn nobody_without_a_rule()
    ensures { (access : AccessRules) (user : List ℕ) (rows : List (List PathStep × RowAccess)) → access.write_default ≡ action.Deny
        → judged_rows access user rows ≡ Permit → ArePermitted access user rows }
{}

/// Rows are denied exactly where one of them is, the first of those that are; and by that, with its path.
pub fn denials_tell_the_first_row()
    ensures { (access : AccessRules) (user : List ℕ) (rows : List (List PathStep × RowAccess)) (by : List ℕ) (path : Option (List PathStep))
        → (judged_rows access user rows ≡ Deny by path) ↔ IsDenied access user rows by path }
{}

/// A denial of a row names what denies it: the first rule that matches, or the default where none does.
pub fn denials_name_their_rule()
    ensures { (access : AccessRules) (user : List ℕ) (row : List PathStep × RowAccess) (by : List ℕ) → row_denial access user row ≡ Some by
        → IsRuledOut access user row by ⊎ IsLeftOut access user row by }
{}

/// Lists after the first rule that matches change nothing of what is decided of a row.
pub fn later_rules_change_no_row()
    ensures { (access : AccessRules) (more : List RuleList) (user : List ℕ) (row : List PathStep × RowAccess)
        → is_some (first_for_row access user row) ≡ true → row_denial (with_lists access more) user row ≡ row_denial access user row }
{}

/// Nor of an operation.
pub fn later_rules_change_no_operation()
    ensures { (access : AccessRules) (more : List RuleList) (user name : List ℕ)
        → is_some (first_for_operation access user name) ≡ true
        → operation_denial (with_lists access more) user name ≡ operation_denial access user name }
{}

/// Whatever the rules say, anybody may close his session.
pub fn anybody_may_close_his_session()
    ensures { (access : AccessRules) (user : List ℕ) → judged_operation access user (codes "close-session") ≡ Permit }
{}

/// Without a rule nobody may kill another's, whatever the default is.
pub fn nobody_kills_sessions_without_a_rule()
    ensures { (access : AccessRules) (user : List ℕ) → rules_of access user ≡ []
        → judged_operation access user (codes "kill-session") ≡ Deny (codes "kill-session") None }
{}
