//! The rules on single places, judged at those alone at which they read a row that differs.

ghost use Rattle.std.specs.Prelude.{◌≡◌, ◌∷◌, ◌++◌, ◌≤◌, ◌+◌, [], IfOk, OnOk, Some, filter, map as each, length, true};
ghost use Rattle.std.specs.List.{find};
ghost use Rattle.std.specs.FinMap.{keys};
ghost use Rattle.nm_validate_rules.specs.Violated.{violated};
ghost use Rattle.nm_incremental.specs.Members.{AreMembers};
ghost use Rattle.nm_validate_rules.specs.Reads.{reads};
ghost use Rattle.nm_validate_rules.specs.Candidates.{has_candidates};
ghost use Rattle.nm_incremental.specs.Read as spec;

use crate::candidates::candidates;
use crate::reading::reads_at;
use crate::{Members, judged};
use nm_base::{NoMemory, Steps};
use nm_config::{Config, RowMap};
use nm_schema_tree::Schema;
use nm_types::{Path, Value};
use nm_validate_rules::Rule;
use std::alloc::Global;
use std::sync::ledger::Ledger;

// Puts a path behind others, as the key of a row.
fn put_path(path: Path, all: &mut Vec<(Path, Value)>) -> Result<(), NoMemory>
    ensures { OnOk result (all.new.items ≡ all.old.items ++ spec.present path ∷ []) }
{
    all.push((path, Value::Present))?;
    Ok(())
}

// Puts those of some paths at which a rule reads a row behind others.
fn put_read(
    alloc: Global,
    schema: &Schema,
    members: &Members,
    rule: Rule,
    row: &Path,
    paths: Vec<Path>,
    all: &mut Vec<(Path, Value)>,
) -> Result<(), NoMemory>
    requires members { AreMembers schema.now members.now }
    requires alone { has_candidates rule ≡ true }
    ensures { OnOk result (all.new.items ≡ all.old.items ++ each spec.present (filter (λ path. reads schema.now rule path row.now) paths.items)) }
{
    for path in paths {
        if reads_at(alloc, schema, members, rule, &path, row)? {
            put_path(path, all)?;
        }
    }
    Ok(())
}

// Puts the paths at which a rule reads a row behind others.
fn put_row(
    alloc: Global,
    schema: &Schema,
    members: &Members,
    rule: Rule,
    row: &Path,
    all: &mut Vec<(Path, Value)>,
) -> Result<(), NoMemory>
    requires members { AreMembers schema.now members.now }
    requires alone { has_candidates rule ≡ true }
    ensures { OnOk result (all.new.items ≡ all.old.items ++ each spec.present (spec.read_at schema.now rule row.now)) }
{
    let paths = candidates(alloc, schema, rule, row)?;
    put_read(alloc, schema, members, rule, row, paths, all)?;
    Ok(())
}

// The paths at which a rule reads a row that differs, as the keys of a configuration.
fn read_set(
    alloc: Global,
    schema: &Schema,
    members: &Members,
    rule: Rule,
    differing: &[Path],
) -> Result<Config, NoMemory>
    requires members { AreMembers schema.now members.now }
    requires alone { has_candidates rule ≡ true }
    ensures { IfOk result (λ set. set ≡ spec.read_set schema.now rule differing.now) }
{
    let mut all = Vec::new(alloc);
    for row in differing {
        put_row(alloc, schema, members, rule, row, &mut all)?;
    }
    let set = Config::of_rows(alloc, all)?;
    Ok(set)
}

// A path that was found.
fn found(alloc: Global, path: &Path) -> Result<Option<Path>, NoMemory>
    ensures { IfOk result (λ found. found ≡ Some path.now) }
{
    Ok(Some(path.copy(alloc)?))
}

// The first of some paths at which a rule is violated. It takes a step for each path that it judges.
fn first_violated<M: RowMap, L: Ledger>(
    alloc: Global,
    schema: &Schema,
    next: &M,
    members: &Members,
    rule: Rule,
    paths: &Config,
    steps: &mut Steps<L>,
) -> Result<Option<Path>, NoMemory>
    requires { AreMembers schema.now members.now }
    ensures found { IfOk result (λ found. found ≡ find (violated schema.now (M.rows next.now) rule) (keys paths.now)) }
    ensures steps { steps.new ≤ steps.old + length (keys paths.now) }
    ensures counted { OnOk result (steps.new ≡ steps.old + spec.looked_at (violated schema.now (M.rows next.now) rule) (keys paths.now)) }
{
    for (path, _) in paths.iter() {
        steps.tick();
        if judged(alloc, schema, next, members, rule, path)? {
            return found(alloc, path);
        }
    }
    Ok(None)
}

/// The least path at which a rule on single places, none of cases, is violated, among those at which it reads a row that
/// differs. It takes a step for each path that it judges.
pub fn least_read<M: RowMap, L: Ledger>(
    alloc: Global,
    schema: &Schema,
    next: &M,
    members: &Members,
    rule: Rule,
    differing: &[Path],
    steps: &mut Steps<L>,
) -> Result<Option<Path>, NoMemory>
    requires members { AreMembers schema.now members.now }
    requires alone { has_candidates rule ≡ true }
    ensures found { IfOk result (λ found. found ≡ find (violated schema.now (M.rows next.now) rule) (keys (spec.read_set schema.now rule differing.now))) }
    ensures steps { steps.new ≤ steps.old + length (keys (spec.read_set schema.now rule differing.now)) }
{
    let paths = read_set(alloc, schema, members, rule, differing)?;
    first_violated(alloc, schema, next, members, rule, &paths, steps)
}
