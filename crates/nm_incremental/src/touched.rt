//! What a check answers that looks at touched paths alone.

ghost use Rattle.std.specs.Prelude.{◌≡◌, ◌≤◌, ◌+◌, IfOk, length};
ghost use Rattle.nm_path.specs.Sound.{IsSound};
ghost use Rattle.nm_proto.specs.Content.{Checks};
ghost use Rattle.nm_validate_rules.specs.Rule.{all_rules};
ghost use Rattle.nm_validate_rules.specs.Standing.{StandsIn};
ghost use Rattle.nm_validate_rules.specs.Violation.{IsValid, violation};
ghost use Rattle.nm_validate_rules.specs.Reaches.{Covers};
ghost use Rattle.nm_incremental.specs.Members.{AreMembers};
ghost use Rattle.nm_validate.specs.Told.{violation_told};
ghost use Rattle.nm_incremental.specs.Bound as spec;
ghost use Rattle.nm_incremental.specs.Read as read;

use crate::differing::differing;
use crate::local::least_read;
use crate::whole::{least_case, least_leafref, least_unique};
use crate::{Members, members_of};
use nm_base::{NoMemory, Steps};
use nm_config::RowMap;
use nm_path::write_path;
use nm_proto::CheckFault;
use nm_schema_tree::Schema;
use nm_types::Path;
use nm_validate::Violation;
use nm_validate_rules::Rule;
use std::alloc::Global;
use std::sync::ledger::Ledger;

// All rules, in the order in which their violations are told.
const RULES: &[Rule] = &[
    Rule::ValueType,
    Rule::Key,
    Rule::Mandatory,
    Rule::Leafref,
    Rule::Unique,
    Rule::MinElements,
    Rule::MaxElements,
    Rule::MandatoryChoice,
    Rule::OneCase,
];

fn rules() -> &'static [Rule]
    ensures { result.now ≡ all_rules }
{
    RULES
}

// The least path at which a rule is violated, by the rows that differ from a valid configuration.
fn least_among<M: RowMap, L: Ledger>(
    alloc: Global,
    schema: &Schema,
    next: &M,
    members: &Members,
    rule: Rule,
    differing: &[Path],
    steps: &mut Steps<L>,
) -> Result<Option<Path>, NoMemory>
    requires { AreMembers schema.now members.now }
    ensures found { IfOk result (λ found. found ≡ read.least_found schema.now (M.rows next.now) differing.now rule) }
    ensures steps { steps.new ≤ steps.old + length (read.judged_by schema.now differing.now rule) }
{
    match rule {
        Rule::ValueType => least_read(alloc, schema, next, members, rule, differing, steps),
        Rule::Key => least_read(alloc, schema, next, members, rule, differing, steps),
        Rule::Mandatory => least_read(alloc, schema, next, members, rule, differing, steps),
        Rule::MinElements => least_read(alloc, schema, next, members, rule, differing, steps),
        Rule::MaxElements => least_read(alloc, schema, next, members, rule, differing, steps),
        Rule::MandatoryChoice => {
            least_read(alloc, schema, next, members, rule, differing, steps)
        }
        Rule::Leafref => least_leafref(alloc, schema, next, &members.cases, differing),
        Rule::Unique => least_unique(alloc, schema, next, differing),
        Rule::OneCase => least_case(alloc, schema, next, differing),
    }
}

// The violation of the first rule that is found to be violated, by the rows that differ from a valid configuration.
fn violation_in<M: RowMap, L: Ledger>(
    alloc: Global,
    schema: &Schema,
    next: &M,
    members: &Members,
    differing: &[Path],
    steps: &mut Steps<L>,
) -> Result<Option<Violation>, NoMemory>
    requires { AreMembers schema.now members.now }
    ensures found { IfOk result (λ found. found ≡ read.first_found schema.now (M.rows next.now) differing.now all_rules) }
    ensures steps { steps.new ≤ steps.old + length (read.all_judged schema.now differing.now all_rules) }
{
    for rule in rules() {
        let found = least_among(alloc, schema, next, members, *rule, differing, steps)?;
        if let Some(path) = found {
            return Ok(Some(Violation { rule: *rule, path }));
        }
    }
    Ok(None)
}

// The violation of a configuration, given a valid one and paths at or below which the two differ.
fn violation_touched<B: RowMap, M: RowMap, L: Ledger>(
    alloc: Global,
    schema: &Schema,
    base: &B,
    next: &M,
    touched: &[Path],
    steps: &mut Steps<L>,
) -> Result<Option<Violation>, NoMemory>
    requires sound { IsSound schema.now.nodes }
    requires base { StandsIn schema.now (B.rows base.now) }
    requires next { StandsIn schema.now (M.rows next.now) }
    requires valid { IsValid schema.now (B.rows base.now) }
    requires covers { Covers touched.now (B.rows base.now) (M.rows next.now) }
    ensures found { IfOk result (λ found. found ≡ violation schema.now (M.rows next.now)) }
    ensures bound { spec.IsBounded schema.now (B.rows base.now) (M.rows next.now) touched.now steps.old steps.new }
{
    let differing = differing(alloc, base, next, touched)?;
    let members = members_of(alloc, schema)?;
    violation_in(alloc, schema, next, &members, &differing, steps)
}

/// Whether a configuration is valid (RFC 7950 section 8), given a valid one and paths at or below which the two differ: the
/// answer is that of a whole check. It takes no more steps than there are constraints that a touched path reaches.
pub fn check_touched<B: RowMap, M: RowMap, L: Ledger>(
    alloc: Global,
    schema: &Schema,
    base: &B,
    next: &M,
    touched: &[Path],
    steps: &mut Steps<L>,
) -> Result<(), CheckFault>
    requires sound { IsSound schema.now.nodes }
    requires base { StandsIn schema.now (B.rows base.now) }
    requires next { StandsIn schema.now (M.rows next.now) }
    requires valid { IsValid schema.now (B.rows base.now) }
    requires covers { Covers touched.now (B.rows base.now) (M.rows next.now) }
    ensures answer { Checks result (violation_told schema.now (M.rows next.now)) }
    ensures bound { spec.IsBounded schema.now (B.rows base.now) (M.rows next.now) touched.now steps.old steps.new }
{
    match violation_touched(alloc, schema, base, next, touched, steps)? {
        None => Ok(()),
        Some(violation) => Err(CheckFault::Violation {
            tag: violation.rule.tag(),
            path: write_path(alloc, schema, &violation.path)?,
        }),
    }
}
