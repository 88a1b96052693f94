//! The violation of a configuration: of the first rule that is violated, at the least path.

ghost use Rattle.std.specs.Prelude.{◌≡◌, IfOk};
ghost use Rattle.nm_path.specs.Sound.{IsSound};
ghost use Rattle.nm_validate_rules.specs.Rule.{all_rules};
ghost use Rattle.nm_validate_rules.specs.Violation as spec;
ghost use Rattle.nm_validate_places.specs.Groups.{IsGrouped};

use crate::one_case::least_other_case;
use nm_base::NoMemory;
use nm_config::RowMap;
use nm_schema_tree::Schema;
use nm_types::Path;
use nm_validate_leafref::least_unreached;
use nm_validate_places::areas::{Grouped, group_rows};
use nm_validate_places::{
    least_bad_key, least_bad_value, least_missing_choice, least_missing_leaf, least_too_few,
    least_too_many,
};
use nm_validate_rules::Rule;
use nm_validate_unique::least_repeated_entry;
use std::alloc::Global;
use std::marker::Model;

/// A rule that is violated, and where.
#[derive(Drop)]
pub struct Violation {
    pub rule: Rule,
    pub path: Path,
}

impl Model for Violation {
    ghost use Rattle.nm_validate_rules.specs.Violation.{Violation as TheViolation};

    ghost Value = { TheViolation };

    ghost view = { λ v. record { rule = v.rule; path = v.path } };
}

// All rules, in the order in which their violations are told.
const RULES: &[Rule] = &[
    Rule::ValueType,
    Rule::Key,
    Rule::Mandatory,
    Rule::Leafref,
    Rule::Unique,
    Rule::MinElements,
    Rule::MaxElements,
    Rule::MandatoryChoice,
    Rule::OneCase,
];

fn rules() -> &'static [Rule]
    ensures { result.now ≡ all_rules }
{
    RULES
}

// The least path at which a rule is violated.
fn least_at<M: RowMap>(
    alloc: Global,
    schema: &Schema,
    config: &M,
    grouped: &Grouped<'_>,
    rule: Rule,
) -> Result<Option<Path>, NoMemory>
    requires sound { IsSound schema.now.nodes }
    requires grouped { IsGrouped schema.now (M.rows config.now) grouped.now }
    ensures { IfOk result (λ found. found ≡ spec.least_at schema.now (M.rows config.now) rule) }
{
    match rule {
        Rule::ValueType => least_bad_value(alloc, schema, config, grouped),
        Rule::Key => least_bad_key(alloc, schema, config, grouped),
        Rule::Mandatory => least_missing_leaf(alloc, schema, config, grouped),
        Rule::Leafref => least_unreached(alloc, schema, config, grouped),
        Rule::Unique => least_repeated_entry(alloc, schema, config, grouped),
        Rule::MinElements => least_too_few(alloc, schema, config, grouped),
        Rule::MaxElements => least_too_many(alloc, schema, config, grouped),
        Rule::MandatoryChoice => least_missing_choice(alloc, schema, config, grouped),
        Rule::OneCase => least_other_case(alloc, schema, config, grouped),
    }
}

/// The violation of a configuration, and None where it is valid (RFC 7950 section 8).
#[tactic(auto, unfolding(nm_validate_rules::specs::Violation::violation))]
pub fn violation_of<M: RowMap>(
    alloc: Global,
    schema: &Schema,
    config: &M,
) -> Result<Option<Violation>, NoMemory>
    requires { IsSound schema.now.nodes }
    ensures { IfOk result (λ found. found ≡ spec.violation schema.now (M.rows config.now)) }
{
    let grouped = group_rows(alloc, schema, config)?;
    for rule in rules() {
        if let Some(path) = least_at(alloc, schema, config, &grouped, *rule)? {
            return Ok(Some(Violation { rule: *rule, path }));
        }
    }
    Ok(None)
}
