//! Whether a rule is violated at a path.

ghost use Rattle.std.specs.Prelude.{◌≡◌, IfOk};
ghost use Rattle.nm_validate_rules.specs.Violated.{violated};
ghost use Rattle.nm_incremental.specs.Members.{AreMembers};

use crate::choices::{is_missing_choice, is_other_case};
use crate::elements::{has_too_few, has_too_many};
use crate::groups::{Members, members_of};
use crate::leafs::is_missing_leaf;
use crate::rows::{has_bad_key, has_bad_value, is_unreached};
use crate::unique::is_repeated_entry;
use nm_base::NoMemory;
use nm_config::RowMap;
use nm_schema_tree::Schema;
use nm_types::Path;
use nm_validate_rules::Rule;
use std::alloc::Global;

/// Whether a rule is violated at a path, by what is found of the schema once.
pub fn judged<M: RowMap>(
    alloc: Global,
    schema: &Schema,
    config: &M,
    members: &Members,
    rule: Rule,
    path: &Path,
) -> Result<bool, NoMemory>
    requires { AreMembers schema.now members.now }
    ensures { IfOk result (λ is. is ≡ violated schema.now (M.rows config.now) rule path.now) }
{
    match rule {
        Rule::ValueType => has_bad_value(alloc, schema, config, path),
        Rule::Key => has_bad_key(alloc, schema, config, path),
        Rule::Mandatory => is_missing_leaf(alloc, schema, config, &members.cases, path),
        Rule::Leafref => is_unreached(alloc, schema, config, path),
        Rule::Unique => is_repeated_entry(alloc, schema, config, path),
        Rule::MinElements => has_too_few(alloc, schema, config, &members.cases, path),
        Rule::MaxElements => has_too_many(alloc, schema, config, &members.cases, path),
        Rule::MandatoryChoice => is_missing_choice(alloc, schema, config, members, path),
        Rule::OneCase => is_other_case(alloc, schema, config, path),
    }
}

/// Whether a rule is violated at a path (RFC 7950 sections 7 to 9). Leafrefs and unique statements are judged by a pass over
/// all rows, each other rule by a few looks and by what is counted or chosen among right there.
pub fn rule_at<M: RowMap>(
    alloc: Global,
    schema: &Schema,
    config: &M,
    rule: Rule,
    path: &Path,
) -> Result<bool, NoMemory>
    ensures { IfOk result (λ is. is ≡ violated schema.now (M.rows config.now) rule path.now) }
{
    let members = members_of(alloc, schema)?;
    judged(alloc, schema, config, &members, rule, path)
}
