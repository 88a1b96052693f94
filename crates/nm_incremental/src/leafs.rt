//! The rule of mandatory leafs.

ghost use Rattle.std.specs.Prelude.{◌≡◌, IfOk};
ghost use Rattle.nm_validate_rules.specs.declared.rule.Rule.TheVariants as rule;
ghost use Rattle.nm_validate_rules.specs.Violated.{violated};
ghost use Rattle.nm_validate_places.specs.Tables.{AreOfCases};

use nm_base::NoMemory;
use nm_config::RowMap;
use nm_path::node_of;
use nm_schema_tree::Schema;
use nm_types::Path;
use nm_validate_places::values::stands;
use std::alloc::Global;

/// Whether a path is that of a mandatory leaf that isn't there, where its guard holds (RFC 7950 section 7.6.5).
pub fn is_missing_leaf<M: RowMap>(
    alloc: Global,
    schema: &Schema,
    config: &M,
    cases: &[Vec<usize>],
    path: &Path,
) -> Result<bool, NoMemory>
    requires { AreOfCases schema.now cases.now }
    ensures { IfOk result (λ is. is ≡ violated schema.now (M.rows config.now) rule.Mandatory path.now) }
{
    let Some(at) = node_of(schema, path) else {
        return Ok(false);
    };
    if !schema.is_mandatory(at) {
        return Ok(false);
    }
    if config.value(path).is_some() {
        return Ok(false);
    }
    stands(alloc, schema, config, cases, &[], path)
}
