//! What a check answers: the violation as a refusal.

ghost use Rattle.nm_path.specs.Sound.{IsSound};
ghost use Rattle.nm_proto.specs.Content.{Checks};
ghost use Rattle.nm_validate.specs.Told as spec;

use crate::violation::violation_of;
use nm_config::RowMap;
use nm_path::write_path;
use nm_proto::CheckFault;
use nm_schema_tree::Schema;
use std::alloc::Global;

/// Whether a configuration is valid (RFC 7950 section 8): the tag and the path of its violation where it isn't.
pub fn check_rows<M: RowMap>(alloc: Global, schema: &Schema, config: &M) -> Result<(), CheckFault>
    requires { IsSound schema.now.nodes }
    ensures { Checks result (spec.violation_told schema.now (M.rows config.now)) }
{
    match violation_of(alloc, schema, config)? {
        None => Ok(()),
        Some(violation) => Err(CheckFault::Violation {
            tag: violation.rule.tag(),
            path: write_path(alloc, schema, &violation.path)?,
        }),
    }
}
