//! What an edit is refused for.

ghost use Rattle.std.specs.Prelude.{◌≡◌, ◌||◌};
ghost use Rattle.nm_path.specs.Spelling.{node_of as found_at};
ghost use Rattle.nm_config.specs.Under.{has_under};
ghost use Rattle.nm_edit.specs.Refusals as spec;

use crate::act::Act;
use crate::fault::EditFault;
use crate::operation::Effective;
use nm_base::Tag;
use nm_config::RowMap;
use nm_path::{node_of, write_path};
use nm_schema_tree::{NodeKind, Schema};
use nm_types::Path;
use std::alloc::Global;

// Whether a path leads to a container without presence.
fn is_passed(schema: &Schema, path: &Path) -> bool
    ensures { result ≡ spec.is_passed_at schema.now.nodes (found_at schema.now path.now) }
{
    let Some(at) = node_of(schema, path) else {
        return false;
    };
    match schema.node(at) {
        None => false,
        Some(node) => is_passed_kind(&node.kind),
    }
}

fn is_passed_kind(kind: &NodeKind) -> bool
    ensures { result ≡ spec.is_passed kind.now }
{
    match kind {
        NodeKind::Container { presence } => !*presence,
        _ => false,
    }
}

// Whether a node counts as present where nothing is done to it.
fn counts<M: RowMap>(schema: &Schema, config: &M, path: &Path) -> bool
    ensures { result ≡ (has_under (M.rows config.now) path.now || spec.is_passed_at schema.now.nodes (found_at schema.now path.now)) }
{
    config.any_under(path) || is_passed(schema, path)
}

// What is done at a node is refused with this tag.
fn refused_at<M: RowMap>(schema: &Schema, config: &M, act: &Act) -> Option<Tag>
    ensures { result ≡ spec.refused_at schema.now (M.rows config.now) act.now }
{
    match act.operation {
        Effective::Create => {
            if config.any_under(&act.path) {
                return Some(Tag::DataExists);
            }
            None
        }
        Effective::Delete => {
            if config.any_under(&act.path) {
                return None;
            }
            Some(Tag::DataMissing)
        }
        Effective::Nothing => {
            if counts(schema, config, &act.path) {
                return None;
            }
            Some(Tag::DataMissing)
        }
        Effective::Merge | Effective::Replace | Effective::Remove => None,
    }
}

/// Refuses an edit at the first node at which what it does is refused.
pub fn refuse_first<M: RowMap>(
    alloc: Global,
    schema: &Schema,
    config: &M,
    acts: &[Act],
) -> Result<(), EditFault>
    ensures { spec.Passes result (spec.first_refusal schema.now (M.rows config.now) acts.now) }
{
    for act in acts {
        if let Some(tag) = refused_at(schema, config, act) {
            return Err(EditFault::Refused {
                tag,
                path: write_path(alloc, schema, &act.path)?,
            });
        }
    }
    Ok(())
}
