//! The first node of each name.

ghost use Rattle.std.specs.Prelude.{◌≡◌, IfOk, OnOk};
ghost use Rattle.nm_schema_nodes.specs.Index as spec;

use crate::index::module_above;
use crate::instance::Instance;
use nm_base::NoMemory;
use nm_schema_statements::Rows;
use nm_schema_uses::argument_at;
use std::alloc::Global;
use std::collections::BTreeMap;

/// What a node is found by.
#[derive(PartialEq, Eq, PartialOrd, Ord, Drop)]
pub struct Key<'a> {
    /// The node that it stands in.
    pub parent: Option<usize>,
    /// The module at whose top it stands.
    pub owner: Option<usize>,
    /// The name.
    pub name: &'a str,
}

/// The first node of each key.
#[derive(Drop)]
pub struct Table<'a> {
    map: BTreeMap<Key<'a>, usize>,
}

impl<'a> Table<'a> {
    /// The number of the node that a key finds.
    pub(crate) fn get(&self, key: &Key<'a>) -> Option<usize>
        ensures { result ≡ spec.found self.now key.now }
    {
        self.map.get(key).copied()
    }
}

// Lets the key of a node lead to the node.
fn put<'a>(
    map: &mut BTreeMap<Key<'a>, usize>,
    rows: &'a Rows,
    node: &Instance,
    at: usize,
) -> Result<(), NoMemory>
    ensures { OnOk result (spec.Puts rows.now node.now at map.old map.new) }
{
    let key = Key {
        parent: node.parent,
        owner: module_above(node),
        name: argument_at(rows, node.row),
    };
    map.insert(key, at)?;
    Ok(())
}

/// The first node of each key.
pub(crate) fn table_of<'a>(
    alloc: Global,
    rows: &'a Rows,
    nodes: &[Instance],
) -> Result<Table<'a>, NoMemory>
    ensures { IfOk result (spec.IsTable rows.now nodes.now) }
{
    let mut map = BTreeMap::new(alloc);
    let mut at = nodes.len();
    while at > 0 {
        at -= 1;
        match put(&mut map, rows, &nodes[at], at) {
            Ok(()) => {}
            Err(error) => return Err(error),
        }
    }
    Ok(Table { map })
}
