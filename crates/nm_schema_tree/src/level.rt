//! The nodes that stand directly in one, by their names.

ghost use Rattle.std.specs.Prelude.{◌≡◌, [], ◌∷◌, ◌++◌, OnOk, OnErr};
ghost use Rattle.nm_schema_tree.specs.Levels as spec;

use nm_base::NoMemory;
use std::alloc::Global;
use std::collections::BTreeMap;

/// The nodes that stand directly in one: all in order, and the first of each name.
#[derive(Drop)]
pub struct Level {
    order: Vec<usize>,
    first: BTreeMap<String, usize>,
}

// Lets a name lead to a node, where it leads nowhere yet.
fn put_first(
    alloc: Global,
    first: &mut BTreeMap<String, usize>,
    name: &str,
    at: usize,
) -> Result<(), NoMemory>
    ensures put { OnOk result (spec.Puts name.now at first.old first.new) }
    ensures unchanged { OnErr result (spec.FindsSame first.old first.new) }
{
    if first.contains_key(name) {
        return Ok(());
    }
    let key = String::from_str(alloc, name)?;
    first.insert(key, at)?;
    Ok(())
}

impl Level {
    /// No nodes.
    pub fn new(alloc: Global) -> Level
        ensures order { result.order.items ≡ [] }
        ensures first { spec.FindsNone result }
    {
        Level {
            order: Vec::new(alloc),
            first: BTreeMap::new(alloc),
        }
    }

    /// The first node of a name.
    pub fn find(&self, name: &str) -> Option<usize>
        ensures { result ≡ spec.found self.now name.now }
    {
        self.first.get(name).copied()
    }

    /// All of them.
    pub fn order(&self) -> &[usize]
        ensures { result.now ≡ self.now.order.items }
    {
        self.order.as_slice()
    }

    /// Puts a node at the end. The level stays as it was where memory runs out.
    pub fn put(&mut self, alloc: Global, name: &str, at: usize) -> Result<(), NoMemory>
        ensures order { OnOk result (self.new.order.items ≡ self.old.order.items ++ at ∷ []) }
        ensures put { OnOk result (spec.Puts name.now at self.old.first self.new.first) }
        ensures unchanged { OnErr result (spec.IsSame self.old self.new) }
    {
        self.order.reserve(1)?;
        put_first(alloc, &mut self.first, name, at)?;
        self.order.push_reserved(at);
        Ok(())
    }
}
