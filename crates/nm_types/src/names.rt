//! Names, each with its place.

ghost use Rattle.std.specs.Prelude.{◌≡◌, ◌<◌, true, IfOk, IfSome, length};
ghost use Rattle.nm_types.specs.Names.{Finds, is_once, place_in};

use nm_base::{Label, NoMemory};
use std::alloc::Global;
use std::collections::BTreeMap;
use std::marker::Model;
use std::sync::Arc;

// Names, with what finds the place of one.
#[derive(Drop)]
struct Table {
    names: Vec<Label>,
    places: BTreeMap<Label, usize>,
}

/// The names of an enumeration or of bits, each once (RFC 7950 sections 9.6.4 and 9.7.4). Copies share the names.
#[derive(Drop)]
pub struct Names {
    shared: Arc<Table>,
}

impl Model for Names {
    ghost use Rattle.std.specs.Prelude.{◌≡◌, List, ℕ, true};
    ghost use Rattle.nm_types.specs.Names.{Finds, is_once};

    ghost Value = { List (List ℕ) };

    ghost invariant = { λ n. (is_once n.shared.value.names.items ≡ true) × Finds n.shared.value.names.items n.shared.value.places };

    ghost view = { λ n. n.shared.value.names.items };
}

/// Whether each name is another than those behind it. It compares each with each.
#[tactic(auto, unfolding(crate::specs::Names::is_once))]
pub fn is_once(names: &[Label]) -> bool
    ensures { result ≡ is_once names.now }
{
    for (place, name) in names.iter().enumerate() {
        if names[place + 1..].contains(name) {
            return false;
        }
    }
    true
}

// Where each name stands.
fn places_of(alloc: Global, names: &[Label]) -> Result<BTreeMap<Label, usize>, NoMemory>
    requires { is_once names.now ≡ true }
    ensures { IfOk result (λ places. Finds names.now places) }
{
    let mut places = BTreeMap::new(alloc);
    for (place, name) in names.iter().enumerate() {
        places.insert(name.copy()?, place)?;
    }
    Ok(places)
}

impl Names {
    /// Names to share.
    pub fn new(alloc: Global, names: Vec<Label>) -> Result<Names, NoMemory>
        requires { is_once names.items ≡ true }
        ensures { IfOk result (λ shared. shared ≡ names.items) }
    {
        let places = places_of(alloc, &names)?;
        Ok(Names {
            shared: Arc::new(alloc, Table { names, places })?,
        })
    }

    /// The same names once more. It copies none of them.
    pub fn copy(&self) -> Result<Names, NoMemory>
        ensures { IfOk result (λ shared. shared ≡ self.now) }
    {
        Ok(Names {
            shared: Arc::try_clone(&self.shared)?,
        })
    }

    /// The names.
    pub fn as_slice(&self) -> &[Label]
        ensures value { result.now ≡ self.now }
        ensures once { is_once self.now ≡ true }
    {
        &self.shared.names
    }

    /// Where a name stands, from 0.
    pub fn place(&self, name: &Label) -> Option<usize>
        ensures place { result ≡ place_in name.now self.now }
        ensures within { IfSome result (λ place. place < length self.now) }
        ensures once { is_once self.now ≡ true }
    {
        self.shared.places.get(name).copied()
    }
}
