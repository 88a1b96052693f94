//! Lists of rows.

ghost use Rattle.std.specs.Prelude.{◌≡◌, length, IfOk};

use nm_base::NoMemory;
use std::alloc::Global;
use std::marker::Model;
use std::sync::Arc;

/// Numbers of rows. They are seen as their list. Copies share it, and no list takes no memory.
#[derive(Drop)]
pub struct Nodes {
    shared: Option<Arc<Vec<usize>>>,
}

impl Model for Nodes {
    ghost use Rattle.std.specs.Prelude.{List, ℕ};
    ghost use Rattle.nm_schema_uses.specs.Sharing.{listed};

    ghost Value = { List ℕ };

    ghost view = { λ n. listed n.shared };
}

impl Nodes {
    /// The rows of a list.
    pub fn new(alloc: Global, all: Vec<usize>) -> Result<Nodes, NoMemory>
        ensures { IfOk result (λ nodes. nodes ≡ all.items) }
    {
        if all.is_empty() {
            return Ok(Nodes { shared: None });
        }
        let shared = Arc::new(alloc, all)?;
        Ok(Nodes {
            shared: Some(shared),
        })
    }

    /// The same rows once more, in constant time.
    pub(crate) fn copy(&self) -> Result<Nodes, NoMemory>
        ensures { IfOk result (λ nodes. nodes ≡ self.now) }
    {
        match &self.shared {
            None => Ok(Nodes { shared: None }),
            Some(shared) => Ok(Nodes {
                shared: Some(Arc::try_clone(shared)?),
            }),
        }
    }

    /// How many rows these are.
    pub fn len(&self) -> usize
        ensures { result ≡ length self.now }
    {
        self.as_slice().len()
    }

    /// The rows.
    pub fn as_slice(&self) -> &[usize]
        ensures { result.now ≡ self.now }
    {
        match &self.shared {
            None => &[],
            Some(shared) => shared.as_slice(),
        }
    }
}
