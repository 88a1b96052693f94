//! The rows that a word leads through.

ghost use Rattle.std.specs.Prelude.{◌≡◌};
ghost use Rattle.nm_schema_keys.specs.Uniques as spec;

use nm_base::Numbers;

/// Where a word leads.
#[derive(Drop)]
pub enum Passage {
    /// Through containers to a leaf: the rows of both.
    Through(Numbers),
    /// To nothing that fits.
    Missing,
    /// That isn't known, since a `uses` on the way has no grouping or leads to itself.
    Unknown,
}

impl Passage {
    /// Whether the word leads to nothing that fits.
    pub(crate) fn is_missing(&self) -> bool
        ensures { result ≡ spec.is_missing self.now }
    {
        match self {
            Passage::Missing => true,
            Passage::Through(_) => false,
            Passage::Unknown => false,
        }
    }

    /// The rows that the word leads through.
    pub(crate) fn way(self) -> Option<Numbers>
        ensures { result ≡ spec.way_through self }
    {
        match self {
            Passage::Through(way) => Some(way),
            Passage::Missing => None,
            Passage::Unknown => None,
        }
    }
}
