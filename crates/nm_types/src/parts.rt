//! Ranges and lengths, as parts that ascend.

ghost use Rattle.std.specs.Prelude.{◌≡◌, true, IfOk};
ghost use Rattle.std.specs.List.{list_any};
ghost use Rattle.nm_types.specs.Limits.{is_within};
ghost use Rattle.nm_types.specs.Parts.{is_ascending, place_of};

use nm_base::NoMemory;
use std::alloc::Global;
use std::marker::Model;
use std::sync::Arc;

/// The parts of a range or a length (RFC 7950 sections 9.2.4 and 9.4.4), each by its lowest and its highest
/// number: of integers themselves, of decimals scaled, of texts how many characters. Copies share the parts.
#[derive(Drop)]
pub struct Parts {
    shared: Arc<Vec<(i128, i128)>>,
}

impl Model for Parts {
    ghost use Rattle.std.specs.Prelude.{◌≡◌, List, ℤ, true};
    ghost use Rattle.nm_types.specs.Parts.{is_ascending};

    ghost Value = { List (ℤ × ℤ) };

    ghost invariant = { λ p. is_ascending p.shared.value.items ≡ true };

    ghost view = { λ p. p.shared.value.items };
}

/// Whether each part ends at or above its beginning, and begins above the end of the part before.
pub fn is_ascending(parts: &[(i128, i128)]) -> bool
    ensures { result ≡ is_ascending parts.now }
{
    for (place, part) in parts.iter().enumerate() {
        if part.1 < part.0 {
            return false;
        }
        if let Some(next) = parts.get(place + 1) {
            if next.0 <= part.1 {
                return false;
            }
        }
    }
    true
}

/// The place of the first of ascending parts that ends at or above a number, and how many parts there are where
/// none does. It searches by halves.
pub fn place_of(parts: &[(i128, i128)], number: i128) -> usize
    requires { is_ascending parts.now ≡ true }
    ensures { result ≡ place_of parts.now number }
{
    parts.partition_point(|part| part.1 < number)
}

impl Parts {
    /// Parts to share.
    pub fn new(alloc: Global, parts: Vec<(i128, i128)>) -> Result<Parts, NoMemory>
        requires { is_ascending parts.items ≡ true }
        ensures { IfOk result (λ shared. shared ≡ parts.items) }
    {
        Ok(Parts {
            shared: Arc::new(alloc, parts)?,
        })
    }

    /// The same parts once more. It copies none of them.
    pub fn copy(&self) -> Result<Parts, NoMemory>
        ensures { IfOk result (λ shared. shared ≡ self.now) }
    {
        Ok(Parts {
            shared: Arc::try_clone(&self.shared)?,
        })
    }

    /// The parts.
    pub fn as_slice(&self) -> &[(i128, i128)]
        ensures value { result.now ≡ self.now }
        ensures ascending { is_ascending self.now ≡ true }
    {
        &self.shared
    }

    /// Whether a number is within one of the parts. It searches by halves.
    pub fn has(&self, number: i128) -> bool
        ensures { result ≡ list_any (is_within number) self.now }
    {
        let parts = self.as_slice();
        match parts.get(place_of(parts, number)) {
            Some(part) => part.0 <= number,
            None => false,
        }
    }
}
