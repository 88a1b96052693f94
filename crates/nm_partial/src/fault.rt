//! Why a partial lock isn't granted.

ghost use Rattle.std.specs.Prelude.{◌≡◌};

use nm_base::SessionId;
use std::alloc::AllocFailed;
use std::error::Error;
use std::fmt;

/// Why a partial lock wasn't granted. The locks are as they were.
#[derive(Clone, Copy, Debug, PartialEq, Eq)]
pub enum GrantFault {
    /// A node overlaps one that another session has locked: the session of the least such lock-id.
    Overlap { owner: SessionId },
    /// As many partial locks stand as may be, or the greatest id was given.
    Full,
    NoMemory,
}

impl<T: Drop> From<AllocFailed<T>> for GrantFault {
    ghost use Rattle.nm_partial.specs.declared.fault.GrantFault.TheVariants as grant;

    ghost from_gives = { λ _ fault. fault ≡ grant.NoMemory };

    fn from(_error: AllocFailed<T>) -> GrantFault {
        GrantFault::NoMemory
    }
}

impl fmt::Display for GrantFault {
    ghost use Rattle.std.specs.Prelude.{Some};
    ghost use Rattle.nm_partial.specs.Fault.{fault_text};

    ghost output = { λ fault. Some (fault_text fault) };

    fn fmt<W: fmt::Write>(&self, f: &mut fmt::Formatter<W>) -> fmt::Result {
        match self {
            GrantFault::Overlap { owner } => write!(f, "locked by session {}", owner.get()),
            GrantFault::Full => f.write_str("no more partial locks"),
            GrantFault::NoMemory => f.write_str("out of memory"),
        }
    }
}

impl Error for GrantFault {}
