//! Why nobody was subscribed.

ghost use Rattle.std.specs.Prelude.{◌≡◌};

use std::alloc::AllocFailed;
use std::error::Error;
use std::fmt;

/// Why nobody was subscribed. The stream is as it was.
#[derive(Clone, Copy, Debug, PartialEq, Eq)]
pub enum SubscribeFault {
    /// As many are subscribed as may be, or the greatest number was given.
    Full,
    NoMemory,
}

impl<T: Drop> From<AllocFailed<T>> for SubscribeFault {
    ghost use Rattle.nm_notify.specs.declared.fault.SubscribeFault.TheVariants as subscribe;

    ghost from_gives = { λ _ fault. fault ≡ subscribe.NoMemory };

    fn from(_error: AllocFailed<T>) -> SubscribeFault {
        SubscribeFault::NoMemory
    }
}

impl fmt::Display for SubscribeFault {
    fn fmt<W: fmt::Write>(&self, f: &mut fmt::Formatter<W>) -> fmt::Result {
        match self {
            SubscribeFault::Full => f.write_str("no more subscribers"),
            SubscribeFault::NoMemory => f.write_str("out of memory"),
        }
    }
}

impl Error for SubscribeFault {}
