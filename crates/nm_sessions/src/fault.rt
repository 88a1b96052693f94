//! Why no session was opened.

ghost use Rattle.std.specs.Prelude.{◌≡◌};

use nm_base::NoMemory;
use std::alloc::AllocError;
use std::error::Error;
use std::fmt;

/// Why no session was opened. The sessions are as they were.
#[derive(Debug, Drop)]
pub enum EnterFault {
    /// As many sessions are open as may be, or the greatest id was given.
    Full,
    NoMemory,
}

impl From<AllocError> for EnterFault {
    ghost use Rattle.nm_sessions.specs.declared.fault.EnterFault.TheVariants as enter;

    ghost from_gives = { λ _ fault. fault ≡ enter.NoMemory };

    fn from(_error: AllocError) -> EnterFault {
        EnterFault::NoMemory
    }
}

impl From<NoMemory> for EnterFault {
    ghost use Rattle.nm_sessions.specs.declared.fault.EnterFault.TheVariants as enter;

    ghost from_gives = { λ _ fault. fault ≡ enter.NoMemory };

    fn from(_fault: NoMemory) -> EnterFault {
        EnterFault::NoMemory
    }
}

impl fmt::Display for EnterFault {
    fn fmt<W: fmt::Write>(&self, f: &mut fmt::Formatter<W>) -> fmt::Result {
        match self {
            EnterFault::Full => f.write_str("no more sessions"),
            EnterFault::NoMemory => f.write_str("out of memory"),
        }
    }
}

impl Error for EnterFault {}
