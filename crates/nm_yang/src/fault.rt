//! Why a text is no module.

ghost use Rattle.std.specs.Prelude.{◌≡◌};
ghost use Rattle.nm_yang.specs.declared.fault.YangFault.TheVariants.{NoMemory as no_memory};

use nm_base::NoMemory;
use std::alloc::{AllocError, AllocFailed};

/// What is wrong with the text of a module.
#[derive(Clone, Copy, PartialEq, Eq)]
pub enum YangKind {
    /// A quote that is never closed, at the quote that opens.
    UnclosedQuote,
    /// A comment that is never closed, at its `/*`.
    UnclosedComment,
    /// A `{` that is never closed, at the last one that is open.
    UnclosedBrace,
    /// A backslash that begins no escape, in a module of version 1.1, at the backslash.
    BadEscape,
    /// A byte that can't begin a keyword or go on with it, at the byte.
    BadKeyword,
    /// A token or byte that can't stand there, at its first byte.
    BadToken,
    /// The outermost statement is no `module`, at 0.
    NotModule,
    /// Something stands after the module, at its first byte.
    Trailing,
    /// The bytes are not UTF-8, at the first that isn't.
    NotUtf8,
    /// The text has more than 262,144 bytes, at 262,144.
    TooLong,
    /// More than 64 braces are open, at the 65th.
    TooDeep,
}

/// The first fault of a text that is read forward.
#[derive(Clone, Copy, PartialEq, Eq)]
pub enum YangFault {
    /// The text is no module: where, in bytes from 0, and why.
    Bad {
        /// The place in bytes, from 0.
        place: u32,
        /// What is wrong there.
        kind: YangKind,
    },
    /// Memory ran out.
    NoMemory,
}

/// A place and what is wrong there.
#[derive(Clone, Copy)]
pub struct Fault {
    pub place: u32,
    pub kind: YangKind,
}

impl From<NoMemory> for YangFault {
    ghost from_gives = { λ _ e. e ≡ no_memory };

    fn from(_error: NoMemory) -> YangFault {
        YangFault::NoMemory
    }
}

impl From<AllocError> for YangFault {
    ghost from_gives = { λ _ e. e ≡ no_memory };

    fn from(_error: AllocError) -> YangFault {
        YangFault::NoMemory
    }
}

impl<T: Drop> From<AllocFailed<T>> for YangFault {
    ghost from_gives = { λ _ e. e ≡ no_memory };

    fn from(_error: AllocFailed<T>) -> YangFault {
        YangFault::NoMemory
    }
}
