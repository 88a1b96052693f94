//! A source read to its end, within a limit: apart from `Source`, since it holds for each of them.

ghost use Rattle.std.specs.Prelude.{◌≡◌, ◌≤◌, ◌<◌, List, ℕ, IsErr, length, IfOk, OnOk, IfSome, IsErrOf, vec_capacity, []};
ghost use Rattle.std.specs.Io.KnownBytes.{IsAtEnd};
ghost use Rattle.nm_base.specs.Count.{Rose};
ghost use Rattle.nm_io.specs.Bytes.{ReadsFront};
ghost use Rattle.nm_io.specs.declared.reading.ReadAllFault.TheVariants.{NoMemory};

use crate::source::Source;
use std::alloc::{AllocError, Global};
use std::error::Error;
use std::fmt;

/// Why `read_all` answers no bytes.
#[derive(Clone, Copy, Debug, PartialEq, Eq)]
pub enum ReadAllFault {
    /// The source failed.
    ReadFault,
    /// More bytes were left than the limit.
    TooLong,
    /// Memory ran out. Nothing was read.
    NoMemory,
}

impl fmt::Display for ReadAllFault {
    fn fmt<W: fmt::Write>(&self, f: &mut fmt::Formatter<W>) -> fmt::Result {
        match self {
            ReadAllFault::ReadFault => f.write_str("the input failed"),
            ReadAllFault::TooLong => f.write_str("the input is too long"),
            ReadAllFault::NoMemory => f.write_str("out of memory"),
        }
    }
}

impl Error for ReadAllFault {}

impl From<AllocError> for ReadAllFault {
    ghost from_gives = { λ _ fault. fault ≡ NoMemory };

    fn from(_error: AllocError) -> ReadAllFault {
        ReadAllFault::NoMemory
    }
}

/// How many bytes are asked for at a time: what a pipe holds on Linux.
const PIECE: usize = 65536;

/// Reads a source to its end, and answers all that was left.
///
/// `limit` is in bytes. The room for so many is taken before the first read, and memory that no byte
/// was written to costs nothing where the system hands out pages at their first use.
pub fn read_all<S: Source>(
    alloc: Global,
    from: &mut S,
    limit: usize,
) -> Result<Vec<u8>, ReadAllFault>
    ensures whole { IfOk result (λ bytes. IfSome (S.left from.old) (λ told. told ≡ bytes.items)) }
    ensures at_end { OnOk result (IsAtEnd (S.left from.new)) }
    ensures fits { IfOk result (λ bytes. length bytes.items ≤ limit) }

    ensures read_fault { IsErrOf result ReadAllFault.ReadFault → Rose (S.faults from.old) (S.faults from.new) }
    ensures too_long { IsErrOf result ReadAllFault.TooLong → IfSome (S.left from.old) (λ told. limit < length told) }
    ensures above_limit { (told : List ℕ) → S.left from.old ≡ Some told → limit < length told → IsErr result }
    ensures no_memory { IsErrOf result ReadAllFault.NoMemory → from.new ≡ from.old }

    ensures front { ReadsFront (S.left from.old) (S.left from.new) }
    ensures count { S.faults from.old ≤ S.faults from.new }
{
    let mut piece = vec![in alloc; 0; PIECE]?;
    let bytes = Vec::with_capacity(alloc, limit)?;
    fill(from, &mut piece, bytes, limit)
}

// Reads on by pieces, to the end or past the limit.
fn fill<S: Source>(
    from: &mut S,
    piece: &mut [u8],
    mut bytes: Vec<u8>,
    limit: usize,
) -> Result<Vec<u8>, ReadAllFault>
    requires piece { 0 < length piece.old }
    requires empty { bytes.items ≡ [] }
    requires room { limit ≤ vec_capacity bytes }
    ensures whole { IfOk result (λ all. IfSome (S.left from.old) (λ told. told ≡ all.items)) }
    ensures at_end { OnOk result (IsAtEnd (S.left from.new)) }
    ensures fits { IfOk result (λ all. length all.items ≤ limit) }
    ensures read_fault { IsErrOf result ReadAllFault.ReadFault → Rose (S.faults from.old) (S.faults from.new) }
    ensures too_long { IsErrOf result ReadAllFault.TooLong → IfSome (S.left from.old) (λ told. limit < length told) }
    ensures above_limit { (told : List ℕ) → S.left from.old ≡ Some told → limit < length told → IsErr result }
    ensures has_memory { IsErrOf result ReadAllFault.NoMemory → ⊥ }
    ensures front { ReadsFront (S.left from.old) (S.left from.new) }
    ensures count { S.faults from.old ≤ S.faults from.new }
{
    loop {
        let count = match from.read(piece) {
            Ok(0) => return Ok(bytes),
            Ok(count) => count,
            Err(_) => return Err(ReadAllFault::ReadFault),
        };
        if limit - bytes.len() < count {
            return Err(ReadAllFault::TooLong);
        }
        bytes.extend_from_slice(&piece[..count]).unwrap();
    }
}
