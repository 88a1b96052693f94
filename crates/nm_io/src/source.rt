//! What a source of bytes promises, whatever stands behind it.

ghost use Rattle.std.specs.Prelude.{◌≡◌, ◌≤◌, ◌<◌, List, Option, ℕ, length, take, IfOk, OnErr};
ghost use Rattle.std.specs.Io.KnownBytes.{prepend_known, IsAtEnd};
ghost use Rattle.nm_base.specs.Count.{Rose};

use nm_base::Failed;

/// Where bytes come from.
///
/// A source that tells its bytes tells them always, and one that doesn't never does.
pub trait Source {
    /// The bytes that are left to read, where the source tells them.
    ghost left: { Self → Option (List ℕ) };

    /// How many faults there were. A count that stands at 2^64 - 1 stays there.
    ghost faults: { Self → ℕ };

    /// Reads into the front of a piece, and answers how many bytes it read.
    ///
    /// Into a piece that isn't empty, 0 means the end. What stands in the piece after these bytes is
    /// of no meaning.
    fn read(&mut self, into: &mut [u8]) -> Result<usize, Failed>
        ensures within { IfOk result (λ n. n ≤ length into.new) }
        ensures given { IfOk result (λ n. left self.old ≡ prepend_known (take n into.new) (left self.new)) }
        ensures end { IfOk result (λ n. n ≡ 0 → 0 < length into.new → IsAtEnd (left self.old)) }
        ensures kept { OnErr result (left self.new ≡ left self.old) }
        ensures count { faults self.old ≤ faults self.new }
        ensures failed { OnErr result (Rose (faults self.old) (faults self.new)) };
}
