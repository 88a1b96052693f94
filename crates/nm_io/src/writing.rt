//! Bytes written to the last: apart from `Sink`, since it holds for each of them.

ghost use Rattle.std.specs.Prelude.{◌≡◌, ◌≤◌, OnOk, OnErr};
ghost use Rattle.std.specs.Io.KnownBytes.{append_known};
ghost use Rattle.nm_base.specs.Count.{Rose};
ghost use Rattle.nm_io.specs.Bytes.{Begins};

use crate::sink::Sink;
use nm_base::Failed;

/// Writes all the bytes, in as many writes as the sink asks for. It takes no memory.
pub fn write_all<K: Sink>(to: &mut K, bytes: &[u8]) -> Result<(), Failed>
    ensures all { OnOk result (K.taken to.new ≡ append_known (K.taken to.old) bytes.now) }
    ensures begins { OnErr result (Begins (K.taken to.old) bytes.now (K.taken to.new)) }
    ensures failed { OnErr result (Rose (K.faults to.old) (K.faults to.new)) }
    ensures count { K.faults to.old ≤ K.faults to.new }
{
    let mut done = 0;
    while done < bytes.len() {
        match to.write(&bytes[done..]) {
            Ok(count) => done += count,
            Err(failed) => return Err(failed),
        }
    }
    Ok(())
}
