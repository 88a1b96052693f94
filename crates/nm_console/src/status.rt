//! The exit statuses, in one place with their numbers.

ghost use Rattle.std.specs.Prelude.{◌≡◌, IsTrue};
ghost use Rattle.nm_console.specs.Status.{is_whole, status_for};

use nm_world::Pair;

/// How the program ended. Its number is the exit status.
#[derive(Clone, Copy, PartialEq, Eq)]
pub enum Status {
    /// The text was written whole, and each device has what it should.
    Ok,
    /// The text was written whole, and a device lost a change set that was to be committed.
    Differ,
    /// The words are not words of the program.
    Usage,
    /// The input is no scenario.
    Scenario,
    /// The input failed. Nothing was written.
    ReadFault,
    /// The output failed.
    WriteFault,
    /// The journal's disk failed. Nothing was written.
    DiskFault,
    /// The journal is damaged, or it holds something where an empty one is wanted.
    Journal,
    /// Memory ran out. Nothing was written.
    NoMemory,
    /// The text was written whole, and a device of a change set is not settled.
    Unsettled,
}

impl Status {
    ghost use Rattle.nm_console.specs.Status.{status_code};

    /// The exit status.
    pub fn code(self) -> u8
        ensures { result ≡ status_code self }
    {
        match self {
            Status::Ok => 0,
            Status::Differ => 1,
            Status::Usage => 2,
            Status::Scenario => 3,
            Status::ReadFault => 4,
            Status::WriteFault => 5,
            Status::DiskFault => 6,
            Status::Journal => 7,
            Status::NoMemory => 8,
            Status::Unsettled => 10,
        }
    }
}

/// The status of a text that names these change sets and devices.
pub fn status_for(unsettled: &[Pair], differing: &[Pair]) -> Status
    ensures value { result ≡ status_for unsettled.now differing.now }
    ensures whole { IsTrue (is_whole result) }
{
    match (unsettled, differing) {
        ([], []) => Status::Ok,
        ([], _) => Status::Differ,
        _ => Status::Unsettled,
    }
}
