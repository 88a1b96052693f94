//! The program as a whole: what it reads, which answer it makes, and that it writes it at once.

ghost use Rattle.std.specs.Prelude.{◌≡◌, List, [], ℕ, Option, IfOk, IsErrOf, IsOk, Some, IsSome, IsTrue, true, false};
ghost use Rattle.nm_base.specs.Count.{Rose};
ghost use Rattle.nm_io.specs.Bytes.{ReadsUpTo};
ghost use Rattle.nm_scenario.specs.Scenario.{byte_limit};
ghost use Rattle.nm_disk.specs.Image.{AnyMoment, LeavesOnly};
ghost use Rattle.nm_disk.specs.Keeps.{KeepsDisk};
ghost use Rattle.nm_console.specs.Words.{command_of, is_replay, reads_input, uses_journal, texts_of};
ghost use Rattle.nm_console.specs.Status.{is_whole};
ghost use Rattle.nm_console.specs.Console.{Answers, CutOff, LeavesSoFarBy, LeavesSoFarOf, Says, Tells, TellsOver, usage_told};

use crate::check::check_bytes;
use crate::command::{Command, command_of};
use crate::journal::{JournalStop, journal_answer};
use crate::refusal::USAGE;
use crate::replay::replay_bytes;
use crate::said::{Said, say_whole_fault};
use crate::status::Status;
use nm_base::NoMemory;
use nm_disk::Disk;
use nm_io::{ReadAllFault, Sink, Source, read_all, write_all};
use nm_report::text::put;
use nm_scenario::{BYTE_LIMIT, ScenarioKind};
use std::alloc::Global;

/// Why there is nothing to say.
#[derive(Clone, Copy, PartialEq, Eq)]
enum Stop {
    ReadFault,
    DiskFault,
    NoMemory,
}

/// The program: reads its input or its journal where its words ask for it, and writes the answer at once.
///
/// The words are those after the program's name, and `journal` is the disk at the path that they name, if they do.
/// A run appends each entry to its journal before anything rests on it. Nothing is written to the output before the answer is
/// whole in memory, so that only a failed write leaves a part of it.
pub fn console<S: Source, K: Sink, D: Disk>(
    alloc: Global,
    words: &[String],
    input: &mut S,
    output: &mut K,
    journal: &mut D,
) -> Status
    // The answer to the words, the input and the journal was written, and nothing else. Where it is told of a scenario that was read, the
    // same record says that the run of that scenario is safe.
    ensures answered { IsTrue (is_whole result)
        → Answers (record { left = S.left input.old; stored = (D.state journal.old).contents; after = (D.state journal.new).contents })
        (command_of (texts_of words.now)) (K.taken output.old) (K.taken output.new) result }

    // The input was read to its end, or past the greatest length of a scenario.
    ensures read_out { IsTrue (is_whole result) → reads_input (command_of (texts_of words.now)) ≡ true
        → ReadsUpTo byte_limit (S.left input.old) (S.left input.new) }

    // The input failed: nothing was written.
    ensures read_fault { result ≡ Status.ReadFault
        → IsTrue (reads_input (command_of (texts_of words.now))) × Rose (S.faults input.old) (S.faults input.new) × (K.taken output.new ≡ K.taken output.old) }

    // The output failed: a front of the answer was written.
    ensures write_fault { result ≡ Status.WriteFault
        → Rose (K.faults output.old) (K.faults output.new)
        × CutOff (record { left = S.left input.old; stored = (D.state journal.old).contents; after = (D.state journal.new).contents })
        (command_of (texts_of words.now)) (K.taken output.old) (K.taken output.new) }

    // The journal's disk failed: nothing was written.
    ensures disk_fault { result ≡ Status.DiskFault
        → IsTrue (uses_journal (command_of (texts_of words.now))) × Rose (D.state journal.old).faults (D.state journal.new).faults
        × (K.taken output.new ≡ K.taken output.old) }

    // Memory ran out: nothing was written.
    ensures no_memory { result ≡ Status.NoMemory → K.taken output.new ≡ K.taken output.old }

    // The input stays where the command doesn't read it, and the journal where nothing is run.
    ensures unread { reads_input (command_of (texts_of words.now)) ≡ false → input.new ≡ input.old }
    ensures journal_stays { is_replay (command_of (texts_of words.now)) ≡ false → (D.state journal.new).contents ≡ (D.state journal.old).contents }
    ensures journal_kept { KeepsDisk (D.state journal.old) (D.state journal.new) }

    // A crash at any moment of a run over an empty journal leaves the entries so far, the one being written with them or not.
    ensures any_moment { is_replay (command_of (texts_of words.now)) ≡ true → IsSome (D.state journal.old).contents → LeavesOnly [] (D.state journal.old)
        → AnyMoment (D.state journal.old) (D.state journal.new) (LeavesSoFarOf (S.left input.old)) }
{
    let said = match say(alloc, command_of(words), input, journal) {
        Ok(said) => said,
        Err(Stop::ReadFault) => return Status::ReadFault,
        Err(Stop::DiskFault) => return Status::DiskFault,
        Err(Stop::NoMemory) => return Status::NoMemory,
    };
    match write_all(output, said.text.as_slice()) {
        Ok(()) => said.status,
        Err(_) => Status::WriteFault,
    }
}

// What is to be said.
#[tactic(auto, using(crate::proofs::Saying::saying))]
fn say<S: Source, D: Disk>(
    alloc: Global,
    command: Option<Command>,
    input: &mut S,
    journal: &mut D,
) -> Result<Said, Stop>
    ensures says { IfOk result (λ said. Says (record {
      left = S.left input.old;
      stored = (D.state journal.old).contents;
      after = (D.state journal.new).contents;
    }) command said.status said.text.items) }
    ensures whole { IfOk result (λ said. IsTrue (is_whole said.status)) }
    ensures read_out { IsOk result → reads_input command ≡ true → ReadsUpTo byte_limit (S.left input.old) (S.left input.new) }
    ensures read_fault { IsErrOf result Stop.ReadFault
        → IsTrue (reads_input command) × Rose (S.faults input.old) (S.faults input.new) }
    ensures disk_fault { IsErrOf result Stop.DiskFault
        → IsTrue (uses_journal command) × Rose (D.state journal.old).faults (D.state journal.new).faults }
    ensures unread { reads_input command ≡ false → input.new ≡ input.old }
    ensures journal_stays { is_replay command ≡ false → (D.state journal.new).contents ≡ (D.state journal.old).contents }
    ensures journal_kept { KeepsDisk (D.state journal.old) (D.state journal.new) }
    ensures any_moment { is_replay command ≡ true → IsSome (D.state journal.old).contents → LeavesOnly [] (D.state journal.old)
        → AnyMoment (D.state journal.old) (D.state journal.new) (LeavesSoFarOf (S.left input.old)) }
{
    match command {
        None => match say_usage(alloc) {
            Ok(said) => Ok(said),
            Err(_) => Err(Stop::NoMemory),
        },
        Some(Command::Check) => say_input(alloc, Command::Check, input, journal),
        Some(Command::Replay) => say_input(alloc, Command::Replay, input, journal),
        Some(Command::Journal) => match journal_answer(alloc, journal) {
            Ok(said) => Ok(said),
            Err(JournalStop::DiskFault) => Err(Stop::DiskFault),
            Err(JournalStop::NoMemory) => Err(Stop::NoMemory),
        },
    }
}

fn say_usage(alloc: Global) -> Result<Said, NoMemory>
    ensures { IfOk result (λ said. Tells usage_told said.status said.text.items) }
{
    let mut text = Vec::new(alloc);
    put(&mut text, USAGE)?;
    Ok(Said {
        status: Status::Usage,
        text,
    })
}

// Reads the scenario to its end, and answers it.
#[tactic(auto, using(crate::proofs::Saying::saying))]
fn say_input<S: Source, D: Disk>(
    alloc: Global,
    command: Command,
    input: &mut S,
    journal: &mut D,
) -> Result<Said, Stop>
    requires reads { reads_input (Some command) ≡ true }
    ensures says { IfOk result (λ said. Says (record {
      left = S.left input.old;
      stored = (D.state journal.old).contents;
      after = (D.state journal.new).contents;
    }) (Some command) said.status said.text.items) }
    ensures whole { IfOk result (λ said. IsTrue (is_whole said.status)) }
    ensures read_out { IsOk result → ReadsUpTo byte_limit (S.left input.old) (S.left input.new) }
    ensures read_fault { IsErrOf result Stop.ReadFault → Rose (S.faults input.old) (S.faults input.new) }
    ensures disk_fault { IsErrOf result Stop.DiskFault → IsTrue (uses_journal (Some command)) × Rose (D.state journal.old).faults (D.state journal.new).faults }
    ensures journal_stays { is_replay (Some command) ≡ false → (D.state journal.new).contents ≡ (D.state journal.old).contents }
    ensures journal_kept { KeepsDisk (D.state journal.old) (D.state journal.new) }
    ensures any_moment { is_replay (Some command) ≡ true → IsSome (D.state journal.old).contents → LeavesOnly [] (D.state journal.old)
        → AnyMoment (D.state journal.old) (D.state journal.new) (LeavesSoFarOf (S.left input.old)) }
{
    match read_all(alloc, input, BYTE_LIMIT) {
        Ok(bytes) => match say_bytes(alloc, command, bytes.as_slice(), journal) {
            Ok(said) => Ok(said),
            Err(JournalStop::DiskFault) => Err(Stop::DiskFault),
            Err(JournalStop::NoMemory) => Err(Stop::NoMemory),
        },
        Err(ReadAllFault::TooLong) => match say_whole_fault(alloc, ScenarioKind::TooLong) {
            Ok(said) => Ok(said),
            Err(_) => Err(Stop::NoMemory),
        },
        Err(ReadAllFault::ReadFault) => Err(Stop::ReadFault),
        Err(ReadAllFault::NoMemory) => Err(Stop::NoMemory),
    }
}

// The answer of a command to the bytes of a scenario.
fn say_bytes<D: Disk>(
    alloc: Global,
    command: Command,
    bytes: &[u8],
    journal: &mut D,
) -> Result<Said, JournalStop>
    requires reads { reads_input (Some command) ≡ true }
    ensures told { IfOk result (λ said. TellsOver (Some command) bytes.now (D.state journal.old).contents
        (D.state journal.new).contents said.status said.text.items) }
    ensures whole { IfOk result (λ said. IsTrue (is_whole said.status)) }
    ensures disk_fault { IsErrOf result JournalStop.DiskFault → IsTrue (uses_journal (Some command))
        × Rose (D.state journal.old).faults (D.state journal.new).faults }
    ensures journal_stays { is_replay (Some command) ≡ false → (D.state journal.new).contents ≡ (D.state journal.old).contents }
    ensures journal_kept { KeepsDisk (D.state journal.old) (D.state journal.new) }
    ensures any_moment { is_replay (Some command) ≡ true → IsSome (D.state journal.old).contents → LeavesOnly [] (D.state journal.old)
        → AnyMoment (D.state journal.old) (D.state journal.new) (LeavesSoFarBy bytes.now) }
{
    match command {
        Command::Check => match check_bytes(alloc, bytes) {
            Ok(said) => Ok(said),
            Err(_) => Err(JournalStop::NoMemory),
        },
        Command::Replay => replay_bytes(alloc, bytes, journal),
        Command::Journal => unreachable!(),
    }
}
