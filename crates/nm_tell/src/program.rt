//! The program: its words, its input and its output.

ghost use Rattle.std.specs.Prelude.{◌≡◌, None, Some, IfOk, IsErrOf, IsOk, IsSome, IsTrue};
ghost use Rattle.nm_base.specs.Count.{Rose};
ghost use Rattle.nm_io.specs.Bytes.{ReadsUpTo};
ghost use Rattle.nm_scenario.specs.Scenario.{byte_limit};
ghost use Rattle.nm_explain.specs.Explained.{Tells};
ghost use Rattle.nm_explain.specs.Status.{is_whole};
ghost use Rattle.nm_tell.specs.declared.command.Command.TheVariants.{Explain};
ghost use Rattle.nm_tell.specs.Words.{command_of, texts_of};
ghost use Rattle.nm_tell.specs.Told as spec;

use crate::command::{Command, command_of};
use nm_base::NoMemory;
use nm_explain::{Explained, Status, explain_bytes, explain_long_input};
use nm_io::{ReadAllFault, Sink, Source, read_all, write_all};
use nm_scenario::BYTE_LIMIT;
use std::alloc::Global;

/// The usage line.
const USAGE: &str = "usage: netm_tell explain\n";

/// Why there is nothing to say.
#[derive(Clone, Copy, PartialEq, Eq)]
enum Stop {
    ReadFault,
    NoMemory,
}

/// The program: reads a scenario to its end, and writes what its words ask for at once.
///
/// `words` are those after the program's name. Nothing is written to the output before the text is whole in
/// memory, so that only a failed write leaves a part of it.
pub fn tell<S: Source, K: Sink>(
    alloc: Global,
    words: &[String],
    input: &mut S,
    output: &mut K,
) -> Status
    // The text for the words and the input was written, and nothing else.
    ensures answered { IsTrue (is_whole result)
        → spec.Answers (command_of (texts_of words.now)) (S.left input.old) (K.taken output.old) (K.taken output.new) result }

    // The input was read to its end, or past the greatest length of a scenario.
    ensures read_out { IsTrue (is_whole result) → IsSome (command_of (texts_of words.now))
        → ReadsUpTo byte_limit (S.left input.old) (S.left input.new) }

    // The input failed: nothing was written.
    ensures read_fault { result ≡ Status.ReadFault → Rose (S.faults input.old) (S.faults input.new) × (K.taken output.new ≡ K.taken output.old) }

    // The output failed: a front of the text was written.
    ensures write_fault { result ≡ Status.WriteFault
        → Rose (K.faults output.old) (K.faults output.new)
        × spec.CutOff (command_of (texts_of words.now)) (S.left input.old) (K.taken output.old) (K.taken output.new) }

    // Memory ran out: nothing was written.
    ensures no_memory { result ≡ Status.NoMemory → K.taken output.new ≡ K.taken output.old }

    // The input stays where the words are none of the program's.
    ensures unread { command_of (texts_of words.now) ≡ None → input.new ≡ input.old }
{
    let said = match say(alloc, words, input) {
        Ok(said) => said,
        Err(Stop::ReadFault) => return Status::ReadFault,
        Err(Stop::NoMemory) => return Status::NoMemory,
    };
    match write_all(output, said.text.as_slice()) {
        Ok(()) => said.status,
        Err(_) => Status::WriteFault,
    }
}

impl From<NoMemory> for Stop {
    ghost use Rattle.nm_tell.specs.declared.program.Stop.TheVariants.{NoMemory as no_memory};

    ghost from_gives = { λ _ stop. stop ≡ no_memory };

    fn from(_error: NoMemory) -> Stop {
        Stop::NoMemory
    }
}

// What is to be said.
fn say<S: Source>(alloc: Global, words: &[String], input: &mut S) -> Result<Explained, Stop>
    ensures says { IfOk result (λ said. spec.Says (command_of (texts_of words.now)) (S.left input.old) said.status said.text.items) }
    ensures whole { IfOk result (λ said. IsTrue (is_whole said.status)) }
    ensures read_out { IsOk result → IsSome (command_of (texts_of words.now)) → ReadsUpTo byte_limit (S.left input.old) (S.left input.new) }
    ensures read_fault { IsErrOf result Stop.ReadFault → Rose (S.faults input.old) (S.faults input.new) }
    ensures unread { command_of (texts_of words.now) ≡ None → input.new ≡ input.old }
{
    match command_of(words) {
        Some(Command::Explain) => say_input(alloc, input),
        None => Ok(say_usage(alloc)?),
    }
}

fn say_usage(alloc: Global) -> Result<Explained, NoMemory>
    ensures { IfOk result (λ said. Tells spec.usage_told said.status said.text.items) }
{
    let mut text = Vec::new(alloc);
    text.extend_from_slice(USAGE.as_bytes())?;
    Ok(Explained {
        status: Status::Usage,
        text,
    })
}

// Reads the scenario to its end, and explains it.
#[tactic(auto, using(crate::proofs::Saying::bytes_say, crate::proofs::Saying::too_long_says, crate::proofs::Saying::at_end, crate::proofs::Saying::past_limit))]
fn say_input<S: Source>(alloc: Global, input: &mut S) -> Result<Explained, Stop>
    ensures says { IfOk result (λ said. spec.Says (Some Explain) (S.left input.old) said.status said.text.items) }
    ensures whole { IfOk result (λ said. IsTrue (is_whole said.status)) }
    ensures read_out { IsOk result → ReadsUpTo byte_limit (S.left input.old) (S.left input.new) }
    ensures read_fault { IsErrOf result Stop.ReadFault → Rose (S.faults input.old) (S.faults input.new) }
{
    match read_all(alloc, input, BYTE_LIMIT) {
        Ok(bytes) => Ok(explain_bytes(alloc, bytes.as_slice())?),
        Err(ReadAllFault::TooLong) => Ok(explain_long_input(alloc)?),
        Err(ReadAllFault::ReadFault) => Err(Stop::ReadFault),
        Err(ReadAllFault::NoMemory) => Err(Stop::NoMemory),
    }
}
