//! Laws of what is said. The functions do nothing: their contracts are the laws.

ghost use Rattle.std.specs.Prelude.{ℕ, List, Option};
ghost use Rattle.nm_console.specs.declared.command.Command.{Command};
ghost use Rattle.nm_world.specs.declared.report.Report.{Report as AReport};
ghost use Rattle.nm_console.specs.Status.{StatusTells};
ghost use Rattle.nm_console.specs.Console.{EachRunIsSafe, HasOneAnswer};

/// No other answer is said to the same words, input and journal.
#[tactic(auto, using(crate::proofs::Saying::one_answer))]
pub fn answers_are_one()
    ensures { (command : Option Command) (bytes image : List ℕ) → HasOneAnswer command bytes image }
{}

/// The run of each scenario is safe, and what is reported of it is so.
///
/// Each running configuration is valid and changes only by one commit whole or its exact undoing, never under another
/// session's lock. Once settled, all devices of a change set have it if its commit was journalled, and else none, except those
/// that are told to differ, where a timer or a restart undid it.
#[tactic(auto, using(crate::proofs::Given::each_safe))]
pub fn runs_are_safe()
    ensures { EachRunIsSafe }
{}

/// The status of a text tells what the text reports: 10 exactly where a device of a change set isn't settled, 1 exactly where each is and
/// one differs, and 0 exactly where each is settled and none differs.
#[tactic(auto, using(crate::proofs::Statuses::statuses_tell))]
pub fn statuses_tell_reports()
    ensures { (report : AReport) → StatusTells report }
{}
