//! An answer before it is written, and the answers to scenarios with a fault.

ghost use Rattle.std.specs.Prelude.{◌≡◌, [], IfOk};
ghost use Rattle.nm_console.specs.Console.{Tells, faulted};
ghost use Rattle.nm_console.specs.Refusal.{of_whole};

use crate::status::Status;
use nm_base::NoMemory;
use nm_proto::Listed;
use nm_scenario_form::{Cause, Fault, ScenarioKind, write_line};
use std::alloc::Global;

/// A status and a text.
#[derive(Drop)]
pub struct Said {
    pub status: Status,
    pub text: Vec<u8>,
}

/// The answer to a scenario with this fault.
pub fn say_fault(alloc: Global, fault: &Fault) -> Result<Said, NoMemory>
    ensures { IfOk result (λ said. Tells (faulted fault.now) said.status said.text.items) }
{
    let mut text = Vec::new(alloc);
    write_line(alloc, &mut text, fault)?;
    Ok(Said {
        status: Status::Scenario,
        text,
    })
}

/// The answer to a scenario that has a fault as a whole.
pub fn say_whole_fault(alloc: Global, kind: ScenarioKind) -> Result<Said, NoMemory>
    ensures { IfOk result (λ said. Tells (faulted (of_whole kind)) said.status said.text.items) }
{
    let fault = Fault {
        cause: Cause { kind, inner: None },
        place: Listed::new(alloc),
    };
    say_fault(alloc, &fault)
}
