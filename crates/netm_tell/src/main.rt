//! The program `netm_tell`: `tell` over the process's own words, standard input and standard output.
#![tactic(auto)]

use nm_base::NoMemory;
use nm_explain::Status;
use nm_io::{StdSink, StdSource};
use nm_tell::tell;
use std::alloc::Global;
use std::process::ExitCode;
use std::{env, io};

fn main(rt: HostRuntime) -> ExitCode {
    let status = match run(rt, rt.alloc()) {
        Ok(status) => status,
        Err(NoMemory) => Status::NoMemory,
    };
    ExitCode::from(status.code())
}

fn run(rt: HostRuntime, alloc: Global) -> Result<Status, NoMemory> {
    let words = words(&rt, alloc)?;
    let mut input = StdSource::new(rt.stdin());
    let mut output = StdSink::new(rt.stdout());
    Ok(tell(alloc, words.as_slice(), &mut input, &mut output))
}

// The words after the program's name. Those that aren't UTF-8 count as one word that is none of the program's.
fn words(rt: &HostRuntime, alloc: Global) -> Result<Vec<String>, NoMemory> {
    let mut words = Vec::new(alloc);
    let arguments = match env::args(rt) {
        Ok(arguments) => arguments,
        Err(error) if error.kind() == io::ErrorKind::OutOfMemory => return Err(NoMemory),
        Err(_) => {
            words.push(String::new(alloc))?;
            return Ok(words);
        }
    };
    for word in arguments.skip(1) {
        words.push(word)?;
    }
    Ok(words)
}
