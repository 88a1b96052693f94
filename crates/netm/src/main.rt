//! The program `netm`: `console` over the process's own words, standard input, standard output and journal.
#![tactic(auto)]

use nm_base::{Label, NoMemory};
use nm_console::command::{Command, command_of, journal_path};
use nm_console::console::console;
use nm_console::status::Status;
use nm_disk::{AnyDisk, FileDisk, MemoryDisk};
use nm_io::{StdSink, StdSource};
use std::alloc::Global;
use std::process::ExitCode;
use std::{env, io};

fn main(rt: HostRuntime) -> ExitCode {
    let status = match run(rt, rt.alloc()) {
        Ok(status) => status,
        Err(NoMemory) => Status::NoMemory,
    };
    ExitCode::from(status.code())
}

fn run(rt: HostRuntime, alloc: Global) -> Result<Status, NoMemory> {
    let words = words(&rt, alloc)?;
    let mut journal = disk(rt, alloc, words.as_slice())?;
    let mut input = StdSource::new(rt.stdin());
    let mut output = StdSink::new(rt.stdout());
    Ok(console(
        alloc,
        words.as_slice(),
        &mut input,
        &mut output,
        &mut journal,
    ))
}

// How large the disk of a journal without a file is, in bytes and in calls: a journal has at most 192 records of 16 bytes,
// and each is appended by four calls.
const DISK_BYTES: u64 = 8192;

const DISK_CALLS: u32 = 1_000_000;

// The file that the words name, and else an empty disk in memory. To list a journal its file is read as it is.
fn disk(
    rt: HostRuntime,
    alloc: Global,
    words: &[String],
) -> Result<AnyDisk<HostRuntime>, NoMemory> {
    match journal_path(alloc, words)? {
        Some(path) => Ok(AnyDisk::File(file(rt, path, words))),
        None => Ok(AnyDisk::Memory(MemoryDisk::with_limit(alloc, DISK_BYTES, DISK_CALLS)?)),
    }
}

fn file(rt: HostRuntime, path: Label, words: &[String]) -> FileDisk<HostRuntime> {
    match command_of(words) {
        Some(Command::Journal) => FileDisk::read_only(rt, path),
        _ => FileDisk::at(rt, path),
    }
}

// The words after the program's name. Words that aren't UTF-8 are no words of the program, and so are none at all.
fn words(rt: &HostRuntime, alloc: Global) -> Result<Vec<String>, NoMemory> {
    let mut words = Vec::new(alloc);
    let arguments = match env::args(rt) {
        Ok(arguments) => arguments,
        Err(error) if error.kind() == io::ErrorKind::OutOfMemory => return Err(NoMemory),
        Err(_) => return Ok(words),
    };
    for word in arguments.skip(1) {
        words.push(word)?;
    }
    Ok(words)
}
