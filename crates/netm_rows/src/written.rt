//! What the commands tell.

use crate::frame::Frame;
use nm_base::{NoMemory, write_decimal};
use nm_console::console::console;
use nm_disk::{Disk, MemoryDisk};
use nm_io::{MemorySink, MemorySource};
use nm_tell::tell;
use std::alloc::Global;

/// The status and the text of each command, one after another over one journal.
pub fn told_of(
    alloc: Global,
    frame: &Frame<'_>,
    commands: &str,
    input: &[u8],
    journal: &[u8],
) -> Result<Vec<u8>, NoMemory> {
    let mut told = Vec::new(alloc);
    let mut disk = disk_of(alloc, journal, frame.failing.journal)?;
    put_each(alloc, frame, commands, input, &mut disk, &mut told)?;
    Ok(told)
}

// A disk with these bytes. Of its calls from then on one fails.
fn disk_of(alloc: Global, bytes: &[u8], failing: u64) -> Result<MemoryDisk, NoMemory> {
    let mut disk = MemoryDisk::with_limit(alloc, 8192, 1024)?;
    let calls = fill(&mut disk, bytes);
    if failing > 0 {
        disk.plan(&[calls.saturating_add(failing)])?;
    }
    Ok(disk)
}

// How many calls it takes to write the bytes, record by record.
fn fill(disk: &mut MemoryDisk, bytes: &[u8]) -> u64 {
    let mut calls: u64 = 0;
    for piece in bytes.chunks(16) {
        let end = disk.bytes().len() as u64;
        // (a disk that has no room is told by the command that reads it)
        let _ = disk.write_at(end, piece);
        calls = calls.saturating_add(1);
    }
    calls
}

fn put_each(
    alloc: Global,
    frame: &Frame<'_>,
    commands: &str,
    input: &[u8],
    journal: &mut MemoryDisk,
    told: &mut Vec<u8>,
) -> Result<(), NoMemory> {
    for command in commands.split(" then ") {
        put_one(alloc, frame, command, input, journal, told)?;
    }
    Ok(())
}

fn put_one(
    alloc: Global,
    frame: &Frame<'_>,
    command: &str,
    input: &[u8],
    journal: &mut MemoryDisk,
    told: &mut Vec<u8>,
) -> Result<(), NoMemory> {
    let mut output = MemorySink::new(alloc, 65536, calls_of(alloc, frame.failing.write)?)?;
    let mut input = source_of(alloc, input, frame.failing.read)?;
    let status = status_of(alloc, command, &mut input, &mut output, journal)?;
    put_answer(status, frame.lines, output.taken(), told)
}

fn put_answer(status: u8, lines: usize, text: &[u8], told: &mut Vec<u8>) -> Result<(), NoMemory> {
    write_decimal(u64::from(status), told)?;
    told.push(b' ')?;
    if lines == 0 {
        told.extend_from_slice(text)?;
        return Ok(());
    }
    for line in text.split_inclusive(|byte| *byte == b'\n').take(lines) {
        told.extend_from_slice(line)?;
    }
    Ok(())
}

fn status_of(
    alloc: Global,
    command: &str,
    input: &mut MemorySource,
    output: &mut MemorySink,
    journal: &mut MemoryDisk,
) -> Result<u8, NoMemory> {
    let words = words_of(alloc, command)?;
    if command == "explain" {
        return Ok(tell(alloc, words.as_slice(), input, output).code());
    }
    Ok(console(alloc, words.as_slice(), input, output, journal).code())
}

fn source_of(alloc: Global, input: &[u8], failing: u64) -> Result<MemorySource, NoMemory> {
    let bytes = Vec::from_slice(alloc, input)?;
    Ok(MemorySource::new(bytes, calls_of(alloc, failing)?))
}

// The calls that fail: this one, unless it is 0.
fn calls_of(alloc: Global, failing: u64) -> Result<Vec<u64>, NoMemory> {
    let mut calls = Vec::new(alloc);
    if failing > 0 {
        calls.push(failing)?;
    }
    Ok(calls)
}

fn words_of(alloc: Global, command: &str) -> Result<Vec<String>, NoMemory> {
    let mut words = Vec::new(alloc);
    for word in command.split(' ') {
        words.push(String::from_str(alloc, word)?)?;
    }
    Ok(words)
}
