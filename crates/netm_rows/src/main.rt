//! The rows: tables of scenarios, modules and scripts in files, with what the commands tell of each. Each word names a table, or one row of it as
//! `TABLE: ROW`.
#![tactic(auto)]

mod frame;
mod table;
mod template;
mod written;

use crate::table::{Found, gone_through};
use std::process::ExitCode;
use std::{env, fs, io};

fn main(rt: HostRuntime) -> ExitCode {
    match all_pass(&rt) {
        Ok(true) => ExitCode::from(0),
        Ok(false) => ExitCode::from(1),
        Err(_) => ExitCode::from(2),
    }
}

// Whether each table passes.
fn all_pass(rt: &HostRuntime) -> io::Result<bool> {
    let mut well = true;
    for word in env::args(rt)?.skip(1) {
        if !passes(rt, word.as_str())? {
            well = false;
        }
    }
    Ok(well)
}

// Whether a table passes, or the one row of it that is named.
fn passes(rt: &HostRuntime, word: &str) -> io::Result<bool> {
    let (table, row) = word.split_once(": ").unwrap_or((word, ""));
    let text = fs::read_to_string(rt, table)?;
    match gone_through(rt.alloc(), table, row, text.as_str()) {
        Ok(found) => tell(rt, word, &found),
        Err(_) => Err(io::Error::from(io::ErrorKind::OutOfMemory)),
    }
}

// Tells how many rows there are, and each row that isn't so. A table without rows doesn't pass.
fn tell(rt: &HostRuntime, word: &str, found: &Found) -> io::Result<bool> {
    println!(rt; "{word}: {} rows", found.rows)?;
    let faults = found.faults.as_slice();
    eprint!(rt; "{}", String::from_utf8_lossy(rt.alloc(), faults)?)?;
    Ok(found.rows > 0 && faults.is_empty())
}
