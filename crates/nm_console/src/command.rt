//! The words that the program is called with, and the file that they name.

ghost use Rattle.std.specs.Prelude.{◌≡◌, map, string_bytes, option_copied, IfOk};
ghost use Rattle.nm_console.specs.Words.{alone, begins_with_dash, command_of, ends_with_equals, file_in, file_of, if_file, is_byte, is_file, joined_file, named_file, texts_of, with_file};

use nm_base::{Label, NoMemory};
use std::alloc::Global;

/// What the program is asked to do.
#[derive(Clone, Copy, PartialEq, Eq)]
pub enum Command {
    /// Check what a scenario holds, and count it.
    Check,
    /// Run a scenario's events and print the text.
    Replay,
    /// Print what a journal holds.
    Journal,
}

/// The command of the words after the program's name, and None where they aren't words of the program.
pub fn command_of(words: &[String]) -> Option<Command>
    ensures { result ≡ command_of (texts_of words.now) }
{
    match words {
        [] => None,
        [word] => alone(word.as_str()),
        [word, options @ ..] => with_file(word.as_str(), file_in(options).is_some()),
    }
}

/// The path of the journal's file, and None exactly where the words name none or aren't words of the program.
pub fn journal_path(alloc: Global, words: &[String]) -> Result<Option<Label>, NoMemory>
    ensures { IfOk result (λ path. path ≡ file_of (texts_of words.now)) }
{
    match file_of(words) {
        Some(file) => Ok(Some(Label::new(alloc, file)?)),
        None => Ok(None),
    }
}

fn file_of(words: &[String]) -> Option<&str>
    ensures { option_copied result ≡ file_of (texts_of words.now) }
{
    if command_of(words).is_none() {
        return None;
    }
    match words {
        [] => None,
        [_, options @ ..] => file_in(options),
    }
}

// A command without a file.
fn alone(word: &str) -> Option<Command>
    ensures { result ≡ alone word.now }
{
    if word == "check" {
        Some(Command::Check)
    } else if word == "replay" {
        Some(Command::Replay)
    } else {
        None
    }
}

// A command whose options name a file of a journal.
fn with_file(word: &str, named: bool) -> Option<Command>
    ensures { result ≡ with_file word.now named }
{
    if named && word == "journal" {
        Some(Command::Journal)
    } else if named && word == "replay" {
        Some(Command::Replay)
    } else {
        None
    }
}

// The file that the words after a command name.
fn file_in(options: &[String]) -> Option<&str>
    ensures { option_copied result ≡ file_in (texts_of options.now) }
{
    match options {
        [word] => joined_file(word.as_str()),
        [option, name] => named_file(option.as_str(), name.as_str()),
        _ => None,
    }
}

fn joined_file(word: &str) -> Option<&str>
    ensures { option_copied result ≡ joined_file word.now }
{
    match word.strip_prefix("--journal=") {
        Some(name) => if_file(name),
        None => None,
    }
}

fn named_file<'a>(option: &str, name: &'a str) -> Option<&'a str>
    ensures { option_copied result ≡ named_file option.now name.now }
{
    if option == "--journal" && !begins_with_dash(name) {
        if_file(name)
    } else {
        None
    }
}

fn if_file(name: &str) -> Option<&str>
    ensures { option_copied result ≡ if_file name.now }
{
    if is_file(name) { Some(name) } else { None }
}

fn is_file(name: &str) -> bool
    ensures { result ≡ is_file name.now }
{
    1 <= name.len() && name.len() <= LONGEST_FILE && !ends_with_equals(name)
}

/// How many bytes the name of a file may have, as the system's own limit on paths.
pub const LONGEST_FILE: usize = 4096;

fn begins_with_dash(word: &str) -> bool
    ensures { result ≡ begins_with_dash word.now }
{
    is_byte(word.as_bytes().first(), b'-')
}

fn ends_with_equals(word: &str) -> bool
    ensures { result ≡ ends_with_equals word.now }
{
    is_byte(word.as_bytes().last(), b'=')
}

fn is_byte(byte: Option<&u8>, wanted: u8) -> bool
    ensures { result ≡ is_byte (option_copied byte.entry) wanted }
{
    match byte {
        Some(byte) => *byte == wanted,
        None => false,
    }
}
