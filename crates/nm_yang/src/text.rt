//! A whole text: where it is cut off, and which backslashes are faults.

ghost use Rattle.std.specs.Prelude.{◌≡◌, ◌≤◌, ◌<◌, length, [], IfOk, Ok, take};
ghost use Rattle.std.specs.Str.Lossy.{utf8_valid_len};
ghost use Rattle.nm_yang.specs.Page.{Page, Gives};
ghost use Rattle.nm_yang.specs.Tree.{Tree};
ghost use Rattle.nm_yang.specs.Grammar.{SpellsModule};
ghost use Rattle.nm_yang.specs.Module as spec;

use crate::fault::{Fault, YangFault, YangKind};
use crate::labels::Labels;
use crate::module::{Heading, begin_at, body_at, finish_at};
use crate::reader::{LIMIT, Reader, refused};
use crate::statement::Statement;
use nm_base::NoMemory;
use std::alloc::Global;

/// The statements of a module that were read, and its heading or the fault at which reading ended.
#[derive(Drop)]
struct Attempt {
    below: Vec<Statement>,
    end: Result<Heading, Fault>,
}

/// Reads the module, and its statements into `below`.
#[tactic(auto, unfolding(crate::specs::Module::module_at, crate::specs::Module::closed_at))]
fn module_at(
    labels: &mut Labels,
    reader: &mut Reader<'_>,
    below: &mut Vec<Statement>,
) -> Result<Result<Heading, Fault>, NoMemory>
    requires { below.old.items ≡ [] }
    ensures { IfOk result (λ end. spec.Ends end below.new.items (spec.module_at reader.old)) }
{
    let (heading, rest) = match begin_at(labels, reader) {
        Ok(read) => read,
        Err(YangFault::NoMemory) => return Err(NoMemory),
        Err(YangFault::Bad { place, kind }) => return Ok(Err(Fault { place, kind })),
    };
    let rest = match body_at(labels, reader, below, &heading, rest) {
        Ok(rest) => rest,
        Err(YangFault::NoMemory) => return Err(NoMemory),
        Err(YangFault::Bad { place, kind }) => return Ok(Err(Fault { place, kind })),
    };
    match finish_at(reader, rest) {
        Ok(_) => Ok(Ok(heading)),
        Err(YangFault::NoMemory) => Err(NoMemory),
        Err(YangFault::Bad { place, kind }) => Ok(Err(Fault { place, kind })),
    }
}

fn read_once(
    alloc: Global,
    front: &[u8],
    stop: Option<Fault>,
    strict: bool,
) -> Result<Attempt, NoMemory>
    requires { length front.now ≤ 262144 }
    ensures { IfOk result (λ a. spec.Ends a.end a.below.items (spec.module_at (record { text = front.now; stop = stop; strict = strict }))) }
{
    let mut reader = Reader::new(front, stop, strict);
    let mut below = Vec::new(alloc);
    let mut labels = Labels::new(alloc)?;
    let end = module_at(&mut labels, &mut reader, &mut below)?;
    Ok(Attempt { below, end })
}

fn says_1_1(statement: &Statement) -> bool
    ensures { result ≡ spec.says_1_1 statement.now }
{
    statement.keyword.as_str() == "yang-version"
        && match &statement.argument {
            None => false,
            Some(argument) => argument.as_str() == "1.1",
        }
}

fn any_says_1_1(statements: &[Statement]) -> bool
    ensures { result ≡ spec.any_says_1_1 statements.now }
{
    for statement in statements {
        if says_1_1(statement) {
            return true;
        }
    }
    false
}

fn valid_len(text: &[u8]) -> usize
    ensures value { result ≡ utf8_valid_len text.now }
    ensures within { result ≤ length text.now }
{
    match str::from_utf8(text) {
        Ok(_) => text.len(),
        Err(error) => error.valid_up_to(),
    }
}

/// The bytes that are read, and what is wrong where they are cut off.
fn cut(text: &[u8], limit: usize) -> (&[u8], Option<Fault>)
    requires low { 0 < limit }
    requires high { limit ≤ 262144 }
    ensures front { result.0.now ≡ take (spec.front_len limit text.now) text.now }
    ensures stop { result.1 ≡ spec.stop_of limit text.now }
    ensures short { length result.0.now ≤ limit }
{
    let valid = valid_len(text);
    if valid < limit {
        let stop = if valid == text.len() {
            None
        } else {
            Some(Fault {
                place: valid as u32,
                kind: YangKind::NotUtf8,
            })
        };
        return (&text[..valid], stop);
    }
    if limit == text.len() {
        return (text, None);
    }
    let stop = Fault {
        place: limit as u32,
        kind: YangKind::TooLong,
    };
    // A comment may open with the next byte, which is beyond the limit.
    if text[limit - 1] == b'/' {
        return (&text[..limit - 1], Some(stop));
    }
    // A character that the limit cuts isn't read.
    let valid = valid_len(&text[..limit]);
    (&text[..valid], Some(stop))
}

fn statement_of(attempt: Attempt) -> Result<Statement, YangFault>
    ensures { Gives (λ s. s) result (spec.outcome attempt.end attempt.below.items) }
{
    let Attempt { below, end } = attempt;
    match end {
        Ok(heading) => Ok(Statement {
            keyword: heading.keyword,
            argument: heading.argument,
            place: heading.place,
            below,
        }),
        Err(fault) => Err(refused(fault)),
    }
}

/// Reads a text of at most `limit` bytes.
fn read_within(alloc: Global, text: &[u8], limit: usize) -> Result<Statement, YangFault>
    requires low { 0 < limit }
    requires high { limit ≤ 262144 }
    ensures { Gives (λ s. s) result (spec.reading_within limit text.now) }
{
    let (front, stop) = cut(text, limit);
    // A text that is a module where each backslash must begin an escape is the same module elsewhere.
    let strict = read_once(alloc, front, stop, true)?;
    if strict.end.is_ok() {
        return statement_of(strict);
    }
    let lenient = read_once(alloc, front, stop, false)?;
    if any_says_1_1(&lenient.below) {
        return statement_of(strict);
    }
    statement_of(lenient)
}

/// Reads the text of a module (RFC 7950 section 6).
///
/// Places are bytes from 0. The text may have 262,144 bytes, and 64 braces may be open at once. The answer is the
/// statement that the text spells, or the first fault that is met reading forward.
#[tactic(auto, unfolding(crate::specs::Module::reading))]
pub fn read_module(alloc: Global, text: &[u8]) -> Result<Statement, YangFault>
    ensures spelt { IfOk result (λ statement. SpellsModule text.now statement) }

    // What is spelt is read, unless memory runs out, and no text spells two statements.
    ensures all { (statement : Tree) → SpellsModule text.now statement → Gives (λ s. s) result (Ok statement) }
    ensures one { (statement : Tree) (other : Tree) → SpellsModule text.now statement → SpellsModule text.now other
        → statement ≡ other }

    // Which fault it is.
    ensures exact { Gives (λ s. s) result (spec.reading text.now) }
{
    read_within(alloc, text, LIMIT)
}
