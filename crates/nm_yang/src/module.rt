//! Statements within statements, and a whole module.

ghost use Rattle.std.specs.Prelude.{◌≡◌, ◌≤◌, ◌<◌, ◌++◌, [], length, IfOk, Ok, drop, true};
ghost use Rattle.std.specs.Str.{bytes_eq};
ghost use Rattle.nm_yang.specs.Tree.{trees_of};
ghost use Rattle.nm_yang.specs.Page.{Gives};
ghost use Rattle.nm_yang.specs.Byte.{begins as begins_with};
ghost use Rattle.nm_yang.specs.Module.{Runs, heading as heading_seen};
ghost use Rattle.nm_yang.specs.Module as spec;

use crate::argument::argument_at;
use crate::blank::skip;
use crate::byte::begins;
use crate::fault::{Fault, YangFault, YangKind};
use crate::labels::Labels;
use crate::reader::{Reader, refused, tail};
use crate::statement::Statement;
use crate::word::{keyword_at, label_of};
use nm_base::Label;
use std::alloc::{AllocError, Global};

/// The most braces that may be open at once: a limit of this project, so that nesting can't exhaust the stack.
pub const DEPTH: u32 = 64;

#[tactic(auto, unfolding(crate::specs::Module::label_at))]
fn label_at<'a>(
    labels: &mut Labels,
    reader: &Reader<'_>,
    ending: Fault,
    bytes: &'a [u8],
) -> Result<(Label, &'a [u8]), YangFault>
    ensures read { Gives (λ x. (x.0, x.1.now)) result (spec.label_at reader.now ending bytes.now) }
    ensures shorter { IfOk result (λ x. length x.1.now < length bytes.now) }
{
    let (word, rest) = keyword_at(reader, ending, bytes)?;
    let text = label_of(labels, reader.bad(bytes, YangKind::NotUtf8), word)?;
    Ok((text, rest))
}

#[tactic(auto, unfolding(crate::specs::Module::after_keyword))]
fn after_keyword<'a>(
    labels: &mut Labels,
    reader: &mut Reader<'_>,
    ending: Fault,
    bytes: &'a [u8],
) -> Result<(Option<Label>, &'a [u8]), YangFault>
    ensures read { Gives (λ x. (x.0, x.1.now)) result (spec.after_keyword reader.old ending bytes.now) }
    ensures shorter { IfOk result (λ x. length x.1.now ≤ length bytes.now) }
    ensures same { reader.new ≡ reader.old }
{
    let rest = skip(reader, bytes)?;
    argument_at(labels, reader, ending, rest)
}

/// An empty list, with room for one statement where a block opens (a first push would take room for four, and most blocks
/// of deep modules hold one).
fn list_at(alloc: Global, bytes: &[u8]) -> Result<Vec<Statement>, AllocError>
    ensures { IfOk result (λ list. list.items ≡ []) }
{
    if begins(bytes, b'{') {
        Vec::with_capacity(alloc, 1)
    } else {
        Ok(Vec::new(alloc))
    }
}

#[cycle(read)]
#[tactic(auto, unfolding(crate::specs::Module::statement_at))]
fn statement_at<'a>(
    labels: &mut Labels,
    reader: &mut Reader<'_>,
    depth: u32,
    ending: Fault,
    bytes: &'a [u8],
) -> Result<(Statement, &'a [u8]), YangFault>
    ensures read { Gives (λ x. (x.0, x.1.now)) result (spec.statement_at (spec.inside depth reader.old) reader.old ending bytes.now) }
    ensures shorter { IfOk result (λ x. length x.1.now < length bytes.now) }
    ensures same { reader.new ≡ reader.old }
{
    let place = reader.place(bytes);
    let (keyword, rest) = label_at(labels, reader, ending, bytes)?;
    let (argument, rest) = after_keyword(labels, reader, ending, rest)?;
    let mut below = list_at(labels.alloc, rest)?;
    let rest = end_at(labels, reader, depth, ending, &mut below, rest)?;
    let statement = Statement {
        keyword,
        argument,
        place,
        below,
    };
    Ok((statement, rest))
}

/// Reads a `;`, or appends the statements within braces.
#[cycle(read)]
#[tactic(auto, unfolding(crate::specs::Module::end_at))]
fn end_at<'a>(
    labels: &mut Labels,
    reader: &mut Reader<'_>,
    depth: u32,
    ending: Fault,
    below: &mut Vec<Statement>,
    bytes: &'a [u8],
) -> Result<&'a [u8], YangFault>
    ensures read { Runs (λ r. r.now) result below.old.items below.new.items (spec.end_at (spec.inside depth reader.old) reader.old ending bytes.now) }
    ensures shorter { IfOk result (λ r. length r.now ≤ length bytes.now) }
    ensures same { reader.new ≡ reader.old }
{
    match bytes {
        [] => Err(refused(ending)),
        [b';', rest @ ..] => Ok(rest),
        [b'{', ..] => inside(labels, reader, depth, below, bytes),
        _ => Err(refused(reader.bad(bytes, YangKind::BadToken))),
    }
}

/// Appends the statements within braces, which open here.
#[cycle(read)]
fn inside<'a>(
    labels: &mut Labels,
    reader: &mut Reader<'_>,
    depth: u32,
    below: &mut Vec<Statement>,
    bytes: &'a [u8],
) -> Result<&'a [u8], YangFault>
    ensures read { Runs (λ r. r.now) result below.old.items below.new.items (spec.inside depth reader.old bytes.now) }
    ensures shorter { IfOk result (λ r. length r.now ≤ length bytes.now) }
    ensures same { reader.new ≡ reader.old }
{
    if depth == 0 {
        return Err(refused(reader.bad(bytes, YangKind::TooDeep)));
    }
    let open = reader.bad(bytes, YangKind::UnclosedBrace);
    let ending = reader.at_end(open);
    let mut rest = skip(reader, tail(bytes))?;
    'each: while !begins(rest, b'}') {
        let (statement, after) = match statement_at(labels, reader, depth - 1, ending, rest) {
            Ok(read) => read,
            Err(fault) => return Err(fault),
        };
        below.push(statement)?;
        rest = match skip(reader, after) {
            Ok(rest) => rest,
            Err(fault) => return Err(fault),
        };
    }
    Ok(tail(rest))
}

/// A statement without what is within it.
#[derive(Drop)]
pub struct Heading {
    pub keyword: Label,
    pub argument: Option<Label>,
    pub place: u32,
}

/// The keyword, the argument and the place of the module, and what is left after them.
#[tactic(auto, unfolding(crate::specs::Module::heading_at))]
fn heading_at<'a>(
    labels: &mut Labels,
    reader: &mut Reader<'_>,
    start: &'a [u8],
) -> Result<(Heading, &'a [u8]), YangFault>
    ensures read { Gives (λ x. heading_seen x.0 x.1.now) result (spec.heading_at reader.old start.now) }
    ensures same { reader.new ≡ reader.old }
{
    let none = Fault {
        place: 0,
        kind: YangKind::NotModule,
    };
    let ending = reader.at_end(none);
    let place = reader.place(start);
    let (keyword, rest) = label_at(labels, reader, ending, start)?;
    if keyword.as_str() != "module" {
        return Err(refused(none));
    }
    let (argument, rest) = after_keyword(labels, reader, ending, rest)?;
    let heading = Heading {
        keyword,
        argument,
        place,
    };
    Ok((heading, rest))
}

/// Refuses what stands after the module, and what cuts the text off.
#[tactic(auto, unfolding(crate::specs::Module::done_at))]
fn done_at<'a>(reader: &Reader<'_>, bytes: &'a [u8]) -> Result<&'a [u8], YangFault>
    ensures { Gives (λ r. r.now) result (spec.done_at reader.now reader.now.stop bytes.now) }
{
    if !bytes.is_empty() {
        return Err(refused(reader.bad(bytes, YangKind::Trailing)));
    }
    match reader.stop() {
        None => Ok(bytes),
        Some(stop) => Err(refused(stop)),
    }
}

#[tactic(auto, unfolding(crate::specs::Module::finish_at))]
pub fn finish_at<'a>(reader: &Reader<'_>, rest: &'a [u8]) -> Result<&'a [u8], YangFault>
    ensures { Gives (λ r. r.now) result (spec.finish_at reader.now rest.now) }
{
    let after = skip(reader, rest)?;
    done_at(reader, after)
}

#[tactic(auto, unfolding(crate::specs::Module::begin_at))]
pub fn begin_at<'a>(
    labels: &mut Labels,
    reader: &mut Reader<'a>,
) -> Result<(Heading, &'a [u8]), YangFault>
    ensures read { Gives (λ x. heading_seen x.0 x.1.now) result (spec.begin_at reader.old) }
    ensures same { reader.new ≡ reader.old }
{
    let start = skip(reader, reader.text())?;
    heading_at(labels, reader, start)
}

/// The statements of the module that were appended, and how reading ended after the heading.
#[tactic(auto, unfolding(crate::specs::Module::body_at))]
pub fn body_at<'a>(
    labels: &mut Labels,
    reader: &mut Reader<'_>,
    below: &mut Vec<Statement>,
    heading: &Heading,
    rest: &'a [u8],
) -> Result<&'a [u8], YangFault>
    ensures read { Runs (λ r. r.now) result below.old.items below.new.items (spec.body_at reader.old (heading_seen heading.now rest.now)) }
    ensures same { reader.new ≡ reader.old }
{
    let none = Fault {
        place: 0,
        kind: YangKind::NotModule,
    };
    let ending = reader.at_end(none);
    end_at(labels, reader, DEPTH, ending, below, rest)
}
