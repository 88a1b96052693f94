//! The argument of a statement.

ghost use Rattle.std.specs.Prelude.{◌≡◌, ◌≤◌, ◌<◌, true, length, IfOk};
ghost use Rattle.nm_yang.specs.Page.{Gives, with_front};
ghost use Rattle.nm_yang.specs.Byte.{begins as begins_with};
ghost use Rattle.nm_yang.specs.Argument as spec;

use crate::blank::skip;
use crate::byte::{begins, is_quote};
use crate::fault::{Fault, YangFault, YangKind};
use crate::labels::Labels;
use crate::quote::string_at;
use crate::reader::{Reader, refused, tail};
use crate::word::{bare_at, label_of};
use nm_base::Label;

#[tactic(auto, unfolding(crate::specs::Argument::quote_at))]
fn quote_at<'a>(reader: &Reader<'_>, ending: Fault, bytes: &'a [u8]) -> Result<&'a [u8], YangFault>
    ensures rest { Gives (λ r. r.now) result (spec.quote_at reader.now ending bytes.now) }
    ensures shorter { IfOk result (λ r. length r.now ≤ length bytes.now) }
{
    match bytes {
        [] => Err(refused(ending)),
        [byte, ..] => {
            if is_quote(*byte) {
                return Ok(bytes);
            }
            Err(refused(reader.bad(bytes, YangKind::BadToken)))
        }
    }
}

#[tactic(auto, unfolding(crate::specs::Argument::piece_at))]
fn piece_at<'a>(
    reader: &mut Reader<'_>,
    out: &mut Vec<u8>,
    bytes: &'a [u8],
) -> Result<&'a [u8], YangFault>
    ensures read { Gives (λ r. (out.new.items, r.now)) result (with_front out.old.items (spec.piece_at reader.old bytes.now)) }
    ensures shorter { IfOk result (λ r. length r.now ≤ length bytes.now) }
    ensures same { reader.new ≡ reader.old }
{
    let rest = string_at(reader, out, bytes)?;
    skip(reader, rest)
}

#[tactic(auto, unfolding(crate::specs::Argument::added_at))]
fn added_at<'a>(
    reader: &mut Reader<'_>,
    ending: Fault,
    out: &mut Vec<u8>,
    bytes: &'a [u8],
) -> Result<&'a [u8], YangFault>
    requires { begins_with bytes.now 43 ≡ true }
    ensures read { Gives (λ r. (out.new.items, r.now)) result (with_front out.old.items (spec.added_at reader.old ending bytes.now)) }
    ensures shorter { IfOk result (λ r. length r.now < length bytes.now) }
    ensures same { reader.new ≡ reader.old }
{
    let next = skip(reader, tail(bytes))?;
    let quote = quote_at(reader, ending, next)?;
    piece_at(reader, out, quote)
}

/// Appends what quoted strings hold, which `+` joins, and answers what is left after them.
#[tactic(auto, unfolding(crate::specs::Argument::quoted_at))]
fn quoted_at<'a>(
    reader: &mut Reader<'_>,
    ending: Fault,
    out: &mut Vec<u8>,
    bytes: &'a [u8],
) -> Result<&'a [u8], YangFault>
    ensures read { Gives (λ r. (out.new.items, r.now)) result (with_front out.old.items (spec.quoted_at reader.old ending bytes.now)) }
    ensures shorter { IfOk result (λ r. length r.now ≤ length bytes.now) }
    ensures same { reader.new ≡ reader.old }
{
    let mut rest = piece_at(reader, out, bytes)?;
    'joined: while begins(rest, b'+') {
        rest = match added_at(reader, ending, out, rest) {
            Ok(rest) => rest,
            Err(fault) => return Err(fault),
        };
    }
    Ok(rest)
}

#[tactic(auto, unfolding(crate::specs::Argument::quoted_label))]
fn quoted_label<'a>(
    labels: &mut Labels,
    reader: &mut Reader<'_>,
    ending: Fault,
    bytes: &'a [u8],
) -> Result<(Label, &'a [u8]), YangFault>
    ensures read { Gives (λ x. (x.0, x.1.now)) result (spec.quoted_label reader.old ending bytes.now) }
    ensures shorter { IfOk result (λ x. length x.1.now ≤ length bytes.now) }
    ensures same { reader.new ≡ reader.old }
{
    let fault = reader.bad(bytes, YangKind::NotUtf8);
    let mut out = Vec::new(labels.alloc);
    let rest = quoted_at(reader, ending, &mut out, bytes)?;
    let text = label_of(labels, fault, &out)?;
    Ok((text, rest))
}

#[tactic(auto, unfolding(crate::specs::Argument::bare_label))]
fn bare_label<'a>(
    labels: &mut Labels,
    reader: &Reader<'_>,
    bytes: &'a [u8],
) -> Result<(Label, &'a [u8]), YangFault>
    ensures read { Gives (λ x. (x.0, x.1.now)) result (spec.bare_label reader.now bytes.now) }
    ensures shorter { IfOk result (λ x. length x.1.now ≤ length bytes.now) }
{
    let (word, rest) = bare_at(reader, bytes)?;
    let text = label_of(labels, reader.bad(bytes, YangKind::NotUtf8), word)?;
    let rest = skip(reader, rest)?;
    Ok((text, rest))
}

/// An argument or none, and what is left after it and the blanks that follow; `ending` is what is wrong where
/// the text ends before that.
#[tactic(auto, unfolding(crate::specs::Argument::argument_at))]
pub fn argument_at<'a>(
    labels: &mut Labels,
    reader: &mut Reader<'_>,
    ending: Fault,
    bytes: &'a [u8],
) -> Result<(Option<Label>, &'a [u8]), YangFault>
    ensures read { Gives (λ x. (x.0, x.1.now)) result (spec.argument_at reader.old ending bytes.now) }
    ensures shorter { IfOk result (λ x. length x.1.now ≤ length bytes.now) }
    ensures same { reader.new ≡ reader.old }
{
    match bytes {
        [] => Err(refused(ending)),
        [b';' | b'{', ..] => Ok((None, bytes)),
        [b'}', ..] => Err(refused(reader.bad(bytes, YangKind::BadToken))),
        [byte, ..] => {
            let (text, rest) = if is_quote(*byte) {
                quoted_label(labels, reader, ending, bytes)?
            } else {
                bare_label(labels, reader, bytes)?
            };
            Ok((Some(text), rest))
        }
    }
}
