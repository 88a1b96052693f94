//! Keywords, and arguments without quotes.

ghost use Rattle.std.specs.Prelude.{◌≡◌, ◌≤◌, ◌<◌, length, IfOk};
ghost use Rattle.nm_yang.specs.Page.{Gives};
ghost use Rattle.nm_yang.specs.Word as spec;

use crate::byte::{begins_mark, closes_comment, is_ending, is_name, is_start, opens_comment};
use crate::fault::{Fault, YangFault, YangKind};
use crate::labels::Labels;
use crate::reader::{Reader, front, refused};
use nm_base::Label;

fn name_end(bytes: &[u8]) -> &[u8]
    ensures rest { result.now ≡ spec.name_end bytes.now }
    ensures shorter { length result.now ≤ length bytes.now }
{
    let mut rest = bytes;
    while let [byte, after @ ..] = rest {
        if !is_name(*byte) {
            return rest;
        }
        rest = after;
    }
    rest
}

#[tactic(auto, unfolding(crate::specs::Word::name_at))]
fn name_at<'a>(reader: &Reader<'_>, ending: Fault, bytes: &'a [u8]) -> Result<&'a [u8], YangFault>
    ensures rest { Gives (λ r. r.now) result (spec.name_at reader.now ending bytes.now) }
    ensures shorter { IfOk result (λ r. length r.now < length bytes.now) }
{
    match bytes {
        [] => Err(refused(ending)),
        [byte, after @ ..] => {
            if !is_start(*byte) {
                return Err(refused(reader.bad(bytes, YangKind::BadKeyword)));
            }
            Ok(name_end(after))
        }
    }
}

#[tactic(auto, unfolding(crate::specs::Word::colon_at))]
fn colon_at<'a>(reader: &Reader<'_>, ending: Fault, bytes: &'a [u8]) -> Result<&'a [u8], YangFault>
    ensures rest { Gives (λ r. r.now) result (spec.colon_at reader.now ending bytes.now) }
    ensures shorter { IfOk result (λ r. length r.now ≤ length bytes.now) }
{
    match bytes {
        [b':', after @ ..] => name_at(reader, ending, after),
        _ => Ok(bytes),
    }
}

#[tactic(auto, unfolding(crate::specs::Word::parted))]
fn parted<'a>(reader: &Reader<'_>, ending: Fault, bytes: &'a [u8]) -> Result<&'a [u8], YangFault>
    ensures rest { Gives (λ r. r.now) result (spec.parted reader.now ending bytes.now) }
    ensures shorter { IfOk result (λ r. length r.now ≤ length bytes.now) }
{
    match bytes {
        [] => Err(refused(ending)),
        [byte, after @ ..] => {
            if is_ending(*byte) || opens_comment(*byte, after) {
                return Ok(bytes);
            }
            Err(refused(reader.bad(bytes, YangKind::BadKeyword)))
        }
    }
}

/// A keyword, and what is left after it; `ending` is what is wrong where the text ends before that.
#[tactic(auto, unfolding(crate::specs::Word::keyword_at))]
pub fn keyword_at<'a>(
    reader: &Reader<'_>,
    ending: Fault,
    bytes: &'a [u8],
) -> Result<(&'a [u8], &'a [u8]), YangFault>
    ensures read { Gives (λ x. (x.0.now, x.1.now)) result (spec.keyword_at reader.now ending bytes.now) }
    ensures shorter { IfOk result (λ x. length x.1.now < length bytes.now) }
{
    if begins_mark(bytes) {
        return Err(refused(reader.bad(bytes, YangKind::BadToken)));
    }
    let name = name_at(reader, ending, bytes)?;
    let whole = colon_at(reader, ending, name)?;
    let rest = parted(reader, ending, whole)?;
    Ok((front(bytes, rest), rest))
}

fn bare_end(bytes: &[u8]) -> &[u8]
    ensures rest { result.now ≡ spec.bare_end bytes.now }
    ensures shorter { length result.now ≤ length bytes.now }
{
    let mut rest = bytes;
    while let [byte, after @ ..] = rest {
        if is_ending(*byte) || opens_comment(*byte, after) || closes_comment(*byte, after) {
            return rest;
        }
        rest = after;
    }
    rest
}

fn begins_close(bytes: &[u8]) -> bool
    ensures { result ≡ spec.begins_close bytes.now }
{
    match bytes {
        [] => false,
        [byte, after @ ..] => closes_comment(*byte, after),
    }
}

/// An argument without quotes, and what is left after it.
#[tactic(auto, unfolding(crate::specs::Word::bare_at))]
pub fn bare_at<'a>(reader: &Reader<'_>, bytes: &'a [u8]) -> Result<(&'a [u8], &'a [u8]), YangFault>
    ensures read { Gives (λ x. (x.0.now, x.1.now)) result (spec.bare_at reader.now bytes.now) }
    ensures shorter { IfOk result (λ x. length x.1.now ≤ length bytes.now) }
{
    let rest = bare_end(bytes);
    if begins_close(rest) {
        return Err(refused(reader.bad(rest, YangKind::BadToken)));
    }
    Ok((front(bytes, rest), rest))
}

/// The label of the bytes, and the fault where they are no UTF-8.
pub fn label_of(labels: &mut Labels, fault: Fault, bytes: &[u8]) -> Result<Label, YangFault>
    ensures { Gives (λ l. l) result (spec.text_at fault bytes.now) }
{
    match str::from_utf8(bytes) {
        Ok(text) => Ok(labels.label(text)?),
        Err(_) => Err(refused(fault)),
    }
}
