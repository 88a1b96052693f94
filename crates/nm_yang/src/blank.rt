//! White space and comments.

ghost use Rattle.std.specs.Prelude.{◌≡◌, ℕ, ◌≤◌, length, IfOk, IfSome, MatchOption, Err, false};
ghost use Rattle.nm_yang.specs.Page.{Page, Gives, at_end, bad};
ghost use Rattle.nm_yang.specs.Blank.{skip as skip_of, plain, line, star, block};
ghost use Rattle.nm_yang.specs.declared.fault.YangKind.TheVariants.{UnclosedComment};

use crate::byte::{begins, is_white};
use crate::fault::{YangFault, YangKind};
use crate::reader::{Reader, refused};

/// What is left after the end of the line.
#[tactic(auto, unfolding(crate::specs::Blank::skip))]
fn after_line(bytes: &[u8]) -> &[u8]
    ensures rest { (page : Page) → skip_of page line bytes.now ≡ skip_of page plain result.now }
    ensures shorter { length result.now ≤ length bytes.now }
{
    let mut rest = bytes;
    while let [byte, after @ ..] = rest {
        rest = after;
        if *byte == b'\n' {
            return rest;
        }
    }
    rest
}

/// What is left after the next `*/`, and None where there is none.
#[tactic(auto, unfolding(crate::specs::Blank::skip))]
fn after_block(bytes: &[u8]) -> Option<&[u8]>
    ensures rest { (page : Page) (opener : ℕ) → MatchOption result
        (skip_of page (block opener false) bytes.now ≡ Err (at_end page (bad opener UnclosedComment)))
        (λ r. skip_of page (block opener false) bytes.now ≡ skip_of page plain r.now) }
    ensures shorter { IfSome result (λ r. length r.now ≤ length bytes.now) }
{
    let mut starred = false;
    let mut rest = bytes;
    while let [byte, after @ ..] = rest {
        if starred && *byte == b'/' {
            return Some(after);
        }
        starred = *byte == b'*';
        rest = after;
    }
    None
}

/// What is left after a comment that opened before the `*` that stands first, and None where it is never closed.
#[tactic(auto, unfolding(crate::specs::Blank::skip))]
fn after_star(bytes: &[u8]) -> Option<&[u8]>
    ensures rest { (page : Page) (opener : ℕ) → MatchOption result
        (skip_of page (star opener) bytes.now ≡ Err (at_end page (bad opener UnclosedComment)))
        (λ r. skip_of page (star opener) bytes.now ≡ skip_of page plain r.now) }
    ensures shorter { IfSome result (λ r. length r.now ≤ length bytes.now) }
{
    match bytes {
        [] => None,
        [_, within @ ..] => after_block(within),
    }
}

/// What is left after white space and comments.
#[tactic(auto, unfolding(crate::specs::Blank::skip))]
pub fn skip<'a>(reader: &Reader<'_>, bytes: &'a [u8]) -> Result<&'a [u8], YangFault>
    ensures rest { Gives (λ r. r.now) result (skip_of reader.now plain bytes.now) }
    ensures shorter { IfOk result (λ r. length r.now ≤ length bytes.now) }
{
    let mut rest = bytes;
    while let [byte, after @ ..] = rest {
        if is_white(*byte) {
            rest = after;
        } else if *byte == b'/' && begins(after, b'/') {
            rest = after_line(after);
        } else if *byte == b'/' && begins(after, b'*') {
            match after_star(after) {
                Some(outside) => rest = outside,
                None => {
                    let opener = reader.bad(rest, YangKind::UnclosedComment);
                    return Err(refused(reader.at_end(opener)));
                }
            }
        } else {
            return Ok(rest);
        }
    }
    Ok(rest)
}
