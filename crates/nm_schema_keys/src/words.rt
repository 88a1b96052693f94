//! The words of arguments.

ghost use Rattle.std.specs.Prelude.{◌≡◌, ◌<◌, ℕ, List, eqb, map, filter, IfOk, MatchOption, Some, None};
ghost use Rattle.std.specs.List.{slice_split, flat_map};
ghost use Rattle.nm_schema_statements.specs.Text.{is_some_text};
ghost use Rattle.nm_schema_keys.specs.Words as spec;

use nm_base::NoMemory;
use nm_schema_names::RowNames;
use nm_schema_statements::{is_reference, name_of, prefix_of};
use std::alloc::{AllocError, Global};

// The pieces of a text, which a mark of ASCII parts.
fn pieces(alloc: Global, text: &str, mark: char) -> Result<Vec<&str>, AllocError>
    requires { mark < 128 }
    ensures { IfOk result (λ pieces. map (λ piece. piece.now) pieces.items ≡ slice_split (λ b. eqb b mark) text.now) }
{
    text.split(mark).collect(alloc)
}

// The pieces of some texts, in order.
fn pieces_each<'a>(alloc: Global, texts: &[&'a str], mark: char) -> Result<Vec<&'a str>, NoMemory>
    requires { mark < 128 }
    ensures { IfOk result (λ all. map (λ piece. piece.now) all.items ≡ flat_map (λ t. slice_split (λ b. eqb b mark) t) (map (λ t. t.now) texts.now)) }
{
    let mut all = Vec::new(alloc);
    for text in texts {
        let pieces = pieces(alloc, text, mark)?;
        all.extend_from_slice(&pieces)?;
    }
    Ok(all)
}

// Those that hold at least one byte.
fn some_texts<'a>(alloc: Global, texts: &[&'a str]) -> Result<Vec<&'a str>, NoMemory>
    ensures { IfOk result (λ some. map (λ t. t.now) some.items ≡ filter is_some_text (map (λ t. t.now) texts.now)) }
{
    let mut some = Vec::new(alloc);
    for text in texts {
        if !text.is_empty() {
            some.push(*text)?;
        }
    }
    Ok(some)
}

/// The words of a text: what blanks part, without empty ones (RFC 7950 section 14).
pub(crate) fn words_of(alloc: Global, text: &str) -> Result<Vec<&str>, NoMemory>
    ensures { IfOk result (λ words. map (λ t. t.now) words.items ≡ spec.words_of text.now) }
{
    let pieces = pieces(alloc, text, ' ')?;
    let pieces = pieces_each(alloc, &pieces, '\t')?;
    let pieces = pieces_each(alloc, &pieces, '\r')?;
    let pieces = pieces_each(alloc, &pieces, '\n')?;
    some_texts(alloc, &pieces)
}

/// The pieces of a word, which `/` parts.
#[tactic(auto, unfolding(crate::specs::Words::pieces_of))]
pub(crate) fn pieces_of(alloc: Global, word: &str) -> Result<Vec<&str>, NoMemory>
    ensures { IfOk result (λ pieces. map (λ piece. piece.now) pieces.items ≡ spec.pieces_of word.now) }
{
    let pieces = pieces(alloc, word, '/')?;
    Ok(pieces)
}

/// The name of a word: of an identifier that has no prefix, or that of the module itself.
#[tactic(auto, unfolding(crate::specs::Words::own_name))]
pub(crate) fn own_name<'a>(names: &RowNames<'a>, owner: usize, word: &'a str) -> Option<&'a str>
    ensures { MatchOption result (spec.own_name names.now owner word.now ≡ None) (λ name. spec.own_name names.now owner word.now ≡ Some name.now) }
{
    if !is_reference(word) {
        return None;
    }
    match prefix_of(word) {
        None => Some(name_of(word)),
        Some(prefix) => {
            if names.is_own(owner, prefix) {
                return Some(name_of(word));
            }
            None
        }
    }
}
