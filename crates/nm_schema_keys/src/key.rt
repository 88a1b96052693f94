//! The keys of lists.

ghost use Rattle.std.specs.Prelude.{◌≡◌, ◌<◌, ◌++◌, [], All, IfOk, IfSome, None, is_some, length, map};
ghost use Rattle.nm_schema_keys.specs.ConfigUse.{ConfigUse, IsConfigUse};
ghost use Rattle.nm_schema_keys.specs.Words.{words_of};
ghost use Rattle.nm_schema_keys.specs.Keys as spec;

use crate::found::{Found, is_there, loses_state};
use crate::leafs::Keys;
use crate::members::Members;
use crate::said::{Said, said_at};
use crate::words::words_of;
use nm_base::{Label, NoMemory};
use nm_schema_names::RowNames;
use nm_schema_statements::{Flaw, Word, name_of};
use nm_schema_uses::Shape;
use std::alloc::Global;

// The leaf that a word of a key names.
#[tactic(auto, unfolding(crate::specs::Keys::key_leaf))]
fn key_leaf<'a>(members: &Members<'_, 'a>, loses: bool, owner: usize, word: &'a str) -> Found
    ensures { result ≡ spec.key_leaf members.now.rows members.now.nodes loses owner word.now }
{
    members.fit(loses, owner, Word::Leaf, word)
}

// What is wrong with a word of a key, after words that name some leafs.
fn word_flaw(
    alloc: Global,
    taken: &Keys,
    word: &str,
    found: Found,
) -> Result<Option<Flaw>, NoMemory>
    ensures { IfOk result (λ flaw. flaw ≡ spec.word_flaw taken.now word.now found) }
{
    match found {
        Found::Row(leaf) => {
            if taken.has(leaf) {
                return Ok(Some(Flaw::Duplicate(Label::new(alloc, name_of(word))?)));
            }
            Ok(None)
        }
        Found::Missing => Ok(Some(Flaw::BadReference(Label::new(alloc, word)?))),
        Found::Unknown => Ok(None),
    }
}

// What is wrong with the first word that has a flaw. Where none has, the leafs that the words name are put into `keys`.
fn words_flaw<'a>(
    alloc: Global,
    members: &Members<'_, 'a>,
    loses: bool,
    owner: usize,
    words: &[&'a str],
    keys: &mut Keys,
) -> Result<Option<Flaw>, NoMemory>
    ensures flaw { IfOk result
        (λ flaw. flaw ≡ spec.words_flaw (spec.key_leaf members.now.rows members.now.nodes loses owner) keys.old (map (λ t. t.now) words.now)) }
    ensures keys { IfOk result (λ flaw. flaw ≡ None
        → keys.new ≡ keys.old ++ spec.leafs_named (spec.key_leaf members.now.rows members.now.nodes loses owner) (map (λ t. t.now) words.now)) }
{
    for word in words {
        let found = key_leaf(members, loses, owner, word);
        match word_flaw(alloc, keys, word, found) {
            Ok(None) => {}
            Ok(Some(flaw)) => return Ok(Some(flaw)),
            Err(error) => return Err(error),
        }
        match keys.add(found) {
            Ok(()) => {}
            Err(error) => return Err(error),
        }
    }
    Ok(None)
}

// What is wrong with the words of a key. Where nothing is, the leafs that they name are put into `keys`, which are none before.
fn key_words_flaw<'a>(
    alloc: Global,
    members: &Members<'_, 'a>,
    loses: bool,
    owner: usize,
    words: &[&'a str],
    keys: &mut Keys,
) -> Result<Option<Flaw>, NoMemory>
    requires { keys.old ≡ [] }
    ensures flaw { IfOk result
        (λ flaw. flaw ≡ spec.key_words_flaw (spec.key_leaf members.now.rows members.now.nodes loses owner) (map (λ t. t.now) words.now)) }
    ensures keys { IfOk result (λ flaw. flaw ≡ None
        → keys.new ≡ spec.leafs_named (spec.key_leaf members.now.rows members.now.nodes loses owner) (map (λ t. t.now) words.now)) }
{
    if words.is_empty() {
        return Ok(Some(Flaw::BadArgument(Label::new(alloc, Word::Key.text())?)));
    }
    words_flaw(alloc, members, loses, owner, words, keys)
}

// What is wrong with a key statement. Where nothing is, the leafs that it names are put into `keys`, which are none before.
fn said_flaw<'a>(
    alloc: Global,
    members: &Members<'_, 'a>,
    loses: bool,
    said: &Said<'a>,
    keys: &mut Keys,
) -> Result<Option<Flaw>, NoMemory>
    requires { keys.old ≡ [] }
    ensures flaw { IfOk result
        (λ flaw. flaw ≡ spec.key_words_flaw (spec.key_leaf members.now.rows members.now.nodes loses said.now.owner) (words_of said.now.text)) }
    ensures keys { IfOk result (λ flaw. flaw ≡ None
        → keys.new ≡ spec.leafs_named (spec.key_leaf members.now.rows members.now.nodes loses said.now.owner) (words_of said.now.text)) }
{
    let words = words_of(alloc, said.text)?;
    key_words_flaw(alloc, members, loses, said.owner, &words, keys)
}

/// What is wrong with the `key` statement of the row of a number in a list (RFC 7950 section 7.8.2): no word at all
/// (BadArgument with `key`), or the first word that names no leaf of the list (BadReference with the word), or one that an
/// earlier word names (Duplicate with its name). A name has no prefix or that of its module. A leaf that says `config false`
/// itself is none where the list is configuration. None of other rows, and where the members of the list aren't known.
#[tactic(auto, unfolding(crate::specs::Keys::key_flaw))]
pub fn key_flaw(
    alloc: Global,
    names: &RowNames<'_>,
    shape: &Shape<'_>,
    at: usize,
) -> Result<Option<Flaw>, NoMemory>
    requires { names.now ≡ shape.now.rows }
    ensures { (standing : ConfigUse) → IsConfigUse shape.now.rows shape.now.groupings standing
        → IfOk result (λ flaw. flaw ≡ spec.key_flaw shape.now.rows shape.now.groupings standing at) }
{
    let said = match said_at(names.rows(), Word::Key, at) {
        None => return Ok(None),
        Some(said) => said,
    };
    let members = Members::plain(alloc, names, shape, said.list)?;
    let loses = loses_state(shape, said.list);
    let mut keys = Keys::new(alloc);
    said_flaw(alloc, &members, loses, &said, &mut keys)
}

// The leafs of a key statement that has no flaw, in a list whose members are known.
#[tactic(auto, using(crate::proofs::Fitting::leafs_within))]
fn said_keys<'a>(
    alloc: Global,
    members: &Members<'_, 'a>,
    loses: bool,
    said: &Said<'a>,
) -> Result<Option<Keys>, NoMemory>
    ensures exact { IfOk result (λ keys. keys
        ≡ spec.key_words_leafs (spec.key_leaf members.now.rows members.now.nodes loses said.now.owner)
        (is_some members.now.nodes) (words_of said.now.text)) }
    ensures within { IfOk result (λ keys. IfSome keys (All (λ leaf. leaf < length members.now.rows))) }
{
    if !members.are_known() {
        return Ok(None);
    }
    let mut keys = Keys::new(alloc);
    if is_there(said_flaw(alloc, members, loses, said, &mut keys)?) {
        return Ok(None);
    }
    Ok(Some(keys))
}

/// The key leafs of the list of a row's number, in the order of its `key` (RFC 7950 section 7.8.2). None where it has no
/// `key`, or one with a flaw, or where its members aren't known.
#[tactic(auto, unfolding(crate::specs::Keys::keys_of))]
pub fn keys_of(
    alloc: Global,
    names: &RowNames<'_>,
    shape: &Shape<'_>,
    list: usize,
) -> Result<Option<Keys>, NoMemory>
    requires { names.now ≡ shape.now.rows }
    ensures exact { (standing : ConfigUse) → IsConfigUse shape.now.rows shape.now.groupings standing
        → IfOk result (λ keys. keys ≡ spec.keys_of shape.now.rows shape.now.groupings standing list) }
    ensures within { IfOk result (λ keys. IfSome keys (All (λ leaf. leaf < length shape.now.rows))) }
{
    let at = match names.rows().first_below(list, Word::Key) {
        None => return Ok(None),
        Some(at) => at,
    };
    let said = match said_at(names.rows(), Word::Key, at) {
        None => return Ok(None),
        Some(said) => said,
    };
    let members = Members::plain(alloc, names, shape, said.list)?;
    said_keys(alloc, &members, loses_state(shape, said.list), &said)
}
