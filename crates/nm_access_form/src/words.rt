//! The accesses of a rule: `*`, or words that one space parts, each once.

ghost use Rattle.std.specs.Prelude.{◌≡◌, IfOk, Some, map};
ghost use Rattle.nm_scenario_form.specs.Reading.{Gives};
ghost use Rattle.nm_scenario_form.specs.Read.{told};
ghost use Rattle.nm_access_form.specs.Words as spec;

use nm_access::Accesses;
use nm_base::{Label, NoMemory};
use nm_scenario_form::places::fault_here;
use nm_scenario_form::{ReadError, Reader, ScenarioKind};
use serde_json::Value;
use std::alloc::{AllocError, Global};

/// The member `access` of a rule.
#[derive(Drop)]
pub(crate) struct AccessWords;

impl Reader for AccessWords {
    type Out = Accesses;

    ghost form = { λ _. spec.accesses };

    #[tactic(auto, unfolding(crate::specs::Words::accesses_said))]
    fn read(&self, alloc: Global, part: &Value) -> Result<Accesses, ReadError> {
        match part.as_str() {
            None => fault_here(alloc, ScenarioKind::BadValue),
            Some(text) => read_accesses(alloc, text),
        }
    }
}

fn read_accesses(alloc: Global, text: &str) -> Result<Accesses, ReadError>
    ensures { Gives result (told (spec.accesses_in (Some text.now))) }
{
    if text == "*" {
        return Ok(Accesses {
            create: true,
            update: true,
            delete: true,
            exec: true,
        });
    }
    let words = words(alloc, text)?;
    of_words(alloc, words.as_slice())
}

fn of_words(alloc: Global, words: &[Label]) -> Result<Accesses, ReadError>
    ensures { Gives result (told (spec.of_words words.now)) }
{
    if !are_accesses(words) {
        return fault_here(alloc, ScenarioKind::BadValue);
    }
    Ok(named(words))
}

// The parts of a text, which spaces part.
fn parts<'a>(alloc: Global, text: &'a str) -> Result<Vec<&'a str>, AllocError>
    ensures { IfOk result (λ all. map (λ part. part.now) all.items ≡ spec.parted text.now) }
{
    text.split(' ').collect(alloc)
}

// The same, as labels.
fn words(alloc: Global, text: &str) -> Result<Vec<Label>, NoMemory>
    ensures { IfOk result (λ words. words.items ≡ spec.parted text.now) }
{
    let parts = parts(alloc, text)?;
    labels(alloc, parts.as_slice())
}

fn labels(alloc: Global, parts: &[&str]) -> Result<Vec<Label>, NoMemory>
    ensures { IfOk result (λ words. words.items ≡ map (λ part. part.now) parts.now) }
{
    let mut words = Vec::new(alloc);
    for part in parts {
        let word = Label::new(alloc, part)?;
        words.push(word)?;
    }
    Ok(words)
}

fn is_access(word: &Label) -> bool
    ensures { result ≡ spec.is_access word.now }
{
    let word = word.as_str();
    word == "create" || word == "read" || word == "update" || word == "delete" || word == "exec"
}

fn has_word(words: &[Label], word: &str) -> bool
    ensures { result ≡ spec.has_word words.now word.now }
{
    words.iter().any(|other| other.as_str() == word)
}

// Whether these are words for accesses, each once.
fn are_accesses(words: &[Label]) -> bool
    ensures { result ≡ spec.are_accesses words.now }
{
    let mut rest = words;
    'words: while let [word, more @ ..] = rest {
        if !is_access(word) || has_word(more, word.as_str()) {
            return false;
        }
        rest = more;
    }
    true
}

fn named(words: &[Label]) -> Accesses
    ensures { result ≡ spec.named words.now }
{
    Accesses {
        create: has_word(words, "create"),
        update: has_word(words, "update"),
        delete: has_word(words, "delete"),
        exec: has_word(words, "exec"),
    }
}
