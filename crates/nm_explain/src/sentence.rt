//! What the words of lower readers mean. A word that isn't known stands for itself.

ghost use Rattle.std.specs.Prelude.{◌≡◌};
ghost use Rattle.nm_explain.specs.Sentence as spec;

/// What is wrong with the text or a statement of a module (RFC 7950), by the reader's word for it.
#[tactic(auto, unfolding(crate::specs::Sentence::of_module))]
pub(crate) fn of_module(word: &str) -> &str
    ensures { result.now ≡ spec.of_module word.now }
{
    match word {
        "unclosed-quote" => "a quote that is never closed",
        "unclosed-comment" => "a comment that is never closed",
        "unclosed-brace" => "a brace that is never closed",
        "bad-escape" => "a backslash that begins no escape",
        "bad-keyword" => "a character that can't stand in a keyword",
        "bad-token" => "something that can't stand here",
        _ => of_whole_text(word),
    }
}

#[tactic(auto, unfolding(crate::specs::Sentence::of_whole_text))]
fn of_whole_text(word: &str) -> &str
    ensures { result.now ≡ spec.of_whole_text word.now }
{
    match word {
        "not-module" => "the outermost statement is no module",
        "trailing" => "something stands behind the module",
        "not-utf8" => "bytes that aren't UTF-8",
        "too-long" => "the text has more than 262,144 bytes",
        "too-deep" => "more than 64 braces are open",
        _ => of_statement(word),
    }
}

#[tactic(auto, unfolding(crate::specs::Sentence::of_statement))]
fn of_statement(word: &str) -> &str
    ensures { result.now ≡ spec.of_statement word.now }
{
    match word {
        "unsupported" => "netm doesn't take this",
        "unknown" => "nothing of this name is known here",
        "duplicate" => "a second one where one may stand",
        "bad-reference" => "it leads to nothing that may stand here",
        "bad-argument" => "this is missing, or its argument is missing or hasn't its form",
        "cycle" => "it leads back to itself",
        "too-large" =>
            "the modules up to this one have too many nodes, or one with more than 64 above it",
        _ => word,
    }
}

/// What is wrong with a part of a configuration or an edit, by the reader's word for it (RFC 7951) or the error tag (RFC 6241 appendix A).
#[tactic(auto, unfolding(crate::specs::Sentence::of_data))]
pub(crate) fn of_data(word: &str) -> &str
    ensures { result.now ≡ spec.of_data word.now }
{
    match word {
        "unknown" => "the modules have no such node",
        "bad-form" => "a JSON value of another kind than the node wants",
        "bad-value" => "the type of the node has no such value",
        "missing-key" => "a list entry without one of its keys",
        "repeated" => "it stands there twice",
        _ => of_tag(word),
    }
}

#[tactic(auto, unfolding(crate::specs::Sentence::of_tag))]
fn of_tag(word: &str) -> &str
    ensures { result.now ≡ spec.of_tag word.now }
{
    match word {
        "unknown-element" => "the modules have no such node",
        "missing-element" => "something that has to be there is missing",
        "bad-attribute" => "an annotation that says no operation or may not stand there",
        "invalid-value" => "a value that the node doesn't take",
        "data-missing" => "something that has to be there is missing, or a leafref names nothing",
        "operation-failed" => "a rule of the modules forbids what stands there",
        _ => word,
    }
}

/// Whether a reader's word is about a value that stands there, and if so whether its form may be what is wrong.
#[tactic(auto, unfolding(crate::specs::Sentence::asks_form))]
pub(crate) fn asks_form(word: &str) -> Option<bool>
    ensures { result ≡ spec.asks_form word.now }
{
    match word {
        "bad-value" => Some(false),
        "bad-form" => Some(true),
        "invalid-value" => Some(true),
        _ => None,
    }
}
