//! Bytes and names at the front of a text.

ghost use Rattle.std.specs.Prelude.{◌≡◌, ◌<◌, ◌≤◌, length, None, Some, MatchOption, IfSome};
ghost use Rattle.std.specs.List.{position};
ghost use Rattle.nm_path.specs.Form as form_spec;
ghost use Rattle.nm_path.specs.Reading as spec;

#[tactic(auto, unfolding(crate::specs::Form::is_start))]
fn is_start(byte: u8) -> bool
    ensures { result ≡ form_spec.is_start byte }
{
    (b'a' <= byte && byte <= b'z') || (b'A' <= byte && byte <= b'Z') || byte == b'_'
}

#[tactic(auto, unfolding(crate::specs::Form::is_name))]
fn is_name(byte: u8) -> bool
    ensures { result ≡ form_spec.is_name byte }
{
    is_start(byte) || (b'0' <= byte && byte <= b'9') || byte == b'-' || byte == b'.'
}

fn are_names(bytes: &[u8]) -> bool
    ensures { result ≡ form_spec.are_names bytes.now }
{
    bytes.iter().all(|byte| is_name(*byte))
}

// Whether a text is an identifier.
fn is_identifier(text: &str) -> bool
    ensures { result ≡ form_spec.is_identifier text.now }
{
    match text.as_bytes() {
        [] => false,
        [first, rest @ ..] => is_start(*first) && are_names(rest),
    }
}

// Where the first byte is that a name hasn't.
fn name_end(bytes: &[u8]) -> Option<usize>
    ensures { result ≡ position spec.is_end bytes.now }
{
    bytes.iter().position(|byte| !is_name(*byte))
}

// How many bytes stand first that a name may have.
#[tactic(auto, using(crate::proofs::Texts::end_or_len), unfolding(crate::specs::Reading::name_len))]
fn name_len(bytes: &[u8]) -> usize
    ensures { result ≡ spec.name_len bytes.now }
{
    name_end(bytes).unwrap_or(bytes.len())
}

/// Whether a byte stands first.
pub fn begins(text: &str, byte: u8) -> bool
    ensures { result ≡ spec.begins text.now byte }
{
    match text.as_bytes() {
        [] => false,
        [first, ..] => *first == byte,
    }
}

/// What stands after an ASCII byte that stands first.
pub fn after(text: &str, byte: u8) -> Option<&str>
    requires { byte < 128 }
    ensures rest { MatchOption result (spec.after text.now byte ≡ None) (λ rest. spec.after text.now byte ≡ Some rest.now) }
    ensures shorter { IfSome result (λ rest. length rest.now < length text.now) }
{
    if !begins(text, byte) {
        return None;
    }
    Some(&text[1..])
}

/// The identifier that stands first, as long as can be, and what stands after it.
#[tactic(auto, unfolding(crate::specs::Reading::identifier_at))]
pub fn identifier_at(text: &str) -> Option<(&str, &str)>
    ensures read { MatchOption result (spec.identifier_at text.now ≡ None) (λ x. spec.identifier_at text.now ≡ Some (x.0.now, x.1.now)) }
    ensures shorter { IfSome result (λ x. length x.1.now ≤ length text.now) }
{
    let (name, rest) = text.split_at(name_len(text.as_bytes()));
    if !is_identifier(name) {
        return None;
    }
    Some((name, rest))
}
