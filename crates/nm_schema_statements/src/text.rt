//! The texts of arguments.

ghost use Rattle.std.specs.Prelude.{◌≡◌, Some, None, MatchOption};
ghost use Rattle.nm_base.specs.Decimal.{number_of};
ghost use Rattle.nm_yang.specs.Byte as byte_spec;
ghost use Rattle.nm_schema_statements.specs.Text as spec;

use nm_base::read_decimal;

fn is_start(byte: u8) -> bool
    ensures { result ≡ byte_spec.is_start byte }
{
    (b'a' <= byte && byte <= b'z') || (b'A' <= byte && byte <= b'Z') || byte == b'_'
}

fn is_name(byte: u8) -> bool
    ensures { result ≡ byte_spec.is_name byte }
{
    is_start(byte) || (b'0' <= byte && byte <= b'9') || byte == b'-' || byte == b'.'
}

fn are_names(bytes: &[u8]) -> bool
    ensures { result ≡ spec.are_names bytes.now }
{
    bytes.iter().all(|byte| is_name(*byte))
}

/// Whether a text is an identifier: a letter or `_`, then letters, digits, `_`, `-` and `.` (RFC 7950 section 6.2).
pub fn is_identifier(text: &str) -> bool
    ensures { result ≡ spec.is_identifier text.now }
{
    match text.as_bytes() {
        [] => false,
        [first, rest @ ..] => is_start(*first) && are_names(rest),
    }
}

/// What stands before the first colon of a text, and None where there is no colon (RFC 7950 section 6.5).
#[tactic(auto, unfolding(crate::specs::Text::prefix_of))]
pub fn prefix_of(text: &str) -> Option<&str>
    ensures { MatchOption result (spec.prefix_of text.now ≡ None) (λ prefix. spec.prefix_of text.now ≡ Some prefix.now) }
{
    match text.split_once(':') {
        Some((prefix, _)) => Some(prefix),
        None => None,
    }
}

/// What stands after the first colon of a text, and all of it where there is no colon (RFC 7950 section 6.5).
#[tactic(auto, unfolding(crate::specs::Text::name_of))]
pub fn name_of(text: &str) -> &str
    ensures { result.now ≡ spec.name_of text.now }
{
    match text.split_once(':') {
        Some((_, name)) => name,
        None => text,
    }
}

/// Whether a text is an identifier, or a prefix, a colon and an identifier (RFC 7950 section 14).
pub fn is_reference(text: &str) -> bool
    ensures { result ≡ spec.is_reference text.now }
{
    if let Some(prefix) = prefix_of(text)
        && !is_identifier(prefix)
    {
        return false;
    }
    is_identifier(name_of(text))
}

#[tactic(auto, unfolding(crate::specs::Text::is_truth))]
pub fn is_truth(text: &str) -> bool
    ensures { result ≡ spec.is_truth text.now }
{
    text == "true" || text == "false"
}

#[tactic(auto, unfolding(crate::specs::Text::is_version))]
pub fn is_version(text: &str) -> bool
    ensures { result ≡ spec.is_version text.now }
{
    text == "1" || text == "1.1"
}

#[tactic(auto, unfolding(crate::specs::Text::is_order))]
pub fn is_order(text: &str) -> bool
    ensures { result ≡ spec.is_order text.now }
{
    text == "system" || text == "user"
}

fn is_between(low: u64, high: u64, text: &str) -> bool
    ensures { result ≡ spec.is_between low high (number_of text.now) }
{
    match read_decimal(text.as_bytes()) {
        Some(number) => low <= number && number <= high,
        None => false,
    }
}

pub fn is_count(text: &str) -> bool
    ensures { result ≡ spec.is_count text.now }
{
    is_between(0, 4_294_967_295, text)
}

#[tactic(auto, unfolding(crate::specs::Text::is_limit))]
pub fn is_limit(text: &str) -> bool
    ensures { result ≡ spec.is_limit text.now }
{
    text == "unbounded" || is_between(1, 4_294_967_295, text)
}

pub fn is_digit_count(text: &str) -> bool
    ensures { result ≡ spec.is_digit_count text.now }
{
    is_between(1, 18, text)
}

pub fn is_some_text(text: &str) -> bool
    ensures { result ≡ spec.is_some_text text.now }
{
    match text.as_bytes() {
        [] => false,
        [_, ..] => true,
    }
}

pub fn is_enum_name(text: &str) -> bool
    ensures { result ≡ spec.is_enum_name text.now }
{
    is_some_text(text) && text.trim() == text
}

#[tactic(auto, unfolding(crate::specs::Text::is_number_type))]
fn is_number_type(name: &str) -> bool
    ensures { result ≡ spec.is_number_type name.now }
{
    match name {
        "int8" => true,
        "int16" => true,
        "int32" => true,
        "int64" => true,
        "uint8" => true,
        "uint16" => true,
        "uint32" => true,
        "uint64" => true,
        "decimal64" => true,
        _ => false,
    }
}

#[tactic(auto, unfolding(crate::specs::Text::is_plain_type))]
fn is_plain_type(name: &str) -> bool
    ensures { result ≡ spec.is_plain_type name.now }
{
    match name {
        "boolean" => true,
        "string" => true,
        "enumeration" => true,
        "bits" => true,
        "empty" => true,
        "leafref" => true,
        _ => false,
    }
}

#[tactic(auto, unfolding(crate::specs::Text::is_left_out_type))]
pub fn is_left_out_type(name: &str) -> bool
    ensures { result ≡ spec.is_left_out_type name.now }
{
    match name {
        "union" => true,
        "identityref" => true,
        "instance-identifier" => true,
        "binary" => true,
        _ => false,
    }
}

/// Whether a name is that of a built-in type (RFC 7950 section 4.2.4), also of one that this project leaves out.
pub fn is_builtin(name: &str) -> bool
    ensures { result ≡ spec.is_builtin name.now }
{
    is_number_type(name) || is_plain_type(name) || is_left_out_type(name)
}
