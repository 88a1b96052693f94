//! The bytes that part a text.

ghost use Rattle.std.specs.Prelude.{◌≡◌};
ghost use Rattle.nm_yang.specs.Byte as spec;

pub fn is_white(byte: u8) -> bool
    ensures { result ≡ spec.is_white byte }
{
    byte == b' ' || byte == b'\t' || byte == b'\r' || byte == b'\n'
}

pub fn is_quote(byte: u8) -> bool
    ensures { result ≡ spec.is_quote byte }
{
    byte == b'"' || byte == b'\''
}

pub fn is_mark(byte: u8) -> bool
    ensures { result ≡ spec.is_mark byte }
{
    byte == b';' || byte == b'{' || byte == b'}'
}

pub fn is_ending(byte: u8) -> bool
    ensures { result ≡ spec.is_ending byte }
{
    is_white(byte) || is_quote(byte) || is_mark(byte)
}

pub fn is_start(byte: u8) -> bool
    ensures { result ≡ spec.is_start byte }
{
    (b'a' <= byte && byte <= b'z') || (b'A' <= byte && byte <= b'Z') || byte == b'_'
}

pub fn is_name(byte: u8) -> bool
    ensures { result ≡ spec.is_name byte }
{
    is_start(byte) || (b'0' <= byte && byte <= b'9') || byte == b'-' || byte == b'.'
}

pub fn begins(bytes: &[u8], byte: u8) -> bool
    ensures { result ≡ spec.begins bytes.now byte }
{
    match bytes {
        [] => false,
        [first, ..] => *first == byte,
    }
}

pub fn begins_quote(bytes: &[u8]) -> bool
    ensures { result ≡ spec.begins_quote bytes.now }
{
    match bytes {
        [] => false,
        [first, ..] => is_quote(*first),
    }
}

pub fn begins_mark(bytes: &[u8]) -> bool
    ensures { result ≡ spec.begins_mark bytes.now }
{
    match bytes {
        [] => false,
        [first, ..] => is_mark(*first),
    }
}

pub fn opens_comment(byte: u8, rest: &[u8]) -> bool
    ensures { result ≡ spec.opens_comment byte rest.now }
{
    byte == b'/' && (begins(rest, b'/') || begins(rest, b'*'))
}

pub fn closes_comment(byte: u8, rest: &[u8]) -> bool
    ensures { result ≡ spec.closes_comment byte rest.now }
{
    byte == b'*' && begins(rest, b'/')
}
