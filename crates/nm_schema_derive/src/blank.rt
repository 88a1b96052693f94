//! Blanks around the pieces of an argument, which ranges, lengths and numbers may all have.

ghost use Rattle.std.specs.Prelude.{◌≡◌, ◌≤◌, length, reverse};
ghost use Rattle.std.specs.List.{position_or_len};
ghost use Rattle.nm_schema_derive.specs.Blank.{is_solid, trimmed};

// Whether a byte is none of space, tab, CR and LF.
fn is_solid(byte: u8) -> bool
    ensures { result ≡ is_solid byte }
{
    !matches!(byte, b' ' | b'\t' | b'\r' | b'\n')
}

// How many blanks a text begins with.
fn leading(text: &[u8]) -> usize
    ensures count { result ≡ position_or_len is_solid text.now }
    ensures within { result ≤ length text.now }
{
    text.iter()
        .position(|byte| is_solid(*byte))
        .unwrap_or(text.len())
}

// How many blanks a text ends with.
fn trailing(text: &[u8]) -> usize
    ensures count { result ≡ position_or_len is_solid (reverse text.now) }
    ensures within { result ≤ length text.now }
{
    text.iter()
        .rev()
        .position(|byte| is_solid(*byte))
        .unwrap_or(text.len())
}

// A text without the blanks around it.
pub(crate) fn trimmed(text: &[u8]) -> &[u8]
    ensures { result.now ≡ trimmed text.now }
{
    let rest = &text[leading(text)..];
    &rest[..rest.len() - trailing(rest)]
}
