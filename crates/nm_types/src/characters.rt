//! The characters that strings may have.

ghost use Rattle.std.specs.Prelude.{◌≡◌};
ghost use Rattle.nm_types.specs.Reading as spec;

/// What each plane of Unicode holds: its last two code points are noncharacters.
const PLANE: u32 = 0x1_0000;

fn is_barred(code: u32) -> bool
    ensures { result ≡ spec.is_barred code }
{
    code < 32 && !(code == 9 || code == 10 || code == 13)
}

fn is_noncharacter(code: u32) -> bool
    ensures { result ≡ spec.is_noncharacter code }
{
    (0xFDD0 <= code && code <= 0xFDEF) || 0xFFFE <= code % PLANE
}

fn is_character(character: char) -> bool
    ensures { result ≡ spec.is_character character }
{
    !is_barred(character as u32) && !is_noncharacter(character as u32)
}

/// Whether each character of a text is one that a string may have (RFC 7950 section 9.4).
#[tactic(auto, unfolding(crate::specs::Reading::are_characters))]
pub fn are_characters(text: &str) -> bool
    ensures { result ≡ spec.are_characters text.now }
{
    text.chars().all(|character| is_character(character))
}
