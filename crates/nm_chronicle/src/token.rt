//! Which change set a persist token names.

ghost use Rattle.std.specs.Prelude.{◌≡◌};
ghost use Rattle.nm_chronicle.specs.Phases.{named, named_by, change_of};

use nm_base::{ChangeNo, Label, read_decimal};

/// The change set that a commit's token names, where it gives one.
pub fn named_by(token: &Option<Label>) -> Option<ChangeNo>
    ensures { result ≡ named_by token.now }
{
    match token {
        Some(token) => named(token),
        None => None,
    }
}

// The change set that a token names.
#[tactic(auto, unfolding(crate::specs::Phases::named))]
fn named(token: &Label) -> Option<ChangeNo>
    ensures { result ≡ named token.now }
{
    let bytes = token.as_str().as_bytes();
    if !bytes.starts_with(b"netm:") {
        return None;
    }
    match read_decimal(&bytes[5..]) {
        Some(number) => change_of(number),
        None => None,
    }
}

// The change set of a number.
fn change_of(number: u64) -> Option<ChangeNo>
    ensures { result ≡ change_of number }
{
    if number < 1 || number > 64 {
        return None;
    }
    ChangeNo::new(number as u32)
}
