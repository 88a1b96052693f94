//! Persist tokens (RFC 6241 section 8.4): which are the manager's, and that each change set has one of its own.

ghost use Rattle.std.specs.Prelude.{◌≡◌, ℕ, ◌<◌, ◌^◌, ◌==◌, true, IfOk};
ghost use Rattle.std.specs.Str.{bytes_eq};
ghost use Rattle.nm_base.specs.Token.{is_reserved, token_of};

use crate::fault::NoMemory;
use crate::label::Label;
use crate::number::ChangeNo;
use std::alloc::Global;

/// Whether a persist token is one that only the manager may use: it begins with `netm:`.
pub fn is_reserved(token: &Label) -> bool
    ensures { result ≡ is_reserved token.now }
{
    token.as_str().as_bytes().starts_with(b"netm:")
}

/// The persist token of a change set: `netm:` and its number.
pub fn token_of(alloc: Global, change: ChangeNo) -> Result<Label, NoMemory>
    ensures { IfOk result (λ token. token ≡ token_of change) }
{
    let number = change.get();
    let text = format!(in alloc; "netm:{number}")?;
    Label::new(alloc, text.as_str())
}

/// A change set's token is the manager's, and is that of no other change set, as comparing the bytes tells.
pub fn tokens_are_told_apart()
    ensures reserved { (c : ℕ) → is_reserved (token_of c) ≡ true }
    ensures its_own { (c d : ℕ) → c < 2 ^ 32 → d < 2 ^ 32 → token_of c ≡ token_of d → c ≡ d }
    ensures told { (c d : ℕ) → c < 2 ^ 32 → d < 2 ^ 32 → bytes_eq (token_of c) (token_of d) ≡ (c == d) }
{}
