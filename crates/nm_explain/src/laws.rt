//! A law of explanations. The function does nothing: its contract is the law.

ghost use Rattle.std.specs.Prelude.{◌≡◌, ℕ, List};
ghost use Rattle.nm_explain.specs.Explained.{Explains};

use crate::status::Status;

/// Bytes have one explanation: no two statuses or texts explain the same bytes.
pub fn one_explanation()
    ensures { (bytes : List ℕ) (status other : Status) (text words : List ℕ) → Explains bytes status text
        → Explains bytes other words → (other ≡ status) × (words ≡ text) }
{}
