//! A law of printed texts. The function does nothing: its contract is the law.

ghost use Rattle.std.specs.Prelude.{◌≡◌, ℕ, false, List};
ghost use Rattle.std.specs.List.{list_any};
ghost use Rattle.nm_lines.specs.Printed.{is_break, printed};

/// No line ends in a text that is printed.
pub fn a_printed_text_breaks_no_line()
    ensures { (text : List ℕ) → list_any is_break (printed text) ≡ false }
{}
