//! A law of what is written. The function does nothing: its contract is the law.

ghost use Rattle.std.specs.Prelude.{List, ℕ};
ghost use Rattle.nm_picture_svg.specs.Spelt.{Means};
ghost use Rattle.nm_picture_svg.specs.Xml.{escaped};

/// A text of a drawing is nothing but text in its file: no `<`, `&` or quote of it stands raw, and who reads the file reads that text.
pub fn a_text_is_nothing_but_text()
    ensures { (text : List ℕ) → Means text (escaped text) }
{}
