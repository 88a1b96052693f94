//! Texts that copies share. Names, paths and tokens are such, so that the copy of a row takes no bytes for them.

ghost use Rattle.std.specs.Prelude.{◌≡◌, ◌↔◌, ◌<◌, List, ℕ, IsTrue, IfOk, Some, get_or, nat_eq, refl};
ghost use Rattle.std.specs.Cmp.Lexicographic.{pointwise, slice_cmp, nat_list_eq_equiv, nat_list_cmp_total, texts_ties, texts_po};
ghost use Rattle.std.specs.Ordering.{nat_cmp};
ghost use Rattle.std.specs.Cmp;
ghost use Rattle.nm_base.specs.Head.{IsHead};

use crate::fault::NoMemory;
use std::alloc::{AllocError, Global};
use std::cmp::Ordering;
use std::fmt;
use std::marker::Model;
use std::sync::ArcStr;

/// A text of UTF-8, of any length in bytes. Its copies share the bytes.
///
/// Beside them stand its first eight bytes as a number, so that most comparisons look at no byte.
#[derive(Drop)]
pub struct Label {
    text: ArcStr,
    head: u64,
}

impl Model for Label {
    ghost use Rattle.std.specs.Prelude.{List, ℕ};
    ghost use Rattle.std.specs.Arc.{arc_str_bytes};
    ghost use Rattle.nm_base.specs.Head.{IsHead};

    ghost Value = { List ℕ };

    ghost view = { λ label. arc_str_bytes label.text };

    ghost invariant = { λ label. IsHead 8 0 (arc_str_bytes label.text) label.head };
}

// The byte at a place, and 0 past the end.
fn byte_at(bytes: &[u8], place: usize) -> u64
    ensures value { result ≡ get_or bytes.now place 0 }
    ensures small { result < 256 }
{
    match bytes.get(place) {
        Some(byte) => u64::from(*byte),
        None => 0,
    }
}

// The first eight bytes as a number.
fn head_of(text: &str) -> u64
    ensures { IsHead 8 0 text.now result }
{
    let bytes = text.as_bytes();
    let mut head = 0u64;
    for place in 0..8 {
        head = head * 256 + byte_at(bytes, place);
    }
    head
}

impl Label {
    /// The label of a text.
    pub fn new(alloc: Global, text: &str) -> Result<Label, NoMemory>
        ensures { IfOk result (λ label. label ≡ text.now) }
    {
        Ok(Label {
            text: ArcStr::from_str(alloc, text)?,
            head: head_of(text),
        })
    }

    /// The text.
    pub fn as_str(&self) -> &str
        ensures { result.now ≡ self.now }
    {
        self.text.as_str()
    }

    /// An equal label. It copies no bytes.
    pub fn copy(&self) -> Result<Label, NoMemory>
        ensures { IfOk result (λ label. label ≡ self.now) }
    {
        Ok(self.clone()?)
    }

    /// Whether the two have the same bytes.
    pub fn same(&self, other: &Label) -> bool
        ensures { IsTrue result ↔ (self.now ≡ other.now) }
    {
        self.head == other.head && self.as_str() == other.as_str()
    }
}

// A clone is equal and shares the bytes.
impl Clone for Label {
    ghost is_clone = { λ label cloned. cloned ≡ label };

    fn clone(&self) -> Result<Label, AllocError> {
        Ok(Label {
            text: self.text.clone()?,
            head: self.head,
        })
    }
}

impl PartialEq for Label {
    ghost eq = { pointwise nat_eq };

    ghost laws = { Cmp.partial_equiv_from_equiv nat_list_eq_equiv };

    fn eq(&self, other: &Label) -> bool {
        self.head == other.head && self.as_str() == other.as_str()
    }
}

impl Eq for Label {
    ghost laws = { nat_list_eq_equiv };
}

// Labels are ordered by their bytes.
impl PartialOrd for Label {
    ghost partial_cmp = { λ x y. Some (slice_cmp nat_cmp x y) };

    ghost laws = { texts_po };

    fn partial_cmp(&self, other: &Label) -> Option<Ordering> {
        Some(self.cmp(other))
    }
}

impl Ord for Label {
    ghost cmp = { slice_cmp nat_cmp };

    ghost total = { nat_list_cmp_total };

    ghost matches_partial_cmp = { λ x y. refl };

    ghost matches_eq = { texts_ties };

    fn cmp(&self, other: &Label) -> Ordering {
        if self.head != other.head {
            return self.head.cmp(&other.head);
        }
        self.as_str().cmp(other.as_str())
    }
}

impl fmt::Debug for Label {
    fn fmt<W: fmt::Write>(&self, f: &mut fmt::Formatter<W>) -> fmt::Result {
        fmt::Debug::fmt(&self.as_str(), f)
    }
}

impl fmt::Display for Label {
    ghost output = { λ label. Some label };

    fn fmt<W: fmt::Write>(&self, f: &mut fmt::Formatter<W>) -> fmt::Result {
        f.pad(self.as_str())
    }
}
