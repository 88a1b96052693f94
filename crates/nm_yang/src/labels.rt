//! Labels of which equal ones share their bytes.

ghost use Rattle.std.specs.Prelude.{◌≡◌, IfOk};

use nm_base::{Label, NoMemory};
use std::alloc::Global;

/// How many labels are remembered, each at a slot that its bytes choose: most modules have fewer keywords.
const SLOTS: u8 = 64;

/// How many bytes a label that is remembered may have: longer ones are descriptions, which seldom come again.
const LONGEST: usize = 32;

/// Makes labels, and remembers those that were made lately. The keywords of a module and many of its arguments come again
/// and again, and the copy of a label takes no memory.
#[derive(Drop)]
pub struct Labels {
    pub alloc: Global,
    recent: Vec<Label>,
}

fn slot_of(text: &str) -> usize {
    let mut sum = 0u8;
    for byte in text.as_bytes() {
        sum = sum.wrapping_mul(7).wrapping_add(*byte);
    }
    usize::from(sum % SLOTS)
}

impl Labels {
    /// The empty label stands at each slot.
    pub fn new(alloc: Global) -> Result<Labels, NoMemory>
        ensures { IfOk result (λ labels. labels.alloc ≡ alloc) }
    {
        let empty = Label::new(alloc, "")?;
        let mut recent = Vec::with_capacity(alloc, usize::from(SLOTS))?;
        for _ in 0..SLOTS {
            recent.push(empty.copy()?)?;
        }
        Ok(Labels { alloc, recent })
    }

    /// The label of a text.
    pub fn label(&mut self, text: &str) -> Result<Label, NoMemory>
        ensures value { IfOk result (λ label. label ≡ text.now) }
        ensures alloc { self.new.alloc ≡ self.old.alloc }
    {
        if LONGEST < text.len() {
            return Label::new(self.alloc, text);
        }
        let slot = slot_of(text);
        if let Some(label) = self.recent.get(slot)
            && label.as_str() == text
        {
            return label.copy();
        }
        let label = Label::new(self.alloc, text)?;
        if slot < self.recent.len() {
            self.recent[slot] = label.copy()?;
        }
        Ok(label)
    }
}
