//! Lists of numbers, which name rows or nodes by their places, and lists of such lists.

ghost use Rattle.std.specs.Prelude.{◌≡◌, [], ◌∷◌, ◌++◌, length, nat_eq, OnOk, OnErr};
ghost use Rattle.nm_base.specs.Numbers.{is_among};

use crate::fault::NoMemory;
use std::alloc::Global;
use std::marker::Model;

/// Numbers, in the order that they were put in. They are seen as their list.
#[derive(Drop)]
pub struct Numbers {
    all: Vec<usize>,
}

impl Model for Numbers {
    ghost use Rattle.std.specs.Prelude.{List, ℕ};

    ghost Value = { List ℕ };

    ghost view = { λ n. n.all.items };
}

impl Numbers {
    /// No numbers. It takes no memory.
    pub fn new(alloc: Global) -> Numbers
        ensures { result ≡ [] }
    {
        Numbers {
            all: Vec::new(alloc),
        }
    }

    /// Puts a number at the end. The list stays as it was where memory runs out.
    pub fn push(&mut self, number: usize) -> Result<(), NoMemory>
        ensures pushed { OnOk result (self.new ≡ self.old ++ number ∷ []) }
        ensures unchanged { OnErr result (self.new ≡ self.old) }
    {
        self.all.push(number)?;
        Ok(())
    }

    /// How many numbers there are.
    pub fn len(&self) -> usize
        ensures { result ≡ length self.now }
    {
        self.all.len()
    }

    /// Whether there are no numbers.
    pub fn is_empty(&self) -> bool
        ensures { result ≡ nat_eq (length self.now) 0 }
    {
        self.all.is_empty()
    }

    /// The numbers.
    pub fn as_slice(&self) -> &[usize]
        ensures { result.now ≡ self.now }
    {
        self.all.as_slice()
    }

    /// Whether a number is among them. It takes time as there are numbers.
    #[tactic(auto, unfolding(crate::specs::Numbers::is_among))]
    pub fn contains(&self, number: usize) -> bool
        ensures { result ≡ is_among number self.now }
    {
        self.all.iter().any(|other| *other == number)
    }
}

/// Lists of numbers, in the order that they were put in. They are seen as the list of these lists.
#[derive(Drop)]
pub struct Groups {
    all: Vec<Numbers>,
}

impl Model for Groups {
    ghost use Rattle.std.specs.Prelude.{List, ℕ};

    ghost Value = { List (List ℕ) };

    ghost view = { λ g. g.all.items };
}

impl Groups {
    /// No lists. It takes no memory.
    pub fn new(alloc: Global) -> Groups
        ensures { result ≡ [] }
    {
        Groups {
            all: Vec::new(alloc),
        }
    }

    /// Puts a list at the end. The lists stay as they were where memory runs out.
    pub fn push(&mut self, numbers: Numbers) -> Result<(), NoMemory>
        ensures pushed { OnOk result (self.new ≡ self.old ++ numbers ∷ []) }
        ensures unchanged { OnErr result (self.new ≡ self.old) }
    {
        self.all.push(numbers)?;
        Ok(())
    }

    /// The lists.
    pub fn as_slice(&self) -> &[Numbers]
        ensures { result.now ≡ self.now }
    {
        self.all.as_slice()
    }
}
