//! A counter that takes no bytes: code counts with it what its clauses bound.

ghost use Rattle.std.specs.Prelude.{◌≡◌, ◌+◌, ◌<◌, ℕ};

use std::marker::Model;
use std::sync::ledger::{Book, Ledger, Share};

/// How many steps were taken. It takes no bytes, and only `tick` changes it.
#[derive(Drop)]
pub struct Steps<L: Ledger> {
    book: Book<L>,
    share: Share<L>,
}

impl<L: Ledger> Model for Steps<L> {
    ghost Value = { ℕ };

    ghost view = { λ s. s.book.total };

    ghost invariant = { λ s. 0 < s.share.parts };
}

impl<L: Ledger> Steps<L> {
    /// A counter of a book and of a share that has some part of its ledger: it begins at the book's total.
    pub fn new(book: Book<L>, share: Share<L>) -> Steps<L>
        requires { 0 < share.parts }
        ensures { result ≡ book.total }
    {
        Steps { book, share }
    }

    /// One step more.
    pub fn tick(&mut self)
        ensures { self.new ≡ self.old + 1 }
    {
        self.book.add(&mut self.share, 1);
    }
}
