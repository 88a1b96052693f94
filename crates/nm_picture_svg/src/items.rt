//! A list that clauses see as the list, made of a vector at once.

ghost use Rattle.std.specs.Prelude.{◌≡◌};

use std::marker::Model;

/// A list of values, which clauses see as the list.
#[derive(Drop)]
pub struct Items<T> {
    items: Vec<T>,
}

impl<T> Model for Items<T> {
    ghost use Rattle.std.specs.Prelude.{List};

    ghost Value = { List T };

    ghost view = { λ listed. listed.items.items };
}

impl<T> Items<T> {
    /// The values of a vector. It takes no memory.
    pub fn new(items: Vec<T>) -> Items<T>
        ensures { result ≡ items.items }
    {
        Items { items }
    }

    /// The values in order.
    pub fn as_slice(&self) -> &[T]
        ensures { result.now ≡ self.now }
    {
        self.items.as_slice()
    }
}
