//! What a box query finds: a list of triangle numbers, and the work that finding them is.
//! Contracts see the list as a list; it is made from a `Vec` and lent without taking memory.

ghost use Rattle.std.specs.Prelude.{◌≡◌};

use std::marker::Model;

/// Triangle numbers, from 1 on. Contracts see it as their list.
#[derive(Debug, Drop)]
pub struct Numbers {
    items: Vec<u32>,
}

impl Model for Numbers {
    ghost use Rattle.std.specs.Prelude.{ℕ, List};

    ghost Value = { List ℕ };

    ghost view = { λ numbers. numbers.items.items };
}

impl Numbers {
    /// The list of these numbers.
    pub fn new(items: Vec<u32>) -> Numbers
        ensures { result ≡ items.items }
    {
        Numbers { items }
    }

    /// Lends the numbers.
    pub fn items(&self) -> &[u32]
        ensures { result.now ≡ self.now }
    {
        self.items.as_slice()
    }
}

/// The answer to a box query.
#[derive(Debug, Drop)]
pub struct Found {
    /// The numbers of the triangles whose boxes meet the queried box, rising.
    pub numbers: Numbers,
    /// How many boxes had to be compared with it.
    pub work: u64,
}
