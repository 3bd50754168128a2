//! Lists of numbers that were pushed, for contracts alone.

ghost use Rattle.std.specs.Prelude.{◌≡◌, ◌++◌, ◌∷◌, [], ℕ, List};

use boxcar::tag::{Names, Tag};
use std::marker::Model;

/// What numbers a value stands for, for contracts alone.
pub trait Numbered {
    // the numbers
    ghost numbered: { Self → List ℕ };
}

#[derive(Drop)]
struct More<'a, X> {
    listed: &'a Tag,
    pushed: &'a X,
}

struct Pushed;

impl<'a, X: Numbered> Names<More<'a, X>> for Pushed {
    ghost use Rattle.std.specs.Prelude.{◌++◌};
    ghost use Rattle.live_program.specs.NumberLists.{marked};

    ghost numbers = { λ m. m.listed.now.numbers ++ marked (X.numbered m.pushed.now) };
}

/// Lists of numbers, in the order in which they were pushed. It takes no memory.
#[derive(Drop)]
pub struct NumberLists {
    listed: Tag,
}

impl Model for NumberLists {
    ghost use Rattle.std.specs.Prelude.{ℕ, List};
    ghost use Rattle.live_program.specs.NumberLists.{lists_in};

    ghost Value = { List (List ℕ) };

    ghost view = { λ l. lists_in l.listed.numbers };
}

impl NumberLists {
    /// None.
    pub fn empty() -> NumberLists
        ensures value { result ≡ [] }
    {
        NumberLists {
            listed: Tag::empty(),
        }
    }

    /// The numbers of a value follow the others.
    pub fn push<X: Numbered>(&mut self, pushed: &X)
        ensures value { self.new ≡ self.old ++ X.numbered pushed.now ∷ [] }
    {
        let listed = &self.listed;
        let listed = Tag::of::<More<'_, X>, Pushed>(&More { listed, pushed });
        self.listed = listed;
    }
}
