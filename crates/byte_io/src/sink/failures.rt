//! How often a sink has failed, for contracts alone.

ghost use Rattle.std.specs.Prelude.{◌≡◌, ◌+◌};

use boxcar::tag::{Names, Tag};
use std::fmt;
use std::marker::Model;

struct OneMore;

impl Names<Tag> for OneMore {
    ghost use Rattle.std.specs.Prelude.{◌∷◌};

    ghost numbers = { λ t. 1 ∷ t.numbers };
}

/// A number of failures that clauses read. It takes no bytes, and so has no greatest number.
#[derive(Drop)]
pub struct Failures {
    counted: Tag,
}

impl Model for Failures {
    ghost use Rattle.std.specs.Prelude.{ℕ, length};

    ghost Value = { ℕ };

    ghost view = { λ f. length f.counted.numbers };
}

impl Failures {
    /// No failure.
    pub fn none() -> Failures
        ensures value { result ≡ 0 }
    {
        Failures {
            counted: Tag::empty(),
        }
    }

    /// One more failure.
    pub fn count(&mut self)
        ensures value { self.new ≡ self.old + 1 }
    {
        let counted = Tag::of::<Tag, OneMore>(&self.counted);
        self.counted = counted;
    }
}

impl fmt::Debug for Failures {
    fn fmt<W: fmt::Write>(&self, f: &mut fmt::Formatter<W>) -> Result<(), fmt::Error> {
        f.write_str("Failures")
    }
}
