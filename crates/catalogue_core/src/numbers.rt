//! Record numbers as a command lists them.

ghost use Rattle.std.specs.Prelude.{◌≡◌, IfOk};

use std::alloc::{AllocError, Global};
use std::marker::Model;

/// The record numbers that a command lists, in its order and repeated ones too, as they were written: from 0 to
/// 9,999,999,999, whether or not there are such records. Contracts see them as their list.
#[derive(Debug, Drop)]
pub struct Numbers {
    numbers: Vec<u64>,
}

impl Model for Numbers {
    ghost use Rattle.std.specs.Prelude.{List, ℕ};

    ghost Value = { List ℕ };

    ghost view = { λ n. n.numbers.items };
}

impl Numbers {
    /// The numbers of a vector, which is kept as it is. Takes no memory.
    pub fn from_vec(numbers: Vec<u64>) -> Numbers
        ensures value { result ≡ numbers.items }
    {
        Numbers { numbers }
    }

    /// The numbers as a slice.
    pub fn as_slice(&self) -> &[u64]
        ensures value { result.now ≡ self.now }
    {
        self.numbers.as_slice()
    }

    /// The same numbers once more, or an error where memory is refused.
    pub fn copy(&self, alloc: Global) -> Result<Numbers, AllocError>
        ensures value { IfOk result (λ copy. copy ≡ self.now) }
    {
        Ok(Numbers {
            numbers: Vec::from_slice(alloc, self.as_slice())?,
        })
    }
}

impl PartialEq for Numbers {
    ghost use Rattle.std.specs.Prelude.{bytes_eq};
    ghost use Rattle.std.proofs.Common.{rules};
    ghost use Rattle.std.specs.Cmp.Rules.{comparing};

    ghost eq = { bytes_eq };

    ghost laws = { Prim.search (comparing, rules) };

    fn eq(&self, other: &Numbers) -> bool {
        self.as_slice() == other.as_slice()
    }
}

impl Eq for Numbers {
    ghost use Rattle.std.proofs.lemmas.Cmp.{nat_list_eq_equiv};

    ghost laws = { nat_list_eq_equiv };
}
