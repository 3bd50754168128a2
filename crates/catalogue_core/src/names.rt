//! Names that are numbered in the order in which they come.

ghost use Rattle.std.specs.Prelude.{◌≡◌, ◌<◌, not, [], length, IfOk, OnOk, OnErr, IfSome};
ghost use Rattle.catalogue_core.specs.Names.{index_named, includes_name, with_name};

use byte_io::Bytes;
use indexmap::IndexSet;
use std::alloc::{AllocError, Global};
use std::marker::Model;

/// Names, no two of them equal, in the order in which they came.
#[derive(Drop)]
pub struct Names {
    names: IndexSet<Vec<u8>>,
}

impl Model for Names {
    ghost use Rattle.std.specs.Prelude.{List, ℕ, map};

    ghost Value = { List (List ℕ) };

    ghost view = { λ n. map (λ v. v.items) n.names.keys };
}

impl Names {
    /// No names. Takes no memory.
    pub fn new(alloc: Global) -> Names
        ensures value { result ≡ [] }
    {
        Names {
            names: IndexSet::new(alloc),
        }
    }

    /// How many names there are.
    pub fn count(&self) -> usize
        ensures value { result ≡ length self.now }
    {
        self.names.len()
    }

    /// The index of a name, from 0, where it is one of the names. Takes no memory.
    pub fn index_of(&self, name: &Bytes) -> Option<usize>
        ensures value { result ≡ index_named self.now name.now }
        ensures inside { IfSome result (λ index. index < length self.now) }
    {
        self.names.get_index_of(name.as_slice())
    }

    /// Whether a name is one of the names. Takes no memory.
    pub fn includes(&self, name: &[u8]) -> bool
        ensures value { result ≡ includes_name self.now name.now }
    {
        self.names.contains(name)
    }

    /// Adds a name after the others, and answers whether it is new. An error where memory is refused, and then
    /// nothing has changed.
    pub fn add(&mut self, alloc: Global, name: &Bytes) -> Result<bool, AllocError>
        ensures value { IfOk result (λ is_new. is_new ≡ not (includes_name self.old name.now)) }
        ensures ok { OnOk result (self.new ≡ with_name self.old name.now) }
        ensures err { OnErr result (self.new ≡ self.old) }
    {
        let copy = Vec::from_slice(alloc, name.as_slice())?;
        Ok(self.names.insert(copy)?)
    }
}
