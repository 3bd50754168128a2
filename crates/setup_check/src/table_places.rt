//! Where the tables of a setup stand among its entries.

ghost use Rattle.std.specs.Prelude.{◌≡◌, [], ◌∷◌, ◌++◌, List, length, OnOk};
ghost use Rattle.station_lines.specs.declared.setup.entry.SetupEntry.{SetupEntry as Entry};
ghost use Rattle.setup_check.specs.Findings.{first_table};
ghost use Rattle.setup_check.specs.TablePlaces.{ArePlacesIn, HasPlace};

use byte_io::Bytes;
use indexmap::IndexMap;
use station_lines::SetupEntry;
use std::alloc::{AllocError, Global};

/// Where the first table of each name stands among the entries of a setup, from 0.
#[derive(Drop)]
pub(crate) struct TablePlaces {
    places: IndexMap<Vec<u8>, usize>,
}

impl TablePlaces {
    /// Those of no entries. Takes no memory.
    pub(crate) fn new(alloc: Global) -> TablePlaces
        ensures value { ArePlacesIn result [] }
    {
        TablePlaces {
            places: IndexMap::new(alloc),
        }
    }

    /// Where the first table of a name stands, in the same time however many tables there are. Takes no memory.
    pub(crate) fn place(&self, name: &Bytes) -> Option<usize>
        ensures value { (entries : List Entry) → ArePlacesIn self.now entries → result ≡ first_table name.now entries }
    {
        self.places.get(name.as_slice()).copied()
    }

    // Adds where a table of a name stands, unless one of the name is known.
    fn add_name(&mut self, alloc: Global, name: &Bytes, place: usize) -> Result<(), AllocError>
        ensures added { OnOk result (HasPlace self.old name.now place self.new) }
    {
        if self.places.contains_key(name.as_slice()) {
            return Ok(());
        }
        let copy = Vec::from_slice(alloc, name.as_slice())?;
        self.places.insert(copy, place)?;
        Ok(())
    }

    /// Adds the next entry of the setup. An error where memory is refused.
    pub(crate) fn add(
        &mut self,
        alloc: Global,
        entry: &SetupEntry,
        place: usize,
    ) -> Result<(), AllocError>
        ensures added { (entries : List Entry) → place ≡ length entries → ArePlacesIn self.old entries
            → OnOk result (ArePlacesIn self.new (entries ++ entry.now ∷ [])) }
    {
        match entry {
            SetupEntry::Table { name, .. } => self.add_name(alloc, name, place),
            SetupEntry::Index { .. } => Ok(()),
            SetupEntry::Station { .. } => Ok(()),
        }
    }
}
