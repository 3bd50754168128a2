//! The tables that the lines of a setup name.

ghost use Rattle.std.specs.Prelude.{◌≡◌, ◌≤◌, List, length, OnOk};
ghost use Rattle.catalogue_core.specs.Names.{includes_name};
ghost use Rattle.station_lines.specs.declared.setup.entry.SetupEntry.{SetupEntry as Entry};
ghost use Rattle.station_lines.specs.Script.Parts.{capitals};
ghost use Rattle.station_lines.specs.Setup.{may_follow as can_follow};
ghost use Rattle.station_lines.specs.SetupReading.{entry_of, with_table_name, AreTablesOf, HasShortTable};

use crate::setup::entry::SetupEntry;
use crate::setup::said::{MAX_NAME_BYTES, Said};
use arrayvec::ArrayVec;
use catalogue_core::Names;
use std::alloc::{AllocError, Global};

// A word in capitals, which takes no memory.
fn short_capitals(word: &[u8]) -> ArrayVec<u8, MAX_NAME_BYTES>
    requires short { length word.now ≤ MAX_NAME_BYTES }
    ensures value { result.items ≡ capitals word.now }
{
    let mut name = ArrayVec::new();
    for byte in word {
        name.push(byte.to_ascii_uppercase());
    }
    name
}

// Whether one of the names is this word in capitals.
fn includes_in_capitals(names: &Names, word: &[u8]) -> bool
    requires short { length word.now ≤ MAX_NAME_BYTES }
    ensures value { result ≡ includes_name names.now (capitals word.now) }
{
    names.includes(short_capitals(word).as_slice())
}

/// Whether what is said may stand after entries whose tables have these names: an index stands after its table. Takes no
/// memory, and the same time however many entries there are.
pub(crate) fn may_follow_tables(names: &Names, said: Said<'_>) -> bool
    requires short { HasShortTable said }
    ensures value { (entries : List Entry) → AreTablesOf names.now entries → result ≡ can_follow entries (entry_of said.entry) }
{
    match said {
        Said::Index { table, .. } => includes_in_capitals(names, table),
        _ => true,
    }
}

/// Adds the name of a table's entry to those of the entries before it. An error where memory is refused.
pub(crate) fn add_table(
    alloc: Global,
    names: &mut Names,
    entry: &SetupEntry,
) -> Result<(), AllocError>
    ensures added { OnOk result (names.new ≡ with_table_name names.old entry.now) }
{
    match entry {
        SetupEntry::Table { name, .. } => {
            names.add(alloc, name)?;
            Ok(())
        }
        SetupEntry::Index { .. } | SetupEntry::Station { .. } => Ok(()),
    }
}
