//! What a line of a setup adds.

ghost use Rattle.std.specs.Prelude.{◌≡◌, bytes_eq};
ghost use Rattle.std.specs.List.{list_any};
ghost use Rattle.station_lines.specs.Setup.{is_table_of, may_follow as can_follow};
ghost use Rattle.station_lines.specs.SetupReading.{entry_of};
ghost use Rattle.station_lines.specs.Script.Parts.{capitals};

use crate::setup::said::Said;
use byte_io::Bytes;

/// What a line of a setup says. Names are in capitals, and paths stand as in the line.
#[derive(Debug, PartialEq, Eq, Drop)]
pub enum SetupEntry {
    /// A table, and the files that it is read from.
    Table {
        /// The table's name.
        name: Bytes,
        /// The path of its DBF file.
        dbf: Bytes,
        /// The path of its DBT file, where one is named.
        dbt: Option<Bytes>,
    },
    /// An index of a table that an earlier line names.
    Index {
        /// The table's name.
        table: Bytes,
        /// The index's name.
        name: Bytes,
        /// The path of its NDX file.
        ndx: Bytes,
    },
    /// A station.
    Station {
        /// The path of its script.
        script: Bytes,
    },
}

/// Whether a name is this word in capitals. Takes no memory.
pub(crate) fn is_in_capitals(name: &[u8], word: &[u8]) -> bool
    ensures value { result ≡ bytes_eq name.now (capitals word.now) }
{
    if name.len() != word.len() {
        return false;
    }
    for (letter, byte) in name.iter().zip(word.iter()) {
        if *letter != byte.to_ascii_uppercase() {
            return false;
        }
    }
    true
}

// Whether the entry is a table's of this name, in any case.
fn names_table(entry: &SetupEntry, table: &[u8]) -> bool
    ensures value { result ≡ is_table_of (capitals table.now) entry.now }
{
    match entry {
        SetupEntry::Table { name, .. } => is_in_capitals(name.as_slice(), table),
        _ => false,
    }
}

// Whether one of the entries is a table's of this name, in any case.
fn has_table(entries: &[SetupEntry], table: &[u8]) -> bool
    ensures value { result ≡ list_any (is_table_of (capitals table.now)) entries.now }
{
    entries.iter().any(|entry| names_table(entry, table))
}

/// Whether what is said may stand after the entries: an index stands after its table. Takes no memory.
pub(crate) fn may_follow(entries: &[SetupEntry], said: Said<'_>) -> bool
    ensures value { result ≡ can_follow entries.now (entry_of said.entry) }
{
    match said {
        Said::Index { table, .. } => has_table(entries, table),
        _ => true,
    }
}
