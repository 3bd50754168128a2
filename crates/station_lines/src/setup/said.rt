//! What a line of a setup says, as it stands in the line.

ghost use Rattle.std.specs.Prelude.{◌≡◌, ℕ, List, Option, IfOk, is_some, option_map};
ghost use Rattle.station_lines.specs.Setup.{AreWords, short_name as name_of};
ghost use Rattle.station_lines.specs.SetupReading.{entry_of, entry_in, index_in, only_word as only, station_entry, table_in};

use crate::script::{in_capitals, is_name};
use crate::setup::entry::SetupEntry;
use crate::setup::words::cut_first;
use byte_io::Bytes;
use std::alloc::{AllocError, Global};

/// The most bytes of the name of a table or an index.
pub(crate) const MAX_NAME_BYTES: usize = 8;

/// What a line of a setup says. Names stand in any case, as in the line.
#[derive(Clone, Copy)]
pub(crate) enum Said<'a> {
    /// A table, and the files that it is read from.
    Table {
        /// The table's name.
        name: &'a [u8],
        /// The path of its DBF file.
        dbf: &'a [u8],
        /// The path of its DBT file, where one is named.
        dbt: Option<&'a [u8]>,
    },
    /// An index of a table.
    Index {
        /// The table's name.
        table: &'a [u8],
        /// The index's name.
        name: &'a [u8],
        /// The path of its NDX file.
        ndx: &'a [u8],
    },
    /// A station.
    Station {
        /// The path of its script.
        script: &'a [u8],
    },
}

/// Whether a word is a name: 1 to 8 letters, digits or `_`, a letter first. Takes no memory.
pub(crate) fn is_short_name(word: &[u8]) -> bool
    ensures value { result ≡ is_some (name_of word.now) }
{
    word.len() <= MAX_NAME_BYTES && is_name(word)
}

// The word of a line that has no other.
fn only_word(line: &[u8]) -> Option<&[u8]>
    ensures value { (words : List (List ℕ)) → AreWords words line.now → option_map (λ word. word.now) result ≡ only words }
{
    let (word, rest) = cut_first(line)?;
    match cut_first(rest) {
        Some(_) => None,
        None => Some(word),
    }
}

// What the words after TABLE say.
fn said_of_table(words: &[u8]) -> Option<Said<'_>>
    ensures value { (all : List (List ℕ)) → AreWords all words.now → option_map entry_of result ≡ table_in all }
{
    let (name, rest) = cut_first(words)?;
    let (dbf, rest) = cut_first(rest)?;
    if !is_short_name(name) {
        return None;
    }
    if cut_first(rest).is_none() {
        return Some(Said::Table {
            name,
            dbf,
            dbt: None,
        });
    }
    let dbt = only_word(rest)?;
    Some(Said::Table {
        name,
        dbf,
        dbt: Some(dbt),
    })
}

// What the words after INDEX say.
fn said_of_index(words: &[u8]) -> Option<Said<'_>>
    ensures value { (all : List (List ℕ)) → AreWords all words.now → option_map entry_of result ≡ index_in all }
{
    let (table, rest) = cut_first(words)?;
    let (name, rest) = cut_first(rest)?;
    let ndx = only_word(rest)?;
    if !is_short_name(table) || !is_short_name(name) {
        return None;
    }
    Some(Said::Index { table, name, ndx })
}

// What the words after STATION say.
fn said_of_station(words: &[u8]) -> Option<Said<'_>>
    ensures value { (all : List (List ℕ)) → AreWords all words.now → option_map entry_of result ≡ station_entry all }
{
    let script = only_word(words)?;
    Some(Said::Station { script })
}

/// What a line says, where it says anything. Takes no memory.
pub(crate) fn said_of(line: &[u8]) -> Option<Said<'_>>
    ensures value { (words : List (List ℕ)) → AreWords words line.now → option_map entry_of result ≡ entry_in words }
{
    let (key, words) = cut_first(line)?;
    if key == b"TABLE".as_slice() {
        said_of_table(words)
    } else if key == b"INDEX".as_slice() {
        said_of_index(words)
    } else if key == b"STATION".as_slice() {
        said_of_station(words)
    } else {
        None
    }
}

// A copy of a path that may be missing.
fn copy_path(alloc: Global, path: Option<&[u8]>) -> Result<Option<Bytes>, AllocError>
    ensures value { IfOk result (λ copy. copy ≡ option_map (λ p. p.now) path.entry) }
{
    match path {
        Some(path) => Ok(Some(Bytes::from_slice(alloc, path)?)),
        None => Ok(None),
    }
}

impl Said<'_> {
    /// The entry that is said, its names in capitals. An error where memory is refused.
    pub(crate) fn to_entry(self, alloc: Global) -> Result<SetupEntry, AllocError>
        ensures value { IfOk result (λ entry. entry ≡ entry_of self.entry) }
    {
        match self {
            Said::Table { name, dbf, dbt } => {
                let name = in_capitals(alloc, name)?;
                let dbf = Bytes::from_slice(alloc, dbf)?;
                let dbt = copy_path(alloc, dbt)?;
                Ok(SetupEntry::Table { name, dbf, dbt })
            }
            Said::Index { table, name, ndx } => {
                let table = in_capitals(alloc, table)?;
                let name = in_capitals(alloc, name)?;
                let ndx = Bytes::from_slice(alloc, ndx)?;
                Ok(SetupEntry::Index { table, name, ndx })
            }
            Said::Station { script } => {
                let script = Bytes::from_slice(alloc, script)?;
                Ok(SetupEntry::Station { script })
            }
        }
    }
}
