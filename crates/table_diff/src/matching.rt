//! Records of two tables that are matched.

ghost use Rattle.std.specs.Prelude.{◌≡◌, ◌<◌, length, slice_index_or};
ghost use Rattle.table_diff.specs.Changes.{in_both};
ghost use Rattle.table_diff.specs.Matching.{matches_in, match_of_number as match_at_number};

/// The numbers of a record that both tables have.
#[derive(Clone, Copy, Debug)]
pub(crate) struct RecordNumbers {
    /// Its number in the old table.
    pub old_number: u32,
    /// Its number in the new one.
    pub new_number: u32,
}

impl RecordNumbers {
    /// Those of a record that has one number in both tables.
    pub(crate) fn in_both(number: u32) -> RecordNumbers
        ensures value { result ≡ in_both number }
    {
        RecordNumbers {
            old_number: number,
            new_number: number,
        }
    }
}

/// A record of two tables.
#[derive(Clone, Copy, Debug)]
pub(crate) enum Match {
    /// Both tables have it.
    Both(RecordNumbers),
    /// The old table alone has it, with this number.
    Old(u32),
    /// The new table alone has it, with this number.
    New(u32),
}

// The record of a number, which one of two tables has at least, by how many records they have.
fn match_of_number(old_count: u32, new_count: u32, number: u32) -> Match
    ensures value { result ≡ match_at_number old_count new_count number }
{
    if number > new_count {
        return Match::Old(number);
    }
    if number > old_count {
        return Match::New(number);
    }
    Match::Both(RecordNumbers::in_both(number))
}

/// The records of two tables, each once.
#[derive(Clone, Copy)]
pub(crate) enum Matches<'a> {
    /// By their numbers, of tables with so many old and so many new records.
    ByNumber(u32, u32),
    /// As they stand in a list.
    Listed(&'a [Match]),
}

impl Matches<'_> {
    /// How many they are.
    pub(crate) fn len(self) -> usize
        ensures count { result ≡ length (matches_in self.entry) }
    {
        match self {
            Matches::ByNumber(old_count, new_count) => old_count.max(new_count) as usize,
            Matches::Listed(matches) => matches.len(),
        }
    }

    /// The one at a place, from 0.
    pub(crate) fn at(self, place: usize) -> Match
        requires place { place < length (matches_in self) }
        ensures value { result ≡ slice_index_or (matches_in self.entry) place result }
    {
        match self {
            Matches::ByNumber(old_count, new_count) => {
                // For contracts alone: the number fits.
                let _most = old_count.max(new_count);
                match_of_number(old_count, new_count, place as u32 + 1)
            }
            Matches::Listed(matches) => matches[place],
        }
    }
}
