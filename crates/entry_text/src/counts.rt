//! How many entries there are.

ghost use Rattle.std.specs.Prelude.{◌≡◌, ◌+◌, ◌<◌, ◌^◌};

/// How many entries are asked for, and how many of them were refused.
#[derive(Clone, Copy, Debug, PartialEq, Eq)]
pub struct EntryCounts {
    /// All that are asked for.
    pub all: u64,
    /// Those of them that were refused.
    pub refused: u64,
}

/// The counts of some entries and of others.
pub(crate) fn both(some: EntryCounts, others: EntryCounts) -> EntryCounts
    requires room { some.all + others.all < 2 ^ 64 }
    requires refused_room { some.refused + others.refused < 2 ^ 64 }
    ensures all { result.all ≡ some.all + others.all }
    ensures refused { result.refused ≡ some.refused + others.refused }
{
    EntryCounts {
        all: some.all + others.all,
        refused: some.refused + others.refused,
    }
}
