//! The first entry that does not hold is named.

ghost use Rattle.std.specs.Prelude.{List};
ghost use Rattle.catalogue_core.specs.declared.entry.Entry.{Entry};
ghost use Rattle.catalogue_core.specs.Replay.{Opened};
ghost use Rattle.audit.specs.declared.fault.Difference.{Difference as DifferenceValue};
ghost use Rattle.audit.specs.FirstOther.{FailsAtFirstOther, NamesFirstOther};

/// A law: where one of a journal's entries has another answer than its command has at its place, an audit of the journal's text never
/// says that all hold, and, unless memory is refused, it names the first such entry, and no other: its number, its station, its
/// command, its answer, and the answer that its command has there.
pub fn names_the_first_other()
    ensures names { (opened : Opened) (entries : List Entry) (d : DifferenceValue) → NamesFirstOther opened entries d }
    ensures fails { (opened : Opened) (entries : List Entry) (d : DifferenceValue) → FailsAtFirstOther opened entries d }
{}
