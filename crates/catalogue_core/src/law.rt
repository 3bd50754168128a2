//! What a lock is for, and what becomes of an update.

ghost use Rattle.std.specs.Prelude.{ℕ, List};
ghost use Rattle.catalogue_core.specs.declared.command.Command.{Command};
ghost use Rattle.catalogue_core.specs.declared.entry.Entry.{Entry};
ghost use Rattle.catalogue_core.specs.Replay.{Opened};
ghost use Rattle.catalogue_core.specs.State.{State, HasStation, IsState};
ghost use Rattle.catalogue_core.specs.Stays.{LeavesTheLock, LeavesTheRecord, LeavesTheTable, MeetsNoExclusiveUse, StaysWhileLocked, TakesTheLock};
ghost use Rattle.catalogue_core.specs.Updates.{KeepsTheLast, KeepsWhatWas, StaysUntilDeleted};

/// A law: a station whose RLOCK() or FLOCK() is answered .T. has locked what it asked for; and a record that a station has locked, or
/// whose whole table it has locked, stays as it is, its mark, its cells and its memos, in every step of another station, and stays
/// locked. So it stays over a legal history until the station itself has an entry. A whole table that a station has locked, or has
/// open exclusively, stays too: no other station appends to it, packs it, or changes a record in it. No other station has a table
/// open exclusively in which a station has a lock.
pub fn a_locked_record_stays()
    ensures taken { (s : State) (station : ℕ) (command : Command) → TakesTheLock s station command }
    ensures record { (s : State) (other : ℕ) (command : Command) → IsState s → HasStation s other → LeavesTheRecord s other command }
    ensures lock { (s : State) (other : ℕ) (command : Command) → IsState s → HasStation s other → LeavesTheLock s other command }
    ensures table { (s : State) (other : ℕ) (command : Command) → IsState s → HasStation s other → LeavesTheTable s other command }
    ensures exclusive { (s : State) (other : ℕ) → IsState s → HasStation s other → MeetsNoExclusiveUse s other }
    ensures history { (opened : Opened) (before between : List Entry) → StaysWhileLocked opened before between }
{}

/// A law: in a legal history each cell is at the end what was put there last: by a REPLACE, as the value is stored, by a MEMO, or by
/// the APPEND BLANK that made the record, where it was answered OK; unless the record has gone with a PACK, which takes the marked
/// records and gives the others new numbers. And a cell into which no entry put another stays what it was, and a record that no entry
/// marked as deleted has not gone.
pub fn no_update_is_lost()
    ensures last { (opened : Opened) (before later : List Entry) (e : Entry) → KeepsTheLast opened before e later }
    ensures rest { (opened : Opened) (before later : List Entry) → KeepsWhatWas opened before later }
    ensures gone { (opened : Opened) (before later : List Entry) → StaysUntilDeleted opened before later }
{}
