//! The lines of a day are answered as they come.

ghost use Rattle.std.specs.Prelude.{◌≡◌, ◌↔◌, ◌≤◌, true, false, IfErr, IsErrAnd, OnErr, OnOk};
ghost use Rattle.live_day.specs.Faults.{IsDayFault, IsOfLog};
ghost use Rattle.live_day.specs.Sessions.{IsDayRun};
ghost use Rattle.live_day.specs.Shows.{KeepsShown};
ghost use Rattle.live_day.specs.Stops.{HasLogOf, IsDayStopped};
ghost use Rattle.live_day.specs.Typing.{IsAllTyped, CanReadNoMore, HasTyped, HasTypedFirst};

use crate::answering::obey_lines;
use crate::day::Day;
use crate::keyboard::Keyboard;
use crate::run_fault::RunFault;
use crate::screen::Screen;
use crate::typing::{Then, read_group};
use disk_in_place::DiskInPlace;
use std::alloc::Global;

/// Answers the lines of a keyboard as they come, up to QUIT or to their end. The first station has the keyboard, until a line
/// STATION n gives it to another. Lines that are there together are put to the log as one group, and are answered after it.
///
/// Whatever crashes meanwhile, nothing that was shown is lost: each line that was shown stands in the journal, and a crash at any
/// moment since leaves a log that has it. After a failure the log stands, and the next start goes on with it.
pub fn run_day<D: DiskInPlace + Drop, S: Screen<D>, K: Keyboard>(
    alloc: Global,
    day: &mut Day<D>,
    keyboard: &mut K,
    screen: &mut S,
) -> Result<(), RunFault>
    requires takes { day.old.takes ≡ true }
    requires some { 1 ≤ day.old.history.opened.stations }
    // Each line that was typed is obeyed by its meaning, in order, and what is shown is what these are answered, in order.
    ensures obeyed { OnOk result (IsDayRun (IsAllTyped (K.has_ended keyboard.new) (K.text_left keyboard.old) (K.text_left keyboard.new))
        (K.typed keyboard.old) (K.typed keyboard.new) day.old.history day.new.history (S.shown screen.old) (S.shown screen.new)) }
    // These lines are the first of the text, in order; what stands after them is left.
    ensures read { OnOk result (HasTyped (K.text_left keyboard.old) (K.text_left keyboard.new) (K.typed keyboard.old) (K.typed keyboard.new)) }
    // However it ends, all that was typed is the first lines of the text.
    ensures typed { HasTypedFirst (K.text_left keyboard.old) (K.typed keyboard.old) (K.typed keyboard.new) }
    // Where it is stopped, the lines before were obeyed, in order, and answered; of one group more the first may be obeyed, and of their answers
    // the first may be shown. A crash now leaves a log of the journal's first entries, among them all of the lines before.
    ensures stopped_at { OnErr result (IsDayStopped (HasLogOf D.meaning day.new) (K.typed keyboard.old) (K.typed keyboard.new)
        day.old.history day.new.history (S.shown screen.old) (S.shown screen.new)) }
    ensures takes { OnOk result (day.new.takes ≡ true) }
    // The day takes no more lines where one was performed whose entry may not be in the log, and only then this is said.
    ensures stopped { IsErrAnd result IsOfLog ↔ (day.new.takes ≡ false) }
    // It is said why: the log is called too long only where it is, the screen or the keyboard to have failed only where it has.
    ensures fault { IfErr result (IsDayFault D.meaning (S.has_failed screen.new)
        (CanReadNoMore (K.has_failed keyboard.new) (K.typed keyboard.new)) day.new.history) }
    // Nothing that was shown is lost, and a crash at any moment leaves a log of the journal's first entries.
    ensures kept { KeepsShown D.meaning day.old day.new (S.shown screen.old) (S.shown screen.new) }
{
    // For contracts alone: the journal is on the disk.
    let _ = day.station_count();
    let mut station = 1;
    'groups: for _ in 0..u64::MAX {
        let group = read_group(alloc, keyboard, station);
        station = obey_lines(day, screen, station, group.lines.as_slice())?;
        match group.then {
            Then::More => {}
            Then::Over => return Ok(()),
            Then::Failed(fault) => return Err(RunFault::from(fault)),
        }
    }
    // For contracts alone: the journal is on the disk.
    let _ = day.station_count();
    Err(RunFault::Unread)
}
