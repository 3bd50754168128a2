//! What the program does with the words of its command line.

ghost use Rattle.std.specs.Prelude.{◌≡◌, ◌⊎◌, Ok, IfErr, IfOk, IsErrOf, OnOk, map};
ghost use Rattle.live_day.specs.Faults.{IsDayFault};
ghost use Rattle.live_day.specs.Typing.{CanReadNoMore, HasTyped, HasTypedFirst, IsAllTyped};
ghost use Rattle.live_program.specs.Failures.{IsOptionsFailure, IsWhyUnlived};
ghost use Rattle.live_program.specs.Lives.{IsAskedLife, IsLifeOver, IsUnlived};
ghost use Rattle.live_program.specs.Marks.{AreMarked, AskForMarks};
ghost use Rattle.live_program.specs.OtherDays.{AskForNoOtherDay, AskForOtherDay, HasDayElsewhere, HasNoOtherDay};
ghost use Rattle.live_program.specs.Sayings.{HasSaidAtStart, HasSaidFor};

use crate::failure::LiveFailure;
use crate::life::live_in_place;
use crate::lived::Lived;
use crate::options::{Options, read_options};
use crate::places::Places;
use folders::Source;
use live_day::{Keyboard, Screen};
use program_frame::{Ending, Failure, FolderFault};
use std::alloc::Global;
use std::convert::AsStr;
use std::io::Write;

/// The program's name, as it begins what is printed.
pub const PROGRAM: &str = "station_prompt";

// Lives the day of a command line in its folder.
#[tactic(auto, using(crate::proofs::SayingLaws::silent_start, live_day::proofs::StoppedLaws::untyped))]
fn live_options<Y: Places, S: Source, K: Keyboard, C: Screen<Y::Disk>, E: Write>(
    alloc: Global,
    places: &Y,
    options: &Options<'_>,
    source: &mut S,
    keyboard: &mut K,
    screen: &mut C,
    err: &mut E,
) -> Result<Lived, Failure<LiveFailure>>
    ensures life { IsLifeOver Y.Disk.meaning (Y.opens places.now options.now.out.now)
        (IsAllTyped (K.has_ended keyboard.new) (K.text_left keyboard.old) (K.text_left keyboard.new)) (K.typed keyboard.old) (K.typed keyboard.new)
        (S.files source.old) options.now (C.shown screen.old) (C.shown screen.new) result }
    ensures read { OnOk result (HasTyped (K.text_left keyboard.old) (K.text_left keyboard.new) (K.typed keyboard.old) (K.typed keyboard.new)) }
    ensures typed { HasTypedFirst (K.text_left keyboard.old) (K.typed keyboard.old) (K.typed keyboard.new) }
    ensures fault { IfErr result (IsOptionsFailure Y.Disk.meaning (Y.opens places.now options.now.out.now) (IsDayFault Y.Disk.meaning (C.has_failed screen.new)
        (CanReadNoMore (K.has_failed keyboard.new) (K.typed keyboard.new))) (S.files source.old) options.now) }
    ensures others { OnOk result (HasNoOtherDay (Y.answers places.now) (Y.lies places.now) (S.files source.old) options.now) }
    ensures open_day { IsErrOf result (Failure.Folder FolderFault.DayOpen)
        → HasDayElsewhere Y.Disk.meaning (Y.opens places.now) (Y.answers places.now) (Y.lies places.now) (S.files source.old) options.now }
    ensures marked { (C.shown screen.new ≡ C.shown screen.old)
        ⊎ AreMarked Y.Disk.meaning (Y.answers places.now) (Y.lies places.now) (Y.opens places.now) (Y.names_log places.now) (S.files source.old) options.now }
    ensures said { HasSaidAtStart (S.files source.old) options.now (E.contents err.old) (E.contents err.new) }
    ensures kept { S.files source.new ≡ S.files source.old }
{
    match places.open(alloc, options.out)? {
        Some(disk) => live_in_place(
            alloc, options, source, places, disk, keyboard, screen, err,
        ).ended,
        None => Err(Failure::Folder(FolderFault::Unopened)),
    }
}

/// Lives the day that the words of a command line ask for, of which the first is the program's name. The setup's files are read from the
/// source; the log and the new files lie in the folder that the words name, which no other run has meanwhile.
#[tactic(auto, using(crate::proofs::SayingLaws::silent_for, crate::proofs::SayingLaws::said_for, live_day::proofs::StoppedLaws::untyped))]
pub fn run_program<Y: Places, S: Source, K: Keyboard, C: Screen<Y::Disk>, E: Write, T: AsStr>(
    alloc: Global,
    places: &Y,
    source: &mut S,
    keyboard: &mut K,
    screen: &mut C,
    err: &mut E,
    words: &[T],
) -> Result<Lived, Ending<Failure<LiveFailure>>>
    ensures lived { IfOk result (λ lived. IsAskedLife Y.Disk.meaning (Y.opens places.now) (S.files source.old) (map T.text words.entry.now)
        (IsAllTyped (K.has_ended keyboard.new) (K.text_left keyboard.old) (K.text_left keyboard.new)) (K.typed keyboard.old) (K.typed keyboard.new)
        (C.shown screen.old) (C.shown screen.new) (Ok lived)) }
    ensures unlived { IfErr result (IsUnlived Y.Disk.meaning (Y.opens places.now) (S.files source.old) (map T.text words.entry.now)
        (IsAllTyped (K.has_ended keyboard.new) (K.text_left keyboard.old) (K.text_left keyboard.new)) (K.typed keyboard.old) (K.typed keyboard.new)
        (C.shown screen.old) (C.shown screen.new)) }
    // The lines that were obeyed are the first of the text, in order; what stands after them is left.
    ensures read { OnOk result (HasTyped (K.text_left keyboard.old) (K.text_left keyboard.new) (K.typed keyboard.old) (K.typed keyboard.new)) }
    // All that were typed are the first of the text too, however it ends.
    ensures typed { HasTypedFirst (K.text_left keyboard.old) (K.typed keyboard.old) (K.typed keyboard.new) }
    // It is said why: the words are not taken, the date is bad, or what they ask for has failed for this.
    ensures fault { IfErr result (IsWhyUnlived Y.Disk.meaning (Y.opens places.now) (IsDayFault Y.Disk.meaning (C.has_failed screen.new)
        (CanReadNoMore (K.has_failed keyboard.new) (K.typed keyboard.new))) (S.files source.old) (map T.text words.entry.now)) }
    // A day is lived only where no other is open in a folder from which it reads, and that one is open is said only where it is.
    ensures others { OnOk result (AskForNoOtherDay (Y.answers places.now) (Y.lies places.now) (S.files source.old) (map T.text words.entry.now)) }
    ensures open_day { IsErrOf result (Ending.Failed (Failure.Folder FolderFault.DayOpen))
        → AskForOtherDay Y.Disk.meaning (Y.opens places.now) (Y.answers places.now) (Y.lies places.now) (S.files source.old) (map T.text words.entry.now) }
    // Before the first answer each folder from which the day reads has its mark, but for the one of its log.
    ensures marked { (C.shown screen.new ≡ C.shown screen.old)
        ⊎ AskForMarks Y.Disk.meaning (Y.opens places.now) (Y.names_log places.now) (Y.answers places.now) (Y.lies places.now) (S.files source.old) (map T.text words.entry.now) }
    // The error stream only grows, by what there is to say of the setup and the log at the start.
    ensures said { HasSaidFor (S.files source.old) (map T.text words.entry.now) (E.contents err.old) (E.contents err.new) }
    ensures kept { S.files source.new ≡ S.files source.old }
{
    let options = read_options(alloc, words)?;
    Ok(live_options(alloc, places, &options, source, keyboard, screen, err)?)
}
