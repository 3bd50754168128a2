//! A typed line is obeyed: its answer is shown, where it is one of a script.

ghost use Rattle.std.specs.Prelude.{◌≡◌, ◌↔◌, ◌≤◌, ◌<◌, List, length, take, true, false, IfOk, IfErr, IsErrAnd, OnErr, OnOk};
ghost use Rattle.std.specs.List.{AllByRecursion};
ghost use Rattle.live_day.specs.Faults.{IsDayFault, IsOfLog};
ghost use Rattle.live_day.specs.Groups.{all_told_by, IsFrontObeyed, IsNoQuit};
ghost use Rattle.live_day.specs.Sessions.{Told, AreObeyed, notice_told, IsWishTyped, TellsMore};
ghost use Rattle.live_day.specs.Shows.{KeepsShown, MayBeSaid};
ghost use Rattle.live_day.specs.Stops.{AreCutShort, AreStopped, HasLogOf, TellsFront};

use crate::day::Day;
use crate::group::Front;
use crate::keyboard::Typed;
use crate::notice::{Notice, notice_line};
use crate::run_fault::RunFault;
use crate::screen::Screen;
use crate::wish::{Wish, wish_of};
use disk_in_place::DiskInPlace;

// Tells a station that nothing was performed.
fn notify<D: DiskInPlace + Drop, S: Screen<D>>(
    day: &Day<D>,
    screen: &mut S,
    station: u32,
    notice: Notice,
) -> Result<(), RunFault>
    requires takes { day.now.takes ≡ true }
    requires said { MayBeSaid day.now.history notice }
    ensures told { OnOk result (TellsMore (S.shown screen.old) (S.shown screen.new) (notice_told station day.now.history notice)) }
    ensures cut { OnErr result (TellsFront (S.shown screen.old) (S.shown screen.new) (notice_told station day.now.history notice)) }
    ensures fault { IfErr result (λ fault. fault ≡ RunFault.Screen) }
    ensures failed { OnErr result (S.has_failed screen.new) }
    ensures kept { KeepsShown D.meaning day.now day.now (S.shown screen.old) (S.shown screen.new) }
{
    // For contracts alone: the journal is on the disk.
    let _ = day.station_count();
    screen.show(day, station, notice_line(notice))?;
    Ok(())
}

/// What a typed line asks for: one that is too long or was cut, nothing of the keyboard.
pub(crate) fn wish_typed(typed: &Typed) -> Wish
    ensures value { IsWishTyped typed.now result }
{
    match typed {
        Typed::Text(line) => wish_of(line.as_slice()),
        Typed::TooLong => Wish::Perform,
        Typed::Cut => Wish::Perform,
    }
}

// Obeys the first of these lines as one group, and shows their answers.
fn obey_front<D: DiskInPlace + Drop, S: Screen<D>>(
    day: &mut Day<D>,
    screen: &mut S,
    station: u32,
    lines: &[Typed],
) -> Result<Front, RunFault>
    requires takes { day.old.takes ≡ true }
    requires counted { 1 ≤ station }
    requires inside { station ≤ day.old.history.opened.stations }
    requires no_quit { AllByRecursion IsNoQuit lines.now }
    ensures obeyed { IfOk result (λ front. IsFrontObeyed station lines.now day.old.history front day.new.history) }
    ensures told { IfOk result (λ front. TellsMore (S.shown screen.old) (S.shown screen.new) (all_told_by front.answers.items)) }
    ensures cut { OnErr result (AreCutShort station lines.now day.old.history day.new.history (S.shown screen.old) (S.shown screen.new)) }
    ensures counted { IfOk result (λ front. 1 ≤ front.station) }
    ensures inside { IfOk result (λ front. front.station ≤ day.new.history.opened.stations) }
    ensures takes { OnOk result (day.new.takes ≡ true) }
    ensures stopped { IsErrAnd result IsOfLog ↔ (day.new.takes ≡ false) }
    ensures fault { IfErr result (IsDayFault D.meaning (S.has_failed screen.new) ⊥ day.new.history) }
    ensures kept { KeepsShown D.meaning day.old day.new (S.shown screen.old) (S.shown screen.new) }
{
    let front = day.lines(station, lines)?;
    // For contracts alone: the journal is on the disk.
    let _ = day.station_count();
    screen.show_all(day, front.answers.as_slice())?;
    Ok(front)
}

// Obeys the first of these lines, one at least: as one group, or, where nothing is performed of the first, that is told.
fn obey_some<D: DiskInPlace + Drop, S: Screen<D>>(
    day: &mut Day<D>,
    screen: &mut S,
    station: u32,
    lines: &[Typed],
) -> Result<(usize, u32), RunFault>
    requires takes { day.old.takes ≡ true }
    requires counted { 1 ≤ station }
    requires inside { station ≤ day.old.history.opened.stations }
    requires no_quit { AllByRecursion IsNoQuit lines.now }
    ensures some { IfOk result (λ done. 0 < length lines.now → 0 < done.0) }
    ensures within { IfOk result (λ done. done.0 ≤ length lines.now) }
    ensures obeyed { IfOk result (λ done. (told : List Told) × TellsMore (S.shown screen.old) (S.shown screen.new) told
        × AreObeyed (take done.0 lines.now) station day.old.history done.1 day.new.history told) }
    ensures cut { OnErr result (AreCutShort station lines.now day.old.history day.new.history (S.shown screen.old) (S.shown screen.new)) }
    ensures counted { IfOk result (λ done. 1 ≤ done.1) }
    ensures inside { IfOk result (λ done. done.1 ≤ day.new.history.opened.stations) }
    ensures takes { OnOk result (day.new.takes ≡ true) }
    ensures stopped { IsErrAnd result IsOfLog ↔ (day.new.takes ≡ false) }
    ensures fault { IfErr result (IsDayFault D.meaning (S.has_failed screen.new) ⊥ day.new.history) }
    ensures kept { KeepsShown D.meaning day.old day.new (S.shown screen.old) (S.shown screen.new) }
{
    let front = obey_front(day, screen, station, lines)?;
    let Some(notice) = front.stopped else {
        return Ok((front.count, front.station));
    };
    if front.count > 0 {
        return Ok((front.count, front.station));
    }
    notify(day, screen, front.station, notice)?;
    Ok((1, front.station))
}

/// Obeys lines that are there together, none of them QUIT, and answers which station has the keyboard then.
pub(crate) fn obey_lines<D: DiskInPlace + Drop, S: Screen<D>>(
    day: &mut Day<D>,
    screen: &mut S,
    station: u32,
    lines: &[Typed],
) -> Result<u32, RunFault>
    requires takes { day.old.takes ≡ true }
    requires counted { 1 ≤ station }
    requires inside { station ≤ day.old.history.opened.stations }
    requires no_quit { AllByRecursion IsNoQuit lines.now }
    ensures obeyed { IfOk result (λ next. (told : List Told) × TellsMore (S.shown screen.old) (S.shown screen.new) told
        × AreObeyed lines.now station day.old.history next day.new.history told) }
    ensures cut { OnErr result (AreStopped (length lines.now) (HasLogOf D.meaning day.new) station lines.now day.old.history day.new.history
        (S.shown screen.old) (S.shown screen.new)) }
    ensures counted { IfOk result (λ next. 1 ≤ next) }
    ensures inside { IfOk result (λ next. next ≤ day.new.history.opened.stations) }
    ensures takes { OnOk result (day.new.takes ≡ true) }
    ensures stopped { IsErrAnd result IsOfLog ↔ (day.new.takes ≡ false) }
    ensures fault { IfErr result (IsDayFault D.meaning (S.has_failed screen.new) ⊥ day.new.history) }
    ensures kept { KeepsShown D.meaning day.old day.new (S.shown screen.old) (S.shown screen.new) }
{
    // For contracts alone: the journal is on the disk.
    let _ = day.station_count();
    let mut seated = station;
    let mut rest = lines;
    'obeying: while !rest.is_empty() {
        let (count, next) = obey_some(day, screen, seated, rest)?;
        let (_, others) = rest.split_at(count);
        seated = next;
        rest = others;
    }
    Ok(seated)
}
