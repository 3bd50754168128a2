//! Lines that are there together are performed one after another, before the entries of all are put to the log as one group.

ghost use Rattle.std.specs.Prelude.{◌≡◌, ◌≢◌, ◌≤◌, true, false, List, Ok, None, IfErr, IfOk, IfSome, OnOk, OnErr};
ghost use Rattle.std.specs.List.{AllByRecursion};
ghost use Rattle.live_day.specs.Days.{HasPerformedSince};
ghost use Rattle.live_day.specs.Groups.{HasMade, IsFrontObeyed, IsNoQuit, WaitsToTell};
ghost use Rattle.live_day.specs.Sessions.{Told, IsLineAnswered, IsLineRefused, IsObeyed};
ghost use Rattle.live_day.specs.Stops.{AreFirstObeyed};
ghost use Rattle.live_day.specs.Waiting.{IsWaiting};
ghost use Rattle.live_day.specs.declared.keyboard.Typed.TheVariants.{Cut};

use crate::answering::wish_typed;
use crate::day::Day;
use crate::faults::LineFault;
use crate::keyboard::Typed;
use crate::notice::Notice;
use crate::waiting::WaitingAnswer;
use crate::wish::Wish;
use disk_in_place::DiskInPlace;
use live_log::LogFault;
use std::alloc::Global;

/// The first lines of a group, which were obeyed.
#[derive(Debug, Drop)]
pub struct Front {
    /// How many lines.
    pub count: usize,
    /// The station that has the keyboard then.
    pub station: u32,
    /// The answers, in the lines' order.
    pub answers: Vec<WaitingAnswer>,
    /// What the station is to be told of the next line, if there is one: nothing was performed of it.
    pub stopped: Option<Notice>,
}

// Whether a typed line was cut.
fn is_cut(typed: &Typed) -> bool
    ensures yes { result ≡ true → typed.now ≡ Cut }
    ensures no { result ≡ false → typed.now ≢ Cut }
{
    matches!(typed, Typed::Cut)
}

// Performs a typed line, and adds its answer to those that wait. Answers what its station is to be told where nothing was performed.
fn perform_waiting<D: DiskInPlace + Drop>(
    day: &mut Day<D>,
    station: u32,
    typed: &Typed,
    answers: &mut Vec<WaitingAnswer>,
) -> Result<Option<Notice>, LogFault>
    requires counted { 1 ≤ station }
    requires inside { station ≤ day.old.history.opened.stations }
    requires waiting { AllByRecursion (IsWaiting day.old.history) answers.old.items }
    ensures answered { result ≡ Ok None → (told : List Told) × WaitsToTell answers.old.items answers.new.items told
        × IsLineAnswered station typed.now day.old.history day.new.history told }
    ensures refused { IfOk result (λ refused. IfSome refused (IsLineRefused typed.now day.old.history)) }
    ensures undone { IfOk result (λ refused. IfSome refused (λ _. (day.new ≡ day.old) × (answers.new.items ≡ answers.old.items))) }
    ensures waiting { OnOk result (AllByRecursion (IsWaiting day.new.history) answers.new.items) }
    ensures performed { OnErr result ((told : List Told) × IsLineAnswered station typed.now day.old.history day.new.history told) }
    ensures since { HasPerformedSince day.old day.new }
    ensures ended { OnErr result (day.new.takes ≡ false) }
    ensures fault { IfErr result (λ fault. fault ≡ LogFault.NoMemory) }
{
    if is_cut(typed) {
        return Ok(Some(Notice::Cut));
    }
    let Ok(()) = answers.reserve(1) else {
        return Ok(Some(Notice::NoMemory));
    };
    match day.perform_typed(station, typed) {
        Ok(Some(line)) => {
            answers.push_reserved(WaitingAnswer {
                count: day.entry_count(),
                station,
                line,
            });
            Ok(None)
        }
        Ok(None) => Ok(None),
        Err(LineFault::NoMemory) => Ok(Some(Notice::NoMemory)),
        Err(LineFault::JournalFull) => Ok(Some(Notice::JournalFull)),
        Err(LineFault::Unanswered) => Err(LogFault::NoMemory),
    }
}

// Obeys a typed line that is not QUIT, and adds its answer to those that wait. Answers which station has the keyboard then; or, where
// nothing was performed, what the station is to be told.
fn obey_waiting<D: DiskInPlace + Drop>(
    day: &mut Day<D>,
    station: u32,
    typed: &Typed,
    answers: &mut Vec<WaitingAnswer>,
) -> Result<Result<u32, Notice>, LogFault>
    requires counted { 1 ≤ station }
    requires inside { station ≤ day.old.history.opened.stations }
    requires no_quit { IsNoQuit typed.now }
    requires waiting { AllByRecursion (IsWaiting day.old.history) answers.old.items }
    ensures made { IfOk result (HasMade station typed.now day.old.history day.new.history answers.old.items answers.new.items) }
    ensures undone { IfOk result (λ made. IfErr made (λ _. (day.new ≡ day.old) × (answers.new.items ≡ answers.old.items))) }
    ensures counted { IfOk result (λ made. IfOk made (λ next. 1 ≤ next)) }
    ensures inside { IfOk result (λ made. IfOk made (λ next. next ≤ day.new.history.opened.stations)) }
    ensures waiting { OnOk result (AllByRecursion (IsWaiting day.new.history) answers.new.items) }
    ensures performed { OnErr result ((told : List Told) × IsObeyed station typed.now day.old.history station day.new.history told) }
    ensures since { HasPerformedSince day.old day.new }
    ensures ended { OnErr result (day.new.takes ≡ false) }
    ensures fault { IfErr result (λ fault. fault ≡ LogFault.NoMemory) }
{
    match wish_typed(typed) {
        Wish::Station(wanted) => {
            let stations = day.station_count() as u64;
            if wanted >= 1 && wanted <= stations {
                Ok(Ok(wanted as u32))
            } else {
                Ok(Err(Notice::NoStation))
            }
        }
        // QUIT never comes here: it ends the lines, and is none of them.
        Wish::Perform | Wish::Quit => match perform_waiting(day, station, typed, answers)? {
            None => Ok(Ok(station)),
            Some(notice) => Ok(Err(notice)),
        },
    }
}

// Obeys the first of these lines, up to one of which nothing is performed, and puts nothing to the log.
pub(crate) fn perform_front<D: DiskInPlace + Drop>(
    alloc: Global,
    day: &mut Day<D>,
    station: u32,
    lines: &[Typed],
) -> Result<Front, LogFault>
    requires counted { 1 ≤ station }
    requires inside { station ≤ day.old.history.opened.stations }
    requires no_quit { AllByRecursion IsNoQuit lines.now }
    ensures obeyed { IfOk result (λ front. IsFrontObeyed station lines.now day.old.history front day.new.history) }
    ensures first { OnErr result (AreFirstObeyed station lines.now day.old.history day.new.history) }
    ensures waiting { IfOk result (λ front. AllByRecursion (IsWaiting day.new.history) front.answers.items) }
    ensures counted { IfOk result (λ front. 1 ≤ front.station) }
    ensures inside { IfOk result (λ front. front.station ≤ day.new.history.opened.stations) }
    ensures since { HasPerformedSince day.old day.new }
    ensures ended { OnErr result (day.new.takes ≡ false) }
    ensures fault { IfErr result (λ fault. fault ≡ LogFault.NoMemory) }
{
    let mut answers = Vec::new(alloc);
    let mut count = 0;
    let mut seated = station;
    'front: for line in lines {
        match obey_waiting(day, seated, line, &mut answers)? {
            Ok(next) => {
                seated = next;
                count += 1;
            }
            Err(notice) => {
                return Ok(Front {
                    count,
                    station: seated,
                    answers,
                    stopped: Some(notice),
                });
            }
        }
    }
    Ok(Front {
        count,
        station: seated,
        answers,
        stopped: None,
    })
}
