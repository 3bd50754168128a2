//! The answers of all stations, as they are handed to those who print them.

ghost use Rattle.std.specs.Prelude.{◌≡◌, ◌++◌, ◌∷◌, [], ℕ, List, true, false, OnOk, OnErr};
ghost use Rattle.live_day.specs.Shows.{shown_now, ShownLine};
ghost use Rattle.live_day.specs.Waiting.{all_shown_after, shown_after, ShowsFront};
ghost use Rattle.live_stations.specs.Handed.{AnswerRing, AreHandedFrom};

use crate::office::Office;
use crate::rings::Rings;
use crate::sending::send_waiting;
use byte_io::Bytes;
use disk_in_place::DiskInPlace;
use live_day::{Day, Screen, ScreenFault, WaitingAnswer};
use live_program::{NumberLists, Showing, ShowingAfter};
use rtrb::Producer;
use std::alloc::Global;
use std::marker::{Model, PhantomData};
use std::sync::Wait;

/// The answers of all stations: each is handed to the thread that prints those of its station.
#[derive(Drop)]
pub(crate) struct HandedAnswers<'a, R: Wait, J: Rings> {
    rt: &'a R,
    alloc: Global,
    office: &'a Office,
    answers: Vec<Producer<Bytes>>,
    // What was shown, and whether a line may not be, for contracts.
    shown: NumberLists,
    failed: bool,
    of: PhantomData<J>,
}

impl<'a, R: Wait, J: Rings> Model for HandedAnswers<'a, R, J> {
    ghost use Rattle.std.specs.Prelude.{map};
    ghost use Rattle.live_program.specs.Consoles.{shown_of_numbers};
    ghost use Rattle.live_stations.specs.Handed.{AreHandedFrom, HandedValue};

    ghost Value = { HandedValue };

    ghost view = { λ s. record { rings = s.answers.items; shown = map shown_of_numbers s.shown; failed = s.failed } };

    ghost invariant = { λ s. AreHandedFrom (map shown_of_numbers s.shown) 1 J.answers s.answers.items };
}

// Hands a line to the thread that prints the answers of a station.
fn hand<R: Wait>(
    rt: &R,
    alloc: Global,
    office: &Office,
    answers: &mut Vec<Producer<Bytes>>,
    station: u32,
    line: &[u8],
) -> Result<(), ScreenFault>
    ensures handed { OnOk result ((shown : List ShownLine) (start : List AnswerRing) (s : ShownLine) → AreHandedFrom shown 1 start answers.old.items
        → s.station ≡ station → s.line ≡ line.now → AreHandedFrom (shown ++ s ∷ []) 1 start answers.new.items) }
    ensures same { OnErr result ((shown : List ShownLine) (start : List AnswerRing) → AreHandedFrom shown 1 start answers.old.items
        → AreHandedFrom shown 1 start answers.new.items) }
{
    let Some(place) = office.place(station) else {
        return Err(ScreenFault);
    };
    let Some(index) = (station as usize).checked_sub(1) else {
        return Err(ScreenFault);
    };
    let Some(ring) = answers.get_mut(index) else {
        return Err(ScreenFault);
    };
    let Ok(line) = Bytes::from_slice(alloc, line) else {
        return Err(ScreenFault);
    };
    place.add_waiting();
    if !send_waiting(rt, office, &office.day, ring, line) {
        return Err(ScreenFault);
    }
    place.bell.wake(rt);
    Ok(())
}

impl<'a, R: Wait, J: Rings> HandedAnswers<'a, R, J> {
    /// Of stations that were shown nothing.
    pub(crate) fn new(
        rt: &'a R,
        alloc: Global,
        office: &'a Office,
        answers: Vec<Producer<Bytes>>,
    ) -> HandedAnswers<'a, R, J>
        requires named { answers.items ≡ J.answers }
        requires unsent { AreHandedFrom [] 1 answers.items answers.items }
        ensures unshown { result.shown ≡ [] }
        ensures unfailed { result.failed ≡ false }
    {
        HandedAnswers {
            rt,
            alloc,
            office,
            answers,
            shown: NumberLists::empty(),
            failed: false,
            of: PhantomData,
        }
    }

    /// The rings that the answers went in.
    pub(crate) fn into_rings(self) -> Vec<Producer<Bytes>>
        ensures rings { AreHandedFrom self.entry.shown 1 J.answers result.items }
    {
        self.answers
    }

    // Shows an answer that waited.
    fn show_waiting<D: DiskInPlace + Drop>(
        &mut self,
        day: &Day<D>,
        answer: &WaitingAnswer,
    ) -> Result<(), ScreenFault>
        ensures shown { OnOk result (self.new.shown ≡ self.old.shown ++ shown_after D.meaning day.now answer.now ∷ []) }
        ensures unshown { OnErr result (self.new.shown ≡ self.old.shown) }
        ensures failed { OnErr result (self.new.failed ≡ true) }
    {
        match hand(
            self.rt,
            self.alloc,
            self.office,
            &mut self.answers,
            answer.station,
            answer.line.as_slice(),
        ) {
            Ok(()) => {
                self.shown.push(&ShowingAfter { day, answer });
                Ok(())
            }
            Err(fault) => {
                self.failed = true;
                Err(fault)
            }
        }
    }
}

impl<'a, D: DiskInPlace + Drop, R: Wait, J: Rings> Screen<D> for HandedAnswers<'a, R, J> {
    ghost use Rattle.std.specs.Prelude.{◌≡◌, true};

    ghost shown = { λ s. s.shown };

    ghost has_failed = { λ s. s.failed ≡ true };

    fn show(&mut self, day: &Day<D>, station: u32, line: &[u8]) -> Result<(), ScreenFault> {
        match hand(
            self.rt,
            self.alloc,
            self.office,
            &mut self.answers,
            station,
            line,
        ) {
            Ok(()) => {
                self.shown.push(&Showing { day, station, line });
                Ok(())
            }
            Err(fault) => {
                self.failed = true;
                Err(fault)
            }
        }
    }

    fn show_all(&mut self, day: &Day<D>, answers: &[WaitingAnswer]) -> Result<(), ScreenFault> {
        for answer in answers {
            self.show_waiting(day, answer)?;
        }
        Ok(())
    }
}
