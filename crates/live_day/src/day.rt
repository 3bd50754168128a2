//! The tables of a day, and the log of what was performed on them.

ghost use Rattle.std.specs.Prelude.{◌≡◌, ◌↔◌, ◌≤◌, ℕ, List, Option, true, false, length, Some, IfOk, IfErr, IfSome, OnOk, OnErr, IsErrOf};
ghost use Rattle.std.specs.List.{AllByRecursion};
ghost use Rattle.files_in_place.specs.Folder.{SameBut};
ghost use Rattle.files_in_place.specs.Disk.{LeavesOnly, IsSyncedDisk, HasDiskCause};
ghost use Rattle.audit.specs.Audits.{IsCommand};
ghost use Rattle.catalogue_core.specs.declared.catalogue.TheConstants.{MAX_ENTRIES};
ghost use Rattle.catalogue_core.specs.Replay.{answer_of, with_entry, AreOfStations, IsLegal};
ghost use Rattle.station_lines.specs.declared.script.line.Line.{Line as Meaning};
ghost use Rattle.catalogue_core.specs.Status.{row};
ghost use Rattle.station_lines.specs.AnswerLines.{line_of, status_text};
ghost use Rattle.station_lines.specs.Script.Meaning.{Means};
ghost use Rattle.live_log.specs.declared.faults.LogFault.TheVariants.{Failed};
ghost use Rattle.live_log.specs.Logs.{HasLog};
ghost use Rattle.live_day.specs.Days.{parts_of, AnswersLine, HasPerformedSince, HasPutSince, HasGoneOn, HasNoRoomFor, IsAnsweredBy, IsAnswerTold, IsLogged, IsUnperformed};
ghost use Rattle.live_day.specs.Faults.{IsGroupFault};
ghost use Rattle.live_day.specs.Groups.{IsFrontObeyed, IsNoQuit};
ghost use Rattle.live_day.specs.Sessions.{MeansTyped};
ghost use Rattle.live_day.specs.Stops.{AreFirstObeyed};
ghost use Rattle.live_day.specs.Waiting.{IsWaiting};

use crate::faults::LineFault;
use crate::group::{Front, perform_front};
use crate::keyboard::Typed;
use byte_io::Bytes;
use catalogue_core::{Catalogue, Command};
use disk_in_place::DiskInPlace;
use live_log::{Log, LogFault};
use station_lines::{Line, answer_line, parse_line, status_line};
use std::alloc::Global;
use std::marker::Model;

/// A day: tables, what was performed on them, and the log of it in a folder of a disk. It takes lines until a group of the log fails;
/// until then the log on the disk is that of the journal.
#[derive(Drop)]
pub struct Day<D: DiskInPlace + Drop> {
    alloc: Global,
    catalogue: Catalogue,
    log: Log<D>,
    takes: bool,
}

impl<D: DiskInPlace + Drop> Model for Day<D> {
    ghost use Rattle.std.specs.Prelude.{◌≡◌, true};
    ghost use Rattle.live_log.specs.Logs.{HasLog};
    ghost use Rattle.std.specs.Coded.{codes};
    ghost use Rattle.key_expr.specs.ExprCode.{expr_code};
    ghost use Rattle.live_day.specs.Days.{DayValue as What, parts_of};

    ghost Value = { What D };

    ghost coded = { Prim.hlevel (codes, expr_code) };

    ghost view = { λ d. record { history = d.catalogue; log = d.log; takes = d.takes } };

    ghost invariant = { λ d. d.takes ≡ true
        → (d.log.takes ≡ true) × (D.meaning.keeps_promises → HasLog d.log.name d.log.head (parts_of d.catalogue.journal) (D.meaning.seen d.log.disk)) };
}

impl<D: DiskInPlace + Drop> Day<D> {
    /// A day with these tables and what was performed on them, of which this is the log.
    pub fn new(alloc: Global, catalogue: Catalogue, log: Log<D>) -> Day<D>
        requires takes { log.takes ≡ true }
        requires logged { D.meaning.keeps_promises → HasLog log.name log.head (parts_of catalogue.journal) (D.meaning.seen log.disk) }
        ensures history { result.history ≡ catalogue }
        ensures log { result.log ≡ log }
        ensures takes { result.takes ≡ true }
    {
        Day {
            alloc,
            catalogue,
            log,
            takes: true,
        }
    }

    // Performs a command, and makes the line of its answer.
    #[tactic(auto, using(crate::proofs::SinceLaws::since_same, crate::proofs::SinceLaws::since_entry_one))]
    fn perform(&mut self, station: u32, command: &Command) -> Result<Bytes, LineFault>
        requires counted { 1 ≤ station }
        requires inside { station ≤ self.old.history.opened.stations }
        ensures answer { IfOk result (λ answer. answer ≡ line_of (answer_of self.old.history station command.now)) }
        ensures entry { OnOk result (self.new.history ≡ with_entry self.old.history station command.now) }
        ensures full { IsErrOf result LineFault.JournalFull ↔ (length self.old.history.journal ≡ MAX_ENTRIES) }
        ensures unperformed { IfErr result (λ fault. IsUnperformed fault → self.new ≡ self.old) }
        ensures performed { IfErr result (λ fault. ¬ (IsUnperformed fault) → self.new.history ≡ with_entry self.old.history station command.now) }
        ensures since { HasPerformedSince self.old self.new }
        ensures closed { IfErr result (λ fault. ¬ (IsUnperformed fault) → self.new.takes ≡ false) }
    {
        let (_, answer) = self.catalogue.perform(self.alloc, station, command)?;
        self.takes = false;
        match answer_line(self.alloc, &answer) {
            Ok(line) => Ok(line),
            Err(_) => Err(LineFault::Unanswered),
        }
    }

    // The status row.
    fn status_answer(&self) -> Result<Option<Bytes>, LineFault>
        ensures row { IfOk result (λ answer. answer ≡ Some (status_text (row self.now.history))) }
        ensures fault { IfErr result (λ fault. fault ≡ LineFault.NoMemory) }
    {
        let row = self.catalogue.status();
        match status_line(self.alloc, &row) {
            Ok(line) => Ok(Some(line)),
            Err(_) => Err(LineFault::NoMemory),
        }
    }

    // Performs what a line of a station means, and puts nothing to the log.
    #[tactic(auto, using(crate::proofs::SinceLaws::since_same, crate::proofs::StoppedLaws::run_entered))]
    fn perform_meaning(&mut self, station: u32, meaning: &Line) -> Result<Option<Bytes>, LineFault>
        requires counted { 1 ≤ station }
        requires inside { station ≤ self.old.history.opened.stations }
        ensures answered { IfOk result (λ answer. AnswersLine meaning.now station self.old.history self.new.history answer) }
        ensures told { IfOk result (λ answer. IfSome answer (IsAnswerTold self.new.history station)) }
        ensures full { IsErrOf result LineFault.JournalFull ↔ (IsCommand meaning.now × (length self.old.history.journal ≡ MAX_ENTRIES)) }
        ensures unperformed { IfErr result (λ fault. IsUnperformed fault → self.new ≡ self.old) }
        ensures performed { IfErr result (λ fault. ¬ (IsUnperformed fault)
            → (answer : Option (List ℕ)) × AnswersLine meaning.now station self.old.history self.new.history answer) }
        ensures ended { IfErr result (λ fault. ¬ (IsUnperformed fault) → self.new.takes ≡ false) }
        ensures since { HasPerformedSince self.old self.new }
    {
        match meaning {
            Line::Blank => Ok(None),
            Line::Status => self.status_answer(),
            Line::Run(command) => Ok(Some(self.perform(station, command)?)),
        }
    }

    // Performs a line of a station by its meaning, and puts nothing to the log.
    #[tactic(auto, using(crate::proofs::SinceLaws::since_same))]
    fn perform_text(&mut self, station: u32, line: &[u8]) -> Result<Option<Bytes>, LineFault>
        requires counted { 1 ≤ station }
        requires inside { station ≤ self.old.history.opened.stations }
        ensures answered { IfOk result (λ answer. (meaning : Meaning) → Means line.now meaning
            → AnswersLine meaning station self.old.history self.new.history answer) }
        ensures told { IfOk result (λ answer. IfSome answer (IsAnswerTold self.new.history station)) }
        ensures full { IsErrOf result LineFault.JournalFull → HasNoRoomFor (Means line.now) self.old.history }
        ensures unperformed { IfErr result (λ fault. IsUnperformed fault → self.new ≡ self.old) }
        ensures performed { IfErr result (λ fault. ¬ (IsUnperformed fault) → IsAnsweredBy (Means line.now) station self.old.history self.new.history) }
        ensures ended { IfErr result (λ fault. ¬ (IsUnperformed fault) → self.new.takes ≡ false) }
        ensures since { HasPerformedSince self.old self.new }
    {
        match parse_line(self.alloc, line) {
            Ok(meaning) => self.perform_meaning(station, &meaning),
            Err(_) => Err(LineFault::NoMemory),
        }
    }

    // Performs what a typed line of a station means, and puts nothing to the log: one that is too long can't be read, one that was cut means
    // nothing.
    pub(crate) fn perform_typed(
        &mut self,
        station: u32,
        typed: &Typed,
    ) -> Result<Option<Bytes>, LineFault>
        requires counted { 1 ≤ station }
        requires inside { station ≤ self.old.history.opened.stations }
        ensures answered { IfOk result (λ answer. (meaning : Meaning) → MeansTyped typed.now meaning
            → AnswersLine meaning station self.old.history self.new.history answer) }
        ensures told { IfOk result (λ answer. IfSome answer (IsAnswerTold self.new.history station)) }
        ensures full { IsErrOf result LineFault.JournalFull → HasNoRoomFor (MeansTyped typed.now) self.old.history }
        ensures unperformed { IfErr result (λ fault. IsUnperformed fault → self.new ≡ self.old) }
        ensures performed { IfErr result (λ fault. ¬ (IsUnperformed fault) → IsAnsweredBy (MeansTyped typed.now) station self.old.history self.new.history) }
        ensures ended { IfErr result (λ fault. ¬ (IsUnperformed fault) → self.new.takes ≡ false) }
        ensures since { HasPerformedSince self.old self.new }
    {
        match typed {
            Typed::Text(line) => self.perform_text(station, line.as_slice()),
            Typed::TooLong => self.perform_meaning(station, &Line::Run(Command::Bad)),
            Typed::Cut => Ok(None),
        }
    }

    /// Performs the first of these lines that are there together, or of one alone, beginning with those of a station, and puts the entries
    /// of all to the log as one group. At `Ok` they are on the disk, and only then the answers are given back. A line of which nothing was
    /// performed ends the group: want of memory, a full journal, a station that is not there, a line that was cut.
    ///
    /// An error where something was performed that may not be in the log: then the day takes no more lines, and none of the group was
    /// answered.
    pub fn lines(&mut self, station: u32, lines: &[Typed]) -> Result<Front, LogFault>
        requires takes { self.old.takes ≡ true }
        requires counted { 1 ≤ station }
        requires inside { station ≤ self.old.history.opened.stations }
        // QUIT is no line of a script: it ends the lines.
        requires no_quit { AllByRecursion IsNoQuit lines.now }
        ensures obeyed { IfOk result (λ front. IsFrontObeyed station lines.now self.old.history front self.new.history) }
        ensures waiting { IfOk result (λ front. AllByRecursion (IsWaiting self.new.history) front.answers.items) }
        ensures counted { IfOk result (λ front. 1 ≤ front.station) }
        ensures inside { IfOk result (λ front. front.station ≤ self.new.history.opened.stations) }
        ensures goes_on { HasGoneOn self.old.history self.new.history }
        ensures takes { OnOk result (self.new.takes ≡ true) }
        // The journal that is on the disk then has all entries.
        ensures logged { D.meaning.keeps_promises → OnOk result (IsLogged D.meaning self.new) }
        ensures durable { D.meaning.keeps_promises → OnOk result (IsSyncedDisk D.meaning self.new.log.disk) }
        ensures name { self.new.log.name ≡ self.old.log.name }
        ensures head { self.new.log.head ≡ self.old.log.head }
        ensures ended { OnErr result (self.new.takes ≡ false) }
        // Where the entries may not be in the log, the first of the lines were obeyed and no others.
        ensures first { OnErr result (AreFirstObeyed station lines.now self.old.history self.new.history) }
        // No earlier group has failed; and the log is called too long only where it is.
        ensures fault { IfErr result (IsGroupFault D.meaning self.new.history) }
        ensures others { SameBut self.old.log.name (D.meaning.seen self.old.log.disk) (D.meaning.seen self.new.log.disk) }
        // A crash at any moment leaves the log of the journal as it was, with the entries of the group or without them.
        ensures any_moment { D.meaning.keeps_promises → LeavesOnly D.meaning self.old.log.disk self.new.log.disk
            (HasPutSince D.meaning self.old self.new) }
        ensures cause { HasDiskCause D.meaning self.old.log.disk self.new.log.disk (IsErrOf result Failed) }
    {
        // For contracts alone: all that is seen is on the disk.
        let _ = self.log.name();
        let performed = self.catalogue.journal().len();
        let front = perform_front(self.alloc, self, station, lines)?;
        if self.entry_count() == performed {
            return Ok(front);
        }
        let since = &self.catalogue.journal()[performed..];
        self.log.put(since)?;
        self.takes = true;
        // For contracts alone: all that is seen is on the disk.
        let _ = self.log.name();
        Ok(front)
    }

    // How many entries the journal has.
    pub(crate) fn entry_count(&self) -> usize
        ensures value { result ≡ length self.now.history.journal }
    {
        self.catalogue.journal().len()
    }

    /// How many stations there are.
    pub fn station_count(&self) -> u32
        ensures value { result ≡ self.now.history.opened.stations }
        // Where the day takes lines, the log on the disk is that of the journal, and all that is seen is on the disk.
        ensures logged { D.meaning.keeps_promises → self.now.takes ≡ true → IsLogged D.meaning self.now }
        ensures durable { D.meaning.keeps_promises → self.now.takes ≡ true → IsSyncedDisk D.meaning self.now.log.disk }
    {
        // For contracts alone: all that is seen is on the disk.
        let _ = self.log.name();
        self.catalogue.station_count()
    }

    /// The tables, and the log.
    pub fn into_parts(self) -> (Catalogue, Log<D>)
        ensures history { result.0 ≡ self.history }
        ensures log { result.1 ≡ self.log }
        ensures legal { IsLegal self.history.opened self.history.journal }
        ensures of_stations { AreOfStations self.history.opened self.history.journal }
        // Where the day takes lines, the log takes groups, and on the disk it is that of the journal.
        ensures takes { self.takes ≡ true → self.log.takes ≡ true }
        ensures logged { D.meaning.keeps_promises → self.takes ≡ true → IsLogged D.meaning self }
    {
        // For contracts alone: each answer of the journal is the one that its command has there.
        let _ = self.catalogue.journal();
        (self.catalogue, self.log)
    }
}
