//! A station at work.

ghost use Rattle.std.specs.Prelude.{◌≡◌, ◌≢◌, [], ◌∷◌, ◌++◌, OnOk, OnErr, IsErrOf};
ghost use Rattle.catalogue_core.specs.declared.status.StatusRow.{StatusRow as RowValue};
ghost use Rattle.office_run.specs.Reports.{Shown, status, meaning_of, session, new_session, IsWithShown, IsWithAnswer, IsLeftAt};
ghost use Rattle.station_lines.specs.AnswerLines.{line_of, status_text};
ghost use Rattle.station_lines.specs.declared.script.format.TheConstants.{LF as LINE_END};

use byte_io::Bytes;
use catalogue_core::{Answer, Command, StatusRow, Stop};
use shared_catalogue::{Naming, Seat, Shared};
use station_lines::{LF, Line, append_answer, append_status};
use std::alloc::{AllocError, Global};
use std::marker::Model;
use std::sync::Wait;

/// A station at work: its seat, and the text of its answer file so far.
#[derive(Drop)]
pub(crate) struct Session<J: Naming> {
    seat: Seat<J>,
    answers: Vec<u8>,
}

impl<J: Naming> Model for Session<J> {
    ghost use Rattle.office_run.specs.Reports.{SessionValue, session};

    ghost Value = { SessionValue };

    ghost view = { λ s. session s.seat s.answers.items };
}

impl<J: Naming> Session<J> {
    /// The session of a seat before the first line. It takes no memory.
    pub(crate) fn new(alloc: Global, seat: Seat<J>) -> Session<J>
        ensures value { result ≡ new_session seat }
    {
        Session {
            seat,
            answers: Vec::new(alloc),
        }
    }

    /// Runs one line that is not blank: performs its command, or looks at the status row, and keeps what
    /// is shown for it. A `Stop` is the catalogue's, or want of memory of the session itself; a status row is
    /// never stopped because the journal is full.
    pub(crate) fn run_line(
        &mut self,
        alloc: Global,
        rt: &impl Wait,
        shared: &Shared<J>,
        line: Line,
    ) -> Result<(), Stop>
        requires some { line ≢ Line.Blank }
        ensures shown { OnOk result ((shown : Shown) × (meaning_of shown ≡ line) × IsWithShown self.old shown self.new) }
        ensures left { OnErr result (IsLeftAt self.old line self.new) }
        ensures status { line ≡ Line.Status → ¬ IsErrOf result Stop.JournalFull }
    {
        match line {
            Line::Run(command) => self.run_command(alloc, rt, shared, command),
            Line::Status => self.show_status(rt, shared),
            Line::Blank => unreachable!(),
        }
    }

    // Performs a command, and keeps the line of its answer.
    fn run_command(
        &mut self,
        alloc: Global,
        rt: &impl Wait,
        shared: &Shared<J>,
        command: Command,
    ) -> Result<(), Stop>
        ensures shown { OnOk result (IsWithAnswer self.old command self.new) }
        ensures left { OnErr result (IsLeftAt self.old (Line.Run command) self.new) }
    {
        let answer = shared.perform(alloc, rt, &mut self.seat, &command)?;
        self.push_answer(&answer)?;
        Ok(())
    }

    // Looks at the status row, and keeps its line.
    fn show_status(&mut self, rt: &impl Wait, shared: &Shared<J>) -> Result<(), Stop>
        ensures shown { OnOk result ((row : RowValue) × IsWithShown self.old (status row) self.new) }
        ensures left { OnErr result (IsLeftAt self.old Line.Status self.new) }
        ensures no_journal_full { ¬ IsErrOf result Stop.JournalFull }
    {
        let row = shared.look(rt, &mut self.seat);
        self.push_row(&row)?;
        Ok(())
    }

    // Adds the line of an answer to the text of the answer file.
    fn push_answer(&mut self, answer: &Answer) -> Result<(), AllocError>
        ensures ok { OnOk result (self.new ≡ session self.old.seat (self.old.answers ++ (line_of answer.now ++ LINE_END ∷ []))) }
        ensures seat { self.new.seat ≡ self.old.seat }
    {
        append_answer(&mut self.answers, answer)?;
        self.answers.push(LF)?;
        Ok(())
    }

    // Adds the line of a status row.
    fn push_row(&mut self, row: &StatusRow) -> Result<(), AllocError>
        ensures ok { OnOk result (self.new ≡ session self.old.seat (self.old.answers ++ (status_text row.now ++ LINE_END ∷ []))) }
        ensures seat { self.new.seat ≡ self.old.seat }
    {
        append_status(&mut self.answers, row)?;
        self.answers.push(LF)?;
        Ok(())
    }

    /// The seat and the text of the answer file.
    pub(crate) fn into_parts(self) -> (Seat<J>, Bytes)
        ensures seat { result.0 ≡ self.seat }
        ensures answers { result.1 ≡ self.answers }
    {
        let Session { seat, answers } = self;
        (seat, Bytes::from_vec(answers))
    }
}
