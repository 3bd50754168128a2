//! Steps that run a program, and say what it meets.

use crate::programs::{Call, Outcome, words_of};
use crate::sweep::{Sweep, fail_in_turn};
use case_files::words::{count, cut_word};
use case_files::{Input, Output, Place, Report, Step, Trouble};
use std::alloc::Global;
use std::sync::Wait;
use std::thread::Threads;

/// What the next program meets: how its streams take and give text, and which device fails in turn.
#[derive(Clone, Copy)]
pub(crate) struct Coming {
    out: Output,
    err: Output,
    input: Input,
    sweep: Option<Sweep>,
}

// How a stream takes what is printed: `full`, `closed`, `slow`, `takes 5`.
fn output_of(form: &[u8]) -> Result<Output, Trouble> {
    let (word, bytes) = cut_word(form);
    match word {
        b"full" => Ok(Output::Takes(0)),
        b"closed" => Ok(Output::Closed),
        b"slow" => Ok(Output::Slow),
        b"takes" => Ok(Output::Takes(count(bytes)?)),
        _ => Err(Trouble::Bad("full, closed, slow or takes N")),
    }
}

impl Coming {
    /// Streams that take and give all, and devices that don't fail.
    pub(crate) fn usual() -> Coming {
        Coming {
            out: Output::Open,
            err: Output::Open,
            input: Input::Open,
            sweep: None,
        }
    }

    /// Says how standard output takes what is printed: `output full`.
    pub(crate) fn output(&mut self, form: &[u8]) -> Result<(), Trouble> {
        self.out = output_of(form)?;
        Ok(())
    }

    /// Says how standard error does: `errors full`.
    pub(crate) fn errors(&mut self, form: &[u8]) -> Result<(), Trouble> {
        self.err = output_of(form)?;
        Ok(())
    }

    /// Says how standard input gives what is typed: `input slow`, `input fails`.
    pub(crate) fn input(&mut self, form: &[u8]) -> Result<(), Trouble> {
        self.input = match form {
            b"slow" => Input::Slow,
            b"fails" => Input::Fails,
            _ => return Err(Trouble::Bad("input slow, or input fails")),
        };
        Ok(())
    }

    /// Lets a device fail in turn: `each load fails`, `each write fails`.
    pub(crate) fn sweep(&mut self, form: &[u8]) -> Result<(), Trouble> {
        self.sweep = match form {
            b"load fails" => Some(Sweep::Loads),
            b"write fails" => Some(Sweep::Writes),
            _ => return Err(Trouble::Bad("each load fails, or each write fails")),
        };
        Ok(())
    }

    /// Runs a program with what is typed below the step, and compares what it prints and its status with what is below it.
    pub(crate) fn run<R: Threads + Wait + Sync>(
        &self,
        rt: &R,
        alloc: Global,
        place: &Place,
        report: &mut Report<'_>,
        step: &Step<'_, '_>,
    ) -> Result<(), Trouble> {
        let words = words_of(alloc, step.rest())?;
        let typed = step.text_below(alloc, b'<')?;
        let call = Call {
            words: &words,
            typed: &typed,
            out: self.out,
            err: self.err,
            input: self.input,
        };
        self.run_call(rt, alloc, place, report, step, &call)?;
        place.devices().allow_all();
        Ok(())
    }

    // Runs a call, and again with a device that fails in turn where that is to come.
    fn run_call<R: Threads + Wait + Sync>(
        &self,
        rt: &R,
        alloc: Global,
        place: &Place,
        report: &mut Report<'_>,
        step: &Step<'_, '_>,
        call: &Call<'_, '_>,
    ) -> Result<(), Trouble> {
        let Some(sweep) = self.sweep else {
            let outcome = call.run(rt, alloc, place)?;
            return compare_outcome(alloc, report, step, &outcome);
        };
        let before = place.copies()?;
        let outcome = call.run(rt, alloc, place)?;
        compare_outcome(alloc, report, step, &outcome)?;
        fail_in_turn(rt, alloc, place, report, step, call, sweep, &before)
    }
}

// Compares what a program has printed and its status with the lines below its command line: `>` standard output, `!` standard error,
// `=` the status, if not 0.
fn compare_outcome(
    alloc: Global,
    report: &mut Report<'_>,
    step: &Step<'_, '_>,
    outcome: &Outcome,
) -> Result<(), Trouble> {
    let out = step.text_below(alloc, b'>')?;
    let err = step.text_below(alloc, b'!')?;
    let wanted = status_below(step)?;
    let wanted = format!(in alloc; "status {wanted}")?;
    let shown = format!(in alloc; "status {}", outcome.status)?;
    report.compare_lines(step, b"> ", &out, &outcome.out)?;
    report.compare_lines(step, b"! ", &err, &outcome.err)?;
    Ok(report.compare(step, wanted.as_bytes(), shown.as_bytes())?)
}

// The status that is wanted.
fn status_below(step: &Step<'_, '_>) -> Result<usize, Trouble> {
    let mut status = 0;
    for line in step.below {
        if let Some(digits) = line.after(b'=') {
            status = count(digits)?;
        }
    }
    Ok(status)
}
