//! What a program says at its end: an exit status, and a line on one of its streams.

ghost use Rattle.std.specs.Prelude.{◌≡◌, ◌++◌, IfErr, IfOk, IfSome, IsErr, IsOk, OnOk};
ghost use Rattle.std.specs.Io.KnownBytes.{Appends};
ghost use Rattle.std.specs.Process.{exit_status};
ghost use Rattle.clap.specs.Words.{kind_of};
ghost use Rattle.program_frame.specs.Endings.{ending_line, ending_status, program_line};
ghost use Rattle.program_frame.specs.Telling.{mistake_line, mistake_status as status_of_mistake, no_text_line, no_text_status, said_before, unprinted_line};

use crate::ending::{Ending, Reason};
use crate::report::Report;
use clap::error::ErrorKind;
use std::io;
use std::io::Write;
use std::process::ExitCode;

/// How a call of a program ends: its exit status, and whether the two streams took their texts.
#[derive(Clone, Copy, Debug)]
pub struct Told {
    /// The exit status.
    pub status: ExitCode,
    /// Whether standard output took its text. Ok where there is none for it.
    pub out: io::Result<()>,
    /// Whether standard error took its text. Ok where there is none for it.
    pub err: io::Result<()>,
}

/// What was told by standard error alone.
fn told_by_error(code: u8, printed: io::Result<()>) -> Told
    ensures status { exit_status result.status ≡ code }
    ensures out { IsOk result.out }
    ensures err { result.err ≡ printed }
{
    Told {
        status: ExitCode::from(code),
        out: Ok(()),
        err: printed,
    }
}

/// What was told by standard output. Where it took no text, standard error is told so: `PROGRAM: cannot print` and LF.
fn told_by_output<W: Write>(err: &mut W, program: &str, code: u8, printed: io::Result<()>) -> Told
    ensures status { exit_status result.status ≡ code }
    ensures out { result.out ≡ printed }
    ensures unprinted { IsErr printed → OnOk result.err (Appends (W.contents err.old) (W.contents err.new) (unprinted_line program.now)) }
    ensures silent { IsOk printed → err.new ≡ err.old }
{
    let told = match printed {
        Ok(()) => Ok(()),
        Err(_) => print_after(err, program, b": cannot print\n"),
    };
    Told {
        status: ExitCode::from(code),
        out: printed,
        err: told,
    }
}

/// Says that an argument is no UTF-8 text.
fn tell_no_text<W: Write>(err: &mut W) -> Told
    ensures status { exit_status result.status ≡ no_text_status }
    ensures line { OnOk result.err (Appends (W.contents err.old) (W.contents err.new) no_text_line) }
    ensures out { IsOk result.out }
{
    let printed = err.write_all(b"error: an argument is no UTF-8 text\n");
    told_by_error(1, printed)
}

/// The exit status after a command line of which `clap` gave no options: 0 where it asks for the help or the version, 3 where
/// memory was refused, and else 1.
fn mistake_status(error: &clap::Error) -> u8
    ensures value { result ≡ status_of_mistake (kind_of error.now) }
{
    match error.kind() {
        ErrorKind::DisplayHelp | ErrorKind::DisplayVersion => 0,
        ErrorKind::OutOfMemory => 3,
        _ => 1,
    }
}

/// Prints what `clap` says of a command line of which it gave no options: the help or the version on standard output, a mistake on standard
/// error. It has no text where memory was refused: then that is said as of all failures.
fn tell_mistake<F: Reason, O: Write, E: Write>(
    out: &mut O,
    err: &mut E,
    program: &str,
    error: &clap::Error,
) -> Told
    ensures status { exit_status result.status ≡ status_of_mistake (kind_of error.now) }
    ensures line { IfSome (mistake_line (program_line program.now (F.words F.no_memory)) (kind_of error.now)) (λ line.
        OnOk result.err (Appends (E.contents err.old) (E.contents err.new) line)) }
    ensures unprinted { IsErr result.out → OnOk result.err (Appends (E.contents err.old) (E.contents err.new) (unprinted_line program.now)) }
{
    match error.kind() {
        ErrorKind::OutOfMemory => {
            let printed = print_reason(err, program, &F::out_of_memory());
            told_by_error(mistake_status(error), printed)
        }
        ErrorKind::DisplayHelp | ErrorKind::DisplayVersion => {
            let printed = write!(out, "{error}");
            told_by_output(err, program, mistake_status(error), printed)
        }
        _ => {
            let printed = write!(err, "{error}");
            told_by_error(mistake_status(error), printed)
        }
    }
}

// Prints the line that says why a program failed: its name, a colon, the reason and LF.
fn print_reason<F: Reason, W: Write>(err: &mut W, program: &str, why: &F) -> io::Result<()>
    ensures text { OnOk result (Appends (W.contents err.old) (W.contents err.new) (program_line program.now (F.words why.now))) }
{
    err.write_all(program.as_bytes())?;
    err.write_all(b": ")?;
    why.print(err)?;
    err.write_all(b"\n")?;
    Ok(())
}

// Says why a call of a program has not done what it was asked for, or prints the help or the version.
fn tell_ending<F: Reason, O: Write, E: Write>(
    out: &mut O,
    err: &mut E,
    program: &str,
    ending: &Ending<F>,
) -> Told
    ensures status { exit_status result.status ≡ ending_status F.status ending.now }
    ensures line { IfSome (ending_line F.words F.no_memory program.now ending.now) (λ line. OnOk result.err (Appends (E.contents err.old) (E.contents err.new) line)) }
    ensures unprinted { IsErr result.out → OnOk result.err (Appends (E.contents err.old) (E.contents err.new) (unprinted_line program.now)) }
{
    match ending {
        Ending::NoText => tell_no_text(err),
        Ending::CommandLine(error) => tell_mistake::<F, O, E>(out, err, program, error),
        Ending::Failed(why) => {
            let printed = print_reason(err, program, why);
            told_by_error(why.exit_status(), printed)
        }
    }
}

// Says what work that came to its end reports.
fn tell_report<R: Report, O: Write, E: Write>(
    out: &mut O,
    err: &mut E,
    program: &str,
    report: &R,
) -> Told
    ensures status { R.has_status report.now (exit_status result.status) }
    ensures text { OnOk result.out (R.prints report.now (O.contents out.old) (O.contents out.new)) }
    ensures aside { IsOk result.out → OnOk result.err (Appends (E.contents err.old) (E.contents err.new) (R.aside report.now)) }
    ensures unprinted { IsErr result.out → OnOk result.err (Appends (E.contents err.old) (E.contents err.new) (R.aside report.now ++ unprinted_line program.now)) }
{
    let status = report.exit_status();
    let printed = report.print(out);
    match report.print_aside(err) {
        Ok(()) => told_by_output(err, program, status, printed),
        Err(error) => Told {
            status: ExitCode::from(status),
            out: printed,
            err: Err(error),
        },
    }
}

/// Says how a call of the program of a name ended, where `ended` has what its work reports or why it has not done what it was
/// asked for: on standard output what the report prints, the help or the version, on standard error what is said besides or what went
/// wrong. What a stream does not take changes no exit status. That standard output took no text is said on standard error.
pub fn tell<R: Report, F: Reason, O: Write, E: Write>(
    out: &mut O,
    err: &mut E,
    program: &str,
    ended: &Result<R, Ending<F>>,
) -> Told
    ensures done { IfOk ended.now (λ report. R.has_status report (exit_status result.status)) }
    ensures failed { IfErr ended.now (λ ending. exit_status result.status ≡ ending_status F.status ending) }
    ensures text { IfOk ended.now (λ report. OnOk result.out (R.prints report (O.contents out.old) (O.contents out.new))) }
    ensures aside { IfOk ended.now (λ report. IsOk result.out → OnOk result.err (Appends (E.contents err.old) (E.contents err.new) (R.aside report))) }
    ensures line { IfErr ended.now (λ ending. IfSome (ending_line F.words F.no_memory program.now ending) (λ line.
        OnOk result.err (Appends (E.contents err.old) (E.contents err.new) line))) }
    ensures unprinted { IsErr result.out → OnOk result.err (Appends (E.contents err.old) (E.contents err.new) (said_before R.aside ended.now ++ unprinted_line program.now)) }
{
    match ended {
        Ok(report) => tell_report(out, err, program, report),
        Err(ending) => tell_ending(out, err, program, ending),
    }
}

// Prints a program's name and what is said after it.
fn print_after<W: Write>(err: &mut W, program: &str, said: &[u8]) -> io::Result<()>
    ensures text { OnOk result (Appends (W.contents err.old) (W.contents err.new) (program.now ++ said.now)) }
{
    err.write_all(program.as_bytes())?;
    err.write_all(said)?;
    Ok(())
}
