//! Files of cases, one after another.

use crate::stage::Stage;
use case_files::{NumberedLine, Report, Step, Trouble, lines_of};
use folders::file_name;
use std::alloc::{AllocError, Global};
use std::io::{self, Write};
use std::sync::Wait;
use std::thread::Threads;

/// What was seen of cases.
#[derive(Clone, Copy)]
pub(crate) struct Tally {
    /// How many had every step as written.
    pub(crate) passed: u64,
    /// How many had not.
    pub(crate) failed: u64,
    /// How many answers were compared.
    pub(crate) answers: u64,
}

impl Tally {
    fn none() -> Tally {
        Tally {
            passed: 0,
            failed: 0,
            answers: 0,
        }
    }

    fn add(&mut self, other: Tally) {
        self.passed = self.passed.saturating_add(other.passed);
        self.failed = self.failed.saturating_add(other.failed);
        self.answers = self.answers.saturating_add(other.answers);
    }

    fn count(&mut self, has_passed: bool) {
        if has_passed {
            self.passed = self.passed.saturating_add(1);
        } else {
            self.failed = self.failed.saturating_add(1);
        }
    }
}

// A file that all cases have: its name, and its bytes.
#[derive(Drop)]
struct Given {
    name: Vec<u8>,
    bytes: Vec<u8>,
}

/// All cases, and the files that they have.
#[derive(Drop)]
pub(crate) struct Suite {
    alloc: Global,
    is_ample: bool,
    given: Vec<Given>,
    tally: Tally,
}

// A file of cases: its lines before the first of them, which are done anew for each.
#[derive(Clone, Copy)]
struct Shared<'a, 'b, 't> {
    given: &'a [Given],
    head: &'b [NumberedLine<'t>],
    is_ample: bool,
}

impl Suite {
    /// Without cases, which are to run with ample memory alone or also with scarce memory where they say so.
    pub(crate) fn new(alloc: Global, is_ample: bool) -> Suite {
        Suite {
            alloc,
            is_ample,
            given: Vec::new(alloc),
            tally: Tally::none(),
        }
    }

    /// What was seen of all cases.
    pub(crate) fn tally(&self) -> Tally {
        self.tally
    }

    /// Gives a file to all cases from now on, under the name that its path ends with.
    pub(crate) fn give(&mut self, path: &str, bytes: &[u8]) -> Result<(), AllocError> {
        let name = Vec::from_slice(self.alloc, file_name(path.as_bytes()))?;
        let bytes = Vec::from_slice(self.alloc, bytes)?;
        self.given.push(Given { name, bytes })?;
        Ok(())
    }

    /// Runs the cases of a file, and tells of each.
    pub(crate) fn run<R: Threads + Wait + Sync, O: Write, E: Write>(
        &mut self,
        rt: &R,
        path: &str,
        text: &[u8],
        out: &mut O,
        err: &mut E,
    ) -> io::Result<()> {
        let mut report = Report::new(self.alloc, path);
        let tally = self.run_cases(rt, &mut report, path, text, out)?;
        self.tally.add(tally);
        err.write_all(report.text())
    }

    // Runs the cases of a text, and tells of each.
    fn run_cases<R: Threads + Wait + Sync, O: Write>(
        &self,
        rt: &R,
        report: &mut Report<'_>,
        path: &str,
        text: &[u8],
        out: &mut O,
    ) -> io::Result<Tally> {
        let lines = lines_of(self.alloc, text)?;
        let mut tally = Tally::none();
        let mut parts = lines.split(|line| line.is_title());
        let Some(head) = parts.next() else {
            return Ok(tally);
        };
        let shared = Shared {
            given: &self.given,
            head,
            is_ample: self.is_ample,
        };
        let titles = lines.iter().filter(|line| line.is_title());
        for (title, case) in titles.zip(parts) {
            let (answers, wrong) = (report.answers(), report.wrong());
            run_both(rt, self.alloc, report, &shared, case)?;
            let wrong = report.wrong().saturating_sub(wrong);
            tally.count(wrong == 0);
            tell_title(out, path, title.text)?;
            tell_case(out, report.answers().saturating_sub(answers), wrong)?;
        }
        tally.answers = report.answers();
        Ok(tally)
    }

    /// Tells how many cases have passed.
    pub(crate) fn tell<O: Write>(&self, out: &mut O) -> io::Result<()> {
        let (passed, failed) = (self.tally.passed, self.tally.failed);
        writeln!(out, "{} answers compared", self.tally.answers)?;
        writeln!(out, "{passed} passed, {failed} failed")
    }
}

// Tells which case it is, by its file and its first line.
fn tell_title<O: Write>(out: &mut O, path: &str, title: &[u8]) -> io::Result<()> {
    write!(out, "{path}: ")?;
    out.write_all(title.strip_prefix(b"== ").unwrap_or(title))
}

// Tells what was seen of a case.
fn tell_case<O: Write>(out: &mut O, answers: u64, wrong: u64) -> io::Result<()> {
    if wrong == 0 {
        writeln!(out, ": {answers} answers as written")
    } else {
        writeln!(out, ": {answers} answers, {wrong} NOT as written")
    }
}

// Runs a case; one that begins with `scarce` is run with ample memory first, and then with scarce memory unless that is left out.
fn run_both<R: Threads + Wait + Sync>(
    rt: &R,
    alloc: Global,
    report: &mut Report<'_>,
    shared: &Shared<'_, '_, '_>,
    case: &[NumberedLine<'_>],
) -> Result<(), AllocError> {
    match case.split_first() {
        Some((line, ample)) if line.text == b"scarce".as_slice() => {
            run_case(rt, alloc, report, shared, ample)?;
            if shared.is_ample {
                return Ok(());
            }
        }
        _ => {}
    }
    run_case(rt, alloc, report, shared, case)
}

// Runs a case after what stands before all of its file. After a step that is none the others are left out.
fn run_case<R: Threads + Wait + Sync>(
    rt: &R,
    alloc: Global,
    report: &mut Report<'_>,
    shared: &Shared<'_, '_, '_>,
    case: &[NumberedLine<'_>],
) -> Result<(), AllocError> {
    let mut stage = Stage::new(alloc);
    put_given(alloc, &stage, shared.given)?;
    if run_head(rt, alloc, report, &mut stage, shared)? {
        let _ = run_steps(rt, report, &mut stage, case)?;
    }
    Ok(())
}

// Puts the files that all cases have into a case.
fn put_given(alloc: Global, stage: &Stage, given: &[Given]) -> Result<(), AllocError> {
    for file in given {
        let bytes = Vec::from_slice(alloc, &file.bytes)?;
        stage.place().put(&file.name, bytes)?;
    }
    Ok(())
}

// Runs what stands before the cases: whether each step is one. The files that are used come first.
fn run_head<R: Threads + Wait + Sync>(
    rt: &R,
    alloc: Global,
    report: &mut Report<'_>,
    stage: &mut Stage,
    shared: &Shared<'_, '_, '_>,
) -> Result<bool, AllocError> {
    let mut uses = 0;
    for line in shared.head {
        let Some(name) = line.text.strip_prefix(b"use ") else {
            break;
        };
        if !run_given(rt, alloc, report, stage, shared.given, name)? {
            return Ok(false);
        }
        uses = usize::saturating_add(uses, 1);
    }
    match shared.head.get(uses..) {
        Some(own) => run_steps(rt, report, stage, own),
        None => Ok(true),
    }
}

// Runs the steps of the given files of a name: whether each is one.
fn run_given<R: Threads + Wait + Sync>(
    rt: &R,
    alloc: Global,
    report: &mut Report<'_>,
    stage: &mut Stage,
    given: &[Given],
    name: &[u8],
) -> Result<bool, AllocError> {
    for file in given {
        if file.name.as_slice() == name {
            let lines = lines_of(alloc, &file.bytes)?;
            return run_steps(rt, report, stage, &lines);
        }
    }
    Ok(true)
}

// Runs steps, each with the lines below it: whether each is one.
fn run_steps<R: Threads + Wait + Sync>(
    rt: &R,
    report: &mut Report<'_>,
    stage: &mut Stage,
    lines: &[NumberedLine<'_>],
) -> Result<bool, AllocError> {
    let mut at = 0;
    for _ in 0..lines.len() {
        let Some(left) = lines.get(at..) else {
            break;
        };
        let Some((step, after)) = Step::cut(left) else {
            break;
        };
        if !run_step(rt, report, stage, &step)? {
            return Ok(false);
        }
        at = lines.len().saturating_sub(after.len());
    }
    Ok(true)
}

// Runs a step: whether it is one.
fn run_step<R: Threads + Wait + Sync>(
    rt: &R,
    report: &mut Report<'_>,
    stage: &mut Stage,
    step: &Step<'_, '_>,
) -> Result<bool, AllocError> {
    match stage.perform(rt, report, step) {
        Ok(()) => Ok(true),
        Err(Trouble::NoMemory) => Err(AllocError),
        Err(trouble) => {
            report.trouble(step, trouble)?;
            Ok(false)
        }
    }
}
