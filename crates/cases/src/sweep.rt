//! A program that is run again and again, with a call of a device that fails one later each time.

use crate::programs::Call;
use case_files::{Place, PlaceSystem, Report, Step, Stored, Trouble};
use std::alloc::Global;
use std::sync::Wait;
use std::thread::Threads;

/// The most calls of a device that fail in turn.
const MAX_FAILURES: u64 = 10_000;

/// Which device fails in turn.
#[derive(Clone, Copy, PartialEq, Eq)]
pub(crate) enum Sweep {
    /// The loads of files.
    Loads,
    /// The calls of disks.
    Writes,
}

// The files before a run that did not fail, and after it.
#[derive(Clone, Copy)]
struct Whole<'a, 'b> {
    before: &'a [Stored],
    after: &'b [Stored],
}

/// Runs a program again and again on the files as they were, with a call of a device more each time before one fails, until none
/// does. Each time it must fail, and all new files must be in place or none. At the end the files are those of the run before.
pub(crate) fn fail_in_turn<R: Threads + Wait + Sync>(
    rt: &R,
    alloc: Global,
    place: &Place,
    report: &mut Report<'_>,
    step: &Step<'_, '_>,
    call: &Call<'_, '_>,
    sweep: Sweep,
    before: &[Stored],
) -> Result<(), Trouble> {
    let after = place.copies()?;
    let whole = Whole {
        before,
        after: &after,
    };
    for calls in 0..MAX_FAILURES {
        place.restore(before)?;
        match sweep {
            Sweep::Loads => place.devices().allow(calls, u64::MAX, false),
            Sweep::Writes => place.devices().allow(u64::MAX, calls, false),
        }
        if !fails(rt, alloc, place, report, step, call, &whole)? {
            return Ok(());
        }
    }
    Err(Trouble::Bad("too many calls"))
}

// Runs a program whose device may fail: whether it did. Compares its status and what it leaves.
fn fails<R: Threads + Wait + Sync>(
    rt: &R,
    alloc: Global,
    place: &Place,
    report: &mut Report<'_>,
    step: &Step<'_, '_>,
    call: &Call<'_, '_>,
    whole: &Whole<'_, '_>,
) -> Result<bool, Trouble> {
    let status = call.run(rt, alloc, place)?.status;
    let has_failed = place.devices().has_failed();
    place.devices().allow_all();
    if !has_failed {
        report.compare_fact(step, b"the same files", place.is_as(whole.after))?;
        return Ok(false);
    }
    report.compare_fact(step, b"a status of failure", status != 0)?;
    if let Some(path) = call.value_after("--out") {
        PlaceSystem::new(place).recover(path);
    }
    let is_whole = place.is_as(whole.before) || place.is_as(whole.after);
    report.compare_fact(step, b"all files or none", is_whole)?;
    Ok(true)
}
