//! Runs of one station, which has a thread, where one request for memory after another is refused.

use super::sample::{SCRIPT, source};
use super::setups::catalogues;
use super::stack::grow_stack;
use byte_io::Bytes;
use catalogue_core::{Catalogue, OpenFault, Stop};
use dbf_fields::{Day, day_of};
use folders::{MemoryFolder, MemorySource};
use office_run::{CloseFault, OpenGate, Outcome, RunFault, ServeFault, run_catalogue, serve};
use scarce::{Attempt, ThreadRefusals, thread_refusals};
use std::alloc::{AllocError, Global};
use std::process::Abort;
use std::sync::Wait;
use std::test::Fail;
use std::thread::Threads;

// The most bytes that a run needs before it starts the station's thread.
const ENOUGH: usize = 20_480;

// The most pages that it needs in all.
const PAGES: usize = 250;

// How often a run is tried at most.
const TRIES: usize = ENOUGH / 16 + PAGES + 2;

// What the station is answered.
const ANSWERS: &[u8] =
    b"OK\nOK\nOK\nEVE       \nREFUSED 10 NoSuchField\nSTATUS 5 1 110 1 0 0 0 0 0 0 0 0 0 0 0 0 0 0 0 0 0 0 0\n";

// How often a run ended in each of its ways.
type Ends = [usize; 4];

// Which of its ways a run ended in; `None` where want of memory can't be why.
fn way_of(fault: &ServeFault) -> Option<usize> {
    match fault {
        // While files were read, the catalogue was opened, or files were planned.
        ServeFault::NoMemory
        | ServeFault::Refused(OpenFault::NoMemory)
        | ServeFault::Close(CloseFault::NoMemory) => Some(0),
        // In the run of the stations, outside of their threads.
        ServeFault::Run(RunFault::NoMemory) => Some(1),
        ServeFault::Run(RunFault::NoThread(1)) => Some(2),
        ServeFault::Run(RunFault::Stopped(1, Stop::NoMemory)) => Some(3),
        _ => None,
    }
}

// Counts a fault, where it is one that want of memory may give.
fn count(ends: &mut Ends, fault: &ServeFault) -> bool {
    let Some(way) = way_of(fault) else {
        return false;
    };
    match ends.get_mut(way) {
        Some(count) => {
            *count = count.saturating_add(1);
            true
        }
        None => false,
    }
}

// Catalogues for all tries of a run, and the scripts.
#[derive(Drop)]
struct Runs {
    catalogues: Vec<Catalogue>,
    scripts: Vec<Bytes>,
}

fn make_runs(alloc: Global) -> Result<Runs, Fail> {
    let scripts = vec![in alloc; Bytes::from_slice(alloc, SCRIPT)?]?;
    let catalogues = catalogues(alloc, 1, TRIES)?;
    Ok(Runs {
        catalogues,
        scripts,
    })
}

// Whether a run left five entries and the answers of its script.
fn is_answered(outcome: &Outcome) -> bool {
    outcome.closed.entry_count() == 5
        && outcome.answers.len() == 1
        && outcome.answers[0].as_slice() == ANSWERS
}

// How the run of the script on the last of the catalogues ends.
fn run_attempt<R: Threads + Wait + Sync>(
    rt: &R,
    alloc: Global,
    runs: &mut Runs,
    ends: &mut Ends,
) -> Attempt {
    let Some(catalogue) = runs.catalogues.pop() else {
        return Attempt::Wrong;
    };
    if !catalogue.journal().is_empty() {
        return Attempt::Wrong;
    }
    match run_catalogue(rt, alloc, catalogue, &runs.scripts, &OpenGate) {
        Ok(outcome) => Attempt::right_if(is_answered(&outcome)),
        Err(fault) => Attempt::refused_if(count(ends, &ServeFault::Run(fault))),
    }
}

// How often runs are refused memory before they end as they are to.
fn run_refusals<R: Threads + Wait + Sync>(
    rt: &R,
    alloc: Global,
    runs: &mut Runs,
    ends: &mut Ends,
) -> Result<Option<ThreadRefusals>, Fail> {
    grow_stack(alloc)?;
    Ok(thread_refusals(alloc, ENOUGH, PAGES, || run_attempt(rt, alloc, runs, ends))?)
}

#[test]
fn run_where_memory_is_refused(rt: HostRuntime) -> Result<(), Fail> {
    let alloc = rt.alloc();
    let mut ends = [0; 4];
    let found = run_refusals(&rt, alloc, &mut make_runs(alloc)?, &mut ends)?;
    println!(rt; "{found:?}, {ends:?}")?;
    let [_, running, no_thread, stopped] = ends;
    assert!(rt; found.is_some());
    assert!(rt; 0 < running && 0 < no_thread && 0 < stopped);
    Ok(())
}

// The setup of a whole run, its files, and folders with the memory for those that are written.
#[derive(Drop)]
struct Office {
    setup: Bytes,
    today: Day,
    source: MemorySource,
    folders: Vec<MemoryFolder>,
}

// A folder with the memory for the files of a run.
fn folder(alloc: Global) -> Result<MemoryFolder, AllocError> {
    MemoryFolder::with_room(alloc, 4, 12, 2048)
}

fn make_office(alloc: Global) -> Result<Office, Fail> {
    let today = day_of(1987, 3, 15).ok_or("a date")?;
    let setup = Bytes::from_slice(alloc, b"S.SET")?;
    let source = source(alloc)?;
    let folders = vec![in alloc; folder(alloc)?, folder(alloc)?, folder(alloc)?]?;
    Ok(Office {
        setup,
        today,
        source,
        folders,
    })
}

// Whether a run of five commands wrote T.DBF, T.DBT, X.NDX, and the answers.
fn is_whole(count: u64, folder: &MemoryFolder) -> bool {
    count == 5 && folder.files.len() == 4 && folder.files[3].bytes.as_slice() == ANSWERS
}

// How a whole run into the last of the folders ends: with all files, or before a file is begun.
fn serve_attempt<R: Threads + Wait + Sync>(
    rt: &R,
    alloc: Global,
    office: &mut Office,
    ends: &mut Ends,
) -> Attempt {
    let Some(mut folder) = office.folders.pop() else {
        return Attempt::Wrong;
    };
    let (setup, today) = (&office.setup, office.today);
    let source = &mut office.source;
    match serve(
        rt,
        alloc,
        setup,
        today,
        false,
        source,
        &mut folder,
        &OpenGate,
    ) {
        Ok(counts) => Attempt::right_if(is_whole(counts.all, &folder)),
        Err(fault) => {
            let is_kept = count(ends, &fault) && folder.files.is_empty();
            Attempt::refused_if(office.folders.push(folder).is_ok() && is_kept)
        }
    }
}

// How often whole runs are refused memory before they end as they are to, and whether one with ample memory does so too.
fn serve_refusals<R: Threads + Wait + Sync>(
    rt: &R,
    alloc: Global,
    office: &mut Office,
    ends: &mut Ends,
) -> Result<(Option<ThreadRefusals>, Attempt), Fail> {
    grow_stack(alloc)?;
    let found = thread_refusals(
        alloc,
        ENOUGH,
        PAGES,
        || serve_attempt(rt, alloc, office, ends),
    )?;
    Ok((found, serve_attempt(rt, alloc, office, ends)))
}

#[test]
fn serve_where_memory_is_refused(rt: HostRuntime) -> Result<(), Fail> {
    let alloc = rt.alloc();
    let mut ends = [0; 4];
    let (found, ample) = serve_refusals(&rt, alloc, &mut make_office(alloc)?, &mut ends)?;
    println!(rt; "{found:?}, {ends:?}")?;
    let [beside, _, no_thread, stopped] = ends;
    assert!(rt; found.is_some() && ample == Attempt::Right);
    assert!(rt; 0 < beside && 0 < no_thread && 0 < stopped);
    Ok(())
}
