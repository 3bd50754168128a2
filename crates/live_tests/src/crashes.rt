//! Days of one keyboard whose disk fails after each of its calls and then crashes: the next start goes on with what was shown.

ghost use Rattle.std.specs.Prelude.{◌≡◌, false, IfOk};
ghost use Rattle.files_in_place.specs.Folder.{Name, is_reserved};
ghost use Rattle.memory_disk.specs.Outcomes.{IsWhole};

use crate::one_keyboard::live_with;
use crate::samples::{empty_folder, has_file, left_by};
use files_in_place::{Disk, recover};
use live_program::{LOG_NAME, Lived};
use memory_disk::MemoryDisk;
use open_day::is_day_open;
use program_frame::InPlace;
use std::alloc::{AllocError, Global};
use std::io::BufReader;
use std::test::Fail;

// What is typed before the crash, what it is answered, and what of that station 1 is.
const TYPED: &[u8] = b"USE T\nSTATION 2\nUSE T\nSTATION 1\nGO 2\nDELETE\n";

const ANSWERS: &[u8] = b"OK\nOK\nOK\nREFUSED 5 NotLocked\n";

const ANSWERS_OF_ONE: &[u8] = b"OK\nOK\nREFUSED 5 NotLocked\n";

// How many calls of the disk a start makes on an empty folder, and a group of the log; and more than such a day makes.
const CALLS_OF_START: u64 = 23;

const CALLS_OF_GROUP: u64 = 4;

const CALLS: u64 = 90;

// In how many of its ways a crash is tried.
const WAYS: u64 = 16;

// A number that stands for all choices of a crash: such numbers lie far apart.
fn choices_of(way: u64) -> u64 {
    way.wrapping_add(1).wrapping_mul(0x9E37_79B9_7F4A_7C15) >> 20
}

// How many lines a text has.
fn count_lines(text: &[u8]) -> u64 {
    text.iter().filter(|byte| **byte == b'\n').count() as u64
}

// A day whose disk fails after some call: whether it came to its end, what was shown, and the folder then.
#[derive(Drop)]
struct Crashed {
    is_closed: bool,
    shown: Vec<u8>,
    disk: MemoryDisk,
}

// A day in a folder, whose lines come each alone or together, by how many bytes are read at once.
fn live(alloc: Global, disk: MemoryDisk, typed: &[u8], bytes: usize) -> Result<Crashed, Fail>
    requires whole { (n : Name) → is_reserved n ≡ false → IsWhole disk.calls n }
{
    let mut shown: Vec<u8> = Vec::new(alloc);
    let reader = BufReader::with_capacity(alloc, bytes, typed)?;
    let InPlace { ended, disk } = live_with(alloc, disk, reader, &mut shown)?;
    Ok(Crashed {
        is_closed: ended.is_ok(),
        shown,
        disk,
    })
}

// Whether a folder that is recovered has the new files of a day, in which station 1 was answered this, and the log of a closed one.
fn has_new_files(alloc: Global, disk: &mut MemoryDisk, answers: &[u8]) -> Result<bool, Fail> {
    Ok(
        disk.has(b"T.DBF")?
            && has_file(alloc, disk, b"STATION1.TXT", answers)?
            && !is_day_open(alloc, disk)?,
    )
}

// Whether a folder after a crash has such files once it is recovered.
fn is_closed_by_recovery(
    alloc: Global,
    disk: &MemoryDisk,
    choices: u64,
    answers: &[u8],
) -> Result<bool, Fail> {
    let mut left = left_by(disk, choices)?;
    let Ok(()) = recover(alloc, &mut left) else {
        return Err("the folder is not recovered".into());
    };
    has_new_files(alloc, &mut left, answers)
}

// How many commands a day of no line has.
fn count_in(alloc: Global, disk: MemoryDisk) -> Result<Option<u64>, Fail>
    requires whole { (n : Name) → is_reserved n ≡ false → IsWhole disk.calls n }
{
    let typed: &[u8] = b"";
    let shown: Vec<u8> = Vec::new(alloc);
    let InPlace { ended, disk } = live_with(alloc, disk, typed, shown)?;
    let mut disk = disk;
    let is_open = is_day_open(alloc, &mut disk)?;
    match ended {
        Ok(Lived { count }) if !is_open => Ok(Some(count)),
        _ => Ok(None),
    }
}

// How many commands the next start performs again after a crash. An error where its day is not closed.
fn count_again(alloc: Global, disk: &MemoryDisk, choices: u64) -> Result<u64, Fail> {
    match count_in(alloc, left_by(disk, choices)?)? {
        Some(count) => Ok(count),
        None => Err("the next day is not closed".into()),
    }
}

// Whether what a day has shown is kept after a crash: by its new files, or by the log that the next start goes on with.
fn is_kept(alloc: Global, day: &Crashed, choices: u64, answers: &[u8]) -> Result<bool, Fail> {
    if is_closed_by_recovery(alloc, &day.disk, choices, answers)? {
        return Ok(true);
    }
    let count = count_again(alloc, &day.disk, choices)?;
    Ok(!day.is_closed && count >= count_lines(day.shown.as_slice()))
}

// Whether what a day shows is kept whose lines come alone and whose disk fails after so many calls. How many answers were shown.
fn shown_and_kept(alloc: Global, calls: u64) -> Result<Option<u64>, Fail> {
    let day = live(alloc, empty_folder(alloc, calls), TYPED, 1)?;
    if ANSWERS.starts_with(day.shown.as_slice())
        && is_kept(alloc, &day, choices_of(calls), ANSWERS_OF_ONE)?
    {
        return Ok(Some(count_lines(day.shown.as_slice())));
    }
    Ok(None)
}

#[test]
fn what_was_shown_is_performed_again_or_in_the_new_files(rt: HostRuntime) -> Result<(), Fail> {
    let mut begun = 0u64;
    let mut ended = 0u64;
    for calls in 0..CALLS {
        match shown_and_kept(rt.alloc(), calls)? {
            Some(0) => {}
            Some(4) => ended = ended.saturating_add(1),
            Some(_) => begun = begun.saturating_add(1),
            None => assert!(rt; false),
        }
    }
    // Each line but the first makes four calls before it is shown, and the first as many after the start.
    assert!(rt;
        begun == 3 * CALLS_OF_GROUP && ended == CALLS - CALLS_OF_START - 4 * CALLS_OF_GROUP
    );
    Ok(())
}

// In how many ways of a crash the next start performs all lines again, which were one group; in the others it performs none.
fn count_ways(alloc: Global, disk: &MemoryDisk) -> Result<u64, Fail> {
    let mut ways = 0u64;
    for way in 0..WAYS {
        match count_again(alloc, disk, choices_of(way))? {
            4 => ways = ways.saturating_add(1),
            0 => {}
            _ => return Err("a part of the group".into()),
        }
    }
    Ok(ways)
}

// The same after so many calls of the group.
fn count_ways_after(alloc: Global, calls: u64) -> Result<u64, Fail> {
    let folder = empty_folder(alloc, CALLS_OF_START.saturating_add(calls));
    let day = live(alloc, folder, TYPED, 1_000)?;
    count_ways(alloc, &day.disk)
}

// In how many ways of a crash a group may count after so many of its calls, at least and at most: until it is on the disk in none, while
// its gate is opened in those where the write is done, or a torn one leaves any gate but a shut one, and then in all.
const COUNTS: [(u64, u64, u64); 5] = [
    (0, 0, 0),
    (1, 0, 0),
    (2, 0, 0),
    (3, 1, WAYS - 1),
    (CALLS_OF_GROUP, WAYS, WAYS),
];

#[test]
fn a_group_counts_whole_or_not_at_all(rt: HostRuntime) -> Result<(), Fail> {
    for (calls, least, most) in COUNTS {
        let ways = count_ways_after(rt.alloc(), calls)?;
        assert!(rt; least <= ways && ways <= most);
    }
    Ok(())
}

// The log of two entries, and of a part of a group, behind its head.
const TORN: &[u8] =
    b"read 5 38 79a171ea0a9cba85847a9fcb499b192d5f0d9ab4ae834cd3db166afd1a93893f A.SET\n\
      read 5 88 7f2ba3d33b7041bc26f3fac6162fba6e976cc7f5b32ab4d63097eda13b8d2efa T.DBF\n\
      reindex no\n\
      earlier 0 commands\n\
      +8bec0ec40ff649fe 1 5 2 USE T OK\n+8c8236226da7c9ac 1 4 2 GO 2 OK\n-6d99f71356e8ec2c 1 6 2 DE";

// A folder with that log of which only so many calls are done.
fn torn_folder(alloc: Global, calls: u64) -> Result<MemoryDisk, AllocError>
    ensures whole { IfOk result (λ disk. (n : Name) → is_reserved n ≡ false → IsWhole disk.calls n) }
{
    let mut disk = MemoryDisk::new(alloc).with_file(LOG_NAME, TORN)?;
    disk.allow(calls);
    Ok(disk)
}

// Whether a day of no line, whose disk fails after so many calls and crashes, leaves both entries to the next start, or new files.
fn keeps_both(alloc: Global, calls: u64) -> Result<bool, Fail> {
    let day = live(alloc, torn_folder(alloc, calls)?, b"", 1)?;
    let choices = choices_of(calls);
    Ok(
        is_closed_by_recovery(alloc, &day.disk, choices, b"OK\nOK\n")?
            || count_again(alloc, &day.disk, choices)? == 2,
    )
}

#[test]
fn a_start_that_crashes_loses_no_entry(rt: HostRuntime) -> Result<(), Fail> {
    for calls in 0..CALLS {
        assert!(rt; keeps_both(rt.alloc(), calls)?);
    }
    Ok(())
}

// The log of a day that was closed.
const CLOSED: &[u8] = b"-8 commands\n";

// A folder with that log of which only so many calls are done.
fn closed_folder(alloc: Global, calls: u64) -> Result<MemoryDisk, AllocError>
    ensures whole { IfOk result (λ disk. (n : Name) → is_reserved n ≡ false → IsWhole disk.calls n) }
{
    let mut disk = MemoryDisk::new(alloc).with_file(LOG_NAME, CLOSED)?;
    disk.allow(calls);
    Ok(disk)
}

// Whether a day of no line ends with that log, too.
fn ends_with_the_number(alloc: Global, disk: MemoryDisk) -> Result<bool, Fail>
    requires whole { (n : Name) → is_reserved n ≡ false → IsWhole disk.calls n }
{
    let typed: &[u8] = b"";
    let shown: Vec<u8> = Vec::new(alloc);
    let InPlace { ended, disk } = live_with(alloc, disk, typed, shown)?;
    let mut disk = disk;
    Ok(ended.is_ok() && has_file(alloc, &mut disk, LOG_NAME, CLOSED)?)
}

// Whether a day of no line, whose disk fails after so many calls and crashes, leaves the number of the day before to the next start.
fn keeps_the_number(alloc: Global, calls: u64) -> Result<bool, Fail> {
    let day = live(alloc, closed_folder(alloc, calls)?, b"", 1)?;
    ends_with_the_number(alloc, left_by(&day.disk, choices_of(calls))?)
}

#[test]
fn a_start_that_crashes_keeps_the_number_of_the_day_before(rt: HostRuntime) -> Result<(), Fail> {
    for calls in 0..CALLS {
        assert!(rt; keeps_the_number(rt.alloc(), calls)?);
    }
    Ok(())
}
