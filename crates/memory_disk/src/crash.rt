//! One of the folders that a crash may leave, as the calls that make it.

ghost use Rattle.std.specs.Prelude.{◌≡◌, IfOk, OnOk, Contains};
ghost use Rattle.files_in_place.specs.Folder.{Name};
ghost use Rattle.files_in_place.specs.Disk.{IsSynced};
ghost use Rattle.memory_disk.specs.Seen.{seen_after};
ghost use Rattle.memory_disk.specs.Outcomes.{AreSynced, IsWhole, MayLeave};
ghost use Rattle.memory_disk.specs.Crashes.{KeepsWhole};

pub(crate) mod edits;
mod steps;
mod tearing;

use crate::disk_call::{DiskCall, copy_calls};
use crate::seen_files::names_of;
use byte_io::Bytes;
use edits::push_call;
use std::alloc::{AllocError, Global};
use steps::take_step;
use tearing::tear_all;

// What a crash may leave after the calls, of which the latest is a sync: what is seen, but for files that may be torn.
fn left_by_sync(
    alloc: Global,
    calls: &[DiskCall],
    choices: &mut u64,
) -> Result<Vec<DiskCall>, AllocError>
    ensures kept { IfOk result (λ left. KeepsWhole calls.now (seen_after left.items)) }
{
    let mut left = copy_calls(alloc, calls)?;
    let names = names_of(alloc, calls)?;
    tear_all(alloc, calls, &names, &mut left, choices)?;
    Ok(left)
}

// What a crash may leave after the calls, the latest first, by a number that stands for all choices.
pub(crate) fn left_by_crash(
    alloc: Global,
    calls: &[DiskCall],
    choices: &mut u64,
) -> Result<Vec<DiskCall>, AllocError>
    ensures may { IfOk result (λ left. MayLeave calls.now (seen_after left.items)) }
{
    let [last, before @ ..] = calls else {
        return Ok(Vec::new(alloc));
    };
    match last {
        DiskCall::SyncFolder | DiskCall::SyncInPlace(_) => left_by_sync(alloc, calls, choices),
        _ => {
            let mut left = left_by_crash(alloc, before, choices)?;
            take_step(alloc, last, &mut left, choices)?;
            Ok(left)
        }
    }
}

// Adds a sync of each of the files.
fn sync_all(alloc: Global, names: &[Bytes], calls: &mut Vec<DiskCall>) -> Result<(), AllocError>
    ensures seen { OnOk result ((n : Name) → seen_after calls.new.items n ≡ seen_after calls.old.items n) }
    ensures kept { OnOk result ((n : Name) → AreSynced calls.old.items n → AreSynced calls.new.items n) }
    ensures synced { OnOk result ((n : Name) → Contains names.now n → AreSynced calls.new.items n) }
{
    let [name, rest @ ..] = names else {
        return Ok(());
    };
    push_call(calls, DiskCall::SyncFile(name.copy(alloc)?))?;
    sync_all(alloc, rest, calls)?;
    Ok(())
}

// Adds a sync of each file that is seen, and of the folder.
pub(crate) fn settle(alloc: Global, calls: &mut Vec<DiskCall>) -> Result<(), AllocError>
    ensures seen { OnOk result ((n : Name) → seen_after calls.new.items n ≡ seen_after calls.old.items n) }
    ensures synced { OnOk result (IsSynced (seen_after calls.new.items) (IsWhole calls.new.items) (MayLeave calls.new.items)) }
{
    let names = names_of(alloc, calls)?;
    sync_all(alloc, &names, calls)?;
    push_call(calls, DiskCall::SyncFolder)?;
    Ok(())
}
