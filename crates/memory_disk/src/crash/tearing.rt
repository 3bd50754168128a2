//! Files whose names are on the disk, and whose bytes need not be. A file that was written over where it is stays as it is seen here.

ghost use Rattle.std.specs.Prelude.{◌≡◌, IfOk, OnOk};
ghost use Rattle.memory_disk.specs.Seen.{seen_after};
ghost use Rattle.memory_disk.specs.Crashes.{are_kept, is_torn_by, KeepsWhole};

use crate::crash::steps::tear_file;
use crate::disk_call::DiskCall;
use crate::seen_files::content_of;
use byte_io::Bytes;
use std::alloc::{AllocError, Global};

// Whether the bytes of the name's file have been synced since they were written, or written over where they are.
fn are_kept(calls: &[DiskCall], name: &[u8]) -> bool
    ensures value { result ≡ are_kept calls.now name.now }
{
    let [last, before @ ..] = calls else {
        return true;
    };
    match last {
        DiskCall::Create(changed) | DiskCall::Append(changed, _) => {
            if changed.as_slice() == name {
                return false;
            }
            are_kept(before, name)
        }
        DiskCall::SyncFile(kept) | DiskCall::WriteAt(kept, _, _) | DiskCall::SyncInPlace(kept) => {
            if kept.as_slice() == name {
                return true;
            }
            are_kept(before, name)
        }
        DiskCall::Rename(from, to) => {
            if to.as_slice() == name {
                return are_kept(before, from.as_slice());
            }
            are_kept(before, name)
        }
        DiskCall::Remove(_) | DiskCall::SyncFolder => are_kept(before, name),
    }
}

// Whether a crash may make anything of the name's file.
fn is_torn(alloc: Global, calls: &[DiskCall], name: &[u8]) -> Result<bool, AllocError>
    ensures torn { IfOk result (λ torn. torn ≡ is_torn_by (are_kept calls.now name.now) (seen_after calls.now name.now)) }
{
    if are_kept(calls, name) {
        return Ok(false);
    }
    match content_of(alloc, calls, name)? {
        Some(_) => Ok(true),
        None => Ok(false),
    }
}

// Tears the name's file, if a crash may.
fn tear_one(
    alloc: Global,
    calls: &[DiskCall],
    name: &[u8],
    left: &mut Vec<DiskCall>,
    choices: &mut u64,
) -> Result<(), AllocError>
    ensures kept { OnOk result (KeepsWhole calls.now (seen_after left.old.items) → KeepsWhole calls.now (seen_after left.new.items)) }
{
    if !is_torn(alloc, calls, name)? {
        return Ok(());
    }
    tear_file(alloc, left, name, choices)?;
    Ok(())
}

// Tears each of the files that a crash may tear.
pub(crate) fn tear_all(
    alloc: Global,
    calls: &[DiskCall],
    names: &[Bytes],
    left: &mut Vec<DiskCall>,
    choices: &mut u64,
) -> Result<(), AllocError>
    ensures kept { OnOk result (KeepsWhole calls.now (seen_after left.old.items) → KeepsWhole calls.now (seen_after left.new.items)) }
{
    let [name, rest @ ..] = names else {
        return Ok(());
    };
    tear_one(alloc, calls, name.as_slice(), left, choices)?;
    tear_all(alloc, calls, rest, left, choices)?;
    Ok(())
}
