//! A call in one of the ways in which a crash may leave it.

ghost use Rattle.std.specs.Prelude.{◌≤◌, length, IfOk, OnOk};
ghost use Rattle.files_in_place.specs.Folder.{SameBut};
ghost use Rattle.files_in_place.specs.Disk.{MayMove, MayRemove};
ghost use Rattle.disk_in_place.specs.InPlace.{MayTear};
ghost use Rattle.memory_disk.specs.Seen.{seen_after};
ghost use Rattle.memory_disk.specs.Crashes.{MayStep};

use crate::crash::edits::{copy_file, empty_file, lengthen_file, push_call, put_file, remove_file};
use crate::disk_call::DiskCall;
use byte_io::Bytes;
use std::alloc::{AllocError, Global};

// Bytes that nobody wrote. As a list they name a file that a test may have.
const FOREIGN: &[u8] = b"A\nC\n#";

// The byte that nobody wrote, where it isn't 0: in a log of lines it opens a gate.
const FILLER: u8 = b'+';

// Takes one choice off a number that stands for all choices.
fn choose(choices: &mut u64) -> bool {
    let choice = *choices % 2;
    *choices /= 2;
    choice == 1
}

// Gives the name no file, an empty one, foreign bytes or what it has.
pub(crate) fn tear_file(
    alloc: Global,
    left: &mut Vec<DiskCall>,
    name: &[u8],
    choices: &mut u64,
) -> Result<(), AllocError>
    ensures others { OnOk result (SameBut name.now (seen_after left.old.items) (seen_after left.new.items)) }
{
    if choose(choices) {
        return Ok(());
    }
    if choose(choices) {
        return remove_file(alloc, left, name);
    }
    if choose(choices) {
        return empty_file(alloc, left, name);
    }
    put_file(alloc, left, name, FOREIGN)
}

// Makes a file, or tears it.
fn create_in_part(
    alloc: Global,
    left: &mut Vec<DiskCall>,
    name: &[u8],
    choices: &mut u64,
) -> Result<(), AllocError>
    ensures others { OnOk result (SameBut name.now (seen_after left.old.items) (seen_after left.new.items)) }
{
    if choose(choices) {
        return empty_file(alloc, left, name);
    }
    tear_file(alloc, left, name, choices)
}

// Writes bytes to a file, or tears it.
fn append_in_part(
    alloc: Global,
    left: &mut Vec<DiskCall>,
    name: &[u8],
    bytes: &[u8],
    choices: &mut u64,
) -> Result<(), AllocError>
    ensures others { OnOk result (SameBut name.now (seen_after left.old.items) (seen_after left.new.items)) }
{
    if choose(choices) {
        return lengthen_file(alloc, left, name, bytes);
    }
    tear_file(alloc, left, name, choices)
}

// Moves a file, or leaves it where it was; or both names have it.
fn rename_in_part(
    alloc: Global,
    left: &mut Vec<DiskCall>,
    from: &[u8],
    to: &[u8],
    choices: &mut u64,
) -> Result<(), AllocError>
    ensures moved { OnOk result (MayMove from.now to.now (seen_after left.old.items) (seen_after left.new.items)) }
{
    if choose(choices) {
        return Ok(());
    }
    if choose(choices) {
        return copy_file(alloc, left, from, to);
    }
    let from = Bytes::from_slice(alloc, from)?;
    let to = Bytes::from_slice(alloc, to)?;
    push_call(left, DiskCall::Rename(from, to))?;
    Ok(())
}

// Removes a file, or not.
fn remove_in_part(
    alloc: Global,
    left: &mut Vec<DiskCall>,
    name: &[u8],
    choices: &mut u64,
) -> Result<(), AllocError>
    ensures removed { OnOk result (MayRemove name.now (seen_after left.old.items) (seen_after left.new.items)) }
{
    if choose(choices) {
        return Ok(());
    }
    remove_file(alloc, left, name)
}

// The bytes that a crash makes of these: each half is there, or bytes that nobody wrote.
fn torn_bytes(alloc: Global, bytes: &[u8], choices: &mut u64) -> Result<Bytes, AllocError>
    ensures no_more { IfOk result (λ torn. length torn ≤ length bytes.now) }
{
    let has_front = choose(choices);
    let has_back = choose(choices);
    let filler = if choose(choices) { FILLER } else { 0 };
    let mut torn = Vec::new(alloc);
    for (i, byte) in bytes.iter().enumerate() {
        let is_there = if i < bytes.len() / 2 {
            has_front
        } else {
            has_back
        };
        torn.push(if is_there { *byte } else { filler })?;
    }
    Ok(Bytes::from_vec(torn))
}

// Writes over a file, or tears what is written, or leaves the file as it was.
fn write_in_part(
    alloc: Global,
    left: &mut Vec<DiskCall>,
    name: &[u8],
    offset: u64,
    bytes: &[u8],
    choices: &mut u64,
) -> Result<(), AllocError>
    ensures torn { OnOk result (MayTear name.now offset (length bytes.now) (seen_after left.old.items) (seen_after left.new.items)) }
{
    if choose(choices) {
        return Ok(());
    }
    let name = Bytes::from_slice(alloc, name)?;
    let torn = torn_bytes(alloc, bytes, choices)?;
    push_call(left, DiskCall::WriteAt(name, offset, torn))?;
    Ok(())
}

// Does a call that changes a file or a name, in one of the ways in which a crash may leave it.
pub(crate) fn take_step(
    alloc: Global,
    call: &DiskCall,
    left: &mut Vec<DiskCall>,
    choices: &mut u64,
) -> Result<(), AllocError>
    ensures step { OnOk result (MayStep call.now (seen_after left.old.items) (seen_after left.new.items)) }
{
    match call {
        DiskCall::Create(name) => create_in_part(alloc, left, name.as_slice(), choices),
        DiskCall::Append(name, bytes) => append_in_part(
            alloc,
            left,
            name.as_slice(),
            bytes.as_slice(),
            choices,
        ),
        DiskCall::Rename(from, to) => rename_in_part(
            alloc,
            left,
            from.as_slice(),
            to.as_slice(),
            choices,
        ),
        DiskCall::Remove(name) => remove_in_part(alloc, left, name.as_slice(), choices),
        DiskCall::WriteAt(name, offset, bytes) => write_in_part(
            alloc,
            left,
            name.as_slice(),
            *offset,
            bytes.as_slice(),
            choices,
        ),
        DiskCall::SyncFile(_) | DiskCall::SyncFolder | DiskCall::SyncInPlace(_) => Ok(()),
    }
}
