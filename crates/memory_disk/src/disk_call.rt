//! The calls that a disk has done.

ghost use Rattle.std.specs.Prelude.{◌≡◌, IfOk};

use byte_io::Bytes;
use std::alloc::{AllocError, Global};

/// A call that a disk has done, and changes something or brings it to the disk.
#[derive(Drop)]
pub enum DiskCall {
    /// An empty file was made under the name.
    Create(Bytes),
    /// The bytes were written at the end of the file of the name.
    Append(Bytes, Bytes),
    /// The bytes of the name's file were brought to the disk.
    SyncFile(Bytes),
    /// The file of the first name got the second.
    Rename(Bytes, Bytes),
    /// The file of the name was removed.
    Remove(Bytes),
    /// The names were brought to the disk.
    SyncFolder,
    /// The bytes were written over those of the file of the name, from an offset on.
    WriteAt(Bytes, u64, Bytes),
    /// The bytes of the name's file, which was written over where it is, were brought to the disk.
    SyncInPlace(Bytes),
}

// The call once more.
fn copy_call(alloc: Global, call: &DiskCall) -> Result<DiskCall, AllocError>
    ensures same { IfOk result (λ copy. copy ≡ call.now) }
{
    match call {
        DiskCall::Create(name) => Ok(DiskCall::Create(name.copy(alloc)?)),
        DiskCall::Append(name, bytes) => {
            Ok(DiskCall::Append(name.copy(alloc)?, bytes.copy(alloc)?))
        }
        DiskCall::SyncFile(name) => Ok(DiskCall::SyncFile(name.copy(alloc)?)),
        DiskCall::Rename(from, to) => Ok(DiskCall::Rename(from.copy(alloc)?, to.copy(alloc)?)),
        DiskCall::Remove(name) => Ok(DiskCall::Remove(name.copy(alloc)?)),
        DiskCall::SyncFolder => Ok(DiskCall::SyncFolder),
        DiskCall::WriteAt(name, offset, bytes) => Ok(DiskCall::WriteAt(
            name.copy(alloc)?,
            *offset,
            bytes.copy(alloc)?,
        )),
        DiskCall::SyncInPlace(name) => Ok(DiskCall::SyncInPlace(name.copy(alloc)?)),
    }
}

// The calls once more.
pub(crate) fn copy_calls(alloc: Global, calls: &[DiskCall]) -> Result<Vec<DiskCall>, AllocError>
    ensures same { IfOk result (λ copy. copy.items ≡ calls.now) }
{
    let mut copy = Vec::new(alloc);
    for call in calls {
        copy.push(copy_call(alloc, call)?)?;
    }
    Ok(copy)
}
