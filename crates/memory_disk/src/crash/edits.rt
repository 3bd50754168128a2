//! Changes of what one name has.

ghost use Rattle.std.specs.Prelude.{◌≡◌, ◌++◌, ◌∷◌, [], None, Some, option_map, OnErr, OnOk};
ghost use Rattle.files_in_place.specs.Folder.{SameBut};
ghost use Rattle.memory_disk.specs.Seen.{seen_after};

use crate::disk_call::DiskCall;
use crate::seen_files::content_of;
use byte_io::Bytes;
use std::alloc::{AllocError, Global};

// Adds a call as the latest, which is the first.
pub(crate) fn push_call(calls: &mut Vec<DiskCall>, call: DiskCall) -> Result<(), AllocError>
    ensures pushed { OnOk result (calls.new.items ≡ call ∷ calls.old.items) }
    ensures kept { OnErr result (calls.new.items ≡ calls.old.items) }
{
    calls.insert(0, call)?;
    Ok(())
}

// Gives the name no file.
pub(crate) fn remove_file(
    alloc: Global,
    left: &mut Vec<DiskCall>,
    name: &[u8],
) -> Result<(), AllocError>
    ensures removed { OnOk result (seen_after left.new.items name.now ≡ None) }
    ensures others { OnOk result (SameBut name.now (seen_after left.old.items) (seen_after left.new.items)) }
{
    let name = Bytes::from_slice(alloc, name)?;
    push_call(left, DiskCall::Remove(name))?;
    Ok(())
}

// Gives the name an empty file.
pub(crate) fn empty_file(
    alloc: Global,
    left: &mut Vec<DiskCall>,
    name: &[u8],
) -> Result<(), AllocError>
    ensures empty { OnOk result (seen_after left.new.items name.now ≡ Some []) }
    ensures others { OnOk result (SameBut name.now (seen_after left.old.items) (seen_after left.new.items)) }
{
    let name = Bytes::from_slice(alloc, name)?;
    push_call(left, DiskCall::Create(name))?;
    Ok(())
}

// Writes more to the name's file, if there is one.
pub(crate) fn lengthen_file(
    alloc: Global,
    left: &mut Vec<DiskCall>,
    name: &[u8],
    bytes: &[u8],
) -> Result<(), AllocError>
    ensures longer { OnOk result (seen_after left.new.items name.now ≡ option_map (λ content. content ++ bytes.now) (seen_after left.old.items name.now)) }
    ensures others { OnOk result (SameBut name.now (seen_after left.old.items) (seen_after left.new.items)) }
{
    let name = Bytes::from_slice(alloc, name)?;
    let bytes = Bytes::from_slice(alloc, bytes)?;
    push_call(left, DiskCall::Append(name, bytes))?;
    Ok(())
}

// Gives the name a file of these bytes.
pub(crate) fn put_file(
    alloc: Global,
    left: &mut Vec<DiskCall>,
    name: &[u8],
    bytes: &[u8],
) -> Result<(), AllocError>
    ensures put { OnOk result (seen_after left.new.items name.now ≡ Some bytes.now) }
    ensures others { OnOk result (SameBut name.now (seen_after left.old.items) (seen_after left.new.items)) }
{
    empty_file(alloc, left, name)?;
    lengthen_file(alloc, left, name, bytes)?;
    Ok(())
}

// Gives the second name what the first has, and leaves the first as it is.
pub(crate) fn copy_file(
    alloc: Global,
    left: &mut Vec<DiskCall>,
    from: &[u8],
    to: &[u8],
) -> Result<(), AllocError>
    ensures there { OnOk result (seen_after left.new.items to.now ≡ seen_after left.old.items from.now) }
    ensures others { OnOk result (SameBut to.now (seen_after left.old.items) (seen_after left.new.items)) }
{
    let Some(bytes) = content_of(alloc, left, from)? else {
        return remove_file(alloc, left, to);
    };
    put_file(alloc, left, to, bytes.as_slice())
}
