//! What is tested and taken before a file of a set is begun.

ghost use Rattle.std.specs.Prelude.{◌≡◌, ◌<◌, true, false, Err, IfOk, IfErr, IsOk, OnOk, vec_len, vec_capacity};
ghost use Rattle.files_in_place.specs.declared.faults.SetFault.TheVariants as F;
ghost use Rattle.files_in_place.specs.Faults.{IsOfDisk};
ghost use Rattle.files_in_place.specs.Folder.{temporary};
ghost use Rattle.files_in_place.specs.Staged.{is_file_name, is_staged};

use crate::faults::SetFault;
use crate::names::{is_file_name, is_staged, temporary_name};
use byte_io::Bytes;
use std::alloc::Global;

// A name for a new file, and its temporary name.
#[derive(Drop)]
pub(crate) struct NewName {
    pub(crate) name: Bytes,
    pub(crate) lies: Bytes,
}

// Whether the set may have a file more of the name.
fn allow(names: &[Bytes], name: &[u8]) -> Result<(), SetFault>
    ensures fits { OnOk result (is_file_name name.now ≡ true) }
    ensures free { OnOk result (is_staged names.now name.now ≡ false) }
    ensures bad_name { is_file_name name.now ≡ false → result ≡ Err F.BadName }
    ensures same_name { is_file_name name.now ≡ true → is_staged names.now name.now ≡ true → result ≡ Err F.SameName }
    ensures open { is_file_name name.now ≡ true → is_staged names.now name.now ≡ false → IsOk result }
    ensures no_failure { (result ≡ Err F.Failed) → ⊥ }
{
    if !is_file_name(name) {
        return Err(SetFault::BadName);
    }
    if is_staged(names, name) {
        return Err(SetFault::SameName);
    }
    Ok(())
}

// Tests a name, and takes the memory that a file of it needs. The names stay the same.
pub(crate) fn new_name(
    alloc: Global,
    names: &mut Vec<Bytes>,
    name: &[u8],
) -> Result<NewName, SetFault>
    ensures name { IfOk result (λ new. new.name ≡ name.now) }
    ensures lies { IfOk result (λ new. new.lies ≡ temporary name.now) }
    ensures fits { OnOk result (is_file_name name.now ≡ true) }
    ensures free { OnOk result (is_staged names.old.items name.now ≡ false) }
    ensures names { names.new.items ≡ names.old.items }
    ensures room { OnOk result (vec_len names.new < vec_capacity names.new) }
    ensures bad_name { is_file_name name.now ≡ false → result ≡ Err F.BadName }
    ensures same_name { is_file_name name.now ≡ true → is_staged names.old.items name.now ≡ true → result ≡ Err F.SameName }
    ensures open { is_file_name name.now ≡ true → is_staged names.old.items name.now ≡ false → IfErr result IsOfDisk }
    ensures no_failure { (result ≡ Err F.Failed) → ⊥ }
{
    allow(names, name)?;
    let lies = temporary_name(alloc, name)?;
    let name = Bytes::from_slice(alloc, name)?;
    names.reserve(1)?;
    Ok(NewName { name, lies })
}
