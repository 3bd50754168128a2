//! What is asked of the system for a file that is written over, beside the calls themselves. These are as files_in_place has them.

ghost use Rattle.std.specs.Prelude.{◌≡◌, ◌++◌, false, IfOk, OnOk, IsErrOf, string_bytes};
ghost use Rattle.std.specs.List.{Contains};
ghost use Rattle.files_in_place.specs.declared.faults.DiskFault.TheVariants.{Failed};
ghost use Rattle.files_in_place.specs.Staged.{is_dots};
ghost use Rattle.files_in_place.specs.System.{IsNoEntry};

use files_in_place::DiskFault;
use std::alloc::Global;
use std::io;
use std::io::ErrorKind;

// What stands between a folder's path and a file's name.
const SLASH: u8 = b'/';

// How often a call that a signal interrupts is made.
const MAX_TRIES: usize = 1000;

// Makes a call of the system again while a signal interrupts it: what the last call answers is the answer.
pub(crate) fn uninterrupted<T: Drop, F: Fn() -> io::Result<T>>(call: F) -> io::Result<T>
    requires { F.IsAlwaysCallable call }
    ensures answer { F.post call result }
{
    for _ in 1..MAX_TRIES {
        match call() {
            Err(e) if e.kind() == ErrorKind::Interrupted => {}
            ended => return ended,
        }
    }
    call()
}

// Whether a name is empty, one dot or two dots.
fn is_dots(name: &[u8]) -> bool
    ensures value { result ≡ is_dots name.now }
{
    name == b"".as_slice() || name == b".".as_slice() || name == b"..".as_slice()
}

// The path of a file of a folder whose path ends in a slash. No file has a name that is no UTF-8 or has a slash, nor one that is
// empty, a dot or two dots: such a path is one of another folder.
pub(crate) fn in_folder(alloc: Global, folder: &str, name: &[u8]) -> Result<String, DiskFault>
    ensures path { IfOk result (λ path. string_bytes path ≡ folder.now ++ name.now) }
    ensures inside { OnOk result (is_dots name.now ≡ false × ¬ Contains name.now SLASH) }
    ensures outside { IsErrOf result Failed → IsNoEntry name.now }
{
    if is_dots(name) || name.contains(&SLASH) {
        return Err(DiskFault::Failed);
    }
    let Ok(name) = str::from_utf8(name) else {
        return Err(DiskFault::Failed);
    };
    Ok(format!(in alloc; "{folder}{name}")?)
}
