//! The bytes of a file.

ghost use Rattle.std.specs.Prelude.{◌≡◌, IfOk, OnErr};
ghost use Rattle.journal_file.specs.WholeText.{sum_of_file, with_sum};
ghost use Rattle.setup_files.specs.EntryFiles.{IsFileLook};
ghost use Rattle.setup_files.specs.Loads.{IsFileLoad};

use crate::fault::LoadRefusal;
use byte_io::Bytes;
use folders::{LoadFault, Source};
use journal_file::ReadSums;
use std::alloc::{AllocError, Global};

/// The bytes of the file of a path, which are noted where a journal is wanted, or why there are none.
///
/// An `Err` says that there was no memory.
pub fn load_file<S: Source>(
    alloc: Global,
    source: &mut S,
    path: &Bytes,
    sums: &mut ReadSums,
) -> Result<Result<Bytes, LoadRefusal>, AllocError>
    ensures look { IfOk result (IsFileLook (S.files source.old) path.now) }
    ensures noted { IfOk result (λ look. IfOk look (λ bytes. sums.new ≡ with_sum sums.old (sum_of_file path.now bytes))) }
    // That a file can't be read is said only where its load has failed, or where it is over the limit.
    ensures loads { IfOk result (IsFileLoad (S.files source.old) path.now (S.failures source.old) (S.failures source.new)) }
    ensures memory { OnErr result (S.failures source.new ≡ S.failures source.old) }
    ensures kept { S.files source.new ≡ S.files source.old }
{
    match source.load(alloc, path.as_slice()) {
        Ok(bytes) => {
            sums.note(alloc, path.as_slice(), bytes.as_slice())?;
            Ok(Ok(bytes))
        }
        Err(LoadFault::CannotRead) => Ok(Err(LoadRefusal::CannotRead)),
        Err(LoadFault::Unrecovered) => Ok(Err(LoadRefusal::Unrecovered)),
        Err(LoadFault::NoMemory) => Err(AllocError),
    }
}
