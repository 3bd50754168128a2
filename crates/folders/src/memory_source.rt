//! Files in memory, to be read.

ghost use Rattle.std.specs.Prelude.{◌≡◌, ◌+◌, is_some, option_map};
ghost use Rattle.folders.specs.Files.{is_at, file_at};
ghost use Rattle.folders.specs.Paths.{list_beside};

use crate::named::NamedFile;
use crate::path::{is_list_beside, is_reserved_path};
use crate::source::{LoadFault, MAX_FILE_BYTES, Source};
use byte_io::{Bytes, Failures};
use std::alloc::Global;

/// A source of files in memory. A load fails where no file has the path or the path ends with a reserved name, and where it
/// was told to.
#[derive(Debug, Drop)]
pub struct MemorySource {
    /// The files.
    pub files: Vec<NamedFile>,
    /// How many more loads come to the file; the one after them fails.
    pub loads: u64,
    /// How often a load has failed.
    pub failures: Failures,
}

// Whether the file has the path.
fn has_path(file: &NamedFile, path: &[u8]) -> bool
    ensures value { result ≡ is_at path.now file.now }
{
    file.name.as_slice() == path
}

// The bytes of the first file of the path.
fn find_file<'a>(files: &'a [NamedFile], path: &[u8]) -> Option<&'a Bytes>
    ensures found { option_map (λ bytes. bytes.now) result ≡ file_at files.now path.now }
{
    for file in files {
        if has_path(file, path) {
            return Some(&file.bytes);
        }
    }
    None
}

// Whether a file has the name of a set's list in the folder of a path.
fn has_list_beside(files: &[NamedFile], path: &[u8]) -> bool
    ensures value { result ≡ is_some (file_at files.now (list_beside path.now)) }
{
    for file in files {
        if is_list_beside(file.name.as_slice(), path) {
            return true;
        }
    }
    false
}

impl MemorySource {
    // One more load has failed.
    fn fail(&mut self) -> LoadFault
        ensures fault { result ≡ LoadFault.CannotRead }
        ensures files { self.new.files ≡ self.old.files }
        ensures counted { self.new.failures ≡ self.old.failures + 1 }
    {
        self.loads = self.loads.saturating_sub(1);
        self.failures.count();
        LoadFault::CannotRead
    }
}

impl Source for MemorySource {
    ghost use Rattle.std.specs.Prelude.{Some};

    ghost files = { λ s. Some s.files.items };

    ghost failures = { λ s. Some s.failures };

    fn load(&mut self, alloc: Global, path: &[u8]) -> Result<Bytes, LoadFault> {
        if is_reserved_path(path) {
            return Err(self.fail());
        }
        if has_list_beside(&self.files, path) {
            return Err(LoadFault::Unrecovered);
        }
        if self.loads > 0 {
            if let Some(bytes) = find_file(&self.files, path) {
                if bytes.as_slice().len() > MAX_FILE_BYTES {
                    return Err(LoadFault::CannotRead);
                }
                let copy = bytes.copy(alloc)?;
                self.loads -= 1;
                return Ok(copy);
            }
        }
        Err(self.fail())
    }
}
