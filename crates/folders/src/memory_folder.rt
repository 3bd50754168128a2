//! Files in memory, that were written.

ghost use Rattle.std.specs.Prelude.{◌≡◌, ◌+◌, [], IfOk};

use crate::folder::Folder;
use byte_io::{ByteSink, Failures, SinkFault};
use std::alloc::{AllocError, Global};

/// A file that is being written.
#[derive(Debug, Drop)]
pub struct OpenFile {
    /// The name.
    pub name: Vec<u8>,
    /// What has been written so far.
    pub bytes: Vec<u8>,
}

impl OpenFile {
    // Of no name, and empty.
    fn new(alloc: Global) -> OpenFile {
        OpenFile {
            name: Vec::new(alloc),
            bytes: Vec::new(alloc),
        }
    }
}

// Files with room for names and contents of up to so many bytes.
fn spare_files(
    alloc: Global,
    count: usize,
    name_length: usize,
    file_length: usize,
) -> Result<Vec<OpenFile>, AllocError> {
    let mut spare = Vec::new(alloc);
    for _ in 0..count {
        let mut file = OpenFile::new(alloc);
        file.name.reserve(name_length)?;
        file.bytes.reserve(file_length)?;
        spare.push(file)?;
    }
    Ok(spare)
}

/// A folder in memory. It fails where memory runs out, and where it was told to.
#[derive(Debug, Drop)]
pub struct MemoryFolder {
    alloc: Global,
    /// The files, in the order in which they were begun.
    pub files: Vec<OpenFile>,
    /// How many more calls of `begin` and `write` succeed; the one after them fails.
    pub calls: u64,
    /// The most bytes that one call of `write` takes.
    pub most: usize,
    /// How often a call has failed.
    pub failures: Failures,
    // Files that are not begun yet, with room.
    spare: Vec<OpenFile>,
}

impl MemoryFolder {
    /// A folder without files, of which no call fails but for want of memory.
    pub fn new(alloc: Global) -> MemoryFolder
        ensures files { result.files.items ≡ [] }
        ensures failures { result.failures ≡ 0 }
    {
        MemoryFolder {
            alloc,
            files: Vec::new(alloc),
            calls: u64::MAX,
            most: usize::MAX,
            failures: Failures::none(),
            spare: Vec::new(alloc),
        }
    }

    /// A folder without files that has the memory for so many: for the list of them, and for each a name of up to `name_length`
    /// bytes and a content of up to `file_length` bytes. Where these suffice no call takes memory. An error where memory is refused.
    pub fn with_room(
        alloc: Global,
        files: usize,
        name_length: usize,
        file_length: usize,
    ) -> Result<MemoryFolder, AllocError>
        ensures files { IfOk result (λ folder. folder.files.items ≡ []) }
        ensures failures { IfOk result (λ folder. folder.failures ≡ 0) }
    {
        let mut folder = MemoryFolder::new(alloc);
        folder.files.reserve(files)?;
        folder.spare = spare_files(alloc, files, name_length, file_length)?;
        Ok(folder)
    }

    // One more call has failed.
    fn fail(&mut self) -> SinkFault
        ensures files { self.new.files ≡ self.old.files }
        ensures counted { self.new.failures ≡ self.old.failures + 1 }
    {
        self.calls = self.calls.saturating_sub(1);
        self.failures.count();
        SinkFault
    }
}

impl ByteSink for MemoryFolder {
    ghost use Rattle.std.specs.Prelude.{Some};
    ghost use Rattle.folders.specs.Files.{open_listing};

    ghost written = { λ s. Some (open_listing s.files.items) };

    ghost failures = { λ s. Some s.failures };

    #[tactic(auto, using(crate::proofs::FolderLaws::written_last), unfolding(byte_io::specs::Sink::grown))]
    fn write(&mut self, bytes: &[u8]) -> Result<usize, SinkFault> {
        if self.calls == 0 {
            return Err(self.fail());
        }
        let count = bytes.len().min(self.most.max(1));
        let Some(mut file) = self.files.pop() else {
            return Err(self.fail());
        };
        let taken = file.bytes.extend_from_slice(&bytes[..count]);
        self.files.push_reserved(file);
        match taken {
            Ok(()) => {
                self.calls -= 1;
                Ok(count)
            }
            Err(_) => Err(self.fail()),
        }
    }
}

impl Folder for MemoryFolder {
    #[tactic(auto, using(crate::proofs::FolderLaws::begun_last), unfolding(byte_io::specs::Sink::grown))]
    fn begin(&mut self, name: &[u8]) -> Result<(), SinkFault> {
        if self.calls == 0 {
            return Err(self.fail());
        }
        let mut file = match self.spare.pop() {
            Some(spare) => spare,
            None => OpenFile::new(self.alloc),
        };
        file.name.clear();
        file.bytes.clear();
        if file.name.extend_from_slice(name).is_err() {
            return Err(self.fail());
        }
        if self.files.push(file).is_err() {
            return Err(self.fail());
        }
        self.calls -= 1;
        Ok(())
    }
}
