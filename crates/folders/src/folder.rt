//! Where files are written to.

ghost use Rattle.std.specs.Prelude.{◌≡◌, List, OnOk, OnErr};
ghost use Rattle.std.specs.List.{AllByRecursion};
ghost use Rattle.byte_io.specs.Sink.{grown, Rises};
ghost use Rattle.folders.specs.declared.named.NamedFile.{NamedFile};
ghost use Rattle.folders.specs.Files.{opening, listing, files_in, IsOfBytes};

use byte_io::{ByteSink, SinkFault};

/// A folder that files are written to, one after the other. It is a sink of the file begun last.
///
/// Contracts see it as one list, `written`: of each file 256, the name's bytes, 257 and the file's bytes.
/// No byte is 256 or 257, so the list says which files there are and what they hold.
pub trait Folder: ByteSink {
    /// Begins an empty file, to which what is written from now on goes. An `Err` says that none was begun.
    fn begin(&mut self, name: &[u8]) -> Result<(), SinkFault>
        ensures begun { OnOk result (Self.written self.new ≡ grown (Self.written self.old) (opening name.now)) }
        ensures no_failure { OnOk result (Self.failures self.new ≡ Self.failures self.old) }
        ensures no_file_begun { OnErr result (Self.written self.new ≡ Self.written self.old) }
        ensures failed { OnErr result (Rises (Self.failures self.old) (Self.failures self.new)) };
}

/// A folder's list tells its files: where names and bytes are below 256, no other files have the same list.
pub fn one_folder()
    ensures files { (files : List NamedFile) → AllByRecursion IsOfBytes files → files_in (listing files) ≡ files }
    ensures one { (a b : List NamedFile) → AllByRecursion IsOfBytes a → AllByRecursion IsOfBytes b → listing a ≡ listing b → a ≡ b }
{}
