//! A sink that sums what is written into it.

ghost use Rattle.std.specs.Prelude.{◌≡◌, ◌<◌, ◌≤◌, [], length, take, IfOk, OnOk, OnErr};
ghost use Rattle.byte_io.specs.Sink.{grown, Rises};
ghost use Rattle.journal_file.specs.WholeText.{sum_of_file, IsSum};

use crate::sum::{FileSum, digits_of};
use boxcar::tag::{Names, Tag};
use byte_io::{ByteSink, Bytes, Failures, SinkFault};
use sha2::{Digest, Sha256};
use std::alloc::{AllocError, Global};
use std::marker::Model;

// For contracts alone: what has been written and what is written now.
#[derive(Drop)]
struct More<'a> {
    written: &'a Tag,
    bytes: &'a [u8],
}

// For contracts alone: the bytes after those before them.
struct Appended;

impl<'a> Names<More<'a>> for Appended {
    ghost use Rattle.std.specs.Prelude.{◌++◌};

    ghost numbers = { λ m. m.written.now.numbers ++ m.bytes.now };
}

/// A sink that keeps of what is written how many bytes it is and their digest alone, so that a file is summed without being whole
/// in memory. It takes no memory, and fails where 2^64 bytes would have been written. Contracts see what was written, and how
/// often a write has failed.
#[derive(Drop)]
pub struct SumSink {
    hasher: Sha256,
    count: u64,
    // For contracts alone.
    written: Tag,
    failures: Failures,
}

impl Model for SumSink {
    ghost use Rattle.std.specs.Prelude.{◌≡◌, ℕ, List, length};
    ghost use Rattle.sha2.specs.Hashers.{Holds256};

    ghost Value = { List ℕ × ℕ };

    ghost view = { λ s. (s.written.numbers, s.failures) };

    ghost invariant = { λ s. Holds256 s.hasher s.written.numbers × (s.count ≡ length s.written.numbers) };
}

impl SumSink {
    /// A sink into which nothing has been written.
    pub fn new() -> SumSink
        ensures value { result ≡ ([], 0) }
    {
        SumSink {
            hasher: Sha256::new(),
            count: 0,
            written: Tag::empty(),
            failures: Failures::none(),
        }
    }

    /// What a journal says of the file of a path that has the bytes that were written. An error where memory is refused, for the
    /// path.
    pub fn sum(self, alloc: Global, path: &[u8]) -> Result<FileSum, AllocError>
        ensures value { IfOk result (λ sum. sum ≡ sum_of_file path.now self.0) }
        // A line can tell it.
        ensures small { IfOk result IsSum }
    {
        let SumSink { hasher, count, .. } = self;
        Ok(FileSum {
            path: Bytes::from_slice(alloc, path)?,
            length: count,
            digest: digits_of(&hasher.finalize()),
        })
    }
}

impl ByteSink for SumSink {
    ghost use Rattle.std.specs.Prelude.{Some};

    ghost written = { λ s. Some s.0 };

    ghost failures = { λ s. Some s.1 };

    /// Takes all of the bytes. An `Err` says that with them 2^64 bytes would have been written, and that none were.
    #[tactic(auto, unfolding(byte_io::specs::Sink::grown))]
    fn write(&mut self, bytes: &[u8]) -> Result<usize, SinkFault> {
        let Some(count) = self.count.checked_add(bytes.len() as u64) else {
            self.failures.count();
            return Err(SinkFault);
        };
        self.hasher.update(bytes);
        self.count = count;
        let written = &self.written;
        let written = Tag::of::<More<'_>, Appended>(&More { written, bytes });
        self.written = written;
        Ok(bytes.len())
    }
}
