//! A folder that isn't there.

ghost use Rattle.std.specs.Prelude.{◌≡◌};

use crate::folder::Folder;
use byte_io::{ByteSink, Failures, SinkFault};

/// A folder that isn't there: no file can be begun in it. Contracts see that it has none, and how often a call has failed.
#[derive(Drop)]
pub struct MissingFolder {
    failures: Failures,
}

impl MissingFolder {
    /// A folder of which no call has failed yet.
    pub fn new() -> MissingFolder
        ensures failures { result.failures ≡ 0 }
    {
        MissingFolder {
            failures: Failures::none(),
        }
    }
}

impl ByteSink for MissingFolder {
    ghost use Rattle.std.specs.Prelude.{[], Some};

    ghost written = { λ _. Some [] };

    ghost failures = { λ f. Some f.failures };

    fn write(&mut self, _bytes: &[u8]) -> Result<usize, SinkFault> {
        self.failures.count();
        Err(SinkFault)
    }
}

impl Folder for MissingFolder {
    fn begin(&mut self, _name: &[u8]) -> Result<(), SinkFault> {
        self.failures.count();
        Err(SinkFault)
    }
}
