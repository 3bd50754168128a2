//! A source of which one file was read already.

ghost use Rattle.std.specs.Prelude.{◌≡◌};
ghost use Rattle.live_stations.specs.Setups.{IsLoaded};

use byte_io::Bytes;
use folders::{LoadFault, Source};
use std::alloc::Global;
use std::marker::Model;

/// A source whose setup was read already, and isn't read again: so it says the same, whatever becomes of its file.
#[derive(Drop)]
pub struct WithSetup<S: Source + Drop> {
    source: S,
    path: Bytes,
    setup: Bytes,
}

impl<S: Source + Drop> Model for WithSetup<S> {
    ghost use Rattle.live_stations.specs.Setups.{IsLoaded};

    ghost Value = { S };

    ghost view = { λ w. w.source };

    ghost invariant = { λ w. IsLoaded (S.files w.source) w.path w.setup };
}

impl<S: Source + Drop> WithSetup<S> {
    // A source of which the setup of a path was read.
    pub(crate) fn new(source: S, path: Bytes, setup: Bytes) -> WithSetup<S>
        requires loaded { IsLoaded (S.files source) path setup }
        ensures value { result ≡ source }
    {
        WithSetup {
            source,
            path,
            setup,
        }
    }
}

impl<S: Source + Drop> Source for WithSetup<S> {
    ghost files = { λ w. S.files w };

    ghost failures = { λ w. S.failures w };

    fn load(&mut self, alloc: Global, path: &[u8]) -> Result<Bytes, LoadFault> {
        if path == self.path.as_slice() {
            return Ok(self.setup.copy(alloc)?);
        }
        self.source.load(alloc, path)
    }
}
