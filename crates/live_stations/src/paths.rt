//! The pipes and terminals of the system.

use crate::terminals::Terminals;
use byte_io::Bytes;
use live_program::{ShownBytes, TypedLines};
use std::alloc::Global;
use std::fs::{File, OpenOptions};
use std::io::{BufReader, IsTerminal};
use std::rt::Files;
use std::str;

// What stands after a station's path where its answers go.
const OUT: &[u8] = b".OUT";

/// Pipes (`mkfifo`) and terminals of the system. A station's lines come from its path, and its answers go to that path with `.OUT` after it;
/// both have to be there. Who opens a pipe waits until another has it open from its other end.
#[derive(Drop)]
pub struct StationPaths<'a, R: Files<File = File>> {
    rt: &'a R,
    paths: Vec<Bytes>,
}

impl<'a, R: Files<File = File>> StationPaths<'a, R> {
    /// Of the stations that have these paths, from the first one on.
    pub fn new(rt: &'a R, paths: Vec<Bytes>) -> StationPaths<'a, R> {
        StationPaths { rt, paths }
    }

    /// How many stations there are.
    pub fn len(&self) -> usize {
        self.paths.len()
    }

    // The path of a station.
    fn path(&self, station: u32) -> Option<&Bytes> {
        self.paths.get((station as usize).checked_sub(1)?)
    }
}

impl<'a, R: Files<File = File>> Terminals for StationPaths<'a, R> {
    ghost use Rattle.std.specs.Prelude.{None};

    // What comes by a pipe is no function of any value.
    ghost types = { λ terminals station. None };

    ghost reads = { λ terminals station. None };

    type Keyboard = TypedLines<BufReader<File>, File>;

    type Screen = ShownBytes<File>;

    fn open_keyboard(
        &self,
        alloc: Global,
        station: u32,
    ) -> Option<TypedLines<BufReader<File>, File>> {
        let path = str::from_utf8(self.path(station)?.as_slice()).ok()?;
        let file = File::open(self.rt, path).ok()?;
        let is_terminal = file.is_terminal();
        let reader = BufReader::new(alloc, file).ok()?;
        if is_terminal {
            Some(TypedLines::at_terminal(reader, None))
        } else {
            Some(TypedLines::new(reader, None))
        }
    }

    fn open_screen(&self, alloc: Global, station: u32) -> Option<ShownBytes<File>> {
        let path = self.path(station)?.as_slice();
        let mut out = Vec::new(alloc);
        out.reserve(path.len() + OUT.len()).ok()?;
        out.extend_from_slice(path).ok()?;
        out.extend_from_slice(OUT).ok()?;
        let path = str::from_utf8(out.as_slice()).ok()?;
        // What is there is neither made nor cut.
        let file = OpenOptions::new().append(true).open(self.rt, path).ok()?;
        let is_terminal = file.is_terminal();
        Some(ShownBytes::new(file, is_terminal))
    }
}
