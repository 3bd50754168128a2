//! A stack that has grown before memory is scarce.

use super::sample::data;
use byte_io::{ByteSink, MemorySink, SinkFault};
use dbf_fields::{Day, day_of};
use dbf_image::{TableData, write_dbf};
use std::alloc::Global;
use std::test::Fail;

// A sink that writes a table into another for each piece that it takes, so that the stack grows by what that takes of it.
#[derive(Drop)]
struct Deeper<'a, S: ByteSink + Drop> {
    table: &'a TableData,
    day: Day,
    inner: S,
}

impl<'a, S: ByteSink + Drop> ByteSink for Deeper<'a, S> {
    ghost use Rattle.std.specs.Prelude.{None};

    ghost written = { λ _. None };

    ghost failures = { λ _. None };

    #[tactic(auto, unfolding(byte_io::specs::Sink::grown))]
    fn write(&mut self, bytes: &[u8]) -> Result<usize, SinkFault> {
        match write_dbf(&mut self.inner, self.table, self.day) {
            Ok(()) => Ok(bytes.len()),
            Err(_) => Err(SinkFault),
        }
    }
}

fn one_deeper<'a, S: ByteSink + Drop>(table: &'a TableData, day: Day, inner: S) -> Deeper<'a, S> {
    Deeper { table, day, inner }
}

// Writes a table into a sink that does so for each piece too, six deep.
fn write_deep(alloc: Global, table: &TableData, day: Day) -> Result<(), Fail> {
    let second = one_deeper(table, day, MemorySink::new(alloc));
    let third = one_deeper(table, day, second);
    let fourth = one_deeper(table, day, third);
    let fifth = one_deeper(table, day, fourth);
    let mut sixth = one_deeper(table, day, fifth);
    write_dbf(&mut sixth, table, day)?;
    Ok(())
}

/// Makes the stack grow to more than what a run takes of it, since a hoard leaves it no room.
pub(super) fn grow_stack(alloc: Global) -> Result<(), Fail> {
    let day = day_of(1987, 3, 15).ok_or("a date")?;
    let table = data(alloc)?;
    write_deep(alloc, &table, day)
}
