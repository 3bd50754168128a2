//! What a sink has that failed.

use super::*;
use byte_io::LimitedSink;

// How a table is written to a sink that takes a given number of bytes, one at a write, and whether the sink has the front
// of an image then.
fn front_written(
    alloc: Global,
    table: &TableData,
    day: Day,
    writes: usize,
    image: &[u8],
) -> (Result<(), WriteFault>, bool) {
    let mut sink = LimitedSink::new(alloc, 1, writes as u64);
    let answer = write_dbf(&mut sink, table, day);
    (answer, sink.taken.bytes.as_slice() == front(image, writes))
}

#[test]
fn failing_sink_has_the_front(rt: HostRuntime) -> Result<(), Fail> {
    let table = read_copy(rt.alloc(), &TWO_NAMES)?;
    let day = written_day()?;
    for writes in 0..89usize {
        let seen = front_written(rt.alloc(), &table, day, writes, &TWO_NAMES);
        assert!(rt; seen == (answer(writes > 87), true), "after {writes}");
    }
    Ok(())
}

// Both files of `notes`.
fn both_files(alloc: Global) -> Result<Vec<u8>, Fail> {
    let mut both = Vec::from_slice(alloc, &NOTES)?;
    both.extend_from_slice(blocks(alloc)?.as_slice())?;
    Ok(both)
}

// Whether a file is written, or a fault of the sink.
fn answer(is_written: bool) -> Result<(), WriteFault> {
    if is_written {
        Ok(())
    } else {
        Err(WriteFault::Sink)
    }
}

// How both files of a table are written to a sink that takes a given number of bytes, one at a write, and whether the sink
// has the front of both then.
fn both_written(
    alloc: Global,
    table: &TableData,
    day: Day,
    writes: u64,
    both: &[u8],
) -> ([Result<(), WriteFault>; 2], bool) {
    let mut sink = LimitedSink::new(alloc, 1, writes);
    let dbf = write_dbf(&mut sink, table, day);
    let dbt = write_dbt(&mut sink, table);
    let has_front = sink.taken.bytes.as_slice() == front(both, writes as usize);
    ([dbf, dbt], has_front)
}

// The front that a sink has which fails after each of those writes.
fn assert_fronts(
    alloc: Global,
    rt: &impl Abort,
    table: &TableData,
    both: &[u8],
) -> Result<(), Fail> {
    let day = written_day()?;
    for (writes, dbf, dbt) in [
        (0, false, false),
        (98, false, false),
        (99, true, false),
        (100, true, false),
        (2_146, true, false),
        (2_147, true, true),
    ] {
        let seen = both_written(alloc, table, day, writes, both);
        assert!(rt;
            seen == ([answer(dbf), answer(dbt)], true),
            "after {writes}"
        );
    }
    Ok(())
}

// In a sink that takes one file after the other until it fails.
#[test]
fn failing_sink_keeps_the_file_before(rt: HostRuntime) -> Result<(), Fail> {
    let table = notes(rt.alloc())?;
    let both = both_files(rt.alloc())?;
    assert_fronts(rt.alloc(), &rt, &table, &both)
}

// Adds 5,998 blank records.
fn lengthen(table: &mut TableData) -> Result<(), Fail> {
    for _ in 0..5998 {
        add_blank(table)?;
    }
    Ok(())
}

// TWO_NAMES with that first flag, and those records after it.
fn long_table(alloc: Global, flag: u8) -> Result<TableData, Fail> {
    let mut table = read_copy(alloc, &changed(&[(65, flag)]))?;
    lengthen(&mut table)?;
    Ok(table)
}

// The file of those 6,000 records.
fn long_image(alloc: Global) -> Result<Vec<u8>, Fail> {
    let mut image = Vec::from_slice(alloc, &changed(&[(4, 0x70), (5, 0x17)]))?;
    image.truncate(87);
    for _ in 0..5998 {
        image.extend_from_slice(b"           ")?;
    }
    image.push(0x1a)?;
    Ok(image)
}

// How many writes a sink takes that takes a whole table at once, and whether it has the image then.
fn taken(alloc: Global, table: &TableData, day: Day, image: &[u8]) -> (u64, bool) {
    let mut sink = LimitedSink::new(alloc, usize::MAX, u64::MAX);
    let is_written = write_dbf(&mut sink, table, day).is_ok();
    (
        sink.writes,
        is_written && sink.taken.bytes.as_slice() == image,
    )
}

// The same of the long table with that first flag.
fn long_taken(alloc: Global, flag: u8, image: &[u8]) -> Result<(u64, bool), Fail> {
    let day = written_day()?;
    let table = long_table(alloc, flag)?;
    Ok(taken(alloc, &table, day, image))
}

// 6,000 records, which are more bytes than wait at once. Where they stand as they are written, they go out as they are,
// between the header and the mark; a first flag that is written as another makes them small chunks, which are gathered.
#[test]
fn small_chunks_are_gathered(rt: HostRuntime) -> Result<(), Fail> {
    let image = long_image(rt.alloc())?;
    for (flag, writes) in [(0x20, 3), (0, 2)] {
        let seen = long_taken(rt.alloc(), flag, &image)?;
        assert!(rt; seen == (writes, true), "first flag {flag}");
    }
    Ok(())
}
