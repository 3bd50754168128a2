//! Years that a file's header can't say.

use super::*;

// How a table is written with a date of that year, and how many bytes the sink has then.
fn written_in(
    alloc: Global,
    table: &TableData,
    year: u16,
) -> Result<(Option<WriteFault>, usize), Fail> {
    let day = day_of(year, 3, 15).ok_or("no such day")?;
    let mut sink = MemorySink::new(alloc);
    let fault = write_dbf(&mut sink, table, day).err();
    Ok((fault, sink.bytes.len()))
}

#[test]
fn years_outside_of_1900_to_2155_are_refused(rt: HostRuntime) -> Result<(), Fail> {
    let table = read_copy(rt.alloc(), &TWO_NAMES)?;
    for (year, fault, length) in [
        (1899, Some(WriteFault::DateOutside), 0),
        (1900, None, 88),
        (2155, None, 88),
        (2156, Some(WriteFault::DateOutside), 0),
    ] {
        let seen = written_in(rt.alloc(), &table, year)?;
        assert!(rt; seen == (fault, length), "in {year}");
    }
    Ok(())
}
