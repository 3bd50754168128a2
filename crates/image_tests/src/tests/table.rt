//! Tables in memory by the calls that no program makes: records, cells and memos that are put one by one.

use super::*;

// Adds a record.
fn append(table: &mut TableData, record: &[u8]) -> Result<(), Fail> {
    if table.record_count() >= MAX_RECORDS || record.len() != table.schema().record_length() {
        return Err("no room or no record".into());
    }
    table.append_record(record)?;
    Ok(())
}

// Replaces a cell, where there is one.
fn put_cell(table: &mut TableData, number: u32, field: usize, cell: &[u8]) -> Result<(), Fail> {
    if number < 1 || number > table.record_count() || field >= table.schema().fields().len() {
        return Err("no such cell".into());
    }
    if table.schema().fields()[field].kind == MEMO
        || table.cell(number, field).len() != cell.len()
    {
        return Err("the cell does not fit".into());
    }
    table.set_cell(number, field, cell);
    Ok(())
}

// What is written of a table's records.
fn written(alloc: Global, table: &TableData) -> Result<Vec<u8>, Fail> {
    let mut sink = MemorySink::new(alloc);
    write_dbf(&mut sink, table, written_day()?)?;
    Ok(sink.bytes)
}

// What is written of its memos.
fn memos_written(alloc: Global, table: &TableData) -> Result<Vec<u8>, Fail> {
    let mut sink = MemorySink::new(alloc);
    write_dbt(&mut sink, table)?;
    Ok(sink.bytes)
}

// Both files of two tables, one after another.
fn both_written(alloc: Global, one: &TableData, other: &TableData) -> Result<[Vec<u8>; 2], Fail> {
    Ok([written(alloc, one)?, written(alloc, other)?])
}

// TWO_NAMES with a marked record and a blank one after it.
fn four_names() -> [u8; 110] {
    let mut image = [0; 110];
    image[..87].copy_from_slice(&TWO_NAMES[..87]);
    image[4] = 4;
    image[87..].copy_from_slice(b"*CYD                  \x1a");
    image
}

// Adds a marked record and a blank one.
fn add_two(table: &mut TableData) -> Result<(), Fail> {
    append(table, b"*CYD       ")?;
    add_blank(table)
}

// TWO_NAMES with those records.
fn with_two_more(alloc: Global) -> Result<TableData, Fail> {
    let mut table = read_copy(alloc, &TWO_NAMES)?;
    add_two(&mut table)?;
    Ok(table)
}

#[test]
fn appended_records_stand_last(rt: HostRuntime) -> Result<(), Fail> {
    let table = with_two_more(rt.alloc())?;
    let bytes = written(rt.alloc(), &table)?;
    assert_eq!(rt; bytes.as_slice(), four_names().as_slice());
    Ok(())
}

// A copy of a table with another name in its second record.
fn with_another_name(alloc: Global, table: &TableData) -> Result<TableData, Fail> {
    let mut other = table.copy(alloc)?;
    put_cell(&mut other, 2, 0, b"EVE       ")?;
    Ok(other)
}

// A copy has the other name, and the table has its own.
fn assert_other_name(
    alloc: Global,
    rt: &impl Abort,
    table: &TableData,
    other: &TableData,
) -> Result<(), Fail> {
    let [before, after] = both_written(alloc, table, other)?;
    let image = changed(&[(77, b'E'), (78, b'V'), (79, b'E')]);
    assert!(rt; before.as_slice() == TWO_NAMES.as_slice());
    assert!(rt; after.as_slice() == image.as_slice());
    Ok(())
}

#[test]
fn a_cell_is_replaced_in_one_table(rt: HostRuntime) -> Result<(), Fail> {
    let table = read_copy(rt.alloc(), &TWO_NAMES)?;
    let other = with_another_name(rt.alloc(), &table)?;
    assert_other_name(rt.alloc(), &rt, &table, &other)
}

// Both files of a table of memos are those written down.
fn assert_notes(alloc: Global, rt: &impl Abort, table: &TableData) -> Result<(), Fail> {
    let (dbf, dbt) = (written(alloc, table)?, memos_written(alloc, table)?);
    assert!(rt; dbf.as_slice() == NOTES.as_slice());
    assert!(rt; dbt.as_slice() == blocks(alloc)?.as_slice());
    Ok(())
}

#[test]
fn memos_are_written_block_by_block(rt: HostRuntime) -> Result<(), Fail> {
    let table = notes(rt.alloc())?;
    assert!(rt; next_free_block(&table) == Some(4));
    assert_notes(rt.alloc(), &rt, &table)
}

// Whether the memos of the first two records of a table of notes are those.
fn has_memos(alloc: Global, table: &TableData, texts: [&[u8]; 2]) -> Result<bool, AllocError> {
    if table.record_count() < 2 || table.schema().fields()[0].kind != MEMO {
        return Ok(false);
    }
    let one = table.memo(alloc, 1, 0)?;
    let other = table.memo(alloc, 2, 0)?;
    Ok(one.as_slice() == texts[0] && other.as_slice() == texts[1])
}

// Puts another memo into the second record, and none into the first.
fn change_memos(table: &mut TableData) -> Result<(), Fail> {
    put_memo(table, 2, 0, b"BYE")?;
    put_memo(table, 1, 0, b"")
}

// A copy of a table of notes with those memos.
fn with_another_memo(alloc: Global, table: &TableData) -> Result<TableData, Fail> {
    let mut other = table.copy(alloc)?;
    change_memos(&mut other)?;
    Ok(other)
}

// Whether two tables have their own memos.
fn have_own_memos(alloc: Global, table: &TableData, other: &TableData) -> Result<bool, Fail> {
    let is_same = has_memos(alloc, table, [&[b'a'; 510], &[b'b'; 511]])?;
    let is_changed = has_memos(alloc, other, [b"", b"BYE"])?;
    Ok(is_same && is_changed)
}

#[test]
fn a_memo_is_replaced_in_one_table(rt: HostRuntime) -> Result<(), Fail> {
    let table = notes(rt.alloc())?;
    let other = with_another_memo(rt.alloc(), &table)?;
    assert!(rt; have_own_memos(rt.alloc(), &table, &other)?);
    Ok(())
}
