//! Tables with indexes: what they show and hand out, edits that are planned, and indexes that are added.

ghost use Rattle.std.specs.Prelude.{◌≡◌, length, IfOk};

use super::indexes::{first, is_list, second, third};
use super::sample::{
    BY_NAME, Sample, at_first, dbf_file, has_order, is_cursor, is_sample, is_written, memo_file,
};
use super::sweep::{Calls, assert_all, refused};
use byte_io::Bytes;
use dbf_fields::Literal;
use dbf_image::TableData;
use key_expr::KeyExpr;
use ndx_index::{Pair, PairList};
use std::alloc::{AllocError, Global};
use std::test::Fail;
use table_core::{Edit, Table, TableFault};

// The name and the expression of an index on NAME.
fn name_and_expr(alloc: Global, table: &Table) -> Result<(Bytes, KeyExpr), AllocError>
    ensures read { IfOk result (λ both. both.1.fields ≡ table.now.content.table.schema) }
{
    let name = Bytes::from_slice(alloc, b"AGAIN")?;
    match KeyExpr::parse(alloc, b"NAME", table.schema()) {
        Ok(expr) => Ok((name, expr)),
        Err(_) => Err(AllocError),
    }
}

// The table of a copy of these records, with an index on NAME.
fn made(alloc: Global, data: &TableData) -> Result<Table, AllocError> {
    let source = data.copy(alloc)?;
    let name = Bytes::from_slice(alloc, b"AGAIN")?;
    match KeyExpr::parse(alloc, b"NAME", source.schema()) {
        Ok(expr) => {
            let indexes = vec![in alloc; (name, expr)]?;
            Table::new(alloc, source, indexes)
        }
        Err(_) => Err(AllocError),
    }
}

// Whether a field of the first record is shown as this text.
fn shows(alloc: Global, table: &Table, field: &[u8], text: &[u8]) -> Result<bool, AllocError> {
    let field = Bytes::from_slice(alloc, field)?;
    let cursor = at_first();
    if !is_cursor(table, &cursor) {
        return Ok(false);
    }
    match table.show(alloc, &cursor, &field) {
        Ok(found) => Ok(found.as_slice() == text),
        Err(fault) => refused(fault == TableFault::NoMemory),
    }
}

// Whether the pairs of the index are handed out.
fn hands_out_pairs(alloc: Global, table: &Table) -> Result<bool, AllocError> {
    if table.index_count() < 1 {
        return Ok(false);
    }
    let pairs = table.index_pairs(alloc, 1)?;
    Ok(
        pairs.len() == 3
            && pairs.get(0) == first()
            && pairs.get(1) == second()
            && pairs.get(2) == third(),
    )
}

// Whether an edit at the cursor is planned and carried out, and leaves these records in the order of the index.
fn edits(
    alloc: Global,
    sample: &mut Sample,
    edit: Edit<'_>,
    numbers: &[u32],
) -> Result<bool, AllocError> {
    let Sample { table, cursor, .. } = sample;
    if !is_cursor(table, cursor) {
        return Ok(false);
    }
    match table.plan(alloc, cursor, edit) {
        Ok(planned) => {
            table.carry_out(planned, cursor);
            Ok(has_order(table, 1, numbers))
        }
        Err(fault) => refused(fault == TableFault::NoMemory),
    }
}

// Whether REPLACE of NAME by EVE is planned and carried out.
fn replaces(alloc: Global, sample: &mut Sample) -> Result<bool, AllocError> {
    let field = Bytes::from_slice(alloc, b"NAME")?;
    let value = Literal::Text(Bytes::from_slice(alloc, b"EVE")?);
    let edit = Edit::Replace {
        field: &field,
        value: &value,
    };
    edits(alloc, sample, edit, &[2, 3, 1])
}

// Whether MEMO of NOTE is planned and carried out.
fn replaces_memo(alloc: Global, sample: &mut Sample) -> Result<bool, AllocError> {
    let field = Bytes::from_slice(alloc, b"NOTE")?;
    let text = Bytes::from_slice(alloc, b"LATER")?;
    let edit = Edit::Memo {
        field: &field,
        text: &text,
    };
    edits(alloc, sample, edit, &BY_NAME)
}

// Whether a table has a second index, which has the order of the first.
fn has_both(table: &Table) -> bool {
    table.index_count() == 2 && has_order(table, 2, &BY_NAME)
}

// Whether an index is added that is made of the records.
fn adds(alloc: Global, table: &mut Table) -> Result<bool, AllocError> {
    let (name, expr) = name_and_expr(alloc, table)?;
    table.add_index(alloc, name, expr)?;
    Ok(has_both(table))
}

// Whether an index is added that is made of these pairs.
fn adds_kept(alloc: Global, table: &mut Table, pairs: [Pair; 3]) -> Result<bool, AllocError> {
    let (name, expr) = name_and_expr(alloc, table)?;
    let mut list = PairList::new(alloc, 10);
    for pair in pairs {
        if pair.key.as_bytes().len() != list.key_len() {
            return Ok(false);
        }
        list.push(&pair)?;
    }
    Ok(table.add_kept_index(alloc, name, expr, list)? && has_both(table))
}

// Whether an index is added as a command does: planned, and then carried out.
fn adds_planned(alloc: Global, sample: &mut Sample) -> Result<bool, AllocError> {
    let Sample { table, cursor, .. } = sample;
    let (name, expr) = name_and_expr(alloc, table)?;
    if !is_cursor(table, cursor) {
        return Ok(false);
    }
    let planned = table.plan_index(alloc, name, expr)?;
    table.carry_out(planned, cursor);
    Ok(has_both(table))
}

// Whether the table is copied out as it is.
fn copies(alloc: Global, sample: &mut Sample) -> Result<bool, AllocError> {
    let data = sample.table.content(alloc)?;
    Ok(is_written(&mut sample.sink, &data, &dbf_file(), &memo_file()))
}

struct OfIndexedTables;

impl Calls for OfIndexedTables {
    fn make(&self, alloc: Global, sample: &mut Sample, number: usize) -> Result<bool, AllocError> {
        match number {
            0 => Ok(is_sample(&made(alloc, &sample.data)?)),
            1 => shows(alloc, &sample.table, b"NAME", b"BOB       "),
            2 => shows(alloc, &sample.table, b"NOTE", b"HELLO"),
            3 => copies(alloc, sample),
            4 => hands_out_pairs(alloc, &sample.table),
            5 => edits(alloc, sample, Edit::AppendBlank, &[4, 2, 1, 3]),
            6 => replaces(alloc, sample),
            7 => replaces_memo(alloc, sample),
            8 => edits(alloc, sample, Edit::Pack, &[2, 1]),
            9 => adds(alloc, &mut sample.table),
            10 => adds_kept(alloc, &mut sample.table, [first(), second(), third()]),
            11 => adds_kept(alloc, &mut sample.table, [second(), third(), first()]),
            12 => adds_planned(alloc, sample),
            _ => Ok(false),
        }
    }
}

#[test]
fn each_call_of_indexed_tables_where_memory_is_refused(rt: HostRuntime) -> Result<(), Fail> {
    assert_all(&rt, rt.alloc(), &OfIndexedTables, 13)
}
