//! The texts of a table's memos, read from their file.

ghost use Rattle.std.specs.Prelude.{◌≡◌, ◌+◌, ◌*◌, ◌≤◌, ◌++◌, [], length, flat_map, Some, None, IfOk, IfErr, OnOk};
ghost use Rattle.dbf_fields.specs.Faults.{first_fault};
ghost use Rattle.dbf_fields.specs.Field.{widths};
ghost use Rattle.dbf_fields.specs.declared.format.TheConstants.{MEMO_WIDTH};
ghost use Rattle.dbf_fields.specs.Schema.{IsSchema};
ghost use Rattle.dbf_image.specs.Table.{has_memos as some_memo};
ghost use Rattle.dbf_image.specs.DbfText.{chunks, row_chunks, AreRecords};
ghost use Rattle.dbf_image.specs.Memo.{memo_at};
ghost use Rattle.dbf_image.specs.MemoNumbers.{KeepsMemos, cell_texts, cells_texts, row_texts, read_texts, all_texts, HasTextsOf, IsReading};
ghost use Rattle.dbf_image.specs.Store.{text_of, IsMemo, IsStore};
ghost use Rattle.dbf_image.specs.Reading.{text_tests, memo_tests, memo_text, cell_tests, IsRefusal};
ghost use Rattle.dbf_image.specs.BadTable.{part_of_memo, tests_of, record_memos_tests, records_memos_tests, table_memos_tests, IsBad};
ghost use Rattle.dbf_image.specs.Spans.{AreEnds};

use crate::bad_table::{BadTable, MemoCell, TablePart};
use crate::dbt::memo::{block_ends, memo_block, span_at};
use crate::fault::ImageFault;
use crate::format::BLOCK;
use crate::memo_store::MemoStore;
use crate::memo_store::file_text::{FileText, push_file_text};
use byte_io::Bytes;
use dbf_fields::{Field, MEMO, Schema};
use std::alloc::{AllocError, Global};

/// What was read of a file of memos: where the texts stand, each block's number in them (0 where it has not been read, or
/// has no text), and the numbers of the memos in order of record and field.
#[derive(Drop)]
pub(crate) struct ReadMemos {
    pub(crate) texts: Vec<FileText>,
    pub(crate) of_block: Vec<u32>,
    pub(crate) numbers: Vec<u32>,
}

// Nothing is read yet.
fn nothing_read(alloc: Global, dbt: &[u8]) -> Result<ReadMemos, AllocError>
    ensures reading { IfOk result (IsReading dbt.now) }
    ensures none { IfOk result (λ memos. memos.numbers.items ≡ []) }
{
    let mut of_block = Vec::new(alloc);
    of_block.resize(dbt.len() / BLOCK + 1, 0)?;
    Ok(ReadMemos {
        texts: Vec::new(alloc),
        of_block,
        numbers: Vec::new(alloc),
    })
}

// The number of a block's text, which is read where it has not been.
#[tactic(auto, unfolding(crate::specs::Reading::text_tests))]
fn number_of_block(
    dbt: &[u8],
    ends: &[usize],
    block: u64,
    memos: &mut ReadMemos,
) -> Result<u32, ImageFault>
    requires ends { AreEnds dbt.now ends.now }
    requires reading { IsReading dbt.now memos.old }
    ensures accepted { OnOk result (first_fault (text_tests dbt.now block) ≡ None) }
    ensures reading { OnOk result (IsReading dbt.now memos.new) }
    ensures kept { OnOk result (KeepsMemos (read_texts dbt.now memos.old) (read_texts dbt.now memos.new)) }
    ensures same { OnOk result (memos.new.numbers ≡ memos.old.numbers) }
    ensures memo { IfOk result (λ number. IsMemo (read_texts dbt.now memos.new) number) }
    ensures text { IfOk result (λ number. text_of (read_texts dbt.now memos.new) number ≡ memo_at dbt.now block) }
    ensures refused { IfErr result (λ fault. IsRefusal fault (text_tests dbt.now block)) }
{
    let span = span_at(dbt, ends, block)?;
    let known = memos.of_block[block as usize];
    if known != 0 {
        return Ok(known);
    }
    let number = push_file_text(&mut memos.texts, span)?;
    memos.of_block[block as usize] = number;
    Ok(number)
}

// The number of the text that a memo's cell tells.
#[tactic(auto, unfolding(crate::specs::Reading::memo_tests, crate::specs::Reading::memo_text))]
fn number_of_cell(
    dbt: &[u8],
    ends: &[usize],
    cell: &[u8],
    memos: &mut ReadMemos,
) -> Result<u32, ImageFault>
    requires ends { AreEnds dbt.now ends.now }
    requires reading { IsReading dbt.now memos.old }
    requires count_bounded { length cell.now ≤ MEMO_WIDTH }
    ensures accepted { OnOk result (first_fault (memo_tests dbt.now cell.now) ≡ None) }
    ensures reading { OnOk result (IsReading dbt.now memos.new) }
    ensures kept { OnOk result (KeepsMemos (read_texts dbt.now memos.old) (read_texts dbt.now memos.new)) }
    ensures same { OnOk result (memos.new.numbers ≡ memos.old.numbers) }
    ensures memo { IfOk result (λ number. IsMemo (read_texts dbt.now memos.new) number) }
    ensures text { IfOk result (λ number. text_of (read_texts dbt.now memos.new) number ≡ memo_text dbt.now cell.now) }
    ensures refused { IfErr result (λ fault. IsRefusal fault (memo_tests dbt.now cell.now)) }
{
    match memo_block(cell) {
        None => Err(ImageFault::BadMemoNumber),
        Some(0) => Ok(0),
        Some(block) => number_of_block(dbt, ends, block, memos),
    }
}

// The part of a table's files that the memo of a cell is.
fn memo_part(record_number: u32, field_number: usize, cell: &[u8]) -> TablePart
    requires count_bounded { length cell.now ≤ MEMO_WIDTH }
    ensures value { result ≡ part_of_memo record_number field_number cell.now }
{
    TablePart::Memo(MemoCell {
        record_number,
        field_number,
        block: memo_block(cell),
    })
}

// Reads the cell of the field of a record, where the field is a memo.
#[tactic(auto, unfolding(crate::specs::Reading::cell_tests, crate::specs::MemoNumbers::cell_texts), using(crate::proofs::PartLaws::part_passes))]
fn read_cell(
    dbt: &[u8],
    ends: &[usize],
    field: &Field,
    cell: &[u8],
    record_number: u32,
    field_number: usize,
    memos: &mut ReadMemos,
) -> Result<(), BadTable>
    requires ends { AreEnds dbt.now ends.now }
    requires reading { IsReading dbt.now memos.old }
    requires count_bounded { field.now.kind ≡ MEMO → length cell.now ≤ MEMO_WIDTH }
    ensures accepted { OnOk result (first_fault (tests_of (part_of_memo record_number field_number cell.now) (cell_tests dbt.now field.now cell.now)) ≡ None) }
    ensures reading { OnOk result (IsReading dbt.now memos.new) }
    ensures texts { OnOk result (all_texts dbt.now memos.new ≡ all_texts dbt.now memos.old ++ cell_texts dbt.now field.now cell.now) }
    ensures refused { IfErr result (λ bad. IsBad bad (tests_of (part_of_memo record_number field_number cell.now) (cell_tests dbt.now field.now cell.now))) }
{
    if field.kind == MEMO {
        match number_of_cell(dbt, ends, cell, memos) {
            Ok(number) => memos.numbers.push(number)?,
            Err(why) => {
                return Err(BadTable {
                    why,
                    part: memo_part(record_number, field_number, cell),
                });
            }
        }
    }
    Ok(())
}

// Reads the memos of the record of this number.
fn read_cells(
    dbt: &[u8],
    ends: &[usize],
    fields: &[Field],
    record_number: u32,
    bytes: &[u8],
    memos: &mut ReadMemos,
) -> Result<(), BadTable>
    requires ends { AreEnds dbt.now ends.now }
    requires reading { IsReading dbt.now memos.old }
    requires schema { IsSchema fields.now }
    requires room { widths fields.now ≤ length bytes.now }
    ensures accepted { OnOk result (first_fault (record_memos_tests dbt.now record_number 1 fields.now bytes.now) ≡ None) }
    ensures reading { OnOk result (IsReading dbt.now memos.new) }
    ensures texts { OnOk result (all_texts dbt.now memos.new ≡ all_texts dbt.now memos.old ++ cells_texts dbt.now fields.now bytes.now) }
    ensures refused { IfErr result (λ bad. IsBad bad (record_memos_tests dbt.now record_number 1 fields.now bytes.now)) }
{
    let mut rest = bytes;
    for (index, field) in fields.iter().enumerate() {
        let (cell, after) = rest.split_at(usize::from(field.width));
        read_cell(dbt, ends, field, cell, record_number, index + 1, memos)?;
        rest = after;
    }
    Ok(())
}

// Reads the memos of all records, in order of record and field.
fn read_all(
    alloc: Global,
    dbt: &[u8],
    fields: &[Field],
    size: usize,
    count: u32,
    bytes: &[u8],
) -> Result<ReadMemos, BadTable>
    requires schema { IsSchema fields.now }
    requires size { size ≡ 1 + widths fields.now }
    requires room { count * size ≤ length bytes.now }
    ensures accepted { IfOk result (λ _. first_fault (records_memos_tests dbt.now 1 fields.now (chunks size count bytes.now)) ≡ None) }
    ensures reading { IfOk result (IsReading dbt.now) }
    ensures texts { IfOk result (λ memos. all_texts dbt.now memos ≡ flat_map (row_texts dbt.now fields.now) (chunks size count bytes.now)) }
    ensures refused { IfErr result (λ bad. IsBad bad (records_memos_tests dbt.now 1 fields.now (chunks size count bytes.now))) }
{
    let ends = block_ends(alloc, dbt)?;
    let mut memos = nothing_read(alloc, dbt)?;
    let mut rest = bytes;
    for earlier in 0..count {
        let (front, after) = rest.split_at(size);
        let (_, cells) = front.split_at(1);
        read_cells(dbt, &ends, fields, earlier + 1, cells, &mut memos)?;
        rest = after;
    }
    Ok(memos)
}

/// Whether some field is a memo.
pub(crate) fn has_memos(fields: &[Field]) -> bool
    ensures value { result ≡ some_memo fields.now }
{
    fields.iter().any(|field| field.kind == MEMO)
}

// The texts of all memos, and the number of each of them.
fn memos_in(
    alloc: Global,
    dbt: Bytes,
    schema: &Schema,
    count: u32,
    bytes: &[u8],
) -> Result<(MemoStore, Vec<u32>), BadTable>
    requires records { AreRecords schema.now count bytes.now }
    ensures accepted { IfOk result (λ _. first_fault (records_memos_tests dbt 1 schema.now (row_chunks schema.now count bytes.now)) ≡ None) }
    ensures value { IfOk result (λ memos. HasTextsOf (Some dbt) schema.now count bytes.now memos.0.texts memos.1.items) }
    ensures kept { IfOk result (λ memos. IsStore schema.now count bytes.now memos.0.texts memos.1.items) }
    ensures refused { IfErr result (λ bad. IsBad bad (records_memos_tests dbt 1 schema.now (row_chunks schema.now count bytes.now))) }
{
    let size = schema.record_length();
    let ReadMemos { texts, numbers, .. } = read_all(
        alloc,
        dbt.as_slice(),
        schema.fields(),
        size,
        count,
        bytes,
    )?;
    let store = MemoStore::of_file(alloc, dbt.into_vec(), texts)?;
    Ok((store, numbers))
}

/// The texts of all memos of a table's records, and the number of each of them in order of record and field. The bytes of
/// the file of memos become those of the store: a text is a part of them, also where many cells name its block.
pub(crate) fn memos_at(
    alloc: Global,
    dbt: Option<Bytes>,
    schema: &Schema,
    count: u32,
    bytes: &[u8],
) -> Result<(MemoStore, Vec<u32>), BadTable>
    requires records { AreRecords schema.now count bytes.now }
    ensures accepted { IfOk result (λ _. first_fault (table_memos_tests dbt schema.now (row_chunks schema.now count bytes.now)) ≡ None) }
    ensures value { IfOk result (λ memos. HasTextsOf dbt schema.now count bytes.now memos.0.texts memos.1.items) }
    ensures kept { IfOk result (λ memos. IsStore schema.now count bytes.now memos.0.texts memos.1.items) }
    ensures refused { IfErr result (λ bad. IsBad bad (table_memos_tests dbt schema.now (row_chunks schema.now count bytes.now))) }
{
    if !has_memos(schema.fields()) {
        return Ok((MemoStore::new(alloc), Vec::new(alloc)));
    }
    let Some(dbt) = dbt else {
        return Err(ImageFault::MemoFileMissing.into());
    };
    memos_in(alloc, dbt, schema, count, bytes)
}
