//! Writing the records of a table.
#![tactic(auto, using(byte_io::specs::Laws::Sinks::sinks))]

ghost use Rattle.std.specs.Prelude.{◌≡◌, ◌≢◌, ℕ, List, ◌+◌, ◌≤◌, ◌*◌, ◌∷◌, [], length, IsTrue};
ghost use Rattle.std.specs.List.{AllByRecursion};
ghost use Rattle.dbf_fields.specs.Field.{widths};
ghost use Rattle.dbf_fields.specs.Schema.{IsSchema};
ghost use Rattle.dbf_fields.specs.declared.format.TheConstants.{MEMO as MEMO_KIND};
ghost use Rattle.dbf_image.specs.DbfText.{chunks};
ghost use Rattle.dbf_image.specs.Store.{texts_of, memo_count, first_memo, cells_in, row_in, rows_by_header, HasWrittenFlag, IsMemo};
ghost use Rattle.dbf_image.specs.Blocks.{HasMemoLength, written_cell, cell_blocks, cells_bytes, cells_blocks};
ghost use Rattle.dbf_image.specs.Image.{row_bytes, records_bytes};
ghost use Rattle.byte_io.specs.Output.{Puts};
ghost use Rattle.dbf_image.specs.declared.format.TheConstants.{DELETED, MAX_MEMO_BLOCKS, MAX_MEMO_BYTES, MAX_RECORDS};

use crate::dbf::header::Header;
use crate::dbt::blocks::{block_count, block_number_cell};
use crate::format::DELETED;
use crate::memo_store::MemoStore;
use crate::table::flag::flag_of;
use crate::table::memo::memo_length;
use crate::table::offsets::memo_count_of;
use crate::table::store::Store;
use byte_io::{ByteSink, SinkWriter};
use dbf_fields::{Field, MEMO};

// How many memos a field has in a record: one or none.
fn memos_of(field: &Field) -> usize
    ensures value { result ≡ memo_count (field.now ∷ []) }
    ensures bounded { result ≤ 1 }
{
    if field.kind == MEMO { 1 } else { 0 }
}

// How many bytes the text of a field's memo has; 0 where the field is none.
fn memo_length_of(field: &Field, texts: &MemoStore, memos: &[u32]) -> usize
    requires many { memo_count (field.now ∷ []) ≤ length memos.now }
    requires each { AllByRecursion (IsMemo texts.now.texts) memos.now }
    ensures value { field.now.kind ≡ MEMO_KIND → result ≡ length (first_memo (texts_of texts.now.texts memos.now)) }
    ensures none { field.now.kind ≢ MEMO_KIND → result ≡ 0 }
    ensures short { result ≤ MAX_MEMO_BYTES }
{
    if field.kind == MEMO {
        memo_length(texts, memos[0])
    } else {
        0
    }
}

// How many blocks a field's cell takes, whose memo has a text of this length.
fn blocks_at(field: &Field, text_length: usize) -> u64
    requires short { text_length ≤ MAX_MEMO_BYTES }
    ensures value { (cell : List ℕ) → HasMemoLength field.now cell text_length → result ≡ cell_blocks field.now cell }
    ensures bounded { result ≤ MAX_MEMO_BLOCKS * memo_count (field.now ∷ []) }
{
    if field.kind == MEMO {
        block_count(text_length)
    } else {
        0
    }
}

// A field's cell, where the next free block is known: the bytes as they are, or a memo's, whose text has this length.
fn put_cell<S: ByteSink>(
    out: &mut SinkWriter<'_, S>,
    field: &Field,
    bytes: &[u8],
    text_length: usize,
    next: u64,
)
    ensures put { (text : List ℕ) → HasMemoLength field.now text text_length → Puts out.old (written_cell next field.now text bytes.now) out.new }
{
    if field.kind == MEMO {
        out.put(&block_number_cell(next, text_length));
    } else {
        out.put(bytes);
    }
}

// The cells of a record. The answer is the next free block after its memos.
fn put_cells<S: ByteSink>(
    out: &mut SinkWriter<'_, S>,
    fields: &[Field],
    cells: Store<'_>,
    first: u64,
) -> u64
    requires room { widths fields.now ≤ length cells.records.now }
    requires many { memo_count fields.now ≤ length cells.memos.now }
    requires each { AllByRecursion (IsMemo cells.texts.now.texts) cells.memos.now }
    requires count_bounded { first + MAX_MEMO_BLOCKS * memo_count fields.now ≤ u64.MAX }
    ensures put { Puts out.old (cells_bytes first fields.now (cells_in fields.now cells.entry)) out.new }
    ensures next { result ≡ first + cells_blocks fields.now (cells_in fields.now cells.entry) }
    ensures bounded { result ≤ first + MAX_MEMO_BLOCKS * memo_count fields.now }
{
    let mut rest = cells.records;
    let mut memos = cells.memos;
    let mut next = first;
    for field in fields {
        let (bytes, after) = rest.split_at(usize::from(field.width));
        let (mine, others) = memos.split_at(memos_of(field));
        let text_length = memo_length_of(field, cells.texts, mine);
        put_cell(out, field, bytes, text_length, next);
        next += blocks_at(field, text_length);
        rest = after;
        memos = others;
    }
    next
}

// A record: a flag, and the cells, all at once where none is a memo's. The answer is the next free block after its memos.
fn put_record<S: ByteSink>(
    out: &mut SinkWriter<'_, S>,
    fields: &[Field],
    parts: Store<'_>,
    first: u64,
) -> u64
    requires whole { length parts.records.now ≡ 1 + widths fields.now }
    requires many { memo_count fields.now ≤ length parts.memos.now }
    requires each { AllByRecursion (IsMemo parts.texts.now.texts) parts.memos.now }
    requires count_bounded { first + MAX_MEMO_BLOCKS * memo_count fields.now ≤ u64.MAX }
    ensures put { Puts out.old (row_bytes first fields.now (row_in fields.now parts.entry)) out.new }
    ensures next { result ≡ first + cells_blocks fields.now (row_in fields.now parts.entry).cells }
    ensures bounded { result ≤ first + MAX_MEMO_BLOCKS * memo_count fields.now }
{
    let (_, bytes) = parts.records.split_at(1);
    out.put(&[flag_of(parts.records[0] == DELETED)]);
    if parts.memos.is_empty() {
        out.put(bytes);
        return first;
    }
    let cells = Store {
        records: bytes,
        ..parts
    };
    put_cells(out, fields, cells, first)
}

// The records of a table one by one, with the cells of memos counting from block 1.
fn put_each_record<S: ByteSink>(
    out: &mut SinkWriter<'_, S>,
    fields: &[Field],
    header: Header,
    store: Store<'_>,
)
    requires schema { IsSchema fields.now }
    requires wide { header.record_length ≡ 1 + widths fields.now }
    requires count_bounded { header.record_count ≤ MAX_RECORDS }
    requires room { header.record_count * header.record_length ≤ length store.records.now }
    requires many { length store.memos.now ≡ header.record_count * memo_count fields.now }
    requires each { AllByRecursion (IsMemo store.texts.now.texts) store.memos.now }
    ensures put { Puts out.old (records_bytes fields.now (rows_by_header fields.now header store.entry)) out.new }
{
    let size = usize::from(header.record_length);
    let memos_each = memo_count_of(fields);
    let mut rest = store.records;
    let mut memos = store.memos;
    let mut next: u64 = 1;
    for _ in 0..header.record_count {
        let (bytes, after) = rest.split_at(size);
        let (mine, others) = memos.split_at(memos_each);
        let record = Store {
            records: bytes,
            memos: mine,
            ..store
        };
        next = put_record(out, fields, record, next);
        rest = after;
        memos = others;
    }
}

// Whether each record's flag is the one that is written of it.
fn are_written_flags(records: &[u8], size: usize, count: u32) -> bool
    requires size { 1 ≤ size }
    requires room { count * size ≤ length records.now }
    ensures value { IsTrue result → AllByRecursion HasWrittenFlag (chunks size count records.now) }
{
    let mut rest = records;
    for _ in 0..count {
        let (record, after) = rest.split_at(size);
        if flag_of(record[0] == DELETED) != record[0] {
            return false;
        }
        rest = after;
    }
    true
}

/// All records of a table, with the cells of memos counting from block 1: all at once where none has a memo and
/// they are written as they stand.
pub(crate) fn put_records<S: ByteSink>(
    out: &mut SinkWriter<'_, S>,
    fields: &[Field],
    header: Header,
    store: Store<'_>,
)
    requires schema { IsSchema fields.now }
    requires wide { header.record_length ≡ 1 + widths fields.now }
    requires count_bounded { header.record_count ≤ MAX_RECORDS }
    requires room { header.record_count * header.record_length ≤ length store.records.now }
    requires many { length store.memos.now ≡ header.record_count * memo_count fields.now }
    requires each { AllByRecursion (IsMemo store.texts.now.texts) store.memos.now }
    ensures put { Puts out.old (records_bytes fields.now (rows_by_header fields.now header store.entry)) out.new }
{
    let size = usize::from(header.record_length);
    let (records, _) = store.records.split_at(header.record_count as usize * size);
    if memo_count_of(fields) == 0 && are_written_flags(records, size, header.record_count) {
        out.put(records);
    } else {
        put_each_record(out, fields, header, store);
    }
}
