//! Why the files of an entry are refused, in words.

ghost use Rattle.std.specs.Prelude.{◌≡◌, ◌++◌, OnOk};
ghost use Rattle.setup_check.specs.HeadNumbers.{wanted_length as wanted_length_of};
ghost use Rattle.setup_check.specs.Lines.{bad_page_words, block_words, field_refusal, index_detail_words, load_words, part_words, unrecovered_words, refusal_words, table_detail_words};
ghost use Rattle.dbf_image.specs.declared.bad_table.TablePart.TheVariants.{Field, Memo};

use crate::lines::named::append_named;
use crate::lines::numbers::{append_two, append_words};
use dbf_fields::{BadField, SchemaFault};
use dbf_image::{BadTable, HEADER, ImageFault, MemoCell, TableNumbers, TablePart};
use folders::folder_of;
use ndx_index::{BadIndex, NdxFault, PAGE};
use setup_files::{EntryFault, IndexNumbers, LoadRefusal};
use std::alloc::{AllocError, Global};

// How long a table's file has to be, by its header.
fn wanted_length(numbers: &TableNumbers) -> usize
    ensures value { result ≡ wanted_length_of numbers.now }
{
    if numbers.file_length < HEADER {
        return HEADER;
    }
    usize::from(numbers.header_length)
        + numbers.record_count as usize * usize::from(numbers.record_length)
}

fn field_words(why: SchemaFault) -> &'static [u8]
    ensures value { result.now ≡ field_refusal why }
{
    match why {
        SchemaFault::BadFieldCount => b"it is one too many",
        SchemaFault::BadName => b"its name is bad",
        SchemaFault::DuplicateName => b"it has the name of an earlier one",
        SchemaFault::BadKind => b"it is of no known kind",
        SchemaFault::BadWidth => b"its width is bad",
        SchemaFault::RecordTooLong => b"with it a record is too long",
        SchemaFault::NoMemory => b"out of memory",
    }
}

// A field up to which the fields are no schema.
fn append_bad_field(alloc: Global, text: &mut Vec<u8>, bad: BadField) -> Result<(), AllocError>
    ensures ok { OnOk result (text.new.items ≡ text.old.items ++ part_words (Field bad)) }
{
    append_words(alloc, text, b": field ", bad.field_number)?;
    text.extend_from_slice(b": ")?;
    text.extend_from_slice(field_words(bad.why))
}

// The block that a memo's cell names.
fn append_block(alloc: Global, text: &mut Vec<u8>, block: Option<u64>) -> Result<(), AllocError>
    ensures ok { OnOk result (text.new.items ≡ text.old.items ++ block_words block) }
{
    match block {
        Some(block) => append_words(alloc, text, b", block ", block as usize),
        None => Ok(()),
    }
}

// Where a memo stands that is refused.
fn append_bad_memo(alloc: Global, text: &mut Vec<u8>, cell: MemoCell) -> Result<(), AllocError>
    ensures ok { OnOk result (text.new.items ≡ text.old.items ++ part_words (Memo cell)) }
{
    append_words(alloc, text, b": record ", cell.record_number as usize)?;
    append_words(alloc, text, b", field ", cell.field_number)?;
    append_block(alloc, text, cell.block)
}

// The field or the memo of a table's files that is bad.
fn append_part(alloc: Global, text: &mut Vec<u8>, part: TablePart) -> Result<(), AllocError>
    ensures ok { OnOk result (text.new.items ≡ text.old.items ++ part_words part) }
{
    match part {
        TablePart::Header => Ok(()),
        TablePart::Field(bad) => append_bad_field(alloc, text, bad),
        TablePart::Memo(cell) => append_bad_memo(alloc, text, cell),
    }
}

// What is told of a table beside why it is refused.
fn append_table_details(
    alloc: Global,
    text: &mut Vec<u8>,
    bad: BadTable,
    numbers: &TableNumbers,
) -> Result<(), AllocError>
    ensures ok { OnOk result (text.new.items ≡ text.old.items ++ table_detail_words bad.why bad.part numbers.now) }
{
    match bad.why {
        ImageFault::Truncated => {
            let wanted = wanted_length(numbers);
            append_two(
                alloc,
                text,
                b": ",
                numbers.file_length,
                b" bytes, not ",
                wanted,
            )
        }
        ImageFault::BadVersion => append_words(alloc, text, b": ", usize::from(numbers.version)),
        ImageFault::BadHeaderLength => {
            append_words(alloc, text, b": ", usize::from(numbers.header_length))
        }
        ImageFault::BadRecordLength => {
            append_words(alloc, text, b": ", usize::from(numbers.record_length))
        }
        ImageFault::TooManyRecords => {
            append_words(alloc, text, b": ", numbers.record_count as usize)
        }
        _ => append_part(alloc, text, bad.part),
    }
}

// The page of an index that is refused, where there is one.
fn append_bad_page(
    alloc: Global,
    text: &mut Vec<u8>,
    bad_page: Option<u32>,
) -> Result<(), AllocError>
    ensures ok { OnOk result (text.new.items ≡ text.old.items ++ bad_page_words bad_page) }
{
    match bad_page {
        Some(page) => append_words(alloc, text, b": page ", page as usize),
        None => Ok(()),
    }
}

// What is told of an index beside why it is refused.
fn append_index_details(
    alloc: Global,
    text: &mut Vec<u8>,
    bad: BadIndex,
    numbers: &IndexNumbers,
) -> Result<(), AllocError>
    ensures ok { OnOk result (text.new.items ≡ text.old.items ++ index_detail_words bad.why bad.page numbers.now) }
{
    match bad.why {
        NdxFault::Truncated => {
            append_two(
                alloc,
                text,
                b": ",
                numbers.file_length,
                b" bytes, not ",
                PAGE,
            )
        }
        NdxFault::NumericIndex => {
            append_words(alloc, text, b": type ", usize::from(numbers.key_type))
        }
        NdxFault::UniqueIndex => {
            append_words(alloc, text, b": flag ", usize::from(numbers.unique_flag))
        }
        NdxFault::BadKeyLength => {
            append_words(alloc, text, b": ", usize::from(numbers.key_length))
        }
        NdxFault::BadRecordSize => {
            let size = usize::from(numbers.record_size);
            let keys = usize::from(numbers.key_length);
            append_two(alloc, text, b": ", size, b" bytes for keys of ", keys)
        }
        _ => append_bad_page(alloc, text, bad.page),
    }
}

// That the folder of a path is not recovered, and how that is done.
fn append_unrecovered(text: &mut Vec<u8>, path: &[u8]) -> Result<(), AllocError>
    ensures ok { OnOk result (text.new.items ≡ text.old.items ++ unrecovered_words path.now) }
{
    text.extend_from_slice(b"the folder is not recovered: start with --out ")?;
    text.extend_from_slice(folder_of(path))?;
    Ok(())
}

// Why no bytes are had of the file of a path.
fn append_load_refusal(text: &mut Vec<u8>, path: &[u8], why: LoadRefusal) -> Result<(), AllocError>
    ensures ok { OnOk result (text.new.items ≡ text.old.items ++ load_words path.now why) }
{
    match why {
        LoadRefusal::CannotRead => text.extend_from_slice(b"can't be read"),
        LoadRefusal::Unrecovered => append_unrecovered(text, path),
    }
}

/// Appends why the files of an entry are refused, of which this path is told.
///
/// An `Err` says that there was no memory.
pub(crate) fn append_refusal(
    alloc: Global,
    text: &mut Vec<u8>,
    path: &[u8],
    fault: EntryFault,
) -> Result<(), AllocError>
    ensures ok { OnOk result (text.new.items ≡ text.old.items ++ refusal_words path.now fault) }
{
    match fault {
        EntryFault::Unloaded(why) => append_load_refusal(text, path, why),
        EntryFault::UnloadedMemos(why) => append_load_refusal(text, path, why),
        EntryFault::NoTable(bad, numbers) => {
            text.extend_from_slice(b"no table: ")?;
            append_named(text, bad.why.name(), bad.why.words())?;
            append_table_details(alloc, text, bad, &numbers)
        }
        EntryFault::NoIndex(bad, numbers) => {
            text.extend_from_slice(b"no index: ")?;
            append_named(text, bad.why.name(), bad.why.words())?;
            append_index_details(alloc, text, bad, &numbers)
        }
    }
}
