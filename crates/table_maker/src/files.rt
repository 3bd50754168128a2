//! The files of a table.
#![tactic(auto, using(byte_io::specs::Laws::Sinks::sinks))]

ghost use Rattle.std.specs.Prelude.{◌≡◌, ◌++◌, ◌∷◌, [], true, IfOk, OnOk};
ghost use Rattle.std.specs.List.{list_all};
ghost use Rattle.byte_io.specs.Sink.{grown, is_byte};
ghost use Rattle.dbf_image.specs.Blocks.{memo_image};
ghost use Rattle.dbf_image.specs.Image.{image};
ghost use Rattle.dbf_image.specs.Table.{has_memos};
ghost use Rattle.folders.specs.Files.{listing, IsOfBytes};
ghost use Rattle.folders.specs.Placed.{IsListedAfter};
ghost use Rattle.table_maker.specs.Making.{dated_file, files_of_table, memo_file, names_of_table as names_by, table_extension as extension_of_table, memos_extension as extension_of_memos};

use byte_io::{ByteSink, Bytes, SinkFault};
use dbf_fields::{Day, Field, MEMO};
use dbf_image::{TableData, write_dbf, write_dbt};
use folders::Folder;
use std::alloc::{AllocError, Global};

/// Why the files of a table are not written.
pub(crate) enum FilesFault {
    /// A file was not written.
    Write,
    /// Memory was refused.
    NoMemory,
}

impl From<SinkFault> for FilesFault {
    ghost use Rattle.std.specs.Prelude.{◌≡◌};
    ghost use Rattle.table_maker.specs.declared.files.FilesFault.TheVariants.{Write};

    ghost from_gives = { λ _ fault. fault ≡ Write };

    fn from(_refused: SinkFault) -> FilesFault {
        FilesFault::Write
    }
}

impl From<AllocError> for FilesFault {
    ghost use Rattle.std.specs.Prelude.{◌≡◌};
    ghost use Rattle.table_maker.specs.declared.files.FilesFault.TheVariants.{NoMemory};

    ghost from_gives = { λ _ fault. fault ≡ NoMemory };

    fn from(_refused: AllocError) -> FilesFault {
        FilesFault::NoMemory
    }
}

// Whether a field is a memo. Takes no memory.
fn any_memo(fields: &[Field]) -> bool
    ensures value { result ≡ has_memos fields.now }
{
    fields.iter().any(|field| field.kind == MEMO)
}

/// The extension of a table's file, in capitals or in small letters.
pub(crate) fn table_extension(in_capitals: bool) -> &'static [u8]
    ensures value { result.now ≡ extension_of_table in_capitals }
{
    if in_capitals { b".DBF" } else { b".dbf" }
}

// The extension of the file of its memos, in capitals or in small letters.
fn memos_extension(in_capitals: bool) -> &'static [u8]
    ensures value { result.now ≡ extension_of_memos in_capitals }
{
    if in_capitals { b".DBT" } else { b".dbt" }
}

// A file's name. An error where memory is refused.
fn with_extension(alloc: Global, stem: &[u8], extension: &[u8]) -> Result<Bytes, AllocError>
    ensures value { IfOk result (λ name. name ≡ stem.now ++ extension.now) }
{
    let mut name = Vec::from_slice(alloc, stem)?;
    name.extend_from_slice(extension)?;
    Ok(Bytes::from_vec(name))
}

/// The names that the files of a table may have: its own, and that of its memos. An error where memory is refused.
pub(crate) fn names_of_table(
    alloc: Global,
    stem: &[u8],
    in_capitals: bool,
) -> Result<Vec<Bytes>, AllocError>
    ensures value { IfOk result (λ names. names.items ≡ names_by stem.now in_capitals) }
{
    let mut names = Vec::new(alloc);
    names.push(with_extension(alloc, stem, table_extension(in_capitals))?)?;
    names.push(with_extension(alloc, stem, memos_extension(in_capitals))?)?;
    Ok(names)
}

// Puts the bytes of a table's file.
fn put_table<S: ByteSink>(sink: &mut S, table: &TableData, day: Day) -> Result<(), SinkFault>
    ensures wrote { OnOk result (S.written sink.new ≡ grown (S.written sink.old) (image table.now day.year day.month day.day)) }
    ensures no_failure { OnOk result (S.failures sink.new ≡ S.failures sink.old) }
    ensures bytes { OnOk result (list_all is_byte (image table.now day.year day.month day.day) ≡ true) }
{
    write_dbf(sink, table, day).map_err(|_| SinkFault)
}

// Puts the bytes of the file of a table's memos.
fn put_memos<S: ByteSink>(sink: &mut S, table: &TableData) -> Result<(), SinkFault>
    ensures wrote { OnOk result (S.written sink.new ≡ grown (S.written sink.old) (memo_image table.now)) }
    ensures no_failure { OnOk result (S.failures sink.new ≡ S.failures sink.old) }
    ensures bytes { OnOk result (list_all is_byte (memo_image table.now) ≡ true) }
{
    write_dbt(sink, table).map_err(|_| SinkFault)
}

// Writes the file of a table.
fn write_table<F: Folder>(
    folder: &mut F,
    name: &[u8],
    table: &TableData,
    day: Day,
) -> Result<(), SinkFault>
    ensures wrote { OnOk result (F.written folder.new ≡ grown (F.written folder.old) (listing (dated_file name.now table.now day ∷ []))) }
    ensures no_failure { OnOk result (F.failures folder.new ≡ F.failures folder.old) }
    ensures bytes { OnOk result (IsOfBytes (dated_file name.now table.now day)) }
{
    folder.begin(name)?;
    put_table(folder, table, day)
}

// Writes the file of a table's memos.
fn write_memos<F: Folder>(folder: &mut F, name: &[u8], table: &TableData) -> Result<(), SinkFault>
    ensures wrote { OnOk result (F.written folder.new ≡ grown (F.written folder.old) (listing (memo_file name.now table.now ∷ []))) }
    ensures no_failure { OnOk result (F.failures folder.new ≡ F.failures folder.old) }
    ensures bytes { OnOk result (IsOfBytes (memo_file name.now table.now)) }
{
    folder.begin(name)?;
    put_memos(folder, table)
}

/// Writes the files of a table, with the date of its last change, under a stem: its own, and that of its memos where a field is a memo.
pub(crate) fn write_files<F: Folder>(
    alloc: Global,
    folder: &mut F,
    stem: &[u8],
    in_capitals: bool,
    table: &TableData,
    day: Day,
) -> Result<(), FilesFault>
    ensures written { OnOk result
        (IsListedAfter (λ made. made ≡ files_of_table stem.now in_capitals day table.now) (F.written folder.old) (F.written folder.new)) }
    ensures no_failure { OnOk result (F.failures folder.new ≡ F.failures folder.old) }
{
    let dbf = with_extension(alloc, stem, table_extension(in_capitals))?;
    let dbt = with_extension(alloc, stem, memos_extension(in_capitals))?;
    let has_memos = any_memo(table.schema().fields());
    write_table(folder, dbf.as_slice(), table, day)?;
    if has_memos {
        write_memos(folder, dbt.as_slice(), table)?;
        return Ok(());
    }
    Ok(())
}
