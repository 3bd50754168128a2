//! The files of an entry, read.

ghost use Rattle.std.specs.Prelude.{◌≡◌, ◌∷◌, [], ℕ, List, IfOk, IfErr, OnOk, OnErr};
ghost use Rattle.dbf_image.specs.BadTable.{IsTableRefusal};
ghost use Rattle.dbf_image.specs.DbfText.{IsDbf};
ghost use Rattle.station_lines.specs.declared.setup.entry.SetupEntry.TheVariants.{Table, Index, Station};
ghost use Rattle.setup_files.specs.EntryFiles.{IsEntryRead, IsMemosLook};
ghost use Rattle.setup_files.specs.Loads.{IsEntryLoad, IsMemosLoad};
ghost use Rattle.setup_files.specs.Noted.{memo_paths, paths_of, AreNoted};

use crate::content::EntryContent;
use crate::fault::{EntryFault, LoadRefusal};
use crate::head_numbers::index_numbers;
use crate::load::load_file;
use byte_io::Bytes;
use dbf_image::{BadTable, GrowingTable, ImageFault, read_table_at, table_numbers};
use folders::Source;
use journal_file::ReadSums;
use ndx_index::{BadIndex, NdxFault, read_ndx_at};
use station_lines::SetupEntry;
use std::alloc::{AllocError, Global};

// The bytes of a memo file, where one is named.
fn load_memos<S: Source>(
    alloc: Global,
    source: &mut S,
    path: &Option<Bytes>,
    sums: &mut ReadSums,
) -> Result<Result<Option<Bytes>, LoadRefusal>, AllocError>
    ensures look { IfOk result (IsMemosLook (S.files source.old) path.now) }
    ensures noted { IfOk result (λ look. OnOk look (AreNoted (S.files source.old) (memo_paths path.now) sums.old sums.new)) }
    ensures loads { IfOk result (IsMemosLoad (S.files source.old) path.now (S.failures source.old) (S.failures source.new)) }
    ensures memory { OnErr result (S.failures source.new ≡ S.failures source.old) }
    ensures kept { S.files source.new ≡ S.files source.old }
{
    let Some(path) = path else {
        return Ok(Ok(None));
    };
    match load_file(alloc, source, path, sums)? {
        Ok(bytes) => Ok(Ok(Some(bytes))),
        Err(why) => Ok(Err(why)),
    }
}

// The table of the bytes of its files.
fn table_of(alloc: Global, dbf: Bytes, memos: Option<Bytes>) -> Result<GrowingTable, BadTable>
    ensures read { IfOk result (λ records. IsDbf dbf memos records.table) }
    ensures refused { IfErr result (λ bad. IsTableRefusal bad dbf memos) }
{
    Ok(read_table_at(alloc, dbf, memos)?.into_growing())
}

// The table of the files of these paths, the DBF first, or why there is none.
fn read_table<S: Source>(
    alloc: Global,
    source: &mut S,
    dbf: &Bytes,
    dbt: &Option<Bytes>,
    sums: &mut ReadSums,
) -> Result<Result<EntryContent, EntryFault>, AllocError>
    ensures read { (name : List ℕ) → IfOk result (IsEntryRead (S.files source.old) (Table name dbf.now dbt.now)) }
    ensures noted { IfOk result (λ look. OnOk look (AreNoted (S.files source.old) (dbf.now ∷ memo_paths dbt.now) sums.old sums.new)) }
    ensures loads { (name : List ℕ)
        → IfOk result (IsEntryLoad (S.files source.old) (S.failures source.old) (S.failures source.new) (Table name dbf.now dbt.now)) }
    ensures memory { OnErr result (S.failures source.new ≡ S.failures source.old) }
    ensures kept { S.files source.new ≡ S.files source.old }
{
    let bytes = match load_file(alloc, source, dbf, sums)? {
        Ok(bytes) => bytes,
        Err(why) => return Ok(Err(EntryFault::Unloaded(why))),
    };
    let memos = match load_memos(alloc, source, dbt, sums)? {
        Ok(memos) => memos,
        Err(why) => return Ok(Err(EntryFault::UnloadedMemos(why))),
    };
    let numbers = table_numbers(bytes.as_slice());
    match table_of(alloc, bytes, memos) {
        Ok(records) => Ok(Ok(EntryContent::Table(records))),
        Err(
            BadTable {
                why: ImageFault::NoMemory,
                ..
            },
        ) => Err(AllocError),
        Err(bad) => Ok(Err(EntryFault::NoTable(bad, numbers))),
    }
}

// The index of the file of a path, or why there is none.
fn read_index<S: Source>(
    alloc: Global,
    source: &mut S,
    ndx: &Bytes,
    sums: &mut ReadSums,
) -> Result<Result<EntryContent, EntryFault>, AllocError>
    ensures read { (table name : List ℕ) → IfOk result (IsEntryRead (S.files source.old) (Index table name ndx.now)) }
    ensures noted { IfOk result (λ look. OnOk look (AreNoted (S.files source.old) (ndx.now ∷ []) sums.old sums.new)) }
    ensures loads { (table name : List ℕ)
        → IfOk result (IsEntryLoad (S.files source.old) (S.failures source.old) (S.failures source.new) (Index table name ndx.now)) }
    ensures memory { OnErr result (S.failures source.new ≡ S.failures source.old) }
    ensures kept { S.files source.new ≡ S.files source.old }
{
    let bytes = match load_file(alloc, source, ndx, sums)? {
        Ok(bytes) => bytes,
        Err(why) => return Ok(Err(EntryFault::Unloaded(why))),
    };
    match read_ndx_at(alloc, bytes.as_slice()) {
        Ok(file) => Ok(Ok(EntryContent::Index(file))),
        Err(
            BadIndex {
                why: NdxFault::NoMemory,
                ..
            },
        ) => Err(AllocError),
        Err(bad) => Ok(Err(EntryFault::NoIndex(bad, index_numbers(bytes.as_slice())))),
    }
}

// The script of the file of a path, or why there is none.
fn read_script<S: Source>(
    alloc: Global,
    source: &mut S,
    script: &Bytes,
    sums: &mut ReadSums,
) -> Result<Result<EntryContent, EntryFault>, AllocError>
    ensures read { IfOk result (IsEntryRead (S.files source.old) (Station script.now)) }
    ensures noted { IfOk result (λ look. OnOk look (AreNoted (S.files source.old) (script.now ∷ []) sums.old sums.new)) }
    ensures loads { IfOk result (IsEntryLoad (S.files source.old) (S.failures source.old) (S.failures source.new) (Station script.now)) }
    ensures memory { OnErr result (S.failures source.new ≡ S.failures source.old) }
    ensures kept { S.files source.new ≡ S.files source.old }
{
    match load_file(alloc, source, script, sums)? {
        Ok(bytes) => Ok(Ok(EntryContent::Script(bytes))),
        Err(why) => Ok(Err(EntryFault::Unloaded(why))),
    }
}

/// Loads the files that an entry names and reads them: what they are, or why they are refused. Each file that is loaded is
/// noted where a journal is wanted.
///
/// An `Err` says that there was no memory.
pub fn read_entry<S: Source>(
    alloc: Global,
    source: &mut S,
    entry: &SetupEntry,
    sums: &mut ReadSums,
) -> Result<Result<EntryContent, EntryFault>, AllocError>
    ensures read { IfOk result (IsEntryRead (S.files source.old) entry.now) }
    ensures noted { IfOk result (λ look. OnOk look (AreNoted (S.files source.old) (paths_of entry.now) sums.old sums.new)) }
    // That a file can't be read is said only where its load has failed, or where it is over the limit.
    ensures loads { IfOk result (IsEntryLoad (S.files source.old) (S.failures source.old) (S.failures source.new) entry.now) }
    ensures memory { OnErr result (S.failures source.new ≡ S.failures source.old) }
    ensures kept { S.files source.new ≡ S.files source.old }
{
    match entry {
        SetupEntry::Table { dbf, dbt, .. } => read_table(alloc, source, dbf, dbt, sums),
        SetupEntry::Index { ndx, .. } => read_index(alloc, source, ndx, sums),
        SetupEntry::Station { script } => read_script(alloc, source, script, sums),
    }
}
