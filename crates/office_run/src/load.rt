//! Reading what the entries of a setup name.

ghost use Rattle.std.specs.Prelude.{◌≡◌, ◌≢◌, ◌⊎◌, ◌<◌, [], ◌∷◌, ◌++◌, ℕ, List, Option, Some, length, MatchResult, IfOk, IfErr, IfSome, IsOk, IsSome, OnOk};
ghost use Rattle.station_lines.specs.Setup.{IndexesFollowTables};
ghost use Rattle.folders.specs.declared.named.NamedFile.{NamedFile};
ghost use Rattle.folders.specs.Files.{IsFileOf};
ghost use Rattle.journal_file.specs.WholeText.{sum_of_file, with_sum};
ghost use Rattle.setup_files.specs.EntryFiles.{refused_path as path_refused, IsContentOf, IsEntryRead};
ghost use Rattle.setup_files.specs.Loads.{IsEntryLoad};
ghost use Rattle.setup_files.specs.Noted.{paths_of, AreNoted};
ghost use Rattle.office_run.specs.FileSums.{paths_in};
ghost use Rattle.office_run.specs.Loading.{load_fault as fault_of_load, file_fault as fault_of_files, refusal_told, nothing, read_of, first_named};
ghost use Rattle.office_run.specs.Loading.{AreNamesOf, HasIndex, CanLoad, Loads, LoadAll, IsFileFault, IsEntryFault, IsFailure, IsFaultIn};

use crate::fault::{FileFault, ServeFault};
use crate::loaded::Loaded;
use byte_io::Bytes;
use catalogue_core::{IndexSource, Names, TableSource};
use dbf_image::{GrowingTable, TableData};
use folders::Source;
use journal_file::ReadSums;
use setup_files::{EntryContent, EntryFault, LoadRefusal, read_entry, refused_path};
use station_lines::SetupEntry;
use std::alloc::{AllocError, Global};

// The fault of a file that was not read.
fn unread(alloc: Global, path: &Bytes, fault: FileFault) -> ServeFault
    ensures value { (result ≡ ServeFault.NoMemory) ⊎ (result ≡ ServeFault.File path.now fault) }
{
    match path.copy(alloc) {
        Ok(path) => ServeFault::File(path, fault),
        Err(_) => ServeFault::NoMemory,
    }
}

// What is said of a file of which no bytes are had.
fn load_fault(why: LoadRefusal) -> FileFault
    ensures value { result ≡ fault_of_load why }
{
    match why {
        LoadRefusal::CannotRead => FileFault::CannotRead,
        LoadRefusal::Unrecovered => FileFault::Unrecovered,
    }
}

// What is said of the files of an entry that are refused.
fn file_fault(fault: EntryFault) -> FileFault
    ensures value { result ≡ fault_of_files fault }
{
    match fault {
        EntryFault::Unloaded(why) => load_fault(why),
        EntryFault::UnloadedMemos(why) => load_fault(why),
        EntryFault::NoTable(bad, _) => FileFault::Image(bad.why),
        EntryFault::NoIndex(bad, _) => FileFault::Ndx(bad.why),
    }
}

// The fault of an entry whose files are refused.
fn entry_fault(alloc: Global, entry: &SetupEntry, fault: EntryFault) -> ServeFault
    ensures value { (result ≡ ServeFault.NoMemory) ⊎ (result ≡ ServeFault.File (path_refused entry.now fault) (fault_of_files fault)) }
{
    unread(alloc, refused_path(entry, fault), file_fault(fault))
}

/// The bytes of the file of a path, which are noted where a journal is wanted.
pub(crate) fn load_file<S: Source>(
    alloc: Global,
    source: &mut S,
    path: &Bytes,
    sums: &mut ReadSums,
) -> Result<Bytes, ServeFault>
    ensures noted { IfOk result (λ bytes. sums.new ≡ with_sum sums.old (sum_of_file path.now bytes)) }
    ensures found { IfOk result (λ bytes. IsFileOf (S.files source.old) path.now bytes) }
    ensures kept { S.files source.new ≡ S.files source.old }
    ensures fault { IfErr result (IsFileFault (S.files source.old) path.now) }
    ensures loads { OnOk result (S.failures source.new ≡ S.failures source.old) }
    ensures failure { IfErr result (IsFailure (S.files source.old) (S.failures source.old) (S.failures source.new)) }
{
    match setup_files::load_file(alloc, source, path, sums)? {
        Ok(bytes) => Ok(bytes),
        Err(why) => Err(unread(alloc, path, load_fault(why))),
    }
}

// Where the first table of a name stands.
fn first_place(tables: &[TableSource], name: &Bytes) -> Option<usize>
    ensures value { result ≡ first_named name.now tables.now }
    ensures inside { IfSome result (λ position. position < length tables.now) }
{
    tables.iter().position(|table| *name == table.name)
}

// The same, where these are the tables' names: in the same time however many tables there are, unless a name came twice,
// which is refused at opening.
fn position_of(names: &Names, tables: &[TableSource], name: &Bytes) -> Option<usize>
    requires names { AreNamesOf names.now tables.now }
    ensures value { result ≡ first_named name.now tables.now }
    ensures inside { IfSome result (λ position. position < length tables.now) }
{
    if names.count() == tables.len() {
        names.index_of(name)
    } else {
        first_place(tables, name)
    }
}

// A table of this name, without indexes.
fn named_table(
    alloc: Global,
    name: &Bytes,
    records: GrowingTable,
) -> Result<TableSource, AllocError>
    ensures named { IfOk result (λ table. table.name ≡ name.now) }
    ensures content { IfOk result (λ table. table.content ≡ records.table) }
    ensures plain { IfOk result (λ table. table.indexes.items ≡ []) }
{
    Ok(TableSource {
        name: name.copy(alloc)?,
        content: TableData::from_growing(records),
        indexes: Vec::new(alloc),
    })
}

// Adds a table, and its name.
fn add_table(
    alloc: Global,
    tables: &mut Vec<TableSource>,
    names: &mut Names,
    table: TableSource,
) -> Result<(), AllocError>
    requires names { AreNamesOf names.old tables.old.items }
    ensures names { OnOk result (AreNamesOf names.new tables.new.items) }
    ensures added { OnOk result (tables.new.items ≡ tables.old.items ++ table ∷ []) }
{
    names.add(alloc, &table.name)?;
    tables.push(table)?;
    Ok(())
}

// Adds an index to the first table of a name, which has been loaded.
fn add_index(
    tables: &mut Vec<TableSource>,
    names: &Names,
    table: &Bytes,
    index: IndexSource,
) -> Result<(), AllocError>
    requires names { AreNamesOf names.now tables.old.items }
    requires loaded { IsSome (first_named table.now tables.old.items) }
    ensures names { OnOk result (AreNamesOf names.now tables.new.items) }
    ensures added { OnOk result (HasIndex table.now index tables.old.items tables.new.items) }
{
    let Some(position) = position_of(names, tables, table) else {
        unreachable!();
    };
    tables[position].indexes.push(index)?;
    Ok(())
}

// Adds what the files of an entry are. The table of an index has been loaded.
fn add_content(
    alloc: Global,
    loaded: &mut Loaded,
    names: &mut Names,
    entry: &SetupEntry,
    content: EntryContent,
) -> Result<(), AllocError>
    requires names { AreNamesOf names.old loaded.old.tables.items }
    requires ready { CanLoad loaded.old.tables.items entry.now }
    requires of_entry { (files : Option (List NamedFile)) × IsContentOf files entry.now content }
    ensures names { OnOk result (AreNamesOf names.new loaded.new.tables.items) }
    ensures read { (files : Option (List NamedFile)) → IsContentOf files entry.now content
        → OnOk result (Loads files entry.now (read_of loaded.old) (read_of loaded.new)) }
{
    match (entry, content) {
        (SetupEntry::Table { name, .. }, EntryContent::Table(records)) => {
            let table = named_table(alloc, name, records)?;
            add_table(alloc, &mut loaded.tables, names, table)
        }
        (SetupEntry::Index { table, name, .. }, EntryContent::Index(file)) => {
            let name = name.copy(alloc)?;
            add_index(&mut loaded.tables, names, table, IndexSource { name, file })
        }
        (SetupEntry::Station { .. }, EntryContent::Script(bytes)) => {
            loaded.scripts.push(bytes)?;
            Ok(())
        }
        _ => unreachable!(),
    }
}

/// Adds what the files of an entry are, where they are not refused, and the name of its table to those of the tables. The table of an
/// index has been loaded.
pub(crate) fn add_read(
    alloc: Global,
    loaded: &mut Loaded,
    names: &mut Names,
    entry: &SetupEntry,
    read: Result<EntryContent, EntryFault>,
) -> Result<(), ServeFault>
    requires names { AreNamesOf names.old loaded.old.tables.items }
    requires ready { CanLoad loaded.old.tables.items entry.now }
    requires of_entry { (files : Option (List NamedFile)) × IsEntryRead files entry.now read }
    ensures names { OnOk result (AreNamesOf names.new loaded.new.tables.items) }
    ensures read { (files : Option (List NamedFile)) → IsEntryRead files entry.now read
        → OnOk result (Loads files entry.now (read_of loaded.old) (read_of loaded.new)) }
    ensures fault { (files : Option (List NamedFile)) → IsEntryRead files entry.now read → IfErr result (IsEntryFault files entry.now) }
    ensures whole { OnOk result (IsOk read) }
    ensures first { IfErr result (λ fault. fault ≢ ServeFault.NoMemory → refusal_told entry.now read ≡ Some fault) }
    ensures loads { (files : Option (List NamedFile)) (before after : Option ℕ) → IsEntryLoad files before after entry.now read
        → MatchResult result (λ _. after ≡ before) (IsFailure files before after) }
{
    match read {
        Ok(content) => Ok(add_content(alloc, loaded, names, entry, content)?),
        Err(fault) => Err(entry_fault(alloc, entry, fault)),
    }
}

// Loads and reads what an entry names. The table of an index has been loaded.
fn load_entry<S: Source>(
    alloc: Global,
    source: &mut S,
    entry: &SetupEntry,
    loaded: &mut Loaded,
    names: &mut Names,
    sums: &mut ReadSums,
) -> Result<(), ServeFault>
    requires names { AreNamesOf names.old loaded.old.tables.items }
    requires ready { CanLoad loaded.old.tables.items entry.now }
    ensures names { OnOk result (AreNamesOf names.new loaded.new.tables.items) }
    ensures noted { OnOk result (AreNoted (S.files source.old) (paths_of entry.now) sums.old sums.new) }
    ensures read { OnOk result (Loads (S.files source.old) entry.now (read_of loaded.old) (read_of loaded.new)) }
    ensures kept { S.files source.new ≡ S.files source.old }
    ensures fault { IfErr result (IsEntryFault (S.files source.old) entry.now) }
    ensures loads { OnOk result (S.failures source.new ≡ S.failures source.old) }
    ensures failure { IfErr result (IsFailure (S.files source.old) (S.failures source.old) (S.failures source.new)) }
{
    let read = read_entry(alloc, source, entry, sums)?;
    add_read(alloc, loaded, names, entry, read)
}

/// Loads and reads what the entries of a setup name, entry by entry; each index stands after its table. The fault is
/// that of the first entry whose files are not read. Each file that is read is noted where a journal is wanted.
pub fn load_entries<S: Source>(
    alloc: Global,
    source: &mut S,
    entries: &[SetupEntry],
    sums: &mut ReadSums,
) -> Result<Loaded, ServeFault>
    requires tables_first { IndexesFollowTables entries.now }
    ensures noted { OnOk result (AreNoted (S.files source.old) (paths_in entries.now) sums.old sums.new) }
    ensures read { IfOk result (λ loaded. LoadAll (S.files source.old) entries.now nothing (read_of loaded)) }
    ensures kept { S.files source.new ≡ S.files source.old }
    ensures fault { IfErr result (IsFaultIn (S.files source.old) entries.now) }
    ensures loads { OnOk result (S.failures source.new ≡ S.failures source.old) }
    ensures failure { IfErr result (IsFailure (S.files source.old) (S.failures source.old) (S.failures source.new)) }
{
    let mut loaded = Loaded {
        tables: Vec::new(alloc),
        scripts: Vec::new(alloc),
    };
    let mut names = Names::new(alloc);
    for entry in entries {
        load_entry(alloc, source, entry, &mut loaded, &mut names, sums)?;
    }
    Ok(loaded)
}
