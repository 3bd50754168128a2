//! The work of loading the records of a text of CSV after those of a table.

ghost use Rattle.std.specs.Prelude.{◌≡◌, ◌≢◌, Some, Ok, true, false, IfErr, IfOk, IfSome, OnOk, option_copied};
ghost use Rattle.program_frame.specs.InputDays.{IsClosedBeside, IsPlaceRefusal};
ghost use Rattle.folders.specs.Files.{load_refusal, IsFileOf};
ghost use Rattle.table_loader.specs.Loading.{csv_loaded};
ghost use Rattle.table_reader.specs.Memos.{IsNotHad};
ghost use Rattle.table_reader.specs.TableFiles.{IsTableAt};
ghost use Rattle.table_maker.specs.LoadedTable.{csv_told, HasOpenMemos, IsLoadDay, IsLoadedTable, IsLoadJobCount, IsLoadJobFailure, IsLoadJobFault, IsUnloadedText};

use crate::files::{names_of_table, write_files};
use crate::job::Made;
use crate::load_fault::LoadJobFault;
use crate::table_work::TableWork;
use byte_io::Bytes;
use dbf_fields::Day;
use dbf_image::TableData;
use folders::{Folder, LoadFault, Source};
use program_frame::{Beside, Failure, Job, PlaceFault, Work, refuse_open_beside};
use std::alloc::{AllocError, Global};
use std::io::Write;
use table_loader::{CsvFault, CsvForm, load_csv_named};
use table_reader::load_table;

/// The work of making a table of another one and the records of a text of CSV, which come after its own.
#[derive(Clone, Copy, Debug)]
pub struct LoadJob<'a> {
    /// The path of the text of CSV.
    pub csv: &'a str,
    /// The path of the table whose records come first.
    pub table: &'a str,
    /// The path of the file of its memos. Where none is given it is the file beside the table, if a field is a memo.
    pub memos: Option<&'a str>,
    /// The names of the new files without their extensions.
    pub stem: &'a [u8],
    /// Whether the extensions are in capitals.
    pub in_capitals: bool,
    /// The date that the new table tells.
    pub today: Day,
    /// How the text is written, and whether a text that is too wide for its field is cut.
    pub form: CsvForm,
}

impl<'a> Job for LoadJob<'a> {
    ghost use Rattle.table_maker.specs.LoadedTable.{is_load_write_fault, AreLoadedFiles, IsLoadDay, IsLoadJobFailure, IsWhyNotLoaded};

    type Report = Made;

    type Fault = LoadJobFault<'a>;

    ghost writes = { λ job files made _. AreLoadedFiles files job made };

    ghost fails = { λ job files fault. IsWhyNotLoaded files (λ _. Unit {0}) job fault };

    ghost loads = { λ job files before after fault. IsLoadJobFailure files job before after fault };

    ghost is_unwritten = { is_load_write_fault };

    ghost finds_day = { λ job answers files found. IsLoadDay answers job found };

    fn refuse_open_day<S: Source, B: Beside>(
        &self,
        alloc: Global,
        _source: &mut S,
        system: &B,
    ) -> Result<(), Failure<LoadJobFault<'a>>> {
        match self.refuse_open_files(alloc, system) {
            Ok(()) => Ok(()),
            Err(fault) => Err(Failure::from(fault)),
        }
    }

    fn is_unwritten(fault: &LoadJobFault<'a>) -> bool {
        matches!(fault, LoadJobFault::Write)
    }
}

// What is told of a text of CSV that is not loaded.
fn unread_text(path: &str, why: LoadFault) -> LoadJobFault<'_>
    ensures value { result ≡ csv_told path.entry why }
{
    match why {
        LoadFault::NoMemory => LoadJobFault::NoMemory,
        LoadFault::CannotRead => LoadJobFault::Csv(path, why),
        LoadFault::Unrecovered => LoadJobFault::Csv(path, why),
    }
}

/// Refuses to read the file of memos where a day is open in the folder of its path, where one is given.
pub(crate) fn refuse_open_memos<B: Beside>(
    system: &B,
    alloc: Global,
    memos: Option<&str>,
) -> Result<(), PlaceFault>
    ensures closed { OnOk result (IfSome (option_copied memos.entry) (IsClosedBeside (B.answers system.now))) }
    ensures refused { IfErr result (IsPlaceRefusal (B.answers system.now) (HasOpenMemos (B.answers system.now) (option_copied memos.entry))) }
{
    match memos {
        Some(memos) => refuse_open_beside(system, alloc, memos.as_bytes()),
        None => Ok(()),
    }
}

impl<'a> LoadJob<'a> {
    // Refuses to read the files where a day is open in the folder of one of them.
    #[tactic(auto, using(program_frame::proofs::InputDays::refused_on, program_frame::proofs::InputDays::refused_all, crate::proofs::LoadLaws::no_load_day))]
    fn refuse_open_files<B: Beside>(&self, alloc: Global, system: &B) -> Result<(), PlaceFault>
        ensures closed { OnOk result (IsLoadDay (B.answers system.now) self.now false) }
        ensures refused { IfErr result (IsPlaceRefusal (B.answers system.now) (IsLoadDay (B.answers system.now) self.now true)) }
    {
        refuse_open_beside(system, alloc, self.csv.as_bytes())?;
        refuse_open_beside(system, alloc, self.table.as_bytes())?;
        refuse_open_memos(system, alloc, self.memos)
    }

    // The text of CSV.
    fn text<S: Source>(&self, alloc: Global, source: &mut S) -> Result<Bytes, LoadJobFault<'a>>
        ensures found { IfOk result (IsFileOf (S.files source.old) self.now.csv.now) }
        ensures readable { OnOk result ((why : LoadFault) → load_refusal (S.files source.old) self.now.csv.now ≢ Some why) }
        ensures no_failure { OnOk result (S.failures source.new ≡ S.failures source.old) }
        ensures fault { IfErr result (IsLoadJobFailure (S.files source.old) self.now (S.failures source.old) (S.failures source.new)) }
        ensures kept { S.files source.new ≡ S.files source.old }
    {
        match source.load(alloc, self.csv.as_bytes()) {
            Ok(text) => Ok(text),
            Err(why) => Err(unread_text(self.csv, why)),
        }
    }

    // The table that the records come after.
    #[tactic(auto, using(crate::proofs::LoadLaws::memory_count))]
    fn old_table<S: Source>(
        &self,
        alloc: Global,
        source: &mut S,
    ) -> Result<TableData, LoadJobFault<'a>>
        ensures table { IfOk result (IsTableAt (S.files source.old) self.now.table.now (option_copied self.now.memos)) }
        ensures no_failure { OnOk result (S.failures source.new ≡ S.failures source.old) }
        ensures fault { let unread = IsNotHad (S.files source.old) (S.failures source.old) (S.failures source.new) in
            IfErr result (IsLoadJobFault (S.files source.old) unread self.now) }
        ensures count { IfErr result (IsLoadJobCount (S.files source.old) (S.failures source.old) (S.failures source.new) self.now) }
        ensures kept { S.files source.new ≡ S.files source.old }
    {
        match load_table(alloc, source, self.table, self.memos) {
            Ok(table) => Ok(table),
            Err(why) => {
                if why.is_no_memory() {
                    return Err(LoadJobFault::NoMemory);
                }
                Err(LoadJobFault::Old(why.path_of(self.table, self.memos), why))
            }
        }
    }

    // The table with the records of a text of CSV after its own.
    fn with_records(
        &self,
        alloc: Global,
        old: TableData,
        text: &[u8],
    ) -> Result<TableData, LoadJobFault<'a>>
        ensures loaded { IfOk result (λ new. csv_loaded self.now.form old text.now ≡ Ok new) }
        ensures fault { IfErr result (IsUnloadedText self.now old text.now) }
    {
        match load_csv_named(alloc, old, text, self.form) {
            Ok(new) => Ok(new),
            Err(fault) => match fault.why {
                CsvFault::NoMemory => Err(LoadJobFault::NoMemory),
                _ => Err(LoadJobFault::Text(self.csv, fault)),
            },
        }
    }

    // Reads the text of CSV and the old table, and puts the text's records after its own.
    fn new_table<S: Source>(
        &self,
        alloc: Global,
        source: &mut S,
    ) -> Result<TableData, LoadJobFault<'a>>
        ensures table { IfOk result (IsLoadedTable (S.files source.old) self.now) }
        ensures readable { OnOk result ((why : LoadFault) → load_refusal (S.files source.old) self.now.csv.now ≢ Some why) }
        ensures no_failure { OnOk result (S.failures source.new ≡ S.failures source.old) }
        ensures fault { IfErr result (IsLoadJobFailure (S.files source.old) self.now (S.failures source.old) (S.failures source.new)) }
        ensures kept { S.files source.new ≡ S.files source.old }
    {
        let text = self.text(alloc, source)?;
        let old = self.old_table(alloc, source)?;
        self.with_records(alloc, old, text.as_slice())
    }
}

impl<'a> Work for LoadJob<'a> {
    fn work<S: Source, F: Folder, E: Write>(
        &self,
        alloc: Global,
        source: &mut S,
        folder: &mut F,
        _err: &mut E,
    ) -> Result<Made, LoadJobFault<'a>> {
        let table = self.new_table(alloc, source)?;
        write_files(
            alloc,
            folder,
            self.stem,
            self.in_capitals,
            &table,
            self.today,
        )?;
        Ok(Made)
    }
}

impl<'a> TableWork for LoadJob<'a> {
    ghost use Rattle.table_maker.specs.LoadedTable.{load_look};
    ghost use Rattle.table_maker.specs.Making.{names_of_table as names_by};

    ghost names = { λ job. names_by job.stem.now job.in_capitals };

    ghost look = { load_look };

    fn names(&self, alloc: Global) -> Result<Vec<Bytes>, AllocError> {
        names_of_table(alloc, self.stem, self.in_capitals)
    }

    fn exists() -> LoadJobFault<'a> {
        LoadJobFault::Exists
    }

    fn unread() -> LoadJobFault<'a> {
        LoadJobFault::Unread
    }

    fn exists_is_of_names_alone(&self) {}

    fn unread_is_of_the_folder_alone(&self) {}
}
