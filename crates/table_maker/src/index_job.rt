//! The work of making an index of a table.

ghost use Rattle.std.specs.Prelude.{◌≡◌, ◌≢◌, true, false, Some, IfErr, IfOk, OnOk, option_copied};
ghost use Rattle.program_frame.specs.InputDays.{IsPlaceRefusal};
ghost use Rattle.folders.specs.Files.{load_refusal};
ghost use Rattle.key_expr.specs.Rules.{IsKeyText};
ghost use Rattle.table_reader.specs.TableFiles.{IsTableAt};
ghost use Rattle.table_reader.specs.Memos.{IsNotHad};
ghost use Rattle.table_maker.specs.MadeIndex.{IsBadKey, IsIndexDay, IsIndexJobCount, IsIndexJobFault, IsOfTableFile};

use crate::index_fault::IndexJobFault;
use crate::index_file::write_index;
use crate::job::Made;
use crate::load_job::refuse_open_memos;
use crate::table_work::TableWork;
use byte_io::Bytes;
use dbf_fields::Schema;
use dbf_image::TableData;
use folders::{Folder, LoadFault, Source};
use key_expr::{ExprFault, KeyExpr};
use program_frame::{Beside, Failure, Job, PlaceFault, Work, refuse_open_beside};
use std::alloc::{AllocError, Global};
use std::io::Write;
use table_reader::load_table;

/// The work of making the index of a table by a key expression.
#[derive(Clone, Copy, Debug)]
pub struct IndexJob<'a> {
    /// The path of the table.
    pub table: &'a str,
    /// The path of the file of its memos. Where none is given it is the file beside the table, if a field is a memo.
    pub memos: Option<&'a str>,
    /// The text of the key expression.
    pub expression: &'a str,
    /// The name of the index's file.
    pub name: &'a [u8],
}

impl<'a> Job for IndexJob<'a> {
    ghost use Rattle.table_maker.specs.MadeIndex.{is_index_write_fault, IsIndexDay, IsIndexJobFailure, IsMadeIndex, IsWhyNoIndex};

    type Report = Made;

    type Fault = IndexJobFault<'a>;

    ghost writes = { λ job files made _. IsMadeIndex files job made };

    ghost fails = { λ job files fault. IsWhyNoIndex files (λ _. Unit {0}) job fault };

    ghost loads = { λ job files before after fault. IsIndexJobFailure files job before after fault };

    ghost is_unwritten = { is_index_write_fault };

    ghost finds_day = { λ job answers files found. IsIndexDay answers job found };

    fn refuse_open_day<S: Source, B: Beside>(
        &self,
        alloc: Global,
        _source: &mut S,
        system: &B,
    ) -> Result<(), Failure<IndexJobFault<'a>>> {
        match self.refuse_open_files(alloc, system) {
            Ok(()) => Ok(()),
            Err(fault) => Err(Failure::from(fault)),
        }
    }

    fn is_unwritten(fault: &IndexJobFault<'a>) -> bool {
        matches!(fault, IndexJobFault::Write)
    }
}

impl<'a> IndexJob<'a> {
    // Refuses to read the files where a day is open in the folder of one of them.
    #[tactic(auto, using(program_frame::proofs::InputDays::refused_on, program_frame::proofs::InputDays::refused_all, crate::proofs::IndexLaws::no_index_day))]
    fn refuse_open_files<B: Beside>(&self, alloc: Global, system: &B) -> Result<(), PlaceFault>
        ensures closed { OnOk result (IsIndexDay (B.answers system.now) self.now false) }
        ensures refused { IfErr result (IsPlaceRefusal (B.answers system.now) (IsIndexDay (B.answers system.now) self.now true)) }
    {
        refuse_open_beside(system, alloc, self.table.as_bytes())?;
        refuse_open_memos(system, alloc, self.memos)
    }

    // The table.
    #[tactic(auto, using(crate::proofs::LoadLaws::memory_count, crate::proofs::IndexLaws::first_is_no_memory))]
    fn load_records<S: Source>(
        &self,
        alloc: Global,
        source: &mut S,
    ) -> Result<TableData, IndexJobFault<'a>>
        ensures table { IfOk result (IsTableAt (S.files source.old) self.now.table.now (option_copied self.now.memos)) }
        ensures readable { OnOk result ((why : LoadFault) → load_refusal (S.files source.old) self.now.table.now ≢ Some why) }
        ensures no_failure { OnOk result (S.failures source.new ≡ S.failures source.old) }
        // Where no load can give the table's file that is the fault, whether there is memory or not.
        ensures early { IfErr result (λ fault. (why : LoadFault) → load_refusal (S.files source.old) self.now.table.now ≡ Some why → IsOfTableFile why fault) }
        ensures fault { let unread = IsNotHad (S.files source.old) (S.failures source.old) (S.failures source.new) in
            IfErr result (IsIndexJobFault (S.files source.old) unread self.now) }
        ensures count { IfErr result (IsIndexJobCount (S.files source.old) (S.failures source.old) (S.failures source.new) self.now) }
        ensures kept { S.files source.new ≡ S.files source.old }
    {
        match load_table(alloc, source, self.table, self.memos) {
            Ok(table) => Ok(table),
            Err(why) => {
                if why.is_no_memory() {
                    return Err(IndexJobFault::NoMemory);
                }
                Err(IndexJobFault::Table(why.path_of(self.table, self.memos), why))
            }
        }
    }

    // The key expression for the fields of the table.
    fn key(&self, alloc: Global, schema: &Schema) -> Result<KeyExpr, IndexJobFault<'a>>
        ensures text { IfOk result (λ key. key.text ≡ self.now.expression.now) }
        ensures fields { IfOk result (λ key. key.fields ≡ schema.now) }
        ensures says { IfOk result (λ key. IsKeyText schema.now self.now.expression.now key.expr) }
        ensures bad { IfErr result (IsBadKey self.now schema.now) }
    {
        match KeyExpr::parse(alloc, self.expression.as_bytes(), schema) {
            Ok(key) => Ok(key),
            Err(ExprFault::NoMemory) => Err(IndexJobFault::NoMemory),
            Err(why) => Err(IndexJobFault::Key(self.table, why)),
        }
    }
}

impl<'a> Work for IndexJob<'a> {
    fn work<S: Source, F: Folder, E: Write>(
        &self,
        alloc: Global,
        source: &mut S,
        folder: &mut F,
        _err: &mut E,
    ) -> Result<Made, IndexJobFault<'a>> {
        let table = self.load_records(alloc, source)?;
        let key = self.key(alloc, table.schema())?;
        write_index(alloc, folder, self.name, table, &key)?;
        Ok(Made)
    }
}

impl<'a> TableWork for IndexJob<'a> {
    ghost use Rattle.std.specs.Prelude.{[], ◌∷◌};
    ghost use Rattle.table_maker.specs.MadeIndex.{index_look};

    ghost names = { λ job. job.name.now ∷ [] };

    ghost look = { index_look };

    fn names(&self, alloc: Global) -> Result<Vec<Bytes>, AllocError> {
        let mut names = Vec::new(alloc);
        names.push(Bytes::from_slice(alloc, self.name)?)?;
        Ok(names)
    }

    fn exists() -> IndexJobFault<'a> {
        IndexJobFault::Exists
    }

    fn unread() -> IndexJobFault<'a> {
        IndexJobFault::Unread
    }

    fn exists_is_of_names_alone(&self) {}

    fn unread_is_of_the_folder_alone(&self) {}
}
