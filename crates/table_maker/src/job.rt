//! The work of making a table.

ghost use Rattle.std.specs.Prelude.{◌≡◌, ◌≢◌, Some, IfErr, IfOk, OnOk};
ghost use Rattle.folders.specs.Files.{load_refusal};
ghost use Rattle.table_maker.specs.Making.{AreFieldsIn, IsMakeFailure, IsNoList, IsUnloaded, IsWhyNotMade};

use crate::fault::MakeFault;
use crate::files::{names_of_table, write_files};
use crate::table_work::TableWork;
use byte_io::Bytes;
use dbf_fields::{Day, Schema};
use dbf_image::TableData;
use field_list::{FieldListFault, read_field_list};
use folders::{Folder, LoadFault, Source};
use program_frame::{Beside, Failure, Job, Report, Work, refuse_open_beside};
use std::alloc::{AllocError, Global};
use std::io;
use std::io::Write;

/// That what was asked for was made.
#[derive(Clone, Copy, Debug, PartialEq, Eq)]
pub struct Made;

impl Report for Made {
    ghost use Rattle.std.specs.Prelude.{◌≡◌, []};
    ghost use Rattle.std.specs.Io.KnownBytes.{Keeps};

    ghost has_status = { λ _ status. status ≡ 0 };

    ghost prints = { λ _ old new. Keeps old new };

    ghost aside = { λ _. [] };

    fn exit_status(&self) -> u8 {
        0
    }

    fn print<W: Write>(&self, _out: &mut W) -> io::Result<()> {
        Ok(())
    }

    fn print_aside<W: Write>(&self, _err: &mut W) -> io::Result<()> {
        Ok(())
    }
}

/// The work of making an empty table: its fields are those of a list, and its files are named after a stem.
#[derive(Clone, Copy, Debug)]
pub struct MakeJob<'a> {
    /// The path of the list of fields.
    pub list: &'a str,
    /// The names of the files without their extensions.
    pub stem: &'a [u8],
    /// Whether the extensions are in capitals.
    pub in_capitals: bool,
    /// The date that the table tells.
    pub today: Day,
}

impl<'a> Job for MakeJob<'a> {
    ghost use Rattle.program_frame.specs.InputDays.{IsDayBeside};
    ghost use Rattle.table_maker.specs.Making.{is_write_fault, AreMadeFiles, IsMakeFailure, IsWhyNotMade};

    type Report = Made;

    type Fault = MakeFault<'a>;

    ghost writes = { λ job files made _. AreMadeFiles files job.list.now job.stem.now job.in_capitals job.today made };

    ghost fails = { λ job files fault. IsWhyNotMade files job.list.now fault };

    ghost loads = { λ job files before after fault. IsMakeFailure files job.list.now before after fault };

    ghost is_unwritten = { is_write_fault };

    ghost finds_day = { λ job answers files found. IsDayBeside answers job.list.now found };

    fn refuse_open_day<S: Source, B: Beside>(
        &self,
        alloc: Global,
        _source: &mut S,
        system: &B,
    ) -> Result<(), Failure<MakeFault<'a>>> {
        match refuse_open_beside(system, alloc, self.list.as_bytes()) {
            Ok(()) => Ok(()),
            Err(fault) => Err(Failure::from(fault)),
        }
    }

    fn is_unwritten(fault: &MakeFault<'a>) -> bool {
        matches!(fault, MakeFault::Write)
    }
}

// What is told of a list of fields that is not loaded.
fn unloaded(path: &str, why: LoadFault) -> MakeFault<'_>
    ensures value { IsUnloaded path.now why result }
{
    match why {
        LoadFault::NoMemory => MakeFault::NoMemory,
        LoadFault::CannotRead => MakeFault::Load(path, why),
        LoadFault::Unrecovered => MakeFault::Load(path, why),
    }
}

// What is told of a text that is no list of fields.
fn no_list(path: &str, why: FieldListFault) -> MakeFault<'_>
    ensures value { IsNoList path.now why result }
{
    match why {
        FieldListFault::NoMemory => MakeFault::NoMemory,
        FieldListFault::NoFields => MakeFault::List(path, why),
        FieldListFault::BadLine { .. } => MakeFault::List(path, why),
        FieldListFault::BadField { .. } => MakeFault::List(path, why),
    }
}

// The fields that the list of a path says.
fn load_fields<'a, S: Source>(
    alloc: Global,
    source: &mut S,
    path: &'a str,
) -> Result<Schema, MakeFault<'a>>
    ensures listed { IfOk result (AreFieldsIn (S.files source.old) path.now) }
    ensures readable { OnOk result ((why : LoadFault) → load_refusal (S.files source.old) path.now ≢ Some why) }
    ensures fault { IfErr result (IsWhyNotMade (S.files source.old) path.now) }
    ensures kept { S.files source.new ≡ S.files source.old }
    ensures loads { OnOk result (S.failures source.new ≡ S.failures source.old) }
    ensures failure { IfErr result (IsMakeFailure (S.files source.old) path.now (S.failures source.old) (S.failures source.new)) }
{
    let text = match source.load(alloc, path.as_bytes()) {
        Ok(text) => text,
        Err(why) => return Err(unloaded(path, why)),
    };
    match read_field_list(alloc, text.as_slice()) {
        Ok(schema) => Ok(schema),
        Err(why) => Err(no_list(path, why)),
    }
}

impl<'a> Work for MakeJob<'a> {
    fn work<S: Source, F: Folder, E: Write>(
        &self,
        alloc: Global,
        source: &mut S,
        folder: &mut F,
        _err: &mut E,
    ) -> Result<Made, MakeFault<'a>> {
        let schema = load_fields(alloc, source, self.list)?;
        let table = TableData::empty(alloc, schema);
        write_files(
            alloc,
            folder,
            self.stem,
            self.in_capitals,
            &table,
            self.today,
        )?;
        Ok(Made)
    }
}

impl<'a> TableWork for MakeJob<'a> {
    ghost use Rattle.table_maker.specs.MadeTable.{make_look};
    ghost use Rattle.table_maker.specs.Making.{names_of_table as names_by};

    ghost names = { λ job. names_by job.stem.now job.in_capitals };

    ghost look = { make_look };

    fn names(&self, alloc: Global) -> Result<Vec<Bytes>, AllocError> {
        names_of_table(alloc, self.stem, self.in_capitals)
    }

    fn exists() -> MakeFault<'a> {
        MakeFault::Exists
    }

    fn unread() -> MakeFault<'a> {
        MakeFault::Unread
    }

    fn exists_is_of_names_alone(&self) {}

    fn unread_is_of_the_folder_alone(&self) {}
}
