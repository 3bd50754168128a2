//! The steps of a whole run: reading the setup and what it names, running the scripts, writing the files.

ghost use Rattle.std.specs.Prelude.{◌∷◌, [], ◌≡◌, ◌≢◌, ℕ, List, None, Ok, Err, IfOk, IfErr, OnOk};
ghost use Rattle.std.specs.List.{AllByRecursion};
ghost use Rattle.byte_io.specs.Sink.{grown, Rises};
ghost use Rattle.office_run.specs.Closing.{run_files, first_blocked};
ghost use Rattle.folders.specs.Files.{IsOfBytes, files_in, listing};
ghost use Rattle.station_lines.specs.Setup.{IndexesFollowTables};
ghost use Rattle.setup_files.specs.Noted.{AreNoted};
ghost use Rattle.office_run.specs.FileSums.{AreAllNoted};
ghost use Rattle.office_run.specs.Loading.{read_of, IsFailure};
ghost use Rattle.office_run.specs.WholeRun.{IsAllRead, IsBadSetup, IsReadFault, IsRun, IsRunFault, IsSaid, IsSetupFault, IsWriteFault, IsCutWriting};

use crate::catalogue::run_catalogue;
use crate::close::close_files;
use crate::close_fault::CloseFault;
use crate::closed::ClosedTable;
use crate::fault::{BadSetup, ServeFault};
use crate::gate::Gate;
use crate::load::{load_entries, load_file};
use crate::loaded::Loaded;
use crate::stations::Outcome;
use byte_io::Bytes;
use catalogue_core::{Catalogue, OpenFault};
use dbf_fields::Day;
use folders::{Folder, Source};
use journal_file::ReadSums;
use setup_check::bad_setup_text;
use station_lines::{SetupEntry, SetupFault, parse_setup};
use std::alloc::Global;
use std::sync::Wait;
use std::thread::Threads;

// The bad line of this number of a setup of this text, and why it is bad.
fn bad_setup(alloc: Global, text: &[u8], number: usize) -> BadSetup
    ensures bad { IsBadSetup text.now number result }
{
    let told = match bad_setup_text(alloc, text, number) {
        Ok(told) => Some(Bytes::from_vec(told)),
        Err(_) => None,
    };
    BadSetup { number, told }
}

// Why a setup of this text says nothing.
fn setup_fault(alloc: Global, text: &[u8], fault: SetupFault) -> ServeFault
    ensures value { IsSetupFault text.now fault result }
{
    match fault {
        SetupFault::Bad(number) => ServeFault::Setup(bad_setup(alloc, text, number)),
        SetupFault::NoMemory => ServeFault::NoMemory,
    }
}

/// What the setup of a path says: its entries, in their order. It is noted where a journal is wanted.
#[tactic(auto, using(crate::proofs::LoadLaws::unsaid, crate::proofs::LoadLaws::unsaid_loads))]
pub fn load_setup<S: Source>(
    alloc: Global,
    source: &mut S,
    setup: &Bytes,
    sums: &mut ReadSums,
) -> Result<Vec<SetupEntry>, ServeFault>
    ensures noted { OnOk result (AreNoted (S.files source.old) (setup.now ∷ []) sums.old sums.new) }
    ensures said { IfOk result (λ entries. IsSaid (S.files source.old) setup.now (Ok entries.items)) }
    ensures tables_first { IfOk result (λ entries. IndexesFollowTables entries.items) }
    ensures kept { S.files source.new ≡ S.files source.old }
    ensures fault { IfErr result (IsReadFault (S.files source.old) setup.now) }
    ensures loads { OnOk result (S.failures source.new ≡ S.failures source.old) }
    ensures failure { IfErr result (IsFailure (S.files source.old) (S.failures source.old) (S.failures source.new)) }
{
    let text = load_file(alloc, source, setup, sums)?;
    match parse_setup(alloc, text.as_slice()) {
        Ok(entries) => Ok(entries),
        Err(fault) => Err(setup_fault(alloc, text.as_slice(), fault)),
    }
}

/// What the setup of a path says: its entries, in their order. The faults are those of [`serve`] at the setup.
///
/// [`serve`]: crate::serve
pub fn read_setup<S: Source>(
    alloc: Global,
    source: &mut S,
    setup: &Bytes,
) -> Result<Vec<SetupEntry>, ServeFault>
    ensures said { IfOk result (λ entries. IsSaid (S.files source.old) setup.now (Ok entries.items)) }
    ensures tables_first { IfOk result (λ entries. IndexesFollowTables entries.items) }
    ensures kept { S.files source.new ≡ S.files source.old }
    ensures fault { IfErr result (IsReadFault (S.files source.old) setup.now) }
    ensures loads { OnOk result (S.failures source.new ≡ S.failures source.old) }
    ensures failure { IfErr result (IsFailure (S.files source.old) (S.failures source.old) (S.failures source.new)) }
{
    load_setup(alloc, source, setup, &mut ReadSums::unwanted(alloc))
}

/// Reads the setup of a path, and then what it names, as [`serve`] does. Each file that is read is noted where a journal is
/// wanted. The faults come in the order of [`ServeFault`].
///
/// [`serve`]: crate::serve
pub fn read_all<S: Source>(
    alloc: Global,
    source: &mut S,
    setup: &Bytes,
    sums: &mut ReadSums,
) -> Result<Loaded, ServeFault>
    ensures noted { OnOk result (AreAllNoted (S.files source.old) setup.now sums.old sums.new) }
    ensures read { IfOk result (λ loaded. IsAllRead (S.files source.old) setup.now (read_of loaded)) }
    ensures kept { S.files source.new ≡ S.files source.old }
    ensures fault { IfErr result (IsReadFault (S.files source.old) setup.now) }
    ensures loads { OnOk result (S.failures source.new ≡ S.failures source.old) }
    ensures failure { IfErr result (IsFailure (S.files source.old) (S.failures source.old) (S.failures source.new)) }
{
    let entries = load_setup(alloc, source, setup, sums)?;
    load_entries(alloc, source, &entries, sums)
}

/// Opens the tables and runs the scripts.
pub(crate) fn run_loaded<G: Gate + Sync, R: Threads + Wait + Sync>(
    rt: &R,
    alloc: Global,
    loaded: Loaded,
    reindex: bool,
    gate: &G,
) -> Result<Outcome, ServeFault>
    ensures ran { IfOk result (λ outcome. IsRun reindex (read_of loaded) outcome.closed outcome.answers.items) }
    ensures fault { IfErr result (IsRunFault reindex (read_of loaded)) }
{
    let Loaded { tables, scripts } = loaded;
    let Ok(stations) = u32::try_from(scripts.len()) else {
        return Err(ServeFault::Refused(OpenFault::TooManyStations));
    };
    let catalogue = Catalogue::open(alloc, tables, stations, reindex)?;
    Ok(run_catalogue(rt, alloc, catalogue, &scripts, gate)?)
}

/// Writes the files of tables and answers.
pub(crate) fn write_files<F: Folder>(
    alloc: Global,
    tables: &[ClosedTable],
    answers: &[Bytes],
    today: Day,
    folder: &mut F,
) -> Result<(), ServeFault>
    ensures wrote { OnOk result (F.written folder.new ≡ grown (F.written folder.old) (listing (run_files today tables.now answers.now))) }
    ensures bytes { OnOk result (AllByRecursion IsOfBytes (run_files today tables.now answers.now)) }
    ensures told { OnOk result (files_in (listing (run_files today tables.now answers.now)) ≡ run_files today tables.now answers.now) }
    ensures blocks_fit { OnOk result (first_blocked 1 tables.now ≡ None) }
    ensures no_failure { OnOk result (F.failures folder.new ≡ F.failures folder.old) }
    ensures fault { IfErr result (λ fault. IsWriteFault today.year tables.now fault) }
    ensures no_file_begun { IfErr result (λ fault. ((name : List ℕ) → fault ≢ ServeFault.Close (CloseFault.Write name)) → folder.new ≡ folder.old) }
    ensures failed { (name : List ℕ) → result ≡ Err (ServeFault.Close (CloseFault.Write name)) → Rises (F.failures folder.old) (F.failures folder.new) }
    ensures whole_before_fault { IfErr result (IsCutWriting (run_files today tables.now answers.now) (F.written folder.old) (F.written folder.new)) }
{
    Ok(close_files(alloc, tables, answers, today, folder)?)
}
