//! A setup that is checked.

ghost use Rattle.std.specs.Prelude.{◌≡◌, ◌⊎◌, ℕ, not, List, Option, Ok, Err, Some, IfOk, IfErr, IfSome};
ghost use Rattle.byte_io.specs.Sink.{IsFront, Rises};
ghost use Rattle.folders.specs.Files.{IsTooLong, IsUnrecovered, load_refusal};
ghost use Rattle.folders.specs.declared.named.NamedFile.{NamedFile};
ghost use Rattle.station_lines.specs.Script.Reading.{is_empty};
ghost use Rattle.station_lines.specs.Setup.{IndexesFollowTables, IsSetup};
ghost use Rattle.setup_files.specs.EntryFiles.{AreEntriesRead};
ghost use Rattle.office_run.specs.WholeRun.{IsSaid};
ghost use Rattle.tool_program.specs.Check.{check_load_fault, AreCheckLoads, IsFirstFault, IsOpening, IsTold, IsVerdict};
ghost use Rattle.tool_program.specs.Check.{IsBadLineFault, IsLineFault, TellsBadLine, TellsNothing};

use crate::verdict::append_verdict;
use byte_io::{ByteSink, Bytes, SinkFault, write_all};
use folders::{LoadFault, Source};
use office_run::{Loaded, ServeFault, open_loaded};
use setup_check::{
    BadLinesTold, Looked, bad_setup_text, findings_text, kept_files_text, look_at_all,
    open_days_text, scripts_text,
};
use setup_files::{EntryContent, EntryFault};
use station_lines::{SetupEntry, SetupFault, parse_setup};
use std::alloc::{AllocError, Global};

/// Why a setup was not checked.
#[derive(Debug, PartialEq, Eq, Drop)]
pub enum CheckFault {
    /// The setup can't be read.
    CannotRead,
    /// The list of a set of new files lies in its folder: not all of them are in place.
    Unrecovered,
    /// Its line of this number is bad. The text says which it is, and why; there is none where memory was refused for it.
    BadLine(usize, Option<Bytes>),
    /// Memory was refused.
    NoMemory,
    /// The sink failed.
    Sink,
}

impl From<AllocError> for CheckFault {
    ghost use Rattle.std.specs.Prelude.{◌≡◌};
    ghost use Rattle.tool_program.specs.declared.checking.CheckFault.TheVariants.{NoMemory};

    ghost from_gives = { λ _ fault. fault ≡ NoMemory };

    fn from(_refused: AllocError) -> CheckFault {
        CheckFault::NoMemory
    }
}

impl From<LoadFault> for CheckFault {
    ghost use Rattle.tool_program.specs.Check.{check_load_fault};
    ghost use Rattle.std.specs.Prelude.{◌≡◌};

    ghost from_gives = { λ cause fault. fault ≡ check_load_fault cause };

    fn from(cause: LoadFault) -> CheckFault {
        match cause {
            LoadFault::CannotRead => CheckFault::CannotRead,
            LoadFault::Unrecovered => CheckFault::Unrecovered,
            LoadFault::NoMemory => CheckFault::NoMemory,
        }
    }
}

impl From<SinkFault> for CheckFault {
    ghost use Rattle.std.specs.Prelude.{◌≡◌};
    ghost use Rattle.tool_program.specs.declared.checking.CheckFault.TheVariants.{Sink};

    ghost from_gives = { λ _ fault. fault ≡ Sink };

    fn from(_failed: SinkFault) -> CheckFault {
        CheckFault::Sink
    }
}

// Why the server opens nothing of what was read of a setup's entries, or `None` where it opens all.
fn fault_of_opening(
    alloc: Global,
    entries: &[SetupEntry],
    reads: Vec<Result<EntryContent, EntryFault>>,
) -> Result<Option<ServeFault>, AllocError>
    requires tables_first { IndexesFollowTables entries.now }
    requires of_entries { (files : Option (List NamedFile)) × AreEntriesRead files entries.now reads.items }
    ensures opening { (files : Option (List NamedFile)) (path : List ℕ) → IsSaid files path (Ok entries.now) → AreEntriesRead files entries.now reads.items
        → IfOk result (IsOpening files path) }
    ensures first { IfOk result (λ fault. IfSome fault (IsFirstFault entries.now reads.items)) }
{
    let loaded = match Loaded::from_reads(alloc, entries, reads) {
        Ok(loaded) => loaded,
        Err(ServeFault::NoMemory) => return Err(AllocError),
        Err(fault) => return Ok(Some(fault)),
    };
    match open_loaded(alloc, loaded, false) {
        Ok(_) => Ok(None),
        Err(ServeFault::NoMemory) => Err(AllocError),
        Err(fault) => Ok(Some(fault)),
    }
}

// The fault of a bad line.
fn bad_line(alloc: Global, text: &[u8], number: usize) -> CheckFault
    ensures bad { IsBadLineFault text.now number result }
{
    let told = match bad_setup_text(alloc, text, number) {
        Ok(told) => Some(Bytes::from_vec(told)),
        Err(_) => None,
    };
    CheckFault::BadLine(number, told)
}

// What the lines of a setup say.
fn entries_of(alloc: Global, text: &[u8]) -> Result<Vec<SetupEntry>, CheckFault>
    ensures says { IfOk result (λ entries. IsSetup text.now (Ok entries.items)) }
    ensures tables_first { IfOk result (λ entries. IndexesFollowTables entries.items) }
    // A bad line is not told as a want of memory, which is asked for only at a line that may stand there.
    ensures fault { IfErr result (IsLineFault text.now) }
{
    match parse_setup(alloc, text) {
        Ok(entries) => Ok(entries),
        Err(SetupFault::Bad(number)) => Err(bad_line(alloc, text, number)),
        Err(SetupFault::NoMemory) => Err(CheckFault::NoMemory),
    }
}

// Whether a day is open beside a table, by what is told of the days there.
fn is_day_told(days: &Vec<u8>) -> bool
    ensures value { result ≡ not (is_empty days.now.items) }
{
    !days.is_empty()
}

/// Looks at every file that the setup of a path names, and tells what is found, a line a file, which files stay as they are beside
/// new ones, which lines of the scripts are no commands, in which folders of tables a live day is open, and whether the server would
/// open all, or why it would open nothing. Whether it would is answered too. Each file is loaded once.
///
/// `CannotRead` says that the setup can't be read, `Unrecovered` that the list of a set of new files lies in its folder, and
/// `BadLine` that its line of this number is bad, and why; then nothing is told.
/// `Sink` says that the sink failed, and `NoMemory` that there was no memory.
#[tactic(auto, using(byte_io::specs::Laws::Sinks::front_same))]
pub fn check_setup<F: Source, S: ByteSink>(
    alloc: Global,
    source: &mut F,
    sink: &mut S,
    setup: &str,
    bad_lines: BadLinesTold,
) -> Result<bool, CheckFault>
    // It says that the server would open all exactly where `open_setup`, which the server begins with, opens it. That a file can't be
    // read is said only where its load has failed, or where it is over the limit.
    ensures opens { let loads = AreCheckLoads (F.files source.old) (F.failures source.old) (F.failures source.new) in
        IfOk result (IsVerdict (F.files source.old) loads setup.now) }
    ensures told { let loads = AreCheckLoads (F.files source.old) (F.failures source.old) (F.failures source.new) in
        IfOk result (λ opens. IsTold (F.files source.old) loads setup.now bad_lines opens (S.written sink.old) (S.written sink.new)) }
    // A line that is told as bad is the first that is, and what is told of it says why.
    ensures bad_line { IfErr result (TellsBadLine (F.files source.old) setup.now) }
    ensures kept { IsFront (S.written sink.old) (S.written sink.new) }
    // That the setup can't be read is said only where its load has failed, or where it is over the limit; and the sink is said to
    // have failed only where it has.
    ensures unread { result ≡ Err CheckFault.CannotRead → Rises (F.failures source.old) (F.failures source.new) ⊎ IsTooLong (F.files source.old) setup.now }
    ensures failed { result ≡ Err CheckFault.Sink → Rises (S.failures sink.old) (S.failures sink.new) }
    // Where no load can give the setup the answer is why, whether there is memory or not.
    ensures early { (why : LoadFault) → load_refusal (F.files source.old) setup.now ≡ Some why → result ≡ Err (check_load_fault why) }
    ensures unrecovered { result ≡ Err CheckFault.Unrecovered → IsUnrecovered (F.files source.old) setup.now }
    ensures untold { IfErr result (λ fault. TellsNothing fault → S.written sink.new ≡ S.written sink.old) }
{
    let text = source.load(alloc, setup.as_bytes())?;
    let entries = entries_of(alloc, text.as_slice())?;
    let Looked { findings, reads } = look_at_all(alloc, source, &entries)?;
    let mut report = findings_text(alloc, &entries, &findings)?;
    let kept = kept_files_text(alloc, &entries)?;
    report.extend_from_slice(&kept)?;
    let scripts = scripts_text(alloc, &entries, &reads, bad_lines)?;
    report.extend_from_slice(&scripts)?;
    let fault = fault_of_opening(alloc, &entries, reads)?;
    let days = open_days_text(alloc, source, &entries)?;
    report.extend_from_slice(&days)?;
    append_verdict(alloc, &mut report, is_day_told(&days), &fault)?;
    write_all(sink, &report)?;
    Ok(fault.is_none())
}
