//! The whole run, with its journal's file or without.

ghost use Rattle.std.specs.Prelude.{◌≡◌, ◌≢◌, ◌≤◌, ◌⊎◌, ℕ, List, length, true, false, Err, None, IfOk, IfErr, OnOk};
ghost use Rattle.std.specs.List.{AllByRecursion};
ghost use Rattle.byte_io.specs.Sink.{grown, Rises};
ghost use Rattle.catalogue_core.specs.declared.catalogue.TheConstants.{MAX_ENTRIES};
ghost use Rattle.journal_file.specs.WholeText.{CanBeTold, IsSum};
ghost use Rattle.office_run.specs.Closing.{first_blocked, run_files};
ghost use Rattle.folders.specs.Files.{IsOfBytes, listing};
ghost use Rattle.folders.specs.Placed.{IsListedAfter};
ghost use Rattle.folders.specs.declared.source.TheConstants.{MAX_FILE_BYTES};
ghost use Rattle.office_run.specs.JournalFile.{all_files, parts_text, run_text, told_run, HaveSmallEntries};
ghost use Rattle.office_run.specs.Loading.{IsFailure};
ghost use Rattle.office_run.specs.Served.{files_to_write, IsServed, UnlessBegun, IsHeld, IsCutFiles, IsCutRun};
ghost use Rattle.office_run.specs.WholeRun.{IsServeFault, IsWriteFault};

use crate::close_fault::CloseFault;
use crate::closed::ClosedTable;
use crate::closing::closed_parts;
use crate::counts::{CommandCounts, command_counts};
use crate::fault::ServeFault;
use crate::gate::Gate;
use crate::journal::{JournalText, journal_name, write_journal};
use crate::journal_length::is_too_long;
use crate::run::{read_all, run_loaded, write_files};
use crate::sums::{asked_sums, sums_to_write};
use byte_io::Bytes;
use catalogue_core::Entry;
use dbf_fields::Day;
use folders::{Folder, Source};
use journal_file::{FileSum, head_text, tail_text};
use std::alloc::Global;
use std::sync::Wait;
use std::thread::Threads;

/// What is asked of a whole run.
#[derive(Clone, Copy, Debug)]
pub struct Asked<'a> {
    /// The path of the setup.
    pub setup: &'a Bytes,
    /// The day of which the files are dated.
    pub today: Day,
    /// Whether the indexes are made anew, and not only tested against the tables.
    pub reindex: bool,
    /// Whether the file of the journal is written too.
    pub journal: bool,
}

// Writes the files of tables and answers, and the journal's after them. None is begun where the journal's would have more bytes than a
// file that is read may have.
fn write_with_journal<F: Folder>(
    alloc: Global,
    tables: &[ClosedTable],
    answers: &[Bytes],
    text: &JournalText<'_>,
    today: Day,
    folder: &mut F,
) -> Result<(), ServeFault>
    ensures wrote { OnOk result (F.written folder.new ≡ grown (F.written folder.old) (listing (all_files today tables.now answers.now (parts_text text.now)))) }
    ensures small { OnOk result (HaveSmallEntries text.now) }
    ensures readable { OnOk result (length (parts_text text.now) ≤ MAX_FILE_BYTES) }
    ensures bytes { OnOk result (AllByRecursion IsOfBytes (all_files today tables.now answers.now (parts_text text.now))) }
    ensures blocks_fit { OnOk result (first_blocked 1 tables.now ≡ None) }
    ensures no_failure { OnOk result (F.failures folder.new ≡ F.failures folder.old) }
    ensures fault { IfErr result (λ fault. IsWriteFault today.year tables.now fault) }
    ensures no_file_begun { IfErr result (λ fault. UnlessBegun true fault (folder.new ≡ folder.old)) }
    ensures failed { (name : List ℕ) → result ≡ Err (ServeFault.Close (CloseFault.Write name)) → Rises (F.failures folder.old) (F.failures folder.new) ⊎ IsHeld true name (folder.new ≡ folder.old) }
    ensures unfailed { result ≡ Err ServeFault.NoMemory → F.failures folder.new ≡ F.failures folder.old }
    ensures whole_before_fault { IfErr result (IsCutFiles true (all_files today tables.now answers.now (parts_text text.now)) (F.written folder.old) (F.written folder.new)) }
{
    if is_too_long(alloc, text)? {
        return Err(ServeFault::Close(CloseFault::Write(journal_name(alloc)?)));
    }
    write_files(alloc, tables, answers, today, folder)?;
    write_journal(alloc, text, folder)?;
    Ok(())
}

// Writes the files of tables and answers, and after them that of the journal where it is asked for, which says that these files
// were read and these entries performed.
fn write_asked<F: Folder>(
    alloc: Global,
    asked: &Asked<'_>,
    tables: &[ClosedTable],
    answers: &[Bytes],
    entries: &[Entry],
    read: &[FileSum],
    folder: &mut F,
) -> Result<(), ServeFault>
    requires small { AllByRecursion IsSum read.now }
    ensures wrote { OnOk result (F.written folder.new ≡ grown (F.written folder.old) (listing (files_to_write asked.now tables.now answers.now entries.now read.now))) }
    ensures one_journal { asked.now.journal ≡ true → OnOk result (CanBeTold (told_run read.now asked.now.reindex entries.now (run_files asked.now.today tables.now answers.now))) }
    ensures readable { asked.now.journal ≡ true → OnOk result (length (run_text read.now asked.now.reindex entries.now (run_files asked.now.today tables.now answers.now)) ≤ MAX_FILE_BYTES) }
    ensures bytes { OnOk result (AllByRecursion IsOfBytes (files_to_write asked.now tables.now answers.now entries.now read.now)) }
    ensures blocks_fit { OnOk result (first_blocked 1 tables.now ≡ None) }
    ensures no_failure { OnOk result (F.failures folder.new ≡ F.failures folder.old) }
    ensures fault { IfErr result (λ fault. IsWriteFault asked.now.today.year tables.now fault) }
    ensures no_file_begun { IfErr result (λ fault. UnlessBegun asked.now.journal fault (folder.new ≡ folder.old)) }
    ensures failed { (name : List ℕ) → result ≡ Err (ServeFault.Close (CloseFault.Write name)) → Rises (F.failures folder.old) (F.failures folder.new) ⊎ IsHeld asked.now.journal name (folder.new ≡ folder.old) }
    ensures unfailed { result ≡ Err ServeFault.NoMemory → F.failures folder.new ≡ F.failures folder.old }
    ensures whole_before_fault { IfErr result (IsCutFiles asked.now.journal (files_to_write asked.now tables.now answers.now entries.now read.now) (F.written folder.old) (F.written folder.new)) }
{
    let today = asked.today;
    if asked.journal {
        let wrote = sums_to_write(alloc, tables, answers, today)?;
        let head = head_text(alloc, read, asked.reindex, entries.len() as u64)?;
        let tail = tail_text(alloc, &wrote)?;
        let text = JournalText {
            head: head.as_slice(),
            entries,
            tail: tail.as_slice(),
        };
        write_with_journal(alloc, tables, answers, &text, today, folder)
    } else {
        write_files(alloc, tables, answers, today, folder)
    }
}

/// A whole run: reads the setup of a path and the files that it names, opens the tables for a station a script, runs
/// the scripts, each in a thread of its own, and writes the tables, indexes and answers into the folder, dated, and last the
/// journal, as JOURNAL.TXT, where it is asked for. It answers the number of commands, which is `MAX_ENTRIES` at most, and how
/// many of them were refused.
///
/// The setup is read whole first. Then, entry by entry, an entry's files are loaded and read; then the catalogue is
/// opened, run and closed. The faults come in this order: see [`ServeFault`]. Before files are written nothing is
/// begun in the folder; of a fault in writing see [`crate::close_files`].
///
/// The journal says first which files were read, and last which were written, with their lengths and digests. Its entries are
/// written one by one; each other file is made once more for its digest, before any is begun. None of these texts is whole in memory.
/// Only `Close(Write(..))`, and `NoMemory` where the journal is asked for, may come when files are begun. Where the journal's file
/// would have more than `folders::MAX_FILE_BYTES`, so that no audit could read it, the fault is `Close(Write(JOURNAL.TXT))`, and
/// none is begun.
pub fn serve_asked<S: Source, F: Folder, G: Gate + Sync, R: Threads + Wait + Sync>(
    rt: &R,
    alloc: Global,
    asked: &Asked<'_>,
    source: &mut S,
    folder: &mut F,
    gate: &G,
) -> Result<CommandCounts, ServeFault>
    // The files of the replay of a legal journal, whose commands are the scripts' lines, on what the setup names, and that of the
    // journal. What was written opens as the run left it: see `written_files_read_back`.
    ensures ran { IfOk result (λ counts. IsListedAfter (λ written. IsServed (S.files source.old) asked.now.setup.now asked.now.reindex asked.now.today asked.now.journal written counts) (F.written folder.old) (F.written folder.new)) }
    ensures count_bounded { IfOk result (λ counts. counts.all ≤ MAX_ENTRIES) }
    ensures no_failure { OnOk result (F.failures folder.new ≡ F.failures folder.old) }
    ensures kept { S.files source.new ≡ S.files source.old }
    ensures fault { IfErr result (IsServeFault (S.files source.old) asked.now.setup.now asked.now.reindex asked.now.today.year) }
    // A file can't be read only where a load has failed, or where it is over the limit.
    ensures loads { OnOk result (S.failures source.new ≡ S.failures source.old) }
    ensures failure { IfErr result (IsFailure (S.files source.old) (S.failures source.old) (S.failures source.new)) }
    ensures no_file_begun { IfErr result (λ fault. UnlessBegun asked.now.journal fault (folder.new ≡ folder.old)) }
    ensures failed { (name : List ℕ) → result ≡ Err (ServeFault.Close (CloseFault.Write name)) → Rises (F.failures folder.old) (F.failures folder.new) ⊎ IsHeld asked.now.journal name (folder.new ≡ folder.old) }
    ensures unfailed { result ≡ Err ServeFault.NoMemory → F.failures folder.new ≡ F.failures folder.old }
    ensures whole_before_fault { IfErr result (IsCutRun (S.files source.old) asked.now.setup.now asked.now.reindex asked.now.today asked.now.journal (F.written folder.old) (F.written folder.new)) }
{
    let mut sums = asked_sums(alloc, asked.journal);
    let loaded = read_all(alloc, source, asked.setup, &mut sums)?;
    let stations = loaded.scripts.len();
    let outcome = run_loaded(rt, alloc, loaded, asked.reindex, gate)?;
    let counts = command_counts(alloc, &outcome.closed, stations)?;
    let (tables, entries) = closed_parts(alloc, outcome.closed, asked.journal)?;
    let read = sums.into_sums();
    let answers = &outcome.answers;
    write_asked(alloc, asked, &tables, answers, &entries, &read, folder)?;
    Ok(counts)
}

/// A whole run of the setup of a path as [`serve_asked`] makes it, without the journal's file.
///
/// As a caller has it:
///
/// ```text
/// let setup = Bytes::from_slice(alloc, SETUP)?;
/// return Ok(serve(rt, alloc, &setup, today, false, source, folder, &OpenGate));
/// ```
pub fn serve<S: Source, F: Folder, G: Gate + Sync, R: Threads + Wait + Sync>(
    rt: &R,
    alloc: Global,
    setup: &Bytes,
    today: Day,
    reindex: bool,
    source: &mut S,
    folder: &mut F,
    gate: &G,
) -> Result<CommandCounts, ServeFault>
    ensures ran { IfOk result (λ counts. IsListedAfter (λ written. IsServed (S.files source.old) setup.now reindex today false written counts) (F.written folder.old) (F.written folder.new)) }
    ensures count_bounded { IfOk result (λ counts. counts.all ≤ MAX_ENTRIES) }
    ensures no_failure { OnOk result (F.failures folder.new ≡ F.failures folder.old) }
    ensures kept { S.files source.new ≡ S.files source.old }
    ensures fault { IfErr result (IsServeFault (S.files source.old) setup.now reindex today.year) }
    ensures loads { OnOk result (S.failures source.new ≡ S.failures source.old) }
    ensures failure { IfErr result (IsFailure (S.files source.old) (S.failures source.old) (S.failures source.new)) }
    ensures no_file_begun { IfErr result (λ fault. ((name : List ℕ) → fault ≢ ServeFault.Close (CloseFault.Write name)) → folder.new ≡ folder.old) }
    ensures failed { (name : List ℕ) → result ≡ Err (ServeFault.Close (CloseFault.Write name)) → Rises (F.failures folder.old) (F.failures folder.new) }
    ensures unfailed { result ≡ Err ServeFault.NoMemory → F.failures folder.new ≡ F.failures folder.old }
    ensures whole_before_fault { IfErr result (IsCutRun (S.files source.old) setup.now reindex today false (F.written folder.old) (F.written folder.new)) }
{
    let asked = Asked {
        setup,
        today,
        reindex,
        journal: false,
    };
    serve_asked(rt, alloc, &asked, source, folder, gate)
}
