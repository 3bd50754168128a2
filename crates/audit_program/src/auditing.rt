//! The audit that a command line asks for.

ghost use Rattle.std.specs.Prelude.{◌≡◌, [], None, Some, IfOk, IfErr, OnOk};
ghost use Rattle.audit.specs.Audits.{IsJournalOf};
ghost use Rattle.journal_file.specs.WholeText.{IsCutInto, read_word};
ghost use Rattle.folders.specs.Files.{IsFileOf};
ghost use Rattle.office_run.specs.FileSums.{AreAllNoted};
ghost use Rattle.office_run.specs.Loading.{read_of};
ghost use Rattle.office_run.specs.OpenedSetup.{IsOpenedFrom};
ghost use Rattle.office_run.specs.WholeRun.{IsAllRead};
ghost use Rattle.audit_program.specs.Comparing.{IfLinesOf, first_other};
ghost use Rattle.audit_program.specs.Program.{IsAuditedBy, IsAuditedTo, IsEntriesFault, IsFailedBy, IsFilesFault, IsJournalFault, IsLoadFailure, IsTextFault};

use crate::audited::Audited;
use crate::comparing::find_other;
use crate::failure::AuditFailure;
use crate::options::Options;
use audit::audit;
use byte_io::Bytes;
use catalogue_core::Catalogue;
use folders::{LoadFault, Source};
use journal_file::{FileSum, JournalFault, JournalParts, ReadSums, cut_journal};
use office_run::{Loaded, ServeFault, open_loaded, read_all};
use std::alloc::Global;

// The journal's text.
fn load_journal<S: Source>(
    alloc: Global,
    source: &mut S,
    path: &[u8],
) -> Result<Bytes, AuditFailure>
    ensures found { IfOk result (λ text. IsFileOf (S.files source.old) path.now text) }
    ensures kept { S.files source.new ≡ S.files source.old }
    ensures fault { IfErr result (IsJournalFault (S.files source.old) path.now (S.failures source.old) (S.failures source.new)) }
    ensures loads { OnOk result (S.failures source.new ≡ S.failures source.old) }
{
    match source.load(alloc, path) {
        Ok(text) => Ok(text),
        Err(LoadFault::NoMemory) => Err(AuditFailure::Serve(ServeFault::NoMemory)),
        Err(LoadFault::CannotRead) => Err(AuditFailure::Unread),
        Err(LoadFault::Unrecovered) => {
            let path = Bytes::from_slice(alloc, path)?;
            Err(AuditFailure::UnrecoveredJournal(path))
        }
    }
}

// The parts of the journal's text, where it is that of a run which made the indexes anew or not as the options say.
fn cut_text<'a>(
    alloc: Global,
    options: &Options<'_>,
    text: &'a [u8],
) -> Result<JournalParts<'a>, AuditFailure>
    ensures found { IfOk result (IsCutInto text.now) }
    ensures reindex { IfOk result (λ parts. parts.reindex ≡ options.now.reindex) }
    ensures fault { IfErr result (IsTextFault options.now text.now) }
{
    let path = options.journal.as_bytes();
    match cut_journal(text) {
        Ok(parts) if parts.reindex == options.reindex => Ok(parts),
        Ok(parts) => Err(AuditFailure::OtherReindex(parts.reindex)),
        Err(JournalFault::Cut) => Err(AuditFailure::CutJournal(Bytes::from_slice(alloc, path)?)),
        Err(JournalFault::NoJournal) => Err(AuditFailure::NoJournal(Bytes::from_slice(
            alloc, path,
        )?)),
    }
}

// What the setup names, and what was noted of the files that were read.
struct ReadFiles {
    loaded: Loaded,
    sums: Vec<FileSum>,
}

// Reads the setup and what it names, where these are the files of the journal's lines.
fn read_files<S: Source>(
    alloc: Global,
    options: &Options<'_>,
    lines: &[u8],
    source: &mut S,
) -> Result<ReadFiles, AuditFailure>
    ensures read { IfOk result (λ files. IsAllRead (S.files source.old) options.now.setup.now (read_of files.loaded)) }
    ensures noted { IfOk result (λ files. AreAllNoted (S.files source.old) options.now.setup.now (Some []) (Some files.sums.items)) }
    ensures same { IfLinesOf read_word lines.now (λ told. IfOk result (λ files. first_other told files.sums.items ≡ None)) }
    ensures fault { IfLinesOf read_word lines.now (λ told. IfErr result (IsFilesFault (S.files source.old) options.now.setup.now told)) }
    ensures kept { S.files source.new ≡ S.files source.old }
    ensures loads { OnOk result (S.failures source.new ≡ S.failures source.old) }
    ensures failure { IfErr result (IsLoadFailure (S.files source.old) options.now (S.failures source.old) (S.failures source.new)) }
{
    let setup = Bytes::from_slice(alloc, options.setup.as_bytes())?;
    let mut noted = ReadSums::wanted(alloc);
    let loaded = read_all(alloc, source, &setup, &mut noted)?;
    let sums = noted.into_sums();
    if let Some(path) = find_other(lines, &sums) {
        return Err(AuditFailure::OtherFile(Bytes::from_slice(alloc, path)?));
    }
    Ok(ReadFiles { loaded, sums })
}

// Opens the tables that were read, and performs the entries of these lines: each of them holds.
fn perform_entries(
    alloc: Global,
    loaded: Loaded,
    reindex: bool,
    entries: &[u8],
) -> Result<Catalogue, AuditFailure>
    ensures opened { IfOk result (λ catalogue. IsOpenedFrom reindex (read_of loaded) catalogue.opened) }
    ensures holds { IfOk result (λ catalogue. IsJournalOf catalogue.opened entries.now catalogue.journal) }
    ensures fault { IfErr result (IsEntriesFault reindex (read_of loaded) entries.now) }
{
    let mut catalogue = open_loaded(alloc, loaded, reindex)?;
    audit(alloc, &mut catalogue, entries)?;
    Ok(catalogue)
}

/// Tables after all entries of a journal, and what is said of it.
pub struct AuditedTables {
    /// The tables.
    pub catalogue: Catalogue,
    /// What is said of the journal, where nothing is written.
    pub audited: Audited,
}

/// The tables of a command line's setup, with the indexes made anew where it says so, after all entries of its journal: each
/// of them holds. Files are read from the source, the journal first, and then the setup and what it names: these are the files
/// that the run read. A failure is the first in this order: the journal can't be read, is none or is cut; the run was with
/// `--reindex` or without it, otherwise than the command line says; a file can't be read, or is not the one that the run read;
/// the tables are not opened; an entry does not hold.
pub fn audited_tables<S: Source>(
    alloc: Global,
    options: &Options<'_>,
    source: &mut S,
) -> Result<AuditedTables, AuditFailure>
    ensures audited { IfOk result (λ tables. IsAuditedTo (S.files source.old) options.now tables.catalogue tables.audited) }
    ensures unwritten { IfOk result (λ tables. tables.audited.written.items ≡ []) }
    ensures fault { IfErr result (IsFailedBy (S.files source.old) options.now) }
    ensures kept { S.files source.new ≡ S.files source.old }
    ensures loads { OnOk result (S.failures source.new ≡ S.failures source.old) }
    ensures failure { IfErr result (IsLoadFailure (S.files source.old) options.now (S.failures source.old) (S.failures source.new)) }
{
    let text = load_journal(alloc, source, options.journal.as_bytes())?;
    let parts = match cut_text(alloc, options, text.as_slice()) {
        Ok(parts) => parts,
        Err(failure) => return Err(failure),
    };
    let wrote = Bytes::from_slice(alloc, parts.wrote)?;
    let ReadFiles { loaded, sums } = read_files(alloc, options, parts.read, source)?;
    let catalogue = perform_entries(alloc, loaded, options.reindex, parts.entries)?;
    let audited = Audited {
        count: catalogue.journal().len() as u64,
        read: sums,
        wrote,
        written: Vec::new(alloc),
    };
    Ok(AuditedTables { catalogue, audited })
}

/// Audits the journal of a command line on the tables of its setup, with the indexes made anew where it says so. Files are
/// read from the source, and nothing is written.
pub fn audit_options<S: Source>(
    alloc: Global,
    options: &Options<'_>,
    source: &mut S,
) -> Result<Audited, AuditFailure>
    ensures holds { IfOk result (IsAuditedBy (S.files source.old) options.now) }
    ensures fault { IfErr result (IsFailedBy (S.files source.old) options.now) }
    ensures kept { S.files source.new ≡ S.files source.old }
    ensures loads { OnOk result (S.failures source.new ≡ S.failures source.old) }
    ensures failure { IfErr result (IsLoadFailure (S.files source.old) options.now (S.failures source.old) (S.failures source.new)) }
{
    let AuditedTables {
        catalogue: _,
        audited,
    } = audited_tables(alloc, options, source)?;
    Ok(audited)
}
