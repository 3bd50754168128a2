//! Writing the tables of a catalogue as they stand now.

ghost use Rattle.std.specs.Prelude.{◌≡◌, ◌≢◌, ℕ, List, Err, IfOk, IfErr, OnOk};
ghost use Rattle.byte_io.specs.Sink.{Rises};
ghost use Rattle.office_run.specs.TablesWritten.{AreTablesPut, AreTablesWritten, IsTablesFault, IsCutTables};

use crate::close_fault::CloseFault;
use crate::copying::copied_tables;
use crate::fault::ServeFault;
use crate::run::write_files;
use crate::sums::sums_to_write;
use catalogue_core::Catalogue;
use dbf_fields::Day;
use folders::Folder;
use journal_file::FileSum;
use std::alloc::Global;

/// Writes the tables and indexes of a catalogue as they stand now into the folder, dated, as [`serve`] writes those of a
/// run: the same files, without the answers. The tables are copied for it. It answers what a journal says of each of the files,
/// in the order of writing.
///
/// `NoMemory`, `DateOutside` and `TooManyBlocks` come before any file is begun: see [`crate::close_files`].
///
/// [`serve`]: crate::serve
pub fn write_tables<F: Folder>(
    alloc: Global,
    catalogue: &Catalogue,
    today: Day,
    folder: &mut F,
) -> Result<Vec<FileSum>, ServeFault>
    ensures wrote { IfOk result (λ sums. AreTablesWritten catalogue.now today (F.written folder.old) (F.written folder.new) sums.items) }
    ensures no_failure { OnOk result (F.failures folder.new ≡ F.failures folder.old) }
    ensures fault { IfErr result (IsTablesFault catalogue.now today.year) }
    ensures no_file_begun { IfErr result (λ fault. ((name : List ℕ) → fault ≢ ServeFault.Close (CloseFault.Write name)) → folder.new ≡ folder.old) }
    ensures failed { (name : List ℕ) → result ≡ Err (ServeFault.Close (CloseFault.Write name)) → Rises (F.failures folder.old) (F.failures folder.new) }
    ensures whole_before_fault { IfErr result (IsCutTables catalogue.now today (F.written folder.old) (F.written folder.new)) }
{
    let tables = copied_tables(alloc, catalogue)?;
    let answers = Vec::new(alloc);
    let sums = sums_to_write(alloc, &tables, &answers, today)?;
    write_files(alloc, &tables, &answers, today, folder)?;
    Ok(sums)
}

/// Writes the same files as [`write_tables`] into the folder, and makes no digests of them, which takes most of its time.
///
/// `NoMemory`, `DateOutside` and `TooManyBlocks` come before any file is begun: see [`crate::close_files`].
pub fn put_tables<F: Folder>(
    alloc: Global,
    catalogue: &Catalogue,
    today: Day,
    folder: &mut F,
) -> Result<(), ServeFault>
    ensures wrote { OnOk result (AreTablesPut catalogue.now today (F.written folder.old) (F.written folder.new)) }
    ensures no_failure { OnOk result (F.failures folder.new ≡ F.failures folder.old) }
    ensures fault { IfErr result (IsTablesFault catalogue.now today.year) }
    ensures no_file_begun { IfErr result (λ fault. ((name : List ℕ) → fault ≢ ServeFault.Close (CloseFault.Write name)) → folder.new ≡ folder.old) }
    ensures failed { (name : List ℕ) → result ≡ Err (ServeFault.Close (CloseFault.Write name)) → Rises (F.failures folder.old) (F.failures folder.new) }
    ensures whole_before_fault { IfErr result (IsCutTables catalogue.now today (F.written folder.old) (F.written folder.new)) }
{
    let tables = copied_tables(alloc, catalogue)?;
    let answers = Vec::new(alloc);
    write_files(alloc, &tables, &answers, today, folder)?;
    Ok(())
}
