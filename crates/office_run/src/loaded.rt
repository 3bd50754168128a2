//! What was read for a run.

ghost use Rattle.std.specs.Prelude.{◌≡◌, ◌≢◌, List, None, Option, Some, IfErr, IfOk, OnOk};
ghost use Rattle.folders.specs.declared.named.NamedFile.{NamedFile};
ghost use Rattle.station_lines.specs.Setup.{IndexesFollowTables};
ghost use Rattle.setup_files.specs.EntryFiles.{AreEntriesRead};
ghost use Rattle.office_run.specs.Loading.{first_refused, nothing, read_of, IsFaultIn, LoadAll};

use crate::fault::ServeFault;
use crate::load::add_read;
use byte_io::Bytes;
use catalogue_core::{Names, TableSource};
use setup_files::{EntryContent, EntryFault};
use station_lines::SetupEntry;
use std::alloc::Global;

/// What was read for a run, by the entries of its setup in their order.
#[derive(Drop)]
pub struct Loaded {
    /// The tables with their indexes.
    pub tables: Vec<TableSource>,
    /// The stations' scripts.
    pub scripts: Vec<Bytes>,
}

impl Loaded {
    /// Puts together what [`setup_files::read_entry`] read of the entries of a setup, one after another; each index stands after its
    /// table. The fault is that of the first entry whose files are refused, as it is where [`serve`] reads them.
    ///
    /// [`serve`]: crate::serve
    pub fn from_reads(
        alloc: Global,
        entries: &[SetupEntry],
        reads: Vec<Result<EntryContent, EntryFault>>,
    ) -> Result<Loaded, ServeFault>
        requires tables_first { IndexesFollowTables entries.now }
        requires of_entries { (files : Option (List NamedFile)) × AreEntriesRead files entries.now reads.items }
        ensures read { (files : Option (List NamedFile)) → AreEntriesRead files entries.now reads.items
            → IfOk result (λ loaded. LoadAll files entries.now nothing (read_of loaded)) }
        ensures fault { (files : Option (List NamedFile)) → AreEntriesRead files entries.now reads.items → IfErr result (IsFaultIn files entries.now) }
        // All is put together only where no entry's files are refused, and the fault is that of the first whose are.
        ensures whole { OnOk result (first_refused entries.now reads.items ≡ None) }
        ensures first { IfErr result (λ fault. fault ≢ ServeFault.NoMemory → first_refused entries.now reads.items ≡ Some fault) }
    {
        let mut loaded = Loaded {
            tables: Vec::new(alloc),
            scripts: Vec::new(alloc),
        };
        let mut names = Names::new(alloc);
        let mut index = 0;
        for read in reads {
            add_read(alloc, &mut loaded, &mut names, &entries[index], read)?;
            index += 1;
        }
        Ok(loaded)
    }
}
