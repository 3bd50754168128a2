//! Opening what a setup names, without a run.

ghost use Rattle.std.specs.Prelude.{◌≡◌, [], IfOk, IfErr, OnOk};
ghost use Rattle.office_run.specs.Loading.{read_of, IsFailure};
ghost use Rattle.office_run.specs.OpenedSetup.{IsOpenedFrom, IsOpenFault, IsOpenedBy, IsUnopened};

use crate::fault::ServeFault;
use crate::loaded::Loaded;
use crate::run::read_all;
use byte_io::Bytes;
use catalogue_core::{Catalogue, OpenFault};
use folders::Source;
use journal_file::ReadSums;
use std::alloc::Global;

/// Opens the tables that were read for a station a script, as [`serve`] does: `Refused` says why they are not opened together,
/// and `NoMemory` that memory was refused.
///
/// [`serve`]: crate::serve
pub fn open_loaded(alloc: Global, loaded: Loaded, reindex: bool) -> Result<Catalogue, ServeFault>
    ensures opened { IfOk result (λ catalogue. IsOpenedFrom reindex (read_of loaded) catalogue.opened) }
    ensures empty { IfOk result (λ catalogue. catalogue.journal ≡ []) }
    ensures fault { IfErr result (IsOpenFault reindex (read_of loaded)) }
{
    let Loaded { tables, scripts } = loaded;
    let Ok(stations) = u32::try_from(scripts.len()) else {
        return Err(ServeFault::Refused(OpenFault::TooManyStations));
    };
    Ok(Catalogue::open(alloc, tables, stations, reindex)?)
}

/// Reads the setup of a path and the files that it names, and opens the tables for a station a script, as [`serve`] does,
/// and nothing is run. The faults come in the order of [`ServeFault`].
///
/// [`serve`]: crate::serve
pub fn open_setup<S: Source>(
    alloc: Global,
    setup: &Bytes,
    reindex: bool,
    source: &mut S,
) -> Result<Catalogue, ServeFault>
    ensures opened { IfOk result (λ catalogue. IsOpenedBy (S.files source.old) setup.now reindex catalogue.opened) }
    ensures empty { IfOk result (λ catalogue. catalogue.journal ≡ []) }
    ensures fault { IfErr result (IsUnopened (S.files source.old) setup.now reindex) }
    ensures kept { S.files source.new ≡ S.files source.old }
    ensures loads { OnOk result (S.failures source.new ≡ S.failures source.old) }
    ensures failure { IfErr result (IsFailure (S.files source.old) (S.failures source.old) (S.failures source.new)) }
{
    let loaded = read_all(alloc, source, setup, &mut ReadSums::unwanted(alloc))?;
    Ok(open_loaded(alloc, loaded, reindex)?)
}
