//! What a log says is performed once more.

ghost use Rattle.std.specs.Prelude.{◌≡◌, [], IfOk, IfErr, OnOk};
ghost use Rattle.catalogue_core.specs.Replay.{IsLegal, AreOfStations};
ghost use Rattle.station_lines.specs.JournalLines.{HaveSmallNumbers};
ghost use Rattle.live_log.specs.Gates.{log_of, StandsFor};
ghost use Rattle.live_day.specs.Days.{parts_of};
ghost use Rattle.live_day.specs.Starts.{IsLogFault};

use crate::start_fault::StartFault;
use audit::audit;
use byte_io::Bytes;
use catalogue_core::Catalogue;
use live_log::read_log;
use std::alloc::Global;

/// Performs what a log says once more, on a catalogue that was just opened, and answers the log of the same entries without what was
/// left of a group.
///
/// `Changed` where an entry does not stand in the log as it was put, and `Audit` where one does not hold on these tables: somebody has
/// changed the log or the tables. `NoMemory` where memory is refused.
#[tactic(auto, using(crate::proofs::StartLaws::unread))]
pub fn perform_again(
    alloc: Global,
    catalogue: &mut Catalogue,
    log: &[u8],
) -> Result<Bytes, StartFault>
    requires at_opening { catalogue.old.journal ≡ [] }
    ensures opened { OnOk result (catalogue.new.opened ≡ catalogue.old.opened) }
    ensures stands { OnOk result (StandsFor log.now (parts_of catalogue.new.journal)) }
    ensures whole { IfOk result (λ whole. whole ≡ log_of (parts_of catalogue.new.journal)) }
    ensures small { OnOk result (HaveSmallNumbers (parts_of catalogue.new.journal)) }
    ensures legal { OnOk result (IsLegal catalogue.new.opened catalogue.new.journal) }
    ensures of_stations { OnOk result (AreOfStations catalogue.new.opened catalogue.new.journal) }
    // Of a log that stands for entries which hold on these tables none is refused.
    ensures refused { IfErr result (IsLogFault catalogue.old.opened log.now) }
{
    // For contracts alone: a station's number is one of 32 bits.
    let _ = catalogue.station_count();
    let text = read_log(alloc, log)?;
    audit(alloc, catalogue, text.journal.as_slice())?;
    Ok(text.whole)
}
