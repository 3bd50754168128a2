//! Which files of a setup stay as they are, where the new ones have other names.

ghost use Rattle.std.specs.Prelude.{◌≡◌, List, Ok, IfErr, IfOk, OnOk};
ghost use Rattle.std.specs.Io.KnownBytes.{Appends};
ghost use Rattle.office_run.specs.WholeRun.{IsReadFault, IsSaid};
ghost use Rattle.setup_check.specs.KeptLines.{kept_lines};
ghost use Rattle.live_program.specs.Sayings.{IsKeptText, IsSaidOf};
ghost use Rattle.station_lines.specs.declared.setup.entry.SetupEntry.{SetupEntry as Entry};

use crate::printing::print_bytes;
use byte_io::Bytes;
use folders::Source;
use office_run::{ServeFault, read_setup};
use setup_check::kept_files_text;
use std::alloc::Global;
use std::io;
use std::io::Write;

/// Says which files of the setup of a path stay as they are where new files go into their folder: the next day reads them again.
///
/// `Ok` has what printing has answered. An error is that of reading the setup, or that memory was refused.
#[tactic(auto, using(crate::proofs::SayingLaws::nothing_said, crate::proofs::SayingLaws::first_said))]
pub(crate) fn warn_of_kept_files<S: Source, E: Write>(
    alloc: Global,
    setup: &Bytes,
    source: &mut S,
    err: &mut E,
) -> Result<io::Result<()>, ServeFault>
    ensures text { IfOk result (λ printed. (entries : List Entry) × IsSaid (S.files source.old) setup.now (Ok entries)
        × OnOk printed (Appends (E.contents err.old) (E.contents err.new) (kept_lines entries))) }
    ensures said { IsSaidOf (IsKeptText (S.files source.old) setup.now) (E.contents err.old) (E.contents err.new) }
    ensures fault { IfErr result (IsReadFault (S.files source.old) setup.now) }
    ensures kept { S.files source.new ≡ S.files source.old }
{
    let entries = read_setup(alloc, source, setup)?;
    let text = kept_files_text(alloc, &entries)?;
    Ok(print_bytes(err, text.as_slice()))
}
