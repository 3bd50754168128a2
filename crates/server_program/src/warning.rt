//! What is said of the files of a setup before a run: which stay as they are, and which others are replaced.

ghost use Rattle.std.specs.Prelude.{◌≡◌, IfErr, OnOk};
ghost use Rattle.office_run.specs.Loading.{IsFailure};
ghost use Rattle.office_run.specs.WholeRun.{IsReadFault};

use crate::kept::print_kept;
use crate::replaced::warn_of_replaced_files;
use byte_io::Bytes;
use folders::Source;
use kept_files::{KeptFile, kept_file, kept_memo_file};
use office_run::{ServeFault, read_setup};
use program_frame::System;
use std::alloc::Global;
use std::io::Write;

// Says of a file that it stays as it is, where new files go into its folder. A stream that takes no text changes nothing.
fn warn_of<Y: System, E: Write>(
    system: &Y,
    alloc: Global,
    err: &mut E,
    out: &str,
    file: Option<KeptFile<'_>>,
) {
    if let Some(file) = file {
        if let Ok(true) = system.lies_in(alloc, file.path.as_slice(), out) {
            let _ = print_kept(err, file);
        }
    }
}

/// Says on `err` which files of the setup of a path stay as they are, where new files go into the folder `out`, and which files that are
/// not read are replaced there.
pub(crate) fn warn_of_files<Y: System, S: Source, E: Write>(
    system: &Y,
    alloc: Global,
    setup: &Bytes,
    source: &mut S,
    out: &str,
    err: &mut E,
) -> Result<(), ServeFault>
    ensures kept { S.files source.new ≡ S.files source.old }
    ensures fault { IfErr result (IsReadFault (S.files source.old) setup.now) }
    ensures loads { OnOk result (S.failures source.new ≡ S.failures source.old) }
    ensures failure { IfErr result (IsFailure (S.files source.old) (S.failures source.old) (S.failures source.new)) }
{
    let entries = read_setup(alloc, source, setup)?;
    for entry in &entries {
        warn_of(system, alloc, err, out, kept_file(entry));
        warn_of(system, alloc, err, out, kept_memo_file(entry));
    }
    warn_of_replaced_files(system, alloc, &entries, out, err)?;
    Ok(())
}
