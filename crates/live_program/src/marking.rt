//! Days of others that are open where a day reads.

ghost use Rattle.std.specs.Prelude.{◌≡◌, ◌⊎◌, true, false, IfErr, IfOk, IsErr, IsErrOf, OnOk};
ghost use Rattle.files_in_place.specs.Disk.{LeavesOnly, OnlyReads};
ghost use Rattle.files_in_place.specs.Folder.{recovered};
ghost use Rattle.files_in_place.specs.Recovery.{OthersAreWhole};
ghost use Rattle.open_day.specs.OpenDay.{mark_name};
ghost use Rattle.program_frame.specs.InputDays.{IsMarkAt};
ghost use Rattle.program_frame.specs.Jobs.{IsUnrecovered};
ghost use Rattle.program_frame.specs.Placing.{IsRecovered, RecoversAsOneOf};
ghost use Rattle.live_program.specs.Endings.{no_memory};
ghost use Rattle.live_program.specs.Marks.{AreMarked};
ghost use Rattle.live_program.specs.OtherDays.{of_serving, others_answer, HasDayElsewhere, HasNoOtherDay, HasOtherDay, IsOtherRefusal};

use crate::failure::LiveFailure;
use crate::lived::Lived;
use crate::marks::{Marks, put_marks};
use crate::options::Options;
use crate::places::Places;
use byte_io::Bytes;
use files_in_place::Disk;
use folders::{LoadFault, Source};
use office_run::ServeFault;
use program_frame::{
    Beside, Failure, FolderFault, InPlace, recover_in_place, refuse_marked_day, refuse_open_inputs,
};
use std::alloc::Global;

/// What lies beside the files that a day reads, but for the folder of its own log: there it goes on with the day that is open.
#[derive(Drop)]
pub(crate) struct OtherFolders<'a, B: Beside> {
    pub(crate) beside: &'a B,
    pub(crate) out: &'a str,
}

/// The folder of a day's log before the day begins, and the marks in the others from which it reads.
#[derive(Drop)]
pub(crate) struct Alone<D: Disk + Drop> {
    pub(crate) disk: D,
    pub(crate) marks: Marks,
}

impl<'a, B: Beside> Beside for OtherFolders<'a, B> {
    ghost use Rattle.live_program.specs.OtherDays.{others_answer};

    ghost answers = { λ others. others_answer (B.answers others.beside.now) (B.lies others.beside.now) others.out.now };

    ghost lies = { λ others. B.lies others.beside.now };

    fn read_if_there(&self, alloc: Global, path: &[u8]) -> Result<Option<Bytes>, LoadFault> {
        if self.beside.lies_in(alloc, path, self.out)? {
            return Ok(None);
        }
        self.beside.read_if_there(alloc, path)
    }

    fn lies_in(&self, alloc: Global, path: &[u8], folder: &str) -> Result<bool, LoadFault> {
        self.beside.lies_in(alloc, path, folder)
    }
}

// What is said of a day where the setup's files are not read for this.
fn refused(why: Failure<ServeFault>) -> Failure<LiveFailure>
    ensures value { result ≡ of_serving why }
{
    match why {
        Failure::BadDate => Failure::BadDate,
        Failure::Work(fault) => Failure::Work(LiveFailure::Serve(fault)),
        Failure::Folder(fault) => Failure::Folder(fault),
    }
}

// Refuses a day where another is open in a folder from which it reads: in that of its setup, or of a table, a memo file or an index
// that the setup names; or where that isn't known. The folder of the day's own log is none of these.
fn refuse_other_days<S: Source, B: Beside>(
    alloc: Global,
    options: &Options<'_>,
    source: &mut S,
    beside: &B,
) -> Result<(), Failure<LiveFailure>>
    ensures closed { OnOk result (HasNoOtherDay (B.answers beside.now) (B.lies beside.now) (S.files source.old) options.now) }
    ensures open { IsErrOf result (Failure.Folder FolderFault.DayOpen) → HasOtherDay (B.answers beside.now) (B.lies beside.now) (S.files source.old) options.now }
    ensures refused { IfErr result (IsOtherRefusal (S.files source.old) options.now) }
    ensures kept { S.files source.new ≡ S.files source.old }
{
    let others = OtherFolders {
        beside,
        out: options.out,
    };
    match refuse_open_inputs(&others, alloc, source, options.setup) {
        Ok(()) => Ok(()),
        Err(why) => Err(refused(why)),
    }
}

// Refuses a day where another is open in the folder of its log, by the log that the mark there names, or in a folder from which it reads;
// and gives each of these its own mark.
fn mark_alone<S: Source, Y: Places, D: Disk>(
    alloc: Global,
    options: &Options<'_>,
    source: &mut S,
    places: &Y,
    disk: &mut D,
) -> Result<Marks, Failure<LiveFailure>>
    ensures closed { OnOk result (HasNoOtherDay (Y.answers places.now) (Y.lies places.now) (S.files source.old) options.now) }
    ensures unmarked { D.meaning.keeps_promises → OnOk result (IsMarkAt (others_answer (Y.answers places.now) (Y.lies places.now) options.now.out.now)
        (D.meaning.seen disk.old mark_name) false) }
    ensures marked { OnOk result (AreMarked Y.Disk.meaning (Y.answers places.now) (Y.lies places.now) (Y.opens places.now) (Y.names_log places.now)
        (S.files source.old) options.now) }
    // That a day is open is said only where it is.
    ensures open_day { IsErrOf result (Failure.Folder FolderFault.DayOpen)
        → HasDayElsewhere Y.Disk.meaning (Y.opens places.now) (Y.answers places.now) (Y.lies places.now) (S.files source.old) options.now
        ⊎ (D.meaning.keeps_promises → IsMarkAt (others_answer (Y.answers places.now) (Y.lies places.now) options.now.out.now) (D.meaning.seen disk.old mark_name) true) }
    ensures refused { IfErr result (IsOtherRefusal (S.files source.old) options.now) }
    ensures kept { S.files source.new ≡ S.files source.old }
    ensures only { OnlyReads D.meaning disk.old disk.new }
{
    let others = OtherFolders {
        beside: places,
        out: options.out,
    };
    match refuse_marked_day(alloc, &others, disk) {
        Ok(()) => {}
        Err(why) => return Err(why),
    }
    refuse_other_days(alloc, options, source, places)?;
    put_marks(alloc, options, source, places)
}

/// Brings to its end what an earlier run left in the folder of a day's log, and hands out the disk where no other day is open in a folder
/// from which this one reads, and each of these has its mark. An `Err` says how the day ends that was not begun.
pub(crate) fn begin_alone<S: Source, Y: Places, D: Disk + Drop>(
    alloc: Global,
    options: &Options<'_>,
    source: &mut S,
    places: &Y,
    disk: D,
) -> Result<Alone<D>, InPlace<Lived, LiveFailure, D>>
    // Of the files that recovery leaves alone, all bytes are on the disk.
    requires on_disk { D.meaning.keeps_promises → OthersAreWhole (D.meaning.seen disk) (D.meaning.is_whole disk) }
    ensures recovered { IfOk result (λ alone. D.meaning.keeps_promises → IsRecovered D.meaning disk alone.disk) }
    ensures closed { OnOk result (HasNoOtherDay (Y.answers places.now) (Y.lies places.now) (S.files source.old) options.now) }
    // Nor where the mark in the folder of its log names the log of another day that is open.
    ensures unmarked { D.meaning.keeps_promises → OnOk result (IsMarkAt (others_answer (Y.answers places.now) (Y.lies places.now) options.now.out.now)
        (recovered (D.meaning.seen disk) mark_name) false) }
    ensures marked { OnOk result (AreMarked Y.Disk.meaning (Y.answers places.now) (Y.lies places.now) (Y.opens places.now) (Y.names_log places.now)
        (S.files source.old) options.now) }
    ensures refused { IfErr result (λ refused. IsErr refused.ended) }
    ensures unbegun { IfErr result (λ refused. IfErr refused.ended (λ why. IsUnrecovered no_memory why ⊎ IsOtherRefusal (S.files source.old) options.now why)) }
    ensures old_files { IfErr result (λ refused. D.meaning.keeps_promises → LeavesOnly D.meaning disk refused.disk (RecoversAsOneOf (D.meaning.may_leave disk))) }
    ensures open_day { IfErr result (λ refused. IsErrOf refused.ended (Failure.Folder FolderFault.DayOpen)
        → HasDayElsewhere Y.Disk.meaning (Y.opens places.now) (Y.answers places.now) (Y.lies places.now) (S.files source.old) options.now
        ⊎ (D.meaning.keeps_promises → IsMarkAt (others_answer (Y.answers places.now) (Y.lies places.now) options.now.out.now)
        (recovered (D.meaning.seen disk) mark_name) true)) }
    ensures kept { S.files source.new ≡ S.files source.old }
{
    let mut disk = match recover_in_place::<Lived, LiveFailure, D>(alloc, disk) {
        Ok(disk) => disk,
        Err(refused) => return Err(refused),
    };
    match mark_alone(alloc, options, source, places, &mut disk) {
        Ok(marks) => Ok(Alone { disk, marks }),
        Err(why) => Err(InPlace {
            ended: Err(why),
            disk,
        }),
    }
}
