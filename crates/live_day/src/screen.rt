//! Where the answers of a day are shown.

ghost use Rattle.std.specs.Prelude.{◌≡◌, ◌⊎◌, ◌++◌, ◌∷◌, [], List, OnOk, OnErr};
ghost use Rattle.std.specs.List.{AllByRecursion};
ghost use Rattle.files_in_place.specs.Disk.{IsSyncedDisk};
ghost use Rattle.live_day.specs.Days.{IsLogged};
ghost use Rattle.live_day.specs.Shows.{ShownLine, shown_now, MayBeTold};
ghost use Rattle.live_day.specs.Waiting.{all_shown_after, IsWaiting, ShowsFront};

use crate::day::Day;
use crate::waiting::WaitingAnswer;
use disk_in_place::DiskInPlace;

/// The screen takes no more lines.
#[derive(Clone, Copy, Debug, PartialEq, Eq)]
pub struct ScreenFault;

/// Where the stations' answers are shown, which takes nothing back.
pub trait Screen<D: DiskInPlace + Drop> {
    // what was shown, and when
    ghost shown: { Self → List ShownLine };

    // a line may not be shown that was to be
    ghost has_failed: { Self → Type 0 };

    /// Shows a line to a station. It can only be called where the journal is on the disk, all of it: so no answer is shown that a crash
    /// takes back. At an error the line may be shown or not.
    fn show(&mut self, day: &Day<D>, station: u32, line: &[u8]) -> Result<(), ScreenFault>
        requires logged { D.meaning.keeps_promises → IsLogged D.meaning day.now }
        requires durable { D.meaning.keeps_promises → IsSyncedDisk D.meaning day.now.log.disk }
        requires told { MayBeTold day.now.history station line.now }
        ensures shown { OnOk result (shown self.new ≡ shown self.old ++ shown_now D.meaning day.now station line.now ∷ []) }
        ensures unshown { OnErr result ((shown self.new ≡ shown self.old)
            ⊎ (shown self.new ≡ shown self.old ++ shown_now D.meaning day.now station line.now ∷ [])) }
        ensures failed { OnErr result (has_failed self.new) };

    /// Shows answers that waited until their entries were on the disk, one after another: each is one of the journal's first entries, as
    /// many as it counts. At an error the first of them may be shown, and the others not.
    fn show_all(&mut self, day: &Day<D>, answers: &[WaitingAnswer]) -> Result<(), ScreenFault>
        requires logged { D.meaning.keeps_promises → IsLogged D.meaning day.now }
        requires durable { D.meaning.keeps_promises → IsSyncedDisk D.meaning day.now.log.disk }
        requires waiting { AllByRecursion (IsWaiting day.now.history) answers.now }
        ensures shown { OnOk result (shown self.new ≡ shown self.old ++ all_shown_after D.meaning day.now answers.now) }
        ensures unshown { OnErr result (ShowsFront (shown self.old) (shown self.new) (all_shown_after D.meaning day.now answers.now)) }
        ensures failed { OnErr result (has_failed self.new) };
}
