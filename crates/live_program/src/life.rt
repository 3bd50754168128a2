//! A life of the program: from the folder of its log to the day's end.

ghost use Rattle.std.specs.Prelude.{◌≡◌, ◌≢◌, ◌⊎◌, ◌≤◌, ◌<◌, ◌^◌, ◌++◌, [], true, false, length, Err, IfErr, IfOk, IsErr, IsErrOf, OnErr, OnOk};
ghost use Rattle.catalogue_core.specs.Replay.{AreOfStations, IsLegal};
ghost use Rattle.files_in_place.specs.Disk.{IsSyncedDisk, LeavesOnly};
ghost use Rattle.files_in_place.specs.Folder.{Name, is_reserved, recovered};
ghost use Rattle.files_in_place.specs.Recovery.{IsClean, OthersAreWhole};
ghost use Rattle.station_lines.specs.JournalLines.{HaveSmallNumbers};
ghost use Rattle.live_log.specs.Gates.{log_of};
ghost use Rattle.live_log.specs.Placing.{IsOldOrPlacedWith};
ghost use Rattle.live_day.specs.Days.{parts_of, IsLogged};
ghost use Rattle.live_day.specs.Faults.{IsDayFault};
ghost use Rattle.live_day.specs.Typing.{CanReadNoMore, HasTyped, HasTypedFirst, IsAllTyped};
ghost use Rattle.live_program.specs.Closings.{IsDayPlaced, IsOldOrDay};
ghost use Rattle.open_day.specs.OpenDay.{log_name, mark_name};
ghost use Rattle.live_program.specs.Endings.{unplaced_log};
ghost use Rattle.live_program.specs.Failures.{IsLifeFailure, IsLogUnplaced, IsOfStart, IsUnclosed, IsUnendedFrom, IsUnstarted};
ghost use Rattle.live_program.specs.Openings.{AreTablesOpened};
ghost use Rattle.live_program.specs.declared.failure.LiveFailure.{LiveFailure as Why};
ghost use Rattle.live_program.specs.Lives.{EndsDay, IsFound, IsLife, IsUnbegunDay};
ghost use Rattle.live_program.specs.Consoles.{AppendsFront};
ghost use Rattle.live_program.specs.Marks.{AreMarked};
ghost use Rattle.program_frame.specs.InputDays.{IsMarkAt};
ghost use Rattle.live_program.specs.Greetings.{start_text as text_of_start};
ghost use Rattle.live_program.specs.OtherDays.{others_answer, HasDayElsewhere, HasNoOtherDay};
ghost use Rattle.live_program.specs.Sayings.{HasSaidAtStart, HasToldFound, IsKeptText, IsSaidOf};

use crate::closing::{DayEnd, close_day, log_file_name};
use crate::failure::LiveFailure;
use crate::greeting::start_text;
use crate::head::{behind_head, head_text, join};
use crate::lived::Lived;
use crate::marking::{Alone, begin_alone};
use crate::marks::end_marks;
use crate::opening::open_tables;
use crate::options::Options;
use crate::places::Places;
use crate::printing::print_bytes;
use crate::warning::warn_of_kept_files;
use byte_io::Bytes;
use catalogue_core::Catalogue;
use disk_in_place::DiskInPlace;
use files_in_place::{FileSet, SetFault};
use folders::Source;
use live_day::{Day, Keyboard, Screen, perform_again, run_day, start_day};
use live_log::find_log;
use office_run::ServeFault;
use open_day::LOG_NAME;
use program_frame::{Failure, FolderFault, InPlace};
use std::alloc::Global;
use std::io::Write;

// The tables after all entries of a log, its head, the log of these entries behind it, what there is to say of it, and how many commands the
// day had that was closed before.
#[derive(Drop)]
struct Found {
    catalogue: Catalogue,
    head: Bytes,
    log: Bytes,
    name: Bytes,
    said: Bytes,
    earlier: u64,
}

// A day that has begun, and how many commands the one had that was closed before.
#[derive(Drop)]
struct Begun<D: DiskInPlace + Drop> {
    day: Day<D>,
    earlier: u64,
}

// Opens the tables, and performs the log of an earlier life once more on them, if it began with the files that were read. What there is to
// say of the setup is printed.
#[tactic(auto, using(files_in_place::proofs::Settling::leaves_same, crate::proofs::SayingLaws::nothing_said))]
fn find_day<S: Source, D: DiskInPlace + Drop, E: Write>(
    alloc: Global,
    options: &Options<'_>,
    source: &mut S,
    disk: &mut D,
    err: &mut E,
) -> Result<Found, LiveFailure>
    requires synced { D.meaning.keeps_promises → IsSyncedDisk D.meaning disk.old }
    requires clean { D.meaning.keeps_promises → IsClean (D.meaning.seen disk.old) }
    ensures synced { D.meaning.keeps_promises → OnOk result (IsSyncedDisk D.meaning disk.new) }
    ensures clean { D.meaning.keeps_promises → OnOk result (IsClean (D.meaning.seen disk.new)) }
    ensures found { D.meaning.keeps_promises
        → IfOk result (λ found. IsFound (S.files source.old) options.now (D.meaning.seen disk.old) found.head found.catalogue found.earlier) }
    ensures tables { IfOk result (λ found. AreTablesOpened (S.files source.old) options.now.setup.now options.now.reindex found.catalogue.opened) }
    ensures log { IfOk result (λ found. found.log ≡ found.head ++ log_of (parts_of found.catalogue.journal)) }
    ensures short { IfOk result (λ found. length found.head < 2 ^ 63) }
    ensures name { IfOk result (λ found. found.name ≡ log_name) }
    ensures small { IfOk result (λ found. HaveSmallNumbers (parts_of found.catalogue.journal)) }
    ensures stations { IfOk result (λ found. 1 ≤ found.catalogue.opened.stations) }
    ensures fault { IfErr result (IsUnstarted D.meaning (D.meaning.seen disk.old) (S.files source.old) options.now) }
    ensures warned { IsSaidOf (IsKeptText (S.files source.old) options.now.setup.now) (E.contents err.old) (E.contents err.new) }
    ensures said { IfOk result (λ found. found.said ≡ text_of_start found.earlier found.catalogue.opened.stations found.catalogue.journal) }
    ensures kept { S.files source.new ≡ S.files source.old }
    ensures seen { D.meaning.seen disk.new ≡ D.meaning.seen disk.old }
    ensures any_moment { LeavesOnly D.meaning disk.old disk.new (D.meaning.may_leave disk.old) }
{
    let setup = Bytes::from_slice(alloc, options.setup.as_bytes())?;
    let name = log_file_name(alloc)?;
    let _ = warn_of_kept_files(alloc, &setup, source, err)?;
    let opened = open_tables(alloc, &setup, options.reindex, source)?;
    let mut catalogue = opened.catalogue;
    let read = opened.read;
    let found = find_log(alloc, disk, LOG_NAME)?;
    let told = behind_head(alloc, found.as_slice(), &read, options.reindex)?;
    let earlier = told.earlier;
    let whole = perform_again(alloc, &mut catalogue, told.body)?;
    let head = head_text(alloc, &read, options.reindex, earlier)?;
    let log = join(alloc, head.as_slice(), whole.as_slice())?;
    let said = start_text(alloc, &catalogue, earlier)?;
    Ok(Found {
        catalogue,
        head,
        log,
        name,
        said,
        earlier,
    })
}

// Why a day was not begun, where the log has not got its place.
fn unstarted(fault: SetFault) -> LiveFailure
    ensures value { result ≡ unplaced_log fault }
{
    match fault {
        SetFault::NoMemory => LiveFailure::Serve(ServeFault::NoMemory),
        _ => LiveFailure::Unstarted,
    }
}

// A life that ended for this.
fn failed<D: DiskInPlace + Drop>(why: LiveFailure, disk: D) -> InPlace<Lived, LiveFailure, D>
    ensures ended { result.ended ≡ Err (Failure.Work why) }
    ensures disk { result.disk ≡ disk }
{
    InPlace {
        ended: Err(Failure::Work(why)),
        disk,
    }
}

// Begins a day on what was found. What there is to say of the log is printed once it has its place, and all of it is on the disk.
#[tactic(auto, using(crate::proofs::PrintingLaws::no_front))]
fn begin_found<D: DiskInPlace + Drop, E: Write>(
    alloc: Global,
    found: Found,
    disk: D,
    err: &mut E,
) -> Result<Begun<D>, InPlace<Lived, LiveFailure, D>>
    requires synced { D.meaning.keeps_promises → IsSyncedDisk D.meaning disk }
    requires clean { D.meaning.keeps_promises → IsClean (D.meaning.seen disk) }
    requires log { found.log ≡ found.head ++ log_of (parts_of found.catalogue.journal) }
    requires short { length found.head < 2 ^ 63 }
    requires name { found.name ≡ log_name }
    requires small { HaveSmallNumbers (parts_of found.catalogue.journal) }
    ensures history { IfOk result (λ begun. begun.day.history ≡ found.catalogue) }
    ensures earlier { IfOk result (λ begun. begun.earlier ≡ found.earlier) }
    ensures head { IfOk result (λ begun. begun.day.log.head ≡ found.head) }
    ensures name { IfOk result (λ begun. begun.day.log.name ≡ log_name) }
    ensures takes { IfOk result (λ begun. begun.day.takes ≡ true) }
    ensures clean { D.meaning.keeps_promises → IfOk result (λ begun. IsClean (D.meaning.seen begun.day.log.disk)) }
    ensures others { D.meaning.keeps_promises → IfOk result (λ begun. (n : Name) → is_reserved n ≡ false → n ≢ log_name
        → D.meaning.seen begun.day.log.disk n ≡ D.meaning.seen disk n) }
    ensures any_moment { D.meaning.keeps_promises → IfOk result (λ begun.
        LeavesOnly D.meaning disk begun.day.log.disk (IsOldOrPlacedWith log_name (found.head ++ log_of (parts_of found.catalogue.journal)) [] (D.meaning.seen disk))) }
    ensures refused { IfErr result (λ unbegun. IsErr unbegun.ended) }
    ensures fault { IfErr result (λ unbegun. (fault : Why) × IsLogUnplaced fault × (unbegun.ended ≡ Err (Failure.Work fault))) }
    ensures moment_of_fault { D.meaning.keeps_promises → IfErr result (λ unbegun.
        LeavesOnly D.meaning disk unbegun.disk (IsOldOrPlacedWith log_name (found.head ++ log_of (parts_of found.catalogue.journal)) [] (D.meaning.seen disk))) }
    ensures said { AppendsFront (E.contents err.old) (E.contents err.new) found.said }
    ensures unsaid { OnErr result (E.contents err.new ≡ E.contents err.old) }
{
    let Found {
        catalogue,
        head,
        log,
        name,
        said,
        earlier,
    } = found;
    match start_day(
        alloc,
        catalogue,
        FileSet::new(alloc, disk),
        name,
        head,
        log.as_slice(),
    ) {
        Ok(day) => {
            let _ = print_bytes(err, said.as_slice());
            Ok(Begun { day, earlier })
        }
        Err(stopped) => Err(failed(unstarted(stopped.fault), stopped.disk)),
    }
}

// Begins a day on the folder of a disk that has been recovered.
fn begin_day<S: Source, D: DiskInPlace + Drop, E: Write>(
    alloc: Global,
    options: &Options<'_>,
    source: &mut S,
    disk: D,
    err: &mut E,
) -> Result<Begun<D>, InPlace<Lived, LiveFailure, D>>
    requires synced { D.meaning.keeps_promises → IsSyncedDisk D.meaning disk }
    requires clean { D.meaning.keeps_promises → IsClean (D.meaning.seen disk) }
    ensures found { D.meaning.keeps_promises
        → IfOk result (λ begun. IsFound (S.files source.old) options.now (D.meaning.seen disk) begun.day.log.head begun.day.history begun.earlier) }
    ensures tables { IfOk result (λ begun. AreTablesOpened (S.files source.old) options.now.setup.now options.now.reindex begun.day.history.opened) }
    ensures name { IfOk result (λ begun. begun.day.log.name ≡ log_name) }
    ensures takes { IfOk result (λ begun. begun.day.takes ≡ true) }
    ensures stations { IfOk result (λ begun. 1 ≤ begun.day.history.opened.stations) }
    ensures clean { D.meaning.keeps_promises → IfOk result (λ begun. IsClean (D.meaning.seen begun.day.log.disk)) }
    ensures others { D.meaning.keeps_promises → IfOk result (λ begun. (n : Name) → is_reserved n ≡ false → n ≢ log_name
        → D.meaning.seen begun.day.log.disk n ≡ D.meaning.seen disk n) }
    ensures any_moment { D.meaning.keeps_promises → IfOk result (λ begun.
        LeavesOnly D.meaning disk begun.day.log.disk (IsOldOrPlacedWith log_name (begun.day.log.head ++ log_of (parts_of begun.day.history.journal)) [] (D.meaning.seen disk))) }
    ensures refused { IfErr result (λ unbegun. IsErr unbegun.ended) }
    ensures fault { IfErr result (λ unbegun. (fault : Why)
        × IsUnstarted D.meaning (D.meaning.seen disk) (S.files source.old) options.now fault × (unbegun.ended ≡ Err (Failure.Work fault))) }
    ensures unbegun { D.meaning.keeps_promises → IfErr result (λ unbegun. IsUnbegunDay D.meaning (S.files source.old) options.now disk unbegun.disk) }
    ensures said { HasSaidAtStart (S.files source.old) options.now (E.contents err.old) (E.contents err.new) }
    ensures told { D.meaning.keeps_promises → HasToldFound (S.files source.old) options.now (D.meaning.seen disk) (E.contents err.old) (E.contents err.new) }
    // Where the log has not got its place nothing is said of it.
    ensures unsaid { OnErr result (IsSaidOf (IsKeptText (S.files source.old) options.now.setup.now) (E.contents err.old) (E.contents err.new)) }
    ensures kept { S.files source.new ≡ S.files source.old }
{
    let mut disk = disk;
    match find_day(alloc, options, source, &mut disk, err) {
        Ok(found) => begin_found(alloc, found, disk, err),
        Err(why) => Err(failed(why, disk)),
    }
}

// Closes a day that takes lines still.
fn close<D: DiskInPlace + Drop>(
    alloc: Global,
    end: DayEnd,
    day: Day<D>,
) -> InPlace<Lived, LiveFailure, D>
    requires takes { day.takes ≡ true }
    ensures count { IfOk result.ended (λ lived. lived.count ≡ length day.history.journal) }
    ensures fault { IfErr result.ended (IsUnclosed day.history end.today) }
    ensures logged { D.meaning.keeps_promises → IsLogged D.meaning day }
    ensures legal { IsLegal day.history.opened day.history.journal }
    ensures of_stations { AreOfStations day.history.opened day.history.journal }
    ensures placed { D.meaning.keeps_promises → OnOk result.ended (IsDayPlaced day.history end (D.meaning.seen day.log.disk) (D.meaning.seen result.disk)) }
    ensures any_moment { D.meaning.keeps_promises → LeavesOnly D.meaning day.log.disk result.disk (IsOldOrDay day.history end (D.meaning.seen day.log.disk)) }
{
    let (catalogue, log) = day.into_parts();
    let (ended, disk) = close_day(alloc, &catalogue, end, log.into_disk());
    InPlace { ended, disk }
}

// The end of a day that was stopped: its log stands.
fn stop<D: DiskInPlace + Drop>(why: LiveFailure, day: Day<D>) -> InPlace<Lived, LiveFailure, D>
    ensures ended { result.ended ≡ Err (Failure.Work why) }
    ensures disk { result.disk ≡ day.log.disk }
    ensures legal { IsLegal day.history.opened day.history.journal }
    ensures of_stations { AreOfStations day.history.opened day.history.journal }
{
    let (_, log) = day.into_parts();
    failed(why, log.into_disk())
}

// Answers the lines of a day as they come, and closes it.
fn live_day<D: DiskInPlace + Drop, K: Keyboard, C: Screen<D>>(
    alloc: Global,
    end: DayEnd,
    day: Day<D>,
    keyboard: &mut K,
    screen: &mut C,
) -> InPlace<Lived, LiveFailure, D>
    requires takes { day.takes ≡ true }
    requires stations { 1 ≤ day.history.opened.stations }
    requires name { day.log.name ≡ log_name }
    requires clean { D.meaning.keeps_promises → IsClean (D.meaning.seen day.log.disk) }
    ensures ends { D.meaning.keeps_promises → EndsDay D.meaning (IsAllTyped (K.has_ended keyboard.new) (K.text_left keyboard.old) (K.text_left keyboard.new))
        (K.typed keyboard.old) (K.typed keyboard.new) (λ left. ⊥) day.log.head (D.meaning.seen day.log.disk) day.history end
        (C.shown screen.old) (C.shown screen.new) day.log.disk result.disk result.ended }
    ensures read { OnOk result.ended (HasTyped (K.text_left keyboard.old) (K.text_left keyboard.new) (K.typed keyboard.old) (K.typed keyboard.new)) }
    ensures typed { HasTypedFirst (K.text_left keyboard.old) (K.typed keyboard.old) (K.typed keyboard.new) }
    ensures fault { IfErr result.ended (IsUnendedFrom (IsDayFault D.meaning (C.has_failed screen.new)
        (CanReadNoMore (K.has_failed keyboard.new) (K.typed keyboard.new))) day.history.opened end.today) }
{
    let mut day = day;
    match run_day(alloc, &mut day, keyboard, screen) {
        Ok(()) => close(alloc, end, day),
        Err(fault) => stop(LiveFailure::from(fault), day),
    }
}

/// Lives a day on the folder of a disk: what an earlier run left in it is brought to its end, a day is refused where another is open in
/// a folder from which it reads, each of these folders gets its mark, which says where the log lies, the tables of the setup are opened, the
/// log is performed once more on them, lines are answered as they come, and at the end all new files take their places together with a
/// closed log; then the marks are taken away. What there is to say of the log is printed on `err`, once all of it is on the disk.
#[tactic(auto, using(crate::proofs::SayingLaws::silent_start, crate::proofs::SayingLaws::silent_found, crate::proofs::SayingLaws::nothing_said, live_day::proofs::StoppedLaws::untyped))]
pub fn live_in_place<
    S: Source,
    Y: Places,
    D: DiskInPlace + Drop,
    K: Keyboard,
    C: Screen<D>,
    E: Write,
>(
    alloc: Global,
    options: &Options<'_>,
    source: &mut S,
    places: &Y,
    disk: D,
    keyboard: &mut K,
    screen: &mut C,
    err: &mut E,
) -> InPlace<Lived, LiveFailure, D>
    // Of the files that recovery leaves alone, all bytes are on the disk.
    requires on_disk { D.meaning.keeps_promises → OthersAreWhole (D.meaning.seen disk) (D.meaning.is_whole disk) }
    // The lines are obeyed on what the log says, nothing that was shown is lost, and a crash leaves the log or the new files.
    ensures life { D.meaning.keeps_promises → IsLife D.meaning (IsAllTyped (K.has_ended keyboard.new) (K.text_left keyboard.old) (K.text_left keyboard.new))
        (K.typed keyboard.old) (K.typed keyboard.new) (S.files source.old) options.now (C.shown screen.old) (C.shown screen.new) disk result.disk result.ended }
    // These lines are the first of the text, in order; what stands after them is left.
    ensures read { OnOk result.ended (HasTyped (K.text_left keyboard.old) (K.text_left keyboard.new) (K.typed keyboard.old) (K.typed keyboard.new)) }
    // So are all that were typed, however the life ends.
    ensures typed { HasTypedFirst (K.text_left keyboard.old) (K.typed keyboard.old) (K.typed keyboard.new) }
    // It is said why: which line of the setup is bad, which file is refused, which entry of the log does not hold, what of the day failed.
    ensures fault { IfErr result.ended (IsLifeFailure D.meaning (IsDayFault D.meaning (C.has_failed screen.new)
        (CanReadNoMore (K.has_failed keyboard.new) (K.typed keyboard.new))) (S.files source.old) options.now disk) }
    // A day is lived only where no other is open in a folder from which it reads, and that one is open is said only where it is.
    ensures others { OnOk result.ended (HasNoOtherDay (Y.answers places.now) (Y.lies places.now) (S.files source.old) options.now) }
    ensures open_day { IsErrOf result.ended (Failure.Folder FolderFault.DayOpen)
        → HasDayElsewhere Y.Disk.meaning (Y.opens places.now) (Y.answers places.now) (Y.lies places.now) (S.files source.old) options.now
        ⊎ (D.meaning.keeps_promises → IsMarkAt (others_answer (Y.answers places.now) (Y.lies places.now) options.now.out.now)
        (recovered (D.meaning.seen disk) mark_name) true) }
    // Before the first answer each folder from which the day reads has its mark, but for the one of its log: however it ends, nothing was
    // shown, or all marks were put.
    ensures marked { (C.shown screen.new ≡ C.shown screen.old)
        ⊎ AreMarked Y.Disk.meaning (Y.answers places.now) (Y.lies places.now) (Y.opens places.now) (Y.names_log places.now) (S.files source.old) options.now }
    ensures marks { OnOk result.ended
        (AreMarked Y.Disk.meaning (Y.answers places.now) (Y.lies places.now) (Y.opens places.now) (Y.names_log places.now) (S.files source.old) options.now) }
    // And what was said of the setup and the log at the start.
    ensures said { HasSaidAtStart (S.files source.old) options.now (E.contents err.old) (E.contents err.new) }
    // It is said of the log that was found.
    ensures told { D.meaning.keeps_promises
        → HasToldFound (S.files source.old) options.now (recovered (D.meaning.seen disk)) (E.contents err.old) (E.contents err.new) }
    // Where the log that was found lets no day begin, or could not be read, or has not got its place, or a folder has not got its mark,
    // nothing was said of it.
    ensures unsaid { (why : Why) → IsOfStart why → result.ended ≡ Err (Failure.Work why)
        → IsSaidOf (IsKeptText (S.files source.old) options.now.setup.now) (E.contents err.old) (E.contents err.new) }
    ensures kept { S.files source.new ≡ S.files source.old }
{
    let alone = match begin_alone(alloc, options, source, places, disk) {
        Ok(alone) => alone,
        Err(refused) => return refused,
    };
    let Alone { disk, marks } = alone;
    match begin_day(alloc, options, source, disk, err) {
        Ok(begun) => {
            let end = DayEnd {
                today: options.today,
                earlier: begun.earlier,
            };
            let lived = live_day(alloc, end, begun.day, keyboard, screen);
            end_marks(alloc, places, &marks, &lived.ended);
            lived
        }
        Err(unbegun) => unbegun,
    }
}
