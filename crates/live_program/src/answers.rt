//! The stations' answers, from the journal of a day.
#![tactic(auto, using(byte_io::specs::Laws::Sinks::sinks))]

ghost use Rattle.std.specs.Prelude.{◌≡◌, ◌++◌, OnOk, IfErr, IfOk};
ghost use Rattle.std.specs.List.{AllByRecursion};
ghost use Rattle.byte_io.specs.Sink.{grown};
ghost use Rattle.folders.specs.Files.{listing, IsOfBytes};
ghost use Rattle.office_run.specs.Closing.{answer_name as name_of_answers};
ghost use Rattle.live_program.specs.Failures.{IsAnswerName, IsFileUnwritten};
ghost use Rattle.live_program.specs.Closings.{answer_files_of, answers_in, own_line, file_of_bytes};

use byte_io::{Bytes, SinkFault, write_all};
use catalogue_core::Entry;
use folders::Folder;
use office_run::{CloseFault, ServeFault};
use station_lines::{LF, append_answer};
use std::alloc::{AllocError, Global};

// Adds the line of an entry's answer, where the entry is the station's.
fn add_own(text: &mut Vec<u8>, entry: &Entry, station: u32) -> Result<(), AllocError>
    ensures added { OnOk result (text.new.items ≡ text.old.items ++ own_line station entry.now) }
{
    if entry.station != station {
        return Ok(());
    }
    append_answer(text, &entry.answer)?;
    text.push(LF)?;
    Ok(())
}

// The lines of a station's answers in a journal.
fn answers_of(alloc: Global, journal: &[Entry], station: u32) -> Result<Bytes, AllocError>
    ensures value { IfOk result (λ text. text ≡ answers_in station journal.now) }
{
    let mut text = Vec::new(alloc);
    for entry in journal {
        add_own(&mut text, entry, station)?;
    }
    Ok(Bytes::from_vec(text))
}

// The name of the file of a station's answers.
fn answer_name(alloc: Global, station: u32) -> Result<Bytes, AllocError>
    ensures value { IfOk result (λ name. name ≡ name_of_answers station) }
{
    let name = format!(in alloc; "STATION{station}.TXT")?;
    Bytes::from_slice(alloc, name.as_bytes())
}

// Begins a file of a name and writes its bytes.
fn put_file<F: Folder>(folder: &mut F, name: &[u8], bytes: &[u8]) -> Result<(), SinkFault>
    ensures wrote { OnOk result (F.written folder.new ≡ grown (F.written folder.old) (listing (file_of_bytes name.now bytes.now))) }
    ensures no_failure { OnOk result (F.failures folder.new ≡ F.failures folder.old) }
    ensures bytes { OnOk result (AllByRecursion IsOfBytes (file_of_bytes name.now bytes.now)) }
{
    folder.begin(name)?;
    write_all(folder, bytes)
}

// Writes a file into a folder.
pub(crate) fn write_file<F: Folder>(
    folder: &mut F,
    name: Bytes,
    bytes: &[u8],
) -> Result<(), ServeFault>
    ensures wrote { OnOk result (F.written folder.new ≡ grown (F.written folder.old) (listing (file_of_bytes name bytes.now))) }
    ensures fault { IfErr result (IsFileUnwritten (λ unwritten. unwritten ≡ name)) }
    ensures no_failure { OnOk result (F.failures folder.new ≡ F.failures folder.old) }
    ensures bytes { OnOk result (AllByRecursion IsOfBytes (file_of_bytes name bytes.now)) }
{
    match put_file(folder, name.as_slice(), bytes) {
        Ok(()) => Ok(()),
        Err(_) => Err(ServeFault::Close(CloseFault::Write(name))),
    }
}

// Writes the file of a station's answers.
fn write_station<F: Folder>(
    alloc: Global,
    journal: &[Entry],
    station: u32,
    folder: &mut F,
) -> Result<(), ServeFault>
    ensures wrote { OnOk result (F.written folder.new
        ≡ grown (F.written folder.old) (listing (file_of_bytes (name_of_answers station) (answers_in station journal.now)))) }
    ensures fault { IfErr result (IsFileUnwritten (λ unwritten. unwritten ≡ name_of_answers station)) }
    ensures no_failure { OnOk result (F.failures folder.new ≡ F.failures folder.old) }
    ensures bytes { OnOk result (AllByRecursion IsOfBytes (file_of_bytes (name_of_answers station) (answers_in station journal.now))) }
{
    let answers = answers_of(alloc, journal, station)?;
    write_file(folder, answer_name(alloc, station)?, answers.as_slice())
}

// Writes the files of the stations' answers, from the journal of a day.
pub(crate) fn write_answers<F: Folder>(
    alloc: Global,
    journal: &[Entry],
    stations: u32,
    folder: &mut F,
) -> Result<(), ServeFault>
    ensures wrote { OnOk result (F.written folder.new ≡ grown (F.written folder.old) (listing (answer_files_of stations journal.now))) }
    ensures fault { IfErr result (IsFileUnwritten (IsAnswerName stations)) }
    ensures no_failure { OnOk result (F.failures folder.new ≡ F.failures folder.old) }
    ensures bytes { OnOk result (AllByRecursion IsOfBytes (answer_files_of stations journal.now)) }
{
    for done in 0..stations {
        write_station(alloc, journal, done + 1, folder)?;
    }
    Ok(())
}
