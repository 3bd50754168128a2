//! The journal's file, written entry by entry.
#![tactic(auto, using(byte_io::specs::Laws::Sinks::sinks))]

ghost use Rattle.std.specs.Prelude.{◌≡◌, ◌∷◌, [], ℕ, List, map, Err, true, OnOk, OnErr, IfOk, IfErr};
ghost use Rattle.std.specs.List.{list_all};
ghost use Rattle.byte_io.specs.Output.{Puts};
ghost use Rattle.byte_io.specs.Sink.{grown, is_byte, IsFront, Rises};
ghost use Rattle.folders.specs.Files.{IsOfBytes, listing};
ghost use Rattle.station_lines.specs.JournalLines.{line_parts, journal_text, HaveSmallNumbers};
ghost use Rattle.office_run.specs.JournalFile.{journal_name as journal_name_of, journal_file, journal_under, parts_text, HaveSmallEntries, PutsFront, IsJournalFault};

use crate::close_fault::CloseFault;
use crate::fault::ServeFault;
use byte_io::{ByteSink, Bytes, SinkFault, SinkWriter};
use catalogue_core::Entry;
use folders::Folder;
use station_lines::EntryLine;
use std::alloc::{AllocError, Global};

/// The text of a journal's file, in parts.
#[derive(Clone, Copy)]
pub(crate) struct JournalText<'a> {
    /// The lines before those of the entries.
    pub head: &'a [u8],
    /// The entries, whose lines are made as they are put.
    pub entries: &'a [Entry],
    /// The lines after them.
    pub tail: &'a [u8],
}

// Why the journal's lines were not written, or not all.
#[derive(Clone, Copy, Debug, PartialEq, Eq)]
enum LinesFault {
    // The sink failed.
    Sink,
    // Memory was refused.
    NoMemory,
}

impl From<AllocError> for LinesFault {
    ghost use Rattle.std.specs.Prelude.{◌≡◌};
    ghost use Rattle.office_run.specs.declared.journal.LinesFault.TheVariants.{NoMemory};

    ghost from_gives = { λ _ fault. fault ≡ NoMemory };

    fn from(_refused: AllocError) -> LinesFault {
        LinesFault::NoMemory
    }
}

impl From<SinkFault> for LinesFault {
    ghost use Rattle.std.specs.Prelude.{◌≡◌};
    ghost use Rattle.office_run.specs.declared.journal.LinesFault.TheVariants.{Sink};

    ghost from_gives = { λ _ fault. fault ≡ Sink };

    fn from(_failed: SinkFault) -> LinesFault {
        LinesFault::Sink
    }
}

// Puts the lines of the journal's entries, in its order. An `Err` says that there was no memory: those before were put.
fn put_lines<S: ByteSink>(
    alloc: Global,
    out: &mut SinkWriter<'_, S>,
    journal: &[Entry],
) -> Result<(), AllocError>
    ensures put { OnOk result (Puts out.old (journal_text journal.now) out.new) }
    // A line was made of each entry, so its numbers are of 64 bits.
    ensures small { OnOk result (HaveSmallNumbers (map line_parts journal.now)) }
    ensures front { PutsFront out.old (journal_text journal.now) out.new }
{
    let mut line = EntryLine::new(alloc);
    for entry in journal {
        let text = line.of(entry.station, &entry.command, &entry.answer)?;
        out.put(text);
    }
    Ok(())
}

// Puts the journal's text. An `Err` says that there was no memory: a front part of it was put.
fn put_text<S: ByteSink>(
    alloc: Global,
    out: &mut SinkWriter<'_, S>,
    text: &JournalText<'_>,
) -> Result<(), AllocError>
    ensures put { OnOk result (Puts out.old (parts_text text.now) out.new) }
    ensures small { OnOk result (HaveSmallEntries text.now) }
    ensures front { PutsFront out.old (parts_text text.now) out.new }
{
    out.put(text.head);
    put_lines(alloc, out, text.entries)?;
    out.put(text.tail);
    Ok(())
}

// Writes the journal's text into a sink. It stays a function of its own, so that a run without a journal has no room on the stack for
// what the writer keeps back.
#[inline(never)]
fn write_text<S: ByteSink>(
    alloc: Global,
    sink: &mut S,
    text: &JournalText<'_>,
) -> Result<(), LinesFault>
    ensures small { OnOk result (HaveSmallEntries text.now) }
    ensures wrote { OnOk result (S.written sink.new ≡ grown (S.written sink.old) (parts_text text.now)) }
    ensures no_failure { OnOk result (S.failures sink.new ≡ S.failures sink.old) }
    ensures failed { result ≡ Err LinesFault.Sink → Rises (S.failures sink.old) (S.failures sink.new) }
    ensures unfailed { result ≡ Err LinesFault.NoMemory → S.failures sink.new ≡ S.failures sink.old }
    ensures kept { IsFront (S.written sink.old) (S.written sink.new) }
    ensures front { OnErr result (IsFront (S.written sink.new) (grown (S.written sink.old) (parts_text text.now))) }
    ensures bytes { OnOk result (list_all is_byte (parts_text text.now) ≡ true) }
{
    let mut out = SinkWriter::new(sink);
    let put = put_text(alloc, &mut out, text);
    out.flush()?;
    put?;
    Ok(())
}

// Begins a file of this name, and writes the journal into it.
fn write_file<F: Folder>(
    alloc: Global,
    folder: &mut F,
    name: &[u8],
    text: &JournalText<'_>,
) -> Result<(), LinesFault>
    ensures small { OnOk result (HaveSmallEntries text.now) }
    ensures wrote { OnOk result (F.written folder.new ≡ grown (F.written folder.old) (listing (journal_under name.now (parts_text text.now) ∷ []))) }
    ensures no_failure { OnOk result (F.failures folder.new ≡ F.failures folder.old) }
    ensures failed { result ≡ Err LinesFault.Sink → Rises (F.failures folder.old) (F.failures folder.new) }
    ensures unfailed { result ≡ Err LinesFault.NoMemory → F.failures folder.new ≡ F.failures folder.old }
    ensures kept { IsFront (F.written folder.old) (F.written folder.new) }
    ensures front { OnErr result (IsFront (F.written folder.new) (grown (F.written folder.old) (listing (journal_under name.now (parts_text text.now) ∷ [])))) }
    ensures bytes { OnOk result (IsOfBytes (journal_under name.now (parts_text text.now))) }
{
    folder.begin(name)?;
    write_text(alloc, folder, text)
}

/// The name of the journal's file.
pub(crate) fn journal_name(alloc: Global) -> Result<Bytes, AllocError>
    ensures value { IfOk result (λ name. name ≡ journal_name_of) }
{
    Bytes::from_slice(alloc, b"JOURNAL.TXT")
}

/// Writes the journal's file into the folder: JOURNAL.TXT. The text of its entries is never whole in memory.
///
/// `Close(Write(JOURNAL.TXT))` says that the folder failed, and `NoMemory` that memory was refused; a front part of the file
/// is written then, or the file is not begun.
pub(crate) fn write_journal<F: Folder>(
    alloc: Global,
    text: &JournalText<'_>,
    folder: &mut F,
) -> Result<(), ServeFault>
    ensures small { OnOk result (HaveSmallEntries text.now) }
    ensures wrote { OnOk result (F.written folder.new ≡ grown (F.written folder.old) (listing (journal_file (parts_text text.now) ∷ []))) }
    ensures no_failure { OnOk result (F.failures folder.new ≡ F.failures folder.old) }
    ensures fault { IfErr result IsJournalFault }
    ensures failed { (name : List ℕ) → result ≡ Err (ServeFault.Close (CloseFault.Write name)) → Rises (F.failures folder.old) (F.failures folder.new) }
    ensures unfailed { result ≡ Err ServeFault.NoMemory → F.failures folder.new ≡ F.failures folder.old }
    ensures kept { IsFront (F.written folder.old) (F.written folder.new) }
    ensures front { OnErr result (IsFront (F.written folder.new) (grown (F.written folder.old) (listing (journal_file (parts_text text.now) ∷ [])))) }
    ensures bytes { OnOk result (IsOfBytes (journal_file (parts_text text.now))) }
{
    let name = journal_name(alloc)?;
    match write_file(alloc, folder, name.as_slice(), text) {
        Ok(()) => Ok(()),
        Err(LinesFault::Sink) => Err(ServeFault::Close(CloseFault::Write(name))),
        Err(LinesFault::NoMemory) => Err(ServeFault::NoMemory),
    }
}
