//! A journal whose answers are shown.

ghost use Rattle.std.specs.Prelude.{◌≡◌, ◌≢◌, option_copied, Err, Some, IfErr, IfOk, OnOk};
ghost use Rattle.byte_io.specs.Sink.{IsFront, Rises};
ghost use Rattle.folders.specs.Files.{IsFileOf, load_refusal};
ghost use Rattle.tool_program.specs.JournalShown.{answers_refusal, station_given, AreAnswersShown, IsWhyNotLoaded, IsWhyNotShown};

use crate::asked::AnswersOptions;
use crate::range::record_number;
use byte_io::{ByteSink, Bytes, SinkFault, write_all};
use entry_text::{EntriesAsked, append_entries};
use folders::{LoadFault, Source};
use journal_file::{JournalFault, cut_journal};
use std::alloc::{AllocError, Global};

/// Why the answers of a journal were not shown.
#[derive(Clone, Copy, Debug)]
pub(crate) enum AnswersFault {
    /// The number of the station is none.
    BadStation,
    /// The journal is not loaded.
    Load(LoadFault),
    /// The file is no journal, or one that is cut.
    Journal(JournalFault),
    /// Memory was refused.
    NoMemory,
    /// The sink failed.
    Sink,
}

impl From<AllocError> for AnswersFault {
    ghost use Rattle.std.specs.Prelude.{◌≡◌};
    ghost use Rattle.tool_program.specs.declared.journal.AnswersFault.TheVariants.{NoMemory};

    ghost from_gives = { λ _ fault. fault ≡ NoMemory };

    fn from(_refused: AllocError) -> Self {
        AnswersFault::NoMemory
    }
}

impl From<SinkFault> for AnswersFault {
    ghost use Rattle.std.specs.Prelude.{◌≡◌};
    ghost use Rattle.tool_program.specs.declared.journal.AnswersFault.TheVariants.{Sink};

    ghost from_gives = { λ _ fault. fault ≡ Sink };

    fn from(_failed: SinkFault) -> Self {
        AnswersFault::Sink
    }
}

impl From<JournalFault> for AnswersFault {
    ghost use Rattle.std.specs.Prelude.{◌≡◌};
    ghost use Rattle.tool_program.specs.declared.journal.AnswersFault.TheVariants.{Journal};

    ghost from_gives = { λ why fault. fault ≡ Journal why };

    fn from(why: JournalFault) -> Self {
        AnswersFault::Journal(why)
    }
}

// The station whose number is given; all, where none is. `None` where the number is none.
fn station_of(number: Option<&str>) -> Option<Option<u32>>
    ensures value { result ≡ station_given (option_copied number.entry) }
{
    match number {
        Some(text) => match record_number(text.as_bytes()) {
            Some(station) => Some(Some(station)),
            None => None,
        },
        None => Some(None),
    }
}

// The bytes of the file of a path.
fn loaded<F: Source>(alloc: Global, source: &mut F, path: &str) -> Result<Bytes, AnswersFault>
    ensures found { IfOk result (λ bytes. IsFileOf (F.files source.old) path.now bytes) }
    ensures no_failure { OnOk result (F.failures source.new ≡ F.failures source.old) }
    ensures early { (why : LoadFault) → load_refusal (F.files source.old) path.now ≡ Some why → result ≡ Err (AnswersFault.Load why) }
    ensures fault { IfErr result (IsWhyNotLoaded (F.files source.old) (F.failures source.old) (F.failures source.new) path.now) }
    ensures kept { F.files source.new ≡ F.files source.old }
{
    match source.load(alloc, path.as_bytes()) {
        Ok(bytes) => Ok(bytes),
        Err(why) => Err(AnswersFault::Load(why)),
    }
}

/// Reads the journal of a command line, and writes a line for each entry that is asked for, with its answer, into a sink. The answer is
/// whether any of them was refused.
///
/// `BadStation` and `Journal` say why there is nothing to show, and so do `Load` and `NoMemory`: nothing was written then. After `Sink` the
/// sink has a front part of the text.
#[tactic(auto, using(byte_io::specs::Laws::Sinks::front_same))]
pub(crate) fn show_answers<F: Source, S: ByteSink>(
    alloc: Global,
    source: &mut F,
    sink: &mut S,
    options: &AnswersOptions<'_>,
) -> Result<bool, AnswersFault>
    // What was written are the lines of the entries that are asked for, of the journal that the file is.
    ensures shown { IfOk result (λ refused. AreAnswersShown (F.files source.old) options.now refused (S.written sink.old) (S.written sink.new)) }
    // The sink is said to have failed only where it has.
    ensures failed { result ≡ Err AnswersFault.Sink → Rises (S.failures sink.old) (S.failures sink.new) }
    ensures kept { IsFront (S.written sink.old) (S.written sink.new) }
    // At each other fault nothing was written.
    ensures unwritten { IfErr result (λ fault. fault ≢ AnswersFault.Sink → S.written sink.new ≡ S.written sink.old) }
    // Where the number of the station is one, and no load can give the journal, the answer is why, whether there is memory or not.
    ensures early { (why : LoadFault) → answers_refusal (F.files source.old) options.now ≡ Some why → result ≡ Err (AnswersFault.Load why) }
    // What a file that is no journal is, is told, whether there is memory for the text or not.
    ensures fault { IfErr result (IsWhyNotShown (F.files source.old) (F.failures source.old) (F.failures source.new) options.now) }
{
    let Some(station) = station_of(options.station) else {
        return Err(AnswersFault::BadStation);
    };
    let journal = loaded(alloc, source, options.journal)?;
    let parts = cut_journal(journal.as_slice())?;
    let asked = EntriesAsked {
        station,
        refused_only: options.refused_only,
    };
    let mut text = Vec::new(alloc);
    let counts = append_entries(alloc, &mut text, parts.entries, parts.count, asked)?;
    write_all(sink, &text)?;
    Ok(counts.refused > 0)
}
