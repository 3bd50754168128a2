//! The head of a log: the files with which its day began, and the day that was closed before.

ghost use Rattle.std.specs.Prelude.{◌≡◌, ◌++◌, ◌<◌, ◌^◌, List, ℕ, Bool, length, IfErr, IfOk, OnOk};
ghost use Rattle.journal_file.specs.WholeText.{IsReadsFault};
ghost use Rattle.live_program.specs.Heads.{head_of as head_text_of, IsBehindHead, IsHeadFailure, IsHeadFault, IsPlaceIn};

use crate::failure::LiveFailure;
use byte_io::Bytes;
use journal_file::{FileSum, ReadsFault, after_reads, after_word, read_text};
use office_run::ServeFault;
use open_day::{cut_earlier, earlier_count, earlier_line, is_open};
use std::alloc::{AllocError, Global};

/// What a log tells that was found.
#[derive(Clone, Copy)]
pub(crate) struct FoundLog<'a> {
    /// How many commands the day had that was closed before.
    pub(crate) earlier: u64,
    /// What stands behind the head, or all of it where the log has none.
    pub(crate) body: &'a [u8],
}

/// One text, and another behind it. An error where memory is refused.
pub(crate) fn join(alloc: Global, front: &[u8], back: &[u8]) -> Result<Bytes, AllocError>
    ensures value { IfOk result (λ both. both ≡ front.now ++ back.now) }
    ensures short { OnOk result (length front.now < 2 ^ 63) }
{
    let mut both = Vec::from_slice(alloc, front)?;
    both.extend_from_slice(back)?;
    Ok(Bytes::from_vec(both))
}

/// The head of a day's log. An error where memory is refused.
#[tactic(auto, using(crate::proofs::HeadLaws::head_joined))]
pub(crate) fn head_text(
    alloc: Global,
    read: &[FileSum],
    reindex: bool,
    earlier: u64,
) -> Result<Bytes, AllocError>
    ensures value { IfOk result (λ head. head ≡ head_text_of read.now reindex earlier) }
{
    let reads = read_text(alloc, read, reindex)?;
    let line = earlier_line(alloc, earlier)?;
    join(alloc, reads.as_slice(), line.as_slice())
}

// Why a day does not go on with a log that begins with other files than were read.
#[tactic(auto, using(crate::proofs::HeadLaws::told_file, crate::proofs::HeadLaws::told_reindex))]
fn head_failure(alloc: Global, read: &[FileSum], fault: ReadsFault) -> LiveFailure
    requires inside { IsPlaceIn fault (length read.now) }
    ensures told { (text : List ℕ) (reindex : Bool) → IsReadsFault text read.now reindex fault → IsHeadFault text read.now reindex result }
{
    match fault {
        ReadsFault::File(place) => match read[place].path.copy(alloc) {
            Ok(path) => LiveFailure::OtherFile(path),
            Err(_) => LiveFailure::Serve(ServeFault::NoMemory),
        },
        ReadsFault::Reindex => LiveFailure::OtherReindex,
        ReadsFault::NoMemory => LiveFailure::Serve(ServeFault::NoMemory),
    }
}

/// What a log tells that was found. The log of a day that is open has a head: the lines of the files that were read, whether the indexes
/// were made anew, and of the day that was closed before; that of another day has none.
///
/// `OtherVersion` says that it does not even begin with the line of a file, or that its head has no line of the day before; for the first
/// of these no memory is taken. `OtherFile` names the first file whose line the log does not have, and `OtherReindex` says that it has
/// those of all, but says the other thing of the indexes.
#[tactic(auto, using(crate::proofs::HeadLaws::place_inside, crate::proofs::HeadLaws::behind_none, crate::proofs::HeadLaws::behind_all, crate::proofs::HeadLaws::no_line_first, crate::proofs::HeadLaws::no_line_last, crate::proofs::HeadLaws::other_lines))]
pub(crate) fn behind_head<'a>(
    alloc: Global,
    log: &'a [u8],
    read: &[FileSum],
    reindex: bool,
) -> Result<FoundLog<'a>, LiveFailure>
    ensures behind { IfOk result (λ found. IsBehindHead read.now reindex log.now found.earlier found.body.now) }
    ensures fault { IfErr result (IsHeadFailure log.now read.now reindex) }
{
    if !is_open(log) {
        return Ok(FoundLog {
            earlier: earlier_count(log),
            body: log,
        });
    }
    let Some(_) = after_word(log, b"read ") else {
        return Err(LiveFailure::OtherVersion);
    };
    let counted = match after_reads(alloc, log, read, reindex) {
        Ok(counted) => counted,
        Err(fault) => return Err(head_failure(alloc, read, fault)),
    };
    match cut_earlier(counted) {
        Some((earlier, body)) => Ok(FoundLog { earlier, body }),
        None => Err(LiveFailure::OtherVersion),
    }
}
