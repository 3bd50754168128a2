//! The end of a log's head: how many commands the day had that was closed before.

ghost use Rattle.std.specs.Prelude.{◌≡◌, [], IfOk, IfSome, IfNone};
ghost use Rattle.open_day.specs.OpenDay.{earlier_and, BeginsWithEarlier, BeginsWithLogHead, BeginsWithNoEarlier, BeginsWithNoLogHead};

use byte_io::Bytes;
use journal_file::{after_any_reads, after_word};
use station_lines::cut_number;
use std::alloc::{AllocError, Global};

/// The last line of a log's head: how many commands the day had that was closed before. `earlier 104 commands` and LF. An error where
/// memory is refused.
pub fn earlier_line(alloc: Global, count: u64) -> Result<Bytes, AllocError>
    ensures value { IfOk result (λ line. line ≡ earlier_and count []) }
{
    let text = format!(in alloc; "earlier {count} commands\n")?;
    Bytes::from_slice(alloc, text.as_bytes())
}

/// How many commands the day had that was closed before, where the line of it is first in a text, and what stands after this. `None` where
/// no such line is first. Takes no memory.
#[tactic(auto, using(crate::proofs::HeadLaws::no_earlier_word, crate::proofs::HeadLaws::no_earlier_count, crate::proofs::HeadLaws::no_earlier_end, crate::proofs::HeadLaws::earlier_first))]
pub fn cut_earlier(text: &[u8]) -> Option<(u64, &[u8])>
    ensures found { IfSome result (λ cut. BeginsWithEarlier text.now cut.0 cut.1.now) }
    ensures none { IfNone result (BeginsWithNoEarlier text.now) }
{
    let Some(counted) = after_word(text, b"earlier ") else {
        return None;
    };
    let Some((count, words)) = cut_number(counted) else {
        return None;
    };
    match after_word(words, b"commands\n") {
        Some(rest) => Some((count, rest)),
        None => None,
    }
}

/// What stands behind the head that is first in a log. `None` where none is. Takes no memory.
#[tactic(auto, using(crate::proofs::HeadLaws::no_head_reads, crate::proofs::HeadLaws::no_head_earlier, crate::proofs::HeadLaws::head_first))]
pub(crate) fn after_any_head(log: &[u8]) -> Option<&[u8]>
    ensures found { IfSome result (λ body. BeginsWithLogHead log.now body.now) }
    ensures none { IfNone result (BeginsWithNoLogHead log.now) }
{
    let Some(counted) = after_any_reads(log) else {
        return None;
    };
    match cut_earlier(counted) {
        Some((_, body)) => Some(body),
        None => None,
    }
}
