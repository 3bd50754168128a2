//! The calls after `?`, as a table.

ghost use Rattle.std.specs.Prelude.{◌≡◌};
ghost use Rattle.station_lines.specs.Script.Parts.{call_text as text_of_call};
ghost use Rattle.station_lines.specs.Script.Reading.{call_in as call_of_word};

use catalogue_core::Question;

/// A call with nothing in its parentheses, which locks or asks.
#[derive(Clone, Copy)]
pub(crate) enum CallName {
    Rlock,
    Lock,
    Flock,
    Ask(Question),
}

/// All of them.
pub(crate) static CALLS: [CallName; 9] = [
    CallName::Rlock,
    CallName::Lock,
    CallName::Flock,
    CallName::Ask(Question::Eof),
    CallName::Ask(Question::Bof),
    CallName::Ask(Question::Found),
    CallName::Ask(Question::Deleted),
    CallName::Ask(Question::Recno),
    CallName::Ask(Question::Reccount),
];

/// The name of a call with its parentheses. Takes no memory.
pub(crate) fn call_text(call: CallName) -> &'static [u8]
    ensures value { result.now ≡ text_of_call call }
{
    match call {
        CallName::Rlock => b"RLOCK()",
        CallName::Lock => b"LOCK()",
        CallName::Flock => b"FLOCK()",
        CallName::Ask(Question::Eof) => b"EOF()",
        CallName::Ask(Question::Bof) => b"BOF()",
        CallName::Ask(Question::Found) => b"FOUND()",
        CallName::Ask(Question::Deleted) => b"DELETED()",
        CallName::Ask(Question::Recno) => b"RECNO()",
        CallName::Ask(Question::Reccount) => b"RECCOUNT()",
    }
}

/// The call that a word is, in any case. Takes no memory.
pub(crate) fn call_in(word: &[u8]) -> Option<CallName>
    ensures value { result ≡ call_of_word word.now }
{
    CALLS
        .iter()
        .copied()
        .find(|call| word.eq_ignore_ascii_case(call_text(*call)))
}
