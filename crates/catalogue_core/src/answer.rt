//! Answers to commands.

ghost use Rattle.std.specs.Prelude.{◌≡◌, ◌↔◌, IsTrue, IfOk};
ghost use Rattle.catalogue_core.specs.Status.{answer_code};

use byte_io::Bytes;
use std::alloc::{AllocError, Global};
use table_core::Refusal;

/// The answer to a command.
#[derive(Debug, PartialEq, Eq, Drop)]
pub enum Answer {
    /// The command was carried out.
    Done,
    /// A number, as of a record.
    Number(u64),
    /// Whether something holds.
    Truth(bool),
    /// The bytes of a field's value.
    Text(Bytes),
    /// The command was refused and changed nothing.
    Refused(Refusal),
}

impl Answer {
    /// The same answer once more, or an error where memory is refused.
    pub fn copy(&self, alloc: Global) -> Result<Answer, AllocError>
        ensures value { IfOk result (λ answer. answer ≡ self.now) }
    {
        match self {
            Answer::Done => Ok(Answer::Done),
            Answer::Number(number) => Ok(Answer::Number(*number)),
            Answer::Truth(truth) => Ok(Answer::Truth(*truth)),
            Answer::Text(text) => Ok(Answer::Text(text.copy(alloc)?)),
            Answer::Refused(refusal) => Ok(Answer::Refused(*refusal)),
        }
    }

    /// Whether the answers are the same: `==`, said so that contracts can use it.
    #[tactic(auto, using(dbf_fields::proofs::SameLaws::same_bytes))]
    pub fn is_same(&self, other: &Answer) -> bool
        ensures value { IsTrue result ↔ (self.now ≡ other.now) }
    {
        self == other
    }

    /// The number that stands for the answer in a status row: 0 done, 1 false, 2 true, 3 a number, 4 a text, and
    /// 100 and the refusal's number.
    pub fn code(&self) -> u32
        ensures value { result ≡ answer_code self.now }
    {
        match self {
            Answer::Done => 0,
            Answer::Truth(false) => 1,
            Answer::Truth(true) => 2,
            Answer::Number(_) => 3,
            Answer::Text(_) => 4,
            Answer::Refused(refusal) => 100 + u32::from(refusal.code()),
        }
    }
}
