//! Bytes without the blanks around them.

ghost use Rattle.std.specs.Prelude.{◌≡◌, ◌≤◌, length, reverse};
ghost use Rattle.dbf_fields.specs.Number.{without_leading, trimmed as without_blanks};

use crate::format::BLANK;

fn trim_start(cell: &[u8]) -> &[u8]
    ensures value { result.now ≡ without_leading cell.now }
    ensures short { length result.now ≤ length cell.now }
{
    let mut text = cell;
    while let [BLANK, rest @ ..] = text {
        text = rest;
    }
    text
}

fn trim_end(cell: &[u8]) -> &[u8]
    ensures value { result.now ≡ reverse (without_leading (reverse cell.now)) }
    ensures short { length result.now ≤ length cell.now }
{
    let mut text = cell;
    while let [rest @ .., BLANK] = text {
        text = rest;
    }
    text
}

/// The bytes without the blanks at both ends. Takes no memory.
#[tactic(auto, unfolding(crate::specs::Number::trimmed))]
pub fn trimmed(bytes: &[u8]) -> &[u8]
    ensures value { result.now ≡ without_blanks bytes.now }
    ensures short { length result.now ≤ length bytes.now }
{
    trim_end(trim_start(bytes))
}
