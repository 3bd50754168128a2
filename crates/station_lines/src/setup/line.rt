//! What a line of a setup is.

ghost use Rattle.std.specs.Prelude.{◌≡◌, ℕ, List};
ghost use Rattle.std.specs.List.{list_all};
ghost use Rattle.std.specs.Char.{is_ascii};
ghost use Rattle.station_lines.specs.Setup.{AreWords, skips};
ghost use Rattle.station_lines.specs.SetupReading.{IsJudged};

use crate::script::is_remark;
use crate::setup::judged::Judged;
use crate::setup::said::said_of;
use crate::setup::words::cut_first;

// Whether a line says nothing.
fn is_skipped(line: &[u8]) -> bool
    ensures value { (words : List (List ℕ)) → AreWords words line.now → result ≡ skips words }
{
    match cut_first(line) {
        Some((first, _)) => is_remark(first),
        None => true,
    }
}

/// Whether all bytes are at most 127. Takes no memory.
pub(crate) fn is_plain(line: &[u8]) -> bool
    ensures value { result ≡ list_all is_ascii line.now }
{
    line.iter().all(|byte| byte.is_ascii())
}

/// What a line is, by itself. Takes no memory.
pub(crate) fn judge(line: &[u8]) -> Judged<'_>
    ensures judged { IsJudged line.now result }
{
    if is_skipped(line) {
        return Judged::Skipped;
    }
    if !is_plain(line) {
        return Judged::Bad;
    }
    match said_of(line) {
        Some(said) => Judged::Good(said),
        None => Judged::Bad,
    }
}
