//! Lines that are read from a source of bytes.

ghost use Rattle.std.specs.Prelude.{◌≡◌, ◌≢◌, ◌⊎◌, ◌≤◌, ◌==◌, ◌-◌, ◌++◌, [], ℕ, List, true, false, length, position, slice_index, take, vec_len, IfOk, OnOk};
ghost use Rattle.station_lines.specs.Script.Lines.{without_cr};
ghost use Rattle.station_lines.specs.declared.script.format.TheConstants.{LF};
ghost use Rattle.live_day.specs.Typing.{IsLineTyped, TypesNext};
ghost use Rattle.live_day.specs.declared.keyboard.Typed.TheVariants.{TooLong, Cut};
ghost use Rattle.live_program.specs.Consoles.{known_text};
ghost use Rattle.live_program.specs.Reading.{IsLineKept, ReadsPiece, TakesPiece};
ghost use Rattle.live_program.specs.declared.reading.Origin.TheVariants.{Pipe};
ghost use Rattle.live_program.specs.declared.reading.PieceEnd.TheVariants.{Input};
ghost use Rattle.live_program.specs.declared.reading.TheConstants.{CR, MAX_KEPT_BYTES};

use byte_io::Bytes;
use live_day::{MAX_LINE_BYTES, Typed, TypingFault};
use station_lines::LF;
use std::alloc::Global;
use std::io;
use std::io::BufRead;

// The byte before LF where a line ends in two.
const CR: u8 = b'\r';

// How many bytes of a line are kept: one more than it may have, for the CR.
const MAX_KEPT_BYTES: usize = MAX_LINE_BYTES + 1;

/// Where lines come from, which says what an end of the input in the midst of a line is.
#[derive(Clone, Copy, Debug, PartialEq, Eq)]
pub(crate) enum Origin {
    /// A pipe or a file: the line was cut.
    Pipe,
    /// A terminal: who types there has ended the input after the line.
    Terminal,
}

// What a piece of the input ends in.
#[derive(Clone, Copy, PartialEq, Eq)]
enum PieceEnd {
    // Neither of the others.
    Open,
    // The end of a line.
    Line,
    // The end of all that is typed.
    Input,
}

// Where the first LF stands.
fn line_end(bytes: &[u8]) -> Option<usize>
    ensures value { result ≡ position (λ b. b == LF) bytes.now }
{
    bytes.iter().position(|byte| *byte == LF)
}

// Whether a line ends in CR.
fn ends_in_cr(line: &[u8]) -> bool
    ensures value { result ≡ (slice_index line.now (length line.now - 1) == CR) }
{
    matches!(line, [.., CR])
}

// A line that is read in pieces. Of one that is too long no more is kept.
#[derive(Drop)]
struct PartLine {
    bytes: Vec<u8>,
    too_long: bool,
    ghost bounded: { vec_len bytes ≤ MAX_KEPT_BYTES },
}

impl PartLine {
    // Adds a piece.
    #[tactic(auto, using(crate::proofs::ReadingLaws::part_kept, crate::proofs::ReadingLaws::part_long))]
    fn add(&mut self, piece: &[u8]) -> Result<(), TypingFault>
        ensures part { OnOk result ((text : List ℕ) → IsLineKept text self.old.too_long self.old.bytes.items
            → IsLineKept (text ++ piece.now) self.new.too_long self.new.bytes.items) }
    {
        if self.too_long || piece.len() > MAX_KEPT_BYTES - self.bytes.len() {
            self.too_long = true;
            return Ok(());
        }
        self.bytes.extend_from_slice(piece)?;
        Ok(())
    }

    // Adds what is shown of the line's rest, up to its end. Answers how many bytes that takes, its end too, and what it ends in.
    #[tactic(auto, using(crate::proofs::ReadingLaws::takes_none, crate::proofs::ReadingLaws::takes_all, crate::proofs::ReadingLaws::takes_line))]
    fn add_shown(&mut self, shown: &[u8]) -> Result<(usize, PieceEnd), TypingFault>
        ensures within { IfOk result (λ read. read.0 ≤ length shown.now) }
        ensures piece { IfOk result (λ read. (text : List ℕ) → IsLineKept text self.old.too_long self.old.bytes.items
            → TakesPiece text (take read.0 shown.now) read.1 self.new.too_long self.new.bytes.items) }
        ensures input { IfOk result (λ read. read.1 ≡ Input → shown.now ≡ []) }
    {
        if shown.is_empty() {
            return Ok((0, PieceEnd::Input));
        }
        match line_end(shown) {
            Some(end) => {
                let (piece, _) = shown.split_at(end);
                self.add(piece)?;
                Ok((end + 1, PieceEnd::Line))
            }
            None => {
                self.add(shown)?;
                Ok((shown.len(), PieceEnd::Open))
            }
        }
    }

    // Whether there is nothing of a line.
    fn is_empty(&self) -> bool
        ensures none { result ≡ true → (self.now.too_long ≡ false) × (self.now.bytes.items ≡ []) }
        ensures some { result ≡ false → (self.now.too_long ≡ true) ⊎ (self.now.bytes.items ≢ []) }
    {
        !self.too_long && self.bytes.is_empty()
    }

    // The whole line, without a CR at its end.
    fn ended(mut self) -> Typed
        ensures long { self.too_long ≡ true → result ≡ TooLong }
        ensures line { self.too_long ≡ false → IsLineTyped (without_cr self.bytes.items) result }
    {
        if ends_in_cr(self.bytes.as_slice()) {
            let _ = self.bytes.pop();
        }
        self.whole()
    }

    // The whole line.
    fn whole(self) -> Typed
        ensures long { self.too_long ≡ true → result ≡ TooLong }
        ensures line { self.too_long ≡ false → IsLineTyped self.bytes.items result }
    {
        if self.too_long || self.bytes.len() > MAX_LINE_BYTES {
            return Typed::TooLong;
        }
        Typed::Text(Bytes::from_vec(self.bytes))
    }
}

// The last line, where the input has ended before its LF.
fn last_line(line: PartLine, origin: Origin) -> Typed
    ensures cut { origin ≡ Pipe → result ≡ Cut }
{
    match origin {
        Origin::Pipe => Typed::Cut,
        Origin::Terminal => line.whole(),
    }
}

// Why nothing is shown of what is typed: a signal came, and then it is asked once more; or the lines can't be read.
fn unshown(error: &io::Error) -> Result<PieceEnd, TypingFault>
    ensures open { IfOk result (λ end. end ≡ PieceEnd.Open) }
{
    if error.kind() == io::ErrorKind::Interrupted {
        Ok(PieceEnd::Open)
    } else {
        Err(TypingFault::Failed)
    }
}

// Whether the bytes have a whole line.
fn has_line(bytes: &[u8]) -> bool {
    line_end(bytes).is_some()
}

// Reads a piece of a line: up to its end, or to the end of what is there. Says whether a further whole line is there.
fn read_piece<R: BufRead>(
    reader: &mut R,
    line: &mut PartLine,
    has_more: &mut bool,
) -> Result<PieceEnd, TypingFault>
    ensures piece { IfOk result (λ end. (text : List ℕ) → IsLineKept text line.old.too_long line.old.bytes.items
        → ReadsPiece text end (R.remaining reader.old) (R.remaining reader.new) line.new.too_long line.new.bytes.items) }
{
    let shown = match reader.fill_buf() {
        Ok(shown) => shown,
        Err(e) => return unshown(&e),
    };
    let (read, end) = line.add_shown(shown)?;
    *has_more = has_line(&shown[read..]);
    reader.consume(read);
    Ok(end)
}

// Reads a line, and says whether a further whole one is there already. `None` at the end of all that is typed. A last line without LF is
// one that was cut, but at a terminal.
pub(crate) fn read_line<R: BufRead>(
    alloc: Global,
    reader: &mut R,
    origin: Origin,
    has_more: &mut bool,
) -> Result<Option<Typed>, TypingFault>
    ensures text { IfOk result (λ next. TypesNext (known_text origin (R.remaining reader.old)) next (known_text origin (R.remaining reader.new))) }
{
    let mut line = PartLine {
        bytes: Vec::new(alloc),
        too_long: false,
    };
    'pieces: for _ in 0..u64::MAX {
        match read_piece(reader, &mut line, has_more)? {
            PieceEnd::Open => {}
            PieceEnd::Line => return Ok(Some(line.ended())),
            PieceEnd::Input if line.is_empty() => return Ok(None),
            PieceEnd::Input => return Ok(Some(last_line(line, origin))),
        }
    }
    Err(TypingFault::Failed)
}
