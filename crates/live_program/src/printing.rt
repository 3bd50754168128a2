//! Text that is printed, of which it is known how far it came where a writer fails.

ghost use Rattle.std.specs.Prelude.{◌<◌, ◌≤◌, length, take, IfOk, OnErr, OnOk};
ghost use Rattle.std.specs.Io.KnownBytes.{Appends, Keeps};
ghost use Rattle.live_program.specs.Consoles.{shown_text, AppendsFront};
ghost use Rattle.live_program.specs.declared.printing.TheConstants.{LINE_AT_ONCE};

use station_lines::LF;
use std::io;
use std::io::{ErrorKind, Write};

// How many bytes a line has, its LF too, that is printed by one write: nearly each answer is as short.
const LINE_AT_ONCE: usize = 512;

// Writes the first of some bytes: how many. None where a signal interrupts it.
#[tactic(auto, using(crate::proofs::PrintingLaws::none_kept, crate::proofs::PrintingLaws::kept_none))]
fn write_first<W: Write>(out: &mut W, bytes: &[u8]) -> io::Result<usize>
    ensures inside { IfOk result (λ count. count ≤ length bytes.now) }
    ensures taken { IfOk result (λ count. Appends (W.contents out.old) (W.contents out.new) (take count bytes.now)) }
    ensures kept { OnErr result (Keeps (W.contents out.old) (W.contents out.new)) }
{
    match out.write(bytes) {
        Ok(0) => Err(io::Error::from(ErrorKind::WriteZero)),
        Ok(count) => Ok(count),
        Err(error) if error.kind() == ErrorKind::Interrupted => Ok(0),
        Err(error) => Err(error),
    }
}

/// Prints bytes. At an error the first of them may be printed, and nothing else.
#[tactic(auto, using(crate::proofs::PrintingLaws::front_of, crate::proofs::PrintingLaws::front_kept, crate::proofs::PrintingLaws::taken_all, crate::proofs::PrintingLaws::whole_front))]
pub fn print_bytes<W: Write>(out: &mut W, bytes: &[u8]) -> io::Result<()>
    ensures text { OnOk result (Appends (W.contents out.old) (W.contents out.new) bytes.now) }
    ensures front { AppendsFront (W.contents out.old) (W.contents out.new) bytes.now }
{
    let mut done = 0;
    for _ in 0..u64::MAX {
        if done == bytes.len() {
            return Ok(());
        }
        let count = write_first(out, &bytes[done..])?;
        done += count;
    }
    Err(io::Error::from(ErrorKind::Interrupted))
}

// Prints a short line and LF, by one write.
#[tactic(auto, using(crate::proofs::ConsoleLaws::line_in_front))]
fn print_short<W: Write>(out: &mut W, line: &[u8]) -> io::Result<()>
    requires short { length line.now < LINE_AT_ONCE }
    ensures text { OnOk result (Appends (W.contents out.old) (W.contents out.new) (shown_text line.now)) }
    ensures front { AppendsFront (W.contents out.old) (W.contents out.new) (shown_text line.now) }
{
    let mut text = [0; LINE_AT_ONCE];
    text[..line.len()].copy_from_slice(line);
    text[line.len()] = LF;
    print_bytes(out, &text[..line.len() + 1])
}

/// Prints a line and LF. At an error the first bytes of these may be printed, and nothing else.
#[tactic(auto, using(crate::proofs::PrintingLaws::front_before, crate::proofs::PrintingLaws::front_after))]
pub fn print_line<W: Write>(out: &mut W, line: &[u8]) -> io::Result<()>
    ensures text { OnOk result (Appends (W.contents out.old) (W.contents out.new) (shown_text line.now)) }
    ensures front { AppendsFront (W.contents out.old) (W.contents out.new) (shown_text line.now) }
{
    if line.len() < LINE_AT_ONCE {
        return print_short(out, line);
    }
    print_bytes(out, line)?;
    print_bytes(out, &[LF])?;
    Ok(())
}
