//! What a person at a terminal is told between the lines: who one is, why a line is none of a script, and the page of commands.

use byte_io::Bytes;
use live_day::{Typed, Wish, wish_of};
use setup_check::bad_line_words;
use station_lines::cut_plain_word;
use std::alloc::{AllocError, Global};
use std::io::Write;

// What HELP prints.
const HELP: &str = "  SELECT n                      works in area n, 1 to 10
  USE name [EXCLUSIVE]          opens a table in the area; USE alone closes it
  GO n, GO TOP, GO BOTTOM       to a record
  SKIP, SKIP n                  on or back by n in the order
  SEEK \"text\"                   to the first record whose key begins so
  SET ORDER TO n                the order of index n; 0 is by record number
  APPEND BLANK                  a new last record
  REPLACE field WITH value      changes one field: \"text\", -4.80, .T., CTOD(\"03/02/87\")
  MEMO field WITH \"text\"        changes a memo
  DELETE, RECALL                marks the record, takes the mark away
  PACK                          removes the marked records for good
  INDEX ON expression TO name   makes an index
  ? RLOCK(), ? RLOCK(n,n,..)    locks the record, or these records
  ? FLOCK()                     locks the table
  UNLOCK, UNLOCK ALL            releases the locks in this table, in all
  ? field                       shows a field of the record
  ? EOF(), ? BOF(), ? FOUND()   whether it is at an end; whether SEEK has found one
  ? DELETED()                   whether the record is marked
  ? RECNO(), ? RECCOUNT()       the record's number, how many there are
  DISPLAY STATUS                how many commands there were, and who locks what
  STATION n                     the lines from now on are those of station n
  QUIT, or Ctrl-D               closes the day
A table with USE EXCLUSIVE needs no locks. Words may be in small letters.
";

/// A writer for what is told at a terminal between the lines.
#[derive(Drop)]
pub(crate) struct Prompt<P: Write + Drop> {
    out: P,
    is_greeted: bool,
    // Why the last line is none of a script. It is told after the line's answer.
    remark: Option<Vec<u8>>,
}

// Whether a line is HELP, in letters of either case, with blanks around it or not.
fn is_help(line: &[u8]) -> bool {
    let (word, rest) = cut_plain_word(line);
    let (more, _) = cut_plain_word(rest);
    word.eq_ignore_ascii_case(b"HELP") && more.is_empty()
}

// Why a line is none of a script, as it is told. `None` where it is one.
fn remark_on_line(alloc: Global, line: &[u8]) -> Result<Option<Vec<u8>>, AllocError> {
    let Some(words) = bad_line_words(alloc, line)? else {
        return Ok(None);
    };
    let mut text = Vec::from_slice(alloc, b"  ")?;
    text.extend_from_slice(words.as_slice())?;
    text.extend_from_slice(b"; HELP shows the commands\n")?;
    Ok(Some(text))
}

// The same of a line that is not one of the program's own words. Where memory is refused nothing is told.
fn remark_on(alloc: Global, line: &[u8]) -> Option<Vec<u8>> {
    match wish_of(line) {
        Wish::Perform => match remark_on_line(alloc, line) {
            Ok(remark) => remark,
            Err(_) => None,
        },
        Wish::Station(_) => None,
        Wish::Quit => None,
    }
}

impl<P: Write + Drop> Prompt<P> {
    /// For a writer: nothing was told yet.
    pub(crate) fn new(out: P) -> Prompt<P> {
        Prompt {
            out,
            is_greeted: false,
            remark: None,
        }
    }

    // Tells once who one is and how to go on.
    fn greet(&mut self, station: u32) {
        if self.is_greeted {
            return;
        }
        self.is_greeted = true;
        let _ = write!(
            self.out,
            "You are station {station}. HELP shows the commands, QUIT or Ctrl-D closes the day.\n"
        );
    }

    /// Tells why the last line was none of a script, and prints the prompt of a station: its number, a point and a blank. Before the
    /// first prompt it is told who one is. A writer that takes no text changes nothing.
    pub(crate) fn ask(&mut self, station: u32) {
        self.greet(station);
        if let Some(remark) = self.remark.take() {
            let _ = self.out.write_all(remark.as_slice());
        }
        let _ = write!(self.out, "{station}. ");
    }

    // Answers HELP, which is a blank line to the day, and keeps why another line is none of a script.
    fn hear_line(&mut self, alloc: Global, line: Bytes) -> Bytes {
        if is_help(line.as_slice()) {
            let _ = self.out.write_all(HELP.as_bytes());
            return Bytes::from_vec(Vec::new(alloc));
        }
        self.remark = remark_on(alloc, line.as_slice());
        line
    }

    /// What a line that is typed at a terminal is to the day: HELP is told here, and is a blank line to the day.
    pub(crate) fn hear(&mut self, alloc: Global, typed: Typed) -> Typed {
        match typed {
            Typed::Text(line) => Typed::Text(self.hear_line(alloc, line)),
            other => other,
        }
    }
}
