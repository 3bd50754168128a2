//! Lines of text: of a station's script, of a setup, and of an answer file.
//!
//! [`lines`] goes over the lines of a text. [`parse_line`] tells what a line of a script means: a command, DISPLAY
//! STATUS or nothing. [`command_line`] makes a line of a command, which [`parse_line`] reads back. [`parse_setup`] tells
//! what all lines of a setup say, or which line is bad. [`answer_line`] and [`status_line`] make the lines that a station
//! is shown. [`entry_line`] makes the line of a journal's entry, and [`cut_entry`] cuts it back into its parts.
//!
//! Start with specs/Script/Meaning.antt (what a line of a script means), specs/CommandLines.antt (the line of a command),
//! specs/Setup.antt (what a setup says), specs/AnswerLines.antt (the line of an answer) and specs/JournalLines.antt (that
//! of an entry), then read src/script/line.rt, src/setup.rt and src/answer_lines.rt.
#![tactic(auto)]

mod answer_lines;
mod command_lines;
mod journal_lines;
mod line_bounds;
mod script;
mod setup;

pub use answer_lines::{answer_line, append_answer, append_status, status_line};
pub use command_lines::{append_command, command_line};
pub use journal_lines::{
    CutEntry, EntryLine, cut_entry, cut_number, cut_part, entry_line, one_journal, plain_number,
};
pub use line_bounds::line_bound;
pub use script::format::LF;
pub use script::{
    BadLine, Line, LineCursor, count_in, is_one_line, lines, one_cutting, one_meaning, parse_line,
    why_bad,
};
pub use setup::{
    BadSetupLine, SetupEntry, SetupFault, cut_plain_word, one_setup, parse_setup,
    setup_line_reason, why_bad_setup_line,
};
