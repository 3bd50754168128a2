//! What a look at every file of a setup finds.
//!
//! [`look_at_all`] loads and reads what each entry of a setup names, whatever was found at the others, and answers a
//! [`Finding`] for each: why a file is refused and where, and of an index what it is beside its table. Beside the findings it hands
//! out what was read. [`findings_text`] tells them in words, a line a file. [`scripts_text`] tells which lines of the stations'
//! scripts are bad, [`bad_line_words`] why one line is none of a script, and [`bad_setup_text`] why a line of the setup is bad.
//! [`kept_files_text`] tells which files stay as they are beside new ones, [`open_days_text`] in which folders of tables a day is open.
//!
//! Start with specs/Findings.antt (what a finding says of the files), specs/Freshness.antt (what an index is beside its table),
//! specs/WrongPair.antt (the first of its pairs that isn't its record's), specs/Lines.antt (how it is told), specs/ScriptLines.antt
//! (what is told of scripts), specs/KeptLines.antt and specs/OpenDays.antt, then read src/look.rt, src/freshness.rt and src/scripts.rt.
#![tactic(auto)]

mod finding;
mod freshness;
mod kept_lines;
mod lines;
mod look;
mod open_days;
mod reasons;
mod scripts;
mod shown_line;
mod table_places;
mod wrong_pair;

pub use finding::{Finding, IndexFinding, Looked, TableCounts};
pub use freshness::IndexState;
pub use kept_lines::kept_files_text;
pub use lines::findings_text;
pub use look::look_at_all;
pub use open_days::{LogFinding, open_days_text};
pub use reasons::bad_line_words;
pub use scripts::{BadLinesTold, bad_setup_text, scripts_text};
pub use shown_line::append_shown;
pub use wrong_pair::WrongPair;
