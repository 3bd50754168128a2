//! The setup of a run: its tables, indexes and scripts, one on a line.
//!
//! [`parse_setup`] reads a whole setup file. What a line says, and which line is bad, is defined in
//! `specs/Setup.antt`. Start reading there.

ghost use Rattle.std.specs.Prelude.{◌≡◌, ℕ, List, true, false, Result, Ok, Err, IfOk, IfErr, IsErrOf};
ghost use Rattle.station_lines.specs.declared.setup.entry.SetupEntry.{SetupEntry as Entry};
ghost use Rattle.station_lines.specs.Setup.{Adds, HasNextEntry, IndexesFollowTables, IsBadAfter, IsNext, IsSetup};
ghost use Rattle.station_lines.specs.SetupReading.{AreTablesOf};

mod bad_setup_line;
mod entry;
mod fault;
mod judged;
mod line;
mod said;
mod tables;
mod words;

use crate::script::lines;
use crate::setup::judged::Judged;
use crate::setup::line::judge;
use crate::setup::tables::{add_table, may_follow_tables};
pub use bad_setup_line::{BadSetupLine, setup_line_reason, why_bad_setup_line};
use catalogue_core::Names;
pub use entry::SetupEntry;
pub use fault::SetupFault;
use std::alloc::{AllocError, Global};
pub use words::cut_plain_word;

// Adds what a line says to what those before it said, whose tables have these names. The answer is whether it may stand
// there.
fn add_line(
    alloc: Global,
    entries: &mut Vec<SetupEntry>,
    names: &mut Names,
    line: &[u8],
) -> Result<bool, AllocError>
    requires tables { AreTablesOf names.old entries.old.items }
    ensures tables { result ≡ Ok true → AreTablesOf names.new entries.new.items }
    ensures added { result ≡ Ok true → Adds entries.old.items line.now entries.new.items }
    ensures bad { result ≡ Ok false → IsBadAfter entries.old.items line.now }
    ensures early { IfErr result (λ _. (entry : Entry) × IsNext entries.old.items line.now entry) }
{
    match judge(line) {
        Judged::Skipped => Ok(true),
        Judged::Bad => Ok(false),
        Judged::Good(said) => {
            if !may_follow_tables(names, said) {
                return Ok(false);
            }
            let entry = said.to_entry(alloc)?;
            add_table(alloc, names, &entry)?;
            entries.push(entry)?;
            Ok(true)
        }
    }
}

/// What the lines of a setup say, in their order: each index stands after its table. `Bad` tells the number of the
/// first line that is bad; lines are counted from 1, those that are skipped too. `NoMemory` where memory is refused,
/// which is asked for only at a line that says what may stand there, where no line before it is bad.
pub fn parse_setup(alloc: Global, text: &[u8]) -> Result<Vec<SetupEntry>, SetupFault>
    ensures read { IfOk result (λ entries. IsSetup text.now (Ok entries.items)) }
    ensures tables_first { IfOk result (λ entries. IndexesFollowTables entries.items) }
    ensures early { IsErrOf result SetupFault.NoMemory → HasNextEntry text.now }
    ensures bad { (number : ℕ) → result ≡ Err (SetupFault.Bad number) → IsSetup text.now (Err number) }
{
    let mut entries = Vec::new(alloc);
    let mut names = Names::new(alloc);
    let mut number = 0;
    let mut cursor = lines(text);
    while let Some(line) = cursor.next_line() {
        number += 1;
        if !add_line(alloc, &mut entries, &mut names, line)? {
            return Err(SetupFault::Bad(number));
        }
    }
    Ok(entries)
}

/// A text says one thing as a setup: each text gives some entries or a first bad line, and no text gives these
/// and others.
pub fn one_setup()
    ensures some { (text : List ℕ) → (said : Result (List Entry) ℕ) × IsSetup text said }
    ensures one { (text : List ℕ) (a b : Result (List Entry) ℕ) → IsSetup text a → IsSetup text b → a ≡ b }
{}
