//! A call of the program: what its command line asks for is shown, checked, compared, made or loaded, and how that ended.

ghost use Rattle.std.specs.Prelude.{◌≡◌, map, true, false, Err, Ok, Some, IfErr, IfOk, IsErrAnd, IsErrOf};
ghost use Rattle.program_frame.specs.declared.ending.Failure.TheVariants.{Work as OfWork};
ghost use Rattle.table_maker.specs.declared.fault.MakeFault.TheVariants.{Exists};
ghost use Rattle.table_maker.specs.declared.load_fault.LoadJobFault.TheVariants.{Exists as IsThere};
ghost use Rattle.table_maker.specs.declared.index_fault.IndexJobFault.TheVariants.{Exists as HasIndex};
ghost use Rattle.byte_io.specs.Sink.{IsFront, Rises};
ghost use Rattle.folders.specs.Files.{load_refusal};
ghost use Rattle.tool_program.specs.Check.{check_load_fault, AreCheckLoads};
ghost use Rattle.table_reader.specs.Memos.{IsNotHad};
ghost use Rattle.tool_program.specs.Answers.{asked_refusal, IsAnswered, IsAnsweredTo, IsCheckedAs, IsShownAs, IsToldUnloaded};
ghost use Rattle.tool_program.specs.Answers.{IsWhyUnanswered, IsWhyUnchecked, IsWhyUnshown, IsWhyNotDone};
ghost use Rattle.tool_program.specs.Answers.{AreAnswersShownAs, IsComparedAs, IsPlacedIn, IsPlacedTo, IsTakenIn, IsTakenTo, IsLoadTakenIn, IsLoadTakenTo};
ghost use Rattle.tool_program.specs.Answers.{IsIndexTakenIn, IsIndexTakenTo};
ghost use Rattle.tool_program.specs.Answers.{HasFailedIn, HasFailedTo, IsToldFirst};
ghost use Rattle.tool_program.specs.Answers.{IsWhyNoAnswers, IsWhyNoDiff};
ghost use Rattle.tool_program.specs.JournalShown.{answers_refusal};
ghost use Rattle.tool_program.specs.Faults.{IsToolFaultOf, IsToolFaultOfSetup, TellsUnreadFolder};

use crate::asked::{AnswersOptions, Asked, CheckOptions, DiffOptions, Options};
use crate::checking::check_setup;
use crate::comparing::compare_tables;
use crate::csv_loading::load_records;
use crate::ending::{faulty_path, no_answers, not_checked, not_compared, not_shown};
use crate::fault::ToolFault;
use crate::index_making::make_index;
use crate::journal::show_answers;
use crate::making::make_table;
use crate::open_days::warn_of_open_days;
use crate::options::read_options;
use crate::report::ToolReport;
use crate::showing::{ShowFault, show_file};
use crate::stream::MayClose;
use byte_io::ByteSink;
use folders::{LoadFault, Source};
use program_frame::{Ending, System};
use std::alloc::Global;
use std::convert::AsStr;
use std::io::Write;

// Shows a table, or its fields.
fn run_show<'a, F: Source, S: ByteSink + MayClose>(
    alloc: Global,
    source: &mut F,
    sink: &mut S,
    options: &Options<'a>,
) -> Result<ToolReport, ToolFault<'a>>
    ensures answered { IfOk result (IsShownAs (F.files source.old) options.now (S.written sink.old) (S.written sink.new)) }
    ensures unread { result ≡ Ok ToolReport.Unread → (S.closed sink.new ≡ true) × Rises (S.failures sink.old) (S.failures sink.new) }
    ensures output { result ≡ Err ToolFault.Output → (S.closed sink.new ≡ false) × Rises (S.failures sink.old) (S.failures sink.new) }
    ensures kept { IsFront (S.written sink.old) (S.written sink.new) }
    ensures early { (why : LoadFault) → load_refusal (F.files source.old) options.now.table.now ≡ Some why
        → IsErrAnd result (IsToolFaultOf (ShowFault.Load why) options.now.table.now) }
    ensures fault { IfErr result (IsWhyUnshown (F.files source.old) (F.failures source.old) (F.failures source.new) options.now) }
{
    match show_file(alloc, source, sink, options) {
        Ok(()) => Ok(ToolReport::Good),
        Err(fault) => not_shown(fault, sink.is_closed(), faulty_path(options, fault)),
    }
}

// Checks a setup.
fn run_check<'a, F: Source, S: ByteSink + MayClose>(
    alloc: Global,
    source: &mut F,
    sink: &mut S,
    options: &CheckOptions<'a>,
) -> Result<ToolReport, ToolFault<'a>>
    ensures answered { let loads = AreCheckLoads (F.files source.old) (F.failures source.old) (F.failures source.new) in
        IfOk result (IsCheckedAs (F.files source.old) loads options.now (S.written sink.old) (S.written sink.new)) }
    ensures unread { result ≡ Ok ToolReport.Unread → (S.closed sink.new ≡ true) × Rises (S.failures sink.old) (S.failures sink.new) }
    ensures output { result ≡ Err ToolFault.Output → (S.closed sink.new ≡ false) × Rises (S.failures sink.old) (S.failures sink.new) }
    ensures kept { IsFront (S.written sink.old) (S.written sink.new) }
    ensures early { (why : LoadFault) → load_refusal (F.files source.old) options.now.setup.now ≡ Some why
        → IsErrAnd result (IsToolFaultOfSetup (check_load_fault why) options.now.setup.now) }
    ensures fault { let unread = IsNotHad (F.files source.old) (F.failures source.old) (F.failures source.new) in
        IfErr result (IsWhyUnchecked (F.files source.old) unread options.now.setup.now) }
{
    match check_setup(alloc, source, sink, options.setup, options.bad_lines) {
        Ok(true) => Ok(ToolReport::Good),
        Ok(false) => Ok(ToolReport::NotOpened),
        Err(fault) => not_checked(fault, sink.is_closed(), options.setup),
    }
}

// Compares two tables.
fn run_diff<'a, F: Source, S: ByteSink + MayClose>(
    alloc: Global,
    source: &mut F,
    sink: &mut S,
    options: &DiffOptions<'a>,
) -> Result<ToolReport, ToolFault<'a>>
    ensures answered { IfOk result (IsComparedAs (F.files source.old) options.now (S.written sink.old) (S.written sink.new)) }
    ensures unread { result ≡ Ok ToolReport.Unread → (S.closed sink.new ≡ true) × Rises (S.failures sink.old) (S.failures sink.new) }
    ensures output { result ≡ Err ToolFault.Output → (S.closed sink.new ≡ false) × Rises (S.failures sink.old) (S.failures sink.new) }
    ensures kept { IsFront (S.written sink.old) (S.written sink.new) }
    ensures early { (why : LoadFault) → load_refusal (F.files source.old) options.now.old_table.now ≡ Some why
        → IsErrAnd result (IsToolFaultOf (ShowFault.Load why) options.now.old_table.now) }
    ensures fault { IfErr result (IsWhyNoDiff (F.files source.old) (F.failures source.old) (F.failures source.new) options.now) }
{
    match compare_tables(alloc, source, sink, options) {
        Ok(false) => Ok(ToolReport::Good),
        Ok(true) => Ok(ToolReport::Differ),
        Err(fault) => not_compared(fault, sink.is_closed()),
    }
}

// Shows the answers of a journal.
fn run_answers<'a, F: Source, S: ByteSink + MayClose>(
    alloc: Global,
    source: &mut F,
    sink: &mut S,
    options: &AnswersOptions<'a>,
) -> Result<ToolReport, ToolFault<'a>>
    ensures answered { IfOk result (AreAnswersShownAs (F.files source.old) options.now (S.written sink.old) (S.written sink.new)) }
    ensures unread { result ≡ Ok ToolReport.Unread → (S.closed sink.new ≡ true) × Rises (S.failures sink.old) (S.failures sink.new) }
    ensures output { result ≡ Err ToolFault.Output → (S.closed sink.new ≡ false) × Rises (S.failures sink.old) (S.failures sink.new) }
    ensures kept { IsFront (S.written sink.old) (S.written sink.new) }
    ensures early { (why : LoadFault) → answers_refusal (F.files source.old) options.now ≡ Some why
        → IsErrAnd result (IsToolFaultOf (ShowFault.Load why) options.now.journal.now) }
    ensures fault { IfErr result (IsWhyNoAnswers (F.files source.old) (F.failures source.old) (F.failures source.new) options.now) }
{
    match show_answers(alloc, source, sink, options) {
        Ok(false) => Ok(ToolReport::Good),
        Ok(true) => Ok(ToolReport::Refused),
        Err(fault) => no_answers(fault, sink.is_closed(), options.journal),
    }
}

/// Does what a command line asks for: reads the files that it names, and writes the text into a sink, or makes a table or an index in a
/// folder of the system. The report says how that came to its end.
///
/// A fault is told with the path of the file that it is one of; `NoMemory` says that there was no memory, and `Output` that the sink
/// failed, and still has its reader; `Make`, `Load`, `BadOut`, `BadDates` and `BadSeparator` say why a table is not made, `Index` and
/// `BadIndexOut` why an index is not, `BadStation` and `Journal` why no answers are shown, `Key` why no tables are compared. `BadRange` is
/// none of these.
#[tactic(auto, using(byte_io::specs::Laws::Sinks::front_same, crate::proofs::MadeLaws::made_unread, crate::proofs::MadeLaws::made_output, crate::proofs::LoadLaws::loaded_output, crate::proofs::LoadLaws::loaded_unread, crate::proofs::IndexLaws::indexed_output))]
pub fn run_asked<'a, F: Source, S: ByteSink + MayClose, Y: System>(
    alloc: Global,
    source: &mut F,
    sink: &mut S,
    system: &Y,
    asked: &Asked<'a>,
) -> Result<ToolReport, ToolFault<'a>>
    // What was written is what was asked for, and the report says whether the server would open a setup, whether two tables differ, and
    // whether an answer is a refusal.
    ensures answered { let loads = AreCheckLoads (F.files source.old) (F.failures source.old) (F.failures source.new) in
        IfOk result (IsAnswered (F.files source.old) loads asked.now (S.written sink.old) (S.written sink.new)) }
    // A table or an index that is asked for is put into its folder; no day is open there, nor in a folder from which it comes.
    ensures made { IfOk result (λ _. IsPlacedIn Y.Disk.meaning (Y.opens system.now) (Y.answers system.now) (F.files source.old) asked.now) }
    // That a file is there is told only where one of the table's two names has one, or the index's.
    ensures taken { IsErrOf result (ToolFault.Make (OfWork Exists)) → IsTakenIn Y.Disk.meaning (Y.opens system.now) asked.now }
    ensures load_taken { IsErrOf result (ToolFault.Load (OfWork IsThere)) → IsLoadTakenIn Y.Disk.meaning (Y.opens system.now) asked.now }
    ensures index_taken { IsErrOf result (ToolFault.Index (OfWork HasIndex)) → IsIndexTakenIn Y.Disk.meaning (Y.opens system.now) asked.now }
    // That the folder for it can't be read is told only where a call of its disk has failed.
    ensures unread_folder { (told : ToolFault) → TellsUnreadFolder told → IsErrOf result told → HasFailedIn Y.Disk.meaning (Y.opens system.now) asked.now }
    // That nobody reads the output any more is said only where that is so, and that it failed only where it is not; and both only
    // after a failure.
    ensures unread { result ≡ Ok ToolReport.Unread → (S.closed sink.new ≡ true) × Rises (S.failures sink.old) (S.failures sink.new) }
    ensures output { result ≡ Err ToolFault.Output → (S.closed sink.new ≡ false) × Rises (S.failures sink.old) (S.failures sink.new) }
    ensures kept { IsFront (S.written sink.old) (S.written sink.new) }
    // Where no load can give the file that is to be shown or checked, the old table or the journal, the answer is why, whether there is
    // memory or not.
    ensures early { (why : LoadFault) → asked_refusal (F.files source.old) asked.now ≡ Some why
        → IsErrAnd result (IsToldUnloaded asked.now why) }
    ensures fault { IfErr result (IsWhyUnanswered (F.files source.old) (F.failures source.old) (F.failures source.new) asked.now) }
{
    match asked {
        Asked::Show(options) => run_show(alloc, source, sink, options),
        Asked::Check(options) => run_check(alloc, source, sink, options),
        Asked::Make(options) => make_table(alloc, source, system, options),
        Asked::Load(options) => load_records(alloc, source, system, options),
        Asked::Index(options) => make_index(alloc, source, system, options),
        Asked::Diff(options) => run_diff(alloc, source, sink, options),
        Asked::Answers(options) => run_answers(alloc, source, sink, options),
    }
}

/// Does what the words of a command line ask for, of which the first is the program's name: reads the files that it names, and
/// writes the text into a sink, or makes a table or an index in a folder of the system. Where a day is open in the folder of a table that
/// is shown or compared, that is said on `err`.
///
/// An ending says that the words give no options, that their range of records is none, or what [`run_asked`] says.
#[tactic(auto, using(byte_io::specs::Laws::Sinks::front_same))]
pub fn run_words<'a, F: Source, S: ByteSink + MayClose, Y: System, E: Write, T: AsStr>(
    alloc: Global,
    source: &mut F,
    sink: &mut S,
    system: &Y,
    err: &mut E,
    words: &'a [T],
) -> Result<ToolReport, Ending<ToolFault<'a>>>
    // What was written is what the words ask for.
    ensures answered { let loads = AreCheckLoads (F.files source.old) (F.failures source.old) (F.failures source.new) in
        IfOk result (IsAnsweredTo (map T.text words.entry.now) (F.files source.old) loads (S.written sink.old) (S.written sink.new)) }
    // A table or an index that they ask for is put into its folder; no day is open there, nor in a folder from which it comes.
    ensures made { IfOk result (λ _. IsPlacedTo Y.Disk.meaning (Y.opens system.now) (Y.answers system.now) (F.files source.old) (map T.text words.entry.now)) }
    // That a file is there is told only where one of the names of such a table has one.
    ensures taken { IsErrOf result (Ending.Failed (ToolFault.Make (OfWork Exists)))
        → IsTakenTo Y.Disk.meaning (Y.opens system.now) (map T.text words.entry.now) }
    ensures load_taken { IsErrOf result (Ending.Failed (ToolFault.Load (OfWork IsThere)))
        → IsLoadTakenTo Y.Disk.meaning (Y.opens system.now) (map T.text words.entry.now) }
    ensures index_taken { IsErrOf result (Ending.Failed (ToolFault.Index (OfWork HasIndex)))
        → IsIndexTakenTo Y.Disk.meaning (Y.opens system.now) (map T.text words.entry.now) }
    // That the folder for it can't be read is told only where a call of its disk has failed.
    ensures unread_folder { (told : ToolFault) → TellsUnreadFolder told → IsErrOf result (Ending.Failed told)
        → HasFailedTo Y.Disk.meaning (Y.opens system.now) (map T.text words.entry.now) }
    // That nobody reads the output any more is said only where that is so, and that it failed only where it is not; and both only
    // after a failure.
    ensures unread { result ≡ Ok ToolReport.Unread → (S.closed sink.new ≡ true) × Rises (S.failures sink.old) (S.failures sink.new) }
    ensures output { result ≡ Err (Ending.Failed ToolFault.Output) → (S.closed sink.new ≡ false) × Rises (S.failures sink.old) (S.failures sink.new) }
    // Once the words are read: where no load can give the file that is to be shown or checked, the old table or the journal, the answer is
    // why, whether there is memory or not.
    ensures early { IsToldFirst (map T.text words.entry.now) (F.files source.old) result }
    // Why it was not is what the words say, or a fault of what they ask for.
    ensures fault { IfErr result (IsWhyNotDone (map T.text words.entry.now) (F.files source.old) (F.failures source.old) (F.failures source.new)) }
    ensures kept { IsFront (S.written sink.old) (S.written sink.new) }
{
    let asked = read_options(alloc, words)?;
    warn_of_open_days(system, alloc, err, &asked);
    match run_asked(alloc, source, sink, system, &asked) {
        Ok(report) => Ok(report),
        Err(fault) => Err(Ending::Failed(fault)),
    }
}
