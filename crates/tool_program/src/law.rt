//! The journals of runs, as `table_tool answers` shows them.

ghost use Rattle.std.specs.Prelude.{ℕ, List, Option};
ghost use Rattle.catalogue_core.specs.declared.entry.Entry.{Entry};
ghost use Rattle.folders.specs.declared.named.NamedFile.{NamedFile};
ghost use Rattle.tool_program.specs.RunAnswers.{AsksForItsOwn, NeverCalledNone, ShowsAnswersOfRun};

/// A law: what `table_tool answers` prints of the journal's file of a run are the entries of that run's journal, in its order: each
/// command beside the answer that it got. With the number of a station they are those of this station alone. It never says of such a file
/// that it is no journal, or is cut.
pub fn answers_of_runs_are_shown()
    ensures shown { (files : Option (List NamedFile)) (later : List NamedFile) (setup : List ℕ) → ShowsAnswersOfRun files later setup }
    ensures own { (journal : List Entry) (station : ℕ) → AsksForItsOwn journal station }
    ensures never_none { (files : Option (List NamedFile)) (later : List NamedFile) (setup : List ℕ) → NeverCalledNone files later setup }
{}
