//! The answers of a run are those of its journal.

ghost use Rattle.std.specs.Prelude.{ℕ, List, Option};
ghost use Rattle.folders.specs.declared.named.NamedFile.{NamedFile};
ghost use Rattle.office_run.specs.AnswerFiles.{WritesAnswers, WritesEntries};

/// A law: among the files of a whole run that came to its end is that of each station's answers, as STATION1.TXT, and but for status
/// rows it has the answers to the station's entries in the journal of the run, in order. So no station was told anything that the
/// replay of the journal does not say. Where the journal is asked for, the lines of its file are those of the same entries.
pub fn answers_are_the_journals()
    ensures answers { (files : Option (List NamedFile)) (setup : List ℕ) → WritesAnswers files setup }
    ensures entries { (files : Option (List NamedFile)) (setup : List ℕ) → WritesEntries files setup }
{}
