//! The journal that a run has written holds in an audit, and of one that was changed the first entry is named that does not hold.

ghost use Rattle.std.specs.Prelude.{ℕ, List, Option};
ghost use Rattle.folders.specs.declared.named.NamedFile.{NamedFile};
ghost use Rattle.audit_program.specs.declared.options.Options.{Options};
ghost use Rattle.audit_program.specs.Laws.{FailsForLoadsAlone, HoldsInAudits, NamesTheFirst, NeverPasses, NeverRefutes, OpensAsAnAudit, WritesAJournal, WritesAWholeText, WritesTheSame};

/// A law: the last file of a run whose journal is written, as `office_run`'s `serve_asked` writes it, has a journal's whole
/// text, whose lines of entries are the journal of a legal history on the tables as they were opened, and an audit of these on
/// these tables says that all entries hold, or that memory was refused. Over the run's files as they were the audit opens the
/// run's tables: so this program never says of a run's journal that it is none or is cut, that the run was another, or that an
/// entry does not hold; it fails for want of memory, or since a file can't be read, alone; and the files that it writes on the
/// run's day are said to be the run's.
pub fn journals_of_runs_hold()
    ensures opened { (files : Option (List NamedFile)) (setup : List ℕ) → OpensAsAnAudit files setup }
    ensures whole { (files : Option (List NamedFile)) (setup : List ℕ) → WritesAWholeText files setup }
    ensures journal { (files : Option (List NamedFile)) (setup : List ℕ) → WritesAJournal files setup }
    ensures holds { (files : Option (List NamedFile)) (setup : List ℕ) → HoldsInAudits files setup }
    ensures never_refuted { (files later : List NamedFile) (options : Options) → NeverRefutes files later options }
    ensures loads_alone { (files later : List NamedFile) (options : Options) → FailsForLoadsAlone files later options }
    ensures same_files { (files later : List NamedFile) (options : Options) → WritesTheSame files later options }
{}

/// A law: where an entry of a journal has another answer than its command has at its place, the program never says that all entries
/// hold, and where it says that one does not, it is the first such entry: its number, its station, its command, its answer and the
/// right one are those that are printed.
pub fn first_other_is_named()
    ensures names { (files : List NamedFile) (options : Options) → NamesTheFirst files options }
    ensures never_passes { (files : List NamedFile) (options : Options) → NeverPasses files options }
{}
