//! What holds of runs: of the answers in their folder, and however often they are started.

ghost use Rattle.std.specs.Prelude.{◌≡◌, List, Option, true};
ghost use Rattle.clap.specs.Words.{Text};
ghost use Rattle.files_in_place.specs.Folder.{Name, Folder};
ghost use Rattle.folders.specs.declared.named.NamedFile.{NamedFile};
ghost use Rattle.server_program.specs.declared.options.Options.{Options};
ghost use Rattle.server_program.specs.declared.served.Served.{Served as ServedValue};
ghost use Rattle.server_program.specs.PlacedAnswers.{HasAnswersOf, HasJournalOf};
ghost use Rattle.server_program.specs.Program.{IsServedAsAsked};
ghost use Rattle.server_program.specs.Starts.{inputs_of, EndsAfterStarts, HasOldOrOneSet, HasWholeSets, StandsFor, Start, WriteNames};

use files_in_place::Disk;
use program_frame::System;

/// A law: where the words of a command line ask for a run, and [`run_program`] says that it came to its end, the folder that they
/// name has the file of each station's answers. But for status rows these are the answers to the station's entries in the run's
/// journal, in order, and where `--journal` is given JOURNAL.TXT in that folder has the same entries.
///
/// [`run_program`]: crate::run_program
pub fn answers_are_in_place<Y: System>()
    ensures answers { (promised : Y.Disk.meaning.keeps_promises) (system : Y) (files : Option (List NamedFile)) (words : List Text) (served : ServedValue) →
        (asked : IsServedAsAsked Y.Disk.meaning (Y.opens system) (Y.answers system) files words served) →
        HasAnswersOf (Y.Disk.meaning.seen asked.put.end) (asked.put.put promised).put.such }
    ensures entries { (promised : Y.Disk.meaning.keeps_promises) (system : Y) (files : Option (List NamedFile)) (words : List Text) (served : ServedValue) →
        (asked : IsServedAsAsked Y.Disk.meaning (Y.opens system) (Y.answers system) files words served) → asked.options.journal ≡ true →
        HasJournalOf (Y.Disk.meaning.seen asked.put.end) (asked.put.put promised).put.such }
{}

/// A law: whatever crashes, is stopped or fails, and however often a run of the same options is started again, each on files of its
/// own: once the folder is recovered, each of the runs in turn has left it as it was or has put all its files into it, never a part
/// of them. Where all of them write files of the same names, the folder has the old files or those of one run.
pub fn whole_sets_stay<D: Disk>()
    ensures whole { D.meaning.keeps_promises → (options : Options) (old last : Folder) (first : D) (starts : List (Start D)) →
        StandsFor D.meaning old first → EndsAfterStarts D.meaning options starts first last → HasWholeSets options (inputs_of starts) old last }
    ensures one { D.meaning.keeps_promises → (options : Options) (names : List Name) (old last : Folder) (first : D) (starts : List (Start D)) →
        WriteNames options names (inputs_of starts) → StandsFor D.meaning old first → EndsAfterStarts D.meaning options starts first last
        → HasOldOrOneSet options (inputs_of starts) old last }
{}
