//! What a run has written reads back, and opens again.

ghost use Rattle.std.specs.Prelude.{◌≡◌, ℕ, List, Option, false};
ghost use Rattle.dbf_image.specs.Table.{Table, IsTable};
ghost use Rattle.table_core.specs.Content.{Indexed};
ghost use Rattle.folders.specs.declared.named.NamedFile.{NamedFile};
ghost use Rattle.office_run.specs.Writable.{has_too_many};
ghost use Rattle.office_run.specs.HandedOver.{IsIndexFor};
ghost use Rattle.office_run.specs.ReadBack.{TableReadsBack, IndexReadsBack, RunReadsBack};

/// A law: the files that are written of a table read back as it, and the file that is written of an index reads back as its
/// expression, without the blanks at its text's end, with pairs that are fresh for the table. So a catalogue that is opened of
/// the files of a run has its tables and indexes as the run left them: no table and no index is refused.
pub fn written_files_read_back()
    // The files that are written of a table are those of this table and of no other.
    ensures table { (table : Table) → IsTable table → has_too_many table ≡ false → TableReadsBack table }
    // The file that is written of an index reads as its expression, and is fresh for its table.
    ensures index { (table : Table) (index : Indexed) → IsTable table → IsIndexFor table.schema index → IndexReadsBack table index }
    // What is read from the files that `serve` wrote opens as the run left it.
    ensures opens { (files : Option (List NamedFile)) (setup : List ℕ) → RunReadsBack files setup }
{}
