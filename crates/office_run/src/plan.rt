//! The files that a run will write, in their order.

ghost use Rattle.std.specs.Prelude.{◌≡◌, ◌++◌, ◌∷◌, [], IfOk, OnOk, false, map, None};
ghost use Rattle.dbf_image.specs.Image.{IsOutside};
ghost use Rattle.dbf_image.specs.Table.{has_memos as some_memo};
ghost use Rattle.office_run.specs.Closing.{file_of, dbf_file, memo_files, index_file, table_files, tables_files, answer_files, run_files, answer_name, first_blocked};
ghost use Rattle.office_run.specs.Writable.{has_too_many};

use crate::closed::ClosedTable;
use crate::closed_index::ClosedIndex;
use crate::content::Content;
use crate::planned::Planned;
use byte_io::Bytes;
use dbf_fields::{Day, Field, MEMO};
use std::alloc::{AllocError, Global};

// A name with an ending.
fn name_with(alloc: Global, name: &Bytes, ending: &[u8]) -> Result<Bytes, AllocError>
    ensures value { IfOk result (λ whole. whole ≡ name.now ++ ending.now) }
{
    let mut whole = Vec::from_slice(alloc, name.as_slice())?;
    whole.extend_from_slice(ending)?;
    Ok(Bytes::from_vec(whole))
}

// The name of the file of a station's answers.
fn name_of_answers(alloc: Global, station: usize) -> Result<Bytes, AllocError>
    ensures value { IfOk result (λ name. name ≡ answer_name station) }
{
    let text = format!(in alloc; "STATION{station}.TXT")?;
    Bytes::from_slice(alloc, text.as_bytes())
}

// Whether some field is a memo.
fn has_memos(fields: &[Field]) -> bool
    ensures value { result ≡ some_memo fields.now }
{
    fields.iter().any(|field| field.kind == MEMO)
}

// The file of a table's fields and records after the others.
fn plan_records<'a>(
    alloc: Global,
    planned: &mut Vec<Planned<'a>>,
    closed: &'a ClosedTable,
    day: Day,
) -> Result<(), AllocError>
    requires dated { ¬ IsOutside day.year }
    requires blocks_fit { has_too_many closed.now.content ≡ false }
    ensures files { OnOk result (map file_of planned.new.items ≡ map file_of planned.old.items ++ dbf_file day.year day.month day.day closed.now ∷ []) }
{
    planned.push(Planned {
        name: name_with(alloc, &closed.name, b".DBF")?,
        content: Content::Table(&closed.content, day),
    })?;
    Ok(())
}

// The file of a table's memos after the others, where a field is a memo.
fn plan_memos<'a>(
    alloc: Global,
    planned: &mut Vec<Planned<'a>>,
    closed: &'a ClosedTable,
) -> Result<(), AllocError>
    requires blocks_fit { has_too_many closed.now.content ≡ false }
    ensures files { OnOk result (map file_of planned.new.items ≡ map file_of planned.old.items ++ memo_files closed.now) }
{
    if has_memos(closed.content.schema().fields()) {
        planned.push(Planned {
            name: name_with(alloc, &closed.name, b".DBT")?,
            content: Content::Memos(&closed.content),
        })?;
    }
    Ok(())
}

// The file of an index after the others.
fn plan_index<'a>(
    alloc: Global,
    planned: &mut Vec<Planned<'a>>,
    index: &'a ClosedIndex,
) -> Result<(), AllocError>
    ensures files { OnOk result (map file_of planned.new.items ≡ map file_of planned.old.items ++ index_file index.now ∷ []) }
{
    planned.push(Planned {
        name: name_with(alloc, index.name(), b".NDX")?,
        content: Content::Index(index),
    })?;
    Ok(())
}

// The files of a table's indexes after the others.
fn plan_indexes<'a>(
    alloc: Global,
    planned: &mut Vec<Planned<'a>>,
    indexes: &'a [ClosedIndex],
) -> Result<(), AllocError>
    ensures files { OnOk result (map file_of planned.new.items ≡ map file_of planned.old.items ++ map index_file indexes.now) }
{
    for index in indexes {
        plan_index(alloc, planned, index)?;
    }
    Ok(())
}

// The files of a table after the others.
fn plan_table<'a>(
    alloc: Global,
    planned: &mut Vec<Planned<'a>>,
    closed: &'a ClosedTable,
    day: Day,
) -> Result<(), AllocError>
    requires dated { ¬ IsOutside day.year }
    requires blocks_fit { has_too_many closed.now.content ≡ false }
    ensures files { OnOk result (map file_of planned.new.items ≡ map file_of planned.old.items ++ table_files day.year day.month day.day closed.now) }
{
    plan_records(alloc, planned, closed, day)?;
    plan_memos(alloc, planned, closed)?;
    plan_indexes(alloc, planned, &closed.indexes)?;
    Ok(())
}

// The files of the tables, in their order, after the others.
fn plan_tables<'a>(
    alloc: Global,
    planned: &mut Vec<Planned<'a>>,
    tables: &'a [ClosedTable],
    day: Day,
) -> Result<(), AllocError>
    requires dated { ¬ IsOutside day.year }
    requires blocks_fit { first_blocked 1 tables.now ≡ None }
    ensures files { OnOk result (map file_of planned.new.items ≡ map file_of planned.old.items ++ tables_files day.year day.month day.day tables.now) }
{
    for closed in tables {
        plan_table(alloc, planned, closed, day)?;
    }
    Ok(())
}

// The files of the stations' answers after the others.
fn plan_answers<'a>(
    alloc: Global,
    planned: &mut Vec<Planned<'a>>,
    answers: &'a [Bytes],
) -> Result<(), AllocError>
    ensures files { OnOk result (map file_of planned.new.items ≡ map file_of planned.old.items ++ answer_files 1 answers.now) }
{
    let mut station = 0;
    for answer in answers {
        station += 1;
        planned.push(Planned {
            name: name_of_answers(alloc, station)?,
            content: Content::Text(answer),
        })?;
    }
    Ok(())
}

/// The files of tables and answers, in the order in which they are written. An error where memory is refused.
pub(crate) fn plan_files<'a>(
    alloc: Global,
    tables: &'a [ClosedTable],
    answers: &'a [Bytes],
    day: Day,
) -> Result<Vec<Planned<'a>>, AllocError>
    requires dated { ¬ IsOutside day.year }
    requires blocks_fit { first_blocked 1 tables.now ≡ None }
    ensures files { IfOk result (λ planned. map file_of planned.items ≡ run_files day tables.now answers.now) }
{
    let mut planned = Vec::new(alloc);
    plan_tables(alloc, &mut planned, tables, day)?;
    plan_answers(alloc, &mut planned, answers)?;
    Ok(planned)
}
