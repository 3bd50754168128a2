//! What has changed from an old table to a new one.

ghost use Rattle.std.specs.Prelude.{◌≡◌, ◌≤◌, ◌+◌, ◌*◌, ◌^◌, ◌++◌, ◌↔◌, [], length, false, IfOk, IsTrue, OnOk, OnErr};
ghost use Rattle.byte_io.specs.Output.{Puts};
ghost use Rattle.byte_io.specs.Sink.{grown, IsFront, Rises};
ghost use Rattle.dbf_fields.specs.declared.format.TheConstants.{MAX_FIELDS};
ghost use Rattle.dbf_image.specs.Table.{has_memos as have_memos, IsTable, Table};
ghost use Rattle.key_expr.specs.Grammar.{Expr};
ghost use Rattle.std.specs.List.{All};
ghost use Rattle.table_diff.specs.ByKey.{changes_by_key, changes_in, changes_of_matches, diff_text_by_key, match_lines, AreSameByKey};
ghost use Rattle.table_diff.specs.Changes.{changes};
ghost use Rattle.table_diff.specs.DiffText.{change_lines, diff_text};
ghost use Rattle.table_diff.specs.Matching.{matches_by_key, matches_in, new_numbers, old_numbers, HaveRecords};
ghost use Rattle.table_order.specs.TableOrder.{ordered};
ghost use Rattle.table_diff.specs.Fields.{shared_fields as fields_of_both};
ghost use Rattle.table_text.specs.Output.{PutsFront};

use crate::fields::{SharedField, append_field_changes, are_plain_and_same, shared_fields};
use crate::keys::matched_by_key;
use crate::matching::Matches;
use crate::records::append_match_changes;
use byte_io::{ByteSink, SinkWriter};
use dbf_image::GrowingTable;
use key_expr::KeyExpr;
use std::alloc::{AllocError, Global};
use table_text::TextFault;

// The lines of what has changed of the records, and how many they are. An `Err` says that there was no memory: a front part
// was put.
fn put_record_changes<S: ByteSink>(
    alloc: Global,
    out: &mut SinkWriter<'_, S>,
    old_table: &GrowingTable,
    new_table: &GrowingTable,
    matches: Matches<'_>,
    shared: &[SharedField],
    by_bytes: bool,
) -> Result<usize, AllocError>
    requires few { length (matches_in matches) ≤ 2 * 2 ^ 32 }
    requires records { All (HaveRecords old_table.now.table new_table.now.table) (matches_in matches) }
    requires shared { shared.now ≡ fields_of_both old_table.now.table.schema new_table.now.table.schema }
    requires fields { IsTrue by_bytes → old_table.now.table.schema ≡ new_table.now.table.schema }
    requires memos { IsTrue by_bytes → have_memos old_table.now.table.schema ≡ false }
    ensures put { OnOk result (Puts out.old (match_lines old_table.now.table new_table.now.table (matches_in matches.entry)) out.new) }
    ensures front { PutsFront out.old (match_lines old_table.now.table new_table.now.table (matches_in matches.entry)) out.new }
    ensures count { IfOk result (λ count. count ≡ length (changes_of_matches old_table.now.table new_table.now.table (matches_in matches.entry))) }
    ensures bounded { IfOk result (λ count. count ≤ (1 + MAX_FIELDS) * (2 * 2 ^ 32)) }
{
    let mut line = Vec::new(alloc);
    let mut count = 0;
    for place in 0..matches.len() {
        let matched = matches.at(place);
        line.clear();
        let told = append_match_changes(
            alloc, &mut line, old_table, new_table, matched, shared, by_bytes,
        )?;

        count += told;
        out.put(line.as_slice());
    }
    Ok(count)
}

// Writes what has changed of the fields, and then of the records. The answer is how many changes there are of the records.
fn write_changes<S: ByteSink>(
    alloc: Global,
    sink: &mut S,
    head: &[u8],
    old_table: &GrowingTable,
    new_table: &GrowingTable,
    matches: Matches<'_>,
    shared: &[SharedField],
    by_bytes: bool,
) -> Result<usize, TextFault>
    requires few { length (matches_in matches) ≤ 2 * 2 ^ 32 }
    requires records { All (HaveRecords old_table.now.table new_table.now.table) (matches_in matches) }
    requires shared { shared.now ≡ fields_of_both old_table.now.table.schema new_table.now.table.schema }
    requires fields { IsTrue by_bytes → old_table.now.table.schema ≡ new_table.now.table.schema }
    requires memos { IsTrue by_bytes → have_memos old_table.now.table.schema ≡ false }
    ensures wrote { let lines = match_lines old_table.now.table new_table.now.table (matches_in matches.entry) in
        OnOk result (S.written sink.new ≡ grown (S.written sink.old) (head.now ++ lines)) }
    ensures count { IfOk result (λ count. count ≡ length (changes_of_matches old_table.now.table new_table.now.table (matches_in matches.entry))) }
    ensures bounded { IfOk result (λ count. count ≤ (1 + MAX_FIELDS) * (2 * 2 ^ 32)) }
    ensures no_failure { OnOk result (S.failures sink.new ≡ S.failures sink.old) }
    ensures failed { result ≡ Err TextFault.Sink → Rises (S.failures sink.old) (S.failures sink.new) }
    ensures unfailed { result ≡ Err TextFault.NoMemory → S.failures sink.new ≡ S.failures sink.old }
    ensures kept { IsFront (S.written sink.old) (S.written sink.new) }
    ensures front { let lines = match_lines old_table.now.table new_table.now.table (matches_in matches.entry) in
        OnErr result (IsFront (S.written sink.new) (grown (S.written sink.old) (head.now ++ lines))) }
{
    let mut out = SinkWriter::new(sink);
    out.put(head);
    let put = put_record_changes(
        alloc, &mut out, old_table, new_table, matches, shared, by_bytes,
    );
    out.flush()?;
    let count = put?;
    Ok(count)
}

// Writes all that has changed of the fields and of records that are matched, and answers how many changes there are.
#[tactic(auto, using(byte_io::specs::Laws::Sinks::front_same, byte_io::specs::Laws::Sinks::front_grown))]
fn write_all_changes<S: ByteSink>(
    alloc: Global,
    sink: &mut S,
    old_table: &GrowingTable,
    new_table: &GrowingTable,
    matches: Matches<'_>,
) -> Result<usize, TextFault>
    requires few { length (matches_in matches) ≤ 2 * 2 ^ 32 }
    requires records { All (HaveRecords old_table.now.table new_table.now.table) (matches_in matches) }
    ensures wrote { let changes = changes_in old_table.now.table new_table.now.table (matches_in matches.entry) in
        OnOk result (S.written sink.new ≡ grown (S.written sink.old) (change_lines changes)) }
    ensures count { IfOk result (λ count. count ≡ length (changes_in old_table.now.table new_table.now.table (matches_in matches.entry))) }
    ensures no_failure { OnOk result (S.failures sink.new ≡ S.failures sink.old) }
    ensures failed { result ≡ Err TextFault.Sink → Rises (S.failures sink.old) (S.failures sink.new) }
    ensures unfailed { result ≡ Err TextFault.NoMemory → S.failures sink.new ≡ S.failures sink.old }
    ensures kept { IsFront (S.written sink.old) (S.written sink.new) }
    ensures front { let changes = changes_in old_table.now.table new_table.now.table (matches_in matches.entry) in
        OnErr result (IsFront (S.written sink.new) (grown (S.written sink.old) (change_lines changes))) }
{
    let old_fields = old_table.schema().fields();
    let new_fields = new_table.schema().fields();
    let shared = shared_fields(alloc, old_fields, new_fields)?;
    let by_bytes = are_plain_and_same(old_fields, new_fields);
    let mut heading = Vec::new(alloc);
    let fields = append_field_changes(alloc, &mut heading, old_fields, new_fields)?;
    let records = write_changes(
        alloc, sink, &heading, old_table, new_table, matches, &shared, by_bytes,
    )?;
    Ok(fields + records)
}

/// Writes what has changed from an old table to a new one, a line a change, and answers how many changes there are: none exactly
/// where the tables are the same.
///
/// First come the fields that the old or the new table alone has, by name, kind, width and decimals, as `old field DUES: Number 7 2`
/// and `new field DUES: Number 9 2`; or that the fields stand in another order. Then come the records, by their numbers: one that is
/// gone as `record 3 removed: NAME ADA, DUES 12.50`, one that is new as `record 3 added: ..`, a mark as `record 2 marked as deleted` or
/// `record 2 recalled`, and each value that was another as `record 2: DUES 12.50 -> 13.00`, in the fields that both tables have, by
/// their names. Cells of the same field are compared byte by byte, and of fields of another kind or width what [`table_text::write_csv`]
/// writes of them.
///
/// A value is what CSV has of a cell, all of a memo's text too; where this is the same of both cells, the bytes of the cells. It stands
/// as it is where it is one word, and else between quotes, as [`append_between_quotes`](table_text::append_between_quotes) writes
/// it, so that a change is one line.
///
/// Where the fields are the same and none is a memo, only records with other bytes are looked at cell by cell. The memory that is taken
/// is that of the lines of one record and of two memos.
///
/// `NoMemory` says that there was no memory, for a line or a memo, and `Sink` that the sink failed. It has then taken a front part
/// of the text, which may be nothing.
pub fn write_diff<S: ByteSink>(
    alloc: Global,
    sink: &mut S,
    old_table: &GrowingTable,
    new_table: &GrowingTable,
) -> Result<usize, TextFault>
    ensures wrote { OnOk result (S.written sink.new ≡ grown (S.written sink.old) (diff_text old_table.now.table new_table.now.table)) }
    ensures count { IfOk result (λ count. count ≡ length (changes old_table.now.table new_table.now.table)) }
    ensures same { IfOk result (λ count. count ≡ 0 ↔ old_table.now.table ≡ new_table.now.table) }
    ensures no_failure { OnOk result (S.failures sink.new ≡ S.failures sink.old) }
    ensures failed { result ≡ Err TextFault.Sink → Rises (S.failures sink.old) (S.failures sink.new) }
    ensures unfailed { result ≡ Err TextFault.NoMemory → S.failures sink.new ≡ S.failures sink.old }
    // What the sink held before the call it still holds.
    ensures kept { IsFront (S.written sink.old) (S.written sink.new) }
    // What it has after a fault is a front part of the text.
    ensures front { OnErr result (IsFront (S.written sink.new) (grown (S.written sink.old) (diff_text old_table.now.table new_table.now.table))) }
{
    let old_count = old_table.record_count();
    let new_count = new_table.record_count();
    let matches = Matches::ByNumber(old_count, new_count);
    write_all_changes(alloc, sink, old_table, new_table, matches)
}

/// Writes what has changed from an old table to a new one, as [`write_diff`] does, where records are matched by the keys that an
/// expression gives of them, as an index has them: of the records that have one key the first of the old table with the first of
/// the new one, by their numbers, and so on. So a record that has another number alone is no change, as after a PACK; and one whose
/// key is another is told as one that is gone and one that is new.
///
/// `old_key` and `new_key` are one text, read for the fields of each table. Keys are compared byte by byte, so one that a field of
/// another width gives is another key. The records come in the order of their keys, and of their numbers where the keys are the
/// same; those that are marked as deleted have keys too. Of a record that has another number in the new table a line has both, as
/// `record 7 (now 5): DUES 12.50 -> 13.00`.
///
/// The memory that is taken is that of the keys of all records, twice while they are put in order, and what [`write_diff`] takes.
///
/// `NoMemory` says that there was no memory, for the keys, a line or a memo, and `Sink` that the sink failed. It has then taken a
/// front part of the text, which may be nothing.
#[tactic(auto, using(byte_io::specs::Laws::Sinks::front_same, byte_io::specs::Laws::Sinks::front_grown))]
pub fn write_diff_by_key<S: ByteSink>(
    alloc: Global,
    sink: &mut S,
    old_table: &GrowingTable,
    new_table: &GrowingTable,
    old_key: &KeyExpr,
    new_key: &KeyExpr,
) -> Result<usize, TextFault>
    requires old_fields { old_key.now.fields ≡ old_table.now.table.schema }
    requires new_fields { new_key.now.fields ≡ new_table.now.table.schema }
    requires text { old_key.now.text ≡ new_key.now.text }
    ensures wrote { let text = diff_text_by_key old_table.now.table new_table.now.table old_key.now.expr new_key.now.expr in
        OnOk result (S.written sink.new ≡ grown (S.written sink.old) text) }
    ensures count { let told = changes_by_key old_table.now.table new_table.now.table old_key.now.expr new_key.now.expr in
        IfOk result (λ count. count ≡ length told) }
    ensures same { IfOk result (λ count. count ≡ 0 ↔ AreSameByKey old_table.now.table new_table.now.table old_key.now.expr) }
    ensures no_failure { OnOk result (S.failures sink.new ≡ S.failures sink.old) }
    ensures failed { result ≡ Err TextFault.Sink → Rises (S.failures sink.old) (S.failures sink.new) }
    ensures unfailed { result ≡ Err TextFault.NoMemory → S.failures sink.new ≡ S.failures sink.old }
    // What the sink held before the call it still holds.
    ensures kept { IsFront (S.written sink.old) (S.written sink.new) }
    // What it has after a fault is a front part of the text.
    ensures front { let text = diff_text_by_key old_table.now.table new_table.now.table old_key.now.expr new_key.now.expr in
        OnErr result (IsFront (S.written sink.new) (grown (S.written sink.old) text)) }
{
    // For contracts alone: the rows are those of tables, and the keys' expressions are what their texts say.
    let _old = old_table.record_count();
    let _new = new_table.record_count();
    let _old_text = old_key.text();
    let _new_text = new_key.text();
    let matches = matched_by_key(alloc, old_table, new_table, old_key, new_key)?;
    write_all_changes(
        alloc,
        sink,
        old_table,
        new_table,
        Matches::Listed(matches.as_slice()),
    )
}

/// A law: no line is written exactly where the old and the new table are the same: the same fields, and the same records with their
/// marks, their cells and the texts of their memos.
pub fn nothing_is_told_of_the_same()
    ensures told { (old new : Table) → IsTable old → IsTable new → diff_text old new ≡ [] ↔ old ≡ new }
{}

/// A law: where records are matched by the keys of an expression, which is one for one and the same fields, no line is written
/// exactly where the old and the new table have the same fields, and the same records, with their marks, their cells and the texts
/// of their memos, in the order of the keys.
pub fn nothing_is_told_of_the_same_by_key()
    ensures told { (old new : Table) (e f : Expr) → IsTable old → IsTable new → (old.schema ≡ new.schema → e ≡ f)
        → diff_text_by_key old new e f ≡ [] ↔ AreSameByKey old new e }
{}

/// A law: the records of each table are matched once, all of them, in the order of their keys.
pub fn each_record_is_matched_once()
    ensures old_records { (old new : Table) (e f : Expr) → old_numbers (matches_by_key old new e f) ≡ ordered old e }
    ensures new_records { (old new : Table) (e f : Expr) → new_numbers (matches_by_key old new e f) ≡ ordered new f }
{}
