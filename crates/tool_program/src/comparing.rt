//! Two tables that are compared.

ghost use Rattle.std.specs.Prelude.{◌≡◌, Err, Some, IfErr, IfOk, IsErrAnd, OnOk, option_copied};
ghost use Rattle.byte_io.specs.Sink.{IsFront, Rises};
ghost use Rattle.folders.specs.Files.{load_refusal};
ghost use Rattle.table_reader.specs.TableFiles.{IsTableAt};
ghost use Rattle.tool_program.specs.Comparison.{AreCompared, AreTold, AreToldBy, AreToldByKey, IsBadKey, IsOfLoad, IsOfText};
ghost use Rattle.tool_program.specs.Comparison.{IsUntoldOf, IsWhyUncompared, IsWhyUnloaded};

use crate::asked::DiffOptions;
use byte_io::ByteSink;
use dbf_image::GrowingTable;
use folders::{LoadFault, Source};
use key_expr::{ExprFault, KeyExpr};
use std::alloc::Global;
use table_diff::{
    each_record_is_matched_once, nothing_is_told_of_the_same, nothing_is_told_of_the_same_by_key,
    write_diff, write_diff_by_key,
};
use table_reader::{TableReadFault, load_table};
use table_text::TextFault;

/// Why two tables were not compared, or not all was told of them.
#[derive(Clone, Copy, Debug)]
pub(crate) enum CompareFault<'a> {
    /// A table is not read, for a fault of the file of this path.
    Table(&'a str, TableReadFault),
    /// The text of `--key` is no key expression for the table of this path.
    Key(&'a str, ExprFault),
    /// Not all of the text was written.
    Text(TextFault),
}

impl From<TextFault> for CompareFault<'_> {
    ghost use Rattle.std.specs.Prelude.{◌≡◌};
    ghost use Rattle.tool_program.specs.declared.comparing.CompareFault.TheVariants.{Text};

    ghost from_gives = { λ why fault. fault ≡ Text why };

    fn from(why: TextFault) -> Self {
        CompareFault::Text(why)
    }
}

// The table of a path.
fn loaded<'a, F: Source>(
    alloc: Global,
    source: &mut F,
    path: &'a str,
    memos: Option<&'a str>,
) -> Result<GrowingTable, CompareFault<'a>>
    ensures table { IfOk result (λ read. IsTableAt (F.files source.old) path.entry.now (option_copied memos.entry) read.table) }
    ensures no_failure { OnOk result (F.failures source.new ≡ F.failures source.old) }
    ensures early { (why : LoadFault) → load_refusal (F.files source.old) path.entry.now ≡ Some why → IsErrAnd result (IsOfLoad path.entry.now why) }
    ensures fault { let of_loads = IsWhyUnloaded (F.files source.old) (F.failures source.old) (F.failures source.new) in
        IfErr result (of_loads path.entry.now (option_copied memos.entry)) }
    ensures kept { F.files source.new ≡ F.files source.old }
{
    match load_table(alloc, source, path, memos) {
        Ok(table) => Ok(table.into_growing()),
        Err(why) => Err(CompareFault::Table(why.path_of(path, memos), why)),
    }
}

// The key expression of a text for the table of a path.
fn key_of<'a>(
    alloc: Global,
    table: &GrowingTable,
    path: &'a str,
    text: &str,
) -> Result<KeyExpr, CompareFault<'a>>
    ensures text { IfOk result (λ key. key.text ≡ text.now) }
    ensures fields { IfOk result (λ key. key.fields ≡ table.now.table.schema) }
    ensures bad { IfErr result (IsBadKey path.entry.now table.now.table.schema text.now) }
{
    match KeyExpr::parse(alloc, text.as_bytes(), table.schema()) {
        Ok(key) => Ok(key),
        Err(why) => Err(CompareFault::Key(path, why)),
    }
}

// Writes what has changed from one table to the other, by their records' numbers, and answers whether anything has.
fn write_by_number<S: ByteSink>(
    alloc: Global,
    sink: &mut S,
    old_table: &GrowingTable,
    new_table: &GrowingTable,
) -> Result<bool, TextFault>
    ensures told { IfOk result (λ differ. AreTold differ old_table.now.table new_table.now.table (S.written sink.old) (S.written sink.new)) }
    ensures failed { result ≡ Err TextFault.Sink → Rises (S.failures sink.old) (S.failures sink.new) }
    ensures kept { IsFront (S.written sink.old) (S.written sink.new) }
{
    // For contracts alone: the rows are those of tables.
    let _old = old_table.record_count();
    let _new = new_table.record_count();
    nothing_is_told_of_the_same();
    let count = write_diff(alloc, sink, old_table, new_table)?;
    Ok(count > 0)
}

// The same, where records are matched by their keys.
fn write_by_key<S: ByteSink>(
    alloc: Global,
    sink: &mut S,
    old_table: &GrowingTable,
    new_table: &GrowingTable,
    old_key: &KeyExpr,
    new_key: &KeyExpr,
) -> Result<bool, TextFault>
    requires old_fields { old_key.now.fields ≡ old_table.now.table.schema }
    requires new_fields { new_key.now.fields ≡ new_table.now.table.schema }
    requires text { old_key.now.text ≡ new_key.now.text }
    ensures told { let by = AreToldByKey old_key.now.text in
        IfOk result (λ differ. by differ old_table.now.table new_table.now.table (S.written sink.old) (S.written sink.new)) }
    ensures failed { result ≡ Err TextFault.Sink → Rises (S.failures sink.old) (S.failures sink.new) }
    ensures kept { IsFront (S.written sink.old) (S.written sink.new) }
{
    // For contracts alone: the rows are those of tables, and the keys' expressions are what their texts say.
    let _old = old_table.record_count();
    let _new = new_table.record_count();
    let _old_text = old_key.text();
    let _new_text = new_key.text();
    nothing_is_told_of_the_same_by_key();
    each_record_is_matched_once();
    let count = write_diff_by_key(alloc, sink, old_table, new_table, old_key, new_key)?;
    Ok(count > 0)
}

// Writes what has changed from the old table of a command line to the new one, and answers whether anything has.
#[tactic(auto, using(byte_io::specs::Laws::Sinks::front_same))]
fn write_changes<'a, S: ByteSink>(
    alloc: Global,
    sink: &mut S,
    old_table: &GrowingTable,
    new_table: &GrowingTable,
    options: &DiffOptions<'a>,
) -> Result<bool, CompareFault<'a>>
    ensures told { let by = AreToldBy (option_copied options.now.key) in
        IfOk result (λ differ. by differ old_table.now.table new_table.now.table (S.written sink.old) (S.written sink.new)) }
    ensures failed { result ≡ Err (CompareFault.Text TextFault.Sink) → Rises (S.failures sink.old) (S.failures sink.new) }
    ensures kept { IsFront (S.written sink.old) (S.written sink.new) }
    ensures untold { IfErr result (λ fault. ¬ IsOfText fault → S.written sink.new ≡ S.written sink.old) }
    ensures fault { IfErr result (IsUntoldOf old_table.now.table new_table.now.table options.now) }
{
    let Some(text) = options.key else {
        let differ = write_by_number(alloc, sink, old_table, new_table)?;
        return Ok(differ);
    };
    let old_key = key_of(alloc, old_table, options.old_table, text)?;
    let new_key = key_of(alloc, new_table, options.new_table, text)?;
    let differ = write_by_key(alloc, sink, old_table, new_table, &old_key, &new_key)?;
    Ok(differ)
}

/// Reads the two tables of a command line, each with its memos, and writes what has changed from the old one to the new one, a line a
/// change, into a sink. Records are matched by their keys, where an expression is given, and else by their numbers. The answer is whether
/// anything has.
///
/// `Table` and `Key` say that nothing was written; after `Text` the sink has a front part of the text.
#[tactic(auto, using(byte_io::specs::Laws::Sinks::front_same))]
pub(crate) fn compare_tables<'a, F: Source, S: ByteSink>(
    alloc: Global,
    source: &mut F,
    sink: &mut S,
    options: &DiffOptions<'a>,
) -> Result<bool, CompareFault<'a>>
    ensures compared { IfOk result (λ differ. AreCompared (F.files source.old) options.now differ (S.written sink.old) (S.written sink.new)) }
    // The sink is said to have failed only where it has.
    ensures failed { result ≡ Err (CompareFault.Text TextFault.Sink) → Rises (S.failures sink.old) (S.failures sink.new) }
    ensures kept { IsFront (S.written sink.old) (S.written sink.new) }
    ensures untold { IfErr result (λ fault. ¬ IsOfText fault → S.written sink.new ≡ S.written sink.old) }
    // Where no load can give the old table's file the answer is why, whether there is memory or not.
    ensures early { (why : LoadFault) → load_refusal (F.files source.old) options.now.old_table.now ≡ Some why
        → IsErrAnd result (IsOfLoad options.now.old_table.now why) }
    ensures fault { IfErr result (IsWhyUncompared (F.files source.old) (F.failures source.old) (F.failures source.new) options.now) }
{
    let old_table = loaded(alloc, source, options.old_table, options.old_memos)?;
    let new_table = loaded(alloc, source, options.new_table, options.new_memos)?;
    write_changes(alloc, sink, &old_table, &new_table, options)
}
