//! A table that is read and shown.

ghost use Rattle.std.specs.Prelude.{◌≡◌, Err, Some, OnOk, OnErr, IfOk, IfErr, option_copied};
ghost use Rattle.std.specs.Option.{option_map};
ghost use Rattle.byte_io.specs.Sink.{grown, IsFront, Rises};
ghost use Rattle.folders.specs.Files.{IsUnrecovered, load_refusal};
ghost use Rattle.tool_program.specs.Order.{from_text, IsGivenOrderFault, IsOrder};
ghost use Rattle.table_reader.specs.Memos.{IsMemosFault, IsNotHad};
ghost use Rattle.table_reader.specs.TableFiles.{IsNoTable};
ghost use Rattle.tool_program.specs.View.{view_text, IsBeforeText, IsNoOrder, IsShown};

use crate::asked::{Options, View};
use crate::loading::memos_of;
use crate::order::{OrderFault, read_order};
use byte_io::ByteSink;
use dbf_fields::Day;
use dbf_image::{ImageFault, TableData, read_table};
use folders::{LoadFault, Source};
use std::alloc::Global;
use table_text::{TextFault, header_date, write_csv, write_fields, write_records};

/// Why a table was not shown, or not whole.
#[derive(Clone, Copy, Debug, PartialEq, Eq)]
pub enum ShowFault {
    /// The table's file can't be read, or its folder is not recovered.
    Load(LoadFault),
    /// The same is true of the file of its memos.
    Memos(LoadFault),
    /// The files are no table.
    Table(ImageFault),
    /// The records can't be shown in the order of the index.
    Order(OrderFault),
    /// The text was not written.
    Text(TextFault),
}

impl From<LoadFault> for ShowFault {
    ghost use Rattle.std.specs.Prelude.{◌≡◌};
    ghost use Rattle.tool_program.specs.declared.showing.ShowFault.TheVariants.{Load};

    ghost from_gives = { λ cause fault. fault ≡ Load cause };

    fn from(cause: LoadFault) -> ShowFault {
        ShowFault::Load(cause)
    }
}

impl From<ImageFault> for ShowFault {
    ghost use Rattle.std.specs.Prelude.{◌≡◌};
    ghost use Rattle.tool_program.specs.declared.showing.ShowFault.TheVariants.{Table};

    ghost from_gives = { λ cause fault. fault ≡ Table cause };

    fn from(cause: ImageFault) -> ShowFault {
        ShowFault::Table(cause)
    }
}

impl From<OrderFault> for ShowFault {
    ghost use Rattle.std.specs.Prelude.{◌≡◌};
    ghost use Rattle.tool_program.specs.declared.showing.ShowFault.TheVariants.{Order};

    ghost from_gives = { λ cause fault. fault ≡ Order cause };

    fn from(cause: OrderFault) -> ShowFault {
        ShowFault::Order(cause)
    }
}

impl From<TextFault> for ShowFault {
    ghost use Rattle.std.specs.Prelude.{◌≡◌};
    ghost use Rattle.tool_program.specs.declared.showing.ShowFault.TheVariants.{Text};

    ghost from_gives = { λ cause fault. fault ≡ Text cause };

    fn from(cause: TextFault) -> ShowFault {
        ShowFault::Text(cause)
    }
}

// The text of a table that is asked for, its records in an order, into a sink.
fn write_view<S: ByteSink>(
    alloc: Global,
    sink: &mut S,
    table: &TableData,
    date: Option<Day>,
    order: Option<&[u32]>,
    view: View,
) -> Result<(), TextFault>
    ensures wrote { OnOk result (S.written sink.new ≡ grown (S.written sink.old) (view_text table.now date (option_copied order.entry) view)) }
    ensures no_failure { OnOk result (S.failures sink.new ≡ S.failures sink.old) }
    ensures failed { result ≡ Err TextFault.Sink → Rises (S.failures sink.old) (S.failures sink.new) }
    ensures unfailed { result ≡ Err TextFault.NoMemory → S.failures sink.new ≡ S.failures sink.old }
    ensures kept { IsFront (S.written sink.old) (S.written sink.new) }
    ensures front { OnErr result (IsFront (S.written sink.new) (grown (S.written sink.old) (view_text table.now date (option_copied order.entry) view))) }
{
    match view {
        View::Records(selection, memos) => {
            write_records(alloc, sink, table, order, selection, memos)
        }
        View::Csv(selection, deleted_column) => {
            write_csv(alloc, sink, table, order, selection, deleted_column)
        }
        View::Fields => write_fields(alloc, sink, table, date),
    }
}

// The table, and the numbers of its records in the order of the index whose path is given.
fn load_order<F: Source>(
    alloc: Global,
    source: &mut F,
    path: Option<&str>,
    from: Option<&str>,
    table: TableData,
) -> Result<(TableData, Option<Vec<u32>>), OrderFault>
    ensures table { IfOk result (λ read. read.0 ≡ table) }
    ensures fault { let unread = IsNotHad (F.files source.old) (F.failures source.old) (F.failures source.new) in
        IfErr result (IsGivenOrderFault (F.files source.old) unread (option_copied path.entry) table) }
    ensures order { IfOk result (λ read. IsOrder (F.files source.old) (option_copied path.entry) (option_copied from.entry) table (option_map (λ numbers. numbers.items) read.1)) }
    ensures kept { F.files source.new ≡ F.files source.old }
{
    let Some(path) = path else {
        return Ok((table, None));
    };
    let (table, numbers) = read_order(alloc, source, path, text_of(from), table)?;
    Ok((table, Some(numbers)))
}

// The text that keys are looked for from; no key is less than the empty one.
fn text_of<'a>(from: Option<&'a str>) -> &'a [u8]
    ensures value { result.now ≡ from_text (option_copied from.entry) }
{
    match from {
        Some(text) => text.as_bytes(),
        None => b"",
    }
}

fn numbers_of(numbers: &Option<Vec<u32>>) -> Option<&[u32]>
    ensures value { option_copied result ≡ option_map (λ list. list.items) numbers.now }
{
    match numbers {
        Some(numbers) => Some(numbers.as_slice()),
        None => None,
    }
}

/// Reads the table of a command line, its memos and the index that orders it, and writes what is asked for into a sink.
///
/// A fault of `Load`, `Memos`, `Table` or `Order` says that nothing was written; after one of `Text` the sink has a front part of the
/// text.
#[tactic(auto, using(byte_io::specs::Laws::Sinks::front_same))]
pub fn show_file<F: Source, S: ByteSink>(
    alloc: Global,
    source: &mut F,
    sink: &mut S,
    options: &Options<'_>,
) -> Result<(), ShowFault>
    // What was written is the text of the table whose files these are.
    ensures shown { OnOk result (IsShown (F.files source.old) options.now (S.written sink.old) (S.written sink.new)) }
    ensures no_failure { OnOk result (S.failures sink.new ≡ S.failures sink.old) }
    // The sink is said to have failed only where it has, and want of memory only where it has not.
    ensures failed { result ≡ Err (ShowFault.Text TextFault.Sink) → Rises (S.failures sink.old) (S.failures sink.new) }
    ensures unfailed { result ≡ Err (ShowFault.Text TextFault.NoMemory) → S.failures sink.new ≡ S.failures sink.old }
    ensures kept { IsFront (S.written sink.old) (S.written sink.new) }
    // Where no load can give the table's file the answer is why, whether there is memory or not.
    ensures early { (why : LoadFault) → load_refusal (F.files source.old) options.now.table.now ≡ Some why → result ≡ Err (ShowFault.Load why) }
    ensures unrecovered { result ≡ Err (ShowFault.Load LoadFault.Unrecovered) → IsUnrecovered (F.files source.old) options.now.table.now }
    // That the table's file can't be read is said only where its load has failed, or where it is over the limit.
    ensures unread { let unread = IsNotHad (F.files source.old) (F.failures source.old) (F.failures source.new) in
        result ≡ Err (ShowFault.Load LoadFault.CannotRead) → unread options.now.table.now }
    ensures untold { IfErr result (λ fault. IsBeforeText fault → S.written sink.new ≡ S.written sink.old) }
    // A fault of `Memos` is one of the file of memos, and one of `Table` is the reader's of the table's own files.
    ensures memos { let unread = IsNotHad (F.files source.old) (F.failures source.old) (F.failures source.new) in
        (why : LoadFault) → result ≡ Err (ShowFault.Memos why) → IsMemosFault (F.files source.old) unread options.now.table.now (option_copied options.now.memos) why }
    ensures no_table { let unread = IsNotHad (F.files source.old) (F.failures source.old) (F.failures source.new) in
        (why : ImageFault) → result ≡ Err (ShowFault.Table why)
        → IsNoTable (F.files source.old) unread options.now.table.now (option_copied options.now.memos) why }
    // A fault of `Order` is one of the index file for that table.
    ensures no_order { (why : OrderFault) → result ≡ Err (ShowFault.Order why)
        → IsNoOrder (F.files source.old) (F.failures source.old) (F.failures source.new) options.now why }
{
    let dbf = source.load(alloc, options.table.as_bytes())?;
    let date = header_date(dbf.as_slice());
    let memos = memos_of(alloc, source, options.table, dbf.as_slice(), options.memos)?;
    let table = read_table(alloc, dbf, memos)?;
    let (table, order) = load_order(alloc, source, options.order, options.from, table)?;
    write_view(alloc, sink, &table, date, numbers_of(&order), options.view)?;
    Ok(())
}
