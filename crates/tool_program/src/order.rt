//! The order of an index file, in which records are shown.

ghost use Rattle.std.specs.Prelude.{◌≡◌, Err, Some, IfOk, IfErr, length};
ghost use Rattle.ndx_index.specs.Order.{reaches as reaches_text};
ghost use Rattle.table_order.specs.TableOrder.{order as order_of};
ghost use Rattle.table_core.specs.Content.{order_at};
ghost use Rattle.folders.specs.Files.{load_refusal};
ghost use Rattle.table_reader.specs.Memos.{IsNotHad};
ghost use Rattle.tool_program.specs.Order.{numbers_from as numbers_of_pairs, AreKeysOf, IsOrderFault, IsOrderOf, IsReadFault, IsTestedFirst};

use byte_io::Bytes;
use dbf_image::TableData;
use folders::{LoadFault, Source};
use key_expr::{ExprFault, KeyExpr};
use ndx_index::{NdxFault, NdxFile, Pair, PairList, read_ndx};
use std::alloc::{AllocError, Global};
use table_core::Table;

/// Why records can't be shown in the order of an index file.
#[derive(Clone, Copy, Debug, PartialEq, Eq)]
pub enum OrderFault {
    /// The file can't be read.
    Load(LoadFault),
    /// Its bytes are no index.
    Index(NdxFault),
    /// Its text is no key expression for the table's fields.
    Expression(ExprFault),
    /// Its pairs are not those of the table's records.
    Stale,
    /// Memory was refused.
    NoMemory,
}

impl From<AllocError> for OrderFault {
    ghost use Rattle.std.specs.Prelude.{◌≡◌};
    ghost use Rattle.tool_program.specs.declared.order.OrderFault.TheVariants.{NoMemory};

    ghost from_gives = { λ _ fault. fault ≡ NoMemory };

    fn from(_refused: AllocError) -> OrderFault {
        OrderFault::NoMemory
    }
}

impl From<LoadFault> for OrderFault {
    ghost use Rattle.std.specs.Prelude.{◌≡◌};
    ghost use Rattle.tool_program.specs.declared.order.OrderFault.TheVariants.{Load};

    ghost from_gives = { λ cause fault. fault ≡ Load cause };

    fn from(cause: LoadFault) -> OrderFault {
        OrderFault::Load(cause)
    }
}

impl From<NdxFault> for OrderFault {
    ghost use Rattle.std.specs.Prelude.{◌≡◌};
    ghost use Rattle.tool_program.specs.declared.order.OrderFault.TheVariants.{Index};

    ghost from_gives = { λ cause fault. fault ≡ Index cause };

    fn from(cause: NdxFault) -> OrderFault {
        OrderFault::Index(cause)
    }
}

impl From<ExprFault> for OrderFault {
    ghost use Rattle.std.specs.Prelude.{◌≡◌};
    ghost use Rattle.tool_program.specs.declared.order.OrderFault.TheVariants.{Expression};

    ghost from_gives = { λ cause fault. fault ≡ Expression cause };

    fn from(cause: ExprFault) -> OrderFault {
        OrderFault::Expression(cause)
    }
}

// Whether a key isn't less than a text.
fn reaches(pair: &Pair, text: &[u8]) -> bool
    ensures value { result ≡ reaches_text text.now pair.now }
{
    !pair.key.as_bytes().cmp(text).is_lt()
}

// The numbers of the pairs whose keys aren't less than a text.
fn numbers_from(alloc: Global, pairs: &PairList, text: &[u8]) -> Result<Vec<u32>, AllocError>
    ensures value { IfOk result (λ numbers. numbers.items ≡ numbers_of_pairs text.now pairs.now.pairs) }
{
    let mut numbers = Vec::new(alloc);
    for at in 0..pairs.len() {
        let pair = pairs.get(at);
        if reaches(&pair, text) {
            numbers.push(pair.number)?;
        }
    }
    Ok(numbers)
}

// The table with the index of a file alone, where the file's pairs are those of its records.
fn with_index(
    alloc: Global,
    table: TableData,
    file: NdxFile,
    expr: KeyExpr,
) -> Result<Table, OrderFault>
    requires read { expr.fields ≡ table.schema }
    ensures table { IfOk result (λ indexed. indexed.content.table ≡ table) }
    ensures one { IfOk result (λ indexed. length indexed.content.indexes ≡ 1) }
    ensures order { IfOk result (λ indexed. order_at indexed.content 1 ≡ order_of table expr.expr) }
    ensures own { IfOk result (λ _. AreKeysOf table expr.expr file.key_len file.pairs.pairs) }
    ensures stale { IfErr result (λ fault. fault ≡ OrderFault.Stale → AreKeysOf table expr.expr file.key_len file.pairs.pairs → ⊥) }
    ensures fault { IfErr result IsReadFault }
{
    let NdxFile {
        expr: name,
        key_len,
        pairs,
    } = file;
    if key_len != expr.key_len() {
        return Err(OrderFault::Stale);
    }
    let mut indexed = Table::without_indexes(alloc, table);
    match indexed.add_kept_index(alloc, name, expr, pairs) {
        Ok(true) => Ok(indexed),
        Ok(false) => Err(OrderFault::Stale),
        Err(_) => Err(OrderFault::NoMemory),
    }
}

/// The table, and the numbers of its records in the order of the index file of a path, from the first key on that isn't less
/// than a text.
///
/// `Load` says that the file can't be read or its folder is not recovered, `Index` that it is no index, `Expression` that its text is no key expression for
/// the table's fields, and `Stale` that its keys are not those of the table's records. `NoMemory` says that there was no memory,
/// which each of the first three may say too.
pub fn read_order<F: Source>(
    alloc: Global,
    source: &mut F,
    path: &str,
    text: &[u8],
    table: TableData,
) -> Result<(TableData, Vec<u32>), OrderFault>
    ensures table { IfOk result (λ read. read.0 ≡ table) }
    ensures order { IfOk result (λ read. IsOrderOf (F.files source.old) path.now text.now table read.1.items) }
    // A fault is that of the file: why it was not had, its reader's own, that its text is no key expression, or that it is stale.
    ensures refused { let unread = IsNotHad (F.files source.old) (F.failures source.old) (F.failures source.new) in
        IfErr result (IsOrderFault (F.files source.old) unread path.now table) }
    ensures kept { F.files source.new ≡ F.files source.old }
    // Where no load can give the file the answer is why, whether there is memory or not,
    ensures unread { (why : LoadFault) → load_refusal (F.files source.old) path.now ≡ Some why → result ≡ Err (OrderFault.Load why) }
    // and where its header page breaks a rule the answer is that, once it is loaded.
    ensures early { IfErr result (IsTestedFirst (F.files source.old) path.now) }
{
    let bytes = source.load(alloc, path.as_bytes())?;
    let file = read_ndx(alloc, bytes.as_slice())?;
    let expr = KeyExpr::parse(alloc, file.expr.as_slice(), table.schema())?;
    let indexed = with_index(alloc, table, file, expr)?;
    let pairs = indexed.index_pairs(alloc, 1)?;
    let numbers = numbers_from(alloc, &pairs, text)?;
    Ok((indexed.into_data(), numbers))
}
