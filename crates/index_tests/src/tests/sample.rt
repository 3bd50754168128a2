//! Indexes of few and of many records, and their files.

ghost use Rattle.std.specs.Prelude.{◌≡◌, length};

use byte_io::{ByteSink, MemorySink, WriteFault};
use dbf_fields::{CHARACTER, Field, Schema};
use key_expr::{Key, KeyExpr, MAX_KEY_BYTES};
use ndx_index::{MAX_PAIRS, OrderedIndex, Pair, write_ndx};
use std::alloc::Global;
use std::test::Fail;

// The pair of a key of three bytes and a record.
pub(super) fn pair(key: &[u8; 3], number: u32) -> Pair
    ensures key { length result.key ≡ 3 }
{
    Pair {
        key: Key::new(key),
        number,
    }
}

// The key of a record: two digits, and blanks after them, of 100 bytes at most.
pub(super) fn key(number: u32, len: usize) -> Key {
    let mut bytes = [b' '; MAX_KEY_BYTES];
    bytes[0] = b'0' + (number / 10 % 10) as u8;
    bytes[1] = b'0' + (number % 10) as u8;
    Key::new(&bytes[..len.min(MAX_KEY_BYTES)])
}

// Puts a pair in, which may be there already.
pub(super) fn put(index: &mut OrderedIndex, pair: &Pair) -> Result<(), Fail> {
    if pair.key.as_bytes().len() != index.key_len() {
        return Err("a key of another length".into());
    }
    index.remove(*pair);
    index.reserve()?;
    index.insert(*pair);
    Ok(())
}

// The index of records 1 to count, put in from the last to the first.
pub(super) fn index_of(alloc: Global, count: u32, len: usize) -> Result<OrderedIndex, Fail> {
    let mut index = OrderedIndex::new(alloc, len.min(MAX_KEY_BYTES));
    for i in 0..count {
        let number = count - i;
        put(
            &mut index,
            &Pair {
                key: key(number, len),
                number,
            },
        )?;
    }
    Ok(index)
}

// One field NAME of characters, of this width.
fn schema_of_name(alloc: Global, width: u8) -> Result<Schema, Fail> {
    let name = Field::new(alloc, b"NAME", CHARACTER, width, 0)?;
    Ok(Schema::new(alloc, &[name])?)
}

pub(super) fn write_into<S: ByteSink>(
    sink: &mut S,
    alloc: Global,
    index: &OrderedIndex,
    len: u8,
) -> Result<Result<(), WriteFault>, Fail> {
    let expr = KeyExpr::parse(alloc, b"NAME", &schema_of_name(alloc, len)?)?;
    let pairs = index.pairs(alloc)?;
    if pairs.len() > MAX_PAIRS || index.key_len() != expr.key_len() {
        return Err("keys of another length".into());
    }
    Ok(write_ndx(sink, &expr, &pairs))
}

pub(super) fn written(alloc: Global, index: &OrderedIndex, len: u8) -> Result<Vec<u8>, Fail> {
    let mut sink = MemorySink::new(alloc);
    write_into(&mut sink, alloc, index, len)??;
    Ok(sink.bytes)
}
