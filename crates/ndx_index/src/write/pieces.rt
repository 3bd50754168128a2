//! Numbers, zeros and key records as bytes.
#![tactic(auto, using(crate::proofs::Sinks::puts))]

ghost use Rattle.std.specs.Prelude.{◌+◌, ◌≤◌, length, replicate};
ghost use Rattle.byteorder.specs.Endian.{little_bytes};
ghost use Rattle.byte_io.specs.Output.{Puts};
ghost use Rattle.key_expr.specs.declared.format.TheConstants.{MAX_KEY_BYTES};
ghost use Rattle.ndx_index.specs.Image.{key_record};

use crate::format::PAGE;
use crate::write::shape::Shape;
use byte_io::{ByteSink, SinkWriter};
use byteorder::{ByteOrder, LittleEndian};

pub(crate) fn put_u16<S: ByteSink>(out: &mut SinkWriter<'_, S>, number: u16)
    ensures put { Puts out.old (little_bytes 2 number) out.new }
{
    let mut bytes = [0; 2];
    LittleEndian::write_u16(&mut bytes, number);
    out.put(&bytes);
}

pub(crate) fn put_u32<S: ByteSink>(out: &mut SinkWriter<'_, S>, number: u32)
    ensures put { Puts out.old (little_bytes 4 number) out.new }
{
    let mut bytes = [0; 4];
    LittleEndian::write_u32(&mut bytes, number);
    out.put(&bytes);
}

/// This many zeros, as they fill a page up.
pub(crate) fn put_zeros<S: ByteSink>(out: &mut SinkWriter<'_, S>, n: usize)
    requires within { n ≤ PAGE }
    ensures put { Puts out.old (replicate n 0) out.new }
{
    if n == 0 {
        return;
    }
    let zeros = [0; PAGE];
    out.put(&zeros[..n]);
}

/// A key record: the child page, the record number, the key, and zeros up to the record's size.
#[tactic(auto, using(crate::proofs::Sinks::puts), unfolding(crate::specs::Image::key_record))]
pub(crate) fn put_key_record<S: ByteSink>(
    out: &mut SinkWriter<'_, S>,
    shape: Shape,
    child: u32,
    number: u32,
    key: &[u8],
)
    requires short { length key.now ≤ MAX_KEY_BYTES }
    ensures put { Puts out.old (key_record shape.size child number key.now) out.new }
{
    let mut numbers = [0; 8];
    LittleEndian::write_u32(&mut numbers, child);
    LittleEndian::write_u32(&mut numbers[4..], number);
    out.put(&numbers);
    out.put(key);
    put_zeros(out, shape.size.saturating_sub(8 + key.len()));
}
