//! The fields that the descriptors of a DBF file tell.

ghost use Rattle.std.specs.Prelude.{◌≡◌, ◌+◌, ◌-◌, ◌*◌, ◌<◌, ◌≤◌, ◌==◌, length, map, true, false, Some, IfOk, IfErr, IfSome, MatchOption};
ghost use Rattle.std.specs.List.{position};
ghost use Rattle.dbf_image.specs.DbfText.{chunks, field_of, header_length};
ghost use Rattle.dbf_image.specs.Reading.{TellsCount, TellsFields, field_count, has_whole_header};

use crate::dbf::header::header_of;
use crate::format::{DESCRIPTOR, HEADER, HEADER_END, NAME_BYTES};
use byte_io::Bytes;
use dbf_fields::Field;
use std::alloc::{AllocError, Global};

/// How many descriptors stand before the first 0x0D among the bytes 32, 64, .. below `end`.
pub(crate) fn descriptor_count(bytes: &[u8], end: usize) -> Option<usize>
    requires inside { end ≤ length bytes.now }
    requires value { end ≡ header_length bytes.now }
    ensures count { result ≡ field_count bytes.now }
    ensures room { IfSome result (λ n. HEADER + DESCRIPTOR * n < end) }
{
    for i in 0..end.saturating_sub(1) / DESCRIPTOR {
        if bytes[HEADER + DESCRIPTOR * i] == HEADER_END {
            return Some(i);
        }
    }
    None
}

// Where the first zero stands.
fn first_zero(name: &[u8]) -> Option<usize>
    ensures value { result ≡ position (λ b. b == 0) name.now }
{
    name.iter().position(|byte| *byte == 0)
}

// The field of a descriptor.
fn field_at(alloc: Global, descriptor: &[u8]) -> Result<Field, AllocError>
    requires long { DESCRIPTOR ≤ length descriptor.now }
    ensures value { IfOk result (λ field. field ≡ field_of descriptor.now) }
{
    let name = &descriptor[..NAME_BYTES];
    let end = first_zero(name).unwrap_or(NAME_BYTES);
    Ok(Field {
        name: Bytes::from_slice(alloc, &name[..end])?,
        kind: descriptor[11],
        width: descriptor[16],
        decimals: descriptor[17],
    })
}

/// The fields of the first descriptors, one after the other.
///
/// An `Err` says that there was no memory.
pub(crate) fn fields_at(alloc: Global, count: usize, bytes: &[u8]) -> Result<Vec<Field>, AllocError>
    requires room { DESCRIPTOR * count ≤ length bytes.now }
    ensures value { IfOk result (λ fields. fields.items ≡ map field_of (chunks DESCRIPTOR count bytes.now)) }
{
    let mut fields = Vec::new(alloc);
    let mut rest = bytes;
    for _ in 0..count {
        let (descriptor, after) = rest.split_at(DESCRIPTOR);
        fields.push(field_at(alloc, descriptor)?)?;
        rest = after;
    }
    Ok(fields)
}

// How many fields are told; `None` where the header isn't all there, or has no end of fields.
fn told_count(dbf: &[u8]) -> Option<usize>
    ensures told { MatchOption result (has_whole_header dbf.now ≡ false) (TellsCount dbf.now) }
{
    if dbf.len() < HEADER {
        return None;
    }
    let end = usize::from(header_of(dbf).header_length);
    if end > dbf.len() {
        return None;
    }
    descriptor_count(dbf, end)
}

/// The fields that the descriptors of a DBF file tell, whatever they are; `None` where the header isn't all there, or the
/// list of fields doesn't end in it.
///
/// For whoever looks for the file of memos before the table is read: the fields need be no schema, and the records aren't
/// looked at. Bytes 8 and 9 of the file tell the header's length, from byte 32 on a descriptor of
/// 32 bytes tells each field, up to a byte 0x0D in place of one.
///
/// An `Err` says that there was no memory, of which `None` takes none.
pub fn told_fields(alloc: Global, dbf: &[u8]) -> Result<Option<Vec<Field>>, AllocError>
    ensures told { IfOk result (λ told. MatchOption told (has_whole_header dbf.now ≡ false) (λ fields. TellsFields dbf.now fields.items)) }
    ensures early { IfErr result (λ _. has_whole_header dbf.now ≡ true) }
{
    let Some(count) = told_count(dbf) else {
        return Ok(None);
    };
    let fields = fields_at(alloc, count, &dbf[HEADER..])?;
    Ok(Some(fields))
}
