//! Bytes from a device: a whole reading.

ghost use Rattle.std.specs.Prelude.{◌≡◌, ◌<◌, ◌≤◌, [], vec_len, vec_capacity, Ok, Err, IfOk, IfErr, IfSome};
ghost use Rattle.folders.specs.declared.source.TheConstants.{MAX_FILE_BYTES};

use crate::source::LoadFault;
use std::alloc::Global;
use std::io::Read;

// Room for as many bytes as are expected, and one more, so that a reading of them sees their end without more room.
fn room_for(alloc: Global, expected: u64, limit: usize) -> Result<Vec<u8>, LoadFault>
    requires within { limit ≤ MAX_FILE_BYTES }
    ensures empty { IfOk result (λ room. room.items ≡ []) }
    ensures wide { IfOk result (λ room. expected < vec_capacity room) }
    ensures long { limit < expected → result ≡ Err LoadFault.CannotRead }
    ensures refused { expected ≤ limit → IfErr result (λ fault. fault ≡ LoadFault.NoMemory) }
{
    if expected > limit as u64 {
        return Err(LoadFault::CannotRead);
    }
    let mut room = Vec::new(alloc);
    room.reserve(expected as usize + 1)?;
    Ok(room)
}

// The bytes, where they are no more than the limit.
fn up_to(bytes: Vec<u8>, limit: usize) -> Result<Vec<u8>, LoadFault>
    ensures whole { vec_len bytes ≤ limit → result ≡ Ok bytes }
    ensures long { limit < vec_len bytes → result ≡ Err LoadFault.CannotRead }
{
    if bytes.len() > limit {
        return Err(LoadFault::CannotRead);
    }
    Ok(bytes)
}

/// The bytes that a reader has left, whole. Room is taken at once for as many as are expected.
///
/// `CannotRead` says that the reader failed, that there are fewer bytes than expected (a file that was cut since its
/// length was asked for), or that they are more than the limit: where that many are expected, no room is asked for.
/// `NoMemory` says that room was refused.
pub fn read_whole<R: Read + Drop>(
    alloc: Global,
    reader: R,
    expected: u64,
    limit: usize,
) -> Result<Vec<u8>, LoadFault>
    requires within { limit ≤ MAX_FILE_BYTES }
    ensures whole { IfOk result (λ bytes. IfSome (R.remaining reader) (λ all. bytes.items ≡ all)) }
    ensures short { IfOk result (λ bytes. vec_len bytes ≤ limit) }
    ensures expected { IfOk result (λ bytes. expected ≤ vec_len bytes) }
    ensures early { limit < expected → result ≡ Err LoadFault.CannotRead }
{
    let mut bytes = room_for(alloc, expected, limit)?;
    reader.take(limit as u64 + 1).read_to_end(&mut bytes)?;
    if (bytes.len() as u64) < expected {
        return Err(LoadFault::CannotRead);
    }
    up_to(bytes, limit)
}
