//! What a journal says of a file.

ghost use Rattle.std.specs.Prelude.{◌≡◌, IfOk};
ghost use Rattle.hex.specs.Hex.{encode_lower};
ghost use Rattle.sha2.specs.Sha256.{sha256};
ghost use Rattle.journal_file.specs.WholeText.{sum_of_file, IsSum};

use byte_io::Bytes;
use hex::encode_to_slice;
use sha2::{Digest, Sha256};
use std::alloc::{AllocError, Global};

/// How many digits a digest has.
pub const DIGEST_LEN: usize = 64;

/// What a journal says of a file.
#[derive(Debug, Drop)]
pub struct FileSum {
    /// The path, or the name.
    pub path: Bytes,
    /// How many bytes the file has.
    pub length: u64,
    /// Their SHA-256 in hex, with small letters.
    pub digest: [u8; DIGEST_LEN],
}

// A digest in hex, with small letters.
pub(crate) fn digits_of(digest: &[u8; 32]) -> [u8; DIGEST_LEN]
    ensures value { result ≡ encode_lower digest.now }
{
    let mut digits = [0; DIGEST_LEN];
    let Ok(()) = encode_to_slice(digest, &mut digits) else {
        unreachable!();
    };
    digits
}

// The SHA-256 of bytes in hex, with small letters.
fn digest_of(bytes: &[u8]) -> [u8; DIGEST_LEN]
    ensures value { result ≡ encode_lower (sha256 bytes.now) }
{
    let digest = Sha256::digest(bytes);
    digits_of(&digest)
}

/// What a journal says of the file of a path that has these bytes. An error where memory is refused, for the path.
pub fn sum_of(alloc: Global, path: &[u8], bytes: &[u8]) -> Result<FileSum, AllocError>
    ensures value { IfOk result (λ sum. sum ≡ sum_of_file path.now bytes.now) }
    // A line can tell it.
    ensures small { IfOk result IsSum }
{
    Ok(FileSum {
        path: Bytes::from_slice(alloc, path)?,
        length: bytes.len() as u64,
        digest: digest_of(bytes),
    })
}
