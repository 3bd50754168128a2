//! Files that the tests of several crates read and compare with, written down from the published layouts.
//!
//! They are a crate of their own, which stands as low as its callers: it knows tables, and neither catalogues nor
//! stations. [`table`] reads one of the table files; [`with_zeros`] fills a page or a block up.
#![tactic(auto)]

ghost use Rattle.std.specs.Prelude.{◌≡◌, ◌++◌, ◌-◌, ◌≤◌, IfOk, None, length, replicate};
ghost use Rattle.dbf_image.specs.DbfText.{IsDbf};

mod files;

use byte_io::Bytes;
use dbf_image::{ImageFault, TableData, read_table};
pub use files::{EMPTY, EMPTY_INDEX, NOTE, TABLE, WITH_CYD};
use std::alloc::{AllocError, Global};

/// The table of a file without memos.
pub fn table(alloc: Global, file: &[u8]) -> Result<TableData, ImageFault>
    ensures found { IfOk result (IsDbf file.now None) }
{
    read_table(alloc, Bytes::from_slice(alloc, file)?, None)
}

/// The bytes and zeros after them, up to a length: a page or a block whose rest is empty.
pub fn with_zeros(alloc: Global, bytes: &[u8], len: usize) -> Result<Vec<u8>, AllocError>
    ensures filled { length bytes.now ≤ len → IfOk result (λ all. all.items ≡ bytes.now ++ replicate (len - length bytes.now) 0) }
{
    let mut all = Vec::from_slice(alloc, bytes)?;
    all.resize(len, 0)?;
    Ok(all)
}
