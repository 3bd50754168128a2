//! A file of more levels of pages than any index has.

use ndx_index::read_ndx;
use sample_files::{EMPTY_INDEX, with_zeros};
use std::alloc::{AllocError, Global};
use std::test::Fail;

// A file of 10,001 pages whose root is page 1: each page but the last has no key, and the next page as its child. The last
// is an empty leaf.
fn chain_of_pages(alloc: Global) -> Result<Vec<u8>, AllocError> {
    let mut header = EMPTY_INDEX;
    // 10,002 pages with the header's.
    header[4] = 0x12;
    header[5] = 0x27;
    let mut bytes = with_zeros(alloc, &header, 512)?;
    for page in 1..10_001u32 {
        bytes.extend_from_slice(&[0; 4])?;
        bytes.extend_from_slice(&(page + 1).to_le_bytes())?;
        bytes.extend_from_slice(&[0; 504])?;
    }
    bytes.extend_from_slice(&[0; 512])?;
    Ok(bytes)
}

#[test]
fn deep_chain_of_pages(rt: HostRuntime) -> Result<(), Fail> {
    let bytes = chain_of_pages(rt.alloc())?;
    let pairs = read_ndx(rt.alloc(), &bytes)?.pairs;
    assert!(rt; bytes.len() == 5_121_024 && pairs.len() == 0);
    Ok(())
}
