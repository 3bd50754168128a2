//! Texts in and out, and how many blocks they take: a text's number is the place of its first block, from 1, so that
//! the greatest number tells when a block is new.

ghost use Rattle.std.specs.Prelude.{◌≡◌, ◌<◌, length, IfOk, None};
ghost use Rattle.std.specs.FinMap as map;

use super::*;
use std::test::*;

// A number of bytes of one value.
fn run(alloc: Global, byte: u8, count: usize) -> Result<Vec<u8>, Fail>
    ensures long { IfOk result (λ bytes. length bytes.items ≡ count) }
{
    let mut bytes = Vec::new(alloc);
    bytes.resize(count, byte)?;
    Ok(bytes)
}

// Makes room for a text, and keeps it.
fn keep(store: &mut MemoStore, text: &[u8]) -> Result<u32, Fail>
    requires some { 0 < length text.now }
    ensures fresh { IfOk result (λ number. map.get store.old.texts number ≡ None) }
    ensures texts { IfOk result (λ number. store.new.texts ≡ map.insert store.old.texts number text.now) }
{
    store.reserve(text.len())?;
    Ok(store.put(text))
}

// Keeps texts of the given lengths, and answers the greatest of their numbers.
fn keep_runs(alloc: Global, store: &mut MemoStore, lengths: &[usize]) -> Result<u32, Fail> {
    let mut greatest = 0;
    for length in lengths {
        let text = run(alloc, b'M', *length)?;
        if !text.is_empty() {
            let number = keep(store, &text)?;
            if greatest < number {
                greatest = number;
            }
        }
    }
    Ok(greatest)
}

// A dropped text leaves its blocks to the next ones.
#[test]
fn memo_blocks_used_again(rt: HostRuntime) -> Result<(), Fail> {
    let alloc = rt.alloc();
    let first = run(alloc, b'A', 600)?;
    let last = run(alloc, b'B', 512)?;
    let mut store = MemoStore::new(alloc);
    let a = keep(&mut store, &first)?;
    let b = keep(&mut store, b"XYZ")?;
    store.drop_unused(&[b]);
    let kept = store.text(alloc, b)?;
    let c = keep(&mut store, &last)?;
    assert!(rt; a != b && b != c);
    assert!(rt; kept.as_slice() == b"XYZ".as_slice());
    assert!(rt; store.text(alloc, b)? == kept);
    assert!(rt; store.text(alloc, c)?.as_slice() == last.as_slice());
    assert_eq!(rt; keep_runs(alloc, &mut store, &[1, 1])?, 4);
    Ok(())
}

// Room that was not used up: a block that held a text is taken before one that never did.
#[test]
fn unused_reserve(rt: HostRuntime) -> Result<(), Fail> {
    let alloc = rt.alloc();
    let mut store = MemoStore::new(alloc);
    store.reserve(5120)?;
    assert_eq!(rt; keep_runs(alloc, &mut store, &[1])?, 1);
    store.drop_unused(&[]);
    assert_eq!(rt; keep_runs(alloc, &mut store, &[512])?, 1);
    assert_eq!(rt; keep_runs(alloc, &mut store, &[513])?, 3);
    store.drop_unused(&[]);
    assert_eq!(rt; keep_runs(alloc, &mut store, &[1024, 1, 1])?, 4);
    Ok(())
}

// Filled and emptied a thousand times, the store has the six blocks of the fullest moment.
#[test]
fn a_thousand_rounds(rt: HostRuntime) -> Result<(), Fail> {
    let mut store = MemoStore::new(rt.alloc());
    for _ in 0..500 {
        let fullest = keep_runs(rt.alloc(), &mut store, &[600, 1, 1500])?;
        store.drop_unused(&[]);
        let fewer = keep_runs(rt.alloc(), &mut store, &[513, 512])?;
        store.drop_unused(&[]);
        assert!(rt; fullest <= 6 && fewer <= 6);
    }
    assert_eq!(rt; keep_runs(rt.alloc(), &mut store, &[1; 7])?, 7);
    Ok(())
}

// The longest text that a memo has stands in 128 blocks.
#[test]
fn longest_memo_takes_128_blocks(rt: HostRuntime) -> Result<(), Fail> {
    let mut store = MemoStore::new(rt.alloc());
    assert_eq!(rt; keep_runs(rt.alloc(), &mut store, &[65_535, 1])?, 129);
    Ok(())
}

// More blocks than a u32 can number are refused.
#[test]
fn too_many_blocks_are_refused(rt: HostRuntime) {
    let mut store = MemoStore::new(rt.alloc());
    assert!(rt; store.reserve(usize::MAX).is_err());
}
