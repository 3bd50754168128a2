//! The memos of a table: numbers of texts, 0 for none.

ghost use Rattle.std.specs.Prelude.{◌≡◌, ◌+◌, ◌≤◌, length, true, IfOk};
ghost use Rattle.dbf_image.specs.MemoChains.{blocks_in};
ghost use Rattle.dbf_image.specs.MemoNumbers.{KeepsMemos};
ghost use Rattle.dbf_image.specs.MemoStore.{all_bytes, used_blocks};
ghost use Rattle.dbf_image.specs.Store.{text_of, IsMemo};
ghost use Rattle.dbf_image.specs.Table.{is_memo_text as may_be_memo};
ghost use Rattle.dbf_image.specs.declared.format.TheConstants.{MAX_MEMO_BYTES};

use crate::memo_store::MemoStore;
use byte_io::Bytes;
use std::alloc::{AllocError, Global};

/// How many bytes a memo's text has.
pub(crate) fn memo_length(texts: &MemoStore, number: u32) -> usize
    requires memo { IsMemo texts.now.texts number }
    ensures value { result ≡ length (text_of texts.now.texts number) }
    ensures short { result ≤ MAX_MEMO_BYTES }
{
    if number == 0 {
        return 0;
    }
    texts.text_length(number)
}

/// A memo's text, copied out. An `Err` says that there was no memory.
pub(crate) fn memo_text(alloc: Global, texts: &MemoStore, number: u32) -> Result<Bytes, AllocError>
    requires memo { IsMemo texts.now.texts number }
    ensures value { IfOk result (λ text. text ≡ text_of texts.now.texts number) }
    ensures may { IfOk result (λ text. may_be_memo text ≡ true) }
{
    if number == 0 {
        return Ok(Bytes::from_vec(Vec::new(alloc)));
    }
    texts.text(alloc, number)
}

/// Keeps a text for which there is room, and answers its number, 0 where it is empty. It takes no memory.
pub(crate) fn put_memo(texts: &mut MemoStore, text: &[u8]) -> u32
    requires may { may_be_memo text.now ≡ true }
    requires room { length text.now ≤ texts.old.spare }
    ensures memo { IsMemo texts.new.texts result }
    ensures value { text_of texts.new.texts result ≡ text.now }
    ensures others { KeepsMemos texts.old.texts texts.new.texts }
    ensures used { used_blocks texts.new.texts ≡ used_blocks texts.old.texts + blocks_in (length text.now) }
    ensures blocks { all_bytes texts.new ≡ all_bytes texts.old }
{
    if text.is_empty() {
        return 0;
    }
    texts.put(text)
}
