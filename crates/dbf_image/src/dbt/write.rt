//! Writing the memos of a table as the bytes of a file of memos (DBT).
#![tactic(auto, using(byte_io::specs::Laws::Sinks::sinks))]

ghost use Rattle.std.specs.Prelude.{◌≡◌, ◌+◌, ◌-◌, ◌*◌, ◌/◌, ◌≤◌, ◌↔◌, true, length, flat_map, OnOk};
ghost use Rattle.std.specs.List.{list_all, AllByRecursion};
ghost use Rattle.dbf_image.specs.Store.{text_of, IsMemo};
ghost use Rattle.dbf_image.specs.Blocks.{block_bytes, memo_header, memo_image, next_free, HasTooManyBlocks};
ghost use Rattle.byte_io.specs.Output.{Puts};
ghost use Rattle.byte_io.specs.Sink.{grown, is_byte, IsFront, Rises};
ghost use Rattle.dbf_image.specs.declared.format.TheConstants.{BLOCK, MAX_MEMO_BYTES};

use crate::dbt::blocks::next_free_block;
use crate::format::{BLOCK, MEMO_END, VERSION};
use crate::memo_store::MemoStore;
use crate::table::TableData;
use crate::table::memo::memo_length;
use byte_io::{ByteSink, SinkFault, SinkWriter, WriteFault};
use byteorder::{ByteOrder, LittleEndian};

// The 512 bytes before the blocks of texts.
fn header_block(next: u32) -> [u8; BLOCK]
    ensures value { result ≡ memo_header next }
{
    let mut bytes = [0; BLOCK];
    LittleEndian::write_u32(&mut bytes, next);
    bytes[16] = VERSION;
    bytes
}

// The zeros after a text and the two 0x1A.
fn fill_of(text_length: usize) -> usize
    requires short { text_length ≤ MAX_MEMO_BYTES }
    ensures value { result ≡ (text_length + (BLOCK + 1)) / BLOCK * BLOCK - (text_length + 2) }
    ensures bounded { result ≤ BLOCK }
{
    (text_length + (BLOCK + 1)) / BLOCK * BLOCK - (text_length + 2)
}

// The blocks of a memo's text, of which there are none where it is empty.
fn put_block<S: ByteSink>(out: &mut SinkWriter<'_, S>, texts: &MemoStore, number: u32)
    requires memo { IsMemo texts.now.texts number }
    ensures put { Puts out.old (block_bytes (text_of texts.now.texts number)) out.new }
{
    let length = memo_length(texts, number);
    if length == 0 {
        return;
    }
    let (zeros, _) = [0; BLOCK].split_at(fill_of(length));
    texts.put_text(number, out);
    out.put(&[MEMO_END, MEMO_END]);
    out.put(zeros);
}

// The blocks of all texts, one after the other.
fn put_blocks<S: ByteSink>(out: &mut SinkWriter<'_, S>, texts: &MemoStore, memos: &[u32])
    requires each { AllByRecursion (IsMemo texts.now.texts) memos.now }
    ensures put { Puts out.old (flat_map (λ number. block_bytes (text_of texts.now.texts number)) memos.now) out.new }
{
    for number in memos {
        put_block(out, texts, *number);
    }
}

// The bytes of the file.
fn put_memo_image<S: ByteSink>(out: &mut SinkWriter<'_, S>, table: &TableData, next: u32)
    requires next { next ≡ next_free table.now }
    ensures put { Puts out.old (memo_image table.now) out.new }
{
    let store = table.store();
    out.put(&header_block(next));
    put_blocks(out, store.texts, store.memos);
}

/// Writes the file of a table's memos into a sink, to stand beside the file that `write_dbf` writes of the
/// same table: a header of 512 bytes with the next free block, then each text that is not empty, in the
/// order of records and fields, with 0x1A 0x1A after it and zeros to the end of its last block of 512
/// bytes. It takes no memory: chunks are gathered, up to 65,536 bytes, before the sink is called.
///
/// `TooManyBlocks` says that the memos take more blocks than 32 bits count, and that nothing was written.
/// `Sink` says that the sink failed; it has then taken a front part of the file, which may be all of it or
/// nothing.
pub fn write_dbt<S: ByteSink>(sink: &mut S, table: &TableData) -> Result<(), WriteFault>
    ensures wrote { OnOk result (S.written sink.new ≡ grown (S.written sink.old) (memo_image table.now)) }
    ensures no_failure { OnOk result (S.failures sink.new ≡ S.failures sink.old) }
    ensures dated { result ≡ Err WriteFault.DateOutside → ⊥ }
    ensures blocks { (result ≡ Err WriteFault.TooManyBlocks) ↔ HasTooManyBlocks table.now }
    ensures unwritten { result ≡ Err WriteFault.TooManyBlocks → sink.new ≡ sink.old }
    ensures failed { result ≡ Err WriteFault.Sink → Rises (S.failures sink.old) (S.failures sink.new) }
    // What the sink held before the call it still holds.
    ensures kept { IsFront (S.written sink.old) (S.written sink.new) }
    // What a sink that failed has taken is a front part of the file.
    ensures front { result ≡ Err WriteFault.Sink → IsFront (S.written sink.new) (grown (S.written sink.old) (memo_image table.now)) }
    ensures bytes { OnOk result (list_all is_byte (memo_image table.now) ≡ true) }
{
    let Some(next) = next_free_block(table) else {
        return Err(WriteFault::TooManyBlocks);
    };
    let mut out = SinkWriter::new(sink);
    put_memo_image(&mut out, table, next);
    match out.flush() {
        Ok(()) => Ok(()),
        Err(SinkFault) => Err(WriteFault::Sink),
    }
}
