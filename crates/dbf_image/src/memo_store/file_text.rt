//! The texts that stand in the bytes of a file, under numbers of their own.

ghost use Rattle.std.specs.Prelude.{◌≡◌, ◌+◌, ◌*◌, ◌<◌, ◌≤◌, ◌++◌, ◌∷◌, [], length, take, drop, true, ℕ, List, IfOk, OnOk};
ghost use Rattle.std.specs.List.{AllByRecursion};
ghost use Rattle.dbf_image.specs.declared.memo_store.file_text.FileText.{FileText};
ghost use Rattle.dbf_image.specs.FileTexts.{file_bytes, file_text_at, file_texts, blocks_of_file as file_blocks, IsInFile, Unmarks, MarksTexts, DropsTexts, KeepsTexts};
ghost use Rattle.dbf_image.specs.MemoNumbers.{KeepsMemos};
ghost use Rattle.dbf_image.specs.Store.{text_of, IsMemo};
ghost use Rattle.dbf_image.specs.Table.{is_memo_text};
ghost use Rattle.dbf_image.specs.declared.format.TheConstants.{MAX_MEMO_BYTES, MAX_MEMO_BLOCKS};

use crate::dbt::span::Span;
use crate::memo_store::block::blocks_for;
use std::alloc::{AllocError, Global};

/// The number of the first text of a file. Texts in blocks have numbers below it.
pub(crate) const FILE_TEXTS: u32 = 0x8000_0000;

/// A text in the bytes of a file.
#[derive(Clone, Copy, Debug)]
pub(crate) struct FileText {
    /// Where it begins.
    pub(crate) start: usize,
    /// How many bytes it has: 0 where it was dropped.
    pub(crate) length: u16,
    /// Whether it stays, while texts are dropped.
    pub(crate) kept: bool,
}

/// Adds a text after the others, and answers its number, 0 where it is empty.
///
/// An `Err` says that there was no memory, or would be more than 2,147,483,648 texts.
pub(crate) fn push_file_text(texts: &mut Vec<FileText>, span: Span) -> Result<u32, AllocError>
    requires few { length texts.old.items ≤ FILE_TEXTS }
    requires short { span.length ≤ MAX_MEMO_BYTES }
    ensures few { OnOk result (length texts.new.items ≤ FILE_TEXTS) }
    ensures inside { OnOk result ((file : List ℕ) → span.start + span.length ≤ length file
        → AllByRecursion (IsInFile file) texts.old.items → AllByRecursion (IsInFile file) texts.new.items) }
    ensures others { OnOk result ((file : List ℕ) → KeepsMemos (file_texts file texts.old.items) (file_texts file texts.new.items)) }
    ensures memo { IfOk result (λ number. (file : List ℕ) → is_memo_text (take span.length (drop span.start file)) ≡ true
        → IsMemo (file_texts file texts.new.items) number) }
    ensures value { IfOk result (λ number. (file : List ℕ) → text_of (file_texts file texts.new.items) number ≡ take span.length (drop span.start file)) }
{
    if span.length == 0 {
        return Ok(0);
    }
    if texts.len() >= FILE_TEXTS as usize {
        return Err(AllocError);
    }
    let number = FILE_TEXTS + texts.len() as u32;
    texts.push(FileText {
        start: span.start,
        length: span.length as u16,
        kept: true,
    })?;
    Ok(number)
}

/// The bytes of one of the texts.
pub(crate) fn bytes_at<'a>(file: &'a [u8], texts: &[FileText], index: usize) -> &'a [u8]
    requires there { index < length texts.now }
    requires inside { IsInFile file.now (file_text_at texts.now index) }
    ensures value { result.now ≡ file_bytes file.now (file_text_at texts.now index) }
{
    let text = texts[index];
    let (_, rest) = file.split_at(text.start);
    let (bytes, _) = rest.split_at(usize::from(text.length));
    bytes
}

/// How many blocks the texts would take.
pub(crate) fn blocks_of_file(texts: &[FileText]) -> usize
    requires few { length texts.now ≤ FILE_TEXTS }
    ensures value { result ≡ file_blocks texts.now }
    ensures bounded { result ≤ MAX_MEMO_BLOCKS * length texts.now }
{
    let mut blocks = 0;
    for text in texts {
        blocks += blocks_for(usize::from(text.length));
    }
    blocks
}

// Takes all marks away.
fn clear_marks(texts: &mut [FileText])
    ensures clears { Unmarks (length texts.old) texts.old texts.new }
{
    for i in 0..texts.len() {
        texts[i].kept = false;
    }
}

// Marks the text with this number, if there is one.
fn mark_text(texts: &mut [FileText], number: u32)
    ensures marks { (first : List FileText) → (numbers : List ℕ) → MarksTexts first texts.old numbers → MarksTexts first texts.new (numbers ++ number ∷ []) }
{
    if number >= FILE_TEXTS {
        let index = (number - FILE_TEXTS) as usize;
        if index < texts.len() {
            texts[index].kept = true;
        }
    }
}

// Marks the texts with these numbers, and no other.
fn mark_texts(texts: &mut [FileText], numbers: &[u32])
    ensures marks { MarksTexts texts.old texts.new numbers.now }
{
    clear_marks(texts);
    for number in numbers {
        mark_text(texts, *number);
    }
}

// Drops each text that isn't marked.
fn drop_unmarked(texts: &mut [FileText])
    ensures drops { DropsTexts (length texts.old) texts.old texts.new }
{
    for i in 0..texts.len() {
        if !texts[i].kept {
            texts[i].length = 0;
        }
    }
}

/// Keeps the texts with these numbers, and no other.
pub(crate) fn keep_file_texts(texts: &mut [FileText], numbers: &[u32])
    ensures keeps { KeepsTexts texts.old texts.new numbers.now }
{
    mark_texts(texts, numbers);
    drop_unmarked(texts);
}
