//! A table that a case describes by its fields and records.

use crate::escapes::plain;
use crate::little_endian::{append_cell, append_four, append_two, fill, low};
use crate::memo_blocks::MemoBlocks;
use crate::trouble::Trouble;
use crate::words::{count, cut_first, number, words_of};
use std::alloc::{AllocError, Global};

/// The date of tables where a case says nothing of it: 1987-03-15.
const DATE: [u8; 3] = [87, 3, 15];

/// The flag of a record that is not marked as deleted, and of one that is.
const ACTIVE: u8 = b' ';

const MARKED: u8 = b'*';

// A field of a table.
#[derive(Clone, Copy)]
struct Field<'a> {
    name: &'a [u8],
    kind: u8,
    width: usize,
    decimals: usize,
}

impl<'a> Field<'a> {
    // The field of a text: `NAME KIND WIDTH DECIMALS`, of which the last may be left out.
    fn read(alloc: Global, text: &'a [u8]) -> Result<Field<'a>, Trouble> {
        let parts = words_of(alloc, text)?;
        match parts.as_slice() {
            [name, [kind], width] => Field::new(name, *kind, width, b"0"),
            [name, [kind], width, decimals] => Field::new(name, *kind, width, decimals),
            _ => Err(Trouble::Bad("a field is NAME KIND WIDTH DECIMALS")),
        }
    }

    fn new(name: &'a [u8], kind: u8, width: &[u8], decimals: &[u8]) -> Result<Field<'a>, Trouble> {
        Ok(Field {
            name,
            kind,
            width: count(width)?,
            decimals: count(decimals)?,
        })
    }

    // Whether its cells have their texts at the right.
    fn is_at_right(&self) -> bool {
        self.kind == b'N' || self.kind == b'M'
    }

    // Appends its descriptor.
    fn append(&self, bytes: &mut Vec<u8>) -> Result<(), AllocError> {
        let end = bytes.len().saturating_add(11);
        bytes.extend_from_slice(self.name)?;
        fill(bytes, end)?;
        bytes.push(self.kind)?;
        append_four(bytes, 0)?;
        bytes.extend_from_slice(&[low(self.width), low(self.decimals)])?;
        let end = bytes.len().saturating_add(14);
        fill(bytes, end)
    }
}

// The date of eight digits, as a header has it.
fn date_of(text: &[u8]) -> Result<[u8; 3], Trouble> {
    match number(text) {
        Some(date) if date >= 19_000_000 => {
            let year = (date / 10_000).saturating_sub(1900).min(255);
            Ok([year as u8, (date / 100 % 100) as u8, (date % 100) as u8])
        }
        _ => Err(Trouble::Bad("a date is YYYYMMDD")),
    }
}

/// A table as a case describes it.
#[derive(Drop)]
pub struct MadeTable<'a> {
    date: [u8; 3],
    fields: Vec<Field<'a>>,
    records: Vec<u8>,
    record_count: usize,
    memos: MemoBlocks,
}

impl<'a> MadeTable<'a> {
    /// A table without records: `NAME C 10, AMT N 6 2`, and `dated 19850102` behind a comma where it isn't of 1987-03-15.
    pub fn read(alloc: Global, text: &'a [u8]) -> Result<MadeTable<'a>, Trouble> {
        let mut date = DATE;
        let mut fields = Vec::new(alloc);
        for part in text.split(|byte| *byte == b',') {
            let part = part.trim_ascii();
            match part.strip_prefix(b"dated ") {
                Some(text) => date = date_of(text)?,
                None => fields.push(Field::read(alloc, part)?)?,
            }
        }
        Ok(MadeTable {
            date,
            fields,
            records: Vec::new(alloc),
            record_count: 0,
            memos: MemoBlocks::new(alloc),
        })
    }

    /// Whether a field has memos.
    pub fn has_memos(&self) -> bool {
        self.fields.iter().any(|field| field.kind == b'M')
    }

    /// Appends a record: a cell a field, with a bar between two.
    pub fn add_record(&mut self, alloc: Global, text: &[u8]) -> Result<(), Trouble> {
        self.add(alloc, ACTIVE, text)
    }

    /// Appends a record that is marked as deleted.
    pub fn add_marked(&mut self, alloc: Global, text: &[u8]) -> Result<(), Trouble> {
        self.add(alloc, MARKED, text)
    }

    fn add(&mut self, alloc: Global, flag: u8, text: &[u8]) -> Result<(), Trouble> {
        self.records.push(flag)?;
        let mut rest = text;
        for field in &self.fields {
            let (cell, after) = cut_cell(rest);
            add_value(alloc, &mut self.records, &mut self.memos, field, cell)?;
            rest = after;
        }
        self.record_count = self.record_count.saturating_add(1);
        Ok(())
    }

    // The bytes of a record.
    fn record_length(&self) -> usize {
        let mut length: usize = 1;
        for field in &self.fields {
            length = length.saturating_add(field.width);
        }
        length
    }

    /// The DBF file.
    pub fn dbf(&self, alloc: Global) -> Result<Vec<u8>, AllocError> {
        let header = self.fields.len().saturating_mul(32).saturating_add(33);
        let mut bytes = Vec::new(alloc);
        bytes.push(if self.has_memos() { 0x83 } else { 0x03 })?;
        bytes.extend_from_slice(&self.date)?;
        append_four(&mut bytes, self.record_count)?;
        append_two(&mut bytes, header)?;
        append_two(&mut bytes, self.record_length())?;
        fill(&mut bytes, 32)?;
        for field in &self.fields {
            field.append(&mut bytes)?;
        }
        bytes.push(0x0d)?;
        bytes.extend_from_slice(&self.records)?;
        bytes.push(0x1a)?;
        Ok(bytes)
    }

    /// The DBT file.
    pub fn dbt(&self, alloc: Global) -> Result<Vec<u8>, AllocError> {
        self.memos.file(alloc)
    }
}

// The text of a record's first cell, and what stands behind the bar after it.
fn cut_cell(text: &[u8]) -> (&[u8], &[u8]) {
    match cut_first(text, b"|") {
        Some(parts) => parts,
        None => (text, b""),
    }
}

// Appends the cell of a field; of a memo it has its block's number, or what stands behind `#`.
fn add_value(
    alloc: Global,
    cells: &mut Vec<u8>,
    memos: &mut MemoBlocks,
    field: &Field<'_>,
    text: &[u8],
) -> Result<(), Trouble> {
    let value = plain(alloc, text.trim_ascii())?.bytes;
    if field.kind != b'M' || value.is_empty() {
        append_cell(cells, &value, field.width, field.is_at_right())?;
        return Ok(());
    }
    match value.as_slice() {
        [b'#', block @ ..] => append_cell(cells, block, field.width, true)?,
        memo => append_cell(cells, &memos.add(alloc, memo)?, field.width, true)?,
    }
    Ok(())
}
