//! The header page of an index file.

ghost use Rattle.std.specs.Prelude.{◌≡◌, ◌+◌, ◌<◌, ◌≤◌, length, IfOk, IfErr, MatchOption, OnOk, OnSome};
ghost use Rattle.dbf_fields.specs.Faults.{first_fault};
ghost use Rattle.ndx_index.specs.Header.{u16_at, header_numbers as numbers_in, header_refusal, layout_of, layout_tests, ndx_header, before_zero, trimmed_end, expression, padded_expression};
ghost use Rattle.ndx_index.specs.Pages.{IsPageLayout};

use crate::fault::NdxFault;
use crate::format::{
    EXPRESSION_OFFSET, KEY_LENGTH_OFFSET, KEY_TYPE_OFFSET, MAX_RECORDS_BYTES, PAGE,
    PAGE_COUNT_OFFSET, RECORD_SIZE_OFFSET, UNIQUE_FLAG_OFFSET,
};
use crate::read::page::{PageLayout, u32_at};
use byteorder::{ByteOrder, LittleEndian};
use dbf_fields::BLANK;
use key_expr::MAX_KEY_BYTES;

/// The numbers of the header page, as they stand there.
#[derive(Clone, Copy, Debug, PartialEq, Eq)]
pub struct HeaderNumbers {
    /// The number of the root page.
    pub root: u32,
    /// How many pages there are with the header page.
    pub page_count: u32,
    /// How many bytes a key has.
    pub key_len: u16,
    /// The kind of the keys: 0 for characters.
    pub key_type: u16,
    /// How many bytes a key record has.
    pub record_size: u16,
    /// Whether equal keys are left out: 0 where not.
    pub unique_flag: u8,
}

/// What the header of an index file says of its pages.
#[derive(Clone, Copy, Debug, PartialEq, Eq)]
pub struct Header {
    /// The key length and the size of a key record.
    pub layout: PageLayout,
    /// The number of the root page.
    pub root: u32,
}

// The number in the two bytes at an offset.
#[tactic(auto, unfolding(crate::specs::Header::u16_at))]
fn u16_at(bytes: &[u8], at: usize) -> u16
    requires inside { at + 2 ≤ length bytes.now }
    ensures value { result ≡ u16_at bytes.now at }
{
    LittleEndian::read_u16(&bytes[at..])
}

/// The numbers of the header page, or none where the file is shorter than that page.
pub fn header_numbers(bytes: &[u8]) -> Option<HeaderNumbers>
    ensures value { MatchOption result (length bytes.now < PAGE) (λ numbers. numbers ≡ numbers_in bytes.now) }
    ensures long { OnSome result (PAGE ≤ length bytes.now) }
{
    if bytes.len() < PAGE {
        return None;
    }
    Some(HeaderNumbers {
        root: u32_at(bytes, 0),
        page_count: u32_at(bytes, PAGE_COUNT_OFFSET),
        key_len: u16_at(bytes, KEY_LENGTH_OFFSET),
        key_type: u16_at(bytes, KEY_TYPE_OFFSET),
        record_size: u16_at(bytes, RECORD_SIZE_OFFSET),
        unique_flag: bytes[UNIQUE_FLAG_OFFSET],
    })
}

impl HeaderNumbers {
    /// How the key records of pages are laid out.
    ///
    /// `BadKeyLength` and `BadRecordSize` say why no page can be read.
    pub fn page_layout(self) -> Result<PageLayout, NdxFault>
        ensures value { IfOk result (λ layout. layout ≡ layout_of self) }
        ensures layout { IfOk result IsPageLayout }
        ensures accepted { OnOk result (first_fault (layout_tests self.key_len self.record_size) ≡ None) }
        ensures refused { IfErr result (λ e. first_fault (layout_tests self.key_len self.record_size) ≡ Some e) }
    {
        let key_len = self.key_len as usize;
        if key_len == 0 || key_len > MAX_KEY_BYTES {
            return Err(NdxFault::BadKeyLength);
        }
        let size = self.record_size as usize;
        if size < key_len + 8 || size > MAX_RECORDS_BYTES {
            return Err(NdxFault::BadRecordSize);
        }
        Ok(PageLayout { key_len, size })
    }
}

/// Reads the header, or says which rule it breaks first.
#[tactic(auto, unfolding(crate::specs::Header::header_page_tests, crate::specs::Header::ndx_header))]
pub(crate) fn read_header(bytes: &[u8]) -> Result<Header, NdxFault>
    ensures header { IfOk result (λ header. header ≡ ndx_header bytes.now) }
    ensures accepted { OnOk result (header_refusal bytes.now ≡ None) }
    ensures refused { IfErr result (λ e. header_refusal bytes.now ≡ Some e) }
    ensures long { IfOk result (λ header. PAGE ≤ length bytes.now) }
    ensures layout { IfOk result (λ header. IsPageLayout header.layout) }
{
    let Some(numbers) = header_numbers(bytes) else {
        return Err(NdxFault::Truncated);
    };
    if numbers.key_type != 0 {
        return Err(NdxFault::NumericIndex);
    }
    if numbers.unique_flag != 0 {
        return Err(NdxFault::UniqueIndex);
    }
    match numbers.page_layout() {
        Ok(layout) => Ok(Header {
            layout,
            root: numbers.root,
        }),
        Err(fault) => Err(fault),
    }
}

// The bytes up to the first zero.
fn before_zero(text: &[u8]) -> &[u8]
    ensures value { result.now ≡ before_zero text.now }
{
    for i in 0..text.len() {
        if text[i] == 0 {
            return &text[..i];
        }
    }
    text
}

// The text without the blanks at its end.
fn trimmed_end(text: &[u8]) -> &[u8]
    ensures value { result.now ≡ trimmed_end text.now }
{
    let mut end = text.len();
    while end > 0 {
        if text[end - 1] != BLANK {
            return &text[..end];
        }
        end -= 1;
    }
    &text[..end]
}

/// The text of the key expression with the blanks after it: from byte 24 of the header page up to its first zero or the page's
/// end.
pub fn padded_expression(bytes: &[u8]) -> &[u8]
    requires long { PAGE ≤ length bytes.now }
    ensures value { result.now ≡ padded_expression bytes.now }
{
    before_zero(&bytes[EXPRESSION_OFFSET..PAGE])
}

/// The text of the key expression, without the blanks after it.
pub(crate) fn expression(bytes: &[u8]) -> &[u8]
    requires long { PAGE ≤ length bytes.now }
    ensures value { result.now ≡ expression bytes.now }
{
    trimmed_end(padded_expression(bytes))
}
