//! Why an index file is refused.

ghost use Rattle.std.specs.Prelude.{◌≡◌, Some};
ghost use Rattle.ndx_index.specs.declared.fault.NdxFault.TheVariants.{NoMemory};
ghost use Rattle.ndx_index.specs.FaultWords.{ndx_name, ndx_words};

use std::alloc::AllocError;
use std::fmt;
use thiserror::Error;

/// Why an index file is refused, in the order in which its rules are tested.
#[derive(Clone, Copy, Debug, PartialEq, Eq, Error)]
pub enum NdxFault {
    /// The file has fewer than the 512 bytes of the header page.
    Truncated,
    /// The key type (bytes 16 and 17) isn't 0: the keys are numbers or dates.
    NumericIndex,
    /// The unique flag (byte 23) isn't 0: of records with equal keys the index has one alone.
    UniqueIndex,
    /// The key length (bytes 12 and 13) isn't one of 1 to 100.
    BadKeyLength,
    /// A key record (bytes 18 and 19) has fewer bytes than its two numbers and the key, or more than 504.
    BadRecordSize,
    /// A page has the number 0, or isn't whole in the file.
    PageOutside,
    /// The walk meets a page for the second time.
    PageTwice,
    /// A page has more entries than fit it.
    TooManyEntries,
    /// A leaf has a child, or one of an inner page's children is missing.
    MixedPage,
    /// Memory is refused.
    NoMemory,
}

impl NdxFault {
    /// The name of its variant, without what it carries. Takes no memory.
    pub fn name(self) -> &'static str
        ensures name { result.now ≡ ndx_name self }
    {
        match self {
            NdxFault::Truncated => "Truncated",
            NdxFault::NumericIndex => "NumericIndex",
            NdxFault::UniqueIndex => "UniqueIndex",
            NdxFault::BadKeyLength => "BadKeyLength",
            NdxFault::BadRecordSize => "BadRecordSize",
            NdxFault::PageOutside => "PageOutside",
            NdxFault::PageTwice => "PageTwice",
            NdxFault::TooManyEntries => "TooManyEntries",
            NdxFault::MixedPage => "MixedPage",
            NdxFault::NoMemory => "NoMemory",
        }
    }

    /// What it says, for a reader. Takes no memory.
    pub fn words(self) -> &'static str
        ensures words { result.now ≡ ndx_words self }
    {
        match self {
            NdxFault::Truncated => "the file is shorter than a header page",
            NdxFault::NumericIndex => "the keys are numbers or dates",
            NdxFault::UniqueIndex => "the index leaves out equal keys",
            NdxFault::BadKeyLength => "the key length is none of 1 to 100",
            NdxFault::BadRecordSize => "the size of a key record is impossible",
            NdxFault::PageOutside => "a page lies outside the file",
            NdxFault::PageTwice => "a page is met twice",
            NdxFault::TooManyEntries => "a page has too many entries",
            NdxFault::MixedPage => "a page is neither a leaf nor an inner page",
            NdxFault::NoMemory => "out of memory",
        }
    }
}

impl fmt::Display for NdxFault {
    ghost use Rattle.std.specs.Prelude.{Some};

    ghost output = { λ fault. Some (ndx_words fault) };

    fn fmt<W: fmt::Write>(&self, f: &mut fmt::Formatter<W>) -> fmt::Result {
        f.write_str(self.words())
    }
}

/// Why an index file is refused, and where.
#[derive(Clone, Copy, Debug, PartialEq, Eq)]
pub struct BadIndex {
    /// The rule that is broken first.
    pub why: NdxFault,
    /// The number of the page that breaks it: the bytes from 512 times that on, which may lie outside the file. None where the header
    /// page breaks it, or memory is refused.
    pub page: Option<u32>,
}

impl BadIndex {
    /// This page breaks this rule.
    pub(crate) fn at_page(page: u32, why: NdxFault) -> BadIndex
        ensures value { result ≡ record { why = why; page = Some page } }
    {
        BadIndex {
            why,
            page: Some(page),
        }
    }
}

impl From<NdxFault> for BadIndex {
    ghost use Rattle.std.specs.Prelude.{None};

    ghost from_gives = { λ why bad. bad ≡ record { why = why; page = None } };

    fn from(why: NdxFault) -> BadIndex {
        BadIndex { why, page: None }
    }
}

impl From<AllocError> for BadIndex {
    ghost use Rattle.std.specs.Prelude.{None};

    ghost from_gives = { λ _ bad. bad ≡ record { why = NoMemory; page = None } };

    fn from(_e: AllocError) -> BadIndex {
        BadIndex::from(NdxFault::NoMemory)
    }
}
