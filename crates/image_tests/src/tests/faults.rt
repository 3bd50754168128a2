//! The texts of faults that no program prints.

use super::*;
use byte_io::SinkFault;
use dbf_fields::{CellFault, SchemaFault};
use std::fmt::Display;

// Whether a fault is shown as that text.
fn is_shown(alloc: Global, fault: &impl Display, text: &str) -> Result<bool, Fail> {
    let shown = format!(in alloc; "{fault}")?;
    Ok(shown.as_str() == text)
}

#[test]
fn faults_of_fields_have_texts(rt: HostRuntime) -> Result<(), Fail> {
    for (fault, text) in [
        (
            SchemaFault::BadFieldCount,
            "there are no fields, or more than 128",
        ),
        (SchemaFault::BadName, "a field's name is bad"),
        (SchemaFault::DuplicateName, "two fields have one name"),
        (SchemaFault::BadKind, "a field is of no known kind"),
        (SchemaFault::BadWidth, "a field's width is bad"),
        (SchemaFault::RecordTooLong, "a record is too long"),
        (SchemaFault::NoMemory, "out of memory"),
    ] {
        assert!(rt; is_shown(rt.alloc(), &fault, text)?, "{text}");
    }
    Ok(())
}

#[test]
fn faults_of_cells_have_texts(rt: HostRuntime) -> Result<(), Fail> {
    for (fault, text) in [
        (
            CellFault::TypeMismatch,
            "the value is of another type than the field",
        ),
        (CellFault::BadDate, "the date is not one of the calendar"),
        (
            CellFault::NumberTooWide,
            "the number is too wide for the field",
        ),
        (CellFault::NoMemory, "out of memory"),
    ] {
        assert!(rt; is_shown(rt.alloc(), &fault, text)?, "{text}");
    }
    Ok(())
}

#[test]
fn faults_of_writing_have_texts(rt: HostRuntime) -> Result<(), Fail> {
    for (fault, text) in [
        (
            WriteFault::DateOutside,
            "the year is not one of 1900 to 2155",
        ),
        (WriteFault::TooManyBlocks, "the memos take too many blocks"),
        (WriteFault::Sink, "the sink failed"),
    ] {
        assert!(rt; is_shown(rt.alloc(), &fault, text)?, "{text}");
    }
    assert!(rt; is_shown(rt.alloc(), &SinkFault, "the sink failed")?);
    Ok(())
}

#[test]
fn refusals_of_tables_are_shown_in_their_words(rt: HostRuntime) -> Result<(), Fail> {
    for fault in [
        ImageFault::Truncated,
        ImageFault::BadVersion,
        ImageFault::BadHeaderLength,
        ImageFault::BadSchema,
        ImageFault::BadRecordLength,
        ImageFault::TooManyRecords,
        ImageFault::MemoFileMissing,
        ImageFault::BadMemoNumber,
        ImageFault::MemoOutside,
        ImageFault::MemoTooLong,
        ImageFault::NoMemory,
    ] {
        assert!(rt; is_shown(rt.alloc(), &fault, fault.words())?);
    }
    let memory = ImageFault::NoMemory;
    assert!(rt; memory.name() == "NoMemory" && memory.words() == "out of memory");
    Ok(())
}
