//! Indexes of a folder that fitted a table of it, and no longer do.

ghost use Rattle.std.specs.Prelude.{◌≡◌};

use crate::placing::folder_text;
use byte_io::Bytes;
use dbf_image::GrowingTable;
use files_in_place::Disk;
use folders::Source;
use key_expr::{ExprFault, KeyExpr};
use ndx_index::{NdxFault, read_ndx};
use program_frame::System;
use std::alloc::{AllocError, Global};
use table_core::are_all_pairs;
use table_maker::is_index_name;
use table_reader::load_table;

// Whether a file of a folder is an index whose pairs are those of the records. `None` where that can't be told.
fn fits<D: Disk>(alloc: Global, disk: &mut D, records: &GrowingTable, name: &[u8]) -> Option<bool> {
    let Ok(Some(bytes)) = disk.read(alloc, name) else {
        return None;
    };
    let file = match read_ndx(alloc, bytes.as_slice()) {
        Ok(file) => file,
        Err(NdxFault::NoMemory) => return None,
        Err(_) => return Some(false),
    };
    let expr = match KeyExpr::parse(alloc, file.expr.as_slice(), records.schema()) {
        Ok(expr) => expr,
        Err(ExprFault::NoMemory) => return None,
        Err(_) => return Some(false),
    };
    if file.key_len != expr.key_len() {
        return Some(false);
    }
    Some(are_all_pairs(records, &expr, file.pairs))
}

// The records of the table of a path, and the folder that it lies in. `None` where one of the two can't be read.
fn table_and_folder<F: Source, Y: System>(
    alloc: Global,
    source: &mut F,
    system: &Y,
    path: &str,
) -> Option<(GrowingTable, Y::Disk)>
    ensures kept { F.files source.new ≡ F.files source.old }
{
    let Ok(table) = load_table(alloc, source, path, None) else {
        return None;
    };
    let folder = folder_text(path)?;
    let Ok(Some(disk)) = system.open(alloc, folder) else {
        return None;
    };
    Some((table.into_growing(), disk))
}

/// The names of the index files, in the folder of the table of a path, of which it can be told that their pairs are those of the table's
/// records. An error where memory is refused.
pub(crate) fn fitting_indexes<F: Source, Y: System>(
    alloc: Global,
    source: &mut F,
    system: &Y,
    path: &str,
) -> Result<Vec<Bytes>, AllocError>
    ensures kept { F.files source.new ≡ F.files source.old }
{
    let mut fitting = Vec::new(alloc);
    let Some((records, mut disk)) = table_and_folder(alloc, source, system, path) else {
        return Ok(fitting);
    };
    let Ok(names) = disk.list(alloc) else {
        return Ok(fitting);
    };
    for name in &names {
        if !is_index_name(name.as_slice()) {
            continue;
        }
        if let Some(true) = fits(alloc, &mut disk, &records, name.as_slice()) {
            fitting.push(name.copy(alloc)?)?;
        }
    }
    Ok(fitting)
}

// Adds the line of an index that is stale.
fn tell_stale(told: &mut Vec<u8>, name: &[u8]) -> Result<(), AllocError> {
    told.extend_from_slice(b"table_tool: ")?;
    told.extend_from_slice(name)?;
    told.extend_from_slice(b" is stale now: a run with --reindex makes it anew\n")
}

/// A line for each of these index files, in the folder of the table of a path, of which it can be told that their pairs are not those of
/// the table's records. An error where memory is refused.
pub(crate) fn stale_told<F: Source, Y: System>(
    alloc: Global,
    source: &mut F,
    system: &Y,
    path: &str,
    names: &[Bytes],
) -> Result<Bytes, AllocError>
    ensures kept { F.files source.new ≡ F.files source.old }
{
    let mut told = Vec::new(alloc);
    let Some((records, mut disk)) = table_and_folder(alloc, source, system, path) else {
        return Ok(Bytes::from_vec(told));
    };
    for name in names {
        if let Some(false) = fits(alloc, &mut disk, &records, name.as_slice()) {
            tell_stale(&mut told, name.as_slice())?;
        }
    }
    Ok(Bytes::from_vec(told))
}
