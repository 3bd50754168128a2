//! The tables and the catalogues that the tests open.

ghost use Rattle.std.specs.Prelude.{◌≡◌, [], IfOk};

use byte_io::Bytes;
use catalogue_core::{Catalogue, IndexSource, TableSource};
use dbf_image::TableData;
use sample_files::table;
use std::alloc::Global;
use std::test::Fail;

// A table under a name, with indexes.
pub(crate) fn source(
    alloc: Global,
    name: &[u8],
    content: TableData,
    indexes: Vec<IndexSource>,
) -> Result<TableSource, Fail> {
    let name = Bytes::from_slice(alloc, name)?;
    Ok(TableSource {
        name,
        content,
        indexes,
    })
}

// The catalogue of a table T for a number of stations.
pub(crate) fn open(alloc: Global, content: TableData, stations: u32) -> Result<Catalogue, Fail>
    ensures stations { IfOk result (λ catalogue. catalogue.opened.stations ≡ stations) }
    ensures empty { IfOk result (λ catalogue. catalogue.journal ≡ []) }
{
    let sources = vec![in alloc; source(alloc, b"T", content, Vec::new(alloc))?]?;
    Ok(Catalogue::open(alloc, sources, stations, false)?)
}

// The same of the table of a file.
pub(crate) fn open_file(alloc: Global, file: &[u8], stations: u32) -> Result<Catalogue, Fail>
    ensures stations { IfOk result (λ catalogue. catalogue.opened.stations ≡ stations) }
    ensures empty { IfOk result (λ catalogue. catalogue.journal ≡ []) }
{
    open(alloc, table(alloc, file)?, stations)
}
