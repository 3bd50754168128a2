//! The file of memos that a table is read with.

ghost use Rattle.std.specs.Prelude.{◌≡◌, ◌≢◌, true, false, Ok, None, IfOk, IfErr, IfSome, IsSome, OnOk, List, ℕ};
ghost use Rattle.folders.specs.declared.source.LoadFault.TheVariants.{CannotRead};
ghost use Rattle.std.specs.Option.{option_copied, option_map};
ghost use Rattle.dbf_image.specs.Table.{has_memos};
ghost use Rattle.table_reader.specs.Memos.{memo_extension as extension_of_memos, memo_path as path_of_memos, wants_memos as has_memo_fields, IsLookedFor, IsMemoFile, IsMemosFault, IsMissingBeside, IsNotHad};

use byte_io::Bytes;
use dbf_fields::{Field, MEMO};
use dbf_image::told_fields;
use folders::{LoadFault, Source};
use std::alloc::{AllocError, Global};

// The extension of the file of memos beside a table, where the table has one of its own.
fn memo_extension(table: &[u8]) -> Option<&'static [u8]>
    ensures value { option_copied result ≡ extension_of_memos table.now }
{
    if table.ends_with(b".DBF") {
        Some(b".DBT")
    } else if table.ends_with(b".dbf") {
        Some(b".dbt")
    } else {
        None
    }
}

// The path of the file of memos beside a table.
fn memo_path(alloc: Global, table: &[u8]) -> Result<Option<Vec<u8>>, AllocError>
    ensures value { IfOk result (λ path. option_map (λ bytes. bytes.items) path ≡ path_of_memos table.now) }
{
    let Some(extension) = memo_extension(table) else {
        return Ok(None);
    };
    let stem = &table[..table.len().saturating_sub(extension.len())];
    let mut path = Vec::from_slice(alloc, stem)?;
    path.extend_from_slice(extension)?;
    Ok(Some(path))
}

fn any_memo(fields: &[Field]) -> bool
    ensures value { result ≡ has_memos fields.now }
{
    fields.iter().any(|field| field.kind == MEMO)
}

// Whether some field is a memo.
fn wants_memos(alloc: Global, dbf: &[u8]) -> Result<bool, AllocError>
    ensures value { IfOk result (λ wants. wants ≡ has_memo_fields dbf.now) }
{
    match told_fields(alloc, dbf)? {
        Some(fields) => Ok(any_memo(&fields)),
        None => Ok(false),
    }
}

// The file of memos beside a table, where it is there.
fn load_beside<F: Source>(
    alloc: Global,
    source: &mut F,
    table: &str,
) -> Result<Option<Bytes>, LoadFault>
    ensures found { IfOk result (λ memos. (dbf : List ℕ) → has_memo_fields dbf ≡ true → IsMemoFile (F.files source.old) table.now dbf None memos) }
    ensures missing { result ≡ Ok None → IfSome (path_of_memos table.now) (IsNotHad (F.files source.old) (F.failures source.old) (F.failures source.new)) }
    ensures counted { OnOk result (IsLookedFor (F.files source.old) (F.failures source.old) (F.failures source.new) table.now) }
    ensures had { IfOk result (λ memos. IsSome memos → F.failures source.new ≡ F.failures source.old) }
    ensures fault { IfErr result (IsMemosFault (F.files source.old) (λ _. ⊥) table.now None) }
    ensures failed { IfErr result (λ fault. fault ≢ CannotRead → F.failures source.new ≡ F.failures source.old) }
    ensures kept { F.files source.new ≡ F.files source.old }
{
    let Some(path) = memo_path(alloc, table.as_bytes())? else {
        return Ok(None);
    };
    match source.load(alloc, path.as_slice()) {
        Ok(bytes) => Ok(Some(bytes)),
        Err(LoadFault::CannotRead) => Ok(None),
        Err(fault) => Err(fault),
    }
}

/// Loads the file of memos of a table whose own file has these bytes: that of the path, where one is given; else, where some
/// field is a memo, the one beside the table, if it is there: the table's path with `.DBT` in place of `.DBF`, or `.dbt` in
/// place of `.dbf`. `None` where there is none.
///
/// A fault is that of the load of a path that is given; of the one beside the table it says `Unrecovered` or `NoMemory`, and a file
/// that can't be read is none.
pub fn load_memos<F: Source>(
    alloc: Global,
    source: &mut F,
    table: &str,
    dbf: &[u8],
    given: Option<&str>,
) -> Result<Option<Bytes>, LoadFault>
    ensures found { IfOk result (IsMemoFile (F.files source.old) table.now dbf.now (option_copied given.entry)) }
    ensures missing { let unread = IsNotHad (F.files source.old) (F.failures source.old) (F.failures source.new) in
        IfOk result (IsMissingBeside unread table.now dbf.now (option_copied given.entry)) }
    ensures counted { OnOk result (IsLookedFor (F.files source.old) (F.failures source.old) (F.failures source.new) table.now) }
    // Where a file of memos was had, or none is wanted, no load has failed.
    ensures had { IfOk result (λ memos. IsSome memos → F.failures source.new ≡ F.failures source.old) }
    ensures unwanted { has_memo_fields dbf.now ≡ false → OnOk result (F.failures source.new ≡ F.failures source.old) }
    ensures fault { let unread = IsNotHad (F.files source.old) (F.failures source.old) (F.failures source.new) in
        IfErr result (IsMemosFault (F.files source.old) unread table.now (option_copied given.entry)) }
    // A load has failed only where the answer says that the file can't be read.
    ensures failed { IfErr result (λ fault. fault ≢ CannotRead → F.failures source.new ≡ F.failures source.old) }
    ensures kept { F.files source.new ≡ F.files source.old }
{
    match given {
        Some(path) => Ok(Some(source.load(alloc, path.as_bytes())?)),
        None => {
            if wants_memos(alloc, dbf)? {
                load_beside(alloc, source, table)
            } else {
                Ok(None)
            }
        }
    }
}
