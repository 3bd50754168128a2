//! The table of a path.

ghost use Rattle.std.specs.Prelude.{◌≡◌, Err, Some, IfErr, IfOk, OnOk, option_copied};
ghost use Rattle.folders.specs.Files.{load_refusal};
ghost use Rattle.table_reader.specs.Memos.{IsNotHad};
ghost use Rattle.table_reader.specs.TableFiles.{IsTableAt, IsTableCount, IsTableReadFault};

use crate::fault::TableReadFault;
use crate::memos::load_memos;
use dbf_image::{TableData, read_table};
use folders::{LoadFault, Source};
use std::alloc::Global;

/// Reads the table of a path, and its memos, which are those of a path that is given or else those beside the table.
///
/// `Load` where the table's file is not had, `Memos` where that of its memos is not, `NoTable` where they are no table; want of memory in
/// each of these.
pub fn load_table<F: Source>(
    alloc: Global,
    source: &mut F,
    path: &str,
    memos: Option<&str>,
) -> Result<TableData, TableReadFault>
    ensures table { IfOk result (IsTableAt (F.files source.old) path.now (option_copied memos.entry)) }
    ensures no_failure { OnOk result (F.failures source.new ≡ F.failures source.old) }
    // Where no load can give the table's file the answer is why, whether there is memory or not.
    ensures early { (why : LoadFault) → load_refusal (F.files source.old) path.now ≡ Some why → result ≡ Err (TableReadFault.Load why) }
    ensures fault { let unread = IsNotHad (F.files source.old) (F.failures source.old) (F.failures source.new) in
        IfErr result (IsTableReadFault (F.files source.old) unread path.now (option_copied memos.entry)) }
    ensures count { IfErr result (IsTableCount (F.files source.old) (F.failures source.old) (F.failures source.new) path.now) }
    ensures kept { F.files source.new ≡ F.files source.old }
{
    let dbf = source.load(alloc, path.as_bytes())?;
    let memos = match load_memos(alloc, source, path, dbf.as_slice(), memos) {
        Ok(memos) => memos,
        Err(why) => return Err(TableReadFault::Memos(why)),
    };
    let table = read_table(alloc, dbf, memos)?;
    Ok(table)
}
