//! The file of memos of a table that is shown.

ghost use Rattle.std.specs.Prelude.{◌≡◌, IfErr, IfOk, OnOk, option_copied};
ghost use Rattle.table_reader.specs.Memos.{IsLookedFor, IsMemoFile, IsMissingBeside, IsNotHad};
ghost use Rattle.tool_program.specs.View.{IsFaultOfMemos};

use crate::showing::ShowFault;
use byte_io::Bytes;
use folders::Source;
use std::alloc::Global;
use table_reader::load_memos;

/// The file of memos of a table whose own file has these bytes.
pub(crate) fn memos_of<F: Source>(
    alloc: Global,
    source: &mut F,
    table: &str,
    dbf: &[u8],
    given: Option<&str>,
) -> Result<Option<Bytes>, ShowFault>
    ensures found { IfOk result (IsMemoFile (F.files source.old) table.now dbf.now (option_copied given.entry)) }
    ensures missing { let unread = IsNotHad (F.files source.old) (F.failures source.old) (F.failures source.new) in
        IfOk result (IsMissingBeside unread table.now dbf.now (option_copied given.entry)) }
    ensures counted { OnOk result (IsLookedFor (F.files source.old) (F.failures source.old) (F.failures source.new) table.now) }
    ensures fault { let unread = IsNotHad (F.files source.old) (F.failures source.old) (F.failures source.new) in
        IfErr result (IsFaultOfMemos (F.files source.old) unread table.now (option_copied given.entry)) }
    ensures kept { F.files source.new ≡ F.files source.old }
{
    match load_memos(alloc, source, table, dbf, given) {
        Ok(memos) => Ok(memos),
        Err(why) => Err(ShowFault::Memos(why)),
    }
}
