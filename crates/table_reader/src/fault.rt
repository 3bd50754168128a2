//! Why the table of a path is not read.

ghost use Rattle.std.specs.Prelude.{◌≡◌, ◌++◌, codes, option_copied, OnOk};
ghost use Rattle.std.specs.Io.KnownBytes.{Appends};
ghost use Rattle.dbf_image.specs.FaultWords.{image_name, image_words};
ghost use Rattle.table_reader.specs.TableFiles.{is_image_no_memory, is_load_no_memory, is_table_no_memory, load_words, path_of_fault, table_read_words};

use dbf_image::ImageFault;
use folders::{LoadFault, folder_of};
use std::io;
use std::io::Write;

/// Why the table of a path is not read.
#[derive(Clone, Copy, Debug, PartialEq, Eq)]
pub enum TableReadFault {
    /// The table's file can't be read, or its folder is not recovered.
    Load(LoadFault),
    /// The same is true of the file of its memos.
    Memos(LoadFault),
    /// The files are no table.
    NoTable(ImageFault),
}

impl From<LoadFault> for TableReadFault {
    ghost use Rattle.std.specs.Prelude.{◌≡◌};
    ghost use Rattle.table_reader.specs.declared.fault.TableReadFault.TheVariants.{Load};

    ghost from_gives = { λ cause fault. fault ≡ Load cause };

    fn from(cause: LoadFault) -> TableReadFault {
        TableReadFault::Load(cause)
    }
}

impl From<ImageFault> for TableReadFault {
    ghost use Rattle.std.specs.Prelude.{◌≡◌};
    ghost use Rattle.table_reader.specs.declared.fault.TableReadFault.TheVariants.{NoTable};

    ghost from_gives = { λ cause fault. fault ≡ NoTable cause };

    fn from(cause: ImageFault) -> TableReadFault {
        TableReadFault::NoTable(cause)
    }
}

// Prints what to do with a folder that is not recovered.
fn print_unrecovered<W: Write>(out: &mut W, folder: &[u8]) -> io::Result<()>
    ensures text { OnOk result (Appends (W.contents out.old) (W.contents out.new) (codes "the folder is not recovered: start with --out " ++ folder.now)) }
{
    out.write_all(b"the folder is not recovered: start with --out ")?;
    out.write_all(folder)?;
    Ok(())
}

/// Prints why the file of a path was not loaded, and what to do where its folder is not recovered. Takes no memory. An error where a
/// write fails.
pub fn print_load<W: Write>(out: &mut W, path: &str, why: LoadFault) -> io::Result<()>
    ensures text { OnOk result (Appends (W.contents out.old) (W.contents out.new) (load_words path.now why)) }
{
    match why {
        LoadFault::CannotRead => out.write_all(
            b"cannot read: is it there, a file, and may it be read?",
        ),
        LoadFault::Unrecovered => print_unrecovered(out, folder_of(path.as_bytes())),
        LoadFault::NoMemory => out.write_all(b"out of memory"),
    }
}

// Prints why the files are no table: the fault's name, and what it says.
fn print_no_table<W: Write>(out: &mut W, why: ImageFault) -> io::Result<()>
    ensures text { OnOk result (Appends (W.contents out.old) (W.contents out.new) (image_name why ++ (codes ": " ++ image_words why))) }
{
    out.write_all(why.name().as_bytes())?;
    out.write_all(b": ")?;
    out.write_all(why.words().as_bytes())?;
    Ok(())
}

/// Whether a load failed for want of memory. Takes none.
pub fn is_load_without_memory(why: LoadFault) -> bool
    ensures value { result ≡ is_load_no_memory why }
{
    matches!(why, LoadFault::NoMemory)
}

/// Whether a table's files were not read for want of memory. Takes none.
pub fn is_image_without_memory(why: ImageFault) -> bool
    ensures value { result ≡ is_image_no_memory why }
{
    matches!(why, ImageFault::NoMemory)
}

impl TableReadFault {
    /// Whether it is a want of memory.
    pub fn is_no_memory(self) -> bool
        ensures value { result ≡ is_table_no_memory self }
    {
        match self {
            TableReadFault::Load(why) => is_load_without_memory(why),
            TableReadFault::Memos(why) => is_load_without_memory(why),
            TableReadFault::NoTable(why) => is_image_without_memory(why),
        }
    }

    /// The path of the file that the fault is one of: that of the file of memos, where it is given and the fault is one of it, and else
    /// the table's.
    pub fn path_of<'a>(self, path: &'a str, memos: Option<&'a str>) -> &'a str
        ensures value { result.now ≡ path_of_fault path.entry.now (option_copied memos.entry) self }
    {
        match self {
            TableReadFault::Memos(_) => memos.unwrap_or(path),
            _ => path,
        }
    }

    /// Prints why the table of a path is not read. Takes no memory. An error where a write fails.
    pub fn print<W: Write>(self, out: &mut W, path: &str) -> io::Result<()>
        ensures text { OnOk result (Appends (W.contents out.old) (W.contents out.new) (table_read_words path.now self)) }
    {
        match self {
            TableReadFault::Load(why) => print_load(out, path, why),
            TableReadFault::Memos(why) => print_load(out, path, why),
            TableReadFault::NoTable(why) => print_no_table(out, why),
        }
    }
}
