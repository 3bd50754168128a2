//! Steps that make files and change them.

use case_files::escapes::append_hex;
use case_files::words::{count, cut_first, cut_word};
use case_files::{Devices, Place, Step, Trouble, write_from};
use std::alloc::Global;

/// The bytes of a file that has to be there.
pub(crate) fn bytes_of(place: &Place, path: &[u8]) -> Result<Vec<u8>, Trouble> {
    match place.get(path)? {
        Some(bytes) => Ok(bytes),
        None => Err(Trouble::Bad("no such file")),
    }
}

/// Makes a file of the lines below the step: `file S.PRG`.
pub(crate) fn make_file(alloc: Global, place: &Place, step: &Step<'_, '_>) -> Result<(), Trouble> {
    let text = step.text_below(alloc, b'|')?;
    Ok(place.put(step.rest(), text)?)
}

/// Makes a file of the bytes below the step: `hex T.DBF`.
pub(crate) fn make_hex(alloc: Global, place: &Place, step: &Step<'_, '_>) -> Result<(), Trouble> {
    let mut bytes = Vec::new(alloc);
    for line in step.below {
        match line.after(b'|') {
            Some(text) => append_hex(alloc, &mut bytes, text)?,
            None => return Err(Trouble::Bad("bytes stand behind |")),
        }
    }
    Ok(place.put(step.rest(), bytes)?)
}

/// Copies a file: `copy OLD NEW`.
pub(crate) fn copy(place: &Place, form: &[u8]) -> Result<(), Trouble> {
    let (old, new) = cut_word(form);
    Ok(place.put(new, bytes_of(place, old)?)?)
}

/// Changes bytes of a file: `put T.DBF at 8: 21 00`.
pub(crate) fn put(alloc: Global, place: &Place, form: &[u8]) -> Result<(), Trouble> {
    let (path, change) = cut_word(form);
    let bytes = changed(alloc, bytes_of(place, path)?, change)?;
    Ok(place.put(path, bytes)?)
}

/// Cuts a file to its first bytes: `cut T.DBF 86`.
pub(crate) fn cut(place: &Place, form: &[u8]) -> Result<(), Trouble> {
    let (path, length) = cut_word(form);
    let mut bytes = bytes_of(place, path)?;
    bytes.truncate(count(length)?);
    Ok(place.put(path, bytes)?)
}

/// Removes a file, where it is there: `remove T.DBF`.
pub(crate) fn remove(place: &Place, path: &[u8]) -> Result<(), Trouble> {
    let _ = place.take(path);
    Ok(())
}

/// Lets a device fail in the next program: `fail load 3`, `fail write 4`, `fail write 4 once`.
pub(crate) fn fail(devices: &Devices, form: &[u8]) -> Result<(), Trouble> {
    let (device, rest) = cut_word(form);
    let (place, once) = cut_word(rest);
    let before = count(place)?.saturating_sub(1) as u64;
    let is_once = once == b"once".as_slice();
    match device {
        b"load" => devices.allow(before, u64::MAX, is_once),
        b"write" => devices.allow(u64::MAX, before, is_once),
        _ => return Err(Trouble::Bad("a load or a write fails")),
    }
    Ok(())
}

/// Bytes with others in place of those at an offset, or after them, or without their last ones: `at 8: 21 00`, `add 1a`, `cut 5`.
pub(crate) fn changed(alloc: Global, bytes: Vec<u8>, change: &[u8]) -> Result<Vec<u8>, Trouble> {
    let mut bytes = bytes;
    let (word, form) = cut_word(change);
    match word {
        b"add" => append_hex(alloc, &mut bytes, form)?,
        b"cut" => bytes.truncate(count(form)?),
        b"at" => write_hex(alloc, &mut bytes, form)?,
        _ => return Err(Trouble::Bad("at N: HEX, add HEX, or cut N")),
    }
    Ok(bytes)
}

// Writes bytes over those at an offset: `8: 21 00`.
fn write_hex(alloc: Global, bytes: &mut Vec<u8>, form: &[u8]) -> Result<(), Trouble> {
    let Some((offset, hex)) = cut_first(form, b": ") else {
        return Err(Trouble::Bad("at N: HEX"));
    };
    let mut new = Vec::new(alloc);
    append_hex(alloc, &mut new, hex)?;
    Ok(write_from(bytes, count(offset)?, &new)?)
}
