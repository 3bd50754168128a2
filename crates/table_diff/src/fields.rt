//! The fields of two tables, and what has changed of them.

ghost use Rattle.std.specs.Prelude.{◌≡◌, ◌≤◌, ◌*◌, ◌++◌, ◌∷◌, [], ◌<◌, false, length, flat_map, IfOk, IsTrue, OnOk};
ghost use Rattle.dbf_fields.specs.declared.format.TheConstants.{MAX_FIELDS};
ghost use Rattle.dbf_image.specs.Table.{has_memos as have_memos};
ghost use Rattle.table_diff.specs.Changes.{field_changes, fields_of_one};
ghost use Rattle.table_diff.specs.DiffText.{change_lines, decimals_words, field_told, description};
ghost use Rattle.table_diff.specs.Fields.{are_same_fields as are_same, fields_without, has_field as has_same_field, is_same_field as is_same};
ghost use Rattle.table_diff.specs.Fields.{shared_field, shared_fields as fields_of_both};
ghost use Rattle.table_text.specs.Structure.{kind_word as word_of_kind};

use crate::format::LF;
use dbf_fields::{BLANK, CHARACTER, DATE, Field, LOGICAL, MEMO, NUMBER};
use std::alloc::{AllocError, Global};

/// A field that both tables have, by its name.
#[derive(Clone, Copy, Debug)]
pub(crate) struct SharedField {
    /// Its index in the old table.
    pub old_index: usize,
    /// Its index in the new one.
    pub new_index: usize,
    /// Whether it has the same kind, width and decimals in both.
    pub is_same: bool,
}

fn is_same_field(field: &Field, other: &Field) -> bool
    ensures value { result ≡ is_same field.now other.now }
{
    field.name == other.name
        && field.kind == other.kind
        && field.width == other.width
        && field.decimals == other.decimals
}

/// Whether the fields are the same, in the same order.
pub(crate) fn are_same_fields(old: &[Field], new: &[Field]) -> bool
    ensures value { result ≡ are_same old.now new.now }
{
    if old.len() != new.len() {
        return false;
    }
    for (index, field) in old.iter().enumerate() {
        if !is_same_field(field, &new[index]) {
            return false;
        }
    }
    true
}

fn has_field(fields: &[Field], field: &Field) -> bool
    ensures value { result ≡ has_same_field fields.now field.now }
{
    fields.iter().any(|other| is_same_field(field, other))
}

// Whether some field is a memo.
fn has_memos(fields: &[Field]) -> bool
    ensures value { result ≡ have_memos fields.now }
{
    fields.iter().any(|field| field.kind == MEMO)
}

/// Whether the fields are the same and none is a memo: then records are the same where their bytes are.
pub(crate) fn are_plain_and_same(old: &[Field], new: &[Field]) -> bool
    ensures fields { IsTrue result → old.now ≡ new.now }
    ensures memos { IsTrue result → have_memos old.now ≡ false }
{
    are_same_fields(old, new) && !has_memos(old)
}

// The first of the new fields that has the name of an old one, after those before.
fn append_shared_field(
    shared: &mut Vec<SharedField>,
    old_index: usize,
    field: &Field,
    new_fields: &[Field],
) -> Result<(), AllocError>
    ensures ok { OnOk result (shared.new.items ≡ shared.old.items ++ shared_field old_index field.now 0 new_fields.now) }
{
    for (new_index, other) in new_fields.iter().enumerate() {
        if other.name == field.name {
            shared.push(SharedField {
                old_index,
                new_index,
                is_same: is_same_field(field, other),
            })?;
            return Ok(());
        }
    }
    Ok(())
}

/// The fields that both tables have.
///
/// An `Err` says that there was no memory.
pub(crate) fn shared_fields(
    alloc: Global,
    old_fields: &[Field],
    new_fields: &[Field],
) -> Result<Vec<SharedField>, AllocError>
    ensures value { IfOk result (λ shared. shared.items ≡ fields_of_both old_fields.now new_fields.now) }
{
    let mut shared = Vec::new(alloc);
    for (index, field) in old_fields.iter().enumerate() {
        append_shared_field(&mut shared, index, field, new_fields)?;
    }
    Ok(shared)
}

fn kind_word(kind: u8) -> &'static [u8]
    ensures value { result.now ≡ word_of_kind kind }
{
    match kind {
        CHARACTER => b"Character",
        NUMBER => b"Number",
        LOGICAL => b"Logical",
        DATE => b"Date",
        _ => b"Memo",
    }
}

// The decimals of a number, and nothing of another field.
fn append_decimals(alloc: Global, line: &mut Vec<u8>, field: &Field) -> Result<(), AllocError>
    ensures ok { OnOk result (line.new.items ≡ line.old.items ++ decimals_words field.now) }
{
    if field.kind != NUMBER {
        return Ok(());
    }
    let decimals = field.decimals;
    let digits = format!(in alloc; "{decimals}")?;
    line.push(BLANK)?;
    line.extend_from_slice(digits.as_bytes())
}

// A field's kind, its width and its decimals.
#[tactic(auto, unfolding(crate::specs::DiffText::description))]
fn append_field_words(alloc: Global, line: &mut Vec<u8>, field: &Field) -> Result<(), AllocError>
    ensures ok { OnOk result (line.new.items ≡ line.old.items ++ description field.now) }
{
    let width = field.width;
    let digits = format!(in alloc; "{width}")?;
    line.extend_from_slice(kind_word(field.kind))?;
    line.push(BLANK)?;
    line.extend_from_slice(digits.as_bytes())?;
    append_decimals(alloc, line, field)
}

// The line of a field that one table alone has.
#[tactic(auto, unfolding(crate::specs::DiffText::field_told))]
fn append_field(
    alloc: Global,
    line: &mut Vec<u8>,
    words: &[u8],
    field: &Field,
) -> Result<(), AllocError>
    ensures ok { OnOk result (line.new.items ≡ line.old.items ++ field_told words.now field.now) }
{
    line.extend_from_slice(words)?;
    line.extend_from_slice(field.name.as_slice())?;
    line.extend_from_slice(b": ")?;
    append_field_words(alloc, line, field)?;
    line.push(LF)?;
    Ok(())
}

// The line of a field that the others have not, and how many lines that are.
fn append_field_of_one(
    alloc: Global,
    text: &mut Vec<u8>,
    words: &[u8],
    others: &[Field],
    field: &Field,
) -> Result<usize, AllocError>
    ensures lines { OnOk result (text.new.items ≡ text.old.items ++ flat_map (field_told words.now) (fields_without others.now (field.now ∷ []))) }
    ensures count { IfOk result (λ count. count ≡ length (fields_without others.now (field.now ∷ []))) }
    ensures bounded { IfOk result (λ count. count ≤ 1) }
{
    if has_field(others, field) {
        return Ok(0);
    }
    append_field(alloc, text, words, field)?;
    Ok(1)
}

// The lines of the fields that the others have not, and how many they are.
fn append_fields_of_one(
    alloc: Global,
    text: &mut Vec<u8>,
    words: &[u8],
    fields: &[Field],
    others: &[Field],
) -> Result<usize, AllocError>
    requires count_bounded { length fields.now ≤ MAX_FIELDS }
    ensures lines { OnOk result (text.new.items ≡ text.old.items ++ flat_map (field_told words.now) (fields_without others.now fields.now)) }
    ensures count { IfOk result (λ count. count ≡ length (fields_without others.now fields.now)) }
    ensures bounded { IfOk result (λ count. count ≤ MAX_FIELDS) }
{
    let mut count = 0;
    for field in fields {
        let told = append_field_of_one(alloc, text, words, others, field)?;
        count += told;
    }
    Ok(count)
}

// The lines of the fields that one table has and the other has not, and how many they are.
fn append_fields_told(
    alloc: Global,
    text: &mut Vec<u8>,
    old_fields: &[Field],
    new_fields: &[Field],
) -> Result<usize, AllocError>
    requires old_bounded { length old_fields.now ≤ MAX_FIELDS }
    requires new_bounded { length new_fields.now ≤ MAX_FIELDS }
    ensures lines { OnOk result (text.new.items ≡ text.old.items ++ change_lines (fields_of_one old_fields.now new_fields.now)) }
    ensures count { IfOk result (λ count. count ≡ length (fields_of_one old_fields.now new_fields.now)) }
    ensures bounded { IfOk result (λ count. count ≤ 2 * MAX_FIELDS) }
{
    let gone = append_fields_of_one(alloc, text, b"old field ", old_fields, new_fields)?;
    let added = append_fields_of_one(alloc, text, b"new field ", new_fields, old_fields)?;
    Ok(gone + added)
}

/// The lines of what has changed of the fields, after what the text has, and how many they are.
///
/// An `Err` says that there was no memory.
pub(crate) fn append_field_changes(
    alloc: Global,
    text: &mut Vec<u8>,
    old_fields: &[Field],
    new_fields: &[Field],
) -> Result<usize, AllocError>
    requires old_bounded { length old_fields.now ≤ MAX_FIELDS }
    requires new_bounded { length new_fields.now ≤ MAX_FIELDS }
    ensures lines { OnOk result (text.new.items ≡ text.old.items ++ change_lines (field_changes old_fields.now new_fields.now)) }
    ensures count { IfOk result (λ count. count ≡ length (field_changes old_fields.now new_fields.now)) }
    ensures bounded { IfOk result (λ count. count ≤ 2 * MAX_FIELDS) }
{
    if are_same_fields(old_fields, new_fields) {
        return Ok(0);
    }
    let told = append_fields_told(alloc, text, old_fields, new_fields)?;
    if told > 0 {
        return Ok(told);
    }
    text.extend_from_slice(b"the fields stand in another order")?;
    text.push(LF)?;
    Ok(1)
}
