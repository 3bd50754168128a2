//! What a field of a table is.

ghost use Rattle.std.specs.Prelude.{◌≡◌, map, bytes_eq, IfOk};
ghost use Rattle.std.specs.List.{list_all, list_any};
ghost use Rattle.std.specs.Char.{to_ascii_uppercase};
ghost use Rattle.dbf_fields.specs.Name.{is_name_char};

use crate::format::{
    CHARACTER, DATE, DATE_WIDTH, LOGICAL, MAX_CHARACTER_WIDTH, MAX_NUMBER_WIDTH, MEMO, MEMO_WIDTH,
    NUMBER,
};
use byte_io::Bytes;
use std::alloc::{AllocError, Global};

/// A field as its descriptor of 32 bytes tells it. `Schema::new` judges it.
#[derive(Debug, Drop)]
pub struct Field {
    /// The name: 1 to 10 bytes, a letter, then letters, digits or `_`.
    pub name: Bytes,
    /// The letter of the kind: `C`, `N`, `L`, `D` or `M`, a capital.
    pub kind: u8,
    /// How many bytes a cell of the field has.
    pub width: u8,
    /// How many digits a number has after its point. A schema keeps 0 for other kinds.
    pub decimals: u8,
}

// A letter, a digit or `_`.
fn is_name_byte(byte: u8) -> bool
    ensures value { result ≡ is_name_char byte }
{
    byte.is_ascii_alphanumeric() || byte == b'_'
}

fn are_name_bytes(name: &[u8]) -> bool
    ensures value { result ≡ list_all is_name_char name.now }
{
    name.iter().all(|byte| is_name_byte(*byte))
}

impl Field {
    ghost use Rattle.dbf_fields.specs.Name.{is_name};
    ghost use Rattle.dbf_fields.specs.Field.{is_kind, has_width, folded};

    /// A field of a name, a letter of a kind, a width and decimals, whatever they are; an error where memory is
    /// refused. `Schema::new` judges it.
    pub fn new(
        alloc: Global,
        name: &[u8],
        kind: u8,
        width: u8,
        decimals: u8,
    ) -> Result<Field, AllocError>
        ensures name { IfOk result (λ field. field.name ≡ name.now) }
        ensures kind { IfOk result (λ field. field.kind ≡ kind) }
        ensures width { IfOk result (λ field. field.width ≡ width) }
        ensures decimals { IfOk result (λ field. field.decimals ≡ decimals) }
    {
        Ok(Field {
            name: Bytes::from_slice(alloc, name)?,
            kind,
            width,
            decimals,
        })
    }

    // 1 to 10 letters, digits or `_`, a letter first.
    pub(crate) fn has_good_name(&self) -> bool
        ensures value { result ≡ is_name self.now.name }
    {
        let name = self.name.as_slice();
        if name.is_empty() || name.len() > 10 {
            return false;
        }
        name[0].is_ascii_alphabetic() && are_name_bytes(name)
    }

    pub(crate) fn has_known_kind(&self) -> bool
        ensures value { result ≡ is_kind self.now.kind }
    {
        matches!(self.kind, CHARACTER | NUMBER | LOGICAL | DATE | MEMO)
    }

    pub(crate) fn has_good_width(&self) -> bool
        ensures value { result ≡ has_width self.now }
    {
        match self.kind {
            CHARACTER => self.width >= 1 && self.width <= MAX_CHARACTER_WIDTH,
            NUMBER => {
                self.width >= 1
                    && self.width <= MAX_NUMBER_WIDTH
                    && (self.decimals == 0 || self.decimals < self.width)
            }
            LOGICAL => self.width == 1,
            DATE => self.width == DATE_WIDTH,
            _ => self.width == MEMO_WIDTH,
        }
    }

    // Whether the field has the name, whatever the case of the letters.
    fn is_named(&self, name: &[u8]) -> bool
        ensures value { result ≡ bytes_eq (folded self.now).name (map to_ascii_uppercase name.now) }
    {
        self.name.as_slice().eq_ignore_ascii_case(name)
    }

    // Whether one of the fields has the name, whatever the case of the letters.
    pub(crate) fn any_has_name(fields: &[Field], name: &[u8]) -> bool
        ensures value { result ≡ list_any (λ f. bytes_eq (folded f).name (map to_ascii_uppercase name.now)) fields.now }
    {
        fields.iter().any(|field| field.is_named(name))
    }

    // The field as a schema keeps it: the name in capitals, and no decimals but for a number.
    pub(crate) fn folded(&self, alloc: Global) -> Result<Field, AllocError>
        ensures value { IfOk result (λ field. field ≡ folded self.now) }
    {
        let name = self
            .name
            .as_slice()
            .iter()
            .map(|byte| byte.to_ascii_uppercase())
            .collect(alloc)?;
        let decimals = if self.kind == NUMBER {
            self.decimals
        } else {
            0
        };
        Ok(Field {
            name: Bytes::from_vec(name),
            kind: self.kind,
            width: self.width,
            decimals,
        })
    }

    /// The same field once more, or an error where memory is refused.
    pub fn copy(&self, alloc: Global) -> Result<Field, AllocError>
        ensures value { IfOk result (λ field. field ≡ self.now) }
    {
        Ok(Field {
            name: self.name.copy(alloc)?,
            kind: self.kind,
            width: self.width,
            decimals: self.decimals,
        })
    }
}
