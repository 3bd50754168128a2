//! The first field up to which fields are no schema.

ghost use Rattle.std.specs.Prelude.{◌≡◌};
ghost use Rattle.dbf_fields.specs.BadField.{IsFirstBadField, first_bad_field as first_bad_in};

use crate::field::Field;
use crate::schema::{SchemaFault, check_fields};

/// A field up to which fields are no schema, while up to each one before it they are.
#[derive(Clone, Copy, Debug, PartialEq, Eq)]
pub struct BadField {
    /// Its number, from 1.
    pub field_number: usize,
    /// Why they are none.
    pub why: SchemaFault,
}

/// The first field up to which the fields are no schema. `None` where they are one, or where there are no fields. Takes no
/// memory. A field is told before one of a later name that is bad, also where it only makes a record too long, or is the 129th.
pub fn first_bad_field(fields: &[Field]) -> Option<BadField>
    ensures value { result ≡ first_bad_in fields.now }
    ensures first { IsFirstBadField fields.now result }
{
    for index in 0..fields.len() {
        if let Err(why) = check_fields(&fields[..index + 1]) {
            return Some(BadField {
                field_number: index + 1,
                why,
            });
        }
    }
    None
}
