//! A whole number of 128 bits in two words.

ghost use Rattle.std.specs.Prelude.{◌≡◌};

use std::fmt;
use std::marker::Model;

/// The numbers that a word of 64 bits has.
const WORD: u128 = 1 << 64;

/// A whole number of 128 bits, with its sign. It is kept in two words of 64, so that what holds one need not be kept at
/// multiples of 16 bytes.
#[derive(Drop)]
pub struct WholeNumber {
    high: u64,
    low: u64,
}

impl Model for WholeNumber {
    ghost use Rattle.std.specs.Prelude.{ℤ};
    ghost use Rattle.dbf_fields.specs.TwoWords.{number_of_words};

    ghost Value = { ℤ };

    ghost view = { λ d. number_of_words d.high d.low };
}

impl WholeNumber {
    /// The whole number.
    pub fn new(number: i128) -> WholeNumber
        ensures value { result ≡ number }
    {
        let bits = number.cast_unsigned();
        WholeNumber {
            high: (bits / WORD) as u64,
            low: (bits % WORD) as u64,
        }
    }

    /// The number.
    pub fn get(&self) -> i128
        ensures value { result ≡ self.now }
    {
        let bits = u128::from(self.high) * WORD + u128::from(self.low);
        bits.cast_signed()
    }
}

impl fmt::Debug for WholeNumber {
    fn fmt<W: fmt::Write>(&self, f: &mut fmt::Formatter<W>) -> Result<(), fmt::Error> {
        fmt::Debug::fmt(&self.get(), f)
    }
}
