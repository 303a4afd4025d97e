//! Whole numbers in two halves.
ghost use Rattle.std.specs.Prelude.{◌≡◌};

use std::marker::Model;

/// How many numbers a half has.
const HALF: u128 = 18_446_744_073_709_551_616;

/// A whole number in two halves. What holds an `i128` lies at multiples of 16 bytes, and what holds this one of 8, so it
/// takes less room. Contracts see the number.
#[derive(Clone, Copy, PartialEq, Eq, Hash)]
pub struct WholeNumber {
    high: u64,
    low: u64,
}

impl Model for WholeNumber {
    ghost use Rattle.std.specs.Prelude.{ℤ, ◌<◌};
    ghost use Rattle.plan_types.specs.WholeNumbers.{half, whole_of, high_of, low_of, high_again, low_again};

    ghost Value = { ℤ };

    ghost view = { λ number. whole_of number.high number.low };

    ghost invariant = { λ number. (number.high < half) × (number.low < half) };

    ghost inverse = { λ number. record { high = high_of number; low = low_of number } };

    ghost inverse_ok = { λ number within. λ i. record {
      high = high_again number.high number.low within.0 within.1 i;
      low = low_again number.high number.low within.0 within.1 i;
    } };
}

impl WholeNumber {
    pub fn new(number: i128) -> WholeNumber
        ensures { result ≡ number }
    {
        let bits = number.cast_unsigned();
        WholeNumber {
            high: (bits / HALF) as u64,
            low: (bits % HALF) as u64,
        }
    }

    pub fn get(self) -> i128
        ensures { result ≡ self }
    {
        let bits = self.high as u128 * HALF + self.low as u128;
        bits.cast_signed()
    }
}
