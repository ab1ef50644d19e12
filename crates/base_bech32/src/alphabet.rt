//! Letters and their values, by tables.

ghost use Rattle.std.specs.Prelude.{◌≡◌, ◌<◌, length, map, IfOk};
ghost use Rattle.base_bech32.specs.Alphabet.{letter_of, value_of, IsValues};
ghost use Rattle.base_bech32.specs.Reading.{values_read};

use crate::fault::BechFault;

// The letter of each value.
const LETTERS: &[u8; 32] = b"qpzry9x8gf2tvdw0s3jn54khce6mua7l";

// The value of each byte as a letter, and 32 where it is none.
const VALUES: [u8; 256] = [
    32, 32, 32, 32, 32, 32, 32, 32, 32, 32, 32, 32, 32, 32, 32, 32, 32, 32, 32, 32, 32, 32, 32, 32,
    32, 32, 32, 32, 32, 32, 32, 32, 32, 32, 32, 32, 32, 32, 32, 32, 32, 32, 32, 32, 32, 32, 32, 32,
    15, 32, 10, 17, 21, 20, 26, 30, 7, 5, 32, 32, 32, 32, 32, 32, 32, 32, 32, 32, 32, 32, 32, 32,
    32, 32, 32, 32, 32, 32, 32, 32, 32, 32, 32, 32, 32, 32, 32, 32, 32, 32, 32, 32, 32, 32, 32, 32,
    32, 29, 32, 24, 13, 25, 9, 8, 23, 32, 18, 22, 31, 27, 19, 32, 1, 0, 3, 16, 11, 28, 12, 14, 6,
    4, 2, 32, 32, 32, 32, 32, 32, 32, 32, 32, 32, 32, 32, 32, 32, 32, 32, 32, 32, 32, 32, 32, 32,
    32, 32, 32, 32, 32, 32, 32, 32, 32, 32, 32, 32, 32, 32, 32, 32, 32, 32, 32, 32, 32, 32, 32, 32,
    32, 32, 32, 32, 32, 32, 32, 32, 32, 32, 32, 32, 32, 32, 32, 32, 32, 32, 32, 32, 32, 32, 32, 32,
    32, 32, 32, 32, 32, 32, 32, 32, 32, 32, 32, 32, 32, 32, 32, 32, 32, 32, 32, 32, 32, 32, 32, 32,
    32, 32, 32, 32, 32, 32, 32, 32, 32, 32, 32, 32, 32, 32, 32, 32, 32, 32, 32, 32, 32, 32, 32, 32,
    32, 32, 32, 32, 32, 32, 32, 32, 32, 32, 32, 32, 32, 32, 32,
];

fn letter_of(value: u8) -> u8
    requires { value < 32 }
    ensures { result ≡ letter_of value }
{
    LETTERS[value as usize]
}

fn value_of(letter: u8) -> u8
    ensures { result ≡ value_of letter }
{
    let value = VALUES[letter as usize];
    value
}

/// Writes the letters of the values.
pub(crate) fn put_letters(values: &[u8], out: &mut [u8])
    requires lengths { length out.old ≡ length values.now }
    requires values { IsValues values.now }
    ensures { out.new ≡ map letter_of values.now }
{
    'values: for i in 0..values.len() {
        out[i] = letter_of(values[i]);
    }
}

/// The values of thirty-eight letters. `Digit` tells the first place at which there is no letter.
pub(crate) fn values_of_letters(letters: &[u8]) -> Result<[u8; 38], BechFault>
    requires { length letters.now ≡ 38 }
    ensures value { result ≡ values_read letters.now }
    ensures below { IfOk result (λ values. IsValues values) }
{
    let mut values = [0u8; 38];
    'letters: for i in 0..38 {
        let value = value_of(letters[i]);
        if value > 31 {
            return Err(BechFault::Digit(i));
        }
        values[i] = value;
    }
    Ok(values)
}
