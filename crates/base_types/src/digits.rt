//! The digits of addresses: hexadecimal with small letters, each read and printed by a table.

ghost use Rattle.std.specs.Prelude.{◌≡◌, unwrap_or, IsUtf8};
ghost use Rattle.base_types.specs.Address.{address_of, address_text, digit_of};

// The value of each byte as a digit, and 255 where it is none.
const VALUES: [u8; 256] = [
    255, 255, 255, 255, 255, 255, 255, 255, 255, 255, 255, 255, 255, 255, 255, 255, 255, 255, 255,
    255, 255, 255, 255, 255, 255, 255, 255, 255, 255, 255, 255, 255, 255, 255, 255, 255, 255, 255,
    255, 255, 255, 255, 255, 255, 255, 255, 255, 255, 0, 1, 2, 3, 4, 5, 6, 7, 8, 9, 255, 255, 255,
    255, 255, 255, 255, 255, 255, 255, 255, 255, 255, 255, 255, 255, 255, 255, 255, 255, 255, 255,
    255, 255, 255, 255, 255, 255, 255, 255, 255, 255, 255, 255, 255, 255, 255, 255, 255, 10, 11,
    12, 13, 14, 15, 255, 255, 255, 255, 255, 255, 255, 255, 255, 255, 255, 255, 255, 255, 255, 255,
    255, 255, 255, 255, 255, 255, 255, 255, 255, 255, 255, 255, 255, 255, 255, 255, 255, 255, 255,
    255, 255, 255, 255, 255, 255, 255, 255, 255, 255, 255, 255, 255, 255, 255, 255, 255, 255, 255,
    255, 255, 255, 255, 255, 255, 255, 255, 255, 255, 255, 255, 255, 255, 255, 255, 255, 255, 255,
    255, 255, 255, 255, 255, 255, 255, 255, 255, 255, 255, 255, 255, 255, 255, 255, 255, 255, 255,
    255, 255, 255, 255, 255, 255, 255, 255, 255, 255, 255, 255, 255, 255, 255, 255, 255, 255, 255,
    255, 255, 255, 255, 255, 255, 255, 255, 255, 255, 255, 255, 255, 255, 255, 255, 255, 255, 255,
    255, 255, 255, 255, 255, 255, 255, 255, 255, 255, 255, 255, 255, 255, 255, 255, 255, 255, 255,
    255, 255, 255, 255,
];

// The sixteen digits.
const DIGITS: &[u8; 16] = b"0123456789abcdef";

fn value_of(c: u8) -> u8
    ensures { result ≡ unwrap_or (digit_of c) 255 }
{
    let value = VALUES[c as usize];
    value
}

/// The twenty bytes that the text spells.
pub(crate) fn read_bytes(text: &str) -> Option<[u8; 20]>
    ensures { result ≡ address_of text.now }
{
    let digits = text.as_bytes();
    if digits.len() != 40 {
        return None;
    }
    let mut bytes = [0u8; 20];
    'bytes: for i in 0..20 {
        let high = value_of(digits[2 * i]);
        if high > 15 {
            return None;
        }
        let low = value_of(digits[2 * i + 1]);
        if low > 15 {
            return None;
        }
        bytes[i] = high * 16 + low;
    }
    Some(bytes)
}

/// The text of an address: forty hexadecimal digits with small letters. Takes no memory.
pub fn address_digits(bytes: &[u8; 20]) -> [u8; 40]
    ensures text { result ≡ address_text bytes.now }
    ensures utf8 { IsUtf8 result }
{
    let mut digits = [0u8; 40];
    'bytes: for i in 0..20 {
        digits[2 * i] = DIGITS[(bytes[i] / 16) as usize];
        digits[2 * i + 1] = DIGITS[(bytes[i] % 16) as usize];
    }
    digits
}
