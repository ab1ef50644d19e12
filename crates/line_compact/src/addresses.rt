//! Addresses of forty hexadecimal digits between quotes.
ghost use Rattle.std.specs.Prelude.{◌≡◌, ◌*◌, IfSome, Some, length, unwrap_or};
ghost use Rattle.base_types.specs.Address.{address_of, digit_of};
ghost use Rattle.line_compact.specs.Begins.{IsSpelled};

use crate::pieces::after;

// Sixteen times the value of each byte as a digit, and 256 where it is none.
const HIGH: [u16; 256] = [
    256, 256, 256, 256, 256, 256, 256, 256, 256, 256, 256, 256, 256, 256, 256, 256, 256, 256, 256,
    256, 256, 256, 256, 256, 256, 256, 256, 256, 256, 256, 256, 256, 256, 256, 256, 256, 256, 256,
    256, 256, 256, 256, 256, 256, 256, 256, 256, 256, 0, 16, 32, 48, 64, 80, 96, 112, 128, 144,
    256, 256, 256, 256, 256, 256, 256, 256, 256, 256, 256, 256, 256, 256, 256, 256, 256, 256, 256,
    256, 256, 256, 256, 256, 256, 256, 256, 256, 256, 256, 256, 256, 256, 256, 256, 256, 256, 256,
    256, 160, 176, 192, 208, 224, 240, 256, 256, 256, 256, 256, 256, 256, 256, 256, 256, 256, 256,
    256, 256, 256, 256, 256, 256, 256, 256, 256, 256, 256, 256, 256, 256, 256, 256, 256, 256, 256,
    256, 256, 256, 256, 256, 256, 256, 256, 256, 256, 256, 256, 256, 256, 256, 256, 256, 256, 256,
    256, 256, 256, 256, 256, 256, 256, 256, 256, 256, 256, 256, 256, 256, 256, 256, 256, 256, 256,
    256, 256, 256, 256, 256, 256, 256, 256, 256, 256, 256, 256, 256, 256, 256, 256, 256, 256, 256,
    256, 256, 256, 256, 256, 256, 256, 256, 256, 256, 256, 256, 256, 256, 256, 256, 256, 256, 256,
    256, 256, 256, 256, 256, 256, 256, 256, 256, 256, 256, 256, 256, 256, 256, 256, 256, 256, 256,
    256, 256, 256, 256, 256, 256, 256, 256, 256, 256, 256, 256, 256, 256, 256, 256, 256, 256, 256,
    256, 256, 256, 256, 256, 256, 256, 256,
];

// The value of each byte as a digit, and 256 where it is none.
const LOW: [u16; 256] = [
    256, 256, 256, 256, 256, 256, 256, 256, 256, 256, 256, 256, 256, 256, 256, 256, 256, 256, 256,
    256, 256, 256, 256, 256, 256, 256, 256, 256, 256, 256, 256, 256, 256, 256, 256, 256, 256, 256,
    256, 256, 256, 256, 256, 256, 256, 256, 256, 256, 0, 1, 2, 3, 4, 5, 6, 7, 8, 9, 256, 256, 256,
    256, 256, 256, 256, 256, 256, 256, 256, 256, 256, 256, 256, 256, 256, 256, 256, 256, 256, 256,
    256, 256, 256, 256, 256, 256, 256, 256, 256, 256, 256, 256, 256, 256, 256, 256, 256, 10, 11,
    12, 13, 14, 15, 256, 256, 256, 256, 256, 256, 256, 256, 256, 256, 256, 256, 256, 256, 256, 256,
    256, 256, 256, 256, 256, 256, 256, 256, 256, 256, 256, 256, 256, 256, 256, 256, 256, 256, 256,
    256, 256, 256, 256, 256, 256, 256, 256, 256, 256, 256, 256, 256, 256, 256, 256, 256, 256, 256,
    256, 256, 256, 256, 256, 256, 256, 256, 256, 256, 256, 256, 256, 256, 256, 256, 256, 256, 256,
    256, 256, 256, 256, 256, 256, 256, 256, 256, 256, 256, 256, 256, 256, 256, 256, 256, 256, 256,
    256, 256, 256, 256, 256, 256, 256, 256, 256, 256, 256, 256, 256, 256, 256, 256, 256, 256, 256,
    256, 256, 256, 256, 256, 256, 256, 256, 256, 256, 256, 256, 256, 256, 256, 256, 256, 256, 256,
    256, 256, 256, 256, 256, 256, 256, 256, 256, 256, 256, 256, 256, 256, 256, 256, 256, 256, 256,
    256, 256, 256, 256,
];

fn high_of(c: u8) -> u16
    ensures { result ≡ 16 * unwrap_or (digit_of c) 16 }
{
    let value = HIGH[c as usize];
    value
}

fn low_of(c: u8) -> u16
    ensures { result ≡ unwrap_or (digit_of c) 256 }
{
    let value = LOW[c as usize];
    value
}

/// The twenty bytes that forty digits spell. Whether all of them are digits is asked once, at the end.
fn read_bytes(digits: &[u8]) -> Option<[u8; 20]>
    requires { length digits.now ≡ 40 }
    ensures { IfSome result (λ bytes. address_of digits.now ≡ Some bytes) }
{
    let mut bytes = [0u8; 20];
    let mut all = 0u16;
    'bytes: for i in 0..20 {
        let byte = high_of(digits[2 * i]) + low_of(digits[2 * i + 1]);
        all = all | byte;
        bytes[i] = (byte % 256) as u8;
    }
    if all < 256 { Some(bytes) } else { None }
}

/// The twenty bytes of the address that the text begins with, forty hexadecimal digits with small letters between quotes,
/// and what follows it.
pub fn address(text: &[u8]) -> Option<([u8; 20], &[u8])>
    ensures { IfSome result (λ found. IsSpelled address_of text.now found.0 found.1.now) }
{
    let inner = after(text, b"\"")?;
    if inner.len() < 40 {
        return None;
    }
    let (digits, behind) = inner.split_at(40);
    let bytes = read_bytes(digits)?;
    let rest = after(behind, b"\"")?;
    Some((bytes, rest))
}
