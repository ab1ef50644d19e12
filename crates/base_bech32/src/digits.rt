//! Numbers and their digits in a base, and the bytes of an address as groups of five bits.

ghost use Rattle.std.specs.Prelude.{◌≡◌, ◌<◌, ◌≤◌, ◌^◌, length, take};
ghost use Rattle.base_bech32.specs.Alphabet.{IsValues};
ghost use Rattle.base_bech32.specs.Digits.{digits, number_of, AreDigits};
ghost use Rattle.base_bech32.specs.Reading.{bytes_of};
ghost use Rattle.base_bech32.specs.Spelling.{values_of};

/// The number that digits spell, the highest first.
#[inline(always)]
pub(crate) fn number_of(base: u64, ds: &[u8]) -> u64
    requires digits { AreDigits base ds.now }
    requires fits { base ^ length ds.now < 2 ^ 64 }
    ensures { result ≡ number_of base ds.now }
{
    let mut number = 0;
    'digits: for i in 0..ds.len() {
        number = number * base + ds[i] as u64;
    }
    number
}

/// Writes as many digits of the number as there is room for, the highest first.
#[inline(always)]
pub(crate) fn put_digits(base: u64, number: u64, out: &mut [u8])
    requires some { 0 < base }
    requires bytes { base ≤ 256 }
    ensures { out.new ≡ digits base (length out.old) number }
{
    let mut rest = number;
    'digits: for i in 0..out.len() {
        let place = out.len() - 1 - i;
        out[place] = (rest % base) as u8;
        rest /= base;
    }
}

/// Twenty bytes as thirty-two groups of five bits, by four times five bytes.
pub(crate) fn values_of(bytes: &[u8; 20]) -> [u8; 32]
    ensures { result ≡ values_of bytes.now }
{
    let mut values = [0u8; 32];
    'parts: for i in 0..4 {
        let part = number_of(256, &bytes[5 * i..5 * i + 5]);
        put_digits(32, part, &mut values[8 * i..8 * i + 8]);
    }
    values
}

/// The first thirty-two groups of five bits as twenty bytes, by four times eight groups.
pub(crate) fn bytes_of(values: &[u8]) -> [u8; 20]
    requires lengths { 32 ≤ length values.now }
    requires values { IsValues values.now }
    ensures { result ≡ bytes_of (take 32 values.now) }
{
    let mut bytes = [0u8; 20];
    'parts: for i in 0..4 {
        let part = number_of(32, &values[8 * i..8 * i + 8]);
        put_digits(256, part, &mut bytes[5 * i..5 * i + 5]);
    }
    bytes
}
