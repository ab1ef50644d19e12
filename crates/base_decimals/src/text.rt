//! Decimals read from text, and written as text.

ghost use Rattle.std.specs.Prelude.{◌≡◌, ◌+◌, ◌-◌, ◌^◌, ◌<◌, ◌≤◌, ◌∷◌, ◌++◌, IfSome, drop, length, position};
ghost use Rattle.std.specs.Char.{is_ascii_digit};
ghost use Rattle.std.specs.List.{list_all};
ghost use Rattle.std.specs.Str.Parse.{AllDigits, digits_value};
ghost use Rattle.base_decimals.specs.Texts.{dec_of, dec_text, is_number as is_number_of, is_point, last_digits, number_of, place_units as place_units_of, whole_units as whole_units_of};

use crate::dec::Dec;
use crate::kernel::ONE;

// The most digits of a whole part.
const WHOLE_DIGITS: usize = 20;

// The most digits behind the point, and those that are written.
const PLACES: usize = 18;

impl Dec {
    /// The decimal that a text says: 1 to 20 digits, and then perhaps a point and 1 to 18 digits. None
    /// for any other text.
    pub fn parse(text: &[u8]) -> Option<Dec>
        ensures { result ≡ dec_of text.now }
    {
        let raw = match first_point(text) {
            None => whole_units(text)?,
            Some(point) => whole_units(&text[..point])? + place_units(&text[point + 1..])?,
        };
        Dec::from_raw(raw)
    }

    /// Writes the decimal as text, and answers the text's length: the whole part without zeros in front, a
    /// point and 18 digits. The bytes behind the text stay as they were.
    pub fn write_into(self, out: &mut [u8; 39]) -> usize
        ensures length { result ≡ length (dec_text self) }
        ensures text { out.new ≡ dec_text self ++ drop result out.old }
        ensures within { result ≤ 39 }
    {
        let whole = self.raw() / ONE;
        let end = digit_count(whole) + 1 + PLACES;
        write_text(&mut out[..end], whole, (self.raw() % ONE) as u64);
        end
    }
}

fn first_point(text: &[u8]) -> Option<usize>
    ensures value { result ≡ position is_point text.now }
    ensures within { IfSome result (λ point. point < length text.now) }
{
    text.iter().position(|&byte| byte == b'.')
}

// The units of a whole part, or None where it is not 1 to 20 digits.
fn whole_units(digits: &[u8]) -> Option<u128>
    ensures value { result ≡ whole_units_of digits.now }
    ensures room { IfSome result (λ n. n + 10 ^ 18 ≤ 10 ^ 38) }
{
    Some(number(digits, WHOLE_DIGITS)? * ONE)
}

// The units of the places behind a point, or None where they are not 1 to 18 digits.
fn place_units(digits: &[u8]) -> Option<u128>
    ensures value { result ≡ place_units_of digits.now }
    ensures below_one { IfSome result (λ n. n < 10 ^ 18) }
{
    let number = number(digits, PLACES)?;
    Some(number * 10u128.pow((PLACES - digits.len()) as u32))
}

#[tactic(auto, using(crate::proofs::Digits::number_digits, crate::proofs::Digits::number_short))]
// The number that 1 to `most` digits write, or None for any other text.
fn number(text: &[u8], most: usize) -> Option<u128>
    requires { most ≤ 20 }
    ensures value { result ≡ number_of most text.now }
    ensures bound { IfSome result (λ n. n < 10 ^ length text.now) }
    ensures short { IfSome result (λ n. length text.now ≤ most) }
{
    if is_number(text, most) {
        Some(number_from_digits(text))
    } else {
        None
    }
}

// Whether the text is 1 to `most` digits.
fn is_number(text: &[u8], most: usize) -> bool
    ensures { result ≡ is_number_of most text.now }
{
    !text.is_empty() && text.len() <= most && is_all_digits(text)
}

fn is_all_digits(text: &[u8]) -> bool
    ensures { result ≡ list_all is_ascii_digit text.now }
{
    text.iter().all(|byte| byte.is_ascii_digit())
}

// The number that at most 20 digits write.
fn number_from_digits(digits: &[u8]) -> u128
    requires digits { AllDigits 10 digits.now }
    requires short { length digits.now ≤ 20 }
    ensures value { result ≡ digits_value 10 digits.now }
    ensures bound { result < 10 ^ length digits.now }
{
    let mut number = 0;
    for &digit in digits {
        number = number * 10 + u128::from(digit - b'0');
    }
    number
}

// Writes a whole part, a point and 18 places, which fill `out`.
fn write_text(out: &mut [u8], whole: u128, places: u64)
    requires room { 19 < length out.old }
    requires limit { whole < 10 ^ 20 }
    ensures { out.new ≡ last_digits (length out.old - 19) whole ++ 46 ∷ last_digits 18 places }
{
    let point = out.len() - 1 - PLACES;
    write_whole(&mut out[..point], whole);
    out[point] = b'.';
    write_digits(&mut out[point + 1..], places);
}

// How many digits the text of a number has: those without zeros in front, but one for 0.
fn digit_count(value: u128) -> usize
    requires { value < 10 ^ 20 }
    ensures one { 1 ≤ result }
    ensures short { result ≤ 20 }
    ensures enough { value < 10 ^ result }
    ensures needed { 1 < result → 10 ^ (result - 1) ≤ value }
{
    if value < 10 {
        1
    } else {
        value.ilog10() as usize + 1
    }
}

// Writes the last digits of a number below 10^20, one in each place.
fn write_whole(out: &mut [u8], value: u128)
    requires some { 0 < length out.old }
    requires limit { value < 10 ^ 20 }
    ensures { out.new ≡ last_digits (length out.old) value }
{
    // The other digits fit the narrower type, which is divided faster.
    let last = out.len() - 1;
    out[last] = b'0' + (value % 10) as u8;
    write_digits(&mut out[..last], (value / 10) as u64);
}

// Writes the last digits of a number, one in each place.
fn write_digits(out: &mut [u8], value: u64)
    ensures { out.new ≡ last_digits (length out.old) value }
{
    let mut rest = value;
    let mut place = out.len();
    while place > 0 {
        place -= 1;
        out[place] = b'0' + (rest % 10) as u8;
        rest /= 10;
    }
}
