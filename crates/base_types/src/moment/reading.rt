//! Moments read from text (a profile of RFC 3339).

ghost use Rattle.std.specs.Prelude.{◌≡◌, ◌≤◌, ◌<◌, ◌+◌, ◌-◌, ◌*◌, ◌^◌, IfSome, IfNone, IfErr, IfOk, Some, None, length};
ghost use Rattle.base_types.specs.Calendar.{end_of_time, last_day, day_of, second_of};
ghost use Rattle.base_types.specs.Moment.{pair, pair_at, digits_of, fraction_of, day_at, second_at, has_marks, moment_of};

use crate::fault::TextFault;
use crate::moment::Moment;
use jiff::civil::Date;

/// The number that two digits spell.
fn pair(a: u8, b: u8) -> Option<u32>
    ensures value { result ≡ pair a b }
    ensures bound { IfSome result (λ n. n < 100) }
{
    if a.is_ascii_digit() && b.is_ascii_digit() {
        Some(10 * (a - b'0') as u32 + (b - b'0') as u32)
    } else {
        None
    }
}

/// The number that two digits at a place spell.
fn pair_at(text: &[u8], i: usize) -> Option<u32>
    requires { i + 1 < length text.now }
    ensures value { result ≡ pair_at text.now i }
    ensures bound { IfSome result (λ n. n < 100) }
{
    pair(text[i], text[i + 1])
}

/// The number of a date that the calendar has, in the years 1970 to 9999.
fn day_of(year: u32, month: u32, day: u32) -> Option<u32>
    requires year { year < 10000 }
    requires month { month < 100 }
    requires day { day < 100 }
    ensures value { result ≡ day_of year month day }
    ensures bound { IfSome result (λ n. n ≤ last_day) }
{
    if year < 1970 {
        return None;
    }
    match Date::new(year as i16, month as i8, day as i8) {
        Ok(date) => Some(date.to_plain().to_unix_epoch_day() as u32),
        Err(_) => None,
    }
}

/// The number of the day that the text begins with.
#[tactic(auto, unfolding(crate::specs::Moment::day_at))]
fn day_at(text: &[u8]) -> Option<u32>
    requires { 20 ≤ length text.now }
    ensures value { result ≡ day_at text.now }
    ensures bound { IfSome result (λ n. n ≤ last_day) }
{
    let century = pair_at(text, 0)?;
    let year = pair_at(text, 2)?;
    let month = pair_at(text, 5)?;
    let day = pair_at(text, 8)?;
    day_of(100 * century + year, month, day)
}

fn second_of(hour: u32, minute: u32, second: u32) -> Option<u32>
    ensures value { result ≡ second_of hour minute second }
    ensures bound { IfSome result (λ n. n < 86400) }
{
    if hour < 24 && minute < 60 && second < 60 {
        Some(3600 * hour + 60 * minute + second)
    } else {
        None
    }
}

/// The second of the day that stands behind it.
#[tactic(auto, unfolding(crate::specs::Moment::second_at))]
fn second_at(text: &[u8]) -> Option<u32>
    requires { 20 ≤ length text.now }
    ensures value { result ≡ second_at text.now }
    ensures bound { IfSome result (λ n. n < 86400) }
{
    let hour = pair_at(text, 11)?;
    let minute = pair_at(text, 14)?;
    let second = pair_at(text, 17)?;
    second_of(hour, minute, second)
}

/// What at most so many digits before the `Z` are worth, where the first is worth 10 ^ (places - 1).
fn digits_of(places: u32, text: &[u8]) -> Option<u32>
    requires { places ≤ 9 }
    ensures value { result ≡ digits_of places text.now }
    ensures bound { IfSome result (λ n. n < 10 ^ places) }
{
    match text {
        [] => None,
        [b'Z', rest @ ..] => if rest.is_empty() { Some(0) } else { None },
        [b, rest @ ..] => {
            if 0 < places && b.is_ascii_digit() {
                let n = digits_of(places - 1, rest)?;
                Some((*b - b'0') as u32 * 10u32.pow(places - 1) + n)
            } else {
                None
            }
        }
    }
}

/// The nanoseconds behind the seconds.
fn fraction_of(text: &[u8]) -> Option<u32>
    ensures value { result ≡ fraction_of text.now }
    ensures bound { IfSome result (λ n. n < 1_000_000_000) }
{
    match text {
        [b'Z'] => Some(0),
        [b'.', rest @ ..] => {
            if rest.is_empty() || !rest[0].is_ascii_digit() {
                return None;
            }
            digits_of(9, rest)
        }
        _ => None,
    }
}

fn has_marks(text: &[u8]) -> bool
    requires { 20 ≤ length text.now }
    ensures { result ≡ has_marks text.now }
{
    text[4] == b'-' && text[7] == b'-' && text[10] == b'T' && text[13] == b':' && text[16] == b':'
}

#[tactic(auto, unfolding(crate::specs::Moment::moment_of))]
fn moment_of(text: &[u8]) -> Option<u128>
    ensures value { result ≡ moment_of text.now }
    ensures bound { IfSome result (λ n. n < end_of_time) }
{
    if text.len() < 20 {
        return None;
    }
    let part = fraction_of(&text[19..])?;
    let day = day_at(text)?;
    let second = second_at(text)?;
    if has_marks(text) {
        Some((86_400 * day as u128 + second as u128) * 1_000_000_000 + part as u128)
    } else {
        None
    }
}

/// Reads a moment: `YYYY-MM-DDTHH:MM:SS`, a point and 1 to 9 digits or nothing, then `Z` (a profile of
/// RFC 3339). The year is 1970 to 9999, the date exists, hours are below 24, minutes and seconds below
/// 60. `BadMoment` comes exactly at any other text. Takes no memory.
pub fn read_moment(text: &str) -> Result<Moment, TextFault>
    ensures found { IfOk result (λ moment. moment_of text.now ≡ Some moment) }
    ensures only { IfErr result
        (λ fault. (fault ≡ TextFault.BadMoment) × (moment_of text.now ≡ None)) }
{
    match moment_of(text.as_bytes()) {
        Some(nanos) => Ok(Moment { nanos }),
        None => Err(TextFault::BadMoment),
    }
}
