//! Moments printed as text (a profile of RFC 3339).

ghost use Rattle.std.specs.Prelude.{◌≡◌, ◌≤◌, ◌<◌, ◌^◌, ◌++◌, ◌∷◌, ◌+◌, [], OnOk, IfOk, IfErr, string_bytes};
ghost use Rattle.base_types.specs.Calendar.{end_of_time, last_day, date_of};
ghost use Rattle.base_types.specs.Moment.{two, digits, fraction_text, date_text, clock_text, moment_text};

use crate::fault::TextFault;
use crate::moment::Moment;
use std::alloc::{AllocError, Global};

fn push_digit(out: &mut String, digit: u32) -> Result<(), AllocError>
    requires { digit < 10 }
    ensures { OnOk result (string_bytes out.new ≡ string_bytes out.old ++ (48 + digit) ∷ []) }
{
    out.push((b'0' + digit as u8) as char)
}

fn push_two(out: &mut String, n: u32) -> Result<(), AllocError>
    requires { n < 100 }
    ensures { OnOk result (string_bytes out.new ≡ string_bytes out.old ++ two n) }
{
    push_digit(out, n / 10)?;
    push_digit(out, n % 10)
}

fn push_mark(out: &mut String, mark: char) -> Result<(), AllocError>
    requires { mark < 128 }
    ensures { OnOk result (string_bytes out.new ≡ string_bytes out.old ++ mark ∷ []) }
{
    out.push(mark)
}

fn push_date(out: &mut String, year: u32, month: u32, day: u32) -> Result<(), AllocError>
    requires year { year < 10000 }
    requires month { month < 100 }
    requires day { day < 100 }
    ensures { OnOk result
        (string_bytes out.new ≡ string_bytes out.old ++ date_text (year, month, day)) }
{
    push_two(out, year / 100)?;
    push_two(out, year % 100)?;
    push_mark(out, '-')?;
    push_two(out, month)?;
    push_mark(out, '-')?;
    push_two(out, day)
}

fn push_clock(out: &mut String, second: u32) -> Result<(), AllocError>
    requires { second < 86400 }
    ensures { OnOk result (string_bytes out.new ≡ string_bytes out.old ++ clock_text second) }
{
    push_two(out, second / 3600)?;
    push_mark(out, ':')?;
    push_two(out, second / 60 % 60)?;
    push_mark(out, ':')?;
    push_two(out, second % 60)
}

// The digits end where the rest is 0, so none has to be taken back.
fn push_digits(out: &mut String, places: u32, n: u32) -> Result<(), AllocError>
    requires places { places ≤ 9 }
    requires below { n < 10 ^ places }
    ensures { OnOk result (string_bytes out.new ≡ string_bytes out.old ++ digits places n) }
{
    if n == 0 {
        return Ok(());
    }
    let unit = 10u32.pow(places - 1);
    push_digit(out, n / unit)?;
    push_digits(out, places - 1, n % unit)
}

fn push_fraction(out: &mut String, n: u32) -> Result<(), AllocError>
    requires { n < 1_000_000_000 }
    ensures { OnOk result (string_bytes out.new ≡ string_bytes out.old ++ fraction_text n) }
{
    if n == 0 {
        return Ok(());
    }
    push_mark(out, '.')?;
    push_digits(out, 9, n)
}

/// The year, the month and the day of a day number.
fn date_of(day: u32) -> (u32, u32, u32)
    requires { day ≤ last_day }
    ensures value { result ≡ date_of day }
    ensures year { result.0 < 10000 }
    ensures month { result.1 < 100 }
    ensures day { result.2 < 100 }
{
    let date = jiff_core::civil::Date::from_unix_epoch_day(day as i64).unwrap();
    (date.year as u32, date.month as u32, date.day as u32)
}

#[tactic(auto, unfolding(crate::specs::Moment::moment_text))]
fn print(alloc: Global, nanos: u128) -> Result<String, AllocError>
    requires { nanos < end_of_time }
    ensures { IfOk result (λ text. string_bytes text ≡ moment_text nanos) }
{
    let seconds = (nanos / 1_000_000_000) as u64;
    let (year, month, day) = date_of((seconds / 86_400) as u32);
    let mut out = String::new(alloc);
    push_date(&mut out, year, month, day)?;
    push_mark(&mut out, 'T')?;
    push_clock(&mut out, (seconds % 86_400) as u32)?;
    push_fraction(&mut out, (nanos % 1_000_000_000) as u32)?;
    push_mark(&mut out, 'Z')?;
    Ok(out)
}

/// Prints a moment, with no zeros at the end of its fraction, and no point where that is 0. The only
/// error is `NoMemory`.
pub fn print_moment(alloc: Global, moment: Moment) -> Result<String, TextFault>
    ensures text { IfOk result (λ text. string_bytes text ≡ moment_text moment) }
    ensures fault { IfErr result (λ fault. fault ≡ TextFault.NoMemory) }
{
    let text = print(alloc, moment.nanos())?;
    Ok(text)
}
