//! Decimals and shares against exact arithmetic outside the program, quotients with their rest, and texts of decimals.

ghost use Rattle.std.specs.Prelude.{◌≡◌, ◌<◌, ◌≤◌, ◌^◌};

use crate::checks::holds;
use crate::values::dec;
use crate::{decimal_cases, share_cases};
use base_decimals::{Dec, Over, OverKind, mul_div};
use base_shares::{ShareFault, issue, remove, shares_for, value_cut, value_even};
use std::process::Abort;
use std::str::SplitWhitespace;

/// What a call answers: units, or why there are none.
type Answer = Result<u128, ShareFault>;

fn number(rt: &impl Abort, words: &mut SplitWhitespace<'_>) -> u128 {
    let word = words.next().expect(rt, "a word more");
    word.parse::<u128>().expect(rt, "a number")
}

/// What is over, of which the operands are the next three words.
fn over(rt: &impl Abort, kind: OverKind, words: &mut SplitWhitespace<'_>) -> Answer {
    let (a, b, c) = (number(rt, words), number(rt, words), number(rt, words));
    Err(ShareFault::Over(Over { kind, a, b, c }))
}

/// The answer that a line wants: a number, or the kind of what is over and its operands, or what is refused.
fn wanted(rt: &impl Abort, words: &mut SplitWhitespace<'_>) -> Answer {
    let word = words.next().expect(rt, "an answer");
    match word {
        "sum" => over(rt, OverKind::Sum, words),
        "quotient" => over(rt, OverKind::Quotient, words),
        "rate-invalid" => Err(ShareFault::RateInvalid),
        "no-tokens" => Err(ShareFault::NoTokens),
        _ => Ok(word.parse::<u128>().expect(rt, "a number")),
    }
}

fn units(answer: Result<Dec, Over>) -> Answer {
    match answer {
        Ok(dec) => Ok(dec.raw()),
        Err(over) => Err(ShareFault::Over(over)),
    }
}

fn share_units(answer: Result<Dec, ShareFault>) -> Answer {
    match answer {
        Ok(shares) => Ok(shares.raw()),
        Err(fault) => Err(fault),
    }
}

fn positive(rt: &impl Abort, raw: u128) -> Dec
    ensures value { result ≡ raw }
    ensures some { 0 < result }
{
    assert!(rt; raw > 0);
    dec(rt, raw)
}

/// A number of at most 10^20.
fn whole(rt: &impl Abort, number: u128) -> u128
    ensures { result ≤ 10 ^ 20 }
{
    assert!(rt; number <= 100_000_000_000_000_000_000);
    number
}

/// A number of at most 10^18.
fn tokens(rt: &impl Abort, number: u128) -> u128
    ensures { result ≤ 10 ^ 18 }
{
    assert!(rt; number <= 1_000_000_000_000_000_000);
    number
}

/// The answers of calls with one or two decimals, and of the others.
fn answer(rt: &impl Abort, call: &str, a: u128, b: u128, c: u128) -> Answer {
    match call {
        "Add" => units(dec(rt, a).add(dec(rt, b))),
        "OfWhole" => units(Dec::of_whole(a)),
        "MulEven" => units(dec(rt, a).mul_even(dec(rt, b))),
        "MulCut" => units(dec(rt, a).mul_cut(dec(rt, b))),
        "Trunc" => Ok(dec(rt, a).trunc()),
        "RoundInt" => Ok(dec(rt, a).round_int()),
        _ => quotient(rt, call, a, b, c),
    }
}

/// The answers of calls with a divisor, and of those of shares.
fn quotient(rt: &impl Abort, call: &str, a: u128, b: u128, c: u128) -> Answer {
    match call {
        "QuoEven" => units(dec(rt, a).quo_even(positive(rt, b))),
        "QuoCut" => units(dec(rt, a).quo_cut(positive(rt, b))),
        "QuoUp" => units(dec(rt, a).quo_up(positive(rt, b))),
        "MulIntQuoEven" => units(dec(rt, a).mul_int_quo_even(whole(rt, b), positive(rt, c))),
        "MulIntQuoCut" => units(dec(rt, a).mul_int_quo_cut(whole(rt, b), positive(rt, c))),
        "MulIntQuoInt" => units(dec(rt, a).mul_int_quo_int(b, positive(rt, c).raw())),
        _ => issued(rt, call, a, b, c),
    }
}

/// The answers of calls with tokens, shares and an amount, and with a part of the shares.
fn issued(rt: &impl Abort, call: &str, a: u128, b: u128, c: u128) -> Answer {
    match call {
        "Issue" => share_units(issue(tokens(rt, a), dec(rt, b), c)),
        "SharesFor" => share_units(shares_for(tokens(rt, a), dec(rt, b), c)),
        _ => Ok(of_part(rt, call, tokens(rt, a), positive(rt, b), dec(rt, c))),
    }
}

/// The answers of calls with tokens, shares and a part of them.
fn of_part(rt: &impl Abort, call: &str, tokens: u128, shares: Dec, part: Dec) -> u128
    requires tokens { tokens ≤ 10 ^ 18 }
    requires some { 0 < shares }
{
    assert!(rt; part.raw() <= shares.raw());
    match call {
        "ValueEven" => value_even(tokens, shares, part).raw(),
        "ValueCut" => value_cut(tokens, shares, part).raw(),
        "TokensKept" => remove(tokens, shares, part).0,
        "SharesLeft" => remove(tokens, shares, part).1.raw(),
        "AmountOut" => remove(tokens, shares, part).2,
        _ => rt.panic(call),
    }
}

/// Whether the call of a line answers what the line wants: the call, three operands, and the answer.
fn agrees(rt: &impl Abort, line: &str) -> bool {
    let mut words = line.split_whitespace();
    let call = words.next().expect(rt, "a call");
    let a = number(rt, &mut words);
    let b = number(rt, &mut words);
    let c = number(rt, &mut words);
    answer(rt, call, a, b, c) == wanted(rt, &mut words)
}

fn all_agree(rt: &impl Abort, lines: &str) {
    for line in lines.lines() {
        holds(rt, line, agrees(rt, line));
    }
}

#[test]
fn calls_answer_as_exact_arithmetic(rt: HostRuntime) {
    all_agree(&rt, decimal_cases::CASES);
    all_agree(&rt, share_cases::CASES);
}

const MOST: u128 = u128::MAX;

const TOP: u128 = 99_999_999_999_999_999_999_999_999_999_999_999_999;

#[test]
fn quotients_with_their_rest(rt: HostRuntime) {
    holds(&rt, "70 / 4", mul_div(7, 10, 4) == Some((17, 2)));
    holds(&rt, "of the most", mul_div(MOST, MOST, TOP) == None);
    holds(&rt, "a square", mul_div(TOP, TOP, TOP) == Some((TOP, 0)));
    holds(
        &rt,
        "one below",
        mul_div(TOP, TOP - 1, TOP) == Some((TOP - 1, 0)),
    );
    holds(&rt, "a third of the most", mul_div(MOST, 1, 3) == None);
    let quarter = 85_070_591_730_234_615_865_843_651_857_942_052_863;
    holds(&rt, "a quarter", mul_div(MOST, 1, 4) == Some((quarter, 3)));
}

/// Texts, and the units that they spell.
const READ: [(&str, Option<u128>); 12] = [
    ("0", Some(0)),
    ("00000000000000000012.5", Some(12_500_000_000_000_000_000)),
    ("000000000000000000012", None),
    ("0.000000000000000001", Some(1)),
    (
        "99999999999999999999.999999999999999999",
        Some(99_999_999_999_999_999_999_999_999_999_999_999_999),
    ),
    ("0.0000000000000000001", None),
    ("1.", None),
    (".1", None),
    ("", None),
    ("1,5", None),
    ("+1", None),
    ("1e5", None),
];

/// Units, and the text that spells them.
const WRITTEN: [(u128, &str); 5] = [
    (0, "0.000000000000000000"),
    (1, "0.000000000000000001"),
    (1_633_333_333_333_333_331_700, "1633.333333333333331700"),
    (
        99_999_999_999_999_999_999_999_999_999_999_999_999,
        "99999999999999999999.999999999999999999",
    ),
    (
        18_446_744_073_709_551_616_000_000_000_000_000_007,
        "18446744073709551616.000000000000000007",
    ),
];

fn spells(text: &str, units: Option<u128>) -> bool {
    match (Dec::parse(text.as_bytes()), units) {
        (Some(dec), Some(units)) => dec.raw() == units,
        (None, None) => true,
        _ => false,
    }
}

fn is_spelled(rt: &impl Abort, units: u128, text: &str) -> bool {
    let mut out = [b'x'; 39];
    let length = dec(rt, units).write_into(&mut out);
    &out[..length] == text.as_bytes()
}

#[test]
fn texts_are_read_and_written(rt: HostRuntime) {
    for (text, units) in READ {
        holds(&rt, text, spells(text, units));
    }
    for (units, text) in WRITTEN {
        holds(&rt, text, is_spelled(&rt, units, text));
    }
}
