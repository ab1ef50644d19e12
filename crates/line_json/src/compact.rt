//! Values read from compact text in one pass, without a tape.
//!
//! Most lines have their members in the order of `docs/FORMATS.md`, and the generated ones in ascending order of their
//! names, without a space or an escape. Such a text is matched with the pieces that stand between the values. What is
//! matched is the compact text of a tree, so that no other tree is read from it. Any other text gives None, which says
//! nothing of it.
ghost use Rattle.std.specs.Prelude.{◌<◌, ◌≡◌, ◌^◌, All, IfSome, IsTrue, Some, ℕ};
ghost use Rattle.base_bech32.specs.Spelling.{is_prefix};
ghost use Rattle.base_bech32.specs.declared.form.Form.TheVariants.{Bech32};
ghost use Rattle.base_types.specs.Moment.{moment_of};
ghost use Rattle.line_compact.specs.Begins.{IsSpelled};
ghost use Rattle.line_json.specs.Addresses.{bytes_in};
ghost use Rattle.line_json.specs.Compact.{IsCompact, IsCompactCoin, IsCompactList, IsMoneyOf};
ghost use Rattle.line_json.specs.Members.{amount_of};

use crate::addresses::bytes_in;
use crate::members::amount_of;
use crate::nested::FromTree;
use base_bech32::Form;
use base_coins::{Coin, Coins};
use base_types::{Denom, Moment, read_moment};
use line_compact::{after, string};
use std::alloc::Global;

/// A value that a compact text stands for.
pub(crate) trait FromCompact: FromTree {
    ghost deep: { ℕ };

    /// The value that the text begins with, its addresses in this form, and what follows it. None, where the text is of
    /// another form, and where memory is wanting.
    fn from_compact(form: Form, alloc: Global, text: &[u8]) -> Option<(Self, &[u8])>
        ensures { IfSome result (λ found. IsCompact (Self.reading form) deep text.now found.0 found.1.now) };
}

/// The list that the text begins with, and what follows it.
pub(crate) fn list<T: FromCompact>(
    form: Form,
    alloc: Global,
    text: &[u8],
) -> Option<(Vec<T>, &[u8])>
    ensures { IfSome result (λ found. IsCompactList (T.reading form) T.deep text.now found.0.items found.1.now) }
{
    let inner = after(text, b"[")?;
    let mut values = Vec::new(alloc);
    if let Some(rest) = after(inner, b"]") {
        return Some((values, rest));
    }
    let mut left = inner;
    'elements: loop {
        let (value, behind) = T::from_compact(form, alloc, left)?;
        if values.push(value).is_err() {
            return None;
        }
        if let Some(others) = after(behind, b",") {
            left = others;
        } else {
            let rest = after(behind, b"]")?;
            return Some((values, rest));
        }
    }
}

/// The text of bytes that are UTF-8.
fn text_of(bytes: &[u8]) -> Option<&str>
    ensures { IfSome result (λ text. text.now ≡ bytes.now) }
{
    match std::str::from_utf8(bytes) {
        Ok(text) => Some(text),
        Err(_) => None,
    }
}

/// The twenty bytes of the spelling that the text begins with, and what follows it.
fn spelling<'a>(prefix: &str, text: &'a [u8]) -> Option<([u8; 20], &'a [u8])>
    requires { IsTrue (is_prefix prefix.now) }
    ensures { IfSome result (λ found. IsSpelled (bytes_in Bech32 prefix.now) text.now found.0 found.1.now) }
{
    let (letters, rest) = string(text)?;
    let word = text_of(letters)?;
    let bytes = bytes_in(Form::Bech32, prefix, word)?;
    Some((bytes, rest))
}

/// The twenty bytes of the address that the text begins with, with this prefix where it is a spelling, and what follows
/// it.
pub(crate) fn address<'a>(form: Form, prefix: &str, text: &'a [u8]) -> Option<([u8; 20], &'a [u8])>
    requires { IsTrue (is_prefix prefix.now) }
    ensures { IfSome result (λ found. IsSpelled (bytes_in form prefix.now) text.now found.0 found.1.now) }
{
    match form {
        Form::Hex => line_compact::address(text),
        Form::Bech32 => spelling(prefix, text),
    }
}

/// The moment that bytes spell.
pub(crate) fn moment(bytes: &[u8]) -> Option<Moment>
    ensures { IfSome result (λ moment. moment_of bytes.now ≡ Some moment) }
{
    let text = text_of(bytes)?;
    match read_moment(text) {
        Ok(moment) => Some(moment),
        Err(_) => None,
    }
}

/// The amount that a string of any length spells, and what follows it.
fn long_amount(text: &[u8]) -> Option<(u128, &[u8])>
    ensures { IfSome result (λ found. IsSpelled amount_of text.now found.0 found.1.now) }
{
    let (digits, rest) = string(text)?;
    let word = text_of(digits)?;
    let number = amount_of(word)?;
    Some((number, rest))
}

/// The whole amount that a string spells, and what follows it.
fn amount(text: &[u8]) -> Option<(u128, &[u8])>
    ensures { IfSome result (λ found. IsSpelled amount_of text.now found.0 found.1.now) }
{
    match line_compact::amount(text) {
        Some((number, rest)) => Some((number, rest)),
        None => long_amount(text),
    }
}

fn coin(text: &[u8]) -> Option<(&[u8], u128, &[u8])>
    ensures { IfSome result (λ found. IsCompactCoin text.now found.0.now found.1 found.2.now) }
{
    let at_denom = after(text, b"{\"denom\":")?;
    let (name, behind_denom) = string(at_denom)?;
    let at_amount = after(behind_denom, b",\"amount\":")?;
    let (number, behind_amount) = amount(at_amount)?;
    let rest = after(behind_amount, b"}")?;
    Some((name, number, rest))
}

fn coin_by_name(text: &[u8]) -> Option<(&[u8], u128, &[u8])>
    ensures { IfSome result (λ found. IsCompactCoin text.now found.0.now found.1 found.2.now) }
{
    let at_amount = after(text, b"{\"amount\":")?;
    let (number, behind_amount) = amount(at_amount)?;
    let at_denom = after(behind_amount, b",\"denom\":")?;
    let (name, behind_denom) = string(at_denom)?;
    let rest = after(behind_denom, b"}")?;
    Some((name, number, rest))
}

/// The name of the denomination and the amount of the coin that the text begins with, and what follows it.
pub(crate) fn coin_parts(text: &[u8]) -> Option<(&[u8], u128, &[u8])>
    ensures { IfSome result (λ found. IsCompactCoin text.now found.0.now found.1 found.2.now) }
{
    match text.get(2) {
        Some(b'd') => coin(text),
        _ => coin_by_name(text),
    }
}

impl FromCompact for Coin {
    ghost deep = { 1 };

    fn from_compact(_form: Form, _alloc: Global, text: &[u8]) -> Option<(Coin, &[u8])> {
        let (name, amount, rest) = coin_parts(text)?;
        let denom = Denom::of(name)?;
        Some((Coin { denom, amount }, rest))
    }
}

/// The money that coins make, where no denomination stands twice.
pub(crate) fn money(coins: Vec<Coin>) -> Option<Coins>
    requires { All (λ c. c.amount < 10 ^ 38) coins.items }
    ensures { IfSome result (IsMoneyOf coins.items) }
{
    match Coins::of(coins) {
        Ok(money) => Some(money),
        Err(_) => None,
    }
}
