//! The members of written lines, token by token.
ghost use Rattle.std.specs.Prelude.{◌≡◌, ◌++◌, IfErr, IsTrue, OnOk};
ghost use Rattle.serde_json.specs.Data.{object, string as string_data};
ghost use Rattle.base_types.specs.Address.{address_text};
ghost use Rattle.base_bech32.specs.Spelling.{is_prefix, spelling_of};
ghost use Rattle.line_json.specs.Addresses.{bytes_text};
ghost use Rattle.line_json.specs.Line.{line_of};
ghost use Rattle.line_json.specs.Told.{coins_seen, data_tokens, listed, told_data};
ghost use Rattle.line_json.specs.Values.{account_data, coin_data, coins_data, dec_coins_data, decimal_data, moment_data, whole_data};

use crate::addresses::{ACCOUNT, CONS, OPERATOR};
use crate::told::Told;
use crate::words::{over_name, status_name};
use base_bech32::{Form, spell_into};
use base_coins::{Coins, DecCoins};
use base_decimals::Dec;
use base_messages::LineFault;
use base_types::{Account, Denom, Moment, address_digits, print_moment};
use json::Writer;
use std::alloc::Global;
use std::{mem, str};

fn push_amount(writer: &mut Writer, amount: u128) -> Result<(), LineFault>
    ensures ok { OnOk result (writer.new.tokens
        ≡ writer.old.tokens ++ data_tokens (whole_data amount)) }
    ensures before { OnOk result (writer.new.before ≡ writer.old.before) }
    ensures fault { IfErr result (λ fault. fault ≡ LineFault.NoMemory) }
{
    let mut digits = itoa::Buffer::new();
    writer.string(digits.format(amount))?;
    Ok(())
}

#[tactic(auto, using(crate::proofs::TextLemmas::dec_text_is_utf8))]
fn push_decimal(writer: &mut Writer, decimal: Dec) -> Result<(), LineFault>
    ensures ok { OnOk result (writer.new.tokens
        ≡ writer.old.tokens ++ data_tokens (decimal_data decimal)) }
    ensures before { OnOk result (writer.new.before ≡ writer.old.before) }
    ensures fault { IfErr result (λ fault. fault ≡ LineFault.NoMemory) }
{
    let mut places = [0u8; 39];
    let len = decimal.write_into(&mut places);
    let digits = str::from_utf8(&places[..len]).unwrap();
    writer.string(digits)?;
    Ok(())
}

fn push_denom(writer: &mut Writer, denom: &Denom) -> Result<(), LineFault>
    ensures ok { OnOk result (writer.new.tokens
        ≡ writer.old.tokens ++ data_tokens (string_data denom.now)) }
    ensures before { OnOk result (writer.new.before ≡ writer.old.before) }
    ensures fault { IfErr result (λ fault. fault ≡ LineFault.NoMemory) }
{
    let name = str::from_utf8(denom.bytes()).unwrap();
    writer.string(name)?;
    Ok(())
}

/// The address of these bytes, in hexadecimal digits.
fn push_digits(writer: &mut Writer, bytes: &[u8; 20]) -> Result<(), LineFault>
    ensures ok { OnOk result (writer.new.tokens
        ≡ writer.old.tokens ++ data_tokens (string_data (address_text bytes.now))) }
    ensures before { OnOk result (writer.new.before ≡ writer.old.before) }
    ensures fault { IfErr result (λ fault. fault ≡ LineFault.NoMemory) }
{
    let digits = address_digits(bytes);
    let text = str::from_utf8(&digits).unwrap();
    writer.string(text)?;
    Ok(())
}

/// The spelling of these bytes behind a prefix.
fn push_spelling(writer: &mut Writer, prefix: &str, bytes: &[u8; 20]) -> Result<(), LineFault>
    requires { IsTrue (is_prefix prefix.now) }
    ensures ok { OnOk result (writer.new.tokens
        ≡ writer.old.tokens ++ data_tokens (string_data (spelling_of prefix.now bytes.now))) }
    ensures before { OnOk result (writer.new.before ≡ writer.old.before) }
    ensures fault { IfErr result (λ fault. fault ≡ LineFault.NoMemory) }
{
    let mut letters = [0u8; 64];
    let len = spell_into(prefix, bytes, &mut letters);
    let text = str::from_utf8(&letters[..len]).unwrap();
    writer.string(text)?;
    Ok(())
}

/// The text of these bytes, which has this prefix where it is a spelling.
fn push_address(
    form: Form,
    writer: &mut Writer,
    prefix: &str,
    bytes: &[u8; 20],
) -> Result<(), LineFault>
    requires { IsTrue (is_prefix prefix.now) }
    ensures ok { OnOk result (writer.new.tokens ≡ writer.old.tokens
        ++ data_tokens (string_data (bytes_text form prefix.now bytes.now))) }
    ensures before { OnOk result (writer.new.before ≡ writer.old.before) }
    ensures fault { IfErr result (λ fault. fault ≡ LineFault.NoMemory) }
{
    match form {
        Form::Hex => push_digits(writer, bytes),
        Form::Bech32 => push_spelling(writer, prefix, bytes),
    }
}

fn push_account(form: Form, writer: &mut Writer, account: &Account) -> Result<(), LineFault>
    ensures ok { OnOk result (writer.new.tokens
        ≡ writer.old.tokens ++ data_tokens (account_data form account.now)) }
    ensures before { OnOk result (writer.new.before ≡ writer.old.before) }
    ensures fault { IfErr result (λ fault. fault ≡ LineFault.NoMemory) }
{
    match account {
        Account::User(address) => push_address(form, writer, ACCOUNT, &address.bytes())?,
        Account::Module(module) => writer.string(module.name())?,
    }
    Ok(())
}

fn push_moment(alloc: Global, writer: &mut Writer, moment: Moment) -> Result<(), LineFault>
    ensures ok { OnOk result (writer.new.tokens
        ≡ writer.old.tokens ++ data_tokens (moment_data moment)) }
    ensures before { OnOk result (writer.new.before ≡ writer.old.before) }
    ensures fault { IfErr result (λ fault. fault ≡ LineFault.NoMemory) }
{
    match print_moment(alloc, moment) {
        Ok(text) => writer.string(&text)?,
        Err(_) => return Err(LineFault::NoMemory),
    }
    Ok(())
}

/// A whole amount of a denomination.
fn push_coin(writer: &mut Writer, denom: &Denom, amount: u128) -> Result<(), LineFault>
    ensures ok { OnOk result (writer.new.tokens
        ≡ writer.old.tokens ++ data_tokens (coin_data whole_data (denom.now, amount))) }
    ensures before { OnOk result (writer.new.before ≡ writer.old.before) }
    ensures fault { IfErr result (λ fault. fault ≡ LineFault.NoMemory) }
{
    writer.begin_object()?;
    writer.key("amount")?;
    push_amount(writer, amount)?;
    writer.key("denom")?;
    push_denom(writer, denom)?;
    writer.end_object()?;
    Ok(())
}

/// A decimal amount of a denomination.
fn push_dec_coin(writer: &mut Writer, denom: &Denom, amount: Dec) -> Result<(), LineFault>
    ensures ok { OnOk result (writer.new.tokens
        ≡ writer.old.tokens ++ data_tokens (coin_data decimal_data (denom.now, amount))) }
    ensures before { OnOk result (writer.new.before ≡ writer.old.before) }
    ensures fault { IfErr result (λ fault. fault ≡ LineFault.NoMemory) }
{
    writer.begin_object()?;
    writer.key("amount")?;
    push_decimal(writer, amount)?;
    writer.key("denom")?;
    push_denom(writer, denom)?;
    writer.end_object()?;
    Ok(())
}

fn push_coins(writer: &mut Writer, coins: &Coins) -> Result<(), LineFault>
    ensures ok { OnOk result (writer.new.tokens
        ≡ writer.old.tokens ++ data_tokens (coins_data coins.now)) }
    ensures before { OnOk result (writer.new.before ≡ writer.old.before) }
    ensures fault { IfErr result (λ fault. fault ≡ LineFault.NoMemory) }
{
    writer.begin_array()?;
    for place in 0..coins.len() {
        if let Some(coin) = coins.at(place) {
            push_coin(writer, &coin.denom, coin.amount)?;
        }
    }
    writer.end_array()?;
    Ok(())
}

/// Coins of lent denominations.
fn push_lent(writer: &mut Writer, lent: &[(&Denom, u128)]) -> Result<(), LineFault>
    ensures ok { OnOk result (writer.new.tokens
        ≡ writer.old.tokens ++ data_tokens (coins_data (coins_seen lent.now))) }
    ensures before { OnOk result (writer.new.before ≡ writer.old.before) }
    ensures fault { IfErr result (λ fault. fault ≡ LineFault.NoMemory) }
{
    writer.begin_array()?;
    for (denom, amount) in lent {
        push_coin(writer, denom, *amount)?;
    }
    writer.end_array()?;
    Ok(())
}

fn push_dec_coins(writer: &mut Writer, coins: &DecCoins) -> Result<(), LineFault>
    ensures ok { OnOk result (writer.new.tokens
        ≡ writer.old.tokens ++ data_tokens (dec_coins_data coins.now)) }
    ensures before { OnOk result (writer.new.before ≡ writer.old.before) }
    ensures fault { IfErr result (λ fault. fault ≡ LineFault.NoMemory) }
{
    writer.begin_array()?;
    for place in 0..coins.len() {
        if let Some(coin) = coins.at(place) {
            push_dec_coin(writer, &coin.denom, coin.amount)?;
        }
    }
    writer.end_array()?;
    Ok(())
}

/// Writes what a member tells, as one value. The only error is `NoMemory`.
pub fn push_told(alloc: Global, writer: &mut Writer, told: &Told<'_>) -> Result<(), LineFault>
    ensures ok { OnOk result (writer.new.tokens
        ≡ writer.old.tokens ++ data_tokens (told_data told.now)) }
    ensures before { OnOk result (writer.new.before ≡ writer.old.before) }
    ensures fault { IfErr result (λ fault. fault ≡ LineFault.NoMemory) }
{
    match told {
        Told::Word(word) => writer.string(word)?,
        Told::Count(count) => writer.u64(*count)?,
        Told::Number(refusal) => writer.u64(u64::from(refusal.number()))?,
        Told::Flag(flag) => writer.boolean(*flag)?,
        Told::Amount(amount) => push_amount(writer, *amount)?,
        Told::Decimal(decimal) => push_decimal(writer, *decimal)?,
        Told::Over(kind) => writer.string(over_name(*kind))?,
        Told::Status(status) => writer.string(status_name(*status))?,
        Told::Moment(moment) => push_moment(alloc, writer, *moment)?,
        Told::User(form, user) => push_address(*form, writer, ACCOUNT, &user.bytes())?,
        Told::Operator(form, operator) => {
            push_address(*form, writer, OPERATOR, &operator.bytes())?
        }
        Told::Account(form, account) => push_account(*form, writer, account)?,
        Told::Module(module) => writer.string(module.name())?,
        Told::Cons(form, cons) => push_address(*form, writer, CONS, &cons.bytes())?,
        Told::Denom(denom) => push_denom(writer, denom)?,
        Told::Coins(coins) => push_coins(writer, coins)?,
        Told::Lent(lent) => push_lent(writer, lent)?,
        Told::DecCoins(coins) => push_dec_coins(writer, coins)?,
    }
    Ok(())
}

/// Writes the object of these members, in the order in which they stand, as one value. The only error is `NoMemory`.
pub fn push_object(
    alloc: Global,
    writer: &mut Writer,
    members: &[(&str, Told<'_>)],
) -> Result<(), LineFault>
    ensures ok { OnOk result (writer.new.tokens
        ≡ writer.old.tokens ++ data_tokens (object (listed members.now))) }
    ensures before { OnOk result (writer.new.before ≡ writer.old.before) }
    ensures fault { IfErr result (λ fault. fault ≡ LineFault.NoMemory) }
{
    writer.begin_object()?;
    for (name, told) in members {
        writer.key(name)?;
        push_told(alloc, writer, told)?;
    }
    writer.end_object()?;
    Ok(())
}

/// Appends the line of an object with these members, in the order in which they stand, which for a line of the
/// output is the ascending order of their names.
///
/// The only error is `NoMemory`.
pub fn push_line(
    alloc: Global,
    out: &mut Vec<u8>,
    members: &[(&str, Told<'_>)],
) -> Result<(), LineFault>
    ensures ok { OnOk result
        (out.new.items ≡ out.old.items ++ line_of (object (listed members.now))) }
    ensures fault { IfErr result (λ fault. fault ≡ LineFault.NoMemory) }
{
    let mut writer = Writer::new(mem::replace(out, Vec::new(alloc)));
    let pushed = push_object(alloc, &mut writer, members);
    *out = writer.into_inner();
    pushed?;
    out.push(b'\n')?;
    Ok(())
}
