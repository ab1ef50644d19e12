//! Lines that are often written, as constant pieces of text with the value of a member behind each. A value is appended
//! to the text at once, without tokens between.
ghost use Rattle.std.specs.Prelude.{◌≡◌, ◌++◌, ◌∷◌, [], IfErr, IsTrue, OnOk};
ghost use Rattle.json.specs.Print.{escape, quoted};
ghost use Rattle.serde_json.specs.Data.{string as string_data};
ghost use Rattle.serde_json.specs.Written.{comma_if, compact_text};
ghost use Rattle.base_bech32.specs.Spelling.{is_prefix};
ghost use Rattle.line_json.specs.Addresses.{bytes_text};
ghost use Rattle.line_json.specs.Told.{pieced, told_data};
ghost use Rattle.line_json.specs.Values.{account_data, coin_data, coins_data, count_data, dec_coins_data, decimal_data, whole_data};

use crate::addresses::{ACCOUNT, OPERATOR};
use crate::told::Told;
use crate::writing::push_told;
use base_bech32::{Form, spell_into};
use base_coins::{Coins, DecCoins};
use base_decimals::Dec;
use base_messages::LineFault;
use base_types::{Account, Denom, address_digits};
use json::Writer;
use std::alloc::Global;
use std::mem;

fn push_piece(out: &mut Vec<u8>, piece: &str) -> Result<(), LineFault>
    ensures ok { OnOk result (out.new.items ≡ out.old.items ++ piece.now) }
    ensures fault { IfErr result (λ fault. fault ≡ LineFault.NoMemory) }
{
    out.extend_from_slice(piece.as_bytes())?;
    Ok(())
}

/// Appends a text between quotes, of which no character is escaped.
fn push_kept(out: &mut Vec<u8>, text: &[u8]) -> Result<(), LineFault>
    requires { escape text.now ≡ text.now }
    ensures ok { OnOk result (out.new.items ≡ out.old.items ++ quoted text.now) }
    ensures fault { IfErr result (λ fault. fault ≡ LineFault.NoMemory) }
{
    out.push(b'"')?;
    out.extend_from_slice(text)?;
    out.push(b'"')?;
    Ok(())
}

fn push_count(out: &mut Vec<u8>, count: u64) -> Result<(), LineFault>
    ensures ok { OnOk result
        (out.new.items ≡ out.old.items ++ compact_text (count_data count)) }
    ensures fault { IfErr result (λ fault. fault ≡ LineFault.NoMemory) }
{
    let mut digits = itoa::Buffer::new();
    push_piece(out, digits.format(count))
}

fn push_amount(out: &mut Vec<u8>, amount: u128) -> Result<(), LineFault>
    ensures ok { OnOk result
        (out.new.items ≡ out.old.items ++ compact_text (whole_data amount)) }
    ensures fault { IfErr result (λ fault. fault ≡ LineFault.NoMemory) }
{
    let mut digits = itoa::Buffer::new();
    push_kept(out, digits.format(amount).as_bytes())
}

fn push_decimal(out: &mut Vec<u8>, decimal: Dec) -> Result<(), LineFault>
    ensures ok { OnOk result
        (out.new.items ≡ out.old.items ++ compact_text (decimal_data decimal)) }
    ensures fault { IfErr result (λ fault. fault ≡ LineFault.NoMemory) }
{
    let mut places = [0u8; 39];
    let len = decimal.write_into(&mut places);
    push_kept(out, &places[..len])
}

fn push_denom(out: &mut Vec<u8>, denom: &Denom) -> Result<(), LineFault>
    ensures ok { OnOk result
        (out.new.items ≡ out.old.items ++ compact_text (string_data denom.now)) }
    ensures fault { IfErr result (λ fault. fault ≡ LineFault.NoMemory) }
{
    push_kept(out, denom.bytes())
}

/// The address of these bytes, in hexadecimal digits.
fn push_digits(out: &mut Vec<u8>, bytes: &[u8; 20]) -> Result<(), LineFault>
    ensures ok { OnOk result (out.new.items ≡ out.old.items
        ++ compact_text (string_data (bytes_text Form.Hex [] bytes.now))) }
    ensures fault { IfErr result (λ fault. fault ≡ LineFault.NoMemory) }
{
    push_kept(out, &address_digits(bytes))
}

/// The spelling of these bytes behind a prefix.
fn push_spelling(out: &mut Vec<u8>, prefix: &str, bytes: &[u8; 20]) -> Result<(), LineFault>
    requires { IsTrue (is_prefix prefix.now) }
    ensures ok { OnOk result (out.new.items ≡ out.old.items
        ++ compact_text (string_data (bytes_text Form.Bech32 prefix.now bytes.now))) }
    ensures fault { IfErr result (λ fault. fault ≡ LineFault.NoMemory) }
{
    let mut letters = [0u8; 64];
    let len = spell_into(prefix, bytes, &mut letters);
    push_kept(out, &letters[..len])
}

/// The text of these bytes, which has this prefix where it is a spelling.
fn push_address(
    form: Form,
    out: &mut Vec<u8>,
    prefix: &str,
    bytes: &[u8; 20],
) -> Result<(), LineFault>
    requires { IsTrue (is_prefix prefix.now) }
    ensures ok { OnOk result (out.new.items ≡ out.old.items
        ++ compact_text (string_data (bytes_text form prefix.now bytes.now))) }
    ensures fault { IfErr result (λ fault. fault ≡ LineFault.NoMemory) }
{
    match form {
        Form::Hex => push_digits(out, bytes),
        Form::Bech32 => push_spelling(out, prefix, bytes),
    }
}

fn push_account(form: Form, out: &mut Vec<u8>, account: &Account) -> Result<(), LineFault>
    ensures ok { OnOk result
        (out.new.items ≡ out.old.items ++ compact_text (account_data form account.now)) }
    ensures fault { IfErr result (λ fault. fault ≡ LineFault.NoMemory) }
{
    match account {
        Account::User(address) => push_address(form, out, ACCOUNT, &address.bytes()),
        Account::Module(module) => push_kept(out, module.name().as_bytes()),
    }
}

fn push_comma(out: &mut Vec<u8>, later: bool) -> Result<(), LineFault>
    ensures ok { OnOk result (out.new.items ≡ out.old.items ++ comma_if later) }
    ensures fault { IfErr result (λ fault. fault ≡ LineFault.NoMemory) }
{
    if later {
        push_piece(out, ",")?;
    }
    Ok(())
}

/// A whole amount of a denomination, behind a comma where it is a later element.
fn push_coin(out: &mut Vec<u8>, later: bool, denom: &Denom, amount: u128) -> Result<(), LineFault>
    ensures ok { OnOk result (out.new.items ≡ out.old.items
        ++ (comma_if later ++ compact_text (coin_data whole_data (denom.now, amount)))) }
    ensures fault { IfErr result (λ fault. fault ≡ LineFault.NoMemory) }
{
    push_comma(out, later)?;
    push_piece(out, "{\"amount\":")?;
    push_amount(out, amount)?;
    push_piece(out, ",\"denom\":")?;
    push_denom(out, denom)?;
    push_piece(out, "}")?;
    Ok(())
}

/// A decimal amount of a denomination, behind a comma where it is a later element.
fn push_dec_coin(
    out: &mut Vec<u8>,
    later: bool,
    denom: &Denom,
    amount: Dec,
) -> Result<(), LineFault>
    ensures ok { OnOk result (out.new.items ≡ out.old.items
        ++ (comma_if later ++ compact_text (coin_data decimal_data (denom.now, amount)))) }
    ensures fault { IfErr result (λ fault. fault ≡ LineFault.NoMemory) }
{
    push_comma(out, later)?;
    push_piece(out, "{\"amount\":")?;
    push_decimal(out, amount)?;
    push_piece(out, ",\"denom\":")?;
    push_denom(out, denom)?;
    push_piece(out, "}")?;
    Ok(())
}

fn push_coins(out: &mut Vec<u8>, coins: &Coins) -> Result<(), LineFault>
    ensures ok { OnOk result
        (out.new.items ≡ out.old.items ++ compact_text (coins_data coins.now)) }
    ensures fault { IfErr result (λ fault. fault ≡ LineFault.NoMemory) }
{
    let mut later = false;
    push_piece(out, "[")?;
    for place in 0..coins.len() {
        if let Some(coin) = coins.at(place) {
            push_coin(out, later, &coin.denom, coin.amount)?;
            later = true;
        }
    }
    push_piece(out, "]")
}

fn push_dec_coins(out: &mut Vec<u8>, coins: &DecCoins) -> Result<(), LineFault>
    ensures ok { OnOk result
        (out.new.items ≡ out.old.items ++ compact_text (dec_coins_data coins.now)) }
    ensures fault { IfErr result (λ fault. fault ≡ LineFault.NoMemory) }
{
    let mut later = false;
    push_piece(out, "[")?;
    for place in 0..coins.len() {
        if let Some(coin) = coins.at(place) {
            push_dec_coin(out, later, &coin.denom, coin.amount)?;
            later = true;
        }
    }
    push_piece(out, "]")
}

/// The value that a writer writes.
fn push_written(alloc: Global, out: &mut Vec<u8>, told: &Told<'_>) -> Result<(), LineFault>
    ensures ok { OnOk result
        (out.new.items ≡ out.old.items ++ compact_text (told_data told.now)) }
    ensures fault { IfErr result (λ fault. fault ≡ LineFault.NoMemory) }
{
    let mut writer = Writer::new(mem::replace(out, Vec::new(alloc)));
    let pushed = push_told(alloc, &mut writer, told);
    *out = writer.into_inner();
    pushed?;
    Ok(())
}

/// Appends the text of what a member tells. The only error is `NoMemory`.
fn push_value(alloc: Global, out: &mut Vec<u8>, told: &Told<'_>) -> Result<(), LineFault>
    ensures ok { OnOk result
        (out.new.items ≡ out.old.items ++ compact_text (told_data told.now)) }
    ensures fault { IfErr result (λ fault. fault ≡ LineFault.NoMemory) }
{
    match told {
        Told::Count(count) => push_count(out, *count)?,
        Told::Amount(amount) => push_amount(out, *amount)?,
        Told::Decimal(decimal) => push_decimal(out, *decimal)?,
        Told::User(form, user) => push_address(*form, out, ACCOUNT, &user.bytes())?,
        Told::Operator(form, operator) => { push_address(*form, out, OPERATOR, &operator.bytes())? }
        Told::Account(form, account) => push_account(*form, out, account)?,
        Told::Coins(coins) => push_coins(out, coins)?,
        Told::DecCoins(coins) => push_dec_coins(out, coins)?,
        _ => push_written(alloc, out, told)?,
    }
    Ok(())
}

/// Appends the line of these pieces, each with its value behind it, and of the piece at the end. The only error is
/// `NoMemory`.
pub(crate) fn push_pieces(
    alloc: Global,
    out: &mut Vec<u8>,
    pieces: &[(&str, Told<'_>)],
    end: &str,
) -> Result<(), LineFault>
    ensures ok { OnOk result
        (out.new.items ≡ out.old.items ++ (pieced pieces.now end.now ++ 10 ∷ [])) }
    ensures fault { IfErr result (λ fault. fault ≡ LineFault.NoMemory) }
{
    for (piece, told) in pieces {
        push_piece(out, piece)?;
        push_value(alloc, out, told)?;
    }
    push_piece(out, end)?;
    push_piece(out, "\n")
}
