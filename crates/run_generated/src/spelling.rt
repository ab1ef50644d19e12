//! What spells a value in a line of an input, token by token.
ghost use Rattle.std.specs.Prelude.{◌≡◌, ◌∷◌, ◌++◌, codes, IfErr, OnOk};
ghost use Rattle.serde_json.specs.Data.{Data, member, no_members, object, string};
ghost use Rattle.serde_json.specs.Written.{members_outline};
ghost use Rattle.json.specs.Token.{key};
ghost use Rattle.json.specs.Tree.{members_tokens};
ghost use Rattle.base_bech32.specs.declared.form.Form.{Form};
ghost use Rattle.line_json.specs.Told.{data_tokens, listed};
ghost use Rattle.line_json.specs.Values.{coins_data, moment_data, user_data};
ghost use Rattle.run_generated.specs.Lines.{list_data, member_tokens, one_coin};

use base_bech32::Form;
use base_coins::{Coin, Coins};
use base_messages::LineFault;
use base_types::{Addr, Moment};
use json::Writer;
use line_json::{Told, push_told};
use std::alloc::Global;

/// The members of an object that was begun, and its end.
fn push_rest(
    alloc: Global,
    writer: &mut Writer,
    members: &[(&str, Told<'_>)],
) -> Result<(), LineFault>
    ensures ok { OnOk result (writer.new.tokens
        ≡ writer.old.tokens ++ members_tokens (members_outline (listed members.now))) }
    ensures before { OnOk result (writer.new.before ≡ writer.old.before) }
    ensures fault { IfErr result (λ fault. fault ≡ LineFault.NoMemory) }
{
    for (name, told) in members {
        writer.key(name)?;
        push_told(alloc, writer, told)?;
    }
    writer.end_object()?;
    Ok(())
}

/// Members of an object, behind others.
pub(crate) fn push_members(
    alloc: Global,
    writer: &mut Writer,
    members: &[(&str, Told<'_>)],
) -> Result<(), LineFault>
    ensures ok { OnOk result
        (writer.new.tokens ≡ writer.old.tokens ++ member_tokens (listed members.now)) }
    ensures before { OnOk result (writer.new.before ≡ writer.old.before) }
    ensures fault { IfErr result (λ fault. fault ≡ LineFault.NoMemory) }
{
    for (name, told) in members {
        writer.key(name)?;
        push_told(alloc, writer, told)?;
    }
    Ok(())
}

/// The member `fee`.
pub(crate) fn push_fee(alloc: Global, writer: &mut Writer, fee: &Coins) -> Result<(), LineFault>
    ensures ok { OnOk result (writer.new.tokens ≡ writer.old.tokens
        ++ member_tokens (member (codes "fee") (coins_data fee.now) no_members)) }
    ensures before { OnOk result (writer.new.before ≡ writer.old.before) }
    ensures fault { IfErr result (λ fault. fault ≡ LineFault.NoMemory) }
{
    let members = [("fee", Told::Coins(fee))];
    push_members(alloc, writer, &members)
}

/// The member `payer`.
pub(crate) fn push_payer(
    form: Form,
    alloc: Global,
    writer: &mut Writer,
    payer: &Addr,
) -> Result<(), LineFault>
    ensures ok { OnOk result (writer.new.tokens ≡ writer.old.tokens
        ++ member_tokens (member (codes "payer") (user_data form payer.now) no_members)) }
    ensures before { OnOk result (writer.new.before ≡ writer.old.before) }
    ensures fault { IfErr result (λ fault. fault ≡ LineFault.NoMemory) }
{
    let members = [("payer", Told::User(form, payer))];
    push_members(alloc, writer, &members)
}

/// The member `time`.
pub(crate) fn push_time(alloc: Global, writer: &mut Writer, time: Moment) -> Result<(), LineFault>
    ensures ok { OnOk result (writer.new.tokens ≡ writer.old.tokens
        ++ member_tokens (member (codes "time") (moment_data time) no_members)) }
    ensures before { OnOk result (writer.new.before ≡ writer.old.before) }
    ensures fault { IfErr result (λ fault. fault ≡ LineFault.NoMemory) }
{
    let members = [("time", Told::Moment(time))];
    push_members(alloc, writer, &members)
}

/// An object of these members, in the order in which they stand.
pub(crate) fn push_object(
    alloc: Global,
    writer: &mut Writer,
    members: &[(&str, Told<'_>)],
) -> Result<(), LineFault>
    ensures ok { OnOk result (writer.new.tokens
        ≡ writer.old.tokens ++ data_tokens (object (listed members.now))) }
    ensures before { OnOk result (writer.new.before ≡ writer.old.before) }
    ensures fault { IfErr result (λ fault. fault ≡ LineFault.NoMemory) }
{
    writer.begin_object()?;
    push_rest(alloc, writer, members)
}

/// The member `kind`.
pub(crate) fn push_kind(writer: &mut Writer, kind: &str) -> Result<(), LineFault>
    ensures ok { OnOk result (writer.new.tokens
        ≡ writer.old.tokens ++ key (codes "kind") ∷ data_tokens (string kind.now)) }
    ensures before { OnOk result (writer.new.before ≡ writer.old.before) }
    ensures fault { IfErr result (λ fault. fault ≡ LineFault.NoMemory) }
{
    writer.key("kind")?;
    writer.string(kind)?;
    Ok(())
}

/// A coin.
fn push_coin(alloc: Global, writer: &mut Writer, coin: &Coin) -> Result<(), LineFault>
    ensures ok { OnOk result (writer.new.tokens
        ≡ writer.old.tokens ++ data_tokens (one_coin coin.now)) }
    ensures before { OnOk result (writer.new.before ≡ writer.old.before) }
    ensures fault { IfErr result (λ fault. fault ≡ LineFault.NoMemory) }
{
    let members = [
        ("amount", Told::Amount(coin.amount)),
        ("denom", Told::Denom(&coin.denom)),
    ];
    push_object(alloc, writer, &members)
}

/// An object of an `amount`, which is a coin, and of these members behind it.
pub(crate) fn push_with_amount(
    alloc: Global,
    writer: &mut Writer,
    amount: &Coin,
    members: &[(&str, Told<'_>)],
) -> Result<(), LineFault>
    ensures ok { OnOk result (writer.new.tokens ≡ writer.old.tokens ++ data_tokens
        (object (member (codes "amount") (one_coin amount.now) (listed members.now)))) }
    ensures before { OnOk result (writer.new.before ≡ writer.old.before) }
    ensures fault { IfErr result (λ fault. fault ≡ LineFault.NoMemory) }
{
    writer.begin_object()?;
    writer.key("amount")?;
    push_coin(alloc, writer, amount)?;
    push_rest(alloc, writer, members)
}

/// A value that a line spells.
pub(crate) trait Spelled {
    // how it is spelled
    ghost spelled: { Form → Self → Data };

    /// Spells it, with its addresses in this form. The only error is `NoMemory`.
    fn spell(&self, form: Form, alloc: Global, writer: &mut Writer) -> Result<(), LineFault>
        ensures ok { OnOk result (writer.new.tokens
            ≡ writer.old.tokens ++ data_tokens (spelled form self.now)) }
        ensures before { OnOk result (writer.new.before ≡ writer.old.before) }
        ensures fault { IfErr result (λ fault. fault ≡ LineFault.NoMemory) };
}

/// An array of values, in their order.
fn push_list<T: Spelled>(
    form: Form,
    alloc: Global,
    writer: &mut Writer,
    values: &[T],
) -> Result<(), LineFault>
    ensures ok { OnOk result (writer.new.tokens
        ≡ writer.old.tokens ++ data_tokens (list_data (T.spelled form) values.now)) }
    ensures before { OnOk result (writer.new.before ≡ writer.old.before) }
    ensures fault { IfErr result (λ fault. fault ≡ LineFault.NoMemory) }
{
    writer.begin_array()?;
    for value in values {
        value.spell(form, alloc, writer)?;
    }
    writer.end_array()?;
    Ok(())
}

/// A member that is an array of values.
pub(crate) fn push_named_list<T: Spelled>(
    form: Form,
    alloc: Global,
    writer: &mut Writer,
    name: &str,
    values: &[T],
) -> Result<(), LineFault>
    ensures ok { OnOk result (writer.new.tokens
        ≡ writer.old.tokens ++ key name.now ∷ data_tokens (list_data (T.spelled form) values.now)) }
    ensures before { OnOk result (writer.new.before ≡ writer.old.before) }
    ensures fault { IfErr result (λ fault. fault ≡ LineFault.NoMemory) }
{
    writer.key(name)?;
    push_list::<T>(form, alloc, writer, values)
}
