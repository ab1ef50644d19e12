//! The lines of facts. Members stand in ascending order of their names.
ghost use Rattle.std.specs.Prelude.{◌≡◌, ◌++◌, [], IfErr, OnOk};
ghost use Rattle.base_bech32.specs.declared.form.Form.{Form};
ghost use Rattle.line_json.specs.Facts.{about, fact_data};
ghost use Rattle.line_json.specs.Line.{line_of, told_at};

use crate::pieces::push_pieces;
use crate::told::Told;
use crate::writing::push_line;
use base_bech32::Form;
use base_coins::{Coin, Coins, DecCoins};
use base_decimals::Dec;
use base_messages::LineFault;
use base_roles::Fact;
use base_types::{Account, Addr, BondStatus, Module};
use std::alloc::Global;

fn transfer<'a>(
    form: Form,
    alloc: Global,
    out: &mut Vec<u8>,
    height: u64,
    from: &'a Account,
    to: &'a Account,
    coins: &'a Coins,
) -> Result<(), LineFault>
    ensures ok { OnOk result (out.new.items ≡ out.old.items
        ++ line_of (fact_data form height (Fact.Transfer from.now to.now coins.now))) }
    ensures fault { IfErr result (λ fault. fault ≡ LineFault.NoMemory) }
{
    let pieces = [
        ("{\"coins\":", Told::Coins(coins)),
        (",\"from\":", Told::Account(form, from)),
        (",\"height\":", Told::Count(height)),
        (",\"kind\":\"transfer\",\"to\":", Told::Account(form, to)),
    ];
    push_pieces(alloc, out, &pieces, "}")
}

fn burn<'a>(
    alloc: Global,
    out: &mut Vec<u8>,
    height: u64,
    from: Module,
    coin: &'a Coin,
) -> Result<(), LineFault>
    ensures ok { (form : Form) → OnOk result (out.new.items ≡ out.old.items
        ++ line_of (fact_data form height (Fact.Burn from coin.now))) }
    ensures fault { IfErr result (λ fault. fault ≡ LineFault.NoMemory) }
{
    let members = [
        ("amount", Told::Amount(coin.amount)),
        ("denom", Told::Denom(&coin.denom)),
        ("from", Told::Module(from)),
        ("height", Told::Count(height)),
        ("kind", Told::Word("burn")),
    ];
    push_line(alloc, out, &members)
}

fn allocated<'a>(
    form: Form,
    alloc: Global,
    out: &mut Vec<u8>,
    height: u64,
    validator: &'a Addr,
    share: &'a DecCoins,
) -> Result<(), LineFault>
    ensures ok { OnOk result (out.new.items ≡ out.old.items
        ++ line_of (fact_data form height (Fact.Allocated validator.now share.now))) }
    ensures fault { IfErr result (λ fault. fault ≡ LineFault.NoMemory) }
{
    let pieces = [
        ("{\"coins\":", Told::DecCoins(share)),
        (",\"height\":", Told::Count(height)),
        (
            ",\"kind\":\"allocated\",\"validator\":",
            Told::Operator(form, validator),
        ),
    ];
    push_pieces(alloc, out, &pieces, "}")
}

fn pooled<'a>(
    alloc: Global,
    out: &mut Vec<u8>,
    height: u64,
    coins: &'a DecCoins,
) -> Result<(), LineFault>
    ensures ok { (form : Form) → OnOk result (out.new.items ≡ out.old.items
        ++ line_of (fact_data form height (Fact.Pooled coins.now))) }
    ensures fault { IfErr result (λ fault. fault ≡ LineFault.NoMemory) }
{
    let pieces = [
        ("{\"coins\":", Told::DecCoins(coins)),
        (",\"height\":", Told::Count(height)),
    ];
    push_pieces(alloc, out, &pieces, ",\"kind\":\"pooled\"}")
}

fn period_ended<'a>(
    form: Form,
    alloc: Global,
    out: &mut Vec<u8>,
    height: u64,
    validator: &'a Addr,
    period: u64,
    ratio: &'a DecCoins,
) -> Result<(), LineFault>
    ensures ok { OnOk result (out.new.items ≡ out.old.items
        ++ line_of (fact_data form height (Fact.Period validator.now period ratio.now))) }
    ensures fault { IfErr result (λ fault. fault ≡ LineFault.NoMemory) }
{
    let pieces = [
        ("{\"height\":", Told::Count(height)),
        (",\"kind\":\"period\",\"period\":", Told::Count(period)),
        (",\"ratio\":", Told::DecCoins(ratio)),
        (",\"validator\":", Told::Operator(form, validator)),
    ];
    push_pieces(alloc, out, &pieces, "}")
}

fn started<'a>(
    form: Form,
    alloc: Global,
    out: &mut Vec<u8>,
    height: u64,
    delegator: &'a Addr,
    validator: &'a Addr,
    period: u64,
    stake: Dec,
) -> Result<(), LineFault>
    ensures ok { OnOk result (out.new.items ≡ out.old.items
        ++ line_of (fact_data form height (Fact.Started delegator.now validator.now period stake))) }
    ensures fault { IfErr result (λ fault. fault ≡ LineFault.NoMemory) }
{
    let pieces = [
        ("{\"delegator\":", Told::User(form, delegator)),
        (",\"height\":", Told::Count(height)),
        (",\"kind\":\"started\",\"period\":", Told::Count(period)),
        (",\"stake\":", Told::Decimal(stake)),
        (",\"validator\":", Told::Operator(form, validator)),
    ];
    push_pieces(alloc, out, &pieces, "}")
}

fn slashed<'a>(
    form: Form,
    alloc: Global,
    out: &mut Vec<u8>,
    height: u64,
    validator: &'a Addr,
    fraction: Dec,
    burned: u128,
) -> Result<(), LineFault>
    ensures ok { OnOk result (out.new.items ≡ out.old.items
        ++ line_of (fact_data form height (Fact.Slashed validator.now fraction burned))) }
    ensures fault { IfErr result (λ fault. fault ≡ LineFault.NoMemory) }
{
    let members = [
        ("burned", Told::Amount(burned)),
        ("fraction", Told::Decimal(fraction)),
        ("height", Told::Count(height)),
        ("kind", Told::Word("slashed")),
        ("validator", Told::Operator(form, validator)),
    ];
    push_line(alloc, out, &members)
}

fn paid<'a>(
    form: Form,
    alloc: Global,
    out: &mut Vec<u8>,
    height: u64,
    delegator: &'a Addr,
    validator: &'a Addr,
    to: &'a Addr,
    reward: &'a DecCoins,
    coins: &'a Coins,
) -> Result<(), LineFault>
    ensures ok { OnOk result (out.new.items ≡ out.old.items
        ++ line_of (fact_data form height
        (Fact.Paid delegator.now validator.now to.now reward.now coins.now))) }
    ensures fault { IfErr result (λ fault. fault ≡ LineFault.NoMemory) }
{
    let pieces = [
        ("{\"coins\":", Told::Coins(coins)),
        (",\"delegator\":", Told::User(form, delegator)),
        (",\"height\":", Told::Count(height)),
        (",\"kind\":\"paid\",\"reward\":", Told::DecCoins(reward)),
        (",\"to\":", Told::User(form, to)),
        (",\"validator\":", Told::Operator(form, validator)),
    ];
    push_pieces(alloc, out, &pieces, "}")
}

fn commission_paid<'a>(
    form: Form,
    alloc: Global,
    out: &mut Vec<u8>,
    height: u64,
    validator: &'a Addr,
    to: &'a Addr,
    coins: &'a Coins,
) -> Result<(), LineFault>
    ensures ok { OnOk result (out.new.items ≡ out.old.items
        ++ line_of (fact_data form height (Fact.Commission validator.now to.now coins.now))) }
    ensures fault { IfErr result (λ fault. fault ≡ LineFault.NoMemory) }
{
    let pieces = [
        ("{\"coins\":", Told::Coins(coins)),
        (",\"height\":", Told::Count(height)),
        (",\"kind\":\"commission\",\"to\":", Told::User(form, to)),
        (",\"validator\":", Told::Operator(form, validator)),
    ];
    push_pieces(alloc, out, &pieces, "}")
}

fn changed<'a>(
    form: Form,
    alloc: Global,
    out: &mut Vec<u8>,
    height: u64,
    validator: &'a Addr,
    status: BondStatus,
) -> Result<(), LineFault>
    ensures ok { OnOk result (out.new.items ≡ out.old.items
        ++ line_of (fact_data form height (Fact.Changed validator.now status))) }
    ensures fault { IfErr result (λ fault. fault ≡ LineFault.NoMemory) }
{
    let members = [
        ("height", Told::Count(height)),
        ("kind", Told::Word("status")),
        ("status", Told::Status(status)),
        ("validator", Told::Operator(form, validator)),
    ];
    push_line(alloc, out, &members)
}

/// A fact of a validator, of which its kind tells the rest.
fn of_validator<'a>(
    form: Form,
    alloc: Global,
    out: &mut Vec<u8>,
    height: u64,
    kind: &'a str,
    validator: &'a Addr,
) -> Result<(), LineFault>
    ensures ok { OnOk result (out.new.items ≡ out.old.items
        ++ line_of (told_at height kind.now (about form validator.now []))) }
    ensures fault { IfErr result (λ fault. fault ≡ LineFault.NoMemory) }
{
    let members = [
        ("height", Told::Count(height)),
        ("kind", Told::Word(kind)),
        ("validator", Told::Operator(form, validator)),
    ];
    push_line(alloc, out, &members)
}

fn params_changed<'a>(
    form: Form,
    alloc: Global,
    out: &mut Vec<u8>,
    height: u64,
    authority: &'a Addr,
) -> Result<(), LineFault>
    ensures ok { OnOk result (out.new.items ≡ out.old.items
        ++ line_of (fact_data form height (Fact.ParamsChanged authority.now))) }
    ensures fault { IfErr result (λ fault. fault ≡ LineFault.NoMemory) }
{
    let members = [
        ("authority", Told::User(form, authority)),
        ("height", Told::Count(height)),
        ("kind", Told::Word("params")),
    ];
    push_line(alloc, out, &members)
}

/// Appends the line of a fact of a block of this height, with its addresses in this form. The only error is `NoMemory`.
pub fn push_fact(
    form: Form,
    alloc: Global,
    out: &mut Vec<u8>,
    height: u64,
    fact: &Fact,
) -> Result<(), LineFault>
    ensures ok { OnOk result
        (out.new.items ≡ out.old.items ++ line_of (fact_data form height fact.now)) }
    ensures fault { IfErr result (λ fault. fault ≡ LineFault.NoMemory) }
{
    match fact {
        Fact::Transfer { from, to, coins } => transfer(form, alloc, out, height, from, to, coins),
        Fact::Burn { from, coin } => burn(alloc, out, height, *from, coin),
        Fact::Allocated { validator, share } => allocated(
            form, alloc, out, height, validator, share,
        ),
        Fact::Pooled { coins } => pooled(alloc, out, height, coins),
        Fact::Period {
            validator,
            period,
            ratio,
        } => period_ended(form, alloc, out, height, validator, *period, ratio),
        Fact::Started {
            delegator,
            validator,
            period,
            stake,
        } => started(
            form, alloc, out, height, delegator, validator, *period, *stake,
        ),
        Fact::Slashed {
            validator,
            fraction,
            burned,
        } => slashed(form, alloc, out, height, validator, *fraction, *burned),
        Fact::Paid {
            delegator,
            validator,
            to,
            reward,
            coins,
        } => paid(
            form, alloc, out, height, delegator, validator, to, reward, coins,
        ),
        Fact::Commission {
            validator,
            to,
            coins,
        } => commission_paid(form, alloc, out, height, validator, to, coins),
        Fact::Changed { validator, status } => changed(
            form, alloc, out, height, validator, *status,
        ),
        Fact::Jailed { validator } => of_validator(form, alloc, out, height, "jailed", validator),
        Fact::Unjailed { validator } => of_validator(
            form, alloc, out, height, "unjailed", validator,
        ),
        Fact::Tombstoned { validator } => of_validator(
            form,
            alloc,
            out,
            height,
            "tombstoned",
            validator,
        ),
        Fact::Removed { validator } => of_validator(form, alloc, out, height, "removed", validator),
        Fact::ParamsChanged { authority } => params_changed(form, alloc, out, height, authority),
    }
}
