//! One line of the report. Its members stand in ascending order of their names.
ghost use Rattle.std.specs.Prelude.{◌≡◌, ◌++◌, [], IfErr, OnOk};
ghost use Rattle.line_json.specs.Line.{line_of};
ghost use Rattle.line_json.specs.Told.{coins_seen};
ghost use Rattle.line_report.specs.Lines.{account_line, delegation_line, pending_line, pool_line, redelegation_line, signing_line, supply_line, unbonding_line, validator_line};

use base_bech32::Form;
use base_coins::DecCoins;
use base_decimals::Dec;
use base_messages::{LineFault, Pending};
use base_roles::{RedelegationEntry, SigningInfo, UnbondingEntry, Validator};
use base_types::{Account, Addr, ConsAddr, Denom};
use line_json::{Told, push_line};
use std::alloc::Global;
use std::collections::BTreeMap;

fn push_supply_of<'a>(
    alloc: Global,
    out: &mut Vec<u8>,
    coins: &'a [(&'a Denom, u128)],
) -> Result<(), LineFault>
    ensures ok { OnOk result (out.new.items
        ≡ out.old.items ++ line_of (supply_line (coins_seen coins.now))) }
    ensures fault { IfErr result (λ fault. fault ≡ LineFault.NoMemory) }
{
    let members = [("coins", Told::Lent(coins)), ("kind", Told::Word("supply"))];
    push_line(alloc, out, &members)
}

/// Appends the line of the supply.
pub(crate) fn push_supply(
    alloc: Global,
    out: &mut Vec<u8>,
    supplies: &BTreeMap<Denom, u128>,
) -> Result<(), LineFault>
    ensures ok { OnOk result (out.new.items
        ≡ out.old.items ++ line_of (supply_line supplies.now.entries)) }
    ensures fault { IfErr result (λ fault. fault ≡ LineFault.NoMemory) }
{
    let mut coins = Vec::new(alloc);
    for (denom, amount) in supplies {
        coins.push((denom, *amount))?;
    }
    push_supply_of(alloc, out, &coins)
}

/// Appends the line of an account.
pub(crate) fn push_account<'a>(
    form: Form,
    alloc: Global,
    out: &mut Vec<u8>,
    account: &'a Account,
    coins: &'a [(&'a Denom, u128)],
) -> Result<(), LineFault>
    ensures ok { OnOk result (out.new.items
        ≡ out.old.items ++ line_of (account_line form (account.now, coins_seen coins.now))) }
    ensures fault { IfErr result (λ fault. fault ≡ LineFault.NoMemory) }
{
    let members = [
        ("address", Told::Account(form, account)),
        ("coins", Told::Lent(coins)),
        ("kind", Told::Word("account")),
    ];
    push_line(alloc, out, &members)
}

/// Appends the line of a validator.
pub(crate) fn push_validator<'a>(
    form: Form,
    alloc: Global,
    out: &mut Vec<u8>,
    validator: &'a Validator,
    commission: &'a DecCoins,
    outstanding: &'a DecCoins,
) -> Result<(), LineFault>
    ensures ok { OnOk result (out.new.items ≡ out.old.items ++ line_of (validator_line form (
      validator.now,
      record { outstanding = outstanding.now; commission = commission.now; current = [] },
    ))) }
    ensures fault { IfErr result (λ fault. fault ≡ LineFault.NoMemory) }
{
    let members = [
        ("commission", Told::DecCoins(commission)),
        ("cons", Told::Cons(form, &validator.cons)),
        ("jailed", Told::Flag(validator.jailed)),
        ("kind", Told::Word("validator")),
        ("operator", Told::Operator(form, &validator.operator)),
        ("outstanding", Told::DecCoins(outstanding)),
        ("rate", Told::Decimal(validator.commission.rate)),
        ("shares", Told::Decimal(validator.shares)),
        ("status", Told::Status(validator.status)),
        ("tokens", Told::Amount(validator.tokens)),
    ];
    push_line(alloc, out, &members)
}

/// Appends the line of a delegation.
pub(crate) fn push_delegation<'a>(
    form: Form,
    alloc: Global,
    out: &mut Vec<u8>,
    delegator: &'a Addr,
    operator: &'a Addr,
    shares: Dec,
) -> Result<(), LineFault>
    ensures ok { OnOk result (out.new.items
        ≡ out.old.items ++ line_of (delegation_line form ((delegator.now, operator.now), shares))) }
    ensures fault { IfErr result (λ fault. fault ≡ LineFault.NoMemory) }
{
    let members = [
        ("delegator", Told::User(form, delegator)),
        ("kind", Told::Word("delegation")),
        ("shares", Told::Decimal(shares)),
        ("validator", Told::Operator(form, operator)),
    ];
    push_line(alloc, out, &members)
}

/// Appends the line of a pending reward.
pub(crate) fn push_pending(
    form: Form,
    alloc: Global,
    out: &mut Vec<u8>,
    pending: &Pending,
) -> Result<(), LineFault>
    ensures ok { OnOk result (out.new.items ≡ out.old.items ++ line_of (pending_line form pending.now)) }
    ensures fault { IfErr result (λ fault. fault ≡ LineFault.NoMemory) }
{
    let delegator = ("delegator", Told::User(form, &pending.delegator));
    let kind = ("kind", Told::Word("pending"));
    let validator = ("validator", Told::Operator(form, &pending.operator));
    match &pending.coins {
        Some(coins) => {
            let coins = ("coins", Told::DecCoins(coins));
            push_line(alloc, out, &[coins, delegator, kind, validator])
        }
        None => {
            let limit = ("limit", Told::Flag(true));
            push_line(alloc, out, &[delegator, kind, limit, validator])
        }
    }
}

/// Appends the line of an unbonding entry.
pub(crate) fn push_unbonding<'a>(
    form: Form,
    alloc: Global,
    out: &mut Vec<u8>,
    delegator: &'a Addr,
    operator: &'a Addr,
    entry: &'a UnbondingEntry,
) -> Result<(), LineFault>
    ensures ok { OnOk result (out.new.items
        ≡ out.old.items ++ line_of (unbonding_line form (delegator.now, operator.now) entry.now)) }
    ensures fault { IfErr result (λ fault. fault ≡ LineFault.NoMemory) }
{
    let members = [
        ("balance", Told::Amount(entry.balance)),
        ("completes", Told::Moment(entry.completes)),
        ("created", Told::Count(entry.created)),
        ("delegator", Told::User(form, delegator)),
        ("initial", Told::Amount(entry.initial)),
        ("kind", Told::Word("unbonding")),
        ("validator", Told::Operator(form, operator)),
    ];
    push_line(alloc, out, &members)
}

/// Appends the line of a redelegation entry.
pub(crate) fn push_redelegation<'a>(
    form: Form,
    alloc: Global,
    out: &mut Vec<u8>,
    delegator: &'a Addr,
    source: &'a Addr,
    target: &'a Addr,
    entry: &'a RedelegationEntry,
) -> Result<(), LineFault>
    ensures ok { OnOk result (out.new.items ≡ out.old.items
        ++ line_of (redelegation_line form (delegator.now, source.now, target.now) entry.now)) }
    ensures fault { IfErr result (λ fault. fault ≡ LineFault.NoMemory) }
{
    let members = [
        ("completes", Told::Moment(entry.completes)),
        ("created", Told::Count(entry.created)),
        ("delegator", Told::User(form, delegator)),
        ("initial", Told::Amount(entry.initial)),
        ("kind", Told::Word("redelegation")),
        ("shares", Told::Decimal(entry.shares_dst)),
        ("source", Told::Operator(form, source)),
        ("target", Told::Operator(form, target)),
    ];
    push_line(alloc, out, &members)
}

/// Appends the line of a signing record.
pub(crate) fn push_signing<'a>(
    form: Form,
    alloc: Global,
    out: &mut Vec<u8>,
    cons: &'a ConsAddr,
    info: &'a SigningInfo,
) -> Result<(), LineFault>
    ensures ok { OnOk result (out.new.items
        ≡ out.old.items ++ line_of (signing_line form (cons.now, info.now))) }
    ensures fault { IfErr result (λ fault. fault ≡ LineFault.NoMemory) }
{
    let members = [
        ("cons", Told::Cons(form, cons)),
        ("counted", Told::Count(info.counted)),
        ("jailed_until", Told::Moment(info.jailed_until)),
        ("kind", Told::Word("signing")),
        ("missed", Told::Count(info.missed)),
        ("start", Told::Count(info.start)),
        ("tombstoned", Told::Flag(info.tombstoned)),
    ];
    push_line(alloc, out, &members)
}

/// Appends the line of the community pool.
pub(crate) fn push_pool(alloc: Global, out: &mut Vec<u8>, pool: &DecCoins) -> Result<(), LineFault>
    ensures ok { OnOk result (out.new.items ≡ out.old.items ++ line_of (pool_line pool.now)) }
    ensures fault { IfErr result (λ fault. fault ≡ LineFault.NoMemory) }
{
    let members = [
        ("coins", Told::DecCoins(pool)),
        ("kind", Told::Word("pool")),
    ];
    push_line(alloc, out, &members)
}
