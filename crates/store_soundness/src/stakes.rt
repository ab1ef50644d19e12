//! What the two staking accounts hold.

ghost use Rattle.std.specs.Prelude.{◌≡◌};
ghost use Rattle.std.specs.List.{list_all};
ghost use Rattle.base_roles.specs.Staked.{is_bonded};
ghost use Rattle.store_soundness.specs.Accounts.{bonded_of, holds_bonded, holds_just, holds_not_bonded, holds_stake, is_elsewhere_or, others_of, with_unbondings};
ghost use Rattle.store_records.specs.Plain.{seen};
ghost use Rattle.store_soundness.specs.Tally.{summed};

use crate::places::{balance_of, is_account};
use crate::ranges::ONE;
use crate::tally::{is_same, up_to_most};
use base_roles::{Listed, UnbondingEntry, Validator};
use base_types::{Account, Addr, BondStatus, Denom, Module};
use std::collections::BTreeMap;
use store_records::PlainRecords;

/// Whether a status is bonded.
fn is_bonded(status: BondStatus) -> bool
    ensures { result ≡ is_bonded status }
{
    match status {
        BondStatus::Bonded => true,
        BondStatus::Unbonding | BondStatus::Unbonded => false,
    }
}

/// The tokens of a validator, where it is bonded.
fn bonded_of(validator: &Validator) -> u128
    ensures { result ≡ bonded_of validator.now }
{
    if is_bonded(validator.status) {
        validator.tokens
    } else {
        0
    }
}

/// The tokens of a validator, where it is not bonded.
fn others_of(validator: &Validator) -> u128
    ensures { result ≡ others_of validator.now }
{
    if is_bonded(validator.status) {
        0
    } else {
        validator.tokens
    }
}

/// The tokens of the bonded validators.
fn bonded_tokens(validators: &BTreeMap<Addr, Validator>) -> u128
    ensures { result ≡ summed (λ e. bonded_of e.1) validators.now.entries 0 }
{
    let mut total = 0;
    for (_, validator) in validators {
        total = up_to_most(total, bonded_of(validator));
    }
    total
}

/// The tokens of all other validators.
fn other_tokens(validators: &BTreeMap<Addr, Validator>) -> u128
    ensures { result ≡ summed (λ e. others_of e.1) validators.now.entries 0 }
{
    let mut total = 0;
    for (_, validator) in validators {
        total = up_to_most(total, others_of(validator));
    }
    total
}

/// A total with the balances of entries.
fn with_entries(total: u128, entries: &[UnbondingEntry]) -> u128
    ensures { result ≡ summed (λ e. e.balance) entries.now total }
{
    let mut sum = total;
    for entry in entries {
        sum = up_to_most(sum, entry.balance);
    }
    sum
}

/// A total with the balances of all entries.
fn with_unbondings(total: u128, unbondings: &BTreeMap<(Addr, Addr), Listed<UnbondingEntry>>) -> u128
    ensures { result ≡ with_unbondings unbondings.now.entries total }
{
    let mut sum = total;
    for (_, entries) in unbondings {
        sum = with_entries(sum, entries.as_slice());
    }
    sum
}

/// Whether a balance is of another account, or of this denomination.
fn is_elsewhere_or(who: &Account, denom: &Denom, place: &(Account, Denom)) -> bool
    ensures { result ≡ is_elsewhere_or who.now denom.now place.now }
{
    !is_account(who, &place.0) || is_same(denom, &place.1)
}

/// Whether an account holds nothing of another denomination.
fn holds_one(balances: &BTreeMap<(Account, Denom), u128>, who: &Account, denom: &Denom) -> bool
    ensures { result
        ≡ list_all (λ e. is_elsewhere_or who.now denom.now e.0) balances.now.entries }
{
    balances
        .iter()
        .all(|(place, _)| is_elsewhere_or(who, denom, place))
}

/// Whether an account holds so much of a denomination, at most 10^18, and nothing else.
fn holds_just(
    balances: &BTreeMap<(Account, Denom), u128>,
    who: Account,
    denom: Denom,
    amount: u128,
) -> bool
    ensures { result ≡ holds_just balances.now.entries who denom amount }
{
    amount <= ONE
        && balance_of(balances, &(who, denom)) == amount
        && holds_one(balances, &who, &denom)
}

/// Whether the bonded account holds the tokens of bonded validators.
fn holds_bonded(records: &PlainRecords) -> bool
    ensures { result ≡ holds_bonded (seen records.now) }
{
    holds_just(
        &records.lists.balances,
        Account::Module(Module::Bonded),
        records.ctx.params.bond_denom,
        bonded_tokens(&records.lists.validators),
    )
}

/// Whether the not-bonded account holds the tokens of all other validators and the balances of all entries.
fn holds_not_bonded(records: &PlainRecords) -> bool
    ensures { result ≡ holds_not_bonded (seen records.now) }
{
    let tokens = other_tokens(&records.lists.validators);
    holds_just(
        &records.lists.balances,
        Account::Module(Module::NotBonded),
        records.ctx.params.bond_denom,
        with_unbondings(tokens, &records.lists.unbondings),
    )
}

/// Whether the staking accounts hold what they owe.
pub(crate) fn holds_stake(records: &PlainRecords) -> bool
    ensures { result ≡ holds_stake (seen records.now) }
{
    holds_bonded(records) && holds_not_bonded(records)
}
