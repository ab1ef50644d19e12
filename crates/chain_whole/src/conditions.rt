//! Why a genesis starts nothing: its conditions, in their order.

ghost use Rattle.std.specs.Prelude.{◌≡◌, ◌∷◌, ◌||◌, [], not, nat_le, nat_lt, map, IfOk, IfErr};
ghost use Rattle.base_roles.specs.Ground.{end_of_blocks};
ghost use Rattle.rule_machine.specs.Genesis.{are_in_range, first_that_holds, supplies_with, has_too_much, denominations_with};
ghost use Rattle.rule_machine.specs.GenesisConditions.{start_condition, accounts_at_start, has_operator_twice, has_cons_twice, has_wrong_rate, has_no_minimum, has_unknown_operator, has_pair_twice, has_empty_delegation, has_lonely_validator, creation_of};
ghost use Rattle.rule_modules.specs.Validators.{are_out_of_range};

use crate::accounts::has_wrong_account;
use crate::fault::ChainFault;
use crate::supplies::{has_too_many, supplies_at_start};
use base_lists::{are_among, has_repeat};
use base_messages::{Genesis, GenesisDelegation, GenesisValidator};
use base_roles::Params;
use base_types::{Addr, ConsAddr};
use chain_blocks::is_past_blocks;
use std::alloc::{AllocError, Global};

/// One, in units of 10^-18.
const ONE: u128 = 1_000_000_000_000_000_000;

/// The number of the first condition that keeps a genesis from starting a chain, or None where none does.
pub(crate) fn condition(alloc: Global, genesis: &Genesis) -> Result<Option<u8>, ChainFault>
    ensures number { IfOk result (λ number. number ≡ start_condition genesis.now) }
    ensures fault { IfErr result (λ fault. fault ≡ ChainFault.NoMemory) }
{
    if is_out_of_range(genesis) {
        return Ok(Some(1));
    }
    if has_wrong_account(alloc, genesis.accounts.as_slice())? {
        return Ok(Some(2));
    }
    match validator_condition(alloc, genesis)? {
        None => stake_condition(alloc, genesis),
        Some(number) => Ok(Some(number)),
    }
}

/// Whether a parameter or the time is out of its range.
fn is_out_of_range(genesis: &Genesis) -> bool
    ensures { result
        ≡ (not (are_in_range genesis.now.params) || nat_le end_of_blocks genesis.now.time) }
{
    !genesis.params.are_in_range() || is_past_blocks(genesis.time)
}

/// The first condition of the validators alone: an operator or a consensus address twice, wrong rates, no
/// least self-delegation.
fn validator_condition(alloc: Global, genesis: &Genesis) -> Result<Option<u8>, ChainFault>
    ensures number { IfOk result (λ number. number ≡ first_that_holds
        ((3, has_operator_twice genesis.now.validators) ∷ (4, has_cons_twice genesis.now.validators)
        ∷ (5, has_wrong_rate genesis.now.params genesis.now.validators)
        ∷ (6, has_no_minimum genesis.now.validators) ∷ [])) }
    ensures fault { IfErr result (λ fault. fault ≡ ChainFault.NoMemory) }
{
    let validators = genesis.validators.as_slice();
    if has_operator_twice(alloc, validators)? {
        return Ok(Some(3));
    }
    if has_cons_twice(alloc, validators)? {
        return Ok(Some(4));
    }
    if has_wrong_rate(&genesis.params, validators) {
        return Ok(Some(5));
    }
    if has_no_minimum(validators) {
        return Ok(Some(6));
    }
    Ok(None)
}

/// The first condition of the delegations and of the amounts.
fn stake_condition(alloc: Global, genesis: &Genesis) -> Result<Option<u8>, ChainFault>
    ensures number { IfOk result (λ number. number ≡ first_that_holds
        ((7, has_unknown_operator genesis.now.validators genesis.now.delegations)
        ∷ (8, has_pair_twice genesis.now.delegations)
        ∷ (9, has_empty_delegation genesis.now.delegations)
        ∷ (10, has_lonely_validator genesis.now.validators genesis.now.delegations)
        ∷ (11, has_too_much (supplies_with (accounts_at_start genesis.now) []))
        ∷ (
          12,
          nat_lt 1_000_000 (denominations_with genesis.now.params.bond_denom
              (supplies_with (accounts_at_start genesis.now) [])),
        ) ∷ [])) }
    ensures fault { IfErr result (λ fault. fault ≡ ChainFault.NoMemory) }
{
    match delegation_condition(alloc, genesis)? {
        None => amount_condition(alloc, genesis),
        Some(number) => Ok(Some(number)),
    }
}

/// The first condition of the delegations: an unknown operator, a pair twice, a delegation of nothing, a
/// validator without one.
fn delegation_condition(alloc: Global, genesis: &Genesis) -> Result<Option<u8>, ChainFault>
    ensures number { IfOk result (λ number. number ≡ first_that_holds
        ((7, has_unknown_operator genesis.now.validators genesis.now.delegations)
        ∷ (8, has_pair_twice genesis.now.delegations)
        ∷ (9, has_empty_delegation genesis.now.delegations)
        ∷ (10, has_lonely_validator genesis.now.validators genesis.now.delegations) ∷ [])) }
    ensures fault { IfErr result (λ fault. fault ≡ ChainFault.NoMemory) }
{
    let validators = genesis.validators.as_slice();
    let delegations = genesis.delegations.as_slice();
    if has_unknown_operator(alloc, validators, delegations)? {
        return Ok(Some(7));
    }
    if has_pair_twice(alloc, delegations)? {
        return Ok(Some(8));
    }
    if has_empty_delegation(delegations) {
        return Ok(Some(9));
    }
    if has_lonely_validator(alloc, validators, delegations)? {
        return Ok(Some(10));
    }
    Ok(None)
}

/// The first condition of the amounts, with what is delegated: too much of a denomination, too many of them.
fn amount_condition(alloc: Global, genesis: &Genesis) -> Result<Option<u8>, ChainFault>
    ensures number { IfOk result (λ number. number ≡ first_that_holds
        ((11, has_too_much (supplies_with (accounts_at_start genesis.now) []))
        ∷ (
          12,
          nat_lt 1_000_000 (denominations_with genesis.now.params.bond_denom
              (supplies_with (accounts_at_start genesis.now) [])),
        ) ∷ [])) }
    ensures fault { IfErr result (λ fault. fault ≡ ChainFault.NoMemory) }
{
    match supplies_at_start(alloc, genesis)? {
        None => Ok(Some(11)),
        Some(supplies) => {
            if has_too_many(&supplies, &genesis.params.bond_denom) {
                Ok(Some(12))
            } else {
                Ok(None)
            }
        }
    }
}

// ---- the tests

fn has_operator_twice(alloc: Global, validators: &[GenesisValidator]) -> Result<bool, AllocError>
    ensures { IfOk result (λ twice. twice ≡ has_operator_twice validators.now) }
{
    has_repeat(alloc, &operators_of(alloc, validators)?)
}

fn has_cons_twice(alloc: Global, validators: &[GenesisValidator]) -> Result<bool, AllocError>
    ensures { IfOk result (λ twice. twice ≡ has_cons_twice validators.now) }
{
    has_repeat(alloc, &cons_of(alloc, validators)?)
}

fn has_wrong_rate(params: &Params, validators: &[GenesisValidator]) -> bool
    ensures { result ≡ has_wrong_rate params.now validators.now }
{
    validators.iter().any(|v| is_wrong_rate(params, v))
}

/// Whether the rates of a validator are none, or its rate is below the chain's minimum
/// (`CommissionRates.Validate`).
fn is_wrong_rate(params: &Params, v: &GenesisValidator) -> bool
    ensures { result ≡ (are_out_of_range (creation_of params.now.bond_denom v.now)
        || nat_lt v.now.rate params.now.min_commission_rate) }
{
    v.max_rate.raw() > ONE
        || v.max_rate.raw() < v.rate.raw()
        || v.max_rate.raw() < v.max_change_rate.raw()
        || v.rate.raw() < params.min_commission_rate.raw()
}

fn has_no_minimum(validators: &[GenesisValidator]) -> bool
    ensures { result ≡ has_no_minimum validators.now }
{
    validators.iter().any(|v| v.min_self_delegation == 0)
}

fn has_unknown_operator(
    alloc: Global,
    validators: &[GenesisValidator],
    delegations: &[GenesisDelegation],
) -> Result<bool, AllocError>
    ensures { IfOk result
        (λ unknown. unknown ≡ has_unknown_operator validators.now delegations.now) }
{
    let delegated = delegated_of(alloc, delegations)?;
    let operators = operators_of(alloc, validators)?;
    Ok(!are_among(alloc, &delegated, &operators)?)
}

fn has_pair_twice(alloc: Global, delegations: &[GenesisDelegation]) -> Result<bool, AllocError>
    ensures { IfOk result (λ twice. twice ≡ has_pair_twice delegations.now) }
{
    has_repeat(alloc, &pairs_of(alloc, delegations)?)
}

fn has_empty_delegation(delegations: &[GenesisDelegation]) -> bool
    ensures { result ≡ has_empty_delegation delegations.now }
{
    delegations.iter().any(|d| d.amount == 0)
}

fn has_lonely_validator(
    alloc: Global,
    validators: &[GenesisValidator],
    delegations: &[GenesisDelegation],
) -> Result<bool, AllocError>
    ensures { IfOk result (λ lonely. lonely ≡ has_lonely_validator validators.now delegations.now) }
{
    let operators = operators_of(alloc, validators)?;
    let delegated = delegated_of(alloc, delegations)?;
    Ok(!are_among(alloc, &operators, &delegated)?)
}

// ---- the keys

/// The operators of validators, in their order.
fn operators_of(alloc: Global, validators: &[GenesisValidator]) -> Result<Vec<Addr>, AllocError>
    ensures { IfOk result (λ keys. keys.items ≡ map (λ v. v.operator) validators.now) }
{
    validators.iter().map(|v| v.operator).collect(alloc)
}

/// Their consensus addresses.
fn cons_of(alloc: Global, validators: &[GenesisValidator]) -> Result<Vec<ConsAddr>, AllocError>
    ensures { IfOk result (λ keys. keys.items ≡ map (λ v. v.cons) validators.now) }
{
    validators.iter().map(|v| v.cons).collect(alloc)
}

/// The operators that are delegated to, one for each delegation.
fn delegated_of(alloc: Global, delegations: &[GenesisDelegation]) -> Result<Vec<Addr>, AllocError>
    ensures { IfOk result (λ keys. keys.items ≡ map (λ d. d.validator) delegations.now) }
{
    delegations.iter().map(|d| d.validator).collect(alloc)
}

/// The pairs of operator and delegator.
fn pairs_of(
    alloc: Global,
    delegations: &[GenesisDelegation],
) -> Result<Vec<(Addr, Addr)>, AllocError>
    ensures { IfOk result
        (λ keys. keys.items ≡ map (λ d. (d.validator, d.delegator)) delegations.now) }
{
    delegations
        .iter()
        .map(|d| (d.validator, d.delegator))
        .collect(alloc)
}
