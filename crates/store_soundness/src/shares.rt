//! Shares as sums of delegations.

ghost use Rattle.std.specs.Prelude.{◌≡◌, [], IfOk, map};
ghost use Rattle.base_types.specs.Orders.{addr_cmp};
ghost use Rattle.base_roles.specs.Entries.{number_at};
ghost use Rattle.store_soundness.specs.Shares.{are_cons_distinct, are_delegations_sound, are_shares_delegated, have_shares, is_delegation_sound, is_total, share_totals, shares_of};

use crate::tally::{MOST, add_to, number_of};
use base_decimals::Dec;
use base_lists::has_repeat;
use base_roles::Validator;
use base_types::{Addr, ConsAddr};
use std::alloc::{AllocError, Global};
use std::collections::BTreeMap;

/// The shares of each operator's delegations.
fn totals_of(
    alloc: Global,
    delegations: &BTreeMap<(Addr, Addr), Dec>,
) -> Result<BTreeMap<Addr, u128>, AllocError>
    ensures { IfOk result (λ totals. totals.entries ≡ share_totals delegations.now.entries []) }
{
    let mut totals = BTreeMap::new(alloc);
    for (who, shares) in delegations {
        add_to(&mut totals, who.0, shares.raw())?;
    }
    Ok(totals)
}

/// Whether shares are a total.
fn is_total(total: u128, shares: Dec) -> bool
    ensures { result ≡ is_total total shares }
{
    shares.raw() < MOST && total == shares.raw()
}

/// Whether each validator has the total of its operator as its shares.
fn have_totals(validators: &BTreeMap<Addr, Validator>, totals: &BTreeMap<Addr, u128>) -> bool
    ensures { result
        ≡ have_shares (number_at addr_cmp totals.now.entries) validators.now.entries }
{
    validators.iter().all(|(operator, validator)| is_total(
        number_of(totals, operator),
        validator.shares,
    ))
}

/// Whether the shares of each validator are the sum of its delegations'.
fn have_shares(
    alloc: Global,
    validators: &BTreeMap<Addr, Validator>,
    delegations: &BTreeMap<(Addr, Addr), Dec>,
) -> Result<bool, AllocError>
    ensures { IfOk result (λ have. have
        ≡ have_shares (shares_of delegations.now.entries) validators.now.entries) }
{
    let totals = totals_of(alloc, delegations)?;
    Ok(have_totals(validators, &totals))
}

/// Whether a delegation has shares, at a validator that stands.
fn is_delegation_sound(validators: &BTreeMap<Addr, Validator>, operator: &Addr, shares: Dec) -> bool
    ensures { result ≡ is_delegation_sound validators.now.entries operator.now shares }
{
    0 < shares.raw() && validators.contains_key(operator)
}

/// Whether all delegations are so.
fn are_delegations_sound(
    validators: &BTreeMap<Addr, Validator>,
    delegations: &BTreeMap<(Addr, Addr), Dec>,
) -> bool
    ensures { result ≡ are_delegations_sound validators.now.entries delegations.now.entries }
{
    delegations.iter().all(|(who, shares)| is_delegation_sound(validators, &who.0, *shares))
}

/// Whether the shares of each validator are the sum of its delegations', and all delegations are sound.
pub(crate) fn are_shares_delegated(
    alloc: Global,
    validators: &BTreeMap<Addr, Validator>,
    delegations: &BTreeMap<(Addr, Addr), Dec>,
) -> Result<bool, AllocError>
    ensures { IfOk result (λ delegated. delegated
        ≡ are_shares_delegated validators.now.entries delegations.now.entries) }
{
    Ok(
        have_shares(alloc, validators, delegations)?
            && are_delegations_sound(validators, delegations),
    )
}

/// The consensus addresses of validators.
fn cons_of(
    alloc: Global,
    validators: &BTreeMap<Addr, Validator>,
) -> Result<Vec<ConsAddr>, AllocError>
    ensures { IfOk result (λ cons. cons.items ≡ map (λ e. e.1.cons) validators.now.entries) }
{
    validators
        .iter()
        .map(|(_, validator)| validator.cons)
        .collect(alloc)
}

/// Whether no consensus address stands twice.
pub(crate) fn are_cons_distinct(
    alloc: Global,
    validators: &BTreeMap<Addr, Validator>,
) -> Result<bool, AllocError>
    ensures { IfOk result (λ distinct. distinct ≡ are_cons_distinct validators.now.entries) }
{
    let cons = cons_of(alloc, validators)?;
    Ok(!has_repeat(alloc, cons.as_slice())?)
}
