//! What items and pending rewards tell of what is asked for, under the key of its group.
ghost use Rattle.std.specs.Prelude.{◌≡◌, option_map};
ghost use Rattle.line_report.specs.Telling.{balance_in, delegation_in, pending_in, pool_in, purse_in, redelegation_in, signing_in, supply_in, unbonding_in, validator_in};

use crate::asked::{Asked, is_asked};
use base_coins::DecCoins;
use base_decimals::Dec;
use base_messages::Pending;
use base_roles::{Item, Purse, RedelegationEntry, SigningInfo, UnbondingEntry, Validator};
use base_types::{Account, Addr, ConsAddr, Denom};

/// The supply of a denomination.
pub(crate) fn supply_in(item: &Item) -> Option<(Denom, u128)>
    ensures { result ≡ supply_in item.now }
{
    match item {
        Item::Supply { denom, amount } => Some((*denom, *amount)),
        _ => None,
    }
}

/// What an account holds of a denomination.
pub(crate) fn balance_in(asked: Asked, item: &Item) -> Option<((Account, Denom), u128)>
    ensures { result ≡ balance_in asked item.now }
{
    match item {
        Item::Balance {
            account,
            denom,
            amount,
        } => {
            if is_asked(asked, account.bytes()) {
                Some(((*account, *denom), *amount))
            } else {
                None
            }
        }
        _ => None,
    }
}

/// A validator, under its operator.
pub(crate) fn validator_in(asked: Asked, item: &Item) -> Option<(Addr, &Validator)>
    ensures { option_map (λ e. (e.0, e.1.now)) result ≡ validator_in asked item.now }
{
    match item {
        Item::Validator { validator } => {
            if is_asked(asked, validator.operator.bytes()) {
                Some((validator.operator, validator))
            } else {
                None
            }
        }
        _ => None,
    }
}

/// The purse of an operator.
pub(crate) fn purse_in(asked: Asked, item: &Item) -> Option<(Addr, &Purse)>
    ensures { option_map (λ e. (e.0, e.1.now)) result ≡ purse_in asked item.now }
{
    match item {
        Item::Purse { operator, purse } => {
            if is_asked(asked, operator.bytes()) {
                Some((*operator, purse))
            } else {
                None
            }
        }
        _ => None,
    }
}

/// The shares of a delegator at an operator.
pub(crate) fn delegation_in(asked: Asked, item: &Item) -> Option<((Addr, Addr), Dec)>
    ensures { result ≡ delegation_in asked item.now }
{
    match item {
        Item::Delegation {
            operator,
            delegator,
            shares,
        } => {
            if is_asked(asked, delegator.bytes()) {
                Some(((*delegator, *operator), *shares))
            } else {
                None
            }
        }
        _ => None,
    }
}

/// The pending reward of a delegator at an operator.
pub(crate) fn pending_in(asked: Asked, pending: &Pending) -> Option<((Addr, Addr), &Pending)>
    ensures { option_map (λ e. (e.0, e.1.now)) result ≡ pending_in asked pending.now }
{
    if is_asked(asked, pending.delegator.bytes()) {
        Some(((pending.delegator, pending.operator), pending))
    } else {
        None
    }
}

/// The unbonding entries of a delegator and an operator.
pub(crate) fn unbonding_in(asked: Asked, item: &Item) -> Option<((Addr, Addr), &[UnbondingEntry])>
    ensures { option_map (λ e. (e.0, e.1.now)) result ≡ unbonding_in asked item.now }
{
    match item {
        Item::Unbonding {
            delegator,
            operator,
            entries,
        } => {
            if is_asked(asked, delegator.bytes()) {
                Some(((*delegator, *operator), entries.as_slice()))
            } else {
                None
            }
        }
        _ => None,
    }
}

/// The redelegation entries of a delegator, a source and a target.
pub(crate) fn redelegation_in(
    asked: Asked,
    item: &Item,
) -> Option<((Addr, Addr, Addr), &[RedelegationEntry])>
    ensures { option_map (λ e. (e.0, e.1.now)) result ≡ redelegation_in asked item.now }
{
    match item {
        Item::Redelegation {
            delegator,
            source,
            target,
            entries,
        } => {
            if is_asked(asked, delegator.bytes()) {
                Some(((*delegator, *source, *target), entries.as_slice()))
            } else {
                None
            }
        }
        _ => None,
    }
}

/// The signing record of a consensus address.
pub(crate) fn signing_in(asked: Asked, item: &Item) -> Option<(ConsAddr, SigningInfo)>
    ensures { result ≡ signing_in asked item.now }
{
    match item {
        Item::Signing { cons, info, .. } => {
            if is_asked(asked, cons.bytes()) {
                Some((*cons, *info))
            } else {
                None
            }
        }
        _ => None,
    }
}

/// The coins of the community pool.
pub(crate) fn pool_in(item: &Item) -> Option<&DecCoins>
    ensures { option_map (λ coins. coins.now) result ≡ pool_in item.now }
{
    match item {
        Item::Pool { coins } => Some(coins),
        _ => None,
    }
}
