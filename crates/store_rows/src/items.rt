//! The item of each kind, from the fields of its key behind the kind's byte and those of its value.

ghost use Rattle.store_rows.specs.Reading.{Gives, IsRead, amount_of, balance_of, current_of, delegation_of, event_of, head_of, historical_of, item_in, parameters_of, pool_of, purse_of, redelegation_of, signing_of, start_of, supply_of, unbonding_of, user_of, users_of, validator_of, withdraw_of};

use crate::coins::coins_at;
use crate::fault::RowFault;
use crate::fields::{
    account_at, cons_at, decimal_at, denom_at, ends, format_at, moment_at, u64_at, u128_at, user_at,
};
use crate::format::Format;
use crate::front::Unread;
use crate::kind::Kind;
use crate::lists::{redelegations_at, unbondings_at};
use crate::rings::ring_at;
use crate::values::{info_at, params_at, validator_at};
use base_roles::{Historical, Item, Purse, SlashEvent, StartingInfo};
use base_types::Addr;
use std::alloc::Global;

#[tactic(auto, unfolding(crate::specs::Reading::head_of))]
fn head_of(format: Format, key: &[u8], value: &[u8]) -> Result<Item, RowFault>
    ensures { IsRead (λ i. i) result (head_of format key.now value.now) }
{
    ends(&Unread { left: key })?;
    let mut value = Unread { left: value };
    format_at(format, &mut value)?;
    let height = u64_at(&mut value)?;
    let time = moment_at(&mut value)?;
    ends(&value)?;
    Ok(Item::Head { height, time })
}

#[tactic(auto, unfolding(crate::specs::Reading::parameters_of))]
fn parameters_of(key: &[u8], value: &[u8]) -> Result<Item, RowFault>
    ensures { IsRead (λ i. i) result (parameters_of key.now value.now) }
{
    ends(&Unread { left: key })?;
    let mut value = Unread { left: value };
    let params = params_at(&mut value)?;
    ends(&value)?;
    Ok(Item::Parameters { params })
}

/// An amount alone, not 0.
#[tactic(auto, unfolding(crate::specs::Reading::amount_of))]
fn amount_of(value: &[u8]) -> Result<u128, RowFault>
    ensures { IsRead (λ amount. amount) result (amount_of value.now) }
{
    let mut value = Unread { left: value };
    let amount = u128_at(&mut value)?;
    ends(&value)?;
    if amount == 0 {
        return Err(RowFault::BadRow);
    }
    Ok(amount)
}

#[tactic(auto, unfolding(crate::specs::Reading::balance_of))]
fn balance_of(key: &[u8], value: &[u8]) -> Result<Item, RowFault>
    ensures { IsRead (λ i. i) result (balance_of key.now value.now) }
{
    let mut key = Unread { left: key };
    let account = account_at(&mut key)?;
    let denom = denom_at(&mut key)?;
    ends(&key)?;
    let amount = amount_of(value)?;
    Ok(Item::Balance {
        account,
        denom,
        amount,
    })
}

#[tactic(auto, unfolding(crate::specs::Reading::supply_of))]
fn supply_of(key: &[u8], value: &[u8]) -> Result<Item, RowFault>
    ensures { IsRead (λ i. i) result (supply_of key.now value.now) }
{
    let mut key = Unread { left: key };
    let denom = denom_at(&mut key)?;
    ends(&key)?;
    let amount = amount_of(value)?;
    Ok(Item::Supply { denom, amount })
}

/// One user alone.
#[tactic(auto, unfolding(crate::specs::Reading::user_of))]
fn user_of(bytes: &[u8]) -> Result<Addr, RowFault>
    ensures { IsRead (λ user. user) result (user_of bytes.now) }
{
    let mut bytes = Unread { left: bytes };
    let user = user_at(&mut bytes)?;
    ends(&bytes)?;
    Ok(user)
}

/// Two users alone.
#[tactic(auto, unfolding(crate::specs::Reading::users_of))]
fn users_of(bytes: &[u8]) -> Result<(Addr, Addr), RowFault>
    ensures { IsRead (λ users. users) result (users_of bytes.now) }
{
    let mut bytes = Unread { left: bytes };
    let first = user_at(&mut bytes)?;
    let second = user_at(&mut bytes)?;
    ends(&bytes)?;
    Ok((first, second))
}

#[tactic(auto, unfolding(crate::specs::Reading::validator_of))]
fn validator_of(key: &[u8], value: &[u8]) -> Result<Item, RowFault>
    ensures { IsRead (λ i. i) result (validator_of key.now value.now) }
{
    let operator = user_of(key)?;
    let mut value = Unread { left: value };
    let validator = validator_at(operator, &mut value)?;
    ends(&value)?;
    Ok(Item::Validator { validator })
}

#[tactic(auto, unfolding(crate::specs::Reading::delegation_of))]
fn delegation_of(key: &[u8], value: &[u8]) -> Result<Item, RowFault>
    ensures { IsRead (λ i. i) result (delegation_of key.now value.now) }
{
    let (operator, delegator) = users_of(key)?;
    let mut value = Unread { left: value };
    let shares = decimal_at(&mut value)?;
    ends(&value)?;
    Ok(Item::Delegation {
        operator,
        delegator,
        shares,
    })
}

#[tactic(auto, unfolding(crate::specs::Reading::unbonding_of))]
fn unbonding_of(alloc: Global, key: &[u8], value: &[u8]) -> Result<Item, RowFault>
    ensures { Gives (λ i. i) result (unbonding_of key.now value.now) }
{
    let (delegator, operator) = users_of(key)?;
    let mut value = Unread { left: value };
    let entries = unbondings_at(alloc, &mut value)?;
    ends(&value)?;
    Ok(Item::Unbonding {
        delegator,
        operator,
        entries,
    })
}

#[tactic(auto, unfolding(crate::specs::Reading::redelegation_of))]
fn redelegation_of(alloc: Global, key: &[u8], value: &[u8]) -> Result<Item, RowFault>
    ensures { Gives (λ i. i) result (redelegation_of key.now value.now) }
{
    let mut key = Unread { left: key };
    let delegator = user_at(&mut key)?;
    let (source, target) = users_of(key.left)?;
    let mut value = Unread { left: value };
    let entries = redelegations_at(alloc, &mut value)?;
    ends(&value)?;
    Ok(Item::Redelegation {
        delegator,
        source,
        target,
        entries,
    })
}

#[tactic(auto, unfolding(crate::specs::Reading::signing_of))]
fn signing_of(alloc: Global, format: Format, key: &[u8], value: &[u8]) -> Result<Item, RowFault>
    ensures { Gives (λ i. i) result (signing_of format key.now value.now) }
{
    let mut key = Unread { left: key };
    let cons = cons_at(&mut key)?;
    ends(&key)?;
    let mut value = Unread { left: value };
    let info = info_at(&mut value)?;
    let ring = ring_at(alloc, format, &mut value)?;
    ends(&value)?;
    Ok(Item::Signing { cons, info, ring })
}

#[tactic(auto, unfolding(crate::specs::Reading::purse_of))]
fn purse_of(alloc: Global, key: &[u8], value: &[u8]) -> Result<Item, RowFault>
    ensures { Gives (λ i. i) result (purse_of key.now value.now) }
{
    let operator = user_of(key)?;
    let mut value = Unread { left: value };
    let outstanding = coins_at(alloc, &mut value)?;
    let commission = coins_at(alloc, &mut value)?;
    let current = coins_at(alloc, &mut value)?;
    ends(&value)?;
    Ok(Item::Purse {
        operator,
        purse: Purse {
            outstanding,
            commission,
            current,
        },
    })
}

#[tactic(auto, unfolding(crate::specs::Reading::pool_of))]
fn pool_of(alloc: Global, key: &[u8], value: &[u8]) -> Result<Item, RowFault>
    ensures { Gives (λ i. i) result (pool_of key.now value.now) }
{
    ends(&Unread { left: key })?;
    let mut value = Unread { left: value };
    let coins = coins_at(alloc, &mut value)?;
    ends(&value)?;
    Ok(Item::Pool { coins })
}

#[tactic(auto, unfolding(crate::specs::Reading::withdraw_of))]
fn withdraw_of(key: &[u8], value: &[u8]) -> Result<Item, RowFault>
    ensures { IsRead (λ i. i) result (withdraw_of key.now value.now) }
{
    let delegator = user_of(key)?;
    let to = user_of(value)?;
    Ok(Item::Withdraw { delegator, to })
}

#[tactic(auto, unfolding(crate::specs::Reading::current_of))]
fn current_of(key: &[u8], value: &[u8]) -> Result<Item, RowFault>
    ensures { IsRead (λ i. i) result (current_of key.now value.now) }
{
    let operator = user_of(key)?;
    let mut value = Unread { left: value };
    let period = u64_at(&mut value)?;
    ends(&value)?;
    Ok(Item::CurrentPeriod { operator, period })
}

#[tactic(auto, unfolding(crate::specs::Reading::historical_of))]
fn historical_of(alloc: Global, key: &[u8], value: &[u8]) -> Result<Item, RowFault>
    ensures { Gives (λ i. i) result (historical_of key.now value.now) }
{
    let mut key = Unread { left: key };
    let operator = user_at(&mut key)?;
    let period = u64_at(&mut key)?;
    ends(&key)?;
    let mut value = Unread { left: value };
    let ratio = coins_at(alloc, &mut value)?;
    let count = u128_at(&mut value)?;
    ends(&value)?;
    Ok(Item::Historical {
        operator,
        period,
        history: Historical { ratio, count },
    })
}

#[tactic(auto, unfolding(crate::specs::Reading::start_of))]
fn start_of(key: &[u8], value: &[u8]) -> Result<Item, RowFault>
    ensures { IsRead (λ i. i) result (start_of key.now value.now) }
{
    let (operator, delegator) = users_of(key)?;
    let mut value = Unread { left: value };
    let period = u64_at(&mut value)?;
    let stake = decimal_at(&mut value)?;
    let height = u64_at(&mut value)?;
    ends(&value)?;
    Ok(Item::Start {
        operator,
        delegator,
        info: StartingInfo {
            period,
            stake,
            height,
        },
    })
}

#[tactic(auto, unfolding(crate::specs::Reading::event_of))]
fn event_of(key: &[u8], value: &[u8]) -> Result<Item, RowFault>
    ensures { IsRead (λ i. i) result (event_of key.now value.now) }
{
    let mut key = Unread { left: key };
    let operator = user_at(&mut key)?;
    let height = u64_at(&mut key)?;
    let period = u64_at(&mut key)?;
    ends(&key)?;
    let mut value = Unread { left: value };
    let fraction = decimal_at(&mut value)?;
    ends(&value)?;
    Ok(Item::Event {
        operator,
        event: SlashEvent {
            height,
            period,
            fraction,
        },
    })
}

/// The item of this kind.
#[tactic(auto, using(crate::proofs::ReadsLemmas::read_gives))]
pub(crate) fn item_in(
    alloc: Global,
    format: Format,
    kind: Kind,
    key: &[u8],
    value: &[u8],
) -> Result<Item, RowFault>
    ensures { Gives (λ i. i) result (item_in format kind key.now value.now) }
{
    match kind {
        Kind::Head => head_of(format, key, value),
        Kind::Parameters => parameters_of(key, value),
        Kind::Balance => balance_of(key, value),
        Kind::Supply => supply_of(key, value),
        Kind::Validator => validator_of(key, value),
        Kind::Delegation => delegation_of(key, value),
        Kind::Unbonding => unbonding_of(alloc, key, value),
        Kind::Redelegation => redelegation_of(alloc, key, value),
        Kind::Signing => signing_of(alloc, format, key, value),
        Kind::Purse => purse_of(alloc, key, value),
        Kind::Pool => pool_of(alloc, key, value),
        Kind::Withdraw => withdraw_of(key, value),
        Kind::CurrentPeriod => current_of(key, value),
        Kind::Historical => historical_of(alloc, key, value),
        Kind::Start => start_of(key, value),
        Kind::Event => event_of(key, value),
    }
}
