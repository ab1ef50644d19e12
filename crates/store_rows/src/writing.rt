//! Fields and values appended to bytes.

ghost use Rattle.std.specs.Prelude.{◌≡◌, ◌++◌, ◌∷◌, [], ◌<◌, ◌^◌, OnOk};
ghost use Rattle.base_types.specs.Accounts.{account_bytes};
ghost use Rattle.store_rows.specs.Fields.{coin_bytes, coin_seen, coins_bytes, denom_bytes, eight_bytes, four_bytes, list_bytes, sixteen_bytes, status_byte, truth_byte};
ghost use Rattle.store_rows.specs.Rows.{commission_bytes, history_bytes, info_bytes, later_params_bytes, params_bytes, purse_bytes, redelegation_bytes, starting_bytes, unbonding_bytes, validator_bytes};
ghost use Rattle.std.specs.List.{AllByRecursion};
ghost use Rattle.base_types.specs.Address.{IsAddress};
ghost use Rattle.store_rows.specs.Spelled.{AreCoins, AreLaterParams, AreParams, IsAccount, IsCommission, IsCountable, IsDecimal, IsHistory, IsInfo, IsMoment, IsName, IsPurse, IsRedelegation, IsStart, IsUnbonding, IsUser, IsValidator};

use base_coins::{DecCoin, DecCoins};
use base_decimals::Dec;
use base_roles::{
    Commission, Historical, Params, Purse, RedelegationEntry, SigningInfo, StartingInfo,
    UnbondingEntry, Validator,
};
use base_types::{Account, Addr, BondStatus, ConsAddr, Denom, Moment};
use std::alloc::AllocError;

/// The number of elements of a list, below 2^32.
#[tactic(auto, unfolding(crate::specs::Fields::four_bytes))]
pub(crate) fn push_len(out: &mut Vec<u8>, len: usize) -> Result<(), AllocError>
    requires { len < 2 ^ 32 }
    ensures { OnOk result (out.new.items ≡ out.old.items ++ four_bytes len) }
{
    out.extend_from_slice(&(len as u32).to_be_bytes())
}

#[tactic(auto, unfolding(crate::specs::Fields::eight_bytes))]
pub(crate) fn push_u64(out: &mut Vec<u8>, n: u64) -> Result<(), AllocError>
    ensures { OnOk result (out.new.items ≡ out.old.items ++ eight_bytes n) }
{
    out.extend_from_slice(&n.to_be_bytes())
}

#[tactic(auto, unfolding(crate::specs::Fields::sixteen_bytes))]
pub(crate) fn push_u128(out: &mut Vec<u8>, n: u128) -> Result<(), AllocError>
    ensures { OnOk result (out.new.items ≡ out.old.items ++ sixteen_bytes n) }
{
    out.extend_from_slice(&n.to_be_bytes())
}

pub(crate) fn push_decimal(out: &mut Vec<u8>, decimal: Dec) -> Result<(), AllocError>
    ensures written { OnOk result (out.new.items ≡ out.old.items ++ sixteen_bytes decimal) }
    ensures range { IsDecimal decimal }
{
    push_u128(out, decimal.raw())
}

pub(crate) fn push_moment(out: &mut Vec<u8>, moment: Moment) -> Result<(), AllocError>
    ensures written { OnOk result (out.new.items ≡ out.old.items ++ sixteen_bytes moment) }
    ensures range { IsMoment moment }
{
    push_u128(out, moment.nanos())
}

fn push_truth(out: &mut Vec<u8>, truth: bool) -> Result<(), AllocError>
    ensures { OnOk result (out.new.items ≡ out.old.items ++ truth_byte truth ∷ []) }
{
    out.push(if truth { 1 } else { 0 })?;
    Ok(())
}

fn push_status(out: &mut Vec<u8>, status: BondStatus) -> Result<(), AllocError>
    ensures { OnOk result (out.new.items ≡ out.old.items ++ status_byte status ∷ []) }
{
    let byte = match status {
        BondStatus::Bonded => 0,
        BondStatus::Unbonding => 1,
        BondStatus::Unbonded => 2,
    };
    out.push(byte)?;
    Ok(())
}

pub(crate) fn push_user(out: &mut Vec<u8>, user: &Addr) -> Result<(), AllocError>
    ensures written { OnOk result (out.new.items ≡ out.old.items ++ user.now) }
    ensures range { IsUser user.now }
{
    out.extend_from_slice(&user.bytes())
}

pub(crate) fn push_cons(out: &mut Vec<u8>, cons: &ConsAddr) -> Result<(), AllocError>
    ensures written { OnOk result (out.new.items ≡ out.old.items ++ cons.now) }
    ensures range { IsAddress cons.now }
{
    out.extend_from_slice(&cons.bytes())
}

pub(crate) fn push_account(out: &mut Vec<u8>, account: &Account) -> Result<(), AllocError>
    ensures written { OnOk result (out.new.items ≡ out.old.items ++ account_bytes account.now) }
    ensures range { IsAccount account.now }
{
    out.extend_from_slice(&account.bytes())
}

#[tactic(auto, using(crate::proofs::FieldLemmas::names_are_short))]
pub(crate) fn push_denom(out: &mut Vec<u8>, denom: &Denom) -> Result<(), AllocError>
    ensures written { OnOk result (out.new.items ≡ out.old.items ++ denom_bytes denom.now) }
    ensures range { IsName denom.now }
{
    let name = denom.bytes();
    out.push(name.len() as u8)?;
    out.extend_from_slice(name)
}

fn push_coin(out: &mut Vec<u8>, coin: &DecCoin) -> Result<(), AllocError>
    ensures written { OnOk result (out.new.items
        ≡ out.old.items ++ coin_bytes (coin_seen coin.now)) }
    ensures range { IsName coin.now.denom }
{
    push_denom(out, &coin.denom)?;
    push_decimal(out, coin.amount)
}

pub(crate) fn push_coins(out: &mut Vec<u8>, coins: &DecCoins) -> Result<(), AllocError>
    requires { IsCountable coins.now }
    ensures written { OnOk result (out.new.items ≡ out.old.items ++ coins_bytes coins.now) }
    ensures range { OnOk result (AreCoins coins.now) }
{
    let list = coins.as_slice();
    push_len(out, list.len())?;
    for coin in list {
        push_coin(out, coin)?;
    }
    Ok(())
}

fn push_unbonding(out: &mut Vec<u8>, entry: &UnbondingEntry) -> Result<(), AllocError>
    ensures written { OnOk result (out.new.items ≡ out.old.items ++ unbonding_bytes entry.now) }
    ensures range { OnOk result (IsUnbonding entry.now) }
{
    push_u64(out, entry.created)?;
    push_moment(out, entry.completes)?;
    push_u128(out, entry.initial)?;
    push_u128(out, entry.balance)
}

pub(crate) fn push_unbondings(
    out: &mut Vec<u8>,
    entries: &[UnbondingEntry],
) -> Result<(), AllocError>
    requires { IsCountable entries.now }
    ensures written { OnOk result (out.new.items
        ≡ out.old.items ++ list_bytes unbonding_bytes entries.now) }
    ensures range { OnOk result (AllByRecursion IsUnbonding entries.now) }
{
    push_len(out, entries.len())?;
    for entry in entries {
        push_unbonding(out, entry)?;
    }
    Ok(())
}

fn push_redelegation(out: &mut Vec<u8>, entry: &RedelegationEntry) -> Result<(), AllocError>
    ensures written { OnOk result (out.new.items ≡ out.old.items ++ redelegation_bytes entry.now) }
    ensures range { OnOk result (IsRedelegation entry.now) }
{
    push_u64(out, entry.created)?;
    push_moment(out, entry.completes)?;
    push_u128(out, entry.initial)?;
    push_decimal(out, entry.shares_dst)
}

pub(crate) fn push_redelegations(
    out: &mut Vec<u8>,
    entries: &[RedelegationEntry],
) -> Result<(), AllocError>
    requires { IsCountable entries.now }
    ensures written { OnOk result (out.new.items
        ≡ out.old.items ++ list_bytes redelegation_bytes entries.now) }
    ensures range { OnOk result (AllByRecursion IsRedelegation entries.now) }
{
    push_len(out, entries.len())?;
    for entry in entries {
        push_redelegation(out, entry)?;
    }
    Ok(())
}

/// The parameters of signing, of evidence and of authority.
fn push_later_params(out: &mut Vec<u8>, params: &Params) -> Result<(), AllocError>
    ensures written { OnOk result (out.new.items
        ≡ out.old.items ++ later_params_bytes params.now) }
    ensures range { OnOk result (AreLaterParams params.now) }
{
    push_u64(out, params.signed_blocks_window)?;
    push_decimal(out, params.min_signed_per_window)?;
    push_u64(out, params.downtime_jail_duration)?;
    push_decimal(out, params.slash_fraction_double_sign)?;
    push_decimal(out, params.slash_fraction_downtime)?;
    push_u64(out, params.max_age_duration)?;
    push_u64(out, params.max_age_num_blocks)?;
    push_user(out, &params.authority)
}

pub(crate) fn push_params(out: &mut Vec<u8>, params: &Params) -> Result<(), AllocError>
    ensures written { OnOk result (out.new.items ≡ out.old.items ++ params_bytes params.now) }
    ensures range { OnOk result (AreParams params.now) }
{
    push_denom(out, &params.bond_denom)?;
    push_u64(out, params.power_reduction)?;
    push_u64(out, params.unbonding_time)?;
    push_u64(out, params.max_validators)?;
    push_u64(out, params.max_entries)?;
    push_decimal(out, params.min_commission_rate)?;
    push_decimal(out, params.community_tax)?;
    push_truth(out, params.withdraw_addr_enabled)?;
    push_later_params(out, params)
}

fn push_commission(out: &mut Vec<u8>, commission: &Commission) -> Result<(), AllocError>
    ensures written { OnOk result (out.new.items
        ≡ out.old.items ++ commission_bytes commission.now) }
    ensures range { OnOk result (IsCommission commission.now) }
{
    push_decimal(out, commission.rate)?;
    push_decimal(out, commission.max_rate)?;
    push_decimal(out, commission.max_change)?;
    push_moment(out, commission.updated)
}

/// All of the validator but its operator.
pub(crate) fn push_validator(out: &mut Vec<u8>, validator: &Validator) -> Result<(), AllocError>
    ensures written { OnOk result (out.new.items ≡ out.old.items ++ validator_bytes validator.now) }
    ensures range { OnOk result (IsUser validator.now.operator → IsValidator validator.now) }
{
    push_cons(out, &validator.cons)?;
    push_status(out, validator.status)?;
    push_truth(out, validator.jailed)?;
    push_u128(out, validator.tokens)?;
    push_decimal(out, validator.shares)?;
    push_commission(out, &validator.commission)?;
    push_u128(out, validator.min_self)?;
    push_u64(out, validator.unbonding_height)?;
    push_moment(out, validator.unbonding_time)
}

pub(crate) fn push_info(out: &mut Vec<u8>, info: &SigningInfo) -> Result<(), AllocError>
    ensures written { OnOk result (out.new.items ≡ out.old.items ++ info_bytes info.now) }
    ensures range { OnOk result (IsInfo info.now) }
{
    push_u64(out, info.start)?;
    push_u64(out, info.counted)?;
    push_u64(out, info.missed)?;
    push_moment(out, info.jailed_until)?;
    push_truth(out, info.tombstoned)
}

pub(crate) fn push_purse(out: &mut Vec<u8>, purse: &Purse) -> Result<(), AllocError>
    requires outstanding { IsCountable purse.now.outstanding }
    requires commission { IsCountable purse.now.commission }
    requires current { IsCountable purse.now.current }
    ensures written { OnOk result (out.new.items ≡ out.old.items ++ purse_bytes purse.now) }
    ensures range { OnOk result (IsPurse purse.now) }
{
    push_coins(out, &purse.outstanding)?;
    push_coins(out, &purse.commission)?;
    push_coins(out, &purse.current)
}

pub(crate) fn push_history(out: &mut Vec<u8>, history: &Historical) -> Result<(), AllocError>
    requires { IsCountable history.now.ratio }
    ensures written { OnOk result (out.new.items ≡ out.old.items ++ history_bytes history.now) }
    ensures range { OnOk result (IsHistory history.now) }
{
    push_coins(out, &history.ratio)?;
    push_u128(out, history.count)
}

pub(crate) fn push_starting(out: &mut Vec<u8>, info: &StartingInfo) -> Result<(), AllocError>
    ensures written { OnOk result (out.new.items ≡ out.old.items ++ starting_bytes info.now) }
    ensures range { OnOk result (IsStart info.now) }
{
    push_u64(out, info.period)?;
    push_decimal(out, info.stake)?;
    push_u64(out, info.height)
}
