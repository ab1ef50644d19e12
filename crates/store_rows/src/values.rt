//! The larger values, taken from the front of bytes.

ghost use Rattle.store_rows.specs.Reading.{IsRead, commission_at, info_at, params_at, validator_at};

use crate::fault::RowFault;
use crate::fields::{
    cons_at, decimal_at, denom_at, moment_at, status_at, truth_at, u64_at, u128_at, user_at,
};
use crate::front::Unread;
use base_roles::{Commission, Params, SigningInfo, Validator};
use base_types::Addr;

#[tactic(auto, unfolding(crate::specs::Reading::params_at))]
pub(crate) fn params_at(bytes: &mut Unread<'_>) -> Result<Params, RowFault>
    ensures { IsRead (λ x. (x, bytes.new.left.now)) result (params_at bytes.old.left.now) }
{
    let bond_denom = denom_at(bytes)?;
    let power_reduction = u64_at(bytes)?;
    let unbonding_time = u64_at(bytes)?;
    let max_validators = u64_at(bytes)?;
    let max_entries = u64_at(bytes)?;
    let min_commission_rate = decimal_at(bytes)?;
    let community_tax = decimal_at(bytes)?;
    let withdraw_addr_enabled = truth_at(bytes)?;
    let signed_blocks_window = u64_at(bytes)?;
    let min_signed_per_window = decimal_at(bytes)?;
    let downtime_jail_duration = u64_at(bytes)?;
    let slash_fraction_double_sign = decimal_at(bytes)?;
    let slash_fraction_downtime = decimal_at(bytes)?;
    let max_age_duration = u64_at(bytes)?;
    let max_age_num_blocks = u64_at(bytes)?;
    let authority = user_at(bytes)?;
    let params = Params {
        bond_denom,
        power_reduction,
        unbonding_time,
        max_validators,
        max_entries,
        min_commission_rate,
        community_tax,
        withdraw_addr_enabled,
        signed_blocks_window,
        min_signed_per_window,
        downtime_jail_duration,
        slash_fraction_double_sign,
        slash_fraction_downtime,
        max_age_duration,
        max_age_num_blocks,
        authority,
    };
    Ok(params)
}

#[tactic(auto, unfolding(crate::specs::Reading::commission_at))]
fn commission_at(bytes: &mut Unread<'_>) -> Result<Commission, RowFault>
    ensures { IsRead (λ x. (x, bytes.new.left.now)) result (commission_at bytes.old.left.now) }
{
    let rate = decimal_at(bytes)?;
    let max_rate = decimal_at(bytes)?;
    let max_change = decimal_at(bytes)?;
    let updated = moment_at(bytes)?;
    let commission = Commission {
        rate,
        max_rate,
        max_change,
        updated,
    };
    Ok(commission)
}

/// The validator of this operator.
#[tactic(auto, unfolding(crate::specs::Reading::validator_at))]
pub(crate) fn validator_at(operator: Addr, bytes: &mut Unread<'_>) -> Result<Validator, RowFault>
    ensures { IsRead (λ x. (x, bytes.new.left.now)) result
        (validator_at operator bytes.old.left.now) }
{
    let cons = cons_at(bytes)?;
    let status = status_at(bytes)?;
    let jailed = truth_at(bytes)?;
    let tokens = u128_at(bytes)?;
    let shares = decimal_at(bytes)?;
    let commission = commission_at(bytes)?;
    let min_self = u128_at(bytes)?;
    let unbonding_height = u64_at(bytes)?;
    let unbonding_time = moment_at(bytes)?;
    let validator = Validator {
        operator,
        cons,
        status,
        jailed,
        tokens,
        shares,
        commission,
        min_self,
        unbonding_height,
        unbonding_time,
    };
    Ok(validator)
}

#[tactic(auto, unfolding(crate::specs::Reading::info_at))]
pub(crate) fn info_at(bytes: &mut Unread<'_>) -> Result<SigningInfo, RowFault>
    ensures { IsRead (λ x. (x, bytes.new.left.now)) result (info_at bytes.old.left.now) }
{
    let start = u64_at(bytes)?;
    let counted = u64_at(bytes)?;
    let missed = u64_at(bytes)?;
    let jailed_until = moment_at(bytes)?;
    let tombstoned = truth_at(bytes)?;
    let info = SigningInfo {
        start,
        counted,
        missed,
        jailed_until,
        tombstoned,
    };
    Ok(info)
}
