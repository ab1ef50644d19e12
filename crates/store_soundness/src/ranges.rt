//! Ranges of parameters and of what records hold.

ghost use Rattle.std.specs.Prelude.{◌≡◌, ◌^◌, nat_le, ◌&&◌};
ghost use Rattle.base_roles.specs.Ground.{end_of_blocks};
ghost use Rattle.base_roles.specs.Ranges.{is_within};
ghost use Rattle.store_soundness.specs.Ranges.{are_currents_in_range, are_validators_sound, is_context_sound, is_validator_sound};

use base_decimals::Dec;
use base_roles::{Ctx, Validator};
use base_types::Addr;
use std::collections::BTreeMap;

/// One, in units of 10^-18, and the most coins that there may be.
pub(crate) const ONE: u128 = 1_000_000_000_000_000_000;

/// The last period.
const LAST_PERIOD: u64 = 1_000_000_000_000_000_000;

/// The first nanosecond of the year 9900.
const END_OF_BLOCKS: u128 = 250_246_627_200_000_000_000;

/// Whether the number is from the one to the other.
fn is_within(least: u64, most: u64, number: u64) -> bool
    ensures { result ≡ is_within least most number }
{
    least <= number && number <= most
}

/// Whether the part is at most one.
pub(crate) fn is_part(part: Dec) -> bool
    ensures { result ≡ nat_le part (10 ^ 18) }
{
    part.raw() <= ONE
}

/// Whether parameters, time and height are in their ranges.
pub(crate) fn is_context_sound(ctx: &Ctx) -> bool
    ensures { result ≡ is_context_sound ctx.now }
{
    ctx.params.are_in_range() && ctx.time.nanos() < END_OF_BLOCKS && ctx.height < 1 << 63
}

/// Whether a validator's rates are within its highest, its tokens no more than there can be, and none without
/// shares, and whether it began to unbond at a height that was.
fn is_validator_sound(height: u64, validator: &Validator) -> bool
    ensures { result ≡ is_validator_sound height validator.now }
{
    let commission = &validator.commission;
    is_part(commission.max_rate)
        && commission.rate.raw() <= commission.max_rate.raw()
        && commission.max_change.raw() <= commission.max_rate.raw()
        && validator.tokens <= ONE
        && (0 < validator.shares.raw() || validator.tokens == 0)
        && validator.unbonding_height <= height
}

/// Whether all validators are so.
pub(crate) fn are_validators_sound(height: u64, validators: &BTreeMap<Addr, Validator>) -> bool
    ensures { result ≡ are_validators_sound height validators.now.entries }
{
    validators
        .iter()
        .all(|(_, validator)| is_validator_sound(height, validator))
}

/// Whether each period that runs is from 1 to 10^18.
pub(crate) fn are_currents_in_range(currents: &BTreeMap<Addr, u64>) -> bool
    ensures { result ≡ are_currents_in_range currents.now.entries }
{
    currents
        .iter()
        .all(|(_, period)| is_within(1, LAST_PERIOD, *period))
}
