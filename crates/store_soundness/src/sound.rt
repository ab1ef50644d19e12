//! The eight tests together.

ghost use Rattle.std.specs.Prelude.{◌≡◌, IfOk};
ghost use Rattle.store_records.specs.Plain.{seen};
ghost use Rattle.store_soundness.specs.Sound.{are_others_sound, are_rewards_sound, are_stakes_sound, are_values_sound, is_sound};

use crate::backing::are_backed;
use crate::entries::{are_redelegations_sound, are_unbondings_sound};
use crate::events::are_events_sound;
use crate::histories::{are_counted, do_ratios_grow};
use crate::names::are_few;
use crate::ranges::{are_currents_in_range, are_validators_sound, is_context_sound};
use crate::rewards::holds_rewards;
use crate::shares::{are_cons_distinct, are_shares_delegated};
use crate::signing::{are_recorded, are_signings_sound};
use crate::stakes::holds_stake;
use crate::standing::stands_for_stakes;
use std::alloc::{AllocError, Global};
use store_records::PlainRecords;

/// Whether values are in their ranges, supplies are sums of balances, and denominations few.
fn are_values_sound(alloc: Global, records: &PlainRecords) -> Result<bool, AllocError>
    ensures { IfOk result (λ sound. sound ≡ are_values_sound (seen records.now)) }
{
    let lists = &records.lists;
    Ok(
        is_context_sound(&records.ctx)
            && are_backed(alloc, &lists.balances, &lists.supplies)?
            && are_validators_sound(records.ctx.height, &lists.validators)
            && are_currents_in_range(&lists.shared.currents)
            && are_few(alloc, records)?,
    )
}

/// Whether shares are those of delegations, and the accounts hold what they owe.
fn are_stakes_sound(alloc: Global, records: &PlainRecords) -> Result<bool, AllocError>
    ensures { IfOk result (λ sound. sound ≡ are_stakes_sound (seen records.now)) }
{
    let lists = &records.lists;
    Ok(
        are_shares_delegated(alloc, &lists.validators, &lists.delegations)?
            && are_cons_distinct(alloc, &lists.validators)?
            && holds_stake(records)
            && holds_rewards(alloc, records)?,
    )
}

/// Whether distribution stands for validators and delegations, and its periods are in order.
fn are_rewards_sound(alloc: Global, records: &PlainRecords) -> Result<bool, AllocError>
    ensures { IfOk result (λ sound. sound ≡ are_rewards_sound (seen records.now)) }
{
    let shared = &records.lists.shared;
    Ok(
        stands_for_stakes(records.ctx.height, &records.lists)
            && are_counted(alloc, shared)?
            && do_ratios_grow(&shared.histories)
            && are_events_sound(records.ctx.height, shared),
    )
}

/// Whether signing records and entries are in order.
fn are_others_sound(records: &PlainRecords) -> bool
    ensures { result ≡ are_others_sound (seen records.now) }
{
    let lists = &records.lists;
    let height = records.ctx.height;
    are_recorded(&lists.validators, &lists.signings)
        && are_signings_sound(
            height,
            records.ctx.params.signed_blocks_window,
            &lists.signings,
        )
        && are_unbondings_sound(height, &lists.unbondings)
        && are_redelegations_sound(height, &lists.redelegations)
}

/// Whether the records are those of a sound state. The only error is want of memory.
pub fn is_sound(alloc: Global, records: &PlainRecords) -> Result<bool, AllocError>
    ensures { IfOk result (λ sound. sound ≡ is_sound (seen records.now)) }
{
    Ok(
        are_values_sound(alloc, records)?
            && are_stakes_sound(alloc, records)?
            && are_rewards_sound(alloc, records)?
            && are_others_sound(records),
    )
}
