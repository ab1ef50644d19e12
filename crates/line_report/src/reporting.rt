//! The report of a state.
ghost use Rattle.std.specs.Prelude.{◌≡◌, IfOk, IfErr};
ghost use Rattle.line_report.specs.Groups.{report_from};
ghost use Rattle.line_report.specs.Lines.{lines_of, text_of};

use crate::sections::{
    accounts, community_pool, redelegation_entries, rewards, shares, supply, unbonding_entries,
    validators_with_purses, votes,
};
use base_bech32::Form;
use base_messages::{LineFault, Pending};
use base_roles::Item;
use std::alloc::Global;

/// The report of a state from its items, in whatever order, and from the pending rewards of its delegations. Its
/// lines, each a JSON object with its `kind`, are in this order:
///
/// 1. `supply`: `coins`.
/// 2. `account`, for each account with coins, users before modules: `address`, `coins`.
/// 3. `validator`, by operator: `operator`, `cons`, `status`, `jailed`, `tokens`, `shares`, `rate`, and from its
///    purse `commission` and `outstanding`, which are empty where the items have no purse.
/// 4. `delegation`, by delegator and validator: `delegator`, `validator`, `shares`.
/// 5. `pending`, in the same order: `delegator`, `validator`, and `coins`, or `limit` (true) in their place.
/// 6. `unbonding`, for each entry, in the same order: `delegator`, `validator`, `created`, `completes`, `initial`,
///    `balance`.
/// 7. `redelegation`, for each entry, by delegator, source and target: `delegator`, `source`, `target`, `created`,
///    `completes`, `initial`, `shares`.
/// 8. `signing`, by consensus address: `cons`, `start`, `counted`, `missed`, `jailed_until`, `tombstoned`.
/// 9. `pool`: `coins`.
///
/// Of items of one key, which a state does not have, the last stands, and of pools the first. The only error is
/// `NoMemory`.
pub fn report(
    form: Form,
    alloc: Global,
    items: &[Item],
    pending: &[Pending],
) -> Result<Vec<u8>, LineFault>
    ensures text { IfOk result (λ text. text.items
        ≡ text_of (lines_of form (report_from items.now pending.now))) }
    ensures fault { IfErr result (λ fault. fault ≡ LineFault.NoMemory) }
{
    let mut out = Vec::new(alloc);
    supply(alloc, &mut out, items)?;
    accounts(form, alloc, &mut out, None, items)?;
    validators_with_purses(form, alloc, &mut out, None, items)?;
    shares(form, alloc, &mut out, None, items)?;
    rewards(form, alloc, &mut out, None, pending)?;
    unbonding_entries(form, alloc, &mut out, None, items)?;
    redelegation_entries(form, alloc, &mut out, None, items)?;
    votes(form, alloc, &mut out, None, items)?;
    community_pool(alloc, &mut out, items)?;
    Ok(out)
}
