//! What entries lose that follow a redelegation.

ghost use Rattle.std.specs.Prelude.{◌≡◌, IfOk};
ghost use Rattle.rule_modules.specs.EntrySlashes.{entries_followed};

use crate::entries::part_followed;
use base_roles::{Listed, UnbondingEntry};
use base_table::TableFault;
use base_types::Moment;
use std::alloc::Global;

/// What entries lose that were made at a height or later and are not mature, of at most so many tokens: of
/// each, in the order of making, its balance or what is left.
pub(crate) fn sum_followed(entries: &[UnbondingEntry], from: u64, tokens: u128, now: Moment) -> u128
    ensures { result ≡ (entries_followed from now tokens entries.now).0 }
{
    let mut left = tokens;
    for entry in entries {
        let lost = part_followed(entry, from, now, left);
        left = left.saturating_sub(lost);
    }
    tokens.saturating_sub(left)
}

/// The entries once they lost that.
pub(crate) fn followed(
    alloc: Global,
    entries: &[UnbondingEntry],
    from: u64,
    tokens: u128,
    now: Moment,
) -> Result<Listed<UnbondingEntry>, TableFault>
    ensures { IfOk result (λ list. list ≡ (entries_followed from now tokens entries.now).1) }
{
    let mut list = Vec::new(alloc);
    let mut left = tokens;
    for entry in entries {
        let lost = part_followed(entry, from, now, left);
        list.push(UnbondingEntry {
            balance: entry.balance.saturating_sub(lost),
            ..*entry
        })?;
        left = left.saturating_sub(lost);
    }
    Ok(Listed::of(list))
}
