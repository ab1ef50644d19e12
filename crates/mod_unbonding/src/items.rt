//! Unbonding entries as a kind of records.

ghost use Rattle.std.specs.Prelude.{◌≡◌};
ghost use Rattle.base_records.specs.Items.{AnyValue};
ghost use Rattle.mod_unbonding.specs.Items.{unbonding_item, unbonding_gone, unbonding_entry, same_entry, same_entries};

use base_records::AsItem;
use base_roles::{Item, Listed, UnbondingEntry};
use base_table::TableFault;
use base_types::{Addr, Copied};
use std::alloc::Global;

/// Entries, by delegator and operator.
pub(crate) struct UnbondingKind;

impl AsItem for UnbondingKind {
    type Key = (Addr, Addr);

    type Value = Listed<UnbondingEntry>;

    ghost Fits = { AnyValue };

    ghost item_of = { unbonding_item };

    ghost gone_of = { unbonding_gone };

    ghost same = { same_entries };

    ghost entry_of = { unbonding_entry };

    fn item(key: &(Addr, Addr), value: &Listed<UnbondingEntry>) -> Result<Item, TableFault> {
        Ok(Item::Unbonding {
            delegator: key.0,
            operator: key.1,
            entries: value.copied()?,
        })
    }

    fn gone(alloc: Global, key: &(Addr, Addr)) -> Item {
        Item::Unbonding {
            delegator: key.0,
            operator: key.1,
            entries: Listed::new(alloc),
        }
    }

    fn is_same(value: &Listed<UnbondingEntry>, other: &Listed<UnbondingEntry>) -> bool {
        are_same(value.as_slice(), other.as_slice())
    }

    fn told() {}
}

/// Whether two lists have the same entries, one by one.
fn are_same(entries: &[UnbondingEntry], others: &[UnbondingEntry]) -> bool
    ensures { result ≡ same_entries entries.now others.now }
{
    if entries.len() != others.len() {
        return false;
    }
    for place in 0..entries.len() {
        let (Some(entry), Some(other)) = (entries.get(place), others.get(place)) else {
            return false;
        };
        if !is_same(entry, other) {
            return false;
        }
    }
    true
}

/// Whether two entries are one, field by field.
fn is_same(entry: &UnbondingEntry, other: &UnbondingEntry) -> bool
    ensures { result ≡ same_entry entry.now other.now }
{
    entry.created == other.created
        && entry.completes.nanos() == other.completes.nanos()
        && entry.initial == other.initial
        && entry.balance == other.balance
}
