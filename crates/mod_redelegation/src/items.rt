//! Redelegation entries as a kind of records.

ghost use Rattle.std.specs.Prelude.{◌≡◌};
ghost use Rattle.base_records.specs.Items.{AnyValue};
ghost use Rattle.mod_redelegation.specs.Items.{redelegation_item, redelegation_gone, redelegation_entry, same_entry, same_entries};

use crate::keyed::Key;
use base_records::AsItem;
use base_roles::{Item, Listed, RedelegationEntry};
use base_table::TableFault;
use base_types::{Addr, Copied};
use std::alloc::Global;

/// Entries, by delegator, source and target.
pub(crate) struct RedelegationKind;

impl AsItem for RedelegationKind {
    type Key = (Addr, Addr, Addr);

    type Value = Listed<RedelegationEntry>;

    ghost Fits = { AnyValue };

    ghost item_of = { redelegation_item };

    ghost gone_of = { redelegation_gone };

    ghost same = { same_entries };

    ghost entry_of = { redelegation_entry };

    fn item(key: &Key, value: &Listed<RedelegationEntry>) -> Result<Item, TableFault> {
        Ok(Item::Redelegation {
            delegator: key.0,
            source: key.1,
            target: key.2,
            entries: value.copied()?,
        })
    }

    fn gone(alloc: Global, key: &Key) -> Item {
        Item::Redelegation {
            delegator: key.0,
            source: key.1,
            target: key.2,
            entries: Listed::new(alloc),
        }
    }

    fn is_same(value: &Listed<RedelegationEntry>, other: &Listed<RedelegationEntry>) -> bool {
        are_same(value.as_slice(), other.as_slice())
    }

    fn told() {}
}

/// Whether two lists have the same entries, one by one.
fn are_same(entries: &[RedelegationEntry], others: &[RedelegationEntry]) -> bool
    ensures { result ≡ same_entries entries.now others.now }
{
    if entries.len() != others.len() {
        return false;
    }
    for place in 0..entries.len() {
        let (Some(entry), Some(other)) = (entries.get(place), others.get(place)) else {
            return false;
        };
        if !is_same(entry, other) {
            return false;
        }
    }
    true
}

/// Whether two entries are one, field by field.
fn is_same(entry: &RedelegationEntry, other: &RedelegationEntry) -> bool
    ensures { result ≡ same_entry entry.now other.now }
{
    entry.created == other.created
        && entry.completes.nanos() == other.completes.nanos()
        && entry.initial == other.initial
        && entry.shares_dst.raw() == other.shares_dst.raw()
}
