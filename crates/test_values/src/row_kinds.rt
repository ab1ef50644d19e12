//! Two kinds of records, for the tests.

ghost use Rattle.std.specs.Prelude.{◌≡◌};
ghost use Rattle.base_records.specs.Items.{AnyValue};
ghost use Rattle.test_values.specs.RowKinds.{period_item, period_gone, period_entry, supply_item, supply_gone, supply_entry, same_number};

use base_records::AsItem;
use base_roles::Item;
use base_types::{Addr, Denom, TableFault};
use std::alloc::Global;

/// Periods that run, by operator.
pub(crate) struct PeriodKind;

/// Supplies, by denomination.
pub(crate) struct SupplyKind;

impl AsItem for PeriodKind {
    type Key = Addr;

    type Value = u64;

    ghost Fits = { AnyValue };

    ghost item_of = { period_item };

    ghost gone_of = { period_gone };

    ghost same = { same_number };

    ghost entry_of = { period_entry };

    fn item(key: &Addr, value: &u64) -> Result<Item, TableFault> {
        Ok(Item::CurrentPeriod {
            operator: *key,
            period: *value,
        })
    }

    fn gone(_alloc: Global, key: &Addr) -> Item {
        Item::CurrentPeriod {
            operator: *key,
            period: 0,
        }
    }

    fn is_same(value: &u64, other: &u64) -> bool {
        *value == *other
    }

    fn told() {}
}

impl AsItem for SupplyKind {
    type Key = Denom;

    type Value = u128;

    ghost Fits = { AnyValue };

    ghost item_of = { supply_item };

    ghost gone_of = { supply_gone };

    ghost same = { same_number };

    ghost entry_of = { supply_entry };

    fn item(key: &Denom, value: &u128) -> Result<Item, TableFault> {
        Ok(Item::Supply {
            denom: *key,
            amount: *value,
        })
    }

    fn gone(_alloc: Global, key: &Denom) -> Item {
        Item::Supply {
            denom: *key,
            amount: 0,
        }
    }

    fn is_same(value: &u128, other: &u128) -> bool {
        *value == *other
    }

    fn told() {}
}
