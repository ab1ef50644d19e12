//! Balances and supplies as kinds of records.

ghost use Rattle.std.specs.Prelude.{◌≡◌};
ghost use Rattle.base_records.specs.Items.{AnyValue};
ghost use Rattle.mod_bank.specs.Items.{balance_item, supply_item, balance_gone, supply_gone, balance_entry, supply_entry, same_amount};

use base_records::AsItem;
use base_roles::Item;
use base_table::TableFault;
use base_types::{Account, Denom};
use std::alloc::Global;

/// Balances, by account and denomination.
pub(crate) struct BalanceKind;

/// Supplies, by denomination.
pub(crate) struct SupplyKind;

impl AsItem for BalanceKind {
    type Key = (Account, Denom);

    type Value = u128;

    ghost Fits = { AnyValue };

    ghost item_of = { balance_item };

    ghost gone_of = { balance_gone };

    ghost same = { same_amount };

    ghost entry_of = { balance_entry };

    fn item(key: &(Account, Denom), value: &u128) -> Result<Item, TableFault> {
        Ok(balance(key, *value))
    }

    fn gone(_alloc: Global, key: &(Account, Denom)) -> Item {
        balance(key, 0)
    }

    fn is_same(value: &u128, other: &u128) -> bool {
        *value == *other
    }

    fn told() {}
}

impl AsItem for SupplyKind {
    type Key = Denom;

    type Value = u128;

    ghost Fits = { AnyValue };

    ghost item_of = { supply_item };

    ghost gone_of = { supply_gone };

    ghost same = { same_amount };

    ghost entry_of = { supply_entry };

    fn item(key: &Denom, value: &u128) -> Result<Item, TableFault> {
        Ok(supply(key, *value))
    }

    fn gone(_alloc: Global, key: &Denom) -> Item {
        supply(key, 0)
    }

    fn is_same(value: &u128, other: &u128) -> bool {
        *value == *other
    }

    fn told() {}
}

/// The item of a balance.
fn balance(place: &(Account, Denom), amount: u128) -> Item
    ensures { result ≡ balance_item place.now amount }
{
    Item::Balance {
        account: place.0,
        denom: place.1,
        amount,
    }
}

/// The item of a supply.
fn supply(denom: &Denom, amount: u128) -> Item
    ensures { result ≡ supply_item denom.now amount }
{
    Item::Supply {
        denom: *denom,
        amount,
    }
}
