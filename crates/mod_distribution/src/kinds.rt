//! To whom payments go, as a kind of records.

ghost use Rattle.std.specs.Prelude.{◌≡◌};
ghost use Rattle.base_roles.specs.Items.{no_address};
ghost use Rattle.base_records.specs.Items.{AnyValue};
ghost use Rattle.mod_distribution.specs.Items.{payee_item, payee_gone, payee_entry, same_payee};

use base_records::AsItem;
use base_roles::Item;
use base_table::TableFault;
use base_types::Addr;
use std::alloc::Global;

/// The addresses to which payments go, by that of whose payments they are.
pub(crate) struct PayeeKind;

impl AsItem for PayeeKind {
    type Key = Addr;

    type Value = Addr;

    ghost Fits = { AnyValue };

    ghost item_of = { payee_item };

    ghost gone_of = { payee_gone };

    ghost same = { same_payee };

    ghost entry_of = { payee_entry };

    fn item(key: &Addr, value: &Addr) -> Result<Item, TableFault> {
        Ok(Item::Withdraw {
            delegator: *key,
            to: *value,
        })
    }

    fn gone(_alloc: Global, key: &Addr) -> Item {
        Item::Withdraw {
            delegator: *key,
            to: no_address(),
        }
    }

    fn is_same(value: &Addr, other: &Addr) -> bool {
        *value == *other
    }

    fn told() {}
}

/// The address of zero bytes alone, which is no module's.
fn no_address() -> Addr
    ensures { result ≡ no_address }
{
    Addr::of([0; 20]).unwrap()
}
