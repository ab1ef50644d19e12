//! Accounts, and accounts with denominations: maps keep them in the order of their definitions.

ghost use Rattle.std.specs.Prelude.{◌≡◌};
ghost use Rattle.std.specs.BTreeMap.{is_at};
ghost use Rattle.base_types.specs.Orders.{account_cmp};
ghost use Rattle.base_roles.specs.Entries.{number_at};
ghost use Rattle.base_roles.specs.Orders.{place_cmp};

use crate::tally::{is_same, number_of};
use base_types::{Account, Denom};
use std::collections::BTreeMap;

/// Whether two accounts are one.
pub(crate) fn is_account(who: &Account, other: &Account) -> bool
    ensures { result ≡ is_at (account_cmp who.now) other.now }
{
    is_same(who, other)
}

/// What an account holds of a denomination.
pub(crate) fn balance_of(
    balances: &BTreeMap<(Account, Denom), u128>,
    place: &(Account, Denom),
) -> u128
    ensures { result ≡ number_at place_cmp balances.now.entries place.now }
{
    number_of(balances, place)
}
