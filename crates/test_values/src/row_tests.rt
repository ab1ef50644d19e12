//! Records of two kinds, listed together as items and as changes.

ghost use Rattle.std.specs.Prelude.{◌≡◌, ◌<◌};

use crate::checks::holds;
use crate::row_kinds::{PeriodKind, SupplyKind};
use base_records::{Both, Kinds, One};
use base_roles::Item;
use base_table::Table;
use base_types::{Addr, Denom, Steps};
use std::marker::Brand;
use std::process::Abort;
use std::sync::ledger::{Blank, Ledger};

/// The items and the changes of two tables.
type Listed = (Vec<Item>, Vec<(Item, bool)>);

/// A settled table of one period, which is taken out behind the settling.
fn periods<L: Ledger>(
    rt: &(impl Abort + AllocGlobal),
    operator: &Addr,
    steps: &mut Steps<L>,
) -> Table<Addr, u64> {
    let mut table: Table<Addr, u64> = Table::new(rt.alloc());
    table.put(operator, 3, steps).expect(rt, "memory");
    table.settle();
    table.remove(operator, steps).expect(rt, "memory");
    table
}

/// A settled table of two supplies, of which the first rises behind the settling.
fn supplies<L: Ledger>(
    rt: &(impl Abort + AllocGlobal),
    first: &Denom,
    second: &Denom,
    steps: &mut Steps<L>,
) -> Table<Denom, u128> {
    let mut table: Table<Denom, u128> = Table::new(rt.alloc());
    table.put(first, 8, steps).expect(rt, "memory");
    table.put(second, 5, steps).expect(rt, "memory");
    table.settle();
    table.put(first, 9, steps).expect(rt, "memory");
    table
}

/// What two tables list, kind by kind.
fn listed<L: Ledger>(
    rt: &(impl Abort + AllocGlobal),
    periods: &Table<Addr, u64>,
    supplies: &Table<Denom, u128>,
    steps: &mut Steps<L>,
) -> Listed {
    let kinds = Both {
        first: One::<PeriodKind> { table: periods },
        second: One::<SupplyKind> { table: supplies },
    };
    kinds.known();
    let mut items = Vec::new(rt.alloc());
    kinds.items_into(&mut items, steps).expect(rt, "items");
    let mut changes = Vec::new(rt.alloc());
    let told = kinds.changes_into(rt.alloc(), &mut changes, steps);
    told.expect(rt, "changes");
    (items, changes)
}

/// What is listed of a period that is gone, a supply that rose and one that stayed.
fn listed_after<L: Ledger>(
    rt: &(impl Abort + AllocGlobal),
    operator: &Addr,
    first: &Denom,
    second: &Denom,
    blank: Blank,
) -> Listed
    requires name { blank.name ≡ L.name }
    requires parts { blank.parts ≡ L.parts }
    requires some { 0 < L.parts }
{
    let mut steps: Steps<L> = Steps::new(blank);
    let gone = periods(rt, operator, &mut steps);
    let risen = supplies(rt, first, second, &mut steps);
    listed(rt, &gone, &risen, &mut steps)
}

/// Whether an item is the supply of so much.
fn is_supply(item: Option<&Item>, expected: u128) -> bool {
    matches!(item, Some(Item::Supply { amount, .. }) if *amount == expected)
}

/// Whether a change is this one of a supply.
fn is_risen(change: Option<&(Item, bool)>, expected: u128) -> bool {
    match change {
        Some((item, stands)) => *stands && is_supply(Some(item), expected),
        None => false,
    }
}

/// Whether a change is of a period that is gone.
fn is_gone(change: Option<&(Item, bool)>) -> bool {
    matches!(change, Some((Item::CurrentPeriod { .. }, false)))
}

#[test]
fn records_of_two_kinds_are_listed(rt: HostRuntime) {
    let operator = Addr::of([7; 20]).expect(&rt, "no module's address");
    let first = Denom::of(b"uatom").expect(&rt, "a denomination");
    let second = Denom::of(b"uosmo").expect(&rt, "a denomination");
    let (items, changes) = listed_after::<Brand>(&rt, &operator, &first, &second, Blank::new(1));
    holds(&rt, "two items", items.len() == 2);
    holds(&rt, "the first supply", is_supply(items.get(0), 9));
    holds(&rt, "the second supply", is_supply(items.get(1), 5));
    holds(&rt, "two changes", changes.len() == 2);
    holds(&rt, "the period is gone", is_gone(changes.get(0)));
    holds(&rt, "the supply rose", is_risen(changes.get(1), 9));
}
