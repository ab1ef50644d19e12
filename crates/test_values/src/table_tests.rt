//! Tables: marks that nest and are gone back to or forgotten, and keys that were touched.

ghost use Rattle.std.specs.Prelude.{◌≡◌, ◌<◌};

use crate::checks::holds;
use base_table::Table;
use base_types::Steps;
use std::marker::Brand;
use std::process::Abort;
use std::sync::ledger::{Blank, Ledger};

/// A settled table of the key 1 that has gone back over a put of 2 and a removal of 1.
fn gone_back<L: Ledger>(rt: &(impl Abort + AllocGlobal), blank: Blank) -> Table<u64, u64>
    requires name { blank.name ≡ L.name }
    requires parts { blank.parts ≡ L.parts }
    requires some { 0 < L.parts }
{
    let mut steps: Steps<L> = Steps::new(blank);
    let mut table: Table<u64, u64> = Table::new(rt.alloc());
    table.put(&1, 10, &mut steps).expect(rt, "memory");
    table.settle();
    table.mark().expect(rt, "memory");
    table.put(&2, 20, &mut steps).expect(rt, "memory");
    table.remove(&1, &mut steps).expect(rt, "memory");
    table.back();
    table
}

#[test]
fn a_table_goes_back_and_lists_what_was_touched(rt: HostRuntime) {
    let table = gone_back::<Brand>(&rt, Blank::new(1));
    holds(&rt, "one entry", table.len() == 1);
    let touched = table.touched();
    holds(&rt, "two touched", touched.len() == 2);
    holds(&rt, "2 was new", touched.get_index(0) == Some((&2, &None)));
    holds(
        &rt,
        "1 had 10",
        touched.get_index(1) == Some((&1, &Some(10))),
    );
}

#[test]
fn a_table_tells_what_was_touched_by_key(rt: HostRuntime) {
    let table = gone_back::<Brand>(&rt, Blank::new(1));
    holds(&rt, "1 had 10", table.touched_value(&1) == Some(&Some(10)));
    holds(&rt, "2 was new", table.touched_value(&2) == Some(&None));
    holds(&rt, "3 was not touched", table.touched_value(&3) == None);
}

/// Two keys that were touched in one order, were settled, and are touched in the other order.
fn touched_again<L: Ledger>(rt: &(impl Abort + AllocGlobal), blank: Blank) -> Table<u64, u64>
    requires name { blank.name ≡ L.name }
    requires parts { blank.parts ≡ L.parts }
    requires some { 0 < L.parts }
{
    let mut steps: Steps<L> = Steps::new(blank);
    let mut table: Table<u64, u64> = Table::new(rt.alloc());
    table.put(&1, 10, &mut steps).expect(rt, "memory");
    table.put(&2, 20, &mut steps).expect(rt, "memory");
    table.settle();
    table.put(&2, 21, &mut steps).expect(rt, "memory");
    table.put(&1, 11, &mut steps).expect(rt, "memory");
    table.put(&2, 22, &mut steps).expect(rt, "memory");
    table
}

#[test]
fn a_settled_table_lists_anew(rt: HostRuntime) {
    let table = touched_again::<Brand>(&rt, Blank::new(1));
    let touched = table.touched();
    holds(&rt, "two touched", touched.len() == 2);
    holds(
        &rt,
        "2 had 20",
        touched.get_index(0) == Some((&2, &Some(20))),
    );
    holds(
        &rt,
        "1 had 10",
        touched.get_index(1) == Some((&1, &Some(10))),
    );
}

const KEYS: u64 = 10_000;

/// Puts this value under each of 10,000 keys.
fn fill<L: Ledger>(rt: &impl Abort, table: &mut Table<u64, u64>, value: u64, steps: &mut Steps<L>)
    ensures { table.new.marks ≡ table.old.marks }
{
    for key in 0..KEYS {
        table.put(&key, value, steps).expect(rt, "memory");
    }
}

/// Forgets the inner of two marks, and goes back to the outer one.
fn forget_inner<L: Ledger>(rt: &impl Abort, table: &mut Table<u64, u64>, steps: &mut Steps<L>) {
    table.mark().expect(rt, "memory");
    fill(rt, table, 2, steps);
    table.mark().expect(rt, "memory");
    fill(rt, table, 3, steps);
    table.forget();
    table.back();
}

/// Goes back to the inner of two marks, and forgets the outer one.
fn forget_outer<L: Ledger>(rt: &impl Abort, table: &mut Table<u64, u64>, steps: &mut Steps<L>) {
    table.mark().expect(rt, "memory");
    fill(rt, table, 4, steps);
    table.mark().expect(rt, "memory");
    table.remove(&0, steps).expect(rt, "memory");
    table.back();
    table.forget();
}

/// The last of 10,000 keys once the inner of two marks was forgotten, and once the outer one was.
fn last_values<L: Ledger>(
    rt: &(impl Abort + AllocGlobal),
    blank: Blank,
) -> (Option<u64>, Option<u64>, usize)
    requires name { blank.name ≡ L.name }
    requires parts { blank.parts ≡ L.parts }
    requires some { 0 < L.parts }
{
    let mut steps: Steps<L> = Steps::new(blank);
    let mut table: Table<u64, u64> = Table::new(rt.alloc());
    fill(rt, &mut table, 1, &mut steps);
    forget_inner(rt, &mut table, &mut steps);
    let first = table.get(&(KEYS - 1), &mut steps).copied();
    forget_outer(rt, &mut table, &mut steps);
    let second = table.get(&(KEYS - 1), &mut steps).copied();
    (first, second, table.len())
}

#[test]
fn marks_of_10000_keys_nest(rt: HostRuntime) {
    let (first, second, len) = last_values::<Brand>(&rt, Blank::new(1));
    holds(&rt, "behind the inner mark", first == Some(1));
    holds(&rt, "behind the outer mark", second == Some(4));
    holds(&rt, "all keys", len == 10_000);
}

/// How many entries a table has, the values of the entries above 1, from 2 on and at 2, and how many keys are
/// listed once it is settled.
type Seen = (usize, Option<u64>, Option<u64>, Option<u64>, usize);

/// What is seen of the keys 1, 2 and 3 once 2 was taken out while a mark is open.
fn seen_without_2<L: Ledger>(rt: &(impl Abort + AllocGlobal), blank: Blank) -> Seen
    requires name { blank.name ≡ L.name }
    requires parts { blank.parts ≡ L.parts }
    requires some { 0 < L.parts }
{
    let mut steps: Steps<L> = Steps::new(blank);
    let mut table: Table<u64, u64> = Table::new(rt.alloc());
    table.put(&1, 10, &mut steps).expect(rt, "memory");
    table.put(&2, 20, &mut steps).expect(rt, "memory");
    table.put(&3, 30, &mut steps).expect(rt, "memory");
    table.mark().expect(rt, "memory");
    table.remove(&2, &mut steps).expect(rt, "memory");
    let above = table.next(Some(&1), &mut steps).map(|entry| *entry.1);
    let from = table.seek(&2, &mut steps).map(|entry| *entry.1);
    let value = table.get(&2, &mut steps).copied();
    let len = table.len();
    table.forget();
    table.settle();
    (len, above, from, value, table.touched().len())
}

#[test]
fn a_key_that_is_taken_out_is_not_seen(rt: HostRuntime) {
    let seen = seen_without_2::<Brand>(&rt, Blank::new(1));
    holds(&rt, "2 is gone", seen == (2, Some(30), Some(30), None, 0));
}

/// The value of 1, which had 10 before: under the first of two marks it is taken out, under the second it is
/// put again. It is read once gone back to the second mark, and once gone back to the first.
fn values_of_1<L: Ledger>(
    rt: &(impl Abort + AllocGlobal),
    blank: Blank,
) -> (Option<u64>, Option<u64>, Option<u64>)
    requires name { blank.name ≡ L.name }
    requires parts { blank.parts ≡ L.parts }
    requires some { 0 < L.parts }
{
    let mut steps: Steps<L> = Steps::new(blank);
    let mut table: Table<u64, u64> = Table::new(rt.alloc());
    table.put(&1, 10, &mut steps).expect(rt, "memory");
    table.mark().expect(rt, "memory");
    let taken = table.remove(&1, &mut steps).expect(rt, "memory");
    table.mark().expect(rt, "memory");
    table.put(&1, 11, &mut steps).expect(rt, "memory");
    table.back();
    let without = table.get(&1, &mut steps).copied();
    table.back();
    let with = table.get(&1, &mut steps).copied();
    (taken, without, with)
}

#[test]
fn a_key_that_was_put_again_goes_back(rt: HostRuntime) {
    let values = values_of_1::<Brand>(&rt, Blank::new(1));
    holds(
        &rt,
        "taken out, put again, gone back",
        values == (Some(10), None, Some(10)),
    );
}
