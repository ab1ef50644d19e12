//! Commits of changes of which each is tried first: whether it changes the rows.

ghost use Rattle.std.specs.Prelude.{◌≡◌, map, IsTrue};
ghost use Rattle.std.specs.List.{AllByRecursion};
ghost use Rattle.std.specs.Option.{option_map};
ghost use Rattle.base_io.specs.Changes.{pair_of, value_of, ChangesRows};

use base_io::{Change, Keeper, Row};
use std::cmp::Ordering;
use std::process::Abort;

fn value_of<'a>(rows: &'a [Row], key: &[u8]) -> Option<&'a [u8]>
    ensures { option_map (λ v. v.now) result ≡ value_of key.now (map pair_of rows.now) }
{
    match rows {
        [] => None,
        [row, others @ ..] => match row.key.as_slice().cmp(key) {
            Ordering::Less => value_of(others, key),
            Ordering::Equal => Some(row.value.as_slice()),
            Ordering::Greater => None,
        },
    }
}

fn changes_rows(rows: &[Row], change: &Change) -> bool
    ensures { IsTrue result → ChangesRows (map pair_of rows.now) change.now }
{
    match change {
        Change::Put(row) => match value_of(rows, row.key.as_slice()) {
            Some(value) => value != row.value.as_slice(),
            None => true,
        },
        Change::Remove(key) => value_of(rows, key.as_slice()).is_some(),
    }
}

fn all_change_rows(rows: &[Row], changes: &[Change]) -> bool
    ensures { IsTrue result → AllByRecursion (ChangesRows (map pair_of rows.now)) changes.now }
{
    match changes {
        [] => true,
        [change, others @ ..] => changes_rows(rows, change) && all_change_rows(rows, others),
    }
}

/// Commits the changes, where each of them changes the rows, and answers whether it did.
pub(crate) fn commit<K: Keeper>(rt: &impl Abort, keeper: &mut K, changes: &[Change]) -> bool
    requires { K.takes keeper.old changes.now }
{
    let rows = keeper.load().expect(rt, "the rows");
    let all_change = all_change_rows(&rows, changes);
    if all_change {
        keeper.commit(changes).expect(rt, "a commit");
    }
    all_change
}
