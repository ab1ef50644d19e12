//! Keepers in memory, also one that fails at listed calls, and one that keeps nothing.

ghost use Rattle.std.specs.Prelude.{IfOk};
ghost use Rattle.base_io.specs.Rows.{HasDistinctKeys};

use base_io::{Change, KeepFault, Keeper, MemKeeper, NoKeeper, Row, SureKeeper};
use std::alloc::{AllocError, Global};
use std::process::Abort;

fn row(alloc: Global, key: u8, value: &[u8]) -> Result<Row, AllocError> {
    Ok(Row {
        key: Vec::from_slice(alloc, &[key])?,
        value: Vec::from_slice(alloc, value)?,
    })
}

/// A change that puts a value, where there is memory.
fn one_put(alloc: Global, key: u8, value: &[u8]) -> Result<Vec<Change>, AllocError>
    ensures { IfOk result (λ changes. HasDistinctKeys changes.items) }
{
    Ok(vec![in alloc; Change::Put(row(alloc, key, value)?)]?)
}

/// A change that removes a value, where there is memory.
fn one_removal(alloc: Global, key: u8) -> Result<Vec<Change>, AllocError>
    ensures { IfOk result (λ changes. HasDistinctKeys changes.items) }
{
    Ok(vec![in alloc; Change::Remove(Vec::from_slice(alloc, &[key])?)]?)
}

fn put(rt: &(impl Abort + AllocGlobal), key: u8, value: &[u8]) -> Vec<Change>
    ensures { HasDistinctKeys result.items }
{
    one_put(rt.alloc(), key, value).expect(rt, "memory")
}

fn removal(rt: &(impl Abort + AllocGlobal), key: u8) -> Vec<Change>
    ensures { HasDistinctKeys result.items }
{
    one_removal(rt.alloc(), key).expect(rt, "memory")
}

/// Whether the rows are these, each with a key of one byte and a value of one.
fn are(rows: &[Row], wanted: &[(u8, u8)]) -> bool {
    rows.len() == wanted.len()
        && rows.iter().zip(wanted).all(|(row, pair)| {
            row.key.as_slice() == [pair.0].as_slice() && row.value.as_slice() == [pair.1].as_slice()
        })
}

#[test]
fn a_sure_keeper_keeps_its_rows_in_order(rt: HostRuntime) {
    let mut keeper = SureKeeper::new(rt.alloc(), Vec::new(rt.alloc()));
    assert!(rt; keeper.keeps_rows());
    assert_eq!(rt; keeper.commit(&put(&rt, 5, &[50])), Ok(()));
    assert_eq!(rt; keeper.commit(&put(&rt, 3, &[30])), Ok(()));
    assert_eq!(rt; keeper.commit(&put(&rt, 9, &[90])), Ok(()));
    assert_eq!(rt; keeper.commit(&put(&rt, 5, &[51])), Ok(()));
    assert!(rt; are(keeper.rows(), &[(3, 30), (5, 51), (9, 90)]));
    assert_eq!(rt; keeper.commit(&removal(&rt, 5)), Ok(()));
    let rows = keeper.load().expect(&rt, "the rows");
    assert!(rt; are(&rows, &[(3, 30), (9, 90)]));
}

#[test]
fn a_keeper_in_memory_fails_at_the_listed_calls(rt: HostRuntime) {
    let failing = Vec::from_slice(rt.alloc(), &[1, 3]).expect(&rt, "memory");
    let mut keeper = MemKeeper::new(rt.alloc(), Vec::new(rt.alloc()), failing);
    assert!(rt; keeper.keeps_rows());
    assert_eq!(rt; keeper.commit(&put(&rt, 3, &[30])), Ok(()));
    assert_eq!(rt; keeper.commit(&put(&rt, 4, &[40])), Err(KeepFault::Failed));
    assert!(rt; are(keeper.rows(), &[(3, 30)]));
    assert!(rt; keeper.load().is_ok());
    assert!(rt; matches!(keeper.load(), Err(KeepFault::Failed)));
    let rows = keeper.load().expect(&rt, "the rows");
    assert!(rt; are(&rows, &[(3, 30)]));
}

#[test]
fn a_keeper_that_keeps_nothing_has_nothing_to_load(rt: HostRuntime) {
    let mut keeper = NoKeeper::new(rt.alloc());
    assert!(rt; !keeper.keeps_rows());
    let rows = keeper.load().expect(&rt, "no rows");
    assert!(rt; rows.is_empty());
    assert_eq!(rt; keeper.commit(&put(&rt, 3, &[30])), Ok(()));
    assert_eq!(rt; keeper.commit(&removal(&rt, 3)), Ok(()));
    assert_eq!(rt; keeper.commit(&put(&rt, 3, &[30])), Ok(()));
    let rows = keeper.load().expect(&rt, "no rows");
    assert!(rt; rows.is_empty());
}
