//! A keeper over a keeper: commits of a head and one row, what is seen after them, and what the keeper below
//! then tells of past heights.

ghost use Rattle.std.specs.Prelude.{◌≡◌, Some, IfOk};
ghost use Rattle.base_io.specs.Changes.{IsOrdinary};

use crate::checked::commit;
use crate::lending::commit_kept;
use base_io::{Change, Keeper, MemKeeper, Row, SureKeeper};
use std::alloc::{AllocError, Global};
use std::marker::Brand;
use std::process::Abort;
use store_history::{Loan, OpenFault, open, past, read_history};

fn row(alloc: Global, key: &[u8], value: &[u8]) -> Result<Row, AllocError>
    ensures key { IfOk result (λ it. it.key.items ≡ key.now) }
    ensures value { IfOk result (λ it. it.value.items ≡ value.now) }
{
    Ok(Row {
        key: Vec::from_slice(alloc, key)?,
        value: Vec::from_slice(alloc, value)?,
    })
}

/// Changes that put the head of a height and one row of this value.
fn head_and_row(alloc: Global, height: u8, value: u8) -> Result<Vec<Change>, AllocError>
    ensures { IfOk result (λ changes. IsOrdinary changes.items) }
{
    let head = row(alloc, &[0x01], &[0x02, 0, 0, 0, 0, 0, 0, 0, height])?;
    let other = row(alloc, &[0x20], &[value])?;
    Ok(vec![in alloc; Change::Put(head), Change::Put(other)]?)
}

fn changes_at(rt: &(impl Abort + AllocGlobal), height: u8, value: u8) -> Vec<Change>
    ensures { IsOrdinary result.items }
{
    head_and_row(rt.alloc(), height, value).expect(rt, "memory")
}

/// Whether the rows are the head of a height and one row of this value.
fn are(rows: &[Row], height: u8, value: u8) -> bool {
    rows.len() == 2
        && rows[0].key.as_slice() == [0x01].as_slice()
        && rows[0].value.as_slice() == [0x02, 0, 0, 0, 0, 0, 0, 0, height].as_slice()
        && rows[1].key.as_slice() == [0x20].as_slice()
        && rows[1].value.as_slice() == [value].as_slice()
}

fn had(rt: &(impl Abort + AllocGlobal), rows: &[Row], height: u8, value: u8) -> bool {
    let past = past(rt.alloc(), rows, u64::from(height)).expect(rt, "past rows");
    are(&past, height, value)
}

/// Commits at three heights to a keeper that keeps a history, and gives the keeper below back.
fn three_commits<'a, L: Loan>(
    rt: &(impl Abort + AllocGlobal),
    below: &'a mut SureKeeper,
) -> &'a mut SureKeeper
    requires lent { below.ghost_name ≡ L.name }
    requires rows { Some below.old ≡ L.rows }
{
    let mut keeper = open::<SureKeeper, L>(rt.alloc(), below).expect(rt, "a history");
    assert!(rt; keeper.keeps_rows());
    assert!(rt; commit(rt, &mut keeper, &changes_at(rt, 0, 7)));
    assert!(rt; commit(rt, &mut keeper, &changes_at(rt, 1, 8)));
    assert!(rt; commit(rt, &mut keeper, &changes_at(rt, 2, 9)));
    assert!(rt; are(&keeper.load().expect(rt, "the rows"), 2, 9));
    keeper.into_inner()
}

#[test]
fn what_commits_replace_is_told_of_past_heights(rt: HostRuntime) {
    let mut below = SureKeeper::new(rt.alloc(), Vec::new(rt.alloc()));
    let rows = three_commits::<Brand>(&rt, &mut below).rows();
    assert!(rt; rows.len() == 7);
    assert!(rt; had(&rt, rows, 0, 7));
    assert!(rt; had(&rt, rows, 1, 8));
    assert!(rt; had(&rt, rows, 2, 9));
}

#[test]
fn a_history_goes_on_where_it_stands(rt: HostRuntime) {
    let mut below = SureKeeper::new(rt.alloc(), Vec::new(rt.alloc()));
    let known = read_history(rt.alloc(), &mut below).expect(&rt, "a history");
    let changes = changes_at(&rt, 0, 7);
    let (first, below) = commit_kept::<Brand, SureKeeper>(&rt, &mut below, known, &changes);
    assert!(rt; first);
    let known = read_history(rt.alloc(), below).expect(&rt, "a history");
    let changes = changes_at(&rt, 1, 8);
    let (second, below) = commit_kept::<Brand, SureKeeper>(&rt, below, known, &changes);
    assert!(rt; second);
    assert!(rt; had(&rt, below.rows(), 0, 7));
}

#[test]
fn a_failed_load_reads_no_history(rt: HostRuntime) {
    let failing = Vec::from_slice(rt.alloc(), &[0]).expect(&rt, "memory");
    let mut below = MemKeeper::new(rt.alloc(), Vec::new(rt.alloc()), failing);
    let known = read_history(rt.alloc(), &mut below);
    assert!(rt; matches!(known, Err(OpenFault::Failed)));
}
