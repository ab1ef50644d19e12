//! The keeper over a database: the order of its rows, another schema, and files that are opened again.

ghost use Rattle.std.specs.Prelude.{IfOk, IsTrue};
ghost use Rattle.base_io.specs.Rows.{HasDistinctKeys};

use crate::checked::commit;
use base_io::{Change, KeepFault, Keeper, Row};
use sqlite::{Connection, FileStore, Files, Options};
use sqlite_disk::{Disk, Memory};
use std::alloc::{AllocError, Global};
use std::process::Abort;
use store_sqlite::SqlKeeper;

fn one_put(alloc: Global, key: &[u8], value: &[u8]) -> Result<Vec<Change>, AllocError>
    ensures { IfOk result (λ changes. HasDistinctKeys changes.items) }
{
    let row = Row {
        key: Vec::from_slice(alloc, key)?,
        value: Vec::from_slice(alloc, value)?,
    };
    Ok(vec![in alloc; Change::Put(row)]?)
}

fn one_removal(alloc: Global, key: &[u8]) -> Result<Vec<Change>, AllocError>
    ensures { IfOk result (λ changes. HasDistinctKeys changes.items) }
{
    Ok(vec![in alloc; Change::Remove(Vec::from_slice(alloc, key)?)]?)
}

fn put(rt: &(impl Abort + AllocGlobal), key: &[u8], value: &[u8]) -> Vec<Change>
    ensures { HasDistinctKeys result.items }
{
    one_put(rt.alloc(), key, value).expect(rt, "memory")
}

fn removal(rt: &(impl Abort + AllocGlobal), key: &[u8]) -> Vec<Change>
    ensures { HasDistinctKeys result.items }
{
    one_removal(rt.alloc(), key).expect(rt, "memory")
}

/// Whether the rows have these keys, in this order.
fn have_keys(rows: &[Row], keys: &[&[u8]]) -> bool {
    rows.len() == keys.len()
        && rows
            .iter()
            .zip(keys)
            .all(|(row, key)| row.key.as_slice() == *key)
}

#[test]
fn rows_stand_in_the_order_of_their_keys(rt: HostRuntime) {
    let puts: [(&[u8], &[u8], bool); 5] = [
        (b"\x10bb", b"2", true),
        (b"\x10", b"1", true),
        (b"\xff", b"", true),
        (b"\x10bb", b"2", false),
        (b"\x10bb", b"3", true),
    ];
    let conn = Connection::open_in_memory(rt.alloc()).expect(&rt, "a database");
    let mut keeper = SqlKeeper::adopt(rt.alloc(), conn).expect(&rt, "a keeper");
    for (key, value, changes) in puts {
        let made = commit(&rt, &mut keeper, &put(&rt, key, value));
        assert_eq!(rt; made, changes);
    }
    let rows = keeper.load().expect(&rt, "three rows");
    assert!(rt;
        have_keys(
            &rows,
            &[b"\x10".as_slice(), b"\x10bb".as_slice(), b"\xff".as_slice()]
        )
    );
    assert!(rt; commit(&rt, &mut keeper, &removal(&rt, b"\x10bb")));
    assert!(rt; !commit(&rt, &mut keeper, &removal(&rt, b"\x10bb")));
    let rows = keeper.load().expect(&rt, "two rows");
    assert!(rt; have_keys(&rows, &[b"\x10".as_slice(), b"\xff".as_slice()]));
}

#[test]
fn another_schema_is_refused(rt: HostRuntime) {
    let statements = [
        "CREATE TABLE other (a INTEGER)",
        "CREATE TABLE kept (name BLOB NOT NULL PRIMARY KEY, body BLOB) STRICT",
        "CREATE TABLE kept (name TEXT NOT NULL PRIMARY KEY, body BLOB NOT NULL) STRICT",
        "CREATE TABLE kept (name BLOB NOT NULL, body BLOB NOT NULL) STRICT",
    ];
    for statement in statements {
        let mut conn = Connection::open_in_memory(rt.alloc()).expect(&rt, "a database");
        conn.execute_batch(statement).expect(&rt, "a table");
        assert!(rt; matches!(SqlKeeper::adopt(rt.alloc(), conn), Err(KeepFault::Failed)));
    }
}

fn opened<D: Disk + Drop>(
    rt: &(impl Abort + AllocGlobal),
    files: Files<D>,
    seed: u64,
) -> SqlKeeper<FileStore<D>>
    requires log { IsTrue (D.Disk.is_usable files.log) }
    requires db { IsTrue (D.Disk.is_usable files.db) }
{
    let conn = Connection::open_files(rt.alloc(), files, Options::new(seed))
        .ok()
        .expect(rt, "files of a store");
    SqlKeeper::adopt(rt.alloc(), conn).expect(rt, "a keeper")
}

fn closed<D: Disk + Drop>(rt: &impl Abort, keeper: SqlKeeper<FileStore<D>>) -> Files<D>
    ensures log { IsTrue (D.Disk.is_usable result.log) }
    ensures db { IsTrue (D.Disk.is_usable result.db) }
{
    match keeper.into_connection().close_files() {
        Ok(files) => files,
        Err(_) => panic!(rt; "closed files"),
    }
}

#[test]
fn files_are_opened_again(rt: HostRuntime) {
    let files = Files {
        log: Memory::new(rt.alloc()),
        db: Memory::new(rt.alloc()),
    };
    let mut keeper = opened(&rt, files, 1);
    assert!(rt; commit(&rt, &mut keeper, &put(&rt, b"\x01", b"head")));
    let mut again = opened(&rt, closed(&rt, keeper), 2);
    let rows = again.load().expect(&rt, "one row");
    assert!(rt; have_keys(&rows, &[b"\x01".as_slice()]));
}
