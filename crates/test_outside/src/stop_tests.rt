//! Runs over a database whose files stop after some calls: what is left there, and how a run goes on from it.

ghost use Rattle.store_history.specs.Held.{TakesDistinct};

use crate::whole::{
    Fronts, KEPT, LINES, NEW, OLD, Start, WHOLE, are_behind, are_same, begun, command_behind,
    copied, input_behind, make_fronts, text_of, visible,
};
use base_io::{Keeper, Row, SureSink, SureSource};
use run_app::{Status, run};
use sqlite::{Connection, FileStore, Files, Options, params};
use sqlite_disk::{Crash, Disk, Fuse, Memory};
use std::process::Abort;
use store_sqlite::SqlKeeper;

/// A keeper over two files in memory that stop after so many calls.
type Stopping = SqlKeeper<FileStore<Fuse<Memory>>>;

/// More calls than are made.
const ALL: u64 = u64::MAX;

/// How often a stop is tried at most.
const TRIES: u64 = 2000;

/// Puts a row that does not stand into a store.
fn insert(rt: &impl Abort, conn: &mut Connection<FileStore<Memory>>, row: &Row) {
    let (name, body) = (row.key.as_slice(), row.value.as_slice());
    let text = "INSERT INTO kept (name, body) VALUES (?1, ?2)";
    let _one = conn.execute(text, params![name, body]).expect(rt, "a row");
}

/// The files of a store with these rows, closed.
fn files_of(rt: &(impl Abort + AllocGlobal), rows: &[Row]) -> Files<Memory> {
    let files = Files {
        log: Memory::new(rt.alloc()),
        db: Memory::new(rt.alloc()),
    };
    let conn = Connection::open_files(rt.alloc(), files, Options::new(1));
    let keeper = SqlKeeper::adopt(rt.alloc(), conn.ok().expect(rt, "new files"));
    let mut conn = keeper.expect(rt, "a keeper").into_connection();
    for row in rows {
        insert(rt, &mut conn, row);
    }
    conn.close_files().ok().expect(rt, "closed files")
}

/// A file of these bytes that stops after so many calls.
fn file_of(rt: &(impl Abort + AllocGlobal), bytes: &[u8], calls: u64) -> Fuse<Memory> {
    let mut file = Memory::new(rt.alloc());
    file.write_at(0, bytes).expect(rt, "memory");
    file.sync().expect(rt, "memory");
    Fuse::new(file, calls)
}

/// A keeper over these files, if they may be used and their calls suffice to open them.
fn opened(rt: &(impl Abort + AllocGlobal), files: Files<Fuse<Memory>>) -> Option<Stopping> {
    if !files.may_be_used() {
        return None;
    }
    match Connection::open_files(rt.alloc(), files, Options::new(2)) {
        Ok(conn) => SqlKeeper::adopt(rt.alloc(), conn).ok(),
        Err(_) => None,
    }
}

/// How a run ends that goes on behind the first lines, and what it writes.
fn driven<K: Keeper>(
    rt: &(impl Abort + AllocGlobal),
    fronts: &Fronts,
    first: u32,
    is_kept: bool,
    keeper: &mut K,
) -> (Status, Vec<u8>)
    requires { TakesDistinct (K.takes keeper.old) }
{
    let mut source = SureSource::new(input_behind(rt, fronts, first), 4096);
    let mut sink = SureSink::new(rt.alloc());
    let words = command_behind(rt, first, is_kept);
    let status = run(rt.alloc(), &words, &mut source, &mut sink, keeper);
    (status, copied(rt, sink.bytes()))
}

/// Of how many lines the rows are, from the last on. None, where they are those of no front of the lines.
fn lines_of(rt: &impl Abort, fronts: &Fronts, rows: &[Row]) -> Option<u32> {
    for before in 0..LINES + 1 {
        let lines = LINES.saturating_sub(before);
        if are_behind(rt, fronts, lines, rows) {
            return Some(lines);
        }
    }
    None
}

/// Whether a run behind these lines comes to the end of the whole run.
fn ends_whole<K: Keeper>(
    rt: &(impl Abort + AllocGlobal),
    fronts: &Fronts,
    lines: u32,
    is_kept: bool,
    keeper: &mut K,
) -> bool
    requires { TakesDistinct (K.takes keeper.old) }
{
    let before = text_of(rt, fronts, lines).len();
    let (status, rest) = driven(rt, fronts, lines, is_kept, keeper);
    status == Status::Done && text_of(rt, fronts, WHOLE).get(before..) == Some(rest.as_slice())
}

/// Of how many lines the rows are that a run left which wrote this: from the last on; or it left
/// those on which it began, and wrote nothing.
fn lines_left(
    rt: &(impl Abort + AllocGlobal),
    fronts: &Fronts,
    start: Start,
    rows: &[Row],
    written: &[u8],
) -> Option<u32> {
    match lines_of(rt, fronts, rows) {
        Some(lines) => Some(lines),
        None => {
            let (_, began) = begun(rt, fronts, start);
            if written.is_empty() && are_same(&began, rows) {
                Some(start.lines)
            } else {
                None
            }
        }
    }
}

/// Whether, in files that a stop left, the rows are those of a front of the lines that holds each line of whose text
/// something was written, and a run behind these lines comes to the end of the whole run.
fn goes_on(
    rt: &(impl Abort + AllocGlobal),
    fronts: &Fronts,
    start: Start,
    files: Files<Fuse<Memory>>,
    written: &[u8],
) -> bool {
    let mut keeper = opened(rt, files).expect(rt, "files of a store");
    let rows = visible(rt, &keeper.load().expect(rt, "the rows"));
    let lines = lines_left(rt, fronts, start, &rows, written).expect(rt, "rows of a front");
    let told = if lines == LINES { WHOLE } else { lines };
    let before = text_of(rt, fronts, start.lines).len();
    let text = text_of(rt, fronts, told).get(before..);
    let is_whole = ends_whole(rt, fronts, lines, start.is_kept, &mut keeper);
    let rows = visible(rt, &keeper.load().expect(rt, "the rows"));
    text.expect(rt, "lines from there on").starts_with(written)
        && is_whole
        && are_behind(rt, fronts, LINES, &rows)
}

/// Whether a run that begins on a copy of this store, whose files stop after so many calls, leaves
/// what it may, where nothing that was written is lost and where all is that was not synced; and
/// how it ended. None, where the calls do not suffice to open the files.
fn stops(
    rt: &(impl Abort + AllocGlobal),
    fronts: &Fronts,
    start: Start,
    store: &Files<Memory>,
    log_calls: u64,
    db_calls: u64,
) -> Option<(bool, Status)> {
    let files = Files {
        log: file_of(rt, store.log.bytes(), log_calls),
        db: file_of(rt, store.db.bytes(), db_calls),
    };
    let mut keeper = opened(rt, files)?;
    let (status, written) = driven(rt, fronts, start.lines, start.is_kept, &mut keeper);
    let mut lost = keeper.into_connection().into_store().close();
    let kept = Files {
        log: file_of(rt, lost.log.inner().bytes(), ALL),
        db: file_of(rt, lost.db.inner().bytes(), ALL),
    };
    lost.log.crash();
    lost.db.crash();
    Some((
        goes_on(rt, fronts, start, kept, &written) && goes_on(rt, fronts, start, lost, &written),
        status,
    ))
}

/// Whether a run that begins so leaves what it may where the files stop at each call in turn: those
/// of the log, or those of the database file.
fn loses_nothing(rt: &(impl Abort + AllocGlobal), start: Start, is_log: bool) -> bool {
    let fronts = make_fronts(rt);
    let (_, began) = begun(rt, &fronts, start);
    let store = files_of(rt, &began);
    for calls in 0..TRIES {
        let (log, db) = if is_log { (calls, ALL) } else { (ALL, calls) };
        match stops(rt, &fronts, start, &store, log, db) {
            None => {}
            Some((false, _)) => return false,
            Some((true, Status::Done)) => return true,
            Some((true, status)) => {
                if status != Status::KeepFault {
                    return false;
                }
            }
        }
    }
    panic!(rt; "the calls never suffice")
}

#[test]
fn a_stop_at_each_call_of_the_log_loses_nothing(rt: HostRuntime) {
    for start in [NEW, OLD, KEPT] {
        assert!(rt; loses_nothing(&rt, start, true));
    }
}

#[test]
fn a_stop_at_each_call_of_the_database_file_loses_nothing(rt: HostRuntime) {
    for start in [NEW, OLD, KEPT] {
        assert!(rt; loses_nothing(&rt, start, false));
    }
}
