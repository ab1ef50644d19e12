//! Past rows of a store with a genesis and two blocks: the head and one balance. The bytes are those that
//! another implementation of the same rules wrote.

use base_io::Row;
use std::process::Abort;
use store_history::{PastFault, past};

const BALANCE: &str = "101111111111111111111111111111111111111111057561746f6d";

const HEAD_AT_0: &str = "020000000000000000000000000000000017a6101701650000";

const HEAD_AT_1: &str = "020000000000000001000000000000000017a610182b6af200";

const HEAD_AT_2: &str = "020000000000000002000000000000000017a610195570e400";

/// A store at height 2, of which the history tells from height 0 on.
const ROWS: [(&str, &str); 6] = [
    ("01", HEAD_AT_2),
    (BALANCE, "0000000000000000000000000000037a"),
    (
        "60000000000000000101",
        "01020000000000000000000000000000000017a6101701650000",
    ),
    (
        "600000000000000001101111111111111111111111111111111111111111057561746f6d",
        "01000000000000000000000000000003e8",
    ),
    (
        "60000000000000000201",
        "01020000000000000001000000000000000017a610182b6af200",
    ),
    ("61", "0000000000000000"),
];

fn row(rt: &(impl Abort + AllocGlobal), key: &str, value: &str) -> Row {
    Row {
        key: hex::decode(rt.alloc(), key).expect(rt, "hexadecimal digits"),
        value: hex::decode(rt.alloc(), value).expect(rt, "hexadecimal digits"),
    }
}

/// These rows, and behind them one more.
fn rows_and(rt: &(impl Abort + AllocGlobal), listed: &[(&str, &str)], last: Row) -> Vec<Row> {
    let mut rows = Vec::new(rt.alloc());
    for (key, value) in listed {
        rows.push(row(rt, key, value)).expect(rt, "memory");
    }
    rows.push(last).expect(rt, "memory");
    rows
}

/// Whether a row is this one.
fn is(row: &Row, wanted: &Row) -> bool {
    row.key.as_slice() == wanted.key.as_slice() && row.value.as_slice() == wanted.value.as_slice()
}

/// Whether the past rows at a height are a head and a balance of these values.
fn had(rt: &(impl Abort + AllocGlobal), height: u64, head: &str, balance: &str) -> bool {
    let rows = rows_and(rt, &ROWS[..5], row(rt, "61", "0000000000000000"));
    let past = past(rt.alloc(), &rows, height).expect(rt, "past rows");
    past.len() == 2
        && is(&past[0], &row(rt, "01", head))
        && is(&past[1], &row(rt, BALANCE, balance))
}

#[test]
fn past_rows_are_those_of_their_height(rt: HostRuntime) {
    assert!(rt; had(&rt, 0, HEAD_AT_0, "000000000000000000000000000003e8"));
    assert!(rt; had(&rt, 1, HEAD_AT_1, "0000000000000000000000000000037a"));
    assert!(rt; had(&rt, 2, HEAD_AT_2, "0000000000000000000000000000037a"));
}

#[test]
fn a_history_tells_of_no_other_height(rt: HostRuntime) {
    let rows = rows_and(&rt, &ROWS[..5], row(&rt, "61", "0000000000000000"));
    assert!(rt; matches!(past(rt.alloc(), &rows, 3), Err(PastFault::NoPast(0, 2))));
    let late = rows_and(&rt, &ROWS[..2], row(&rt, "61", "0000000000000001"));
    assert!(rt; matches!(past(rt.alloc(), &late, 0), Err(PastFault::NoPast(1, 2))));
}

#[test]
fn a_history_out_of_form_is_refused(rt: HostRuntime) {
    let kept = [
        // Above the last height, at the base, without a whole height, of a row that keeps something.
        ("60000000000000000301", "00"),
        ("60000000000000000001", "00"),
        ("6000000000000002", "00"),
        ("6000000000000000026001", "00"),
        // Of no value, of another first byte, of none and a byte.
        ("60000000000000000201", ""),
        ("60000000000000000201", "02"),
        ("60000000000000000201", "0000"),
    ];
    for (key, value) in kept {
        let rows = rows_and(
            &rt,
            &[("01", HEAD_AT_2), (key, value)],
            row(&rt, "61", "0000000000000000"),
        );
        assert!(rt; matches!(past(rt.alloc(), &rows, 2), Err(PastFault::BadHistory)));
    }
}

#[test]
fn a_base_out_of_form_is_refused(rt: HostRuntime) {
    let last = [
        // Of nine bytes, of a longer key, above the last height, and none beside what is kept.
        ("61", "000000000000000000"),
        ("6100", "0000000000000000"),
        ("61", "0000000000000003"),
        ("60000000000000000201", "00"),
    ];
    for (key, value) in last {
        let rows = rows_and(&rt, &[("01", HEAD_AT_2)], row(&rt, key, value));
        assert!(rt; matches!(past(rt.alloc(), &rows, 2), Err(PastFault::BadHistory)));
    }
    let headless = rows_and(&rt, &[], row(&rt, "61", "0000000000000000"));
    assert!(rt; matches!(past(rt.alloc(), &headless, 0), Err(PastFault::BadHistory)));
}
