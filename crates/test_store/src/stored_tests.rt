//! Lists of items as rows, and changes of items as changes of rows.

use base_io::{Change, Row};
use base_roles::Item;
use base_types::{Addr, Moment};
use std::process::Abort;
use store_items::{changes_of, items_of, migrate};
use store_rows::{Format, RowFault};

fn user(rt: &impl Abort) -> Addr {
    Addr::of([0x33; 20]).expect(rt, "a user")
}

fn row(rt: &(impl Abort + AllocGlobal), key: &[u8], value: &[u8]) -> Row {
    Row {
        key: Vec::from_slice(rt.alloc(), key).expect(rt, "memory"),
        value: Vec::from_slice(rt.alloc(), value).expect(rt, "memory"),
    }
}

/// Height 7, five seconds after the year 2024 begins, in the first format.
const HEAD: &[u8] = b"\x01\0\0\0\0\0\0\0\x07\0\0\0\0\0\0\0\0\x17\xa6\x10\x18\x2b\x6a\xf2\0";

/// The same in the second format.
const SECOND_HEAD: &[u8] = b"\x02\0\0\0\0\0\0\0\x07\0\0\0\0\0\0\0\0\x17\xa6\x10\x18\x2b\x6a\xf2\0";

#[test]
fn changes_of_items_are_changes_of_rows(rt: HostRuntime) {
    let head = Item::Head {
        height: 7,
        time: Moment::of(1_704_067_205_000_000_000).expect(&rt, "a moment"),
    };
    let gone = Item::CurrentPeriod {
        operator: user(&rt),
        period: 3,
    };
    let changes = changes_of(rt.alloc(), &[(head, true), (gone, false)]).expect(&rt, "two changes");
    match changes.as_slice() {
        [Change::Put(row), Change::Remove(key)] => {
            assert!(rt; row.key.as_slice() == b"\x01".as_slice());
            assert!(rt; row.value.as_slice() == SECOND_HEAD);
            assert!(rt; key.as_slice() == b"\x5033333333333333333333".as_slice());
        }
        _ => rt.panic("a put and a removal"),
    }
}

#[test]
fn rows_are_items(rt: HostRuntime) {
    let rows = [row(&rt, b"\x01", HEAD), row(&rt, b"\x41", b"\0\0\0\0")];
    let items = items_of(rt.alloc(), Format::First, &rows).expect(&rt, "two items");
    assert!(rt;
        matches!(
            items.as_slice(),
            [Item::Head { height: 7, .. }, Item::Pool { .. }]
        )
    );
    let rows = [row(&rt, b"\xff", b"")];
    assert!(rt;
        matches!(
            items_of(rt.alloc(), Format::First, &rows),
            Err(RowFault::BadRow)
        )
    );
}

/// The key of a signing record.
const SIGNING: &[u8] = b"\x30PPPPPPPPPPPPPPPPPPPP";

/// What stands in front of the ring of a signing record: start 0, counted 5, missed 2, jailed until
/// 1970, not tombstoned.
const BEFORE_RING: &[u8] =
    b"\0\0\0\0\0\0\0\0\0\0\0\0\0\0\0\x05\0\0\0\0\0\0\0\x02\0\0\0\0\0\0\0\0\0\0\0\0\0\0\0\0\0";

/// The row of a signing record with this ring.
fn signing_row(rt: &(impl Abort + AllocGlobal), key: &[u8], ring: &[u8]) -> Row {
    let mut signing = row(rt, key, BEFORE_RING);
    signing.value.extend_from_slice(ring).expect(rt, "memory");
    signing
}

#[test]
fn rows_of_the_first_format_go_to_the_second(rt: HostRuntime) {
    let rows = [
        row(&rt, b"\x01", HEAD),
        signing_row(&rt, SIGNING, b"\0\0\0\x05\x0a"),
        signing_row(&rt, b"\x30QQQQQQQQQQQQQQQQQQQQ", b"\0\0\0\x1c\0\0\0\0"),
        row(&rt, b"\x41", b"\0\0\0\0"),
    ];
    let ring = b"\0\0\0\x05\0\0\0\x02\0\0\0\x01\0\0\0\x03";
    let second = signing_row(&rt, SIGNING, ring);
    match migrate(rt.alloc(), &rows)
        .expect(&rt, "two changes")
        .as_slice()
    {
        [Change::Put(head), Change::Put(signing)] => {
            assert!(rt; head.key.as_slice() == b"\x01".as_slice());
            assert!(rt; head.value.as_slice() == SECOND_HEAD);
            assert!(rt; signing.key.as_slice() == second.key.as_slice());
            assert!(rt; signing.value.as_slice() == second.value.as_slice());
        }
        _ => rt.panic("two puts"),
    }
}
