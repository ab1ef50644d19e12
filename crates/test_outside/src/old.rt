//! Rows of the first format, as an earlier program left them.

ghost use Rattle.std.specs.Prelude.{◌≡◌, map, IsTrue};
ghost use Rattle.std.specs.List.{AllByRecursion};
ghost use Rattle.std.specs.declared.cmp.Ordering.TheVariants.{Less};
ghost use Rattle.base_io.specs.Changes.{pair_of, Rises};
ghost use Rattle.base_io.specs.Rows.{key_cmp};

use crate::whole::put;
use base_io::Row;
use std::cmp::Ordering;
use std::process::Abort;
use store_rows::{Format, decode, encode};

/// Whether the key is below those of all rows.
fn is_below(key: &[u8], rows: &[Row]) -> bool
    ensures { IsTrue result
        → AllByRecursion (λ q. key_cmp key.now q.0 ≡ Less) (map pair_of rows.now) }
{
    match rows {
        [] => true,
        [row, others @ ..] => match key.cmp(row.key.as_slice()) {
            Ordering::Less => is_below(key, others),
            Ordering::Equal => false,
            Ordering::Greater => false,
        },
    }
}

/// Whether the keys rise.
fn rise(rows: &[Row]) -> bool
    ensures { IsTrue result → Rises (map pair_of rows.now) }
{
    match rows {
        [] => true,
        [row, others @ ..] => is_below(row.key.as_slice(), others) && rise(others),
    }
}

/// The rows in the first format, of the items that have these in the second.
pub(crate) fn old_rows(rt: &(impl Abort + AllocGlobal), rows: &[Row]) -> Vec<Row>
    ensures { Rises (map pair_of result.items) }
{
    let mut old = Vec::new(rt.alloc());
    for row in rows {
        let item = decode(rt.alloc(), Format::Second, row).expect(rt, "an item");
        let first = encode(rt.alloc(), Format::First, &item).expect(rt, "its row");
        put(rt, &mut old, first);
    }
    if !rise(&old) {
        panic!(rt; "the keys are those of before");
    }
    old
}
