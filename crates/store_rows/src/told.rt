//! What rows tell before they are read.

ghost use Rattle.std.specs.Prelude.{◌≡◌, IfSome, Some, map};
ghost use Rattle.base_io.specs.Changes.{pair_of};
ghost use Rattle.base_roles.specs.declared.items.Item.{Item};
ghost use Rattle.store_rows.specs.declared.format.Format.{Format};
ghost use Rattle.store_rows.specs.Reading.{IsRead, length_at};
ghost use Rattle.store_rows.specs.Rows.{row_in};
ghost use Rattle.store_rows.specs.Spelled.{HasRow};
ghost use Rattle.store_rows.specs.Told.{format_in, format_told, is_head_key, window_of};

use crate::fault::RowFault;
use crate::fields::{byte_at, u32_at};
use crate::format::Format;
use crate::front::Unread;
use crate::kind::Kind;
use crate::values::info_at;
use base_io::Row;

fn format_in(value: &[u8]) -> Option<Format>
    ensures { result ≡ format_in value.now }
{
    match value {
        [1, ..] => Some(Format::First),
        [2, ..] => Some(Format::Second),
        _ => None,
    }
}

fn is_head_key(key: &[u8]) -> bool
    ensures { result ≡ is_head_key key.now }
{
    match key {
        [byte] => *byte == Kind::Head.prefix(),
        _ => false,
    }
}

/// The format of the rows of a chain, as the row of the last height and time tells it; none where
/// there is no such row, or its number is that of no format.
pub fn format_of(rows: &[Row]) -> Option<Format>
    ensures { result ≡ format_told (map pair_of rows.now) }
{
    let mut left = rows;
    'rows: while let [row, others @ ..] = left {
        if is_head_key(row.key.as_slice()) {
            return format_in(row.value.as_slice());
        }
        left = others;
    }
    None
}

/// The length of the ring of a signing record, from the fields in front of it.
#[tactic(auto, unfolding(crate::specs::Reading::length_at))]
fn length_at(key: &[u8], value: &[u8]) -> Result<u32, RowFault>
    ensures { IsRead (λ n. n) result (length_at key.now value.now) }
{
    let mut key = Unread { left: key };
    let prefix = byte_at(&mut key)?;
    if prefix != Kind::Signing.prefix() {
        return Err(RowFault::BadRow);
    }
    let mut value = Unread { left: value };
    let _info = info_at(&mut value)?;
    u32_at(&mut value)
}

/// How many places the window of a signing record has, as its row tells in either format; none
/// where the row is that of another item. It takes no memory.
pub fn window_of(row: &Row) -> Option<u32>
    ensures { (f : Format) (item : Item) → HasRow item → row_in f item ≡ pair_of row.now
        → IfSome result (λ n. window_of item ≡ Some n) }
{
    match length_at(row.key.as_slice(), row.value.as_slice()) {
        Ok(count) => Some(count),
        Err(_) => None,
    }
}
