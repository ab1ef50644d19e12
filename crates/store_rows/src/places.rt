//! The places of a window of votes in the first format: eight in a byte, the first in the lowest bit.

ghost use Rattle.std.specs.Prelude.{◌≡◌, ◌≤◌, ◌<◌, ◌/◌, ◌^◌, ◌++◌, ◌==◌, false, length, true, IfErr, OnOk};
ghost use Rattle.store_rows.specs.Fields.{packed, packed_len, packed_ring_bytes, places_byte};
ghost use Rattle.store_rows.specs.Reading.{Gives, packed_ring_at, places_in, places_of};

use crate::fault::RowFault;
use crate::fields::{bytes_at, u32_at};
use crate::front::Unread;
use crate::writing::push_len;
use base_roles::Listed;
use std::alloc::{AllocError, Global};

/// Appends so many places of a byte, at most eight.
fn push_places(places: &mut Vec<bool>, count: usize, byte: u8) -> Result<(), AllocError>
    requires { count ≤ 8 }
    ensures { OnOk result (places.new.items ≡ places.old.items ++ places_in count byte) }
{
    let mut left = byte;
    'places: for _ in 0..count {
        places.push(left % 2 != 0)?;
        left /= 2;
    }
    Ok(())
}

/// Whether the byte has no bit behind so many places, at most eight.
fn is_clear_behind(count: usize, byte: u8) -> bool
    requires { count ≤ 8 }
    ensures { result ≡ ((byte / 2 ^ count) == 0) }
{
    (byte as u16) >> count == 0
}

/// Nothing, where the byte has no bit behind so many places, at most eight. It takes no memory.
fn ends_behind(count: usize, byte: u8) -> Result<(), RowFault>
    requires { count ≤ 8 }
    ensures clear { OnOk result (((byte / 2 ^ count) == 0) ≡ true) }
    ensures more { IfErr result (λ fault. (fault ≡ RowFault.BadRow)
        × (((byte / 2 ^ count) == 0) ≡ false)) }
{
    if is_clear_behind(count, byte) {
        Ok(())
    } else {
        Err(RowFault::BadRow)
    }
}

/// So many places. The bits behind the last are 0.
fn places_of(alloc: Global, count: usize, bytes: &[u8]) -> Result<Vec<bool>, RowFault>
    ensures { Gives (λ places. places.items) result (places_of count bytes.now) }
{
    let mut places = Vec::new(alloc);
    let mut left = count;
    'bytes: for byte in bytes {
        let here = left.min(8);
        ends_behind(here, *byte)?;
        push_places(&mut places, here, *byte)?;
        left -= here;
    }
    Ok(places)
}

/// A ring of places.
#[tactic(auto, unfolding(crate::specs::Reading::packed_ring_at))]
pub(crate) fn packed_ring_at(
    alloc: Global,
    bytes: &mut Unread<'_>,
) -> Result<Listed<bool>, RowFault>
    ensures { Gives (λ x. (x, bytes.new.left.now)) result (packed_ring_at bytes.old.left.now) }
{
    let count = u32_at(bytes)?;
    let count = count as usize;
    let packed = bytes_at(count.div_ceil(8), bytes)?;
    let places = places_of(alloc, count, packed)?;
    Ok(Listed::of(places))
}

/// The byte of at most eight places.
fn places_byte(places: &[bool]) -> u8
    requires { length places.now ≤ 8 }
    ensures value { result ≡ places_byte places.now }
    ensures below { result < 2 ^ length places.now }
{
    match places {
        [] => 0,
        [missed, others @ ..] => (if *missed { 1 } else { 0 }) + 2 * places_byte(others),
    }
}

/// Appends the places, packed.
fn push_packed(out: &mut Vec<u8>, places: &[bool]) -> Result<(), AllocError>
    requires { length places.now < 2 ^ 32 }
    ensures { OnOk result (out.new.items
        ≡ out.old.items ++ packed (packed_len (length places.now)) places.now) }
{
    let mut left = places;
    'packed: while !left.is_empty() {
        let (here, others) = left.split_at(left.len().min(8));
        out.push(places_byte(here))?;
        left = others;
    }
    Ok(())
}

/// Appends a ring of places.
pub(crate) fn push_packed_ring(out: &mut Vec<u8>, places: &[bool]) -> Result<(), AllocError>
    requires { length places.now < 2 ^ 32 }
    ensures { OnOk result (out.new.items ≡ out.old.items ++ packed_ring_bytes places.now) }
{
    push_len(out, places.len())?;
    push_packed(out, places)
}
