//! The places of a window of votes in the second format: how many there are, and the missed ones.

ghost use Rattle.std.specs.Prelude.{◌≡◌, ◌<◌, ◌≤◌, ◌+◌, ◌-◌, ◌^◌, ◌++◌, ◌∷◌, [], false, length, replicate, true, Ok, IfErr, IfOk, OnOk};
ghost use Rattle.std.specs.Int.{w32};
ghost use Rattle.std.specs.List.{flat_map, splice};
ghost use Rattle.store_rows.specs.Fields.{four_bytes, missed_from, missed_of, missed_ring_bytes};
ghost use Rattle.store_rows.specs.Reading.{Gives, are_places, comes_next, each_at, missed_ring_at, number_at, places_with};

use crate::fault::RowFault;
use crate::fields::u32_at;
use crate::front::Unread;
use crate::writing::push_len;
use base_roles::Listed;
use std::alloc::{AllocError, Global};

/// So many numbers of places.
fn each_place(alloc: Global, count: u32, bytes: &mut Unread<'_>) -> Result<Vec<u32>, RowFault>
    ensures { Gives (λ x. (x.items, bytes.new.left.now)) result
        (each_at (number_at w32) count bytes.old.left.now) }
{
    let mut places = Vec::new(alloc);
    for _ in 0..count {
        let place = u32_at(bytes)?;
        places.push(place)?;
    }
    Ok(places)
}

/// Whether the place is none before the least, and is below the end.
fn comes_next(least: u64, end: u32, place: u32) -> bool
    ensures { result ≡ comes_next least end place }
{
    least <= u64::from(place) && place < end
}

/// Whether the places ascend, each above the one before it, and are below the end.
fn are_places(end: u32, places: &[u32]) -> bool
    ensures { result ≡ are_places 0 end places.now }
{
    let mut least = 0;
    let mut left = places;
    'places: while let [place, others @ ..] = left {
        if !comes_next(least, end, *place) {
            return false;
        }
        least = u64::from(*place) + 1;
        left = others;
    }
    true
}

/// These places, where they ascend and are below the end. It takes no memory.
fn judged(end: u32, places: Vec<u32>) -> Result<Vec<u32>, RowFault>
    ensures same { IfOk result (λ same. same.items ≡ places.items) }
    ensures right { OnOk result (are_places 0 end places.items ≡ true) }
    ensures wrong { IfErr result (λ fault. (fault ≡ RowFault.BadRow)
        × (are_places 0 end places.items ≡ false)) }
{
    if are_places(end, &places) {
        Ok(places)
    } else {
        Err(RowFault::BadRow)
    }
}

/// Appends so many signed places.
fn push_signed(ring: &mut Vec<bool>, count: usize) -> Result<(), AllocError>
    ensures { OnOk result (ring.new.items ≡ ring.old.items ++ replicate count false) }
{
    for _ in 0..count {
        ring.push(false)?;
    }
    Ok(())
}

/// Appends the signed places before this one.
fn push_before(ring: &mut Vec<bool>, place: usize) -> Result<(), AllocError>
    ensures { OnOk result (ring.new.items
        ≡ ring.old.items ++ replicate (place - length ring.old.items) false) }
{
    let count = place.saturating_sub(ring.len());
    push_signed(ring, count)
}

/// So many places, of which these were missed.
fn places_with(alloc: Global, end: u32, missed: &[u32]) -> Result<Vec<bool>, RowFault>
    requires { are_places 0 end missed.now ≡ true }
    ensures { Gives (λ ring. ring.items) result (Ok (places_with 0 end missed.now)) }
{
    let mut ring = Vec::new(alloc);
    for place in missed {
        push_before(&mut ring, *place as usize)?;
        ring.push(true)?;
    }
    push_before(&mut ring, end as usize)?;
    Ok(ring)
}

/// A ring of places. Its length takes no memory before the missed places were judged.
#[tactic(auto, unfolding(crate::specs::Reading::missed_ring_at))]
pub(crate) fn missed_ring_at(
    alloc: Global,
    bytes: &mut Unread<'_>,
) -> Result<Listed<bool>, RowFault>
    ensures { Gives (λ x. (x, bytes.new.left.now)) result (missed_ring_at bytes.old.left.now) }
{
    let end = u32_at(bytes)?;
    let count = u32_at(bytes)?;
    let missed = judged(end, each_place(alloc, count, bytes)?)?;
    let ring = places_with(alloc, end, &missed)?;
    Ok(Listed::of(ring))
}

/// One, where the place was missed.
fn count_of(missed: bool) -> usize
    ensures { result ≡ length (missed_from 0 (missed ∷ [])) }
{
    if missed { 1 } else { 0 }
}

/// How many places were missed.
fn missed_count(places: &[bool]) -> usize
    requires { length places.now < 2 ^ 32 }
    ensures { result ≡ length (missed_of places.now) }
{
    let mut count = 0;
    for missed in places {
        count += count_of(*missed);
    }
    count
}

/// Appends the number of a place, if it was missed.
fn push_if_missed(out: &mut Vec<u8>, place: usize, missed: bool) -> Result<(), AllocError>
    requires { place < 2 ^ 32 }
    ensures { OnOk result (out.new.items
        ≡ out.old.items ++ flat_map four_bytes (missed_from place (missed ∷ []))) }
{
    if missed { push_len(out, place) } else { Ok(()) }
}

/// Appends the number of each missed place, the first place being of this number.
fn push_missed_from(out: &mut Vec<u8>, first: usize, places: &[bool]) -> Result<(), AllocError>
    requires { first + length places.now ≤ 2 ^ 32 }
    ensures { OnOk result (out.new.items
        ≡ out.old.items ++ flat_map four_bytes (missed_from first places.now)) }
{
    for (place, missed) in places.iter().enumerate() {
        push_if_missed(out, first + place, *missed)?;
    }
    Ok(())
}

/// The same of sixteen places, of which often none was missed.
#[tactic(auto, using(crate::proofs::MissedLemmas::none_written))]
fn push_missed_sixteen(
    out: &mut Vec<u8>,
    first: usize,
    places: &[bool; 16],
) -> Result<(), AllocError>
    requires { first + 16 ≤ 2 ^ 32 }
    ensures { OnOk result (out.new.items
        ≡ out.old.items ++ flat_map four_bytes (missed_from first places.now)) }
{
    if missed_count(places) == 0 {
        return Ok(());
    }
    push_missed_from(out, first, places)
}

/// Appends the number of each missed place.
fn push_each_missed(out: &mut Vec<u8>, places: &[bool]) -> Result<(), AllocError>
    requires { length places.now < 2 ^ 32 }
    ensures { OnOk result (out.new.items
        ≡ out.old.items ++ flat_map four_bytes (missed_of places.now)) }
{
    let mut first = 0;
    let mut left = places;
    'left: while let Some((sixteen, others)) = left.split_first_chunk::<16>() {
        push_missed_sixteen(out, first, sixteen)?;
        first += 16;
        left = others;
    }
    push_missed_from(out, first, left)
}

/// Writes a number of elements over the four bytes from this place on.
#[tactic(auto, unfolding(crate::specs::Fields::four_bytes))]
fn set_len(out: &mut [u8], at: usize, len: usize)
    requires within { at + 4 ≤ length out.old }
    requires len { len < 2 ^ 32 }
    ensures { out.new ≡ splice out.old at (at + 4) (four_bytes len) }
{
    out[at..at + 4].copy_from_slice(&(len as u32).to_be_bytes());
}

/// Appends a ring of places. Its missed places are counted by the bytes that they took, so each place is
/// looked at once.
pub(crate) fn push_missed_ring(out: &mut Vec<u8>, places: &[bool]) -> Result<(), AllocError>
    requires { length places.now < 2 ^ 32 }
    ensures { OnOk result (out.new.items ≡ out.old.items ++ missed_ring_bytes places.now) }
{
    push_len(out, places.len())?;
    let room = out.len();
    push_len(out, 0)?;
    let from = out.len();
    push_each_missed(out, places)?;
    let count = (out.len() - from) / 4;
    set_len(out.as_mut_slice(), room, count);
    Ok(())
}
