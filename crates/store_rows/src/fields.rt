//! Fields taken from the front of bytes.

ghost use Rattle.std.specs.Prelude.{◌≡◌};
ghost use Rattle.std.specs.Int.{w32, w64, w128};
ghost use Rattle.store_rows.specs.Reading.{IsRead, account_at, byte_at, bytes_at, decimal_at, denom_at, ends, format_at, moment_at, number_at, status_at, truth_at, user_at};

use crate::fault::RowFault;
use crate::format::Format;
use crate::front::Unread;
use base_decimals::Dec;
use base_types::{Account, Addr, BondStatus, ConsAddr, Denom, Moment};

/// Nothing, where nothing follows.
pub(crate) fn ends(bytes: &Unread<'_>) -> Result<(), RowFault>
    ensures { result ≡ ends bytes.now.left.now }
{
    if bytes.left.is_empty() {
        Ok(())
    } else {
        Err(RowFault::BadRow)
    }
}

pub(crate) fn byte_at(bytes: &mut Unread<'_>) -> Result<u8, RowFault>
    ensures { IsRead (λ x. (x, bytes.new.left.now)) result (byte_at bytes.old.left.now) }
{
    let left = bytes.left;
    match left {
        [] => Err(RowFault::BadRow),
        [first, rest @ ..] => {
            bytes.left = rest;
            Ok(*first)
        }
    }
}

pub(crate) fn bytes_at<'a>(count: usize, bytes: &mut Unread<'a>) -> Result<&'a [u8], RowFault>
    ensures { IsRead (λ x. (x.now, bytes.new.left.now)) result
        (bytes_at count bytes.old.left.now) }
{
    let left = bytes.left;
    if left.len() < count {
        return Err(RowFault::BadRow);
    }
    let (front, rest) = left.split_at(count);
    bytes.left = rest;
    Ok(front)
}

pub(crate) fn u32_at(bytes: &mut Unread<'_>) -> Result<u32, RowFault>
    ensures { IsRead (λ x. (x, bytes.new.left.now)) result (number_at w32 bytes.old.left.now) }
{
    let left = bytes.left;
    match left.split_first_chunk::<4>() {
        Some((front, rest)) => {
            bytes.left = rest;
            Ok(u32::from_be_bytes(*front))
        }
        None => Err(RowFault::BadRow),
    }
}

pub(crate) fn u64_at(bytes: &mut Unread<'_>) -> Result<u64, RowFault>
    ensures { IsRead (λ x. (x, bytes.new.left.now)) result (number_at w64 bytes.old.left.now) }
{
    let left = bytes.left;
    match left.split_first_chunk::<8>() {
        Some((front, rest)) => {
            bytes.left = rest;
            Ok(u64::from_be_bytes(*front))
        }
        None => Err(RowFault::BadRow),
    }
}

pub(crate) fn u128_at(bytes: &mut Unread<'_>) -> Result<u128, RowFault>
    ensures { IsRead (λ x. (x, bytes.new.left.now)) result (number_at w128 bytes.old.left.now) }
{
    let left = bytes.left;
    match left.split_first_chunk::<16>() {
        Some((front, rest)) => {
            bytes.left = rest;
            Ok(u128::from_be_bytes(*front))
        }
        None => Err(RowFault::BadRow),
    }
}

#[tactic(auto, unfolding(crate::specs::Reading::decimal_at))]
pub(crate) fn decimal_at(bytes: &mut Unread<'_>) -> Result<Dec, RowFault>
    ensures { IsRead (λ x. (x, bytes.new.left.now)) result (decimal_at bytes.old.left.now) }
{
    let raw = u128_at(bytes)?;
    match Dec::from_raw(raw) {
        Some(decimal) => Ok(decimal),
        None => Err(RowFault::BadRow),
    }
}

#[tactic(auto, unfolding(crate::specs::Reading::moment_at))]
pub(crate) fn moment_at(bytes: &mut Unread<'_>) -> Result<Moment, RowFault>
    ensures { IsRead (λ x. (x, bytes.new.left.now)) result (moment_at bytes.old.left.now) }
{
    let nanos = u128_at(bytes)?;
    match Moment::of(nanos) {
        Some(moment) => Ok(moment),
        None => Err(RowFault::BadRow),
    }
}

fn address_at(bytes: &mut Unread<'_>) -> Result<[u8; 20], RowFault>
    ensures { IsRead (λ x. (x, bytes.new.left.now)) result (bytes_at 20 bytes.old.left.now) }
{
    let left = bytes.left;
    match left.split_first_chunk::<20>() {
        Some((front, rest)) => {
            bytes.left = rest;
            Ok(*front)
        }
        None => Err(RowFault::BadRow),
    }
}

pub(crate) fn cons_at(bytes: &mut Unread<'_>) -> Result<ConsAddr, RowFault>
    ensures { IsRead (λ x. (x, bytes.new.left.now)) result (bytes_at 20 bytes.old.left.now) }
{
    let address = address_at(bytes)?;
    Ok(ConsAddr::of(address))
}

#[tactic(auto, unfolding(crate::specs::Reading::user_at))]
pub(crate) fn user_at(bytes: &mut Unread<'_>) -> Result<Addr, RowFault>
    ensures { IsRead (λ x. (x, bytes.new.left.now)) result (user_at bytes.old.left.now) }
{
    let address = address_at(bytes)?;
    match Addr::of(address) {
        Some(user) => Ok(user),
        None => Err(RowFault::BadRow),
    }
}

#[tactic(auto, unfolding(crate::specs::Reading::account_at))]
pub(crate) fn account_at(bytes: &mut Unread<'_>) -> Result<Account, RowFault>
    ensures { IsRead (λ x. (x, bytes.new.left.now)) result (account_at bytes.old.left.now) }
{
    let address = address_at(bytes)?;
    Ok(Account::of(address))
}

#[tactic(auto, unfolding(crate::specs::Reading::denom_at))]
pub(crate) fn denom_at(bytes: &mut Unread<'_>) -> Result<Denom, RowFault>
    ensures { IsRead (λ x. (x, bytes.new.left.now)) result (denom_at bytes.old.left.now) }
{
    let len = byte_at(bytes)?;
    let name = bytes_at(len as usize, bytes)?;
    match Denom::of(name) {
        Some(denom) => Ok(denom),
        None => Err(RowFault::BadRow),
    }
}

#[tactic(auto, unfolding(crate::specs::Reading::truth_at))]
pub(crate) fn truth_at(bytes: &mut Unread<'_>) -> Result<bool, RowFault>
    ensures { IsRead (λ x. (x, bytes.new.left.now)) result (truth_at bytes.old.left.now) }
{
    let left = bytes.left;
    match left {
        [] => Err(RowFault::BadRow),
        [0, rest @ ..] => {
            bytes.left = rest;
            Ok(false)
        }
        [1, rest @ ..] => {
            bytes.left = rest;
            Ok(true)
        }
        [_, ..] => Err(RowFault::BadRow),
    }
}

#[tactic(auto, unfolding(crate::specs::Reading::status_at))]
pub(crate) fn status_at(bytes: &mut Unread<'_>) -> Result<BondStatus, RowFault>
    ensures { IsRead (λ x. (x, bytes.new.left.now)) result (status_at bytes.old.left.now) }
{
    let left = bytes.left;
    match left {
        [] => Err(RowFault::BadRow),
        [0, rest @ ..] => {
            bytes.left = rest;
            Ok(BondStatus::Bonded)
        }
        [1, rest @ ..] => {
            bytes.left = rest;
            Ok(BondStatus::Unbonding)
        }
        [2, rest @ ..] => {
            bytes.left = rest;
            Ok(BondStatus::Unbonded)
        }
        [_, ..] => Err(RowFault::BadRow),
    }
}

/// Takes the byte that tells the number of this format.
pub(crate) fn format_at(format: Format, bytes: &mut Unread<'_>) -> Result<(), RowFault>
    ensures { IsRead (λ _. bytes.new.left.now) result (format_at format bytes.old.left.now) }
{
    let left = bytes.left;
    match left {
        [] => Err(RowFault::BadRow),
        [first, rest @ ..] => {
            if *first != format.number() {
                return Err(RowFault::BadRow);
            }
            bytes.left = rest;
            Ok(())
        }
    }
}
