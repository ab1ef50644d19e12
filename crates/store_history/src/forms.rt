//! The forms of the rows that a history has for itself.

ghost use Rattle.std.specs.Prelude.{◌≡◌, ◌↔◌, ◌^◌, ◌<◌, ◌≤◌, ◌++◌, ℕ, List, length, map, option_map, IsSomeAnd, IsTrue, MatchOption};
ghost use Rattle.std.specs.List.{AllByRecursion};
ghost use Rattle.base_io.specs.Changes.{pair_of};
ghost use Rattle.store_history.specs.History.{base_in, eight_bytes, height_in, is_visible, kept_key, kept_value, number_at, was, IsBase, IsFormed, IsKept};

use base_io::Row;

/// The key of the head, whose value names the last height.
pub(crate) const HEAD: [u8; 1] = [0x01];

/// The key of the row with the base.
pub(crate) const BASE: [u8; 1] = [0x61];

/// The first byte of the key of a row that keeps what a visible row was.
pub(crate) const KEPT: u8 = 0x60;

/// Whether a key is of none of the rows that a history has for itself.
pub(crate) fn is_visible(key: &[u8]) -> bool
    ensures { result ≡ is_visible key.now }
{
    match key {
        [] => true,
        [first, ..] => !(*first == 0x60 || *first == 0x61),
    }
}

/// The number that the first eight bytes spell, the highest first.
fn number_at(bytes: &[u8]) -> Option<u64>
    ensures { result ≡ number_at bytes.now }
{
    match bytes.split_first_chunk::<8>() {
        Some((front, _)) => Some(u64::from_be_bytes(*front)),
        None => None,
    }
}

/// The height that a value of the head names: eight bytes behind the first.
pub(crate) fn height_in(value: &[u8]) -> Option<u64>
    ensures { result ≡ height_in value.now }
{
    match value {
        [] => None,
        [_, rest @ ..] => number_at(rest),
    }
}

/// The height in a value of the row with the base: eight bytes.
pub(crate) fn base_in(value: &[u8]) -> Option<u64>
    ensures { result ≡ base_in value.now }
{
    if value.len() == 8 {
        number_at(value)
    } else {
        None
    }
}

/// The number of the first eight bytes, and the others.
fn eight_and_rest(bytes: &[u8]) -> Option<(u64, &[u8])>
    ensures { MatchOption result (length bytes.now < 8)
        (λ it. (bytes.now ≡ eight_bytes it.0 ++ it.1.now) × (it.0 < 2 ^ 64)) }
{
    match bytes.split_first_chunk::<8>() {
        Some((front, rest)) => Some((u64::from_be_bytes(*front), rest)),
        None => None,
    }
}

/// The height and the visible key in the key of a row that keeps what a visible row was.
pub(crate) fn kept_key(key: &[u8]) -> Option<(u64, &[u8])>
    ensures { MatchOption result
        ((height : ℕ) (name : List ℕ) → key.now ≡ kept_key height name → ⊥)
        (λ it. (key.now ≡ kept_key it.0 it.1.now) × (it.0 < 2 ^ 64)) }
{
    match key.split_first() {
        Some((first, rest)) => {
            if *first != KEPT {
                return None;
            }
            eight_and_rest(rest)
        }
        None => None,
    }
}

/// Whether a value is one that keeps something: no row, or one of a value.
fn is_kept_value(value: &[u8]) -> bool
    ensures { IsTrue result ↔ (value.now ≡ kept_value (was value.now)) }
{
    match value {
        [0x00] => true,
        [0x01, ..] => true,
        _ => false,
    }
}

/// What a value that keeps something keeps: the value of the row, or that none stood.
pub(crate) fn was(value: &[u8]) -> Option<&[u8]>
    ensures { option_map (λ value. value.now) result ≡ was value.now }
{
    match value.split_first() {
        Some((tag, rest)) => {
            if *tag == 0 {
                return None;
            }
            Some(rest)
        }
        None => None,
    }
}

/// Whether a height is above the base and at most the last one.
fn is_between(base: Option<u64>, last: Option<u64>, height: u64) -> bool
    ensures { IsTrue result
        ↔ (IsSomeAnd base (λ b. b < height) × IsSomeAnd last (λ l. height ≤ l)) }
{
    match (base, last) {
        (Some(base), Some(last)) => base < height && height <= last,
        _ => false,
    }
}

/// Whether a row that is to keep what a visible row was is of its form, between the base and the last height.
fn is_kept(base: Option<u64>, last: Option<u64>, row: &Row) -> bool
    ensures { IsTrue result ↔ IsKept base last (pair_of row.now) }
{
    match kept_key(row.key.as_slice()) {
        Some((height, name)) => {
            if !is_kept_value(row.value.as_slice()) {
                return false;
            }
            if !is_visible(name) {
                return false;
            }
            is_between(base, last, height)
        }
        None => false,
    }
}

/// Whether the row that is to have the base is of its form, and the base at most the last height.
fn is_base(base: Option<u64>, last: Option<u64>, row: &Row) -> bool
    ensures { IsTrue result ↔ IsBase base last (pair_of row.now) }
{
    let (Some(base), Some(last)) = (base, last) else {
        return false;
    };
    row.key.as_slice() == BASE.as_slice() && row.value.len() == 8 && base <= last
}

/// Whether a row is of its form, if it is of a history.
fn is_formed(base: Option<u64>, last: Option<u64>, row: &Row) -> bool
    ensures { IsTrue result ↔ IsFormed base last (pair_of row.now) }
{
    match row.key.as_slice() {
        [0x60, ..] => is_kept(base, last, row),
        [0x61, ..] => is_base(base, last, row),
        _ => true,
    }
}

/// Whether each row of a history is of its form, with this base and last height.
pub(crate) fn are_formed(base: Option<u64>, last: Option<u64>, rows: &[Row]) -> bool
    ensures { IsTrue result ↔ AllByRecursion (IsFormed base last) (map pair_of rows.now) }
{
    for row in rows {
        if !is_formed(base, last, row) {
            return false;
        }
    }
    true
}
