//! Addresses compared by three words, which are fewer steps than twenty bytes.

ghost use Rattle.std.specs.Prelude.{◌≡◌, ◌+◌, ◌≤◌, length, nat_eq};
ghost use Rattle.std.specs.Cmp.Lexicographic.{pointwise, slice_cmp};
ghost use Rattle.std.specs.Ordering.{nat_cmp};
ghost use Rattle.base_types.specs.Words.{number_at};

use std::cmp::Ordering;

// The eight bytes from this place on, the first of them the highest.
fn word_at(bytes: &[u8], i: usize) -> u64
    requires { i + 8 ≤ length bytes.now }
    ensures { result ≡ number_at i 8 bytes.now }
{
    u64::from_be_bytes([
        bytes[i],
        bytes[i + 1],
        bytes[i + 2],
        bytes[i + 3],
        bytes[i + 4],
        bytes[i + 5],
        bytes[i + 6],
        bytes[i + 7],
    ])
}

// The four bytes from this place on, the first of them the highest.
fn half_word_at(bytes: &[u8], i: usize) -> u32
    requires { i + 4 ≤ length bytes.now }
    ensures { result ≡ number_at i 4 bytes.now }
{
    u32::from_be_bytes([bytes[i], bytes[i + 1], bytes[i + 2], bytes[i + 3]])
}

/// The order of two addresses by their bytes.
pub(crate) fn order_of(a: &[u8; 20], b: &[u8; 20]) -> Ordering
    ensures { result ≡ slice_cmp nat_cmp a.now b.now }
{
    let (x, y) = (word_at(a, 0), word_at(b, 0));
    if x != y {
        return x.cmp(&y);
    }
    let (x, y) = (word_at(a, 8), word_at(b, 8));
    if x != y {
        return x.cmp(&y);
    }
    half_word_at(a, 16).cmp(&half_word_at(b, 16))
}

/// Whether two addresses have the same bytes.
pub(crate) fn are_equal(a: &[u8; 20], b: &[u8; 20]) -> bool
    ensures { result ≡ pointwise nat_eq a.now b.now }
{
    let first = word_at(a, 0) == word_at(b, 0);
    let second = word_at(a, 8) == word_at(b, 8);
    let third = half_word_at(a, 16) == half_word_at(b, 16);
    first & second & third
}
