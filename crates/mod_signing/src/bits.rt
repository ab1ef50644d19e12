//! The bits of a row of 128 places, the lowest for the first.

ghost use Rattle.std.specs.Prelude.{◌≡◌, ◌≢◌, ℕ, ◌<◌, ◌≤◌, true, false, cond};
ghost use Rattle.std.specs.Int.{bit_at};
ghost use Rattle.mod_signing.specs.Rings.{is_set};

/// How many places a row has.
pub(crate) const PLACES: u64 = 128;

/// 1 for a place that is set, and else 0.
pub(crate) fn one_if(set: bool) -> u64
    ensures { result ≡ cond set 1 0 }
{
    if set { 1 } else { 0 }
}

/// Whether a place of a row is set.
pub(crate) fn is_set(row: u128, place: u64) -> bool
    requires { place < 128 }
    ensures { result ≡ is_set row place }
{
    (row >> place) & 1 == 1
}

/// A row with a place set, or not. All others stay.
pub(crate) fn with_place(row: u128, place: u64, set: bool) -> u128
    requires { place < 128 }
    ensures here { is_set result place ≡ set }
    ensures others { (other : ℕ) → other < 128 → other ≢ place
        → is_set result other ≡ is_set row other }
{
    if set {
        set_place(row, place)
    } else {
        clear_place(row, place)
    }
}

fn set_place(row: u128, place: u64) -> u128
    requires { place < 128 }
    ensures here { bit_at result place ≡ 1 }
    ensures others { (other : ℕ) → other ≢ place → bit_at result other ≡ bit_at row other }
{
    row | (1 << place)
}

fn clear_place(row: u128, place: u64) -> u128
    requires { place < 128 }
    ensures here { bit_at result place ≡ 0 }
    ensures others { (other : ℕ) → other < 128 → other ≢ place
        → bit_at result other ≡ bit_at row other }
{
    row & !(1 << place)
}

/// Whether two rows agree in so many of their first places.
pub(crate) fn agree(row: u128, other: u128, places: u64) -> bool
    requires { places ≤ 128 }
    ensures yes { result ≡ true → (place : ℕ) → place < places
        → is_set row place ≡ is_set other place }
    ensures no { result ≡ false → (place : ℕ) × ((place < places)
        × (is_set row place ≡ is_set other place → ⊥)) }
{
    if row == other {
        return true;
    }
    for place in 0..places {
        if is_set(row, place) != is_set(other, place) {
            return false;
        }
    }
    true
}

/// The first place from this one on that is set, or the end where none is before it.
pub(crate) fn next_set(row: u128, from: u64, end: u64) -> u64
    requires { end ≤ 128 }
    ensures least { from ≤ end → from ≤ result }
    ensures most { result ≤ end }
    ensures before { (place : ℕ) → from ≤ place → place < result → is_set row place ≡ false }
    ensures here { result < end → is_set row result ≡ true }
{
    if from < end {
        end.min(from + u64::from((row >> from).trailing_zeros()))
    } else {
        end
    }
}
