//! Keys that stand twice, or among others.

ghost use Rattle.std.specs.Prelude.{◌≡◌, ◌||◌, Bool, true, false, not, IfOk};
ghost use Rattle.std.specs.BTreeMap.{is_at};
ghost use Rattle.std.specs.List.{list_all, list_any};
ghost use Rattle.base_coins.specs.Coins.{has_repeats};

use std::alloc::{AllocError, Global};
use std::collections::BTreeSet;

/// Adds a key to a set; false where it was there already. The only error is `AllocError`: memory is
/// wanting.
pub fn add_key<K: Ord + Copy>(seen: &mut BTreeSet<K>, key: K) -> Result<bool, AllocError>
    ensures new { IfOk result (λ new. new ≡ not (list_any (is_at (K.cmp key)) seen.old.keys)) }
    ensures added { IfOk result (λ new. new ≡ true → (test : K → Bool)
        → list_any test seen.new.keys ≡ (test key || list_any test seen.old.keys)) }
    ensures kept { IfOk result (λ new. new ≡ false → seen.new.keys ≡ seen.old.keys) }
{
    match seen.insert(key) {
        Ok(new) => Ok(new),
        Err(refused) => Err(AllocError::from(refused)),
    }
}

/// Whether a key stands twice. The only error is `AllocError`: memory for a set of the keys is wanting.
pub fn has_repeat<K: Ord + Copy>(alloc: Global, keys: &[K]) -> Result<bool, AllocError>
    ensures { IfOk result (λ again. again ≡ has_repeats K.cmp keys.now) }
{
    let mut seen = BTreeSet::new(alloc);
    for key in keys {
        if !add_key(&mut seen, *key)? {
            return Ok(true);
        }
    }
    Ok(false)
}

/// Whether all of these keys stand among others. The only error is `AllocError`: memory for a set of the
/// others is wanting.
pub fn are_among<K: Ord + Copy>(alloc: Global, keys: &[K], others: &[K]) -> Result<bool, AllocError>
    ensures { IfOk result (λ among. among ≡ not
        (list_any (λ key. not (list_any (λ other. is_at (K.cmp other) key) others.now)) keys.now)) }
{
    let mut there = BTreeSet::new(alloc);
    for other in others {
        add_key(&mut there, *other)?;
    }
    Ok(has_all(&there, keys))
}

/// Whether a set has all of these keys.
fn has_all<K: Ord + Copy>(there: &BTreeSet<K>, keys: &[K]) -> bool
    ensures { result ≡ list_all (λ key. list_any (is_at (K.cmp key)) there.now.keys) keys.now }
{
    keys.iter().all(|key| there.contains(key))
}
