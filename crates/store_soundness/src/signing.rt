//! Signing records and their rings.

ghost use Rattle.std.specs.Prelude.{◌≡◌};
ghost use Rattle.base_roles.specs.Staked.{is_unbonded};
ghost use Rattle.rule_modules.specs.Amounts.{count_where};
ghost use Rattle.store_soundness.specs.Signing.{are_recorded, are_signings_sound, is_recorded, is_signing_sound};

use base_roles::Validator;
use base_types::{Addr, BondStatus, ConsAddr};
use std::collections::BTreeMap;
use store_records::Signed;

/// Whether a status is unbonded.
fn is_unbonded(status: BondStatus) -> bool
    ensures { result ≡ is_unbonded status }
{
    match status {
        BondStatus::Unbonded => true,
        BondStatus::Bonded | BondStatus::Unbonding => false,
    }
}

/// Whether a validator has a record, if it is bonded or unbonding.
fn is_recorded(signings: &BTreeMap<ConsAddr, Signed>, validator: &Validator) -> bool
    ensures { result ≡ is_recorded signings.now.entries validator.now }
{
    is_unbonded(validator.status) || signings.contains_key(&validator.cons)
}

/// Whether all validators that are bonded or unbonding have records.
pub(crate) fn are_recorded(
    validators: &BTreeMap<Addr, Validator>,
    signings: &BTreeMap<ConsAddr, Signed>,
) -> bool
    ensures { result ≡ are_recorded validators.now.entries signings.now.entries }
{
    validators
        .iter()
        .all(|(_, validator)| is_recorded(signings, validator))
}

/// How many votes of a ring were missed.
fn missed_in(ring: &[bool]) -> u64
    ensures { result ≡ count_where (λ missed. missed) ring.now }
{
    let mut count = 0;
    for missed in ring {
        if *missed {
            count += 1;
        }
    }
    count
}

/// Whether a record's ring has the last votes of the window, the missed ones are counted, and its numbers are in
/// their ranges.
fn is_signing_sound(height: u64, window: u64, signed: &Signed) -> bool
    ensures { result ≡ is_signing_sound height window signed.now }
{
    let info = &signed.info;
    let ring = signed.ring.as_slice();
    info.counted <= height
        && info.start < 1 << 63
        && ring.len() as u64 == info.counted.min(window)
        && missed_in(ring) == info.missed
}

/// Whether all records are so.
pub(crate) fn are_signings_sound(
    height: u64,
    window: u64,
    signings: &BTreeMap<ConsAddr, Signed>,
) -> bool
    ensures { result ≡ are_signings_sound height window signings.now.entries }
{
    signings
        .iter()
        .all(|(_, signed)| is_signing_sound(height, window, signed))
}
