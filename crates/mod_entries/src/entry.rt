//! What unbonding and redelegation entries, and their keys, have in common (`x/staking`).

ghost use Rattle.std.specs.Prelude.{◌≡◌, ℕ, List};
ghost use Rattle.rule_modules.specs.EntrySlashes.{Made, unbonding_made, redelegation_made};
ghost use Rattle.mod_entries.specs.Exact.{exact_pair, exact_triple};
ghost use Rattle.mod_entries.specs.Least.{least_addr, least_pair, least_triple};
ghost use Rattle.mod_entries.specs.Lists.{IsExact, IsAddr};
ghost use Rattle.mod_entries.specs.Sources.{IsLeast};

use base_roles::{RedelegationEntry, UnbondingEntry};
use base_types::{Addr, Copied, Moment};
use std::hash::Hash;

/// An entry that was made at a height and completes at a moment.
pub trait Entry: Copied + Copy {
    /// What is told of it when it was made.
    ghost made: { Self → Made };

    /// The height at which it was made.
    fn created(&self) -> u64
        ensures { result ≡ (made self.now).created };

    /// When it completes.
    fn completes(&self) -> Moment
        ensures { result ≡ (made self.now).completes };

    /// What came out of the delegation, in units of the bond denomination.
    fn initial(&self) -> u128
        ensures { result ≡ (made self.now).initial };
}

/// What entries are kept by.
pub trait EntryKey: Ord + Hash + Copied + Copy {
    /// The operator that the entries are from.
    ghost source: { Self → List ℕ };

    fn source(&self) -> &Addr
        ensures { result.now ≡ source self.now };

    /// What every key is.
    ghost fits: { Self → Type 0 };

    /// It tells that this key is what every key is. It does nothing.
    fn known(&self)
        ensures { fits self.now };

    ghost least_key: { Self };

    /// The key that no other comes before.
    fn least() -> Self
        ensures { result ≡ least_key };

    ghost is_least: { IsLeast Self.cmp fits least_key };

    /// Keys that compare equal are one key.
    ghost exact: { IsExact Self.cmp };
}

impl Entry for UnbondingEntry {
    ghost made = { unbonding_made };

    fn created(&self) -> u64 {
        self.created
    }

    fn completes(&self) -> Moment {
        self.completes
    }

    fn initial(&self) -> u128 {
        self.initial
    }
}

impl Entry for RedelegationEntry {
    ghost made = { redelegation_made };

    fn created(&self) -> u64 {
        self.created
    }

    fn completes(&self) -> Moment {
        self.completes
    }

    fn initial(&self) -> u128 {
        self.initial
    }
}

/// A delegator and an operator.
impl EntryKey for (Addr, Addr) {
    ghost source = { λ key. key.1 };

    fn source(&self) -> &Addr {
        &self.1
    }

    ghost fits = { λ key. IsAddr key.0 × IsAddr key.1 };

    fn known(&self) {
        let _delegator = self.0.bytes();
        let _operator = self.1.bytes();
    }

    ghost least_key = { (least_addr, least_addr) };

    fn least() -> (Addr, Addr) {
        (least_addr(), least_addr())
    }

    ghost is_least = { least_pair };

    ghost exact = { exact_pair };
}

/// A delegator, a source and a target.
impl EntryKey for (Addr, Addr, Addr) {
    ghost source = { λ key. key.1 };

    fn source(&self) -> &Addr {
        &self.1
    }

    ghost fits = { λ key. IsAddr key.0 × IsAddr key.1 × IsAddr key.2 };

    fn known(&self) {
        let _delegator = self.0.bytes();
        let _source = self.1.bytes();
        let _target = self.2.bytes();
    }

    ghost least_key = { (least_addr, least_addr, least_addr) };

    fn least() -> (Addr, Addr, Addr) {
        (least_addr(), least_addr(), least_addr())
    }

    ghost is_least = { least_triple };

    ghost exact = { exact_triple };
}

/// The address that no other comes before.
pub fn least_addr() -> Addr
    ensures { result ≡ least_addr }
{
    Addr::of([0; 20]).unwrap()
}
