//! Keys of periods and slash events, which begin with an operator.

ghost use Rattle.std.specs.Prelude.{◌≡◌, ℕ, List};
ghost use Rattle.mod_periods.specs.Grouped.{IsGrouped};
ghost use Rattle.mod_periods.specs.GroupedKeys.{periods_are_grouped, events_are_grouped};

use base_types::{Addr, Copied};
use std::hash::Hash;

/// A key that begins with an operator, in an order that keeps those of one operator together.
pub(crate) trait Keyed: Ord + Hash + Copied {
    ghost operator_of: { Self → List ℕ };

    ghost first_of: { List ℕ → Self };

    /// The operator.
    fn operator(&self) -> &Addr
        ensures { result.now ≡ operator_of self.now };

    /// The first key of an operator that can be.
    fn first(operator: &Addr) -> Self
        ensures { result ≡ first_of operator.now };

    ghost grouped: { IsGrouped Self.cmp operator_of first_of };
}

impl Keyed for (Addr, u64) {
    ghost operator_of = { λ key. key.0 };

    ghost first_of = { λ operator. (operator, 0) };

    ghost grouped = { periods_are_grouped };

    fn operator(&self) -> &Addr {
        &self.0
    }

    fn first(operator: &Addr) -> (Addr, u64) {
        (*operator, 0)
    }
}

impl Keyed for (Addr, u64, u64) {
    ghost operator_of = { λ key. key.0 };

    ghost first_of = { λ operator. (operator, 0, 0) };

    ghost grouped = { events_are_grouped };

    fn operator(&self) -> &Addr {
        &self.0
    }

    fn first(operator: &Addr) -> (Addr, u64, u64) {
        (*operator, 0, 0)
    }
}
