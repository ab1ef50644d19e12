//! Consensus addresses of validators (Cosmos SDK: `types.ConsAddress`).

ghost use Rattle.std.specs.Prelude.{◌≡◌, ◌∷◌, [], nat_eq};
ghost use Rattle.std.specs.Cmp.Lexicographic.{bytes_decides, pointwise};
ghost use Rattle.std.specs.Cmp.Rules.{comparing};
ghost use Rattle.std.specs.Cmp.{partial_order_from_own_ties};
ghost use Rattle.std.specs.Ordering.{as_partial_cmp};
ghost use Rattle.std.proofs.Common.{ap, rules};
ghost use Rattle.base_types.specs.Orders.{cons_cmp};

use crate::words::{are_equal, order_of};
use std::cmp::Ordering;
use std::hash::{Hash, Hasher};
use std::marker::Model;

/// The consensus address of a validator: twenty bytes. Ordered by them; contracts see the list of them.
#[derive(Clone, Copy, Debug)]
pub struct ConsAddr {
    bytes: [u8; 20],
}

impl Model for ConsAddr {
    ghost use Rattle.std.specs.Prelude.{ℕ, List};

    ghost Value = { List ℕ };

    ghost view = { λ a. a.bytes };

    ghost inverse = { λ bytes. record { bytes = bytes } };
}

impl ConsAddr {
    /// The consensus address of these bytes.
    pub fn of(bytes: [u8; 20]) -> ConsAddr
        ensures { result ≡ bytes }
    {
        ConsAddr { bytes }
    }

    /// The twenty bytes.
    pub fn bytes(&self) -> [u8; 20]
        ensures { result ≡ self.now }
    {
        self.bytes
    }
}

impl PartialEq for ConsAddr {
    ghost eq = { pointwise nat_eq };

    ghost laws = { Prim.search (comparing, rules) };

    fn eq(&self, other: &ConsAddr) -> bool {
        are_equal(&self.bytes, &other.bytes)
    }
}

impl Eq for ConsAddr {
    ghost laws = { Prim.search (comparing, rules) };
}

impl Ord for ConsAddr {
    ghost cmp = { cons_cmp };

    ghost total = { Prim.search (comparing, rules) };

    ghost matches_partial_cmp = { Prim.search (comparing, rules) };

    ghost matches_eq = { Prim.search (comparing, rules) };

    fn cmp(&self, other: &ConsAddr) -> Ordering {
        order_of(&self.bytes, &other.bytes)
    }
}

impl PartialOrd for ConsAddr {
    ghost partial_cmp = { as_partial_cmp cons_cmp };

    ghost laws = { partial_order_from_own_ties (Prim.search (comparing, rules))
        (Prim.search (comparing, rules)) };

    fn partial_cmp(&self, other: &ConsAddr) -> Option<Ordering> {
        Some(self.cmp(other))
    }
}

impl Hash for ConsAddr {
    ghost hash_input = { λ addr. addr ∷ [] };

    ghost respects_eq = { λ a b same. ap (λ bytes. bytes ∷ []) ((bytes_decides a b).0 same) };

    fn hash<H: Hasher>(&self, state: &mut H) {
        state.write(&self.bytes);
    }
}
