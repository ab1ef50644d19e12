//! The redelegation entries, by delegator, source and target (`x/staking`: `RedelegationEntry`).

ghost use Rattle.std.specs.Prelude.{◌≡◌};
ghost use Rattle.base_roles.specs.Orders.{triple_cmp};
ghost use Rattle.mod_entries.specs.Kept.{nothing_kept};
ghost use Rattle.mod_entries.specs.Lists.{list_at};

use crate::keyed::{Key, Lists, at};
use base_roles::RedelegationEntry;
use base_types::Steps;
use mod_entries::Entries;
use std::alloc::Global;
use std::marker::Model;
use std::sync::ledger::Ledger;

/// Redelegation entries, in tables. Contracts see them as they stand, at each open mark, and at the last
/// settling, and whether memory was wanting in a change.
///
/// Once memory was wanting in a change, each later change answers `NoMemory`.
#[derive(Drop)]
pub struct Redelegations {
    pub(crate) entries: Lists,
}

impl Model for Redelegations {
    ghost use Rattle.std.specs.Prelude.{ℕ, List};
    ghost use Rattle.base_roles.specs.declared.entities.RedelegationEntry.{RedelegationEntry};
    ghost use Rattle.mod_entries.specs.Kept.{Kept};

    ghost Value = { Kept (List ℕ × List ℕ × List ℕ) RedelegationEntry };

    ghost view = { λ s. s.entries };
}

impl Redelegations {
    /// No entries. Takes no memory.
    pub fn new(alloc: Global) -> Redelegations
        ensures { result ≡ nothing_kept }
    {
        Redelegations {
            entries: Entries::new(alloc),
        }
    }

    /// The entries of a key, also none.
    pub(crate) fn list_at<L: Ledger>(&self, key: &Key, steps: &mut Steps<L>) -> &[RedelegationEntry]
        ensures { result.now ≡ list_at triple_cmp self.now.lists key.now }
    {
        match at(&self.entries, key, steps) {
            Some(list) => list.as_slice(),
            None => &[],
        }
    }
}
