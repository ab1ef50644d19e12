//! The unbonding entries, by delegator and operator (`x/staking`: `UnbondingDelegationEntry`).

ghost use Rattle.std.specs.Prelude.{◌≡◌, ◌+◌, ◌≤◌, true, OnOk, OnErr, IsErr};
ghost use Rattle.std.specs.Option.{option_copied};
ghost use Rattle.base_roles.specs.Entries.{at};
ghost use Rattle.base_roles.specs.Orders.{pair_cmp};
ghost use Rattle.rule_modules.specs.Unbondings.{with_entries};
ghost use Rattle.mod_entries.specs.Kept.{nothing_kept, holding, spent_now};

use base_roles::{Listed, UnbondingEntry};
use base_table::TableFault;
use base_types::{Addr, Steps};
use mod_entries::Entries;
use std::alloc::Global;
use std::marker::Model;
use std::sync::ledger::Ledger;

/// Unbonding entries, in tables. Contracts see them as they stand, at each open mark, and at the last
/// settling, and whether memory was wanting in a change.
///
/// Once memory was wanting in a change, each later change answers `NoMemory`.
#[derive(Drop)]
pub struct Unbondings {
    /// By delegator and operator.
    pub(crate) entries: Entries<(Addr, Addr), UnbondingEntry>,
}

impl Model for Unbondings {
    ghost use Rattle.std.specs.Prelude.{ℕ, List};
    ghost use Rattle.base_roles.specs.declared.entities.UnbondingEntry.{UnbondingEntry};
    ghost use Rattle.mod_entries.specs.Kept.{Kept};

    ghost Value = { Kept (List ℕ × List ℕ) UnbondingEntry };

    ghost view = { λ s. s.entries };
}

impl Unbondings {
    /// No entries. Takes no memory.
    pub fn new(alloc: Global) -> Unbondings
        ensures { result ≡ nothing_kept }
    {
        Unbondings {
            entries: Entries::new(alloc),
        }
    }

    /// Keeps entries under a delegator and an operator, which has none where they are none.
    pub(crate) fn set<L: Ledger>(
        &mut self,
        key: &(Addr, Addr),
        list: Listed<UnbondingEntry>,
        steps: &mut Steps<L>,
    ) -> Result<(), TableFault>
        ensures ok { OnOk result (self.new
            ≡ holding (with_entries key.now.0 key.now.1 list self.old.lists) self.old) }
        ensures err { OnErr result (self.new ≡ spent_now self.old) }
        ensures spent { self.old.spent ≡ true → IsErr result }
        ensures cost { steps.new ≤ steps.old + 4 }
    {
        self.entries.set(key, list, steps)
    }

    /// The entries of a delegator and an operator, or None where there are none.
    pub(crate) fn at<L: Ledger>(
        &self,
        key: &(Addr, Addr),
        steps: &mut Steps<L>,
    ) -> Option<&Listed<UnbondingEntry>>
        ensures value { option_copied result ≡ at pair_cmp self.now.lists key.now }
        ensures cost { steps.new ≡ steps.old + 1 }
    {
        self.entries.at(key, steps)
    }
}
