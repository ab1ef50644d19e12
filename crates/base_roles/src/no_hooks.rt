//! Hooks that do nothing: staking without other modules, and a chain without a listener.

ghost use Rattle.std.specs.Prelude.{◌≡◌, ℕ, [], false, replicate};
ghost use Rattle.base_roles.specs.NoHooks.{nothing_told, nothing_lawful, nothing_listens};

use crate::bank::{Bank, Ground};
use crate::calls::Hook;
use crate::extra::Extra;
use crate::faults::{HookFault, RecordFault};
use crate::hooks::StakingHooks;
use crate::items::Item;
use crate::records::Records;
use base_types::Steps;
use std::alloc::Global;
use std::sync::ledger::Ledger;

/// Hooks that do nothing. They keep the number of their open marks alone.
#[derive(Clone, Copy, Debug)]
pub struct NoHooks {
    pub open: usize,
}

impl NoHooks {
    /// Hooks without an open mark.
    pub fn new() -> NoHooks
        ensures { result.open ≡ 0 }
    {
        NoHooks { open: 0 }
    }
}

impl StakingHooks for NoHooks {
    ghost Held = { Unit {0} };

    ghost holds = { λ _ _. Unit {0} };

    ghost tells = { nothing_told };

    ghost Marks = { ℕ };

    ghost marks = { λ s. s.open };

    fn hear<B: Bank, L: Ledger>(
        &mut self,
        _alloc: Global,
        _g: &mut Ground<B>,
        _hook: &Hook,
        _steps: &mut Steps<L>,
    ) -> Result<(), HookFault> {
        Ok(())
    }

    ghost lawful = { nothing_lawful };
}

impl Records for NoHooks {
    ghost Kept = { Unit {0} };

    ghost kept = { λ _. tt };

    ghost marks = { λ s. replicate s.open tt };

    ghost settled = { λ _. tt };

    ghost spent = { λ _. false };

    ghost AreInOrder = { λ _. Unit {0} };

    ghost items = { λ _. [] };

    ghost is_kind = { λ _. false };

    fn ordered(&self) {}

    fn mark<L: Ledger>(
        &mut self,
        _alloc: Global,
        _steps: &mut Steps<L>,
    ) -> Result<(), RecordFault> {
        match self.open.checked_add(1) {
            Some(open) => {
                self.open = open;
                Ok(())
            }
            None => Err(RecordFault::NoMemory),
        }
    }

    fn back<L: Ledger>(&mut self, _steps: &mut Steps<L>) {
        self.open -= 1;
    }

    fn forget<L: Ledger>(&mut self, _steps: &mut Steps<L>) {
        self.open -= 1;
    }

    fn items_into<L: Ledger>(
        &self,
        _out: &mut Vec<Item>,
        _steps: &mut Steps<L>,
    ) -> Result<(), RecordFault> {
        Ok(())
    }

    fn changes_into<L: Ledger>(
        &self,
        _out: &mut Vec<(Item, bool)>,
        _steps: &mut Steps<L>,
    ) -> Result<(), RecordFault> {
        Ok(())
    }

    fn load<L: Ledger>(
        &mut self,
        _alloc: Global,
        _item: &Item,
        _steps: &mut Steps<L>,
    ) -> Result<bool, RecordFault> {
        Ok(false)
    }

    fn settle<L: Ledger>(&mut self, _steps: &mut Steps<L>) {}
}

impl Extra for NoHooks {
    ghost Heard = { Unit {0} };

    ghost heard = { λ _. tt };

    ghost hears = { λ _ _ _. tt };

    ghost parted = { λ _ _. tt };

    ghost ended = { λ _. tt };

    fn after_part(&mut self, _facts: usize) {}

    fn after_block(&mut self) {}

    ghost listens = { nothing_listens };
}
