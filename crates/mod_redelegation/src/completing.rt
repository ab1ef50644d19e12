//! Completing: mature entries go at the end of a block.

ghost use Rattle.std.specs.Prelude.{◌≡◌, ◌+◌, ◌*◌, ◌≤◌, true, OnOk, IfErr};
ghost use Rattle.base_roles.specs.declared.faults.HookFault.TheVariants.{NoMemory};
ghost use Rattle.base_roles.specs.Orders.{triple_cmp};
ghost use Rattle.rule_modules.specs.EntrySlashes.{redelegation_made};
ghost use Rattle.rule_modules.specs.Redelegations.{redelegations_completed};
ghost use Rattle.mod_entries.specs.Kept.{behind, holding};
ghost use Rattle.mod_entries.specs.Lists.{list_at, with_list, unmatured};
ghost use Rattle.mod_entries.specs.Walked.{mature_entries};
ghost use Rattle.mod_redelegation.specs.Calls.{AreSoundLists};

use crate::keyed::{Key, known, set, unmatured_at};
use crate::redelegations::Redelegations;
use base_roles::HookFault;
use base_table::TableFault;
use base_types::{Moment, Steps};
use std::alloc::Global;
use std::sync::ledger::Ledger;

impl Redelegations {
    /// Takes all mature entries out (`CompleteRedelegation`). The only error is `NoMemory`.
    ///
    /// It takes at most 6 steps for each mature entry, and one more: where none is mature, one at most.
    pub fn complete<L: Ledger>(
        &mut self,
        alloc: Global,
        now: Moment,
        steps: &mut Steps<L>,
    ) -> Result<(), HookFault>
        requires entries { AreSoundLists self.old.lists }

        ensures lists { OnOk result
            (self.new.lists ≡ redelegations_completed now self.old.lists) }
        ensures entries { OnOk result (AreSoundLists self.new.lists) }
        ensures fault { IfErr result (λ fault. fault ≡ NoMemory) }
        ensures cost { steps.new ≤ steps.old
            + (6 * mature_entries redelegation_made now self.old.lists + 1) }

        // Whatever the answer.
        ensures behind { behind self.new ≡ behind self.old }
        ensures spent { self.old.spent ≡ true → self.new.spent ≡ true }
        ensures unspent { OnOk result (self.new.spent ≡ self.old.spent) }
    {
        known(&self.entries);
        let keys = self.entries.due(alloc, now, steps)?;
        for key in &keys {
            self.complete_at(alloc, key, now, steps)?;
        }
        Ok(())
    }

    /// Takes the mature entries of a key out.
    fn complete_at<L: Ledger>(
        &mut self,
        alloc: Global,
        key: &Key,
        now: Moment,
        steps: &mut Steps<L>,
    ) -> Result<(), TableFault>
        ensures lists { OnOk result (self.new ≡ holding (with_list triple_cmp key.now
            (unmatured redelegation_made now (list_at triple_cmp self.old.lists key.now))
            self.old.lists) self.old) }
        ensures cost { steps.new ≤ steps.old + 5 }

        // Whatever the answer.
        ensures behind { behind self.new ≡ behind self.old }
        ensures spent { self.old.spent ≡ true → self.new.spent ≡ true }
    {
        let left = unmatured_at(alloc, &self.entries, key, now, steps)?;
        set(&mut self.entries, key, left, steps)
    }
}
