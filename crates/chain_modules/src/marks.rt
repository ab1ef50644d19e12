//! Marks of all modules: they are opened, gone back to and closed together.

ghost use Rattle.std.specs.Prelude.{◌≡◌, ◌≢◌, ◌++◌, ◌∷◌, [], OnOk, OnErr};
ghost use Rattle.mod_distribution.specs.Kept.{KeptShared};
ghost use Rattle.chain_modules.specs.Kept.{kept_of, parts_of, stakes_kept, listener_of};
ghost use Rattle.chain_modules.specs.Marks.{marks_of, opened, settled_of, AreOpen, AreClosed, AreStakesClosed, no_marks, stakes_marks, stakes_opened, stakes_settled, hooks_kept, hooks_marks, hooks_opened, hooks_settled};

use crate::modules::{Heard, Hooks, Modules, Stakes};
use base_roles::{Extra, RecordFault, Records};
use base_types::Steps;
use std::alloc::Global;
use std::sync::ledger::Ledger;

impl<E: Extra> Modules<E> {
    /// Opens a mark of all modules, or of none. The only error is `NoMemory`.
    pub fn mark<L: Ledger>(
        &mut self,
        alloc: Global,
        steps: &mut Steps<L>,
    ) -> Result<(), RecordFault>
        ensures opened { OnOk result (marks_of self.new ≡ opened self.old) }
        ensures err { OnErr result (marks_of self.new ≡ marks_of self.old) }
        ensures same { kept_of self.new ≡ kept_of self.old }
        ensures settled { settled_of self.new ≡ settled_of self.old }
        ensures power { self.new.stakes.staking.power_reduction
            ≡ self.old.stakes.staking.power_reduction }
        ensures listener_opened { OnOk result (E.Records.marks (listener_of self.new)
            ≡ E.Records.marks (listener_of self.old) ++ E.kept (listener_of self.old) ∷ []) }
        ensures listener_err { OnErr result
            (E.Records.marks (listener_of self.new) ≡ E.Records.marks (listener_of self.old)) }
        ensures listener_same { E.kept (listener_of self.new) ≡ E.kept (listener_of self.old) }
    {
        self.ground.bank.mark(alloc, steps)?;
        match mark_beside(alloc, &mut self.stakes, &mut self.hooks, steps) {
            Ok(()) => Ok(()),
            Err(fault) => {
                self.ground.bank.forget(steps);
                Err(fault)
            }
        }
    }

    /// Restores what stood at the latest mark, and closes it. The context and the facts stay. Takes no memory.
    pub fn back<L: Ledger>(&mut self, steps: &mut Steps<L>)
        requires open { AreOpen (marks_of self.old) }
        requires listener { E.Records.marks (listener_of self.old) ≢ [] }
        ensures back { opened self.new ≡ marks_of self.old }
        ensures settled { settled_of self.new ≡ settled_of self.old }
        ensures ctx { self.new.ground.ctx ≡ self.old.ground.ctx }
        ensures facts { self.new.ground.facts ≡ self.old.ground.facts }
        ensures power { self.new.stakes.staking.power_reduction
            ≡ self.old.stakes.staking.power_reduction }
        ensures listener { E.Records.marks (listener_of self.new)
            ++ E.kept (listener_of self.new) ∷ [] ≡ E.Records.marks (listener_of self.old) }
    {
        self.ground.bank.back(steps);
        self.stakes.staking.back(steps);
        self.stakes.unbondings.back(steps);
        self.stakes.redelegations.back(steps);
        self.hooks.first.first.back(steps);
        self.hooks.first.second.listener.back(steps);
        self.hooks.second.back(steps);
    }

    /// Closes the latest mark, and changes nothing else. Takes no memory.
    pub fn forget<L: Ledger>(&mut self, steps: &mut Steps<L>)
        requires open { AreOpen (marks_of self.old) }
        requires listener { E.Records.marks (listener_of self.old) ≢ [] }
        ensures closed { AreClosed (marks_of self.old) (marks_of self.new) }
        ensures same { kept_of self.new ≡ kept_of self.old }
        ensures settled { settled_of self.new ≡ settled_of self.old }
        ensures power { self.new.stakes.staking.power_reduction
            ≡ self.old.stakes.staking.power_reduction }
        ensures listener { (last : E.Kept) × (E.Records.marks (listener_of self.new) ++ last ∷ []
            ≡ E.Records.marks (listener_of self.old)) }
        ensures listener_same { E.kept (listener_of self.new) ≡ E.kept (listener_of self.old) }
    {
        self.ground.bank.forget(steps);
        self.stakes.staking.forget(steps);
        self.stakes.unbondings.forget(steps);
        self.stakes.redelegations.forget(steps);
        self.hooks.first.first.forget(steps);
        self.hooks.first.second.listener.forget(steps);
        self.hooks.second.forget(steps);
    }

    /// From now on changes are told from here. No mark is open. Of a listener nothing is settled: it has no items,
    /// so none of them change. Takes no memory.
    pub fn settle<L: Ledger>(&mut self, steps: &mut Steps<L>)
        requires unmarked { marks_of self.old ≡ no_marks }
        ensures settled { settled_of self.new ≡ parts_of self.old }
        ensures same { kept_of self.new ≡ kept_of self.old }
        ensures unmarked { marks_of self.new ≡ no_marks }
        ensures power { self.new.stakes.staking.power_reduction
            ≡ self.old.stakes.staking.power_reduction }
        ensures listener { listener_of self.new ≡ listener_of self.old }
    {
        self.ground.bank.settle(steps);
        self.stakes.staking.settle(steps);
        self.stakes.unbondings.settle(steps);
        self.stakes.redelegations.settle(steps);
        self.hooks.first.first.settle(steps);
        self.hooks.second.settle(steps);
    }
}

/// Opens a mark of what stands beside the bank, or of none of it.
fn mark_beside<E: Extra, L: Ledger>(
    alloc: Global,
    stakes: &mut Stakes,
    hooks: &mut Hooks<E>,
    steps: &mut Steps<L>,
) -> Result<(), RecordFault>
    ensures stakes_opened { OnOk result (stakes_marks stakes.new ≡ stakes_opened stakes.old) }
    ensures hooks_opened { OnOk result (hooks_marks hooks.new ≡ hooks_opened hooks.old) }
    ensures stakes_err { OnErr result (stakes_marks stakes.new ≡ stakes_marks stakes.old) }
    ensures hooks_err { OnErr result (hooks_marks hooks.new ≡ hooks_marks hooks.old) }
    ensures stakes_same { stakes_kept stakes.new ≡ stakes_kept stakes.old }
    ensures hooks_same { hooks_kept hooks.new ≡ hooks_kept hooks.old }
    ensures stakes_settled { stakes_settled stakes.new ≡ stakes_settled stakes.old }
    ensures hooks_settled { hooks_settled hooks.new ≡ hooks_settled hooks.old }
    ensures power { stakes.new.staking.power_reduction ≡ stakes.old.staking.power_reduction }
    ensures listener_opened { OnOk result (E.Records.marks hooks.new.first.second.listener
        ≡ E.Records.marks hooks.old.first.second.listener
        ++ E.kept hooks.old.first.second.listener ∷ []) }
    ensures listener_err { OnErr result
        (E.Records.marks hooks.new.first.second.listener
        ≡ E.Records.marks hooks.old.first.second.listener) }
    ensures listener_same { E.kept hooks.new.first.second.listener
        ≡ E.kept hooks.old.first.second.listener }
{
    mark_stakes(alloc, stakes, steps)?;
    match mark_hooks(alloc, hooks, steps) {
        Ok(()) => Ok(()),
        Err(fault) => {
            forget_stakes(stakes, steps);
            Err(fault)
        }
    }
}

/// Opens a mark of all that staking keeps, or of none of it.
fn mark_stakes<L: Ledger>(
    alloc: Global,
    stakes: &mut Stakes,
    steps: &mut Steps<L>,
) -> Result<(), RecordFault>
    ensures opened { OnOk result (stakes_marks stakes.new ≡ stakes_opened stakes.old) }
    ensures err { OnErr result (stakes_marks stakes.new ≡ stakes_marks stakes.old) }
    ensures same { stakes_kept stakes.new ≡ stakes_kept stakes.old }
    ensures settled { stakes_settled stakes.new ≡ stakes_settled stakes.old }
    ensures power { stakes.new.staking.power_reduction ≡ stakes.old.staking.power_reduction }
{
    stakes.staking.mark(alloc, steps)?;
    match mark_entries(alloc, stakes, steps) {
        Ok(()) => Ok(()),
        Err(fault) => {
            stakes.staking.forget(steps);
            Err(fault)
        }
    }
}

/// Opens a mark of both kinds of entries, or of none.
fn mark_entries<L: Ledger>(
    alloc: Global,
    stakes: &mut Stakes,
    steps: &mut Steps<L>,
) -> Result<(), RecordFault>
    ensures staking { stakes.new.staking ≡ stakes.old.staking }
    ensures unbondings { OnOk result (stakes.new.unbondings.marks
        ≡ (stakes_opened stakes.old).unbondings) }
    ensures redelegations { OnOk result (stakes.new.redelegations.marks
        ≡ (stakes_opened stakes.old).redelegations) }
    ensures err { OnErr result (stakes_marks stakes.new ≡ stakes_marks stakes.old) }
    ensures same { stakes_kept stakes.new ≡ stakes_kept stakes.old }
    ensures settled { stakes_settled stakes.new ≡ stakes_settled stakes.old }
{
    stakes.unbondings.mark(alloc, steps)?;
    match stakes.redelegations.mark(alloc, steps) {
        Ok(()) => Ok(()),
        Err(fault) => {
            stakes.unbondings.forget(steps);
            Err(fault)
        }
    }
}

/// Closes the latest mark of all that staking keeps.
fn forget_stakes<L: Ledger>(stakes: &mut Stakes, steps: &mut Steps<L>)
    requires staking { stakes.old.staking.marks ≢ [] }
    requires unbondings { stakes.old.unbondings.marks ≢ [] }
    requires redelegations { stakes.old.redelegations.marks ≢ [] }
    ensures closed { AreStakesClosed (stakes_marks stakes.old) (stakes_marks stakes.new) }
    ensures same { stakes_kept stakes.new ≡ stakes_kept stakes.old }
    ensures settled { stakes_settled stakes.new ≡ stakes_settled stakes.old }
    ensures power { stakes.new.staking.power_reduction ≡ stakes.old.staking.power_reduction }
{
    stakes.staking.forget(steps);
    stakes.unbondings.forget(steps);
    stakes.redelegations.forget(steps);
}

/// Opens a mark of distribution, of the listener and of the signing records, or of none.
fn mark_hooks<E: Extra, L: Ledger>(
    alloc: Global,
    hooks: &mut Hooks<E>,
    steps: &mut Steps<L>,
) -> Result<(), RecordFault>
    ensures opened { OnOk result (hooks_marks hooks.new ≡ hooks_opened hooks.old) }
    ensures err { OnErr result (hooks_marks hooks.new ≡ hooks_marks hooks.old) }
    ensures same { hooks_kept hooks.new ≡ hooks_kept hooks.old }
    ensures settled { hooks_settled hooks.new ≡ hooks_settled hooks.old }
    ensures listener_opened { OnOk result (E.Records.marks hooks.new.first.second.listener
        ≡ E.Records.marks hooks.old.first.second.listener
        ++ E.kept hooks.old.first.second.listener ∷ []) }
    ensures listener_err { OnErr result
        (E.Records.marks hooks.new.first.second.listener
        ≡ E.Records.marks hooks.old.first.second.listener) }
    ensures listener_same { E.kept hooks.new.first.second.listener
        ≡ E.kept hooks.old.first.second.listener }
{
    mark_heard(alloc, &mut hooks.first, steps)?;
    match hooks.second.mark(alloc, steps) {
        Ok(()) => Ok(()),
        Err(fault) => {
            forget_heard(&mut hooks.first, steps);
            Err(fault)
        }
    }
}

/// Opens a mark of distribution and of the listener, or of neither.
fn mark_heard<E: Extra, L: Ledger>(
    alloc: Global,
    heard: &mut Heard<E>,
    steps: &mut Steps<L>,
) -> Result<(), RecordFault>
    ensures opened { OnOk result
        (heard.new.first.marks ≡ heard.old.first.marks ++ heard.old.first.kept ∷ []) }
    ensures err { OnErr result (heard.new.first.marks ≡ heard.old.first.marks) }
    ensures same { heard.new.first.kept ≡ heard.old.first.kept }
    ensures settled { heard.new.first.settled ≡ heard.old.first.settled }
    ensures listener_opened { OnOk result (E.Records.marks heard.new.second.listener
        ≡ E.Records.marks heard.old.second.listener ++ E.kept heard.old.second.listener ∷ []) }
    ensures listener_err { OnErr result
        (E.Records.marks heard.new.second.listener ≡ E.Records.marks heard.old.second.listener) }
    ensures listener_same { E.kept heard.new.second.listener ≡ E.kept heard.old.second.listener }
{
    heard.first.mark(alloc, steps)?;
    match heard.second.listener.mark(alloc, steps) {
        Ok(()) => Ok(()),
        Err(fault) => {
            heard.first.forget(steps);
            Err(fault)
        }
    }
}

/// Closes the latest mark of distribution and of the listener.
fn forget_heard<E: Extra, L: Ledger>(heard: &mut Heard<E>, steps: &mut Steps<L>)
    requires hooks { heard.old.first.marks ≢ [] }
    requires listener { E.Records.marks heard.old.second.listener ≢ [] }
    ensures hooks { (last : KeptShared) × (heard.new.first.marks ++ last ∷ []
        ≡ heard.old.first.marks) }
    ensures same { heard.new.first.kept ≡ heard.old.first.kept }
    ensures settled { heard.new.first.settled ≡ heard.old.first.settled }
    ensures listener { (last : E.Kept) × (E.Records.marks heard.new.second.listener ++ last ∷ []
        ≡ E.Records.marks heard.old.second.listener) }
    ensures listener_same { E.kept heard.new.second.listener ≡ E.kept heard.old.second.listener }
{
    heard.first.forget(steps);
    heard.second.listener.forget(steps);
}
