//! What all modules keep, as items, and how it differs from what was settled.

ghost use Rattle.std.specs.Prelude.{◌≡◌, ◌++◌, List, Bool, OnOk};
ghost use Rattle.base_roles.specs.declared.items.Item.{Item};
ghost use Rattle.base_roles.specs.Items.{AreChanges};
ghost use Rattle.mod_distribution.specs.Items.{AreInOrder};
ghost use Rattle.chain_modules.specs.Kept.{kept_of};
ghost use Rattle.chain_modules.specs.Marks.{settled_over};
ghost use Rattle.chain_modules.specs.Items.{items_of, stake_items, settled_stake_items, hook_items, settled_hook_items};

use crate::context::{ctx_changes_into, ctx_into};
use crate::modules::{Hooks, Modules, Stakes};
use base_roles::{Ctx, Extra, Item, RecordFault, Records};
use base_types::Steps;
use std::sync::ledger::Ledger;

impl<E: Extra> Modules<E> {
    /// It tells that the keys of what distribution keeps ascend, and does nothing. Its rewards stand for plain ones by
    /// what is found under each key, so their order is no part of that.
    pub fn ordered(&self)
        ensures { AreInOrder self.now.hooks.first.first.kept }
    {
        self.hooks.first.first.ordered();
    }

    /// Appends the items of all modules, those of the context first. After `NoMemory` some of them may stand
    /// there.
    pub fn items_into<L: Ledger>(
        &self,
        out: &mut Vec<Item>,
        steps: &mut Steps<L>,
    ) -> Result<(), RecordFault>
        ensures items { OnOk result
            (out.new.items ≡ out.old.items ++ items_of (kept_of self.now)) }
        ensures err { (some : List Item) × (out.new.items ≡ out.old.items ++ some) }
    {
        ctx_into(&self.ground.ctx, out)?;
        self.ground.bank.items_into(out, steps)?;
        stakes_into(&self.stakes, out, steps)?;
        hooks_into(&self.hooks, out, steps)
    }

    /// Appends the items by which the modules differ from what was settled over this context, each once: with
    /// true one that is new or has another value, with false, by its key alone, one that is gone. After
    /// `NoMemory` some of them may stand there.
    pub fn changes_into<L: Ledger>(
        &self,
        settled: &Ctx,
        out: &mut Vec<(Item, bool)>,
        steps: &mut Steps<L>,
    ) -> Result<(), RecordFault>
        ensures changes { OnOk result ((changes : List (Item × Bool))
            × ((out.new.items ≡ out.old.items ++ changes)
            × AreChanges (items_of (settled_over settled.now self.now)) (items_of (kept_of self.now))
            changes)) }
        ensures err { (some : List (Item × Bool)) × (out.new.items ≡ out.old.items ++ some) }
    {
        ctx_changes_into(settled, &self.ground.ctx, out)?;
        self.ground.bank.changes_into(out, steps)?;
        stake_changes_into(&self.stakes, out, steps)?;
        hook_changes_into(&self.hooks, out, steps)
    }
}

/// Appends the items of what staking keeps.
fn stakes_into<L: Ledger>(
    stakes: &Stakes,
    out: &mut Vec<Item>,
    steps: &mut Steps<L>,
) -> Result<(), RecordFault>
    ensures items { OnOk result (out.new.items ≡ out.old.items ++ stake_items stakes.now) }
    ensures err { (some : List Item) × (out.new.items ≡ out.old.items ++ some) }
{
    stakes.staking.items_into(out, steps)?;
    stakes.unbondings.items_into(out, steps)?;
    stakes.redelegations.items_into(out, steps)
}

/// Appends the changes of what staking keeps.
fn stake_changes_into<L: Ledger>(
    stakes: &Stakes,
    out: &mut Vec<(Item, bool)>,
    steps: &mut Steps<L>,
) -> Result<(), RecordFault>
    ensures changes { OnOk result ((changes : List (Item × Bool))
        × ((out.new.items ≡ out.old.items ++ changes)
        × AreChanges (settled_stake_items stakes.now) (stake_items stakes.now) changes)) }
    ensures err { (some : List (Item × Bool)) × (out.new.items ≡ out.old.items ++ some) }
{
    stakes.staking.changes_into(out, steps)?;
    stakes.unbondings.changes_into(out, steps)?;
    stakes.redelegations.changes_into(out, steps)
}

/// Appends the items of the signing records, and then of distribution.
fn hooks_into<E: Extra, L: Ledger>(
    hooks: &Hooks<E>,
    out: &mut Vec<Item>,
    steps: &mut Steps<L>,
) -> Result<(), RecordFault>
    ensures items { OnOk result (out.new.items ≡ out.old.items ++ hook_items hooks.now) }
    ensures err { (some : List Item) × (out.new.items ≡ out.old.items ++ some) }
{
    hooks.second.items_into(out, steps)?;
    hooks.first.first.items_into(out, steps)
}

/// Appends their changes.
fn hook_changes_into<E: Extra, L: Ledger>(
    hooks: &Hooks<E>,
    out: &mut Vec<(Item, bool)>,
    steps: &mut Steps<L>,
) -> Result<(), RecordFault>
    ensures changes { OnOk result ((changes : List (Item × Bool))
        × ((out.new.items ≡ out.old.items ++ changes)
        × AreChanges (settled_hook_items hooks.now) (hook_items hooks.now) changes)) }
    ensures err { (some : List (Item × Bool)) × (out.new.items ≡ out.old.items ++ some) }
{
    hooks.second.changes_into(out, steps)?;
    hooks.first.first.changes_into(out, steps)
}
