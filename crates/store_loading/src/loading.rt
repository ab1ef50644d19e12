//! Items that are put into modules that have none yet.

ghost use Rattle.std.specs.Prelude.{◌≡◌, [], OnOk};
ghost use Rattle.mod_staking.specs.Items as book;
ghost use Rattle.store_loading.specs.Loaded.{HasNone, HaveOwnKeys, Holds};

use base_roles::{Item, RecordFault, Records};
use base_types::Steps;
use mod_staking::Staking;
use std::alloc::Global;
use std::sync::ledger::Ledger;

/// Adds the items of a module's kinds to it, which has none but an empty community pool, and settles it.
pub(crate) fn load_all<M: Records, L: Ledger>(
    alloc: Global,
    records: &mut M,
    items: &[Item],
    steps: &mut Steps<L>,
) -> Result<(), RecordFault>
    requires own { HaveOwnKeys items.now }
    requires none { HasNone (M.items (M.kept records.old)) }
    requires unmarked { M.marks records.old ≡ [] }
    ensures holds { OnOk result
        (Holds M.is_kind items.now (M.items (M.kept records.new))) }
    ensures settled { OnOk result (M.settled records.new ≡ M.kept records.new) }
    ensures unmarked { M.marks records.new ≡ [] }
    ensures spent { OnOk result (M.spent records.new ≡ M.spent records.old) }
{
    put_all(alloc, records, items, steps)?;
    records.settle(steps);
    Ok(())
}

/// Adds the items of a module's kinds to it, which has none but an empty community pool.
fn put_all<M: Records, L: Ledger>(
    alloc: Global,
    records: &mut M,
    items: &[Item],
    steps: &mut Steps<L>,
) -> Result<(), RecordFault>
    requires own { HaveOwnKeys items.now }
    requires none { HasNone (M.items (M.kept records.old)) }
    ensures holds { OnOk result
        (Holds M.is_kind items.now (M.items (M.kept records.new))) }
    ensures marks { M.marks records.new ≡ M.marks records.old }
    ensures spent { OnOk result (M.spent records.new ≡ M.spent records.old) }
{
    for item in items {
        records.load(alloc, item, steps)?;
    }
    Ok(())
}

/// Adds the validators and delegations among items to staking, which has none, and settles it.
pub(crate) fn load_staking<L: Ledger>(
    alloc: Global,
    staking: &mut Staking,
    items: &[Item],
    steps: &mut Steps<L>,
) -> Result<(), RecordFault>
    requires own { HaveOwnKeys items.now }
    requires none { HasNone (book.items_of staking.old.staked) }
    requires unmarked { staking.old.marks ≡ [] }
    ensures holds { OnOk result
        (Holds book.is_stake items.now (book.items_of staking.new.staked)) }
    ensures settled { OnOk result (staking.new.settled ≡ staking.new.staked) }
    ensures unmarked { staking.new.marks ≡ [] }
    ensures spent { OnOk result (staking.new.spent ≡ staking.old.spent) }
    ensures power { staking.new.power_reduction ≡ staking.old.power_reduction }
{
    put_stakes(alloc, staking, items, steps)?;
    staking.settle(steps);
    Ok(())
}

/// Adds the validators and delegations among items to staking, which has none.
fn put_stakes<L: Ledger>(
    alloc: Global,
    staking: &mut Staking,
    items: &[Item],
    steps: &mut Steps<L>,
) -> Result<(), RecordFault>
    requires own { HaveOwnKeys items.now }
    requires none { HasNone (book.items_of staking.old.staked) }
    ensures holds { OnOk result
        (Holds book.is_stake items.now (book.items_of staking.new.staked)) }
    ensures marks { staking.new.marks ≡ staking.old.marks }
    ensures spent { OnOk result (staking.new.spent ≡ staking.old.spent) }
    ensures power { staking.new.power_reduction ≡ staking.old.power_reduction }
{
    for item in items {
        staking.load(alloc, item, steps)?;
    }
    Ok(())
}
