//! The modules of records.

ghost use Rattle.std.specs.Prelude.{◌≡◌, ◌≤◌, ◌<◌, ◌^◌, [], Ok, IfOk, OnOk};
ghost use Rattle.mod_distribution.specs.Items as distr;
ghost use Rattle.chain_modules.specs.Kept.{kept_of, parts_of, AreSet, IsNewOver};
ghost use Rattle.chain_modules.specs.Marks.{marks_of, no_marks, settled_of};
ghost use Rattle.store_records.specs.Plain.{lists_seen, seen, AreAscending};
ghost use Rattle.store_loading.specs.Loaded.{empty_ground, plain_in, AreLoaded, AreUnspent, HaveOwnKeys, HoldItems};

use crate::listing::items_of;
use crate::loading::{load_all, load_staking};
use base_roles::{Ctx, Facts, Ground, Item, NoHooks, RecordFault, Records};
use base_types::Steps;
use chain_modules::{Modules, let_go};
use mod_bank::BankBalances;
use std::alloc::Global;
use std::sync::ledger::{Blank, Ledger};
use store_records::PlainRecords;

/// The modules that keep just these records, settled, with no mark open and no fact. The only error is
/// `NoMemory`.
pub fn modules_of<L: Ledger>(
    alloc: Global,
    records: PlainRecords,
    blank: Blank,
) -> Result<Modules, RecordFault>
    requires name { blank.name ≡ L.name }
    requires parts { blank.parts ≡ L.parts }
    requires some { 0 < L.parts }
    requires ascending { AreAscending (lists_seen records.lists) }
    requires least { 1 ≤ records.ctx.params.power_reduction }
    requires most { records.ctx.params.power_reduction ≤ 10 ^ 18 }
    ensures { IfOk result (AreLoaded (seen records)) }
{
    let mut steps: Steps<L> = Steps::new(blank);
    let mut modules = empty_modules(alloc, records.ctx);
    let filled = fill(alloc, &mut modules, records, &mut steps);
    filled_or_gone(modules, filled)
}

/// The modules, where they were filled; else they are let go of.
fn filled_or_gone(modules: Modules, filled: Result<(), RecordFault>) -> Result<Modules, RecordFault>
    ensures modules { IfOk result (λ same. same ≡ modules) }
    ensures filled { IfOk result (λ _. filled ≡ Ok tt) }
{
    match filled {
        Ok(()) => Ok(modules),
        Err(fault) => {
            let_go(modules);
            Err(fault)
        }
    }
}

/// Modules without records.
fn empty_modules(alloc: Global, ctx: Ctx) -> Modules
    requires least { 1 ≤ ctx.params.power_reduction }
    requires most { ctx.params.power_reduction ≤ 10 ^ 18 }
    ensures { IsNewOver (empty_ground ctx) result }
{
    let ground = Ground {
        bank: BankBalances::new(alloc),
        ctx,
        facts: Facts::new(alloc),
    };
    Modules::over(alloc, ground, NoHooks::new())
}

/// Puts records into modules that have none, and settles them.
fn fill<L: Ledger>(
    alloc: Global,
    modules: &mut Modules,
    records: PlainRecords,
    steps: &mut Steps<L>,
) -> Result<(), RecordFault>
    requires ascending { AreAscending (lists_seen records.lists) }
    requires empty { IsNewOver (empty_ground records.ctx) modules.old }
    ensures { OnOk result (AreLoaded (seen records) modules.new) }
{
    let items = items_of(alloc, records)?;
    load_modules(alloc, modules, &items, steps)?;
    ordered(modules);
    Ok(())
}

/// It tells that the keys of what modules keep ascend, and that validators stand under their operators. It does
/// nothing.
fn ordered(modules: &Modules)
    ensures lists { AreAscending (plain_in (kept_of modules.now)).lists }
    ensures shared { distr.AreInOrder (kept_of modules.now).shared }
{
    modules.ground.bank.ordered();
    modules.stakes.staking.ordered();
    modules.stakes.staking.keyed();
    modules.stakes.unbondings.ordered();
    modules.stakes.redelegations.ordered();
    modules.hooks.first.first.ordered();
    modules.hooks.second.ordered();
}

/// Puts items into modules that have none, each into that of its kind, and settles them.
fn load_modules<L: Ledger>(
    alloc: Global,
    modules: &mut Modules,
    items: &[Item],
    steps: &mut Steps<L>,
) -> Result<(), RecordFault>
    requires own { HaveOwnKeys items.now }
    requires empty { IsNewOver (empty_ground modules.old.ground.ctx) modules.old }
    ensures holds { OnOk result (HoldItems items.now (kept_of modules.new)) }
    ensures settled { OnOk result (settled_of modules.new ≡ parts_of modules.new) }
    ensures unmarked { OnOk result (marks_of modules.new ≡ no_marks) }
    ensures unspent { OnOk result (AreUnspent modules.new) }
    ensures power { OnOk result (AreSet modules.new) }
    ensures ctx { modules.new.ground.ctx ≡ modules.old.ground.ctx }
    ensures facts { modules.new.ground.facts ≡ [] }
{
    load_all(alloc, &mut modules.ground.bank, items, steps)?;
    load_staking(alloc, &mut modules.stakes.staking, items, steps)?;
    load_all(alloc, &mut modules.stakes.unbondings, items, steps)?;
    load_all(alloc, &mut modules.stakes.redelegations, items, steps)?;
    load_all(alloc, &mut modules.hooks.first.first, items, steps)?;
    load_all(alloc, &mut modules.hooks.second, items, steps)
}
