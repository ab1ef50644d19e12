//! What each delegation's withdrawal would be paid from.

ghost use Rattle.std.specs.Prelude.{◌≡◌, ◌<◌, ◌++◌, filter, Some, Result, Err, IfOk, OnOk};
ghost use Rattle.base_decimals.specs.declared.over.Over.{Over};
ghost use Rattle.base_coins.specs.Coins.{Money};
ghost use Rattle.base_roles.specs.Staked.{delegation};
ghost use Rattle.rule_modules.specs.Chain.{State};
ghost use Rattle.mod_periods.specs.Answers.{Gives};
ghost use Rattle.rule_machine.specs.Report.{unless_over};
ghost use Rattle.chain_modules.specs.Kept.{StandsFor, kept_of, stakes_kept};
ghost use Rattle.chain_modules.specs.Marks.{AreAtRest};
ghost use Rattle.chain_whole.specs.Pending.{is_delegation_of, is_pending_to, own_of_item, pending_in, pending_of_item, pending_for, IsStanding};

use base_coins::DecCoins;
use base_decimals::Dec;
use base_messages::Pending;
use base_roles::{Extra, HookFault, Item, RecordFault, Records, ValidatorView};
use base_types::{Addr, Steps};
use chain_modules::Modules;
use std::alloc::Global;
use std::cmp::Ordering;
use std::sync::ledger::{Blank, Ledger};

/// The pending rewards of all delegations, by operator, then delegator. The only error is `NoMemory`.
pub(crate) fn pending_of<E: Extra, L: Ledger>(
    alloc: Global,
    modules: &Modules<E>,
    blank: Blank,
) -> Result<Vec<Pending>, RecordFault>
    requires name { blank.name ≡ L.name }
    requires parts { blank.parts ≡ L.parts }
    requires some { 0 < L.parts }
    requires rest { AreAtRest modules.now }
    ensures { (p : State) → StandsFor (kept_of modules.now) p
        → IfOk result (λ list. list.items ≡ pending_in p) }
{
    let mut steps: Steps<L> = Steps::new(blank);
    let mut items = Vec::new(alloc);
    modules.stakes.staking.items_into(&mut items, &mut steps)?;
    let mut list = Vec::new(alloc);
    for item in &items {
        append_pending(alloc, modules, &mut list, item, &mut steps)?;
    }
    Ok(list)
}

/// The pending rewards of one delegator, by operator. The only error is `NoMemory`.
pub(crate) fn pending_to<E: Extra, L: Ledger>(
    alloc: Global,
    modules: &Modules<E>,
    who: &Addr,
    blank: Blank,
) -> Result<Vec<Pending>, RecordFault>
    requires name { blank.name ≡ L.name }
    requires parts { blank.parts ≡ L.parts }
    requires some { 0 < L.parts }
    requires rest { AreAtRest modules.now }
    ensures { (p : State) → StandsFor (kept_of modules.now) p
        → IfOk result (λ list. list.items ≡ filter (is_pending_to who.now) (pending_in p)) }
{
    let mut steps: Steps<L> = Steps::new(blank);
    let mut items = Vec::new(alloc);
    modules.stakes.staking.items_into(&mut items, &mut steps)?;
    let mut list = Vec::new(alloc);
    for item in &items {
        append_own(alloc, modules, who, &mut list, item, &mut steps)?;
    }
    Ok(list)
}

/// Whether an item is a delegation of this delegator.
fn is_delegation_of(who: &Addr, item: &Item) -> bool
    ensures { result ≡ is_delegation_of who.now item.now }
{
    match item {
        Item::Delegation { delegator, .. } => who.cmp(delegator) == Ordering::Equal,
        _ => false,
    }
}

/// Appends the pending reward of a delegation of this delegator; another item changes nothing.
fn append_own<E: Extra, L: Ledger>(
    alloc: Global,
    modules: &Modules<E>,
    who: &Addr,
    list: &mut Vec<Pending>,
    item: &Item,
    steps: &mut Steps<L>,
) -> Result<(), RecordFault>
    requires rest { AreAtRest modules.now }
    requires standing { IsStanding (stakes_kept modules.now.stakes).staked item.now }
    ensures { (p : State) → StandsFor (kept_of modules.now) p
        → OnOk result (list.new.items ≡ list.old.items ++ own_of_item p who.now item.now) }
{
    if !is_delegation_of(who, item) {
        return Ok(());
    }
    append_pending(alloc, modules, list, item, steps)
}

/// Appends the pending reward of a delegation; another item changes nothing.
fn append_pending<E: Extra, L: Ledger>(
    alloc: Global,
    modules: &Modules<E>,
    list: &mut Vec<Pending>,
    item: &Item,
    steps: &mut Steps<L>,
) -> Result<(), RecordFault>
    requires rest { AreAtRest modules.now }
    requires standing { IsStanding (stakes_kept modules.now.stakes).staked item.now }
    ensures { (p : State) → StandsFor (kept_of modules.now) p
        → OnOk result (list.new.items ≡ list.old.items ++ pending_of_item p item.now) }
{
    match item {
        Item::Delegation {
            operator,
            delegator,
            shares,
        } => {
            let pending = pending_at(alloc, modules, operator, delegator, *shares, steps)?;
            list.push(pending)?;
        }
        _ => {}
    }
    Ok(())
}

/// What a withdrawal of a delegation at the last height would be paid from, or that its computation meets the
/// limit of decimals. The only error is `NoMemory`.
fn pending_at<E: Extra, L: Ledger>(
    alloc: Global,
    modules: &Modules<E>,
    operator: &Addr,
    delegator: &Addr,
    shares: Dec,
    steps: &mut Steps<L>,
) -> Result<Pending, RecordFault>
    requires rest { AreAtRest modules.now }
    requires standing { delegation (stakes_kept modules.now.stakes).staked
        delegator.now operator.now ≡ Some shares }
    ensures { (p : State) → StandsFor (kept_of modules.now) p → IfOk result
        (λ pending. pending ≡ pending_for p operator.now delegator.now shares) }
{
    // A delegation is to a validator that stands.
    let v = *modules.stakes.staking.validator(operator, steps).unwrap();
    let height = modules.ground.ctx.height;
    let coins = unless_over(
        modules
            .hooks
            .first
            .first
            .pending(alloc, &v, delegator, shares, height, steps),
    )?;
    Ok(Pending {
        delegator: *delegator,
        operator: *operator,
        coins,
    })
}

/// The coins of an answer, or None where their computation meets the limit. The only error is `NoMemory`.
fn unless_over(answer: Result<DecCoins, HookFault>) -> Result<Option<DecCoins>, RecordFault>
    ensures { (due : Result Money Over) → Gives due answer
        → IfOk result (λ coins. coins ≡ unless_over due) }
{
    match answer {
        Ok(coins) => Ok(Some(coins)),
        Err(fault) => none_if_over(fault),
    }
}

/// None where the fault is that the limit was met. The only error is `NoMemory`.
fn none_if_over(fault: HookFault) -> Result<Option<DecCoins>, RecordFault>
    ensures { (due : Result Money Over) → Gives due (Err fault)
        → IfOk result (λ coins. coins ≡ unless_over due) }
{
    match fault {
        HookFault::Over(_) => Ok(None),
        HookFault::NoMemory => Err(RecordFault::NoMemory),
    }
}
