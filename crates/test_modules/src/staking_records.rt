//! The order of validators, and staking as records: marks, items and changes.

ghost use Rattle.std.specs.Prelude.{◌≡◌, ℕ, List, [], OnOk};
ghost use Rattle.base_roles.specs.declared.items.Item.TheVariants as item;
ghost use Rattle.base_roles.specs.Ground.{seen, IsInOrder};
ghost use Rattle.base_roles.specs.Items.{HasRoom};
ghost use Rattle.mod_staking.specs.Calls.{IsSoundStake};
ghost use Rattle.mod_staking.specs.Registered.{no_stake};
ghost use Rattle.mod_staking.specs.Items.{items_of};
ghost use Rattle.test_modules.specs.StakingTrials.{IsFit};

use crate::staking_tests::{ONE, Scene, addr, create, has, message};
use base_decimals::Dec;
use base_roles::{
    Item, MessageFault, NoHooks, RecordFault, Records, Unbonder, Validator, ValidatorView,
};
use base_types::{Addr, ConsAddr, Steps};
use mod_staking::Staking;
use std::process::Abort;
use std::sync::ledger::Ledger;

// ---- calls with their conditions: each answers false, and changes nothing, where one isn't met

/// The operator takes out all that it holds.
fn unbond_first<L: Ledger>(
    rt: &(impl Abort + AllocGlobal),
    scene: &mut Scene,
    steps: &mut Steps<L>,
) -> Result<bool, MessageFault>
    requires sound { IsSoundStake scene.old.staking.staked }
    requires order { IsInOrder (seen (λ b. b.holdings) scene.old.g) }
    ensures sound { OnOk result (IsSoundStake scene.new.staking.staked) }
    ensures order { OnOk result (IsInOrder (seen (λ b. b.holdings) scene.new.g)) }
{
    let operator = addr(rt, 1);
    let held = match scene.staking.shares_of(&operator, &operator, steps) {
        Some(held) => held,
        None => return Ok(false),
    };
    scene.staking.unbond(
        rt.alloc(),
        &mut scene.g,
        &mut NoHooks::new(),
        &operator,
        &operator,
        held,
        steps,
    )?;
    Ok(true)
}

/// A validator of user 1, with 100 of 100.
fn made<L: Ledger>(
    rt: &(impl Abort + AllocGlobal),
    scene: &mut Scene,
    steps: &mut Steps<L>,
) -> Result<(), MessageFault>
    requires fit { IsFit scene.old.staking.staked (seen (λ b. b.holdings) scene.old.g) }
    requires marks { scene.old.staking.marks ≡ [] }
    ensures fit { OnOk result
        (IsFit scene.new.staking.staked (seen (λ b. b.holdings) scene.new.g)) }
    ensures marks { OnOk result (scene.new.staking.marks ≡ []) }
    ensures loaded { scene.new.loaded ≡ scene.old.loaded }
{
    create(rt, scene, &message(rt, 1, 1, 1, 100), steps)
}

/// Whether the validator of a user follows that of another, or is the first, or none is.
fn follows<L: Ledger>(
    rt: &impl Abort,
    scene: &Scene,
    after: Option<u8>,
    next: Option<u8>,
    steps: &mut Steps<L>,
) -> bool {
    let after = match after {
        Some(user) => Some(addr(rt, user)),
        None => None,
    };
    match (scene.staking.next_validator(after.as_ref(), steps), next) {
        (Some(v), Some(user)) => v.operator == addr(rt, user),
        (None, None) => true,
        _ => false,
    }
}

/// Two validators, of which the higher was created first, in their order.
pub(crate) fn lists_in_order<L: Ledger>(
    rt: &(impl Abort + AllocGlobal),
    scene: &mut Scene,
    steps: &mut Steps<L>,
) -> Result<bool, MessageFault>
    requires { IsFit scene.old.staking.staked (seen (λ b. b.holdings) scene.old.g) }
{
    create(rt, scene, &message(rt, 2, 2, 1, 5), steps)?;
    create(rt, scene, &message(rt, 1, 1, 1, 5), steps)?;
    let first = follows(rt, scene, None, Some(1), steps);
    let second = follows(rt, scene, Some(1), Some(2), steps);
    let last = follows(rt, scene, Some(2), None, steps);
    Ok(first & second & last)
}

// ---- records

/// Going back takes a validator away.
pub(crate) fn goes_back<L: Ledger>(
    rt: &(impl Abort + AllocGlobal),
    scene: &mut Scene,
    steps: &mut Steps<L>,
) -> Result<bool, MessageFault>
    requires { IsFit scene.old.staking.staked (seen (λ b. b.holdings) scene.old.g) }
{
    scene.staking.mark(rt.alloc(), steps)?;
    create(rt, scene, &message(rt, 1, 1, 1, 100), steps)?;
    scene.staking.back(steps);
    Ok(follows(rt, scene, None, None, steps))
}

/// Forgetting a mark leaves one.
pub(crate) fn keeps<L: Ledger>(
    rt: &(impl Abort + AllocGlobal),
    scene: &mut Scene,
    steps: &mut Steps<L>,
) -> Result<bool, MessageFault>
    requires { IsFit scene.old.staking.staked (seen (λ b. b.holdings) scene.old.g) }
{
    scene.staking.mark(rt.alloc(), steps)?;
    create(rt, scene, &message(rt, 1, 1, 1, 100), steps)?;
    scene.staking.forget(steps);
    Ok(has(rt, scene, 1, 100, 100 * ONE, steps))
}

/// Adds a validator to staking where nothing stands.
fn load_validator<L: Ledger>(
    rt: &impl AllocGlobal,
    staking: &mut Staking,
    validator: &Validator,
    steps: &mut Steps<L>,
) -> Result<bool, RecordFault>
    requires { staking.old.staked ≡ no_stake }
    ensures room { OnOk result ((operator delegator : List ℕ) (shares : ℕ) → HasRoom
        (items_of staking.new.staked) (item.Delegation operator delegator shares)) }
    ensures marks { staking.new.marks ≡ staking.old.marks }
{
    let first = Item::Validator {
        validator: *validator,
    };
    staking.load(rt.alloc(), &first, steps)
}

/// Adds a delegation to staking that has none of its key.
fn load_delegation<L: Ledger>(
    rt: &impl AllocGlobal,
    staking: &mut Staking,
    operator: &Addr,
    delegator: &Addr,
    shares: Dec,
    steps: &mut Steps<L>,
) -> Result<bool, RecordFault>
    requires { HasRoom (items_of staking.old.staked)
        (item.Delegation operator.now delegator.now shares) }
    ensures { staking.new.marks ≡ staking.old.marks }
{
    let second = Item::Delegation {
        operator: *operator,
        delegator: *delegator,
        shares,
    };
    staking.load(rt.alloc(), &second, steps)
}

/// Adds the validator and the delegation among these items to staking where nothing stands.
fn load_two<L: Ledger>(
    rt: &impl AllocGlobal,
    staking: &mut Staking,
    items: &[Item],
    steps: &mut Steps<L>,
) -> Result<bool, RecordFault>
    requires { staking.old.staked ≡ no_stake }
    ensures { staking.new.marks ≡ staking.old.marks }
{
    match (items.get(0), items.get(1)) {
        (
            Some(Item::Validator { validator }),
            Some(
                Item::Delegation {
                    operator,
                    delegator,
                    shares,
                },
            ),
        ) => {
            load_validator(rt, staking, validator, steps)?;
            load_delegation(rt, staking, operator, delegator, *shares, steps)
        }
        _ => Ok(false),
    }
}

/// Loads staking where nothing stands from the items of another.
fn load_from<L: Ledger>(
    rt: &impl AllocGlobal,
    staking: &mut Staking,
    from: &Staking,
    steps: &mut Steps<L>,
) -> Result<bool, RecordFault>
    requires { staking.old.staked ≡ no_stake }
    ensures { staking.new.marks ≡ staking.old.marks }
{
    let mut items = Vec::new(rt.alloc());
    from.items_into(&mut items, steps)?;
    load_two(rt, staking, &items, steps)
}

/// Whether these are the validator of user 1 with 100 tokens, and its own delegation of 100 shares.
fn are_of_first(rt: &impl Abort, items: &[Item]) -> bool {
    let operator = addr(rt, 1);
    let validator = match items.get(0) {
        Some(Item::Validator { validator }) => {
            validator.operator == operator && validator.tokens == 100
        }
        _ => false,
    };
    let delegation = match items.get(1) {
        Some(
            Item::Delegation {
                delegator,
                shares,
                ..
            },
        ) => *delegator == operator && shares.raw() == 100 * ONE,
        _ => false,
    };
    (items.len() == 2) & (validator & delegation)
}

/// Whether staking lists the items of user 1.
fn lists_first<L: Ledger>(
    rt: &(impl Abort + AllocGlobal),
    staking: &Staking,
    steps: &mut Steps<L>,
) -> Result<bool, RecordFault> {
    let mut items = Vec::new(rt.alloc());
    staking.items_into(&mut items, steps)?;
    Ok(are_of_first(rt, &items))
}

/// Whether staking tells no change.
fn tells_nothing<L: Ledger>(
    rt: &impl AllocGlobal,
    staking: &Staking,
    steps: &mut Steps<L>,
) -> Result<bool, RecordFault> {
    let mut changes = Vec::new(rt.alloc());
    staking.changes_into(&mut changes, steps)?;
    Ok(changes.is_empty())
}

/// Items that are loaded and listed again, which are no changes, and by which a consensus address is found.
pub(crate) fn loads<L: Ledger>(
    rt: &(impl Abort + AllocGlobal),
    scene: &mut Scene,
    steps: &mut Steps<L>,
) -> Result<bool, MessageFault>
    requires fit { IsFit scene.old.staking.staked (seen (λ b. b.holdings) scene.old.g) }
    requires marks { scene.old.staking.marks ≡ [] }
    requires nothing { scene.old.loaded.staked ≡ no_stake }
    requires unmarked { scene.old.loaded.marks ≡ [] }
{
    made(rt, scene, steps)?;
    let first = lists_first(rt, &scene.staking, steps)?;
    let both = load_from(rt, &mut scene.loaded, &scene.staking, steps)?;
    scene.loaded.settle(steps);
    let again = lists_first(rt, &scene.loaded, steps)?;
    let settled = tells_nothing(rt, &scene.loaded, steps)?;
    let found = scene
        .loaded
        .by_cons(&ConsAddr::of([1; 20]), steps)
        .is_some();
    Ok(first & both & again & settled & found)
}

/// The changes since the last settling are all new, or all gone.
fn are_all(changes: &[(Item, bool)], new: bool) -> bool {
    (changes.len() == 2) && changes.iter().all(|change| change.1 == new)
}

/// Whether the changes are two that are all new, or all gone.
fn tells_two<L: Ledger>(
    rt: &(impl Abort + AllocGlobal),
    scene: &Scene,
    new: bool,
    steps: &mut Steps<L>,
) -> Result<bool, RecordFault> {
    let mut changes = Vec::new(rt.alloc());
    scene.staking.changes_into(&mut changes, steps)?;
    Ok(are_all(&changes, new))
}

/// The changes of a validator that is created, and then those once it went.
pub(crate) fn tells_changes<L: Ledger>(
    rt: &(impl Abort + AllocGlobal),
    scene: &mut Scene,
    steps: &mut Steps<L>,
) -> Result<bool, MessageFault>
    requires fit { IsFit scene.old.staking.staked (seen (λ b. b.holdings) scene.old.g) }
    requires marks { scene.old.staking.marks ≡ [] }
{
    made(rt, scene, steps)?;
    let first = tells_two(rt, scene, true, steps)?;
    scene.staking.settle(steps);
    let emptied = unbond_first(rt, scene, steps)?;
    let later = tells_two(rt, scene, false, steps)?;
    Ok(first & (emptied & later))
}
