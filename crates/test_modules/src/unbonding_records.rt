//! Entries as records: marks, items and changes.

ghost use Rattle.std.specs.Prelude.{◌≡◌, [], OnOk};
ghost use Rattle.base_roles.specs.Ground.{seen};
ghost use Rattle.test_modules.specs.UnbondingTrials.{IsFit};

use crate::unbonding_tests::{Scene, are, cancel, goes_on, has_entries, undelegate};
use base_roles::{Item, MessageFault, RecordFault, Records};
use base_types::Steps;
use mod_unbonding::Unbondings;
use std::process::Abort;
use std::sync::ledger::Ledger;

/// Two entries.
fn made<L: Ledger>(
    rt: &(impl Abort + AllocGlobal),
    scene: &mut Scene,
    steps: &mut Steps<L>,
) -> Result<(), MessageFault>
    requires { IsFit scene.old.unbondings.lists
        scene.old.staking.staked (seen (λ b. b.holdings) scene.old.g) }
    ensures fit { OnOk result (IsFit scene.new.unbondings.lists
        scene.new.staking.staked (seen (λ b. b.holdings) scene.new.g)) }
    ensures marks { OnOk result (scene.new.unbondings.marks ≡ scene.old.unbondings.marks) }
    ensures loaded { OnOk result (scene.new.loaded ≡ scene.old.loaded) }
{
    undelegate(rt, scene, 5, steps)?;
    goes_on(rt, scene, 2, 1);
    undelegate(rt, scene, 7, steps)?;
    Ok(())
}

/// Going back takes entries away.
pub(crate) fn goes_back<L: Ledger>(
    rt: &(impl Abort + AllocGlobal),
    scene: &mut Scene,
    steps: &mut Steps<L>,
) -> Result<bool, MessageFault>
    requires { IsFit scene.old.unbondings.lists
        scene.old.staking.staked (seen (λ b. b.holdings) scene.old.g) }
{
    scene.unbondings.mark(rt.alloc(), steps)?;
    made(rt, scene, steps)?;
    scene.unbondings.back(steps);
    Ok(has_entries(rt, scene, &[], steps)?)
}

/// Forgetting a mark leaves them.
pub(crate) fn keeps_made<L: Ledger>(
    rt: &(impl Abort + AllocGlobal),
    scene: &mut Scene,
    steps: &mut Steps<L>,
) -> Result<bool, MessageFault>
    requires { IsFit scene.old.unbondings.lists
        scene.old.staking.staked (seen (λ b. b.holdings) scene.old.g) }
{
    scene.unbondings.mark(rt.alloc(), steps)?;
    made(rt, scene, steps)?;
    scene.unbondings.forget(steps);
    Ok(has_entries(rt, scene, &[(1, 5, 5), (2, 7, 7)], steps)?)
}

/// Adds an item where no entries stand.
fn load_one<L: Ledger>(
    rt: &impl AllocGlobal,
    unbondings: &mut Unbondings,
    item: &Item,
    steps: &mut Steps<L>,
) -> Result<bool, RecordFault>
    requires { unbondings.old.lists ≡ [] }
    ensures { unbondings.new.marks ≡ unbondings.old.marks }
{
    unbondings.load(rt.alloc(), item, steps)
}

/// Loads the first item of other entries where none stand.
fn load_from<L: Ledger>(
    rt: &impl AllocGlobal,
    unbondings: &mut Unbondings,
    from: &Unbondings,
    steps: &mut Steps<L>,
) -> Result<bool, RecordFault>
    requires { unbondings.old.lists ≡ [] }
    ensures { unbondings.new.marks ≡ unbondings.old.marks }
{
    let mut items = Vec::new(rt.alloc());
    from.items_into(&mut items, steps)?;
    match items.get(0) {
        Some(item) => load_one(rt, unbondings, item, steps),
        None => Ok(false),
    }
}

/// Whether the one item is of two entries.
fn are_two(items: &[Item]) -> bool {
    match items.get(0) {
        Some(Item::Unbonding { entries, .. }) => {
            (items.len() == 1) & are(entries.as_slice(), &[(1, 5, 5), (2, 7, 7)])
        }
        _ => false,
    }
}

/// Whether two entries are listed.
fn lists_two<L: Ledger>(
    rt: &impl AllocGlobal,
    unbondings: &Unbondings,
    steps: &mut Steps<L>,
) -> Result<bool, RecordFault> {
    let mut items = Vec::new(rt.alloc());
    unbondings.items_into(&mut items, steps)?;
    Ok(are_two(&items))
}

/// Whether no change is told.
fn tells_nothing<L: Ledger>(
    rt: &impl AllocGlobal,
    unbondings: &Unbondings,
    steps: &mut Steps<L>,
) -> Result<bool, RecordFault> {
    let mut changes = Vec::new(rt.alloc());
    unbondings.changes_into(&mut changes, steps)?;
    Ok(changes.is_empty())
}

/// Items that are loaded and listed again, which are no changes.
pub(crate) fn loads<L: Ledger>(
    rt: &(impl Abort + AllocGlobal),
    scene: &mut Scene,
    steps: &mut Steps<L>,
) -> Result<bool, MessageFault>
    requires fit { IsFit scene.old.unbondings.lists
        scene.old.staking.staked (seen (λ b. b.holdings) scene.old.g) }
    requires nothing { scene.old.loaded.lists ≡ [] }
    requires unmarked { scene.old.loaded.marks ≡ [] }
{
    made(rt, scene, steps)?;
    let added = load_from(rt, &mut scene.loaded, &scene.unbondings, steps)?;
    scene.loaded.settle(steps);
    let listed = lists_two(rt, &scene.loaded, steps)?;
    let settled = tells_nothing(rt, &scene.loaded, steps)?;
    Ok(added & listed & settled)
}

/// Whether the changes since the last settling are one, which is new or gone.
fn tells_one<L: Ledger>(
    rt: &impl AllocGlobal,
    scene: &Scene,
    new: bool,
    steps: &mut Steps<L>,
) -> Result<bool, RecordFault> {
    let mut changes = Vec::new(rt.alloc());
    scene.unbondings.changes_into(&mut changes, steps)?;
    match changes.get(0) {
        Some((Item::Unbonding { entries, .. }, is_new)) => {
            Ok((changes.len() == 1) & (*is_new == new) & ((entries.len() == 0) != new))
        }
        _ => Ok(false),
    }
}

/// The change of an entry that is made, and then that of one that is cancelled.
pub(crate) fn tells_changes<L: Ledger>(
    rt: &(impl Abort + AllocGlobal),
    scene: &mut Scene,
    steps: &mut Steps<L>,
) -> Result<bool, MessageFault>
    requires fit { IsFit scene.old.unbondings.lists
        scene.old.staking.staked (seen (λ b. b.holdings) scene.old.g) }
    requires marks { scene.old.unbondings.marks ≡ [] }
{
    undelegate(rt, scene, 5, steps)?;
    let first = tells_one(rt, scene, true, steps)?;
    scene.unbondings.settle(steps);
    cancel(rt, scene, 5, 1, steps)?;
    let later = tells_one(rt, scene, false, steps)?;
    Ok(first & later)
}
