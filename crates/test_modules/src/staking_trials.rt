//! The test of staking, trial by trial, each over a ground of its own.

ghost use Rattle.std.specs.Prelude.{◌≡◌, ◌<◌, []};
ghost use Rattle.base_roles.specs.Ground.{seen};
ghost use Rattle.mod_staking.specs.Registered.{no_stake};
ghost use Rattle.test_modules.specs.StakingTrials.{IsFit};

use crate::staking_records::{goes_back, keeps, lists_in_order, loads, tells_changes};
use crate::staking_tests::{Scene, opened};
use base_roles::MessageFault;
use base_types::Steps;
use std::marker::Brand;
use std::process::Abort;
use std::sync::ledger::{Blank, Ledger};

/// What is tried, each over a ground of its own.
#[derive(Clone, Copy, Debug)]
enum Trial {
    ListsInOrder,
    GoesBack,
    Keeps,
    Loads,
    TellsChanges,
}

fn passes<L: Ledger>(
    rt: &(impl Abort + AllocGlobal),
    scene: &mut Scene,
    trial: Trial,
    steps: &mut Steps<L>,
) -> Result<bool, MessageFault>
    requires fit { IsFit scene.old.staking.staked (seen (λ b. b.holdings) scene.old.g) }
    requires marks { scene.old.staking.marks ≡ [] }
    requires nothing { scene.old.loaded.staked ≡ no_stake }
    requires unmarked { scene.old.loaded.marks ≡ [] }
{
    match trial {
        Trial::ListsInOrder => lists_in_order(rt, scene, steps),
        Trial::GoesBack => goes_back(rt, scene, steps),
        Trial::Keeps => keeps(rt, scene, steps),
        Trial::Loads => loads(rt, scene, steps),
        Trial::TellsChanges => tells_changes(rt, scene, steps),
    }
}

/// Whether a trial passes. It is the one owner of a scene, with one way out behind it.
fn tried<L: Ledger>(
    rt: &(impl Abort + AllocGlobal),
    trial: Trial,
    blank: Blank,
) -> Result<bool, MessageFault>
    requires name { blank.name ≡ L.name }
    requires parts { blank.parts ≡ L.parts }
    requires some { 0 < L.parts }
{
    let mut steps: Steps<L> = Steps::new(blank);
    let mut scene = opened(rt, &mut steps)?;
    passes(rt, &mut scene, trial, &mut steps)
}

#[test]
fn staking_keeps_and_lists_its_records(rt: HostRuntime) {
    for trial in [
        Trial::ListsInOrder,
        Trial::GoesBack,
        Trial::Keeps,
        Trial::Loads,
        Trial::TellsChanges,
    ] {
        assert!(rt;
            tried::<Brand>(&rt, trial, Blank::new(1)) == Ok(true),
            "{trial:?}"
        );
    }
}
