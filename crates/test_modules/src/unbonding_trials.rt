//! The test of unbonding entries, trial by trial, each over a ground of its own.

ghost use Rattle.std.specs.Prelude.{◌≡◌, ◌<◌, []};
ghost use Rattle.base_roles.specs.Ground.{seen};
ghost use Rattle.test_modules.specs.UnbondingTrials.{IsFit};

use crate::unbonding_records::{goes_back, keeps_made, loads, tells_changes};
use crate::unbonding_tests::{Scene, opened};
use base_roles::MessageFault;
use base_types::Steps;
use std::marker::Brand;
use std::process::Abort;
use std::sync::ledger::{Blank, Ledger};

/// What is tried, each over a ground of its own.
#[derive(Clone, Copy, Debug)]
enum Trial {
    GoesBack,
    KeepsMade,
    Loads,
    TellsChanges,
}

fn passes<L: Ledger>(
    rt: &(impl Abort + AllocGlobal),
    scene: &mut Scene,
    trial: Trial,
    steps: &mut Steps<L>,
) -> Result<bool, MessageFault>
    requires fit { IsFit scene.old.unbondings.lists
        scene.old.staking.staked (seen (λ b. b.holdings) scene.old.g) }
    requires marks { scene.old.unbondings.marks ≡ [] }
    requires nothing { scene.old.loaded.lists ≡ [] }
    requires unmarked { scene.old.loaded.marks ≡ [] }
{
    match trial {
        Trial::GoesBack => goes_back(rt, scene, steps),
        Trial::KeepsMade => keeps_made(rt, scene, steps),
        Trial::Loads => loads(rt, scene, steps),
        Trial::TellsChanges => tells_changes(rt, scene, steps),
    }
}

/// Whether a trial passes. It is the one owner of a scene, with one way out behind it.
fn tried<L: Ledger>(
    rt: &(impl Abort + AllocGlobal),
    trial: Trial,
    blank: Blank,
) -> Result<bool, MessageFault>
    requires name { blank.name ≡ L.name }
    requires parts { blank.parts ≡ L.parts }
    requires some { 0 < L.parts }
{
    let mut steps: Steps<L> = Steps::new(blank);
    let mut scene = opened(rt, &mut steps)?;
    passes(rt, &mut scene, trial, &mut steps)
}

#[test]
fn entries_are_kept_and_listed(rt: HostRuntime) {
    for trial in [
        Trial::GoesBack,
        Trial::KeepsMade,
        Trial::Loads,
        Trial::TellsChanges,
    ] {
        assert!(rt;
            tried::<Brand>(&rt, trial, Blank::new(1)) == Ok(true),
            "{trial:?}"
        );
    }
}
