//! The test of F1, trial by trial, each over records of its own.

ghost use Rattle.std.specs.Prelude.{◌≡◌, ◌<◌};
ghost use Rattle.mod_periods.specs.Stands.{IsKept};

use crate::period_tests::{Scene, agrees, counts, opened};
use base_roles::MessageFault;
use base_types::Steps;
use std::marker::Brand;
use std::process::Abort;
use std::sync::ledger::{Blank, Ledger};

/// What is tried, each over records of its own.
#[derive(Clone, Copy, Debug)]
enum Trial {
    /// References are counted call by call.
    Counts,
    /// A program that keeps everything agrees, from a seed.
    Agrees(u64),
}

fn passes<L: Ledger>(
    rt: &(impl Abort + AllocGlobal),
    scene: &mut Scene,
    trial: Trial,
    steps: &mut Steps<L>,
) -> Result<bool, MessageFault>
    requires { IsKept scene.old.f.kept }
{
    match trial {
        Trial::Counts => counts(rt, scene, steps),
        Trial::Agrees(seed) => agrees(rt, scene, seed, steps),
    }
}

/// Whether a trial passes. It is the one owner of a scene, with one way out behind it.
fn tried<L: Ledger>(
    rt: &(impl Abort + AllocGlobal),
    trial: Trial,
    blank: Blank,
) -> Result<bool, MessageFault>
    requires name { blank.name ≡ L.name }
    requires parts { blank.parts ≡ L.parts }
    requires some { 0 < L.parts }
{
    let mut steps: Steps<L> = Steps::new(blank);
    let mut scene = opened(rt);
    passes(rt, &mut scene, trial, &mut steps)
}

#[test]
fn counts_and_rewards_are_those_of_plain_records(rt: HostRuntime) {
    for trial in [
        Trial::Counts,
        Trial::Agrees(1),
        Trial::Agrees(2),
        Trial::Agrees(3),
        Trial::Agrees(4),
        Trial::Agrees(5),
    ] {
        assert!(rt;
            tried::<Brand>(&rt, trial, Blank::new(1)) == Ok(true),
            "{trial:?}"
        );
    }
}
