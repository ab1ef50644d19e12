//! The test of the bank, trial by trial, each over a scene of its own.

ghost use Rattle.std.specs.Prelude.{◌≡◌, ◌<◌, []};
ghost use Rattle.base_roles.specs.Holdings.{IsBacked};
ghost use Rattle.mod_bank.specs.Booked.{new_book};

use crate::bank_tests::{Scene, goes_back, loads, opened, tells_changes};
use base_roles::BankFault;
use base_types::Steps;
use std::marker::Brand;
use std::process::Abort;
use std::sync::ledger::{Blank, Ledger};

/// What is tried, each over a scene of its own.
#[derive(Clone, Copy, Debug)]
enum Trial {
    GoesBack,
    Loads,
    TellsChanges,
}

fn passes<L: Ledger>(
    rt: &(impl Abort + AllocGlobal),
    scene: &mut Scene,
    trial: Trial,
    steps: &mut Steps<L>,
) -> Result<bool, BankFault>
    requires backed { IsBacked scene.old.book.holdings }
    requires marks { scene.old.book.marks ≡ [] }
    requires empty { scene.old.empty ≡ new_book }
{
    match trial {
        Trial::GoesBack => goes_back(rt, scene, steps),
        Trial::Loads => loads(rt, scene, steps),
        Trial::TellsChanges => tells_changes(rt, scene, steps),
    }
}

/// Whether a trial passes. It is the one owner of a scene, with one way out behind it.
fn tried<L: Ledger>(
    rt: &(impl Abort + AllocGlobal),
    trial: Trial,
    blank: Blank,
) -> Result<bool, BankFault>
    requires name { blank.name ≡ L.name }
    requires parts { blank.parts ≡ L.parts }
    requires some { 0 < L.parts }
{
    let mut steps: Steps<L> = Steps::new(blank);
    let mut scene = opened(rt, &mut steps)?;
    passes(rt, &mut scene, trial, &mut steps)
}

#[test]
fn balances_are_kept_and_listed(rt: HostRuntime) {
    for trial in [Trial::GoesBack, Trial::Loads, Trial::TellsChanges] {
        assert!(rt;
            tried::<Brand>(&rt, trial, Blank::new(1)) == Ok(true),
            "{trial:?}"
        );
    }
}
