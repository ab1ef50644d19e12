//! Hooks that forget are called through their trait, alone and in a pair.

ghost use Rattle.std.specs.Prelude.{◌≡◌, ◌<◌};

use crate::checks::holds;
use crate::role_tests::empty_ground;
use crate::values::{coins, dec, validator};
use base_coins::Coins;
use base_roles::{Fact, Facts, HookPair};
use base_roles_example::callers::send_between_hooks;
use base_roles_example::forgetting::Forgetting;
use base_types::Steps;
use std::marker::Brand;
use std::process::Abort;
use std::sync::ledger::{Blank, Ledger};

/// The period of a start that is told at a place.
fn period_at(facts: &Facts, place: usize) -> Option<u64> {
    match facts.at(place) {
        Some(Fact::Started { period, .. }) => Some(*period),
        _ => None,
    }
}

/// The period that hooks tell which last saw a validator bonded at height 1.
fn period_alone<L: Ledger>(
    rt: &(impl Abort + AllocGlobal),
    blank: Blank,
    nothing: &Coins,
) -> Option<u64>
    requires name { blank.name ≡ L.name }
    requires parts { blank.parts ≡ L.parts }
    requires some { 0 < L.parts }
{
    let mut steps: Steps<L> = Steps::new(blank);
    let mut g = empty_ground(rt);
    let mut hooks = Forgetting { latest: 1 };
    let v = validator(rt, 5);
    let one = dec(rt, 1);
    let sent = send_between_hooks(
        rt.alloc(),
        &mut g,
        &mut hooks,
        &v,
        &v.operator,
        nothing,
        one,
        &mut steps,
    );
    sent.expect(rt, "coins that are sent");
    period_at(&g.facts, 0)
}

/// The periods that two such hooks tell, of which the second never saw one.
fn periods_of_both<L: Ledger>(
    rt: &(impl Abort + AllocGlobal),
    blank: Blank,
    nothing: &Coins,
) -> (Option<u64>, Option<u64>)
    requires name { blank.name ≡ L.name }
    requires parts { blank.parts ≡ L.parts }
    requires some { 0 < L.parts }
{
    let mut steps: Steps<L> = Steps::new(blank);
    let mut g = empty_ground(rt);
    let mut hooks = HookPair {
        first: Forgetting { latest: 1 },
        second: Forgetting { latest: 0 },
    };
    let v = validator(rt, 5);
    let one = dec(rt, 1);
    let sent = send_between_hooks(
        rt.alloc(),
        &mut g,
        &mut hooks,
        &v,
        &v.operator,
        nothing,
        one,
        &mut steps,
    );
    sent.expect(rt, "coins that are sent");
    (period_at(&g.facts, 0), period_at(&g.facts, 1))
}

#[test]
fn the_latest_height_is_told(rt: HostRuntime) {
    let nothing = coins(&rt, 0);
    let alone = period_alone::<Brand>(&rt, Blank::new(1), &nothing);
    holds(&rt, "alone", alone == Some(1));
    let both = periods_of_both::<Brand>(&rt, Blank::new(1), &nothing);
    holds(&rt, "in a pair", both == (Some(1), Some(0)));
}
