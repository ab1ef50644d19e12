use crate::stakes::{addr, dec, staked};
use base_types::Addr;
use mod_tally::{Ballots, Choice, Tally, count, tally};
use std::process::Abort;

/// The tally of ballots over the validators and delegations.
fn counted(rt: &(impl Abort + AllocGlobal), cast: &[(Addr, Choice)]) -> Tally {
    let items = staked(rt);
    tally(rt.alloc(), &items, cast).expect(rt, "memory")
}

/// The same of ballots that were cast one by one.
fn counted_one_by_one(rt: &(impl Abort + AllocGlobal), ballots: &Ballots) -> Tally {
    let items = staked(rt);
    count(rt.alloc(), &items, ballots).expect(rt, "memory")
}

/// The totals of raw numbers: yes, abstain, no and veto.
fn totals(rt: &impl Abort, raw: [u128; 4]) -> Tally {
    Tally {
        yes: dec(rt, raw[0]),
        abstain: dec(rt, raw[1]),
        no: dec(rt, raw[2]),
        veto: dec(rt, raw[3]),
        bonded: 1_000_022,
    }
}

/// Whether ballots come to these totals.
fn come_to(rt: &(impl Abort + AllocGlobal), cast: &[(Addr, Choice)], wanted: [u128; 4]) -> bool {
    counted(rt, cast) == totals(rt, wanted)
}

#[test]
fn ballots_count_by_stake(rt: HostRuntime) {
    let operator = addr(&rt, 33);
    let slashed = addr(&rt, 133);
    // 300,000 of the first validator, and one of 22.88 shares of the one that was slashed
    let of_both = addr(&rt, 45);
    let of_slashed = addr(&rt, 149);
    let without_stake = addr(&rt, 231);
    let none: [(Addr, Choice); 0] = [];
    let of_first = [(operator, Choice::Yes), (of_both, Choice::No)];
    let cast_twice = [
        (slashed, Choice::Yes),
        (slashed, Choice::Veto),
        (without_stake, Choice::Veto),
        (of_slashed, Choice::Abstain),
        (of_slashed, Choice::Yes),
    ];
    let first = [
        700_000_000_000_000_000_000_000,
        0,
        300_000_961_538_461_538_461_538,
        0,
    ];
    let second = [4_230_769_230_769_230_769, 0, 0, 17_769_230_769_230_769_231];
    for (cast, wanted) in [
        (none.as_slice(), [0; 4]),
        (of_first.as_slice(), first),
        (cast_twice.as_slice(), second),
    ] {
        assert!(rt; come_to(&rt, cast, wanted));
    }
}

#[test]
fn ballots_are_cast_one_by_one(rt: HostRuntime) {
    let operator = addr(&rt, 33);
    let delegator = addr(&rt, 51);
    let mut ballots = Ballots::new(rt.alloc());
    assert!(rt; ballots.choice_of(&operator).is_none());
    for (voter, choice) in [
        (operator, Choice::Yes),
        (delegator, Choice::No),
        (operator, Choice::Abstain),
    ] {
        assert!(rt; ballots.cast(voter, choice).is_ok());
    }
    assert!(rt; ballots.choice_of(&operator) == Some(Choice::Abstain));
    let wanted = [
        0,
        900_000_000_000_000_000_000_000,
        100_000_000_000_000_000_000_000,
        0,
    ];
    assert!(rt; counted_one_by_one(&rt, &ballots) == totals(&rt, wanted));
}
