//! Statements: made, checked, and what is refused.

use crate::statements::{
    ONE, addr, coins, fees, start, stated, stated_after, two_stretches, two_thirds,
};
use base_coins::DecCoins;
use base_decimals::{Over, OverKind};
use base_types::Denom;
use mod_statement::{Entry, Statement, StatementFault, check};
use std::process::Abort;

fn units(rt: &impl Abort, coins: &DecCoins, name: &str) -> u128 {
    let denom = Denom::of(name.as_bytes()).expect(rt, "a denomination");
    coins.amount_of(&denom).raw()
}

fn in_uatom(rt: &impl Abort, coins: &DecCoins) -> u128 {
    units(rt, coins, "uatom")
}

// The low bound, the high one and the slack, in units of uatom.
fn expect_bounds(rt: &impl Abort, statement: &Statement, low: u128, high: u128, slack: u128) {
    assert_eq!(rt; in_uatom(rt, &statement.low), low);
    assert_eq!(rt; in_uatom(rt, &statement.high), high);
    assert_eq!(rt; in_uatom(rt, &statement.slack), slack);
}

// The stake is 1, and two thirds behind the slash: half of one fee and two ninths of another. The slack of
// uatom is 3 units for the first stretch, 4 and a third for the second, four times its ratio of a third, and
// the last ratio of a tenth three times: 8.97, rounded up. That of uosmo is 2 and 3, and a little more.
#[test]
fn bounds_over_two_stretches_round_each_share_by_itself(rt: HostRuntime) {
    let statement = stated_after(&rt, 0, 3, ONE / 10, two_stretches(&rt)).expect(&rt, "bounds");
    let low = 722_222_222_222_222_222;
    expect_bounds(&rt, &statement, low, low + 1, 9);
    assert_eq!(rt; units(&rt, &statement.low, "uosmo"), 3);
    assert_eq!(rt; units(&rt, &statement.high, "uosmo"), 4);
    assert_eq!(rt; units(&rt, &statement.slack, "uosmo"), 6);
    assert_eq!(rt; units(&rt, &statement.slack, "ustars"), 0);
}

#[test]
fn bounds_of_one_period_are_its_shares_rounded(rt: HostRuntime) {
    let whole = stated(
        &rt,
        588 * ONE,
        294_000_000_000_000,
        two_thirds(&rt, 882 * ONE),
    )
    .expect(&rt, "a statement");
    expect_bounds(&rt, &whole, 588 * ONE, 588 * ONE, 2_000_590);
    let cut = stated(
        &rt,
        666_666_666_666_666_000_000,
        333_333_333_333_333,
        two_thirds(&rt, 1000 * ONE),
    )
    .expect(&rt, "a statement");
    let low = 666_666_666_666_666_666_666;
    expect_bounds(&rt, &cut, low, low + 1, 2_000_668);
    assert!(rt; cut.delegator == addr(&rt, 2));
    assert!(rt; cut.operator == addr(&rt, 1));
    assert_eq!(rt; cut.height, 2);
    assert_eq!(rt; cut.removals, 0);
    assert_eq!(rt; in_uatom(&rt, &cut.reward), 666_666_666_666_666_000_000);
    assert_eq!(rt; in_uatom(&rt, &cut.ratio), 333_333_333_333_333);
    assert_eq!(rt; cut.entries.len(), 3);
}

// Two thirds of fees of 1,000 are at most 666.666666666666666667, and the slack is 2,000,668 units.
#[test]
fn a_reward_between_the_bounds_is_right_and_no_other(rt: HostRuntime) {
    let low = 666_666_666_666_666_666_666;
    let cases = [
        (666_666_666_666_666_000_000, true),
        (low + 1, true),
        (low + 2, false),
        (667 * ONE, false),
        (low - 2_000_668, true),
        (low - 2_000_669, false),
    ];
    for (reward, right) in &cases {
        let entries = two_thirds(&rt, 1000 * ONE);
        let statement = stated(&rt, *reward, 333_333_333_333_333, entries).expect(
            &rt,
            "a statement",
        );
        assert!(rt; check(rt.alloc(), &statement) == Ok(*right));
    }
}

#[test]
fn another_bound_is_not_right(rt: HostRuntime) {
    let entries = two_thirds(&rt, 1000 * ONE);
    let reward = 666_666_666_666_666_000_000;
    let mut statement = stated(&rt, reward, 333_333_333_333_333, entries).expect(
        &rt,
        "a statement",
    );
    statement.slack = coins(&rt, "uatom", 2_000_669);
    assert!(rt; check(rt.alloc(), &statement) == Ok(false));
    statement.slack = coins(&rt, "uatom", 2_000_668);
    assert!(rt; check(rt.alloc(), &statement) == Ok(true));
    statement.low = coins(&rt, "uosmo", 666_666_666_666_666_666_666);
    assert!(rt; check(rt.alloc(), &statement) == Ok(false));
}

// Two thirds of a fee, and one more entry, are no span.
fn is_no_span(rt: &(impl Abort + AllocGlobal), last: Entry) {
    let mut entries = two_thirds(rt, ONE);
    entries.push(last).expect(rt, "memory");
    assert!(rt; stated(rt, 0, 0, entries).err() == Some(StatementFault::NoSpan));
}

#[test]
fn entries_that_do_not_end_a_period_have_no_statement(rt: HostRuntime) {
    is_no_span(&rt, Entry::Touched);
    is_no_span(&rt, start(&rt, 1, 1, 1));
    is_no_span(&rt, fees(&rt, 1, 1));
    is_no_span(
        &rt,
        Entry::Slashed {
            burned: 1,
            tokens: 1,
        },
    );
}

// The second low bound is over before anything else: 9 * 10^37 units twice.
#[test]
fn a_sum_that_is_over_carries_its_operands(rt: HostRuntime) {
    let fee = 90_000_000_000_000_000_000 * ONE;
    let mut entries = Vec::new(rt.alloc());
    entries.push(start(&rt, 1, 1, 1)).expect(&rt, "memory");
    entries.push(fees(&rt, fee, 1)).expect(&rt, "memory");
    entries.push(fees(&rt, fee, 1)).expect(&rt, "memory");
    entries.push(Entry::Ended).expect(&rt, "memory");
    let over = Over {
        kind: OverKind::Sum,
        a: fee,
        b: fee,
        c: 0,
    };
    assert!(rt; stated(&rt, 0, 0, entries).err() == Some(StatementFault::Over(over)));
}
