//! Lines of a block: of the largest numbers, and of results that are over the limit of decimals.

use crate::checks::holds;
use base_bech32::Form;
use base_decimals::{Dec, Over, OverKind};
use base_messages::{BlockReport, Outcome, TxReport};
use base_roles::{Fact, Facts, Listed, Refusal};
use base_types::{Addr, Moment};
use line_json::push_lines_of_block;
use std::process::Abort;

// What each kind of line looks like is shown by whole runs. Here are the largest numbers, and the outcomes that no run has.

fn time(rt: &impl Abort) -> Moment {
    Moment::of(1_704_067_205_000_000_000).expect(rt, "a moment")
}

/// The lines of a block.
fn lines_of(rt: &(impl Abort + AllocGlobal), report: &BlockReport) -> Vec<u8> {
    let mut text = Vec::new(rt.alloc());
    let pushed = push_lines_of_block(Form::Hex, rt.alloc(), &mut text, report);
    pushed.expect(rt, "lines");
    text
}

/// Whether the block at height 7 in which this happens at the end has this line behind its own.
fn tells(rt: &(impl Abort + AllocGlobal), fact: Fact, line: &str) -> bool {
    let mut ended = Facts::new(rt.alloc());
    ended.push(fact).expect(rt, "memory");
    let report = BlockReport {
        height: 7,
        time: time(rt),
        begun: Facts::new(rt.alloc()),
        txs: Listed::new(rt.alloc()),
        ended,
    };
    let wanted = format!(in rt.alloc();
        "{{\"height\":7,\"kind\":\"block\",\"time\":\"2024-01-01T00:00:05Z\"}}\n{line}\n"
    );
    lines_of(rt, &report).as_slice() == wanted.expect(rt, "memory").as_bytes()
}

#[test]
fn the_largest_numbers_are_written(rt: HostRuntime) {
    let user = Addr::of([0x33; 20]).expect(&rt, "a user");
    let most = Dec::from_raw(99_999_999_999_999_999_999_999_999_999_999_999_999);
    let started = Fact::Started {
        delegator: user,
        validator: user,
        period: 2,
        stake: most.expect(&rt, "below the limit"),
    };
    let line =
        "{\"delegator\":\"3333333333333333333333333333333333333333\",\"height\":7,\"kind\":\"started\",\"period\":2,\"stake\":\"99999999999999999999.999999999999999999\",\"validator\":\"3333333333333333333333333333333333333333\"}";
    holds(&rt, line, tells(&rt, started, line));
    let twentieth = Dec::from_raw(50_000_000_000_000_000);
    let slashed = Fact::Slashed {
        validator: user,
        fraction: twentieth.expect(&rt, "below the limit"),
        burned: 340_282_366_920_938_463_463_374_607_431_768_211_455,
    };
    let line =
        "{\"burned\":\"340282366920938463463374607431768211455\",\"fraction\":\"0.050000000000000000\",\"height\":7,\"kind\":\"slashed\",\"validator\":\"3333333333333333333333333333333333333333\"}";
    holds(&rt, line, tells(&rt, slashed, line));
}

/// Whether the block at height 7 whose only transaction ends so has this line behind its own.
fn ends(rt: &(impl Abort + AllocGlobal), outcome: Outcome, line: &str) -> bool {
    let tx = TxReport {
        facts: Facts::new(rt.alloc()),
        outcome,
    };
    let mut txs = Vec::new(rt.alloc());
    match txs.push(tx) {
        Ok(()) => (),
        Err(_) => rt.panic("memory"),
    }
    let report = BlockReport {
        height: 7,
        time: time(rt),
        begun: Facts::new(rt.alloc()),
        txs: Listed::of(txs),
        ended: Facts::new(rt.alloc()),
    };
    let wanted = format!(in rt.alloc();
        "{{\"height\":7,\"kind\":\"block\",\"time\":\"2024-01-01T00:00:05Z\"}}\n{line}\n"
    );
    lines_of(rt, &report).as_slice() == wanted.expect(rt, "memory").as_bytes()
}

fn over(kind: OverKind) -> Outcome {
    let operands = Over {
        kind,
        a: 8,
        b: 9,
        c: 10,
    };
    Outcome::Refused(0, Refusal::Overflow(operands))
}

#[test]
fn what_is_over_is_told_by_its_kind(rt: HostRuntime) {
    for (outcome, line) in [
        (
            over(OverKind::Sum),
            "{\"a\":\"8\",\"b\":\"9\",\"c\":\"10\",\"height\":7,\"kind\":\"refused\",\"msg\":0,\"number\":35,\"over\":\"sum\",\"tx\":0}",
        ),
        (
            over(OverKind::Period),
            "{\"a\":\"8\",\"b\":\"9\",\"c\":\"10\",\"height\":7,\"kind\":\"refused\",\"msg\":0,\"number\":35,\"over\":\"period\",\"tx\":0}",
        ),
        (
            Outcome::Refused(2, Refusal::TinyDelegation),
            "{\"height\":7,\"kind\":\"refused\",\"msg\":2,\"number\":37,\"tx\":0}",
        ),
        (
            Outcome::Refused(2, Refusal::ParamFixed(11)),
            "{\"height\":7,\"kind\":\"refused\",\"member\":11,\"msg\":2,\"number\":39,\"tx\":0}",
        ),
    ] {
        holds(&rt, line, ends(&rt, outcome, line));
    }
}
