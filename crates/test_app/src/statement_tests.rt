//! Reward statements that are made.

use crate::samples::*;
use base_io::{NoKeeper, SureSink, SureSource};
use run_app::{InputFault, Status, run};
use std::process::Abort;

/// An account of 1,000 uatom, and a validator of a rate of 0.1 with delegations of 1,000,000 and 2,000,000.
const STAKED: &str =
    r#"{"address":"4000000000000000000000000000000000000009","coins":[{"denom":"uatom","amount":"1000"}]}],"validators":[{"operator":"4000000000000000000000000000000000000001","cons":"5000000000000000000000000000000000000001","rate":"0.1","max_rate":"1","max_change_rate":"1","min_self_delegation":"1"}],"delegations":[{"delegator":"400000000000000000000000000000000000000a","validator":"4000000000000000000000000000000000000001","amount":"1000000"},{"delegator":"400000000000000000000000000000000000000b","validator":"4000000000000000000000000000000000000001","amount":"2000000"}]}"#;

/// All of the account's coins are a fee.
const FEE: &str =
    r#"{"kind":"block","height":1,"time":"2024-01-01T00:00:05Z","votes":[],"evidence":[],"txs":[{"payer":"4000000000000000000000000000000000000009","fee":[{"denom":"uatom","amount":"1000"}],"msgs":[]}]}"#;

/// It is allocated, and the second delegator withdraws.
const WITHDRAWAL: &str =
    r#"{"kind":"block","height":2,"time":"2024-01-01T00:00:10Z","votes":[{"cons":"5000000000000000000000000000000000000001","power":3,"signed":true}],"evidence":[],"txs":[{"payer":"400000000000000000000000000000000000000b","fee":[],"msgs":[{"kind":"withdraw_reward","delegator":"400000000000000000000000000000000000000b","validator":"4000000000000000000000000000000000000001"}]}]}"#;

/// Two thirds of 980 less a tenth, as the line of a statement.
const STATEMENT: &str =
    r#"{"delegator":"400000000000000000000000000000000000000b","entries":[{"kind":"started","shares":"2000000.000000000000000000","tokens":"3000000","total":"3000000.000000000000000000"},{"coins":[{"amount":"882.000000000000000000","denom":"uatom"}],"kind":"allocated","tokens":"3000000"},{"kind":"ended"}],"height":2,"high":[{"amount":"588.000000000000000000","denom":"uatom"}],"kind":"statement","low":[{"amount":"588.000000000000000000","denom":"uatom"}],"ratio":[{"amount":"0.000294000000000000","denom":"uatom"}],"removals":0,"reward":[{"amount":"588.000000000000000000","denom":"uatom"}],"slack":[{"amount":"0.000000000002000590","denom":"uatom"}],"validator":"4000000000000000000000000000000000000001"}"#;

/// How `statement` of this delegator ends, over an input in pieces of 7 bytes, and what it writes.
fn stated(rt: &(impl Abort + AllocGlobal), delegator: &str, lines: &[&str]) -> (Status, Vec<u8>) {
    let mut input = Vec::new(rt.alloc());
    push_staked_genesis(rt, &mut input, STAKED);
    input
        .extend_from_slice(&text(rt, lines))
        .expect(rt, "memory");
    let mut source = SureSource::new(input, 7);
    let mut sink = SureSink::new(rt.alloc());
    let words = command(
        rt,
        &[
            "statement",
            delegator,
            "4000000000000000000000000000000000000001",
        ],
    );
    let mut keeper = NoKeeper::new(rt.alloc());
    let status = run(rt.alloc(), &words, &mut source, &mut sink, &mut keeper);
    let written = Vec::from_slice(rt.alloc(), sink.bytes());
    (status, written.expect(rt, "memory"))
}

#[test]
fn a_payment_has_a_statement(rt: HostRuntime) {
    let second = "400000000000000000000000000000000000000b";
    let (status, written) = stated(&rt, second, &[FEE, WITHDRAWAL]);
    assert_eq!(rt; status, Status::Done);
    assert!(rt; written.as_slice() == text(&rt, &[STATEMENT]).as_slice());
    for (delegator, lines, end) in [
        (
            second,
            [FEE, "{}"],
            Status::BadInput(3, InputFault::BadShape(60)),
        ),
        (
            "400000000000000000000000000000000000000a",
            [FEE, WITHDRAWAL],
            Status::NotFound,
        ),
        (
            "0000000000000000000000000000000000000004",
            [FEE, WITHDRAWAL],
            Status::NotFound,
        ),
    ] {
        let (status, written) = stated(&rt, delegator, &lines);
        assert_eq!(rt; status, end);
        assert!(rt; written.is_empty());
    }
}
