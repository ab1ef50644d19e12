//! Reward statements that are checked.

use crate::samples::*;
use base_io::{NoKeeper, SureSink, SureSource};
use run_app::{InputFault, LimitKind, Status, run};
use std::process::Abort;

/// The statement of a delegator of two thirds of a validator's shares, of fees of 1,000 uatom, up to its reward.
const TWO_THIRDS: &str =
    r#"{"delegator":"400000000000000000000000000000000000000b","entries":[{"kind":"started","shares":"2000000.000000000000000000","tokens":"3000000","total":"3000000.000000000000000000"},{"coins":[{"amount":"1000.000000000000000000","denom":"uatom"}],"kind":"allocated","tokens":"3000000"},{"kind":"ended"}],"height":2,"high":[{"amount":"666.666666666666666667","denom":"uatom"}],"kind":"statement","low":[{"amount":"666.666666666666666666","denom":"uatom"}],"ratio":[{"amount":"0.000333333333333333","denom":"uatom"}],"removals":0,"reward":[{"amount":""#;

/// And from its reward on.
const BEHIND: &str =
    r#"","denom":"uatom"}],"slack":[{"amount":"0.000000000002000668","denom":"uatom"}],"validator":"4000000000000000000000000000000000000001"}"#;

/// A statement whose last entry ends no period.
const NO_SPAN: &str =
    r#"{"delegator":"400000000000000000000000000000000000005f","entries":[{"kind":"started","shares":"20.000000000000000000","tokens":"20","total":"20.000000000000000000"},{"kind":"ended"},{"kind":"ended"},{"kind":"touched"},{"kind":"ended"},{"burned":"6","kind":"slashed","tokens":"20"}],"height":6,"high":[],"kind":"statement","low":[],"ratio":[],"removals":1,"reward":[],"slack":[],"validator":"400000000000000000000000000000000000005f"}"#;

/// A statement of a fee of 99,999,999,999,999,999,999 uatom, whose slack is over.
const OVER: &str =
    r#"{"delegator":"400000000000000000000000000000000000000b","entries":[{"kind":"started","shares":"1","tokens":"1","total":"1"},{"coins":[{"amount":"99999999999999999999","denom":"uatom"}],"kind":"allocated","tokens":"1"},{"kind":"ended"}],"height":2,"high":[{"amount":"666.666666666666666667","denom":"uatom"}],"kind":"statement","low":[{"amount":"666.666666666666666666","denom":"uatom"}],"ratio":[{"amount":"0.000333333333333333","denom":"uatom"}],"removals":0,"reward":[{"amount":"666.666666666666000000","denom":"uatom"}],"slack":[{"amount":"0.000000000002000668","denom":"uatom"}],"validator":"4000000000000000000000000000000000000001"}"#;

const RIGHT_AND_WRONG: &str =
    "{\"kind\":\"checked\",\"line\":1,\"yes\":true}\n{\"kind\":\"checked\",\"line\":2,\"yes\":false}\n";

/// How a check of an input in pieces of 7 bytes ends, and what it writes.
fn checked(rt: &(impl Abort + AllocGlobal), input: Vec<u8>) -> (Status, Vec<u8>) {
    let mut source = SureSource::new(input, 7);
    let mut sink = SureSink::new(rt.alloc());
    let mut keeper = NoKeeper::new(rt.alloc());
    let words = words(rt, "check");
    let status = run(rt.alloc(), &words, &mut source, &mut sink, &mut keeper);
    let written = Vec::from_slice(rt.alloc(), sink.bytes());
    (status, written.expect(rt, "memory"))
}

/// The text of a statement with this reward.
fn rewarded(rt: &(impl Abort + AllocGlobal), reward: &str) -> String {
    let mut text = String::from_str(rt.alloc(), TWO_THIRDS).expect(rt, "memory");
    text.push_str(reward).expect(rt, "memory");
    text.push_str(BEHIND).expect(rt, "memory");
    text
}

/// How a check of a statement that is right, one that is wrong, and this third line ends.
fn third(rt: &(impl Abort + AllocGlobal), line: &str) -> Status {
    let right = rewarded(rt, "666.666666666666000000");
    let wrong = rewarded(rt, "667.000000000000000000");
    let (status, written) = checked(rt, text(rt, &[right.as_str(), wrong.as_str(), line]));
    assert!(rt; written.as_slice() == RIGHT_AND_WRONG.as_bytes());
    status
}

#[test]
fn statements_are_answered_line_by_line(rt: HostRuntime) {
    let (status, written) = checked(&rt, text(&rt, &[]));
    assert_eq!(rt; status, Status::Done);
    assert!(rt; written.is_empty());
    assert_eq!(rt;
        third(&rt, "{}"),
        Status::BadInput(3, InputFault::BadShape(120))
    );
    assert_eq!(rt;
        third(&rt, NO_SPAN),
        Status::BadInput(3, InputFault::BadShape(130))
    );
}

#[test]
fn bounds_that_are_over_end_a_check(rt: HostRuntime) {
    let (status, written) = checked(&rt, text(&rt, &[OVER]));
    assert!(rt; matches!(status, Status::Limit(1, LimitKind::Bound(_))));
    assert!(rt; written.is_empty());
}
