//! Ballots that are counted over the rows of a run.

use crate::samples::*;
use base_io::{SureKeeper, SureSink, SureSource};
use run_app::{InputFault, Status, run};
use std::process::Abort;

/// The validators and delegations of a genesis: an operator with 600,000 uatom and two more delegators.
const STAKED: &str =
    r#"],"validators":[{"operator":"3333333333333333333333333333333333333333","cons":"4444444444444444444444444444444444444444","rate":"0.1","max_rate":"0.5","max_change_rate":"0.01","min_self_delegation":"1"}],"delegations":[{"delegator":"3333333333333333333333333333333333333333","validator":"3333333333333333333333333333333333333333","amount":"600000"},{"delegator":"1111111111111111111111111111111111111111","validator":"3333333333333333333333333333333333333333","amount":"300000"},{"delegator":"2222222222222222222222222222222222222222","validator":"3333333333333333333333333333333333333333","amount":"100000"}]}"#;

const OPERATOR_YES: &str =
    r#"{"kind":"ballot","voter":"3333333333333333333333333333333333333333","option":"yes"}"#;

const OPERATOR_ABSTAINS: &str =
    r#"{"kind":"ballot","voter":"3333333333333333333333333333333333333333","option":"abstain"}"#;

const DELEGATOR_NO: &str =
    r#"{"kind":"ballot","voter":"1111111111111111111111111111111111111111","option":"no"}"#;

const NO_CHOICE: &str = r#"{"kind":"ballot","voter":"1111111111111111111111111111111111111111"}"#;

const NOTHING_CAST: &str =
    "{\"abstain\":\"0.000000000000000000\",\"bonded\":\"1000000\",\"kind\":\"tally\",\"no\":\"0.000000000000000000\",\"no_with_veto\":\"0.000000000000000000\",\"yes\":\"0.000000000000000000\"}\n";

const YES_AND_NO: &str =
    "{\"abstain\":\"0.000000000000000000\",\"bonded\":\"1000000\",\"kind\":\"tally\",\"no\":\"300000.000000000000000000\",\"no_with_veto\":\"0.000000000000000000\",\"yes\":\"700000.000000000000000000\"}\n";

const ABSTAIN_AND_NO: &str =
    "{\"abstain\":\"700000.000000000000000000\",\"bonded\":\"1000000\",\"kind\":\"tally\",\"no\":\"300000.000000000000000000\",\"no_with_veto\":\"0.000000000000000000\",\"yes\":\"0.000000000000000000\"}\n";

/// How a run of this command ends over the keeper and an input in pieces of 7 bytes, and what it writes.
fn ends(
    rt: &(impl Abort + AllocGlobal),
    keeper: &mut SureKeeper,
    word: &str,
    input: Vec<u8>,
) -> (Status, Vec<u8>) {
    let mut source = SureSource::new(input, 7);
    let mut sink = SureSink::new(rt.alloc());
    let words = words(rt, word);
    let status = run(rt.alloc(), &words, &mut source, &mut sink, keeper);
    let written = Vec::from_slice(rt.alloc(), sink.bytes());
    (status, written.expect(rt, "memory"))
}

#[test]
fn ballots_are_counted_over_a_store(rt: HostRuntime) {
    let mut keeper = SureKeeper::new(rt.alloc(), Vec::new(rt.alloc()));
    let none = text(&rt, &[]);
    assert!(rt; ends(&rt, &mut keeper, "tally", none).0 == Status::WrongStore(true));
    let mut genesis = Vec::new(rt.alloc());
    push_staked_genesis(&rt, &mut genesis, STAKED);
    assert!(rt; ends(&rt, &mut keeper, "replay", genesis).0 == Status::Done);
    for (ballots, line) in [
        ([""; 0].as_slice(), NOTHING_CAST),
        ([OPERATOR_YES, DELEGATOR_NO].as_slice(), YES_AND_NO),
        (
            [OPERATOR_YES, DELEGATOR_NO, OPERATOR_ABSTAINS].as_slice(),
            ABSTAIN_AND_NO,
        ),
    ] {
        let (status, written) = ends(&rt, &mut keeper, "tally", text(&rt, ballots));
        assert_eq!(rt; status, Status::Done);
        assert!(rt; written.as_slice() == line.as_bytes());
    }
    let cut = text(&rt, &[OPERATOR_YES, NO_CHOICE, DELEGATOR_NO]);
    let (status, written) = ends(&rt, &mut keeper, "tally", cut);
    assert_eq!(rt; status, Status::BadInput(2, InputFault::BadShape(142)));
    assert!(rt; written.is_empty());
}
