//! A run with addresses as explorers print them, and a question in hexadecimal digits over what it kept.

use crate::samples::*;
use base_io::{SureKeeper, SureSink, SureSource};
use run_app::{InputFault, Status, run};
use std::process::Abort;

/// The input of the worked run, with addresses as explorers print them.
const GENESIS: &str =
    r#"{"kind":"genesis","time":"2024-01-01T00:00:00Z","params":{"bond_denom":"uatom","power_reduction":1000000,"unbonding_time":1814400,"max_validators":180,"max_entries":7,"min_commission_rate":"0","community_tax":"0.02","withdraw_addr_enabled":true,"signed_blocks_window":10000,"min_signed_per_window":"0.05","downtime_jail_duration":600,"slash_fraction_double_sign":"0.05","slash_fraction_downtime":"0.0001","max_age_duration":172800,"max_age_num_blocks":100000,"authority":"cosmos1nxvenxvenxvenxvenxvenxvenxvenxvejr7jnt"},"accounts":[{"address":"cosmos1zyg3zyg3zyg3zyg3zyg3zyg3zyg3zyg3pahzj0","coins":[{"denom":"uatom","amount":"1000"}]}],"validators":[],"delegations":[]}"#;

const BLOCK: &str =
    r#"{"kind":"block","height":1,"time":"2024-01-01T00:00:05Z","votes":[],"evidence":[],"txs":[{"payer":"cosmos1zyg3zyg3zyg3zyg3zyg3zyg3zyg3zyg3pahzj0","fee":[{"denom":"uatom","amount":"10"}],"msgs":[{"kind":"send","from":"cosmos1zyg3zyg3zyg3zyg3zyg3zyg3zyg3zyg3pahzj0","to":"cosmos1yg3zyg3zyg3zyg3zyg3zyg3zyg3zyg3zwqjy6c","coins":[{"denom":"uatom","amount":"100"}]}]}]}"#;

/// What it writes that has addresses.
const FEE: &str =
    r#"{"coins":[{"amount":"10","denom":"uatom"}],"from":"cosmos1zyg3zyg3zyg3zyg3zyg3zyg3zyg3zyg3pahzj0","height":1,"kind":"transfer","to":"fee_collector"}"#;

const SEND: &str =
    r#"{"coins":[{"amount":"100","denom":"uatom"}],"from":"cosmos1zyg3zyg3zyg3zyg3zyg3zyg3zyg3zyg3pahzj0","height":1,"kind":"transfer","to":"cosmos1yg3zyg3zyg3zyg3zyg3zyg3zyg3zyg3zwqjy6c"}"#;

const PAYER: &str =
    r#"{"address":"cosmos1zyg3zyg3zyg3zyg3zyg3zyg3zyg3zyg3pahzj0","coins":[{"amount":"890","denom":"uatom"}],"kind":"account"}"#;

const RECEIVER: &str =
    r#"{"address":"cosmos1yg3zyg3zyg3zyg3zyg3zyg3zyg3zyg3zwqjy6c","coins":[{"amount":"100","denom":"uatom"}],"kind":"account"}"#;

#[test]
fn addresses_are_spelled_behind_bech32(rt: HostRuntime) {
    let whole = text(
        &rt,
        &[
            GENESIS_LINE,
            BLOCK_LINE,
            FEE,
            SEND,
            ACCEPTED_LINE,
            SUPPLY_LINE,
            PAYER,
            RECEIVER,
            COLLECTOR_LINE,
            POOL_LINE,
        ],
    );
    let mut source = SureSource::new(text(&rt, &[GENESIS, BLOCK]), 4096);
    let mut sink = SureSink::new(rt.alloc());
    let mut keeper = SureKeeper::new(rt.alloc(), Vec::new(rt.alloc()));
    let replay = command(&rt, &["bech32", "replay"]);
    let status = run(rt.alloc(), &replay, &mut source, &mut sink, &mut keeper);
    assert_eq!(rt; status, Status::Done);
    assert!(rt; sink.bytes() == whole.as_slice());
    let mut answer = SureSink::new(rt.alloc());
    let receiver = "2222222222222222222222222222222222222222";
    let query = command(&rt, &["query", "account", receiver]);
    let status = run(rt.alloc(), &query, &mut source, &mut answer, &mut keeper);
    assert_eq!(rt; status, Status::Done);
    let line = text(&rt, &[RECEIVER_LINE]);
    assert!(rt; answer.bytes() == line.as_slice());
}

#[test]
fn an_address_in_the_other_form_is_refused(rt: HostRuntime) {
    let mut source = SureSource::new(worked_input(&rt), 4096);
    let mut sink = SureSink::new(rt.alloc());
    let mut keeper = SureKeeper::new(rt.alloc(), Vec::new(rt.alloc()));
    let replay = command(&rt, &["bech32", "replay"]);
    let status = run(rt.alloc(), &replay, &mut source, &mut sink, &mut keeper);
    assert_eq!(rt; status, Status::BadInput(1, InputFault::BadShape(25)));
    assert!(rt; sink.bytes().is_empty());
    assert!(rt; keeper.rows().is_empty());
}
