//! Lines that several tests read, and those that are written for them.

use std::process::Abort;

/// A genesis up to its accounts, and from them on.
pub const GENESIS_HEAD: &str =
    r#"{"kind":"genesis","time":"2024-01-01T00:00:00Z","params":{"bond_denom":"uatom","power_reduction":1000000,"unbonding_time":1814400,"max_validators":180,"max_entries":7,"min_commission_rate":"0","community_tax":"0.02","withdraw_addr_enabled":true,"signed_blocks_window":10000,"min_signed_per_window":"0.05","downtime_jail_duration":600,"slash_fraction_double_sign":"0.05","slash_fraction_downtime":"0.0001","max_age_duration":172800,"max_age_num_blocks":100000,"authority":"9999999999999999999999999999999999999999"},"accounts":["#;

pub const GENESIS_TAIL: &str = r#"],"validators":[],"delegations":[]}"#;

/// An account of 1,000 uatom.
pub const ONE_THOUSAND: &str =
    r#"{"address":"1111111111111111111111111111111111111111","coins":[{"denom":"uatom","amount":"1000"}]}"#;

/// A transaction up to the amount of its fee, from there to its messages, and from them on.
pub const TX_HEAD: &str =
    r#"{"payer":"1111111111111111111111111111111111111111","fee":[{"denom":"uatom","amount":""#;

pub const TX_MESSAGES: &str = r#""}],"msgs":["#;

pub const TX_TAIL: &str = "]}";

/// A message of the first account to the second, of 100 uatom.
pub const SEND_100: &str =
    r#"{"kind":"send","from":"1111111111111111111111111111111111111111","to":"2222222222222222222222222222222222222222","coins":[{"denom":"uatom","amount":"100"}]}"#;

pub const GENESIS_LINE: &str =
    r#"{"height":0,"kind":"genesis","supply":[{"amount":"1000","denom":"uatom"}]}"#;

pub const BLOCK_LINE: &str = r#"{"height":1,"kind":"block","time":"2024-01-01T00:00:05Z"}"#;

pub const FEE_LINE: &str =
    r#"{"coins":[{"amount":"10","denom":"uatom"}],"from":"1111111111111111111111111111111111111111","height":1,"kind":"transfer","to":"fee_collector"}"#;

pub const SEND_LINE: &str =
    r#"{"coins":[{"amount":"100","denom":"uatom"}],"from":"1111111111111111111111111111111111111111","height":1,"kind":"transfer","to":"2222222222222222222222222222222222222222"}"#;

pub const ACCEPTED_LINE: &str = r#"{"height":1,"kind":"accepted","tx":0}"#;

pub const SUPPLY_LINE: &str = r#"{"coins":[{"amount":"1000","denom":"uatom"}],"kind":"supply"}"#;

pub const PAYER_LINE: &str =
    r#"{"address":"1111111111111111111111111111111111111111","coins":[{"amount":"890","denom":"uatom"}],"kind":"account"}"#;

pub const RECEIVER_LINE: &str =
    r#"{"address":"2222222222222222222222222222222222222222","coins":[{"amount":"100","denom":"uatom"}],"kind":"account"}"#;

pub const COLLECTOR_LINE: &str =
    r#"{"address":"fee_collector","coins":[{"amount":"10","denom":"uatom"}],"kind":"account"}"#;

pub const POOL_LINE: &str = r#"{"coins":[],"kind":"pool"}"#;

/// Adds texts.
fn push_all(rt: &impl Abort, text: &mut Vec<u8>, parts: &[&str]) {
    for part in parts {
        text.extend_from_slice(part.as_bytes()).expect(rt, "memory");
    }
}

/// Adds a genesis of these accounts.
pub fn push_genesis(rt: &impl Abort, text: &mut Vec<u8>, accounts: &str) {
    push_all(rt, text, &[GENESIS_HEAD, accounts, GENESIS_TAIL, "\n"]);
}

/// Adds a genesis without accounts, of these validators and delegations.
pub fn push_staked_genesis(rt: &impl Abort, text: &mut Vec<u8>, staked: &str) {
    push_all(rt, text, &[GENESIS_HEAD, staked, "\n"]);
}

/// Adds a block of these transactions.
pub fn push_block(rt: &impl Abort, text: &mut Vec<u8>, height: &str, time: &str, txs: &[&str]) {
    push_all(
        rt,
        text,
        &[
            "{\"kind\":\"block\",\"height\":",
            height,
            ",\"time\":\"",
            time,
            "\",\"votes\":[],\"evidence\":[],\"txs\":[",
        ],
    );
    push_all(rt, text, txs);
    push_all(rt, text, &["]}\n"]);
}

/// The lines, each with its end.
pub fn text(rt: &(impl Abort + AllocGlobal), lines: &[&str]) -> Vec<u8> {
    let mut text = Vec::new(rt.alloc());
    for line in lines {
        push_all(rt, &mut text, &[line, "\n"]);
    }
    text
}

/// The words of a command.
pub fn command(rt: &(impl Abort + AllocGlobal), command: &[&str]) -> Vec<String> {
    let mut words = Vec::new(rt.alloc());
    for word in command {
        let word = String::from_str(rt.alloc(), word).expect(rt, "memory");
        match words.push(word) {
            Ok(()) => {}
            Err(_) => panic!(rt; "no memory"),
        }
    }
    words
}

/// The words of a command of one word.
pub fn words(rt: &(impl Abort + AllocGlobal), word: &str) -> Vec<String> {
    command(rt, &[word])
}

/// The input of the worked run: 100 uatom are sent, for a fee of 10.
pub fn worked_input(rt: &(impl Abort + AllocGlobal)) -> Vec<u8> {
    let mut text = Vec::new(rt.alloc());
    push_genesis(rt, &mut text, ONE_THOUSAND);
    push_block(
        rt,
        &mut text,
        "1",
        "2024-01-01T00:00:05Z",
        &[TX_HEAD, "10", TX_MESSAGES, SEND_100, TX_TAIL],
    );
    text
}
