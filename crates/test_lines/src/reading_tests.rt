//! A genesis and blocks read from lines: their values, and each kind of message. Lines that are not of their form are rows
//! of `cases/forms.txt`.

use crate::checks::holds;
use base_bech32::Form;
use base_messages::{Block, Genesis, Msg};
use json::Scratch;
use line_json::{read_block, read_genesis};
use std::process::Abort;

const GENESIS: &str =
    "{\"kind\":\"genesis\",\"time\":\"2024-01-01T00:00:00Z\",\"params\":{\"bond_denom\":\"uatom\",\"power_reduction\":1000000,\"unbonding_time\":1814400,\"max_validators\":180,\"max_entries\":7,\"min_commission_rate\":\"0\",\"community_tax\":\"0.02\",\"withdraw_addr_enabled\":true,\"signed_blocks_window\":10000,\"min_signed_per_window\":\"0.05\",\"downtime_jail_duration\":600,\"slash_fraction_double_sign\":\"0.05\",\"slash_fraction_downtime\":\"0.0001\",\"max_age_duration\":172800,\"max_age_num_blocks\":100000,\"authority\":\"9999999999999999999999999999999999999999\"},\"accounts\":[{\"address\":\"1111111111111111111111111111111111111111\",\"coins\":[{\"denom\":\"uosmo\",\"amount\":\"5\"},{\"denom\":\"stake\",\"amount\":\"0\"},{\"denom\":\"uatom\",\"amount\":\"1000\"}]}],\"validators\":[{\"operator\":\"2222222222222222222222222222222222222222\",\"cons\":\"0000000000000000000000000000000000000001\",\"rate\":\"0.1\",\"max_rate\":\"0.5\",\"max_change_rate\":\"0.01\",\"min_self_delegation\":\"1\"}],\"delegations\":[{\"delegator\":\"2222222222222222222222222222222222222222\",\"validator\":\"2222222222222222222222222222222222222222\",\"amount\":\"77\"}]}";

const BLOCK: &str =
    "{\"kind\":\"block\",\"height\":1,\"time\":\"2024-01-01T00:00:05Z\",\"votes\":[{\"cons\":\"0000000000000000000000000000000000000001\",\"power\":10,\"signed\":true}],\"evidence\":[{\"cons\":\"5555555555555555555555555555555555555555\",\"height\":3,\"time\":\"2024-01-01T00:00:04Z\",\"power\":11}],\"txs\":[{\"payer\":\"aaaaaaaaaaaaaaaaaaaaaaaaaaaaaaaaaaaaaaaa\",\"fee\":[{\"denom\":\"uatom\",\"amount\":\"10\"}],\"msgs\":[{\"kind\":\"send\",\"from\":\"1111111111111111111111111111111111111111\",\"to\":\"0000000000000000000000000000000000000001\",\"coins\":[{\"denom\":\"uosmo\",\"amount\":\"7\"},{\"denom\":\"uatom\",\"amount\":\"100\"}]}]}]}";

/// The name of the kind of the only message.
fn kind_of(block: &Block) -> &'static str {
    let [tx] = block.txs.as_slice() else {
        return "no transaction";
    };
    match tx.msgs.as_slice() {
        [Msg::Send(_)] => "send",
        [Msg::CreateValidator(_)] => "create_validator",
        [Msg::EditValidator(_)] => "edit_validator",
        [Msg::Delegate(_)] => "delegate",
        [Msg::Undelegate(_)] => "undelegate",
        [Msg::BeginRedelegate(_)] => "begin_redelegate",
        [Msg::CancelUnbonding(_)] => "cancel_unbonding",
        [Msg::Unjail(_)] => "unjail",
        [Msg::WithdrawReward(_)] => "withdraw_reward",
        [Msg::WithdrawCommission(_)] => "withdraw_commission",
        [Msg::SetWithdrawAddress(_)] => "set_withdraw_address",
        [Msg::FundCommunityPool(_)] => "fund_community_pool",
        [Msg::CommunityPoolSpend(_)] => "community_pool_spend",
        [Msg::UpdateParams(_)] => "update_params",
        _ => "no message",
    }
}

/// The line of a block with one message of this kind and these members, in which `@` stands for an address, `#`
/// for a coin.
fn line_of(rt: &(impl Abort + AllocGlobal), kind: &str, members: &str) -> String {
    let head =
        "{\"kind\":\"block\",\"height\":1,\"time\":\"2024-01-01T00:00:05Z\",\"votes\":[],\"evidence\":[],\"txs\":[{\"payer\":\"1111111111111111111111111111111111111111\",\"fee\":[],\"msgs\":[{\"kind\":\"";
    let line = format!(in rt.alloc(); "{head}{kind}\"");
    let mut line = line.expect(rt, "memory");
    for c in members.chars() {
        let pushed = match c {
            '@' => line.push_str("\"1111111111111111111111111111111111111111\""),
            '#' => line.push_str("{\"denom\":\"uatom\",\"amount\":\"100\"}"),
            other => line.push(other),
        };
        pushed.expect(rt, "memory");
    }
    line.push_str("}]}]}").expect(rt, "memory");
    line
}

fn reads_as_its_kind(rt: &(impl Abort + AllocGlobal), kind: &str, members: &str) -> bool {
    let line = line_of(rt, kind, members);
    match read_block(
        Form::Hex,
        rt.alloc(),
        &mut Scratch::new(rt.alloc()),
        line.as_bytes(),
    ) {
        Ok(block) => kind_of(&block) == kind,
        Err(_) => false,
    }
}

/// Kinds of messages, each with its members.
const MESSAGES: [(&str, &str); 16] = [
    ("send", ",\"from\":@,\"to\":@,\"coins\":[#]"),
    (
        "create_validator",
        ",\"validator\":@,\"cons\":@,\"rate\":\"0.1\",\"max_rate\":\"0.2\",\"max_change_rate\":\"0.3\",\"min_self_delegation\":\"1\",\"amount\":#",
    ),
    ("edit_validator", ",\"validator\":@"),
    ("edit_validator", ",\"validator\":@,\"rate\":\"0.1\""),
    (
        "edit_validator",
        ",\"validator\":@,\"min_self_delegation\":\"2\"",
    ),
    ("delegate", ",\"delegator\":@,\"validator\":@,\"amount\":#"),
    (
        "undelegate",
        ",\"delegator\":@,\"validator\":@,\"amount\":#",
    ),
    (
        "begin_redelegate",
        ",\"delegator\":@,\"source\":@,\"target\":@,\"amount\":#",
    ),
    (
        "cancel_unbonding",
        ",\"delegator\":@,\"validator\":@,\"amount\":#,\"creation_height\":4",
    ),
    ("unjail", ",\"validator\":@"),
    ("withdraw_reward", ",\"delegator\":@,\"validator\":@"),
    ("withdraw_commission", ",\"validator\":@"),
    ("set_withdraw_address", ",\"delegator\":@,\"withdraw\":@"),
    ("fund_community_pool", ",\"depositor\":@,\"coins\":[#]"),
    (
        "community_pool_spend",
        ",\"authority\":@,\"recipient\":@,\"coins\":[]",
    ),
    (
        "update_params",
        ",\"authority\":@,\"params\":{\"bond_denom\":\"uatom\",\"power_reduction\":0,\"unbonding_time\":0,\"max_validators\":0,\"max_entries\":0,\"min_commission_rate\":\"2\",\"community_tax\":\"2\",\"withdraw_addr_enabled\":false,\"signed_blocks_window\":0,\"min_signed_per_window\":\"2\",\"downtime_jail_duration\":0,\"slash_fraction_double_sign\":\"2\",\"slash_fraction_downtime\":\"2\",\"max_age_duration\":0,\"max_age_num_blocks\":0,\"authority\":@}",
    ),
];

#[test]
fn each_kind_of_message_is_read(rt: HostRuntime) {
    for (kind, members) in MESSAGES {
        holds(&rt, kind, reads_as_its_kind(&rt, kind, members));
    }
}

/// The amount at a place of the coins that the first transaction sends.
fn amount_sent(block: &Block, place: usize) -> Option<u128> {
    match block.txs.at(0)?.msgs.at(0)? {
        Msg::Send(send) => Some(send.coins.at(place)?.amount),
        _ => None,
    }
}

fn read_of_block(rt: &(impl Abort + AllocGlobal)) -> Block {
    let mut scratch = Scratch::new(rt.alloc());
    let read = read_block(Form::Hex, rt.alloc(), &mut scratch, BLOCK.as_bytes());
    read.expect(rt, "a block")
}

#[test]
fn the_values_of_a_block_are_read(rt: HostRuntime) {
    let block = read_of_block(&rt);
    holds(&rt, "the height", block.height == 1);
    holds(
        &rt,
        "the time",
        block.time.nanos() == 1_704_067_205_000_000_000,
    );
    let vote = block.votes.at(0).expect(&rt, "a vote");
    holds(&rt, "the power", vote.power == 10);
    let evidence = block.evidence.at(0).expect(&rt, "a piece of evidence");
    holds(&rt, "the height of the evidence", evidence.height == 3);
    let tx = block.txs.at(0).expect(&rt, "a transaction");
    holds(&rt, "the payer", tx.payer.bytes() == [0xaa; 20]);
    holds(&rt, "the first amount", amount_sent(&block, 0) == Some(100));
    holds(&rt, "the second amount", amount_sent(&block, 1) == Some(7));
    holds(&rt, "no third amount", amount_sent(&block, 2) == None);
}

fn read_of_genesis(rt: &(impl Abort + AllocGlobal)) -> Genesis {
    let mut scratch = Scratch::new(rt.alloc());
    let read = read_genesis(Form::Hex, rt.alloc(), &mut scratch, GENESIS.as_bytes());
    read.expect(rt, "a genesis")
}

#[test]
fn the_values_of_a_genesis_are_read(rt: HostRuntime) {
    let genesis = read_of_genesis(&rt);
    holds(
        &rt,
        "the time",
        genesis.time.nanos() == 1_704_067_200_000_000_000,
    );
    holds(&rt, "an age", genesis.params.max_age_num_blocks == 100_000);
    let tax = genesis.params.community_tax.raw();
    holds(&rt, "the tax", tax == 20_000_000_000_000_000);
    let account = genesis.accounts.at(0).expect(&rt, "an account");
    holds(&rt, "two coins", account.coins.len() == 2);
    let coin = account.coins.at(0).expect(&rt, "a coin");
    holds(&rt, "the first amount", coin.amount == 1000);
    let validator = genesis.validators.at(0).expect(&rt, "a validator");
    let change = validator.max_change_rate.raw();
    holds(&rt, "the largest change", change == 10_000_000_000_000_000);
    let delegation = genesis.delegations.at(0).expect(&rt, "a delegation");
    holds(&rt, "the delegation", delegation.amount == 77);
}
