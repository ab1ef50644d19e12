//! Messages of every kind, read and written again.

use base_bech32::Form;
use json::Scratch;
use line_json::read_block;
use run_generated::push_block_line;
use std::alloc::Global;
use std::test::Fail;

/// A message of each kind, as a second program wrote them.
const MESSAGES: [&str; 17] = [
    "{\"coins\":[{\"amount\":\"5\",\"denom\":\"uatom\"}],\"from\":\"4000000000000000000000000000000000000001\",\"kind\":\"send\",\"to\":\"4000000000000000000000000000000000000002\"}",
    "{\"amount\":{\"amount\":\"9\",\"denom\":\"uatom\"},\"cons\":\"5000000000000000000000000000000000000001\",\"kind\":\"create_validator\",\"max_change_rate\":\"0.010000000000000000\",\"max_rate\":\"0.500000000000000000\",\"min_self_delegation\":\"3\",\"rate\":\"0.100000000000000000\",\"validator\":\"4000000000000000000000000000000000000001\"}",
    "{\"kind\":\"edit_validator\",\"validator\":\"4000000000000000000000000000000000000001\"}",
    "{\"kind\":\"edit_validator\",\"rate\":\"0.200000000000000000\",\"validator\":\"4000000000000000000000000000000000000001\"}",
    "{\"kind\":\"edit_validator\",\"min_self_delegation\":\"4\",\"validator\":\"4000000000000000000000000000000000000001\"}",
    "{\"kind\":\"edit_validator\",\"min_self_delegation\":\"4\",\"rate\":\"0.200000000000000000\",\"validator\":\"4000000000000000000000000000000000000001\"}",
    "{\"amount\":{\"amount\":\"6\",\"denom\":\"uatom\"},\"delegator\":\"4000000000000000000000000000000000000001\",\"kind\":\"delegate\",\"validator\":\"4000000000000000000000000000000000000002\"}",
    "{\"amount\":{\"amount\":\"6\",\"denom\":\"uatom\"},\"delegator\":\"4000000000000000000000000000000000000001\",\"kind\":\"undelegate\",\"validator\":\"4000000000000000000000000000000000000002\"}",
    "{\"amount\":{\"amount\":\"6\",\"denom\":\"uatom\"},\"delegator\":\"4000000000000000000000000000000000000001\",\"kind\":\"begin_redelegate\",\"source\":\"4000000000000000000000000000000000000002\",\"target\":\"4000000000000000000000000000000000000003\"}",
    "{\"amount\":{\"amount\":\"6\",\"denom\":\"uatom\"},\"creation_height\":7,\"delegator\":\"4000000000000000000000000000000000000001\",\"kind\":\"cancel_unbonding\",\"validator\":\"4000000000000000000000000000000000000002\"}",
    "{\"kind\":\"unjail\",\"validator\":\"4000000000000000000000000000000000000002\"}",
    "{\"delegator\":\"4000000000000000000000000000000000000001\",\"kind\":\"withdraw_reward\",\"validator\":\"4000000000000000000000000000000000000002\"}",
    "{\"kind\":\"withdraw_commission\",\"validator\":\"4000000000000000000000000000000000000002\"}",
    "{\"delegator\":\"4000000000000000000000000000000000000001\",\"kind\":\"set_withdraw_address\",\"withdraw\":\"4000000000000000000000000000000000000002\"}",
    "{\"coins\":[{\"amount\":\"8\",\"denom\":\"uatom\"}],\"depositor\":\"4000000000000000000000000000000000000001\",\"kind\":\"fund_community_pool\"}",
    "{\"authority\":\"4000000000000000000000000000000000000001\",\"coins\":[{\"amount\":\"8\",\"denom\":\"uatom\"}],\"kind\":\"community_pool_spend\",\"recipient\":\"4000000000000000000000000000000000000002\"}",
    "{\"authority\":\"4000000000000000000000000000000000000001\",\"kind\":\"update_params\",\"params\":{\"authority\":\"4000000000000000000000000000000000000002\",\"bond_denom\":\"uatom\",\"community_tax\":\"0.020000000000000000\",\"downtime_jail_duration\":600,\"max_age_duration\":172800,\"max_age_num_blocks\":100000,\"max_entries\":7,\"max_validators\":180,\"min_commission_rate\":\"0.000000000000000000\",\"min_signed_per_window\":\"0.500000000000000000\",\"power_reduction\":1000000,\"signed_blocks_window\":4,\"slash_fraction_double_sign\":\"0.050000000000000000\",\"slash_fraction_downtime\":\"0.010000000000000000\",\"unbonding_time\":1814400,\"withdraw_addr_enabled\":true}}",
];

/// The line of a block with one message.
fn line_of(alloc: Global, message: &str) -> Result<String, Fail> {
    let line = format!(in alloc;
        "{{\"evidence\":[],\"height\":7,\"kind\":\"block\",\"time\":\"2024-01-01T00:00:35Z\",\"txs\":[{{\"fee\":[],\"msgs\":[{message}],\"payer\":\"4000000000000000000000000000000000000001\"}}],\"votes\":[]}}\n"
    )?;
    Ok(line)
}

/// The line of the block that a line in one form spells, in another.
fn written_again(alloc: Global, from: Form, to: Form, line: &[u8]) -> Result<Vec<u8>, Fail> {
    let block = read_block(from, alloc, &mut Scratch::new(alloc), line)?;
    let mut written = Vec::new(alloc);
    push_block_line(to, alloc, &mut written, &block)?;
    Ok(written)
}

#[test]
fn each_kind_is_written_as_it_was_read(rt: HostRuntime) -> Result<(), Fail> {
    let alloc: Global = rt.alloc();
    for message in MESSAGES {
        let line = line_of(alloc, message)?;
        let written = written_again(alloc, Form::Hex, Form::Hex, line.as_bytes())?;
        assert!(rt; written.as_slice() == line.as_bytes(), "{message}");
    }
    Ok(())
}

#[test]
fn each_kind_is_read_from_spellings(rt: HostRuntime) -> Result<(), Fail> {
    let alloc: Global = rt.alloc();
    for message in MESSAGES {
        let line = line_of(alloc, message)?;
        let spelled = written_again(alloc, Form::Hex, Form::Bech32, line.as_bytes())?;
        let written = written_again(alloc, Form::Bech32, Form::Hex, spelled.as_slice())?;
        assert!(rt; written.as_slice() == line.as_bytes(), "{message}");
    }
    Ok(())
}
