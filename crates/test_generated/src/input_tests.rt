//! Whole inputs, against what a second program wrote.

use base_bech32::Form;
use json::Scratch;
use line_json::{read_block, read_genesis};
use run_generated::{Generator, first_genesis, generate, push_block_line, push_genesis_line};
use sha2::{Digest, Sha256};
use std::alloc::Global;
use std::test::Fail;

/// The digest of the lines of a seed, and how many bytes they have.
fn digest_of(alloc: Global, seed: u64, count: u32) -> Result<(String, usize), Fail> {
    let mut hasher = Sha256::new();
    let mut bytes = 0usize;
    let mut line = Vec::new(alloc);
    let genesis = first_genesis(alloc)?;
    push_genesis_line(Form::Hex, alloc, &mut line, &genesis)?;
    hasher.update(line.as_slice());
    bytes = bytes.saturating_add(line.len());
    let mut generator = Generator::new(seed);
    for place in 0..count {
        let height = u64::from(place) + 1;
        if height <= 100_000 {
            line.clear();
            let block = generator.block(alloc, height)?;
            push_block_line(Form::Hex, alloc, &mut line, &block)?;
            hasher.update(line.as_slice());
            bytes = bytes.saturating_add(line.len());
        }
    }
    let digest = hasher.finalize();
    Ok((hex::encode(alloc, digest)?, bytes))
}

/// Four inputs: of the least seed and the greatest, of one with evidence, and a longer one.
#[test]
fn inputs_are_those_of_a_second_program(rt: HostRuntime) -> Result<(), Fail> {
    let (digest, bytes) = digest_of(rt.alloc(), 0, 1)?;
    assert_eq!(rt; bytes, 10_208);
    assert!(rt;
        digest.as_str() == "7315775a1312738c5e1e965785408382942c17f8f5b48de5a1fb0eb9eb1c6598"
    );
    let (digest, bytes) = digest_of(rt.alloc(), 7, 100)?;
    assert_eq!(rt; bytes, 133_398);
    assert!(rt;
        digest.as_str() == "9d64d4fff6f7f5fb17be8b547efcddb0f11c1fe9617f1be7887e17629ceeda61"
    );
    let (digest, bytes) = digest_of(rt.alloc(), 18_446_744_073_709_551_615, 100)?;
    assert_eq!(rt; bytes, 135_845);
    assert!(rt;
        digest.as_str() == "94c92da46aba3ab60fa7f3a95d2ebd921e926382462ad4552221d3d6b1e5679c"
    );
    let (digest, bytes) = digest_of(rt.alloc(), 101, 2)?;
    assert_eq!(rt; bytes, 11_231);
    assert!(rt;
        digest.as_str() == "df6c88d61e5c6b600b71ca66f811b7343afa52055043538e77e1fff99cc0bc31"
    );
    Ok(())
}

/// The line at a place is that of the whole input; the first is the same for every seed.
#[test]
fn a_line_is_made_by_its_place(rt: HostRuntime) -> Result<(), Fail> {
    let first = generate(Form::Hex, rt.alloc(), 0, 1, 0)?;
    let other = generate(
        Form::Hex,
        rt.alloc(),
        18_446_744_073_709_551_615,
        100_000,
        0,
    )?;
    assert!(rt; first.as_slice() == other.as_slice());
    assert_eq!(rt; first.len(), 8_524);
    let third = generate(Form::Hex, rt.alloc(), 0, 3, 3)?;
    assert!(rt; third.as_slice() == THIRD.as_bytes());
    Ok(())
}

/// The block of height 3 of the seed 0.
const THIRD: &str =
    "{\"evidence\":[],\"height\":3,\"kind\":\"block\",\"time\":\"2024-01-01T00:00:15Z\",\"txs\":[{\"fee\":[{\"amount\":\"1000\",\"denom\":\"uatom\"}],\"msgs\":[{\"amount\":{\"amount\":\"644437\",\"denom\":\"uatom\"},\"delegator\":\"400000000000000000000000000000000000000c\",\"kind\":\"begin_redelegate\",\"source\":\"4000000000000000000000000000000000000009\",\"target\":\"4000000000000000000000000000000000000004\"}],\"payer\":\"400000000000000000000000000000000000000c\"}],\"votes\":[{\"cons\":\"5000000000000000000000000000000000000000\",\"power\":10,\"signed\":true},{\"cons\":\"5000000000000000000000000000000000000001\",\"power\":10,\"signed\":true},{\"cons\":\"5000000000000000000000000000000000000002\",\"power\":10,\"signed\":true},{\"cons\":\"5000000000000000000000000000000000000003\",\"power\":10,\"signed\":true},{\"cons\":\"5000000000000000000000000000000000000004\",\"power\":10,\"signed\":true},{\"cons\":\"5000000000000000000000000000000000000005\",\"power\":10,\"signed\":true},{\"cons\":\"5000000000000000000000000000000000000006\",\"power\":10,\"signed\":true},{\"cons\":\"5000000000000000000000000000000000000007\",\"power\":10,\"signed\":true},{\"cons\":\"5000000000000000000000000000000000000008\",\"power\":10,\"signed\":true},{\"cons\":\"5000000000000000000000000000000000000009\",\"power\":10,\"signed\":true}]}\n";

/// Lines are of the form that is read.
#[test]
fn lines_are_read(rt: HostRuntime) -> Result<(), Fail> {
    let alloc: Global = rt.alloc();
    let mut line = Vec::new(alloc);
    let genesis = first_genesis(alloc)?;
    push_genesis_line(Form::Hex, alloc, &mut line, &genesis)?;
    let read = read_genesis(Form::Hex, alloc, &mut Scratch::new(alloc), line.as_slice())?;
    assert_eq!(rt; read.accounts.len(), 40);
    assert_eq!(rt; read.validators.len(), 10);
    assert!(rt; read.params == genesis.params);
    let mut generator = Generator::new(101);
    for height in 1..41u64 {
        line.clear();
        let block = generator.block(alloc, height)?;
        push_block_line(Form::Hex, alloc, &mut line, &block)?;
        let read = read_block(Form::Hex, alloc, &mut Scratch::new(alloc), line.as_slice())?;
        assert!(rt; read.height == height && read.time == block.time);
        assert!(rt; read.votes.as_slice() == block.votes.as_slice());
        assert!(rt; read.evidence.as_slice() == block.evidence.as_slice());
        assert!(rt; read.txs.len() == block.txs.len());
    }
    Ok(())
}
