//! A trial: blocks of the generated input are drawn, applied to a chain one after another, and summed up.

ghost use Rattle.std.specs.Prelude.{◌≡◌, ◌≤◌, ◌<◌, ◌+◌, ◌^◌, Err, IfErr, IfOk, Ok, OnOk};
ghost use Rattle.line_json.specs.Line.{line_of};
ghost use Rattle.rule_modules.specs.Chain.{State, shared_in};
ghost use Rattle.rule_machine.specs.GenesisState.{Start, chain_started};
ghost use Rattle.rule_machine.specs.Machine.{run_of, step};
ghost use Rattle.chain_modules.specs.Kept.{StandsFor};
ghost use Rattle.run_generated.specs.Input.{block_drawn, blocks_of, first_genesis};
ghost use Rattle.run_trial.specs.Summary.{summary_data};
ghost use Rattle.run_trial.specs.Trial.{trial_of};
ghost use Rattle.run_trial.specs.Trying.{AddsStep, EndsSo, HasRoomFor, IsFaultOf, IsStarted, IsTrialFault, StopsSo, stopped_at};

use crate::fault::TrialFault;
use crate::{Counts, push_summary};
use base_messages::{Block, BlockFault};
use chain_whole::Chain;
use run_generated::{Generator, first_genesis};
use std::alloc::Global;

/// Applies a block, and counts what it reports.
fn try_block(
    alloc: Global,
    chain: &mut Chain,
    counts: &mut Counts,
    block: &Block,
) -> Result<(), BlockFault>
    requires height { block.now.height < 2 ^ 63 }
    requires room { (p : State) × StandsFor chain.old.kept p
        × HasRoomFor counts.old (step block.now p) }
    ensures ok { (p : State) → StandsFor chain.old.kept p
        → OnOk result (AddsStep (step block.now p) counts.old counts.new chain.new.kept) }
    ensures err { (p : State) → StandsFor chain.old.kept p
        → IfErr result (IsFaultOf (step block.now p)) }
{
    match chain.apply_block(alloc, block) {
        Ok(report) => {
            // Nobody asks what changed, so nothing is to be held of it from block to block.
            chain.settle();
            counts.add(&report);
            Ok(())
        }
        Err(fault) => Err(fault),
    }
}

/// Draws the block behind so many others, applies it, and counts what it reports.
fn try_next(
    alloc: Global,
    chain: &mut Chain,
    counts: &mut Counts,
    generator: &mut Generator,
    before: u32,
) -> Result<(), BlockFault>
    requires most { before < 100_000 }
    requires room { (p : State) × StandsFor chain.old.kept p
        × HasRoomFor counts.old (step (block_drawn (before + 1) generator.old).value p) }
    ensures ok { (p : State) → StandsFor chain.old.kept p
        → OnOk result (AddsStep (step (block_drawn (before + 1) generator.old).value p)
        counts.old counts.new chain.new.kept) }
    ensures state { OnOk result
        (generator.new ≡ (block_drawn (before + 1) generator.old).state) }
    ensures err { (p : State) → StandsFor chain.old.kept p → IfErr result
        (IsFaultOf (step (block_drawn (before + 1) generator.old).value p)) }
{
    let Ok(block) = generator.block(alloc, before as u64 + 1) else {
        return Err(BlockFault::NoMemory);
    };
    try_block(alloc, chain, counts, &block)
}

/// Why there is no summary, where the block behind so many others was not applied.
fn stopped_at(before: u32, fault: BlockFault) -> TrialFault
    ensures { result ≡ stopped_at before fault }
{
    match fault {
        BlockFault::NoMemory => TrialFault::NoMemory,
        fault => TrialFault::Block(before as u64 + 2, fault),
    }
}

/// Draws and applies so many blocks. The chain stays the caller's, so that no way out of the loop has one to let go of.
fn try_blocks(alloc: Global, chain: &mut Chain, seed: u64, count: u32) -> Result<Counts, TrialFault>
    requires most { count ≤ 100_000 }
    requires started { IsStarted chain.old.kept }
    ensures ok { (s : Start) → chain_started first_genesis ≡ Ok s
        → StandsFor chain.old.kept s.state
        → IfOk result (λ counts. EndsSo (run_of (blocks_of seed count) s.state)
        counts chain.new.kept) }
    ensures err { (s : Start) → chain_started first_genesis ≡ Ok s
        → StandsFor chain.old.kept s.state
        → IfErr result (StopsSo (run_of (blocks_of seed count) s.state)) }
{
    let mut generator = Generator::new(seed);
    let mut counts = Counts::new();
    for before in 0..count {
        if let Err(fault) = try_next(alloc, chain, &mut counts, &mut generator, before) {
            return Err(stopped_at(before, fault));
        }
    }
    Ok(counts)
}

/// The line of what was counted, and of what the chain has. The only error is `NoMemory`.
fn summary_of(alloc: Global, chain: &Chain, counts: &Counts) -> Result<Vec<u8>, TrialFault>
    ensures line { (p : State) → StandsFor chain.now.kept p → IfOk result
        (λ text. text.items ≡ line_of (summary_data counts.now p.view.bank.supplies
        (shared_in p).purses.pool)) }
    ensures fault { IfErr result (λ fault. fault ≡ TrialFault.NoMemory) }
{
    let Ok(supply) = chain.supply(alloc) else {
        return Err(TrialFault::NoMemory);
    };
    let Ok(pool) = chain.pool() else {
        return Err(TrialFault::NoMemory);
    };
    let mut text = Vec::new(alloc);
    match push_summary(alloc, &mut text, counts, &supply, &pool) {
        Ok(()) => Ok(text),
        Err(_) => Err(TrialFault::NoMemory),
    }
}

/// Draws and applies so many blocks to the chain that the generated genesis starts, and sums them up.
fn try_chain(alloc: Global, chain: &mut Chain, seed: u64, count: u32) -> Result<Vec<u8>, TrialFault>
    requires most { count ≤ 100_000 }
    requires started { IsStarted chain.old.kept }
    ensures summary { IfOk result (λ text. trial_of seed count ≡ Ok (Ok text.items)) }
    ensures fault { IfErr result (IsTrialFault (trial_of seed count)) }
{
    match try_blocks(alloc, chain, seed, count) {
        Ok(counts) => summary_of(alloc, chain, &counts),
        Err(fault) => Err(fault),
    }
}

/// The summary of the generated input with so many blocks, which are applied as they are drawn.
///
/// # Errors
/// `Block`, exactly where the machine stops at a block, with the number of its line, and `NoMemory`.
pub fn try_input(alloc: Global, seed: u64, count: u32) -> Result<Vec<u8>, TrialFault>
    requires most { count ≤ 100_000 }
    ensures summary { IfOk result (λ text. trial_of seed count ≡ Ok (Ok text.items)) }
    ensures fault { IfErr result (IsTrialFault (trial_of seed count)) }
{
    let Ok(genesis) = first_genesis(alloc) else {
        return Err(TrialFault::NoMemory);
    };
    let mut chain = match Chain::genesis(alloc, &genesis) {
        Ok((chain, _facts)) => chain,
        // Only memory is wanting here: no condition keeps this genesis from starting a chain.
        Err(_) => return Err(TrialFault::NoMemory),
    };
    try_chain(alloc, &mut chain, seed, count)
}
