//! Why a block may not follow: its height and time, its votes in order, its evidence in order.

ghost use Rattle.std.specs.Prelude.{◌≡◌, ◌<◌, ◌≤◌, ◌^◌, nat_le, Ok, [], IfErr, OnOk};
ghost use Rattle.base_roles.specs.Ground.{end_of_blocks};
ghost use Rattle.rule_machine.specs.Blocks.{block_fault};
ghost use Rattle.rule_machine.specs.Machine.{block_checked, votes_checked, evidence_checked, is_bad_evidence};
ghost use Rattle.rule_modules.specs.Chain.{State};
ghost use Rattle.chain_modules.specs.Kept.{StandsFor, kept_of, stakes_kept};
ghost use Rattle.chain_blocks.specs.Answers.{FaultsAs};

use base_lists::add_key;
use base_messages::{Block, BlockFault};
use base_roles::{Ctx, Evidence, Extra, ValidatorView, Vote};
use base_types::{Moment, Steps};
use chain_modules::{Modules, Stakes};
use std::alloc::Global;
use std::collections::BTreeSet;
use std::sync::ledger::Ledger;

/// The first nanosecond of the year 9900.
const END_OF_BLOCKS: u128 = 250_246_627_200_000_000_000;

/// The most tokens that there may be.
const MOST_TOKENS: u128 = 1_000_000_000_000_000_000;

/// Finds the first reason why a block may not follow, against what stands before it: its height or time; the first
/// vote that names no validator, or names one again, or with which the powers stand for more than 10^18 tokens;
/// the first evidence of height 0, of this block's height or a later one, of a later time or of such a power.
pub(crate) fn check_block<E: Extra, L: Ledger>(
    alloc: Global,
    modules: &Modules<E>,
    block: &Block,
    steps: &mut Steps<L>,
) -> Result<(), BlockFault>
    requires height { modules.now.ground.ctx.height < 2 ^ 63 }
    requires some { 1 ≤ modules.now.ground.ctx.params.power_reduction }
    requires reduction { modules.now.ground.ctx.params.power_reduction ≤ 10 ^ 18 }
    ensures checked { (p : State) → StandsFor (kept_of modules.now) p
        → OnOk result (block_checked block.now p ≡ Ok tt) }
    ensures fault { (p : State) → StandsFor (kept_of modules.now) p
        → IfErr result (FaultsAs (block_checked block.now p)) }
{
    if let Some(fault) = fault_of(&modules.ground.ctx, block) {
        return Err(fault);
    }
    let reduction = modules.ground.ctx.params.power_reduction;
    let votes = block.votes.as_slice();
    check_votes(alloc, &modules.stakes, reduction, votes, steps)?;
    check_evidence(block, reduction)
}

/// Why a block may not follow the last one, whatever it holds.
fn fault_of(last: &Ctx, block: &Block) -> Option<BlockFault>
    requires { last.now.height < 2 ^ 63 }
    ensures { result ≡ block_fault last.now.height last.now.time block.now }
{
    if block.height != last.height + 1 {
        return Some(BlockFault::BadHeight(last.height + 1));
    }
    if block.time < last.time || is_past_blocks(block.time) {
        return Some(BlockFault::BadTime(last.time));
    }
    None
}

/// Whether the moment is in a year past 9899.
pub fn is_past_blocks(time: Moment) -> bool
    ensures { result ≡ nat_le end_of_blocks time }
{
    END_OF_BLOCKS <= time.nanos()
}

/// Finds the first vote that may not be, and why.
fn check_votes<L: Ledger>(
    alloc: Global,
    stakes: &Stakes,
    reduction: u64,
    votes: &[Vote],
    steps: &mut Steps<L>,
) -> Result<(), BlockFault>
    requires some { 1 ≤ reduction }
    requires reduction { reduction ≤ 10 ^ 18 }
    ensures checked { OnOk result
        (votes_checked (stakes_kept stakes.now).staked reduction [] votes.now ≡ Ok tt) }
    ensures fault { IfErr result
        (FaultsAs (votes_checked (stakes_kept stakes.now).staked reduction [] votes.now)) }
{
    let mut seen = BTreeSet::new(alloc);
    let mut power = 0u128;
    for (place, vote) in votes.iter().enumerate() {
        if stakes.staking.by_cons(&vote.cons, steps).is_none() {
            return Err(BlockFault::UnknownVote(place));
        }
        if !add_key(&mut seen, vote.cons)? {
            return Err(BlockFault::RepeatedVote(place));
        }
        power += u128::from(vote.power);
        if power * u128::from(reduction) > MOST_TOKENS {
            return Err(BlockFault::BadPower(place));
        }
    }
    Ok(())
}

/// Finds the first evidence that no block may bring.
fn check_evidence(block: &Block, reduction: u64) -> Result<(), BlockFault>
    requires reduction { reduction ≤ 10 ^ 18 }
    ensures checked { OnOk result
        (evidence_checked block.now reduction 0 block.now.evidence ≡ Ok tt) }
    ensures fault { IfErr result
        (FaultsAs (evidence_checked block.now reduction 0 block.now.evidence)) }
{
    for (place, e) in block.evidence.as_slice().iter().enumerate() {
        if is_bad_evidence(block, reduction, e) {
            return Err(BlockFault::BadEvidence(place));
        }
    }
    Ok(())
}

/// Whether no block may bring this evidence.
fn is_bad_evidence(block: &Block, reduction: u64, e: &Evidence) -> bool
    requires reduction { reduction ≤ 10 ^ 18 }
    ensures { result ≡ is_bad_evidence block.now reduction e.now }
{
    e.height == 0
        || block.height <= e.height
        || block.time < e.time
        || u128::from(e.power) * u128::from(reduction) > MOST_TOKENS
}
