//! The line at a place of the generated input.
ghost use Rattle.std.specs.Prelude.{◌≡◌, ◌≤◌, ◌<◌, IfErr, IfOk};
ghost use Rattle.run_generated.specs.Input.{block_at, first_genesis};
ghost use Rattle.run_generated.specs.Lines.{block_line, genesis_line, line_at};

use crate::drawing::Generator;
use crate::genesis::first_genesis;
use crate::lines::{push_block_line, push_genesis_line};
use base_bech32::Form;
use base_messages::{Block, LineFault};
use std::alloc::Global;

/// The block of this height, for which those before it are drawn too.
fn block_at(alloc: Global, seed: u64, height: u32) -> Result<Block, LineFault>
    requires some { 0 < height }
    requires most { height ≤ 100_000 }
    ensures block { IfOk result (λ block. block ≡ block_at seed height) }
    ensures fault { IfErr result (λ fault. fault ≡ LineFault.NoMemory) }
{
    let mut generator = Generator::new(seed);
    for before in 1..height {
        generator.block(alloc, before as u64)?;
    }
    generator.block(alloc, height as u64)
}

/// The line of the genesis. The only error is `NoMemory`.
fn genesis_text(form: Form, alloc: Global) -> Result<Vec<u8>, LineFault>
    ensures line { IfOk result (λ line. line.items ≡ genesis_line form first_genesis) }
    ensures fault { IfErr result (λ fault. fault ≡ LineFault.NoMemory) }
{
    let genesis = first_genesis(alloc)?;
    let mut line = Vec::new(alloc);
    push_genesis_line(form, alloc, &mut line, &genesis)?;
    Ok(line)
}

/// The line of the block of this height. The only error is `NoMemory`.
fn block_text(form: Form, alloc: Global, seed: u64, height: u32) -> Result<Vec<u8>, LineFault>
    requires some { 0 < height }
    requires most { height ≤ 100_000 }
    ensures line { IfOk result (λ line. line.items ≡ block_line form (block_at seed height)) }
    ensures fault { IfErr result (λ fault. fault ≡ LineFault.NoMemory) }
{
    let block = block_at(alloc, seed, height)?;
    let mut line = Vec::new(alloc);
    push_block_line(form, alloc, &mut line, &block)?;
    Ok(line)
}

/// The line, with its end and its addresses in this form, at a place of the input that is generated from a seed; at place 0 is the genesis, behind it
/// are so many blocks as `count`. The only error is `NoMemory`.
pub fn generate(
    form: Form,
    alloc: Global,
    seed: u64,
    _count: u32,
    place: u32,
) -> Result<Vec<u8>, LineFault>
    requires some { 0 < _count }
    requires most { _count ≤ 100_000 }
    requires within { place ≤ _count }
    ensures line { IfOk result (λ line. line.items ≡ line_at form seed place) }
    ensures fault { IfErr result (λ fault. fault ≡ LineFault.NoMemory) }
{
    if place == 0 {
        genesis_text(form, alloc)
    } else {
        block_text(form, alloc, seed, place)
    }
}
