//! The generated input, or a text, written to a sink.
ghost use Rattle.std.specs.Prelude.{◌≡◌, ◌≤◌, ◌<◌, true, IfErr, IfOk, IsErrOf, OnErr, OnOk};
ghost use Rattle.base_io.specs.Faults.{UnlessFailed};
ghost use Rattle.base_io.specs.Outside.{Rose};
ghost use Rattle.base_io.specs.Calls.{Stays};
ghost use Rattle.run_generated.specs.Input.{block_drawn, blocks_of, first_genesis};
ghost use Rattle.run_generated.specs.Lines.{block_line, genesis_line};
ghost use Rattle.run_generated.specs.Writing.{Grows, GrowsInPart, blocks_text, generated_text};

use crate::{Generator, first_genesis, push_block_line, push_genesis_line};
use base_bech32::Form;
use base_io::{Sink, SinkFault, write_all};
use std::alloc::Global;

/// The line of the genesis. The only error is `NoMemory`.
fn genesis_text(form: Form, alloc: Global) -> Result<Vec<u8>, SinkFault>
    ensures line { IfOk result (λ line. line.items ≡ genesis_line form first_genesis) }
    ensures fault { IfErr result (λ fault. fault ≡ SinkFault.NoMemory) }
{
    let mut line = Vec::new(alloc);
    let Ok(genesis) = first_genesis(alloc) else {
        return Err(SinkFault::NoMemory);
    };
    match push_genesis_line(form, alloc, &mut line, &genesis) {
        Ok(()) => Ok(line),
        Err(_) => Err(SinkFault::NoMemory),
    }
}

/// Draws the block of this height, whose line takes the place of what stood there. The only error is `NoMemory`.
fn next_line(
    form: Form,
    alloc: Global,
    generator: &mut Generator,
    height: u64,
    line: &mut Vec<u8>,
) -> Result<(), SinkFault>
    requires some { 0 < height }
    requires most { height ≤ 100_000 }
    ensures line { OnOk result
        (line.new.items ≡ block_line form (block_drawn height generator.old).value) }
    ensures state { OnOk result (generator.new ≡ (block_drawn height generator.old).state) }
    ensures fault { IfErr result (λ fault. fault ≡ SinkFault.NoMemory) }
{
    let Ok(block) = generator.block(alloc, height) else {
        return Err(SinkFault::NoMemory);
    };
    line.clear();
    match push_block_line(form, alloc, line, &block) {
        Ok(()) => Ok(()),
        Err(_) => Err(SinkFault::NoMemory),
    }
}

/// Writes the lines of so many blocks, drawn from a seed.
fn write_blocks<K: Sink>(
    form: Form,
    alloc: Global,
    sink: &mut K,
    seed: u64,
    count: u32,
) -> Result<(), SinkFault>
    requires most { count ≤ 100_000 }
    ensures text { OnOk result (Grows (K.written sink.old) (K.written sink.new)
        (blocks_text form (blocks_of seed count))) }
    ensures front { OnErr result (GrowsInPart (K.written sink.old) (K.written sink.new)
        (blocks_text form (blocks_of seed count))) }
    ensures later { K.faults sink.old ≤ K.faults sink.new }
    ensures cause { IsErrOf result SinkFault.Failed
        → Rose (K.faults sink.old) (K.faults sink.new) }
    ensures quiet { UnlessFailed result (K.faults sink.new ≡ K.faults sink.old) }
{
    let mut generator = Generator::new(seed);
    let mut line = Vec::new(alloc);
    for before in 0..count {
        next_line(form, alloc, &mut generator, before as u64 + 1, &mut line)?;
        write_all(sink, &line)?;
    }
    Ok(())
}

/// Writes all lines of the input, without the flush.
fn write_lines<K: Sink>(
    form: Form,
    alloc: Global,
    sink: &mut K,
    seed: u64,
    count: u32,
) -> Result<(), SinkFault>
    requires most { count ≤ 100_000 }
    ensures text { OnOk result (Grows (K.written sink.old) (K.written sink.new)
        (generated_text form seed count)) }
    ensures front { OnErr result (GrowsInPart (K.written sink.old) (K.written sink.new)
        (generated_text form seed count)) }
    ensures later { K.faults sink.old ≤ K.faults sink.new }
    ensures cause { IsErrOf result SinkFault.Failed
        → Rose (K.faults sink.old) (K.faults sink.new) }
    ensures quiet { UnlessFailed result (K.faults sink.new ≡ K.faults sink.old) }
{
    let first = genesis_text(form, alloc)?;
    write_all(sink, &first)?;
    write_blocks(form, alloc, sink, seed, count)
}

/// Flushes the sink.
fn hand_on<K: Sink>(sink: &mut K) -> Result<(), SinkFault>
    ensures same { Stays (K.written sink.old) (K.written sink.new) }
    ensures clean { OnOk result (K.clean sink.new ≡ true) }
    ensures later { K.faults sink.old ≤ K.faults sink.new }
    ensures cause { IsErrOf result SinkFault.Failed
        → Rose (K.faults sink.old) (K.faults sink.new) }
    ensures quiet { UnlessFailed result (K.faults sink.new ≡ K.faults sink.old) }
{
    match sink.flush() {
        Ok(()) => Ok(()),
        Err(_) => Err(SinkFault::Failed),
    }
}

/// Writes a text, and flushes the sink.
///
/// # Errors
/// `Failed`, only where the sink's count of faults rose, and `NoMemory`. A front of the text was written then; it is all of
/// it where the flush failed.
pub fn write_text<K: Sink>(sink: &mut K, text: &[u8]) -> Result<(), SinkFault>
    ensures text { OnOk result (Grows (K.written sink.old) (K.written sink.new) text.now) }
    ensures clean { OnOk result (K.clean sink.new ≡ true) }
    ensures front { OnErr result
        (GrowsInPart (K.written sink.old) (K.written sink.new) text.now) }
    ensures later { K.faults sink.old ≤ K.faults sink.new }
    ensures cause { IsErrOf result SinkFault.Failed
        → Rose (K.faults sink.old) (K.faults sink.new) }
    ensures quiet { UnlessFailed result (K.faults sink.new ≡ K.faults sink.old) }
{
    write_all(sink, text)?;
    hand_on(sink)
}

/// Writes the input that is generated from a seed, with so many blocks and its addresses in this form, and flushes the sink.
///
/// # Errors
/// `Failed`, only where the sink's count of faults rose, and `NoMemory`. A front of the input was written then; it is all of
/// it where the flush failed.
pub fn write_input<K: Sink>(
    form: Form,
    alloc: Global,
    sink: &mut K,
    seed: u64,
    count: u32,
) -> Result<(), SinkFault>
    requires most { count ≤ 100_000 }
    ensures text { OnOk result (Grows (K.written sink.old) (K.written sink.new)
        (generated_text form seed count)) }
    ensures clean { OnOk result (K.clean sink.new ≡ true) }
    ensures front { OnErr result (GrowsInPart (K.written sink.old) (K.written sink.new)
        (generated_text form seed count)) }
    ensures later { K.faults sink.old ≤ K.faults sink.new }
    ensures cause { IsErrOf result SinkFault.Failed
        → Rose (K.faults sink.old) (K.faults sink.new) }
    ensures quiet { UnlessFailed result (K.faults sink.new ≡ K.faults sink.old) }
{
    write_lines(form, alloc, sink, seed, count)?;
    hand_on(sink)
}
