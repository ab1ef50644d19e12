//! One line of the input: a genesis where no chain stands yet (`InitGenesis`), else a block (`BeginBlock`, `DeliverTx`,
//! `EndBlock`). Its text is written once what it leads to is committed: of a genesis at once, of blocks at each Nth.

ghost use Rattle.std.specs.Prelude.{◌≡◌, ◌≤◌, ◌<◌, ◌+◌, ◌++◌, ◌∷◌, ◌^◌, [], Some, None, List, ℕ, Option, Err, IfOk, IfErr, OnOk, length};
ghost use Rattle.base_bech32.specs.declared.form.Form.{Form};
ghost use Rattle.line_json.specs.Genesis.{genesis_of};
ghost use Rattle.line_json.specs.Block.{block_of};
ghost use Rattle.run_app.specs.Machine.{longest, not_read, not_applied, IsOfGenesis, IsNotStarted, genesis_answer, block_answer, Standing, StandsAt, HoldsAnswer};
ghost use Rattle.chain_modules.specs.Kept.{StandsFor};
ghost use Rattle.rule_modules.specs.Chain.{State};
ghost use Rattle.run_app.specs.Counts.{Moved};
ghost use Rattle.run_app.specs.Kept.{Began, LeftIn};
ghost use Rattle.run_app.specs.Parts.{IsFault, LongOnly, PartStops, Stands, UnlessNoMemory, is_keep_stop, is_write_stop};

use crate::progress::Progress;
use crate::releasing::{not_kept, settle, write_held};
use crate::status::{InputFault, LineStop};
use base_bech32::Form;
use base_io::{Keeper, Sink};
use base_messages::{BlockFault, LineFault};
use chain_whole::{Chain, ChainFault};
use json::Scratch;
use line_json::{push_line_of_genesis, push_lines_of_block, read_block, read_genesis};
use std::alloc::Global;
use store_commits::commit_first;

/// The most bytes of a line, without its end.
pub const LONGEST: usize = 4_194_304;

/// Why a line is not read.
pub(crate) fn not_read(number: u64, fault: LineFault) -> LineStop
    ensures { result ≡ not_read number fault }
{
    match fault {
        LineFault::NotJson => LineStop::BadInput(number, InputFault::NotJson),
        LineFault::BadShape(member) => LineStop::BadInput(number, InputFault::BadShape(member)),
        LineFault::NoMemory => LineStop::NoMemory,
    }
}

/// Why a genesis starts no chain. It has no items that could be bad.
pub(crate) fn not_started(number: u64, fault: ChainFault) -> LineStop
    requires { IsOfGenesis fault }
    ensures { IsNotStarted number fault result }
{
    match fault {
        ChainFault::BadGenesis(condition) => {
            LineStop::BadInput(number, InputFault::BadGenesis(condition))
        }
        ChainFault::BadItems => unreachable!(),
        ChainFault::NoMemory => LineStop::NoMemory,
    }
}

/// Why a block is not applied.
pub(crate) fn not_applied(number: u64, fault: BlockFault) -> LineStop
    ensures { result ≡ not_applied number fault }
{
    match fault {
        BlockFault::NoMemory => LineStop::NoMemory,
        BlockFault::RatioLimit(over) => LineStop::Ratio(number, over),
        fault => LineStop::BadInput(number, InputFault::Block(fault)),
    }
}

/// The answer to the first line, whose addresses have this form: the chain that it starts. Its text comes behind those that
/// wait. A genesis may be far longer than a block, so it has a scratch of its own.
fn begin(
    form: Form,
    alloc: Global,
    held: &mut Vec<u8>,
    number: u64,
    line: &[u8],
) -> Result<Chain, LineStop>
    ensures ok { IfOk result (λ chain. HoldsAnswer
        (genesis_answer number (genesis_of form line.now))
        held.old.items held.new.items (StandsAt (Some chain))) }
    ensures settled { IfOk result (λ chain. chain.settled ≡ chain.kept) }
    ensures err { IfErr result
        (λ stop. IsFault stop (genesis_answer number (genesis_of form line.now))) }
    ensures stays { IfErr result (λ stop. UnlessNoMemory stop (held.new.items ≡ held.old.items)) }
{
    let genesis = match read_genesis(form, alloc, &mut Scratch::new(alloc), line) {
        Ok(genesis) => genesis,
        Err(fault) => return Err(not_read(number, fault)),
    };
    let chain = match Chain::genesis(alloc, &genesis) {
        Ok((chain, _facts)) => chain,
        Err(fault) => return Err(not_started(number, fault)),
    };
    let supply = match chain.supply(alloc) {
        Ok(supply) => supply,
        Err(ChainFault::NoMemory) => return Err(LineStop::NoMemory),
        Err(_) => unreachable!(),
    };
    match push_line_of_genesis(alloc, held, &supply) {
        Ok(()) => Ok(chain),
        Err(LineFault::NoMemory) => Err(LineStop::NoMemory),
        Err(_) => unreachable!(),
    }
}

/// The answer to a line after the genesis, which leads the chain on. Its text comes behind those that wait.
#[tactic(auto, using(crate::proofs::ReadLemmas::height_is_low))]
fn advance(
    form: Form,
    alloc: Global,
    scratch: &mut Scratch,
    held: &mut Vec<u8>,
    number: u64,
    chain: &mut Chain,
    line: &[u8],
) -> Result<(), LineStop>
    ensures ok { (p : State) → StandsFor chain.old.kept p
        → OnOk result (HoldsAnswer (block_answer form number p (block_of form line.now))
        held.old.items held.new.items (StandsAt (Some chain.new))) }
    ensures settled { OnOk result (chain.new.settled ≡ chain.old.settled) }
    ensures err { (p : State) → StandsFor chain.old.kept p
        → IfErr result (λ stop. IsFault stop
        (block_answer form number p (block_of form line.now))) }
    // A line that has a fault leaves the chain, and the texts that wait.
    ensures stays { IfErr result (λ stop. UnlessNoMemory stop ((held.new.items ≡ held.old.items)
        × (chain.new.kept ≡ chain.old.kept) × (chain.new.settled ≡ chain.old.settled))) }
{
    let block = match read_block(form, alloc, scratch, line) {
        Ok(block) => block,
        Err(fault) => return Err(not_read(number, fault)),
    };
    let report = match chain.apply_block(alloc, &block) {
        Ok(report) => report,
        Err(fault) => return Err(not_applied(number, fault)),
    };
    match push_lines_of_block(form, alloc, held, &report) {
        Ok(()) => Ok(()),
        Err(LineFault::NoMemory) => Err(LineStop::NoMemory),
        Err(_) => unreachable!(),
    }
}

/// Takes the first line: the rows of the chain that it starts are committed, and then its text is written.
fn start<K: Sink, D: Keeper>(
    form: Form,
    alloc: Global,
    sink: &mut K,
    keeper: &mut D,
    progress: &mut Progress,
) -> Result<(), LineStop>
    requires number { progress.old.number < 2 ^ 63 }
    requires none { progress.old.chain ≡ None }
    requires short { length progress.old.line.items ≤ longest }
    requires stands { (every : ℕ) × (b : Began) × (lines : List (List ℕ))
        × (end : Standing) × (from : Option (List ℕ))
        × Stands form every b lines end progress.old.number progress.old.chain
        progress.old.waiting progress.old.held.items from (K.written sink.old)
        (D.rows keeper.old) (D.is_honest keeper.old) (D.may_leave keeper.old) }
    ensures took { (every : ℕ) → (b : Began) → (lines : List (List ℕ))
        → (end : Standing) → (from : Option (List ℕ))
        → Stands form every b lines end progress.old.number progress.old.chain
        progress.old.waiting progress.old.held.items from (K.written sink.old)
        (D.rows keeper.old) (D.is_honest keeper.old) (D.may_leave keeper.old)
        → OnOk result ((next : Standing)
        × Stands form 1 b (lines ++ progress.old.line.items ∷ []) next
        progress.new.number progress.new.chain
        progress.new.waiting progress.new.held.items from (K.written sink.new)
        (D.rows keeper.new) (D.is_honest keeper.new) (D.may_leave keeper.new)) }
    ensures stops { (every : ℕ) → (b : Began) → (lines : List (List ℕ))
        → (end : Standing) → (from : Option (List ℕ))
        → Stands form every b lines end progress.old.number progress.old.chain
        progress.old.waiting progress.old.held.items from (K.written sink.old)
        (D.rows keeper.old) (D.is_honest keeper.old) (D.may_leave keeper.old)
        → IfErr result (PartStops form every b.first
        (LeftIn b (D.rows keeper.new) (D.is_honest keeper.new) (D.may_leave keeper.new))
        (λ before last. Stands form every b before last progress.new.number progress.new.chain
        progress.new.waiting progress.new.held.items from (K.written sink.new)
        (D.rows keeper.new) (D.is_honest keeper.new) (D.may_leave keeper.new))
        (λ (more : List (List ℕ)). lines ++ progress.old.line.items ∷ more)
        (lines ++ progress.old.line.items ∷ []) from (K.written sink.new)) }
    ensures long { IfErr result (λ stop. LongOnly stop progress.old.line.items) }
    ensures number { OnOk result (progress.new.number ≡ progress.old.number + 1) }
    ensures writes { Moved (is_write_stop result) (K.faults sink.old) (K.faults sink.new) }
    ensures keeps { Moved (is_keep_stop result) (D.faults keeper.old) (D.faults keeper.new) }
    ensures honest { D.is_honest keeper.new → D.is_honest keeper.old }
{
    let chain = match begin(
        form,
        alloc,
        &mut progress.held,
        progress.number,
        &progress.line,
    ) {
        Ok(chain) => chain,
        Err(stop) => return Err(stop),
    };
    if let Err(fault) = commit_first(alloc, keeper, &chain) {
        return Err(not_kept(fault));
    }
    progress.chain = Some(chain);
    if let Err(stop) = write_held(sink, &mut progress.held, &mut progress.waiting) {
        return Err(stop);
    }
    progress.number += 1;
    Ok(())
}

/// Answers one line, and releases it and those that wait where it is their Nth, where a mebibyte of texts waits, and where it is
/// the genesis.
///
/// # Errors
/// `Long`, exactly where the line has more than 4,194,304 bytes; `BadInput` and `Ratio`, only where the machine answers
/// the line so; each with the line's number. The lines before it may wait then, as before. `Keep`, only where the keeper's
/// count of faults rose, and `Write`, only where the sink's did; and `NoMemory`. What waited is lost then.
pub(crate) fn take_line<K: Sink, D: Keeper>(
    form: Form,
    alloc: Global,
    every: u64,
    scratch: &mut Scratch,
    sink: &mut K,
    keeper: &mut D,
    progress: &mut Progress,
) -> Result<(), LineStop>
    requires number { progress.old.number < 2 ^ 63 }
    requires every { 0 < every }
    requires stands { (b : Began) × (lines : List (List ℕ))
        × (end : Standing) × (from : Option (List ℕ))
        × Stands form every b lines end progress.old.number progress.old.chain
        progress.old.waiting progress.old.held.items from (K.written sink.old)
        (D.rows keeper.old) (D.is_honest keeper.old) (D.may_leave keeper.old) }
    ensures took { (b : Began) → (lines : List (List ℕ))
        → (end : Standing) → (from : Option (List ℕ))
        → Stands form every b lines end progress.old.number progress.old.chain
        progress.old.waiting progress.old.held.items from (K.written sink.old)
        (D.rows keeper.old) (D.is_honest keeper.old) (D.may_leave keeper.old)
        → OnOk result ((next : Standing)
        × Stands form every b (lines ++ progress.old.line.items ∷ []) next
        progress.new.number progress.new.chain
        progress.new.waiting progress.new.held.items from (K.written sink.new)
        (D.rows keeper.new) (D.is_honest keeper.new) (D.may_leave keeper.new)) }
    ensures stops { (b : Began) → (lines : List (List ℕ))
        → (end : Standing) → (from : Option (List ℕ))
        → Stands form every b lines end progress.old.number progress.old.chain
        progress.old.waiting progress.old.held.items from (K.written sink.old)
        (D.rows keeper.old) (D.is_honest keeper.old) (D.may_leave keeper.old)
        → IfErr result (PartStops form every b.first
        (LeftIn b (D.rows keeper.new) (D.is_honest keeper.new) (D.may_leave keeper.new))
        (λ before last. Stands form every b before last progress.new.number progress.new.chain
        progress.new.waiting progress.new.held.items from (K.written sink.new)
        (D.rows keeper.new) (D.is_honest keeper.new) (D.may_leave keeper.new))
        (λ (more : List (List ℕ)). lines ++ progress.old.line.items ∷ more)
        (lines ++ progress.old.line.items ∷ []) from (K.written sink.new)) }
    ensures long { IfErr result (λ stop. LongOnly stop progress.old.line.items) }
    // That it is too long takes no memory to tell.
    ensures too_long { longest < length progress.old.line.items
        → result ≡ Err (LineStop.Long progress.old.number) }
    ensures number { OnOk result (progress.new.number ≡ progress.old.number + 1) }
    ensures writes { Moved (is_write_stop result) (K.faults sink.old) (K.faults sink.new) }
    ensures keeps { Moved (is_keep_stop result) (D.faults keeper.old) (D.faults keeper.new) }
    ensures honest { D.is_honest keeper.new → D.is_honest keeper.old }
{
    if progress.line.len() > LONGEST {
        return Err(LineStop::Long(progress.number));
    }
    let Some(chain) = &mut progress.chain else {
        return start(form, alloc, sink, keeper, progress);
    };
    if let Err(stop) = advance(
        form,
        alloc,
        scratch,
        &mut progress.held,
        progress.number,
        chain,
        &progress.line,
    ) {
        return Err(stop);
    }
    progress.number += 1;
    progress.waiting += 1;
    settle(alloc, every, sink, keeper, progress)
}
