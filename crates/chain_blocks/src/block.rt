//! A block, applied whole or not at all.

ghost use Rattle.std.specs.Prelude.{◌≡◌, ◌<◌, ◌^◌, [], length, OnOk, OnErr};
ghost use Rattle.rule_modules.specs.Chain.{State};
ghost use Rattle.rule_machine.specs.Listening.{Hearing, block_heard};
ghost use Rattle.chain_modules.specs.Heard.{Hears, HearsAfter};
ghost use Rattle.chain_modules.specs.Kept.{StandsFor, StandsWhole, kept_of, AreSteady, listener_of};
ghost use Rattle.chain_modules.specs.Marks.{settled_of, behind_of, AreAtRest};
ghost use Rattle.chain_blocks.specs.Answers.{Applies, AnswersStep, parts_heard, parts_stepped};
ghost use Rattle.chain_blocks.specs.Begun.{HasBegun, MayBegin};

use crate::beginning::begin;
use crate::checking::check_block;
use crate::ending::end;
use crate::fault::{fault_of_hook, fault_of_record};
use base_messages::{Block, BlockFault, BlockReport};
use base_roles::{Ctx, Extra, Facts, Listed};
use base_types::Steps;
use chain_modules::Modules;
use chain_transactions::apply_transactions;
use std::alloc::Global;
use std::mem;
use std::sync::ledger::{Blank, Ledger};

/// Applies a block, and tells what it did.
///
/// # Errors
/// `BadHeight`, `BadTime`, `UnknownVote`, `RepeatedVote`, `BadPower` and `BadEvidence`, where the block may not follow:
/// of its height, its time, its votes in order and its evidence in order the first that is at fault. `RatioLimit` with
/// the operands, where a result of its beginning would be 10^38 units or more, or a period that it ends is 10^18; and
/// `NoMemory`. The modules then keep what they kept, under no mark; where memory was wanting, some of them may be
/// spent.
pub fn apply<E: Extra, L: Ledger>(
    alloc: Global,
    modules: &mut Modules<E>,
    block: &Block,
    blank: Blank,
) -> Result<BlockReport, BlockFault>
    requires name { blank.name ≡ L.name }
    requires parts { blank.parts ≡ L.parts }
    requires some { 0 < L.parts }
    requires height { block.now.height < 2 ^ 63 }
    requires rest { AreAtRest modules.old }
    ensures applies { (p : State) → StandsFor (kept_of modules.old) p
        → Applies block.now p (kept_of modules.new) result }
    ensures heard { (w : Hearing E.Heard) → Hears E.heard StandsFor modules.old w
        → OnOk result (HearsAfter E.heard StandsFor
        (block_heard E.hears E.parted E.ended block.now w) modules.new) }
    ensures unchanged { OnErr result (kept_of modules.new ≡ kept_of modules.old) }
    ensures unheard { OnErr result (E.heard (listener_of modules.new)
        ≡ E.heard (listener_of modules.old)) }

    // Whatever the answer.
    ensures rest { AreAtRest modules.new }
    ensures settled { settled_of modules.new ≡ settled_of modules.old }
{
    let mut steps: Steps<L> = Steps::new(blank);
    check_block(alloc, modules, block, &mut steps)?;
    let last = modules.ground.ctx;
    if let Err(fault) = modules.mark(alloc, &mut steps) {
        return Err(fault_of_record(fault));
    }
    modules.ground.ctx = Ctx {
        height: block.height,
        time: block.time,
        params: last.params,
    };
    match apply_parts(alloc, modules, block, &mut steps) {
        Ok(report) => {
            modules.forget(&mut steps);
            Ok(report)
        }
        Err(fault) => {
            modules.back(&mut steps);
            modules.ground.ctx = last;
            modules.ground.facts = Facts::new(alloc);
            Err(fault)
        }
    }
}

/// The beginning, the transactions and the end of a block that may follow, at its own height and time. After an
/// error some of it may stand.
fn apply_parts<E: Extra, L: Ledger>(
    alloc: Global,
    modules: &mut Modules<E>,
    block: &Block,
    steps: &mut Steps<L>,
) -> Result<BlockReport, BlockFault>
    requires begins { MayBegin block.now modules.old }
    requires none { modules.old.ground.facts ≡ [] }
    ensures steps { (p : State) → HasBegun block.now (kept_of modules.old) p
        → AnswersStep (parts_stepped block.now p) (kept_of modules.new) result }
    ensures heard { (w : Hearing E.Heard) → Hears E.heard (HasBegun block.now) modules.old w
        → OnOk result (HearsAfter E.heard StandsWhole
        (parts_heard E.hears E.parted E.ended block.now w) modules.new) }
    ensures steady { OnOk result (AreSteady modules.new) }
    ensures none { OnOk result (modules.new.ground.facts ≡ []) }

    // Whatever the answer.
    ensures behind { behind_of modules.new ≡ behind_of modules.old }
    ensures listener { E.Records.marks (listener_of modules.new)
        ≡ E.Records.marks (listener_of modules.old) }
{
    if let Err(fault) = begin(alloc, modules, block, steps) {
        return Err(fault_of_hook(fault));
    }
    let begun = told(alloc, modules);
    let txs = match apply_transactions(alloc, modules, block.txs.as_slice(), steps) {
        Ok(txs) => txs,
        Err(fault) => return Err(fault_of_record(fault)),
    };
    if let Err(fault) = end(alloc, modules, steps) {
        return Err(fault_of_hook(fault));
    }
    let ended = told_last(alloc, modules);
    Ok(BlockReport {
        height: block.height,
        time: block.time,
        begun,
        txs: Listed::of(txs),
        ended,
    })
}

/// Takes the facts that a part told, and tells the listener how many they are.
fn told<E: Extra>(alloc: Global, modules: &mut Modules<E>) -> Facts
    ensures facts { result ≡ modules.old.ground.facts }
    ensures none { modules.new.ground.facts ≡ [] }
    ensures bank { modules.new.ground.bank ≡ modules.old.ground.bank }
    ensures ctx { modules.new.ground.ctx ≡ modules.old.ground.ctx }
    ensures stakes { modules.new.stakes ≡ modules.old.stakes }
    ensures shared { modules.new.hooks.first.first ≡ modules.old.hooks.first.first }
    ensures signings { modules.new.hooks.second ≡ modules.old.hooks.second }
    ensures heard { E.heard (listener_of modules.new) ≡ E.parted (E.heard (listener_of modules.old))
        (length modules.old.ground.facts) }
    ensures listener { E.Records.marks (listener_of modules.new)
        ≡ E.Records.marks (listener_of modules.old) }
{
    let facts = mem::replace(&mut modules.ground.facts, Facts::new(alloc));
    modules.hooks.first.second.listener.after_part(facts.len());
    facts
}

/// Takes the facts that the last part told, and tells the listener that the block has ended.
fn told_last<E: Extra>(alloc: Global, modules: &mut Modules<E>) -> Facts
    ensures facts { result ≡ modules.old.ground.facts }
    ensures none { modules.new.ground.facts ≡ [] }
    ensures bank { modules.new.ground.bank ≡ modules.old.ground.bank }
    ensures ctx { modules.new.ground.ctx ≡ modules.old.ground.ctx }
    ensures stakes { modules.new.stakes ≡ modules.old.stakes }
    ensures shared { modules.new.hooks.first.first ≡ modules.old.hooks.first.first }
    ensures signings { modules.new.hooks.second ≡ modules.old.hooks.second }
    ensures heard { E.heard (listener_of modules.new)
        ≡ E.ended (E.heard (listener_of modules.old)) }
    ensures listener { E.Records.marks (listener_of modules.new)
        ≡ E.Records.marks (listener_of modules.old) }
{
    let facts = mem::replace(&mut modules.ground.facts, Facts::new(alloc));
    modules.hooks.first.second.listener.after_block();
    facts
}
