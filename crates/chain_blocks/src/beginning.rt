//! The beginning of a block: the fees are allocated, then the votes count, then the evidence is handled.

ghost use Rattle.std.specs.Prelude.{◌≡◌, [], OnOk};
ghost use Rattle.base_roles.specs.Flow.{each};
ghost use Rattle.rule_modules.specs.Chain.{State, allocation_step, vote_step, evidence_step, begin_block};
ghost use Rattle.rule_machine.specs.Listening.{Hearing, beginning_heard, evidence_heard, vote_heard};
ghost use Rattle.chain_modules.specs.Heard.{Hears, HearsAfter};
ghost use Rattle.chain_modules.specs.Kept.{StandsWhole, kept_of, AreSteady, listener_of};
ghost use Rattle.chain_modules.specs.Marks.{GoOn};
ghost use Rattle.chain_blocks.specs.Answers.{Leads};
ghost use Rattle.chain_blocks.specs.Begun.{AreBegun, HasBegun, MayBegin, MayAllocate, MayVote, MayAccuse};

use base_messages::Block;
use base_roles::{Evidence, Extra, HookFault, Vote};
use base_types::Steps;
use chain_modules::Modules;
use mod_evidence::equivocation;
use std::alloc::Global;
use std::sync::ledger::Ledger;

/// Begins a block whose votes and evidence were judged, at its own height and time.
///
/// `Over` comes exactly where a result of the allocation, of a vote or of evidence would be 10^38 units or
/// more, or a period that one of them ends is 10^18. After an error some of it may stand.
pub(crate) fn begin<E: Extra, L: Ledger>(
    alloc: Global,
    modules: &mut Modules<E>,
    block: &Block,
    steps: &mut Steps<L>,
) -> Result<(), HookFault>
    requires begins { MayBegin block.now modules.old }
    ensures leads { (p : State) → HasBegun block.now (kept_of modules.old) p
        → Leads StandsWhole (begin_block block.now.votes block.now.evidence p)
        (kept_of modules.new) result }
    ensures heard { (w : Hearing E.Heard) → Hears E.heard (HasBegun block.now) modules.old w
        → OnOk result (HearsAfter E.heard StandsWhole
        (beginning_heard E.hears block.now.votes block.now.evidence w) modules.new) }
    ensures steady { OnOk result (AreSteady modules.new) }

    // Whatever the answer.
    ensures go_on { GoOn modules.old modules.new }
    ensures listener { E.Records.marks (listener_of modules.new)
        ≡ E.Records.marks (listener_of modules.old) }
{
    let votes = block.votes.as_slice();
    allocate(alloc, modules, votes, steps)?;
    count_votes(alloc, modules, votes, steps)?;
    handle_evidence(alloc, modules, block.evidence.as_slice(), steps)
}

/// Allocates the fees of the last block among votes (`x/distribution`: `BeginBlocker`).
fn allocate<E: Extra, L: Ledger>(
    alloc: Global,
    modules: &mut Modules<E>,
    votes: &[Vote],
    steps: &mut Steps<L>,
) -> Result<(), HookFault>
    requires votes { MayAllocate votes.now modules.old }
    ensures leads { (p : State) → AreBegun votes.now (kept_of modules.old) p
        → Leads (AreBegun votes.now) (allocation_step votes.now p) (kept_of modules.new) result }
    ensures may { OnOk result (MayVote votes.now modules.new) }

    // Whatever the answer.
    ensures go_on { GoOn modules.old modules.new }
    ensures listener { listener_of modules.new ≡ listener_of modules.old }
{
    modules
        .hooks
        .first
        .first
        .begin_block(alloc, &mut modules.ground, &modules.stakes, votes, steps)
}

/// Counts votes, one after the other, and punishes downtime (`x/slashing`: `BeginBlocker`).
fn count_votes<E: Extra, L: Ledger>(
    alloc: Global,
    modules: &mut Modules<E>,
    votes: &[Vote],
    steps: &mut Steps<L>,
) -> Result<(), HookFault>
    requires votes { MayVote votes.now modules.old }
    ensures leads { (p : State) → AreBegun votes.now (kept_of modules.old) p
        → Leads (AreBegun []) (each vote_step votes.now p) (kept_of modules.new) result }
    ensures heard { (w : Hearing E.Heard) → Hears E.heard (AreBegun votes.now) modules.old w
        → OnOk result (HearsAfter E.heard (AreBegun [])
        (each (vote_heard E.hears) votes.now w) modules.new) }
    ensures may { OnOk result (MayVote [] modules.new) }

    // Whatever the answer.
    ensures go_on { GoOn modules.old modules.new }
    ensures listener { E.Records.marks (listener_of modules.new)
        ≡ E.Records.marks (listener_of modules.old) }
{
    for vote in votes {
        modules.hooks.second.vote(
            alloc,
            &mut modules.ground,
            &mut modules.hooks.first,
            &mut modules.stakes,
            vote,
            steps,
        )?;
    }
    Ok(())
}

/// Handles evidence, one piece after the other (`x/evidence`: `BeginBlocker`).
fn handle_evidence<E: Extra, L: Ledger>(
    alloc: Global,
    modules: &mut Modules<E>,
    evidence: &[Evidence],
    steps: &mut Steps<L>,
) -> Result<(), HookFault>
    requires evidence { MayAccuse evidence.now modules.old }
    ensures leads { (p : State) → AreBegun [] (kept_of modules.old) p
        → Leads (AreBegun []) (each evidence_step evidence.now p) (kept_of modules.new) result }
    ensures heard { (w : Hearing E.Heard) → Hears E.heard (AreBegun []) modules.old w
        → OnOk result (HearsAfter E.heard (AreBegun [])
        (each (evidence_heard E.hears) evidence.now w) modules.new) }
    ensures may { OnOk result (MayVote [] modules.new) }

    // Whatever the answer.
    ensures go_on { GoOn modules.old modules.new }
    ensures listener { E.Records.marks (listener_of modules.new)
        ≡ E.Records.marks (listener_of modules.old) }
{
    for e in evidence {
        equivocation(
            alloc,
            &mut modules.ground,
            &mut modules.hooks.first,
            &mut modules.stakes,
            &mut modules.hooks.second,
            e,
            steps,
        )?;
    }
    Ok(())
}
