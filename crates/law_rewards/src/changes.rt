//! Messages that change stakes, and the parts of a block, keep accounts reached: laws as functions that do nothing, whose
//! contracts are the laws. They are of steps from sound states that meet no limit.

ghost use Rattle.law_rewards.specs.Changes.{DelegatingKeepsReached, CancellingKeepsReached, UndelegatingKeepsReached, CreatingKeepsReached, UnbondingsStepKeepsReached, RedelegationsStepKeepsReached, BondedSetKeepsReached, MaturingKeepsReached, RedelegatingKeepsReached, MessagesKeepReached, VotesKeepReached, EvidenceKeepsReached, NoneStartedInNext, AllocationKeepsReached, BlockBeginKeepsReached};

/// Delegating keeps accounts reached, and so does cancelling an unbonding, each where it is not refused.
pub fn delegating_keeps_reached()
    ensures delegated { DelegatingKeepsReached }
    ensures cancelled { CancellingKeepsReached }
{}

/// Undelegating, by which also a validator may go, keeps accounts reached, where it is not refused.
pub fn undelegating_keeps_reached()
    ensures { UndelegatingKeepsReached }
{}

/// Redelegating, by which the source may go, keeps accounts reached, where it is not refused.
pub fn redelegating_keeps_reached()
    ensures { RedelegatingKeepsReached }
{}

/// Creating a validator keeps accounts reached, where it is not refused.
pub fn creating_keeps_reached()
    ensures { CreatingKeepsReached }
{}

/// Each message keeps accounts reached where it is not refused, and so does the fee.
#[tactic(auto, using(crate::proofs::Together::messages_keep_reached))]
pub fn messages_keep_reached()
    ensures { MessagesKeepReached }
{}

/// The mature entries of a block keep accounts reached: unbondings that are paid, and redelegations that go.
pub fn mature_entries_keep_reached()
    ensures unbondings { UnbondingsStepKeepsReached }
    ensures redelegations { RedelegationsStepKeepsReached }
{}

/// Making the bonded set anew keeps accounts reached.
pub fn bonded_set_keeps_reached()
    ensures { BondedSetKeepsReached }
{}

/// Validators whose unbonding is mature keep accounts reached as they become unbonded, and go where they have no
/// shares.
pub fn maturing_keeps_reached()
    ensures { MaturingKeepsReached }
{}

/// As a block begins, no start is of its height, and there allocating its fees keeps accounts reached; so does the
/// beginning as one step.
pub fn allocation_keeps_reached()
    ensures none_started { NoneStartedInNext }
    ensures allocated { AllocationKeepsReached }
    ensures begun { BlockBeginKeepsReached }
{}

/// A vote and a piece of evidence keep accounts reached, each with the slash and the jailing that it may bring: of the
/// validator, and of what was redelegated from it, at each target.
pub fn punishing_keeps_reached()
    ensures voted { VotesKeepReached }
    ensures weighed { EvidenceKeepsReached }
{}
