//! The parts of a block keep a state sound, and its faults have their causes: laws as functions that do nothing, whose contracts
//! are the laws.

ghost use Rattle.law_soundness.specs.StepLaws.{NextBlockKeepsSoundness, UnbondingsStepKeepsSoundness, RedelegationsStepKeepsSoundness, AllocationKeepsSoundness, MaturingKeepsSoundness, BondingKeepsSoundness, VotesKeepSoundness, EvidenceKeepsSoundness, RunsKeepSoundness, BlocksAreAnswered};
ghost use Rattle.law_soundness.specs.Causes.{LimitsHaveCauses};
ghost use Rattle.rule_modules.specs.StepLaws.{BlocksEnd};

/// The next block leaves a sound state sound.
#[tactic(auto, using(crate::proofs::Following::next_block_keeps_soundness))]
pub fn next_block_keeps_soundness()
    ensures { NextBlockKeepsSoundness }
{}

/// Paying the unbondings that are mature leaves a sound state sound, and so does taking away the redelegations that
/// are.
#[tactic(auto, using(crate::proofs::Ending::unbondings_step_keeps_soundness, crate::proofs::Ending::redelegations_step_keeps_soundness))]
pub fn mature_entries_keep_soundness()
    ensures unbondings { UnbondingsStepKeepsSoundness }
    ensures redelegations { RedelegationsStepKeepsSoundness }
{}

/// Allocating the fees of a block among its votes leaves a sound state sound, unless it meets a limit, where each vote
/// is of a validator that stands, none is there twice, and all their power is within the limit.
#[tactic(auto, using(crate::proofs::Allocating::allocation_keeps_soundness))]
pub fn allocation_keeps_soundness()
    ensures { AllocationKeepsSoundness }
{}

/// A sound state stays sound as validators whose unbonding is mature become unbonded, and go where they have no shares.
#[tactic(auto, using(crate::proofs::Maturing::maturing_keeps_soundness))]
pub fn maturing_keeps_soundness()
    ensures { MaturingKeepsSoundness }
{}

/// Making the bonded set anew leaves a sound state sound.
#[tactic(auto, using(crate::proofs::Bonding::bonding_keeps_soundness))]
pub fn bonding_keeps_soundness()
    ensures { BondingKeepsSoundness }
{}

/// A vote, with the slash that it may bring, leaves a sound state sound, unless it meets a limit, where its power is
/// within the limit and fewer votes of its validator were counted than the height is.
#[tactic(auto, using(crate::proofs::Voting::votes_keep_soundness))]
pub fn votes_keep_soundness()
    ensures { VotesKeepSoundness }
{}

/// A piece of evidence, with its slash, leaves a sound state sound, unless it meets a limit, where its power is within
/// the limit, its height is at least 1 and an earlier one, and its time is not later.
#[tactic(auto, using(crate::proofs::Voting::evidence_keeps_soundness))]
pub fn evidence_keeps_soundness()
    ensures { EvidenceKeepsSoundness }
{}

/// Wherever blocks lead to from a sound state, the state is sound.
#[tactic(auto, using(crate::proofs::Running::runs_keep_soundness))]
pub fn runs_keep_soundness()
    ensures { RunsKeepSoundness }
{}

/// From a sound state the bonded set and mature validators never exceed a limit, so a block ends.
pub fn blocks_end()
    ensures { BlocksEnd }
{}

/// From a sound state a fault of a block is that of the first condition against it, or a limit that its beginning met; where
/// there is neither, the block is answered.
#[tactic(auto, using(crate::proofs::Answered::blocks_are_answered))]
pub fn blocks_are_answered()
    ensures { BlocksAreAnswered }
{}

/// A limit that a block's beginning meets is that of the allocation, or of the slash of a vote or of a piece of evidence, the
/// first that meets one.
#[tactic(auto, using(crate::proofs::Causes::limits_have_causes))]
pub fn limits_have_causes()
    ensures { LimitsHaveCauses }
{}
