//! Whose rewards run, by the log: laws as functions that do nothing, whose contracts are the laws.

ghost use Rattle.law_rewards.specs.Running.{MessagesKeepStarted, BlocksKeepStarted, NoneRunsWithoutValidator, RewardsRunExactlyWhereHeld};

/// By the log, rewards run only from starts that stand, also under operators without a validator, and validators were made
/// where none ran: from sound states each message that is not refused keeps it so, and so do the fee and all parts of a block.
pub fn rewards_run_from_starts()
    ensures messages { MessagesKeepStarted }
    ensures blocks { BlocksKeepStarted }
{}

/// In a sound state whose rewards run only from starts, no delegator's rewards run, by the log, under an operator
/// without a validator: who had a delegation to a validator that went has withdrawn.
#[tactic(auto, using(crate::proofs::Unstarted::none_runs_without_validator))]
pub fn none_runs_without_validator()
    ensures { NoneRunsWithoutValidator }
{}

/// In a sound state whose accounts are reached and whose rewards run only from starts, a delegator's rewards run, by
/// the log, exactly where it has a delegation, under every operator.
#[tactic(auto, using(crate::proofs::Unstarted::rewards_run_exactly_where_held))]
pub fn rewards_run_exactly_where_held()
    ensures { RewardsRunExactlyWhereHeld }
{}
