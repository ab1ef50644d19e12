//! Runs of blocks lead to reached accounts, whose rewards are bracketed: laws as functions that do nothing, whose contracts
//! are the laws.

ghost use Rattle.law_runs.specs.RunLaws.{RunsKeepReached, GenesisIsReached, RunsAreReached, RunsRunWhereHeld, RunsLogOutstanding, BlocksSayFairly, RunsSayFairly};
ghost use Rattle.law_runs.specs.Going.{GenesisIsStarted, BlocksGoFairly, RunsGoFairly};
ghost use Rattle.law_runs.specs.Moments.{RunsLogFairly, MomentsOfRunsDoNotMatter};
ghost use Rattle.law_runs.specs.Payees.{NothingTellsNoReward, PayeesAreOfTheMoment};
ghost use Rattle.law_runs.specs.Paying.{RunsPayFairly};
ghost use Rattle.law_runs.specs.Readers.{RunsTellFairly};
ghost use Rattle.rule_machine.specs.Promises.{ClaimsAreBracketed, ShortfallsAreBounded};

/// Wherever blocks lead to from a sound state whose accounts are reached, the accounts are reached.
#[tactic(auto, using(crate::proofs::Running::runs_keep_reached))]
pub fn runs_keep_reached()
    ensures { RunsKeepReached }
{}

/// What a good genesis starts has reached accounts.
#[tactic(auto, using(crate::proofs::Starts::genesis_is_reached))]
pub fn genesis_is_reached()
    ensures { GenesisIsReached }
{}

/// Wherever blocks lead to from a good genesis, the accounts are reached.
#[tactic(auto, using(crate::proofs::Ends::runs_are_reached))]
pub fn runs_are_reached()
    ensures { RunsAreReached }
{}

/// What a genesis starts has, by its log, rewards that run only from starts.
#[tactic(auto, using(crate::proofs::Unstarted::genesis_is_started))]
pub fn genesis_is_started()
    ensures { GenesisIsStarted }
{}

/// Wherever a good genesis and blocks lead to, a delegator's rewards run, by the log, exactly where it has a delegation, also
/// under operators without a validator: so the last delegation of a validator that went was withdrawn.
#[tactic(auto, using(crate::proofs::Ends::runs_run_where_held))]
pub fn runs_run_where_held()
    ensures { RunsRunWhereHeld }
{}

/// Wherever a good genesis and blocks lead to, what is outstanding for each validator is what its history comes to.
#[tactic(auto, using(crate::proofs::Ends::runs_log_outstanding))]
pub fn runs_log_outstanding()
    ensures { RunsLogOutstanding }
{}

/// Wherever a good genesis and blocks lead to, the reward that a withdrawal of a delegation would come to lies between
/// the ideal one and that less the slack.
pub fn claims_are_bracketed()
    ensures { ClaimsAreBracketed }
{}

/// Wherever a good genesis and blocks lead to, what is outstanding for a validator lies below all claims by at most the
/// overclaim.
#[tactic(auto, using(crate::proofs::Ends::shortfalls_are_bounded))]
pub fn shortfalls_are_bounded()
    ensures { ShortfallsAreBounded }
{}

/// Each withdrawal that a block logs is fair by the log up to it, from a sound state whose accounts are reached; no start is
/// made of rewards that run; the payments of rewards that it tells are those of the withdrawals, one for one; and right before
/// each its coins are sent to the payee.
#[tactic(auto, using(crate::proofs::Saying::blocks_say_fairly))]
pub fn blocks_say_fairly()
    ensures { BlocksSayFairly }
{}

/// Each withdrawal that a block of a run logs, from a good genesis on, is fair by the log up to it; no start is made of
/// rewards that run; the payments of rewards that the block tells are those of the withdrawals, one for one; and right
/// before each its coins are sent to the payee.
#[tactic(auto, using(crate::proofs::Saying::runs_say_fairly))]
pub fn runs_say_fairly()
    ensures { RunsSayFairly }
{}

/// For each payment of a reward that a block of a run tells, a reader finds a fair withdrawal that the block logs: its
/// coins were sent right before, are at most the ideal reward, and above it less the slack and one whole coin where
/// what was outstanding was not exhausted.
#[tactic(auto, using(crate::proofs::Reading::runs_tell_fairly))]
pub fn runs_tell_fairly()
    ensures { RunsTellFairly }
{}

/// Each block, from a sound state whose accounts are reached and whose rewards run only from starts, says fairly what
/// it pays, as [`blocks_say_fairly`] has it; and it leaves accounts that are reached, by which its log has the
/// delegations' shares and the validators' tokens, and rewards that run, by the log, exactly where delegations stand;
/// and it makes validators only where none run.
#[tactic(auto, using(crate::proofs::Going::blocks_go_fairly))]
pub fn blocks_go_fairly()
    ensures { BlocksGoFairly }
{}

/// Each block of a run, from a good genesis on, says fairly what it pays, and leaves what [`blocks_go_fairly`] says.
#[tactic(auto, using(crate::proofs::Going::runs_go_fairly))]
pub fn runs_go_fairly()
    ensures { RunsGoFairly }
{}

/// Each payment of a reward that a block of a run tells goes to the payee of the moment: one that a message tells to the withdraw
/// address that the delegator has in the state before that message, one of a block's beginning to the one at the end of the block
/// before, and one of its end to the one behind its last transaction. And each message that asks for a reward, in a transaction
/// that is carried out, tells a payment of it.
#[tactic(auto, using(crate::proofs::Payees::payees_are_of_the_moment))]
pub fn payees_are_of_the_moment()
    ensures { PayeesAreOfTheMoment }
{}

/// All of what blocks of a replay pay, and say of it, at once.
pub fn runs_pay_fairly()
    ensures { RunsPayFairly }
{}

/// A message that asks for a reward and changes nothing tells no payment of it.
pub fn nothing_tells_no_reward()
    ensures { NothingTellsNoReward }
{}

/// What a run logs behind its genesis is fair, each entry by the log up to it.
#[tactic(auto, using(crate::proofs::Moments::runs_log_fairly))]
pub fn runs_log_fairly()
    ensures { RunsLogFairly }
{}

/// Of any two runs, rewards that run since the same start, with the same allocations to delegators and the same slashes since, have
/// the same ideal, whatever else happened: claims at any moment, and withdrawals, whose full rewards are within the slack of one
/// another.
#[tactic(auto, using(crate::proofs::Moments::moments_of_runs_do_not_matter))]
pub fn moments_of_runs_do_not_matter()
    ensures { MomentsOfRunsDoNotMatter }
{}
