//! Withdrawals as they happen: laws as functions that do nothing, whose contracts are the laws.

ghost use Rattle.law_rewards.specs.WithdrawalLaws.{WithdrawalsAreFair, FairPaymentsAreClose, RewardsRunWhereHeld, OutstandingIsLogged, MessagesPayFairly, VotesPayFairly, EvidencePaysFairly, BlocksPayFairly, RewardsAreTold};
ghost use Rattle.law_rewards.specs.Payments.{PaymentsAreFairlyTold};

/// In a sound state whose accounts are reached, the full reward of each withdrawal is bracketed, an exhausted outstanding
/// record cuts it by at most the overclaim, what is told is the payment of the smaller of the two, in whole coins, and just
/// these are logged.
#[tactic(auto, using(crate::proofs::Withdrawing::withdrawals_are_fair))]
pub fn withdrawals_are_fair()
    ensures { WithdrawalsAreFair }
{}

/// The coins of a fair withdrawal are at most the ideal reward, and above it less the slack and one whole coin where what was
/// outstanding was not exhausted.
pub fn fair_payments_are_close()
    ensures { FairPaymentsAreClose }
{}

/// In a sound state whose accounts are reached, the rewards of a delegator at a validator run, by the log, exactly
/// where it has a delegation to it.
#[tactic(auto, using(crate::proofs::Resting::rewards_run_where_held))]
pub fn rewards_run_where_held()
    ensures { RewardsRunWhereHeld }
{}

/// In a state whose accounts are reached, what is outstanding for each validator is what its history comes to.
#[tactic(auto, using(crate::proofs::Holding::outstanding_is_logged))]
pub fn outstanding_is_logged()
    ensures { OutstandingIsLogged }
{}

/// From a sound state whose accounts are reached, each withdrawal that a message logs is fair, by the log up to it,
/// whether the message asks for it or changes a delegation; no start is made of rewards that run; the payments that are
/// told are those that are logged; and right before each its coins are sent to the payee.
#[tactic(auto, using(crate::proofs::Telling::messages_pay_fairly))]
pub fn messages_pay_fairly()
    ensures { MessagesPayFairly }
{}

/// From a sound state whose accounts are reached, each withdrawal that a vote or a piece of evidence logs, whose slash
/// unbonds what was redelegated, is fair, and is told and sent as [`messages_pay_fairly`] says.
pub fn punishing_pays_fairly()
    ensures voted { VotesPayFairly }
    ensures weighed { EvidencePaysFairly }
{}

/// From a sound state whose accounts are reached, each withdrawal that any part of a block logs is fair, and is told
/// and sent as [`messages_pay_fairly`] says.
#[tactic(auto, using(crate::proofs::Closing::blocks_pay_fairly))]
pub fn blocks_pay_fairly()
    ensures { BlocksPayFairly }
{}

/// A message that asks for a reward, and is not refused, adds its payment to the facts, to the payee of the state before.
#[tactic(auto, using(crate::proofs::Told::rewards_are_told))]
pub fn rewards_are_told()
    ensures { RewardsAreTold }
{}

/// Where the payments of rewards among facts are those of fair entries of the log, and are sent, a reader of the facts
/// finds for each of them a fair withdrawal that was logged: it was sent right before, is at most the ideal reward, and
/// above it less the slack and one whole coin where what was outstanding was not exhausted.
#[tactic(auto, using(crate::proofs::Finding::payments_are_fairly_told))]
pub fn payments_are_fairly_told()
    ensures { PaymentsAreFairlyTold }
{}
