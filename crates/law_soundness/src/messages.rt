//! Fees and messages keep a state sound, and are refused by the first of their conditions: laws as functions that do nothing,
//! whose contracts are the laws.

ghost use Rattle.rule_modules.specs.RefusalOrder.{RefusalsNameConditions};
ghost use Rattle.rule_machine.specs.Promises.{MessagesNameConditions};
ghost use Rattle.law_soundness.specs.StepLaws.{FeesKeepSoundness, SendsKeepSoundness, PayeesKeepSoundness, FundingKeepsSoundness, SpendingKeepsSoundness, UpdatingKeepsSoundness, CommissionsKeepSoundness, EditsKeepSoundness, UnjailingKeepsSoundness, RewardsKeepSoundness, DelegatingKeepsSoundness, CreatingKeepsSoundness, UndelegatingKeepsSoundness, CancellingKeepsSoundness, RedelegatingKeepsSoundness, MessagesKeepSoundness, TransactionsKeepSoundness, FundsNameConditions, RewardsNameConditions, DelegationsNameConditions, CancellationsNameConditions, UndelegationsNameConditions, CreationsNameConditions, RedelegationsNameConditions};

/// A fee that is paid leaves a sound state sound.
#[tactic(auto, using(crate::proofs::Moves::fees_keep_soundness))]
pub fn fees_keep_soundness()
    ensures { FeesKeepSoundness }
{}

/// A send that is not refused leaves a sound state sound.
#[tactic(auto, using(crate::proofs::Moves::sends_keep_soundness))]
pub fn sends_keep_soundness()
    ensures { SendsKeepSoundness }
{}

/// Naming a payee leaves a sound state sound, where it is not refused.
#[tactic(auto, using(crate::proofs::Moves::payees_keep_soundness))]
pub fn payees_keep_soundness()
    ensures { PayeesKeepSoundness }
{}

/// Funding the community pool and spending from it leave a sound state sound, where they are not refused.
#[tactic(auto, using(crate::proofs::Pool::funding_keeps_soundness, crate::proofs::Pool::spending_keeps_soundness))]
pub fn pool_keeps_soundness()
    ensures funded { FundingKeepsSoundness }
    ensures spent { SpendingKeepsSoundness }
{}

/// Replacing the parameters leaves a sound state sound, where it is not refused.
#[tactic(auto, using(crate::proofs::Updating::updating_keeps_soundness))]
pub fn updates_keep_soundness()
    ensures { UpdatingKeepsSoundness }
{}

/// Withdrawing commission leaves a sound state sound, where it is not refused.
#[tactic(auto, using(crate::proofs::Pool::commissions_keep_soundness))]
pub fn commissions_keep_soundness()
    ensures { CommissionsKeepSoundness }
{}

/// An edit of a validator that is not refused leaves a sound state sound.
#[tactic(auto, using(crate::proofs::Standing::edits_keep_soundness))]
pub fn edits_keep_soundness()
    ensures { EditsKeepSoundness }
{}

/// Leaving jail leaves a sound state sound, where it is not refused.
#[tactic(auto, using(crate::proofs::Standing::unjailing_keeps_soundness))]
pub fn unjailing_keeps_soundness()
    ensures { UnjailingKeepsSoundness }
{}

/// Withdrawing a reward leaves a sound state sound, where it is not refused.
#[tactic(auto, using(crate::proofs::Rewards::rewards_keep_soundness))]
pub fn rewards_keep_soundness()
    ensures { RewardsKeepSoundness }
{}

/// Delegating leaves a sound state sound, where it is not refused.
#[tactic(auto, using(crate::proofs::Delegating::delegating_keeps_soundness))]
pub fn delegating_keeps_soundness()
    ensures { DelegatingKeepsSoundness }
{}

/// Creating a validator leaves a sound state sound, where it is not refused.
#[tactic(auto, using(crate::proofs::Creating::creating_keeps_soundness))]
pub fn creating_keeps_soundness()
    ensures { CreatingKeepsSoundness }
{}

/// Undelegating leaves a sound state sound, where it is not refused and no entry that was made at this height lost
/// anything; cancelling an unbonding does, where it is not refused.
#[tactic(auto, using(crate::proofs::Leaving::undelegating_keeps_soundness, crate::proofs::Leaving::cancelling_keeps_soundness))]
pub fn unbondings_keep_soundness()
    ensures undelegated { UndelegatingKeepsSoundness }
    ensures cancelled { CancellingKeepsSoundness }
{}

/// Redelegating leaves a sound state sound, where it is not refused.
#[tactic(auto, using(crate::proofs::Redelegating::redelegating_keeps_soundness))]
pub fn redelegating_keeps_soundness()
    ensures { RedelegatingKeepsSoundness }
{}

/// Where no entry that was made at this height lost anything, each message of the machine that is not refused leaves a
/// sound state sound, and so does each transaction, also one that is refused.
#[tactic(auto, using(crate::proofs::Transactions::messages_keep_soundness, crate::proofs::Transactions::transactions_keep_soundness))]
pub fn transactions_keep_soundness()
    ensures messages { MessagesKeepSoundness }
    ensures transactions { TransactionsKeepSoundness }
{}

/// From a sound state funding the community pool is refused by the first of its conditions that holds, and accepted where none
/// does.
#[tactic(auto, using(crate::proofs::Refusing::funds_refused))]
pub fn funds_name_conditions()
    ensures { FundsNameConditions }
{}

/// From a sound state each of the messages that withdraw a reward, delegate and cancel an unbonding, which run hooks,
/// is refused by the first of its conditions that holds, and accepted where none does.
#[tactic(auto, using(crate::proofs::Refused::rewards_refused, crate::proofs::Refused::delegations_refused, crate::proofs::Refused::cancellations_refused))]
pub fn delegators_name_conditions()
    ensures rewards { RewardsNameConditions }
    ensures delegations { DelegationsNameConditions }
    ensures cancellations { CancellationsNameConditions }
{}

/// From a sound state undelegating is refused by the first of its conditions that holds, and accepted where none does:
/// unbonding is over only where the hook before it is.
#[tactic(auto, using(crate::proofs::Undelegated::undelegations_refused))]
pub fn undelegations_name_conditions()
    ensures { UndelegationsNameConditions }
{}

/// From a sound state creating a validator is refused by the first of its conditions that holds, and accepted where
/// none does: its first period has nothing to share out, so no hook is over.
#[tactic(auto, using(crate::proofs::Created::creations_refused))]
pub fn creations_name_conditions()
    ensures { CreationsNameConditions }
{}

/// From a sound state redelegating is refused by the first of its conditions that holds, and accepted where none does:
/// the hook of the target is over in the same cases before and after shares leave the source.
#[tactic(auto, using(crate::proofs::Redelegated::redelegations_refused))]
pub fn redelegations_name_conditions()
    ensures { RedelegationsNameConditions }
{}

/// From a sound state every message is refused by the first of its conditions that holds, and accepted where none does.
#[tactic(auto, using(crate::proofs::Named::messages_name_conditions, crate::proofs::Named::refusals_name_conditions))]
pub fn messages_name_conditions()
    ensures messages { MessagesNameConditions }
    ensures rules { RefusalsNameConditions }
{}
