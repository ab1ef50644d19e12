//! What the laws of accounts say of a whole state: laws as functions that do nothing, whose contracts are the laws.

ghost use Rattle.law_rewards.specs.StateLaws.{ReachedIsBracketed, ReachedHasShortfallWithin, ReachedIsCutWithin, NextBlockKeepsReached, EndKeepsReached, WithdrawalKeepsReached, RewardMessagesKeepReached, QuietMessagesKeepReached, StandingMessagesKeepReached, SharingKeepsReached};

/// In a sound state whose accounts are reached, the claim of each delegation, in each denomination, is bracketed.
pub fn reached_is_bracketed()
    ensures { ReachedIsBracketed }
{}

/// In a state whose accounts are reached, what is outstanding for each validator covers all claims, but for the overclaim.
pub fn reached_has_shortfall_within()
    ensures { ReachedHasShortfallWithin }
{}

/// In a sound state whose accounts are reached, an exhausted outstanding record cuts a withdrawal, once its period has
/// ended, by at most the overclaim.
pub fn reached_is_cut_within()
    ensures { ReachedIsCutWithin }
{}

/// The next block keeps accounts reached, and so do the end of a validator's period and the withdrawal of a reward.
pub fn steps_keep_reached()
    ensures next_block { NextBlockKeepsReached }
    ensures ended { EndKeepsReached }
    ensures withdrawn { WithdrawalKeepsReached }
{}

/// From a sound state each message that withdraws a reward keeps accounts reached, where it is not refused.
pub fn reward_messages_keep_reached()
    ensures { RewardMessagesKeepReached }
{}

/// From a sound state the fee, and each message that moves coins, names a payee, funds or spends from the pool, or
/// withdraws commission, keeps accounts reached, where it is not refused.
pub fn quiet_messages_keep_reached()
    ensures { QuietMessagesKeepReached }
{}

/// From a sound state each message that edits a validator or frees it from jail keeps accounts reached, where it is not
/// refused.
pub fn standing_messages_keep_reached()
    ensures { StandingMessagesKeepReached }
{}

/// Where no start is of the block's height, as where a block begins, sharing fees among votes keeps accounts reached.
pub fn sharing_keeps_reached()
    ensures { SharingKeepsReached }
{}
