//! What holds of each account that is reached: laws as functions that do nothing, whose contracts are the laws.

ghost use Rattle.law_rewards.specs.Laws.{ValuesAreClose, IncrementsAreClose, RemovalsLowerByHalfAUnit, MomentsDoNotMatter, NewIsReached, DeedsLeadOn, RewardsAreBracketed, ShortfallIsBounded, CutIsBounded, RewardsGoByDenomination};

/// Values of shares are at most a unit from the exact ones.
pub fn values_are_close()
    ensures { ValuesAreClose }
{}

/// The increment of the ratio is less than a unit below the exact quotient.
#[tactic(auto, using(crate::proofs::Acts::increments_are_close))]
pub fn increments_are_close()
    ensures { IncrementsAreClose }
{}

/// Shares that leave lower what the others are worth together by at most half a unit.
#[tactic(auto, using(crate::proofs::Acts::removals_lower_by_half_a_unit))]
pub fn removals_lower_by_half_a_unit()
    ensures { RemovalsLowerByHalfAUnit }
{}

/// An ideal reward depends on allocations and slashes alone, not on when periods end or on who comes and goes.
#[tactic(auto, using(crate::proofs::Acts::moments_do_not_matter))]
pub fn moments_do_not_matter()
    ensures { MomentsDoNotMatter }
{}

/// The account of a validator that was just created is reached.
#[tactic(auto, using(crate::proofs::Reached::new_is_reached))]
pub fn new_account()
    ensures { NewIsReached }
{}

/// Fitting deeds lead from a reached account to reached accounts.
#[tactic(auto, using(crate::proofs::Reached::deeds_lead_on))]
pub fn deeds_lead_on()
    ensures { DeedsLeadOn }
{}

/// Whenever a period has just ended, the reward of each delegation is at most each allocation since its start shared at
/// once by its ideal stake, in exact fractions, and lower than that by at most the slack.
#[tactic(auto, using(crate::proofs::Reached::rewards_are_bracketed))]
pub fn rewards_are_bracketed()
    ensures { RewardsAreBracketed }
{}

/// What is outstanding, with the overclaim, covers commission, current rewards and all claims.
#[tactic(auto, using(crate::proofs::Reached::shortfall_is_bounded))]
pub fn shortfall_is_bounded()
    ensures { ShortfallIsBounded }
{}

/// What an exhausted outstanding record cuts from a payment is at most the overclaim.
#[tactic(auto, using(crate::proofs::Reached::cut_is_bounded))]
pub fn cut_is_bounded()
    ensures { CutIsBounded }
{}

/// A reward in lists of coins is a list of coins, and in each denomination the reward in that denomination.
pub fn rewards_go_by_denomination()
    ensures { RewardsGoByDenomination }
{}
