//! Worked rows of the rules, each a theorem that its function's contract names: what small states and blocks come to.

ghost use Rattle.rule_worked.specs.Fees.{WithTaxAndCommission, WithoutTaxAndCommission, SharedByThree, RewardIsPending, DelegatingWithReward, DelegatingTooMuch, NothingLeftToDelegate, AllocatedWithoutTokens, WithdrawingWithoutTokens, PoolAndCommission};
ghost use Rattle.rule_worked.specs.Shares.{DelegatingTen, UndelegatingTen, UndelegatingAlmostAll, StartedAtOldTokens, IssuingTooMany, UndelegatingAll, NothingIsLeft, CreatedAgain, BurningOneOfThree, OthersLoseATenth};
ghost use Rattle.rule_worked.specs.Parameters.{WindowShrinks, ShrunkIsPunished, WindowGrows, GrownCounts, OutOfRange, Fixed, NotByOthers, TaxOfAll, ChangeIsTakenBack, RefusedBehindIt};
ghost use Rattle.rule_worked.specs.Slashes.{UnbondingsUnderEvidence, SlashedTwice, WithdrawnAfterBoth, WithdrawnInTheBlock, FollowedIntoAnEntry, WithdrawnBehindTheEntry, AllBurnedInAnEntry, PunishedOnce, NeverUnjailed, TooOld, FiveMissed, SixMissed, StillInJail, OutOfJail};
ghost use Rattle.rule_worked.specs.Stakes.{TransitiveIsRefused, LowerIsBonded, SetChanges, UnbondingsMature, CommissionEdits, Cancelling};

/// One validator shares fees of 1,000 between stakes of 1,000,000 and 2,000,000.
pub fn fees_of_one_validator()
    ensures with_both { WithTaxAndCommission }
    ensures with_neither { WithoutTaxAndCommission }
{}

/// Three votes of one power share a fee of 5,000 less a tax.
pub fn fees_of_three_validators()
    ensures { SharedByThree }
{}

/// The hook of a delegation pays the reward first, so the coins of the reward can be delegated.
pub fn reward_within_a_delegation()
    ensures pending { RewardIsPending }
    ensures enough { DelegatingWithReward }
    ensures too_much { DelegatingTooMuch }
{}

/// A slash by a factor of 1 leaves shares over no tokens.
pub fn everything_slashed()
    ensures refused { NothingLeftToDelegate }
    ensures allocated { AllocatedWithoutTokens }
    ensures withdrawn { WithdrawingWithoutTokens }
{}

/// The community pool is funded and spent, and commission and payees are refused.
pub fn pool_and_commission()
    ensures { PoolAndCommission }
{}

/// 100 shares have 99 tokens: what 10 give, and what 10, 98 and 99 take out.
pub fn shares_over_fewer_tokens()
    ensures delegated { DelegatingTen }
    ensures ten { UndelegatingTen }
    ensures almost_all { UndelegatingAlmostAll }
    ensures started { StartedAtOldTokens }
    ensures too_many { IssuingTooMany }
    ensures burned { BurningOneOfThree }
{}

/// What is undelegated lowers what the shares of others are worth, by a tenth of a unit of 10^-18.
pub fn worth_of_others()
    ensures { OthersLoseATenth }
{}

/// An unbonded validator goes with its last shares, and its operator creates one again.
pub fn removed_and_created_again()
    ensures all { UndelegatingAll }
    ensures nothing { NothingIsLeft }
    ensures again { CreatedAgain }
{}

/// Evidence slashes the unbonding entries of its time.
pub fn unbondings_under_evidence()
    ensures { UnbondingsUnderEvidence }
{}

/// A slash of what was redelegated follows into what was undelegated from the target since.
pub fn slash_follows_into_unbondings()
    ensures facts { FollowedIntoAnEntry }
    ensures reward { WithdrawnBehindTheEntry }
    ensures whole { AllBurnedInAnEntry }
{}

/// A delegation that was redelegated is slashed for both validators.
pub fn redelegation_slashed_twice()
    ensures facts { SlashedTwice }
    ensures later { WithdrawnAfterBoth }
    ensures at_once { WithdrawnInTheBlock }
{}

/// Two pieces of evidence in one block count once, and evidence past both ages not at all.
pub fn evidence_of_one_block()
    ensures once { PunishedOnce }
    ensures for_ever { NeverUnjailed }
    ensures too_old { TooOld }
{}

/// Votes are missed, punished, and the validator leaves jail.
pub fn missed_votes()
    ensures five { FiveMissed }
    ensures six { SixMissed }
    ensures still { StillInJail }
    ensures out { OutOfJail }
{}

/// A redelegation of what a redelegation gave is refused.
pub fn transitive_redelegation()
    ensures { TransitiveIsRefused }
{}

/// Of two validators of one power the lower operator's is bonded.
pub fn ties_of_power()
    ensures { LowerIsBonded }
{}

/// The bonded set changes, and unbondings become mature.
pub fn bonded_set_changes()
    ensures changes { SetChanges }
    ensures mature { UnbondingsMature }
{}

/// Edits of a commission.
pub fn commission_edits()
    ensures { CommissionEdits }
{}

/// An unbonding is cancelled.
pub fn cancelled_unbonding()
    ensures { Cancelling }
{}

/// Parameters that change: the window shrinks and grows, refusals, a tax of all fees, and a change that
/// is taken back.
pub fn changed_parameters()
    ensures shrinks { WindowShrinks }
    ensures punished { ShrunkIsPunished }
    ensures grows { WindowGrows }
    ensures counts { GrownCounts }
    ensures range { OutOfRange }
    ensures fixed { Fixed }
    ensures others { NotByOthers }
    ensures tax { TaxOfAll }
    ensures back { ChangeIsTakenBack }
    ensures refused { RefusedBehindIt }
{}
