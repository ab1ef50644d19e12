//! Worked rows, as functions that do nothing: their contracts are the rows.

ghost use Rattle.rule_histories.specs.Worked.{OneAccountStarts, OneSend, SendChangesFour, RefusedChangesHead, HeightMissed, TimeBefore, TimeAgain, TimePast, SecondSendShort, TwoDenominations, FeeTooHigh, ToAModule, NoCoins, MayStart, ParameterOutOfRange, ModuleAccount, AccountTwice, TooMuch};
ghost use Rattle.rule_histories.specs.WholeRows.{MayStartChain, WrongBeginnings, ValidatorsTwice, WrongRates, WrongDelegations, TooMuchDelegated, FirstIsNamed, WrongPlaces, WrongVotes, WrongEvidence, VotesComeFirst, LimitsOfBeginnings, OutcomesOfMessages};
ghost use Rattle.rule_histories.specs.HistoryRows.{FeesOfThirtyBlocks, AllWithdraw, NoneIsCut};
ghost use Rattle.rule_histories.specs.LifeRows.{GenesisIsTold, BlocksAreTold, EndIsReported};
ghost use Rattle.rule_histories.specs.ListeningRows.{GenesisIsHeard, BlocksAreHeard};
ghost use Rattle.rule_histories.specs.LeavingRows.{LeavingIsTold, GoneAtOnce, HeldWhileUnbonded, GoneWithLastDelegation, BegunAnew, HeldWithoutShares, GoneAsItMatures};
ghost use Rattle.rule_histories.specs.RandomRows.{RandomHistory, HoldsAfterHistory, BurnsAfterHistory};
ghost use Rattle.rule_histories.specs.OutcomeRows.{CreationsAreRefused, RatesChangeDayByDay, TwoBlocksEnd};
ghost use Rattle.rule_histories.specs.ParameterRows.{ChangesAreRefused, ChangeStays, AllIsTaxed};
ghost use Rattle.rule_histories.specs.SoundRows.{SoundnessIsMet};

/// Runs, transactions and geneses by example.
pub fn machine_by_example()
    ensures starts { OneAccountStarts }
    ensures one_send { OneSend }
    ensures four_change { SendChangesFour }
    ensures head_changes { RefusedChangesHead }
    ensures height_missed { HeightMissed }
    ensures time_before { TimeBefore }
    ensures time_again { TimeAgain }
    ensures time_past { TimePast }
    ensures second_send_short { SecondSendShort }
    ensures two_denominations { TwoDenominations }
    ensures fee_too_high { FeeTooHigh }
    ensures to_a_module { ToAModule }
    ensures no_coins { NoCoins }
    ensures may_start { MayStart }
    ensures parameter { ParameterOutOfRange }
    ensures module_account { ModuleAccount }
    ensures account_twice { AccountTwice }
    ensures too_much { TooMuch }
{}

/// A genesis with validators and delegations is refused by each condition, the first that holds.
pub fn geneses_by_example()
    ensures may_start { MayStartChain }
    ensures beginnings { WrongBeginnings }
    ensures twice { ValidatorsTwice }
    ensures rates { WrongRates }
    ensures delegations { WrongDelegations }
    ensures too_much { TooMuchDelegated }
    ensures first { FirstIsNamed }
{}

/// A block is refused by each fault, the first in their order.
pub fn block_faults_by_example()
    ensures places { WrongPlaces }
    ensures votes { WrongVotes }
    ensures evidence { WrongEvidence }
    ensures order { VotesComeFirst }
    ensures limits { LimitsOfBeginnings }
{}

/// Fees and messages of one block, accepted and refused.
pub fn messages_by_example()
    ensures { OutcomesOfMessages }
{}

/// Forty delegators of three validators share the fees of thirty blocks.
pub fn forty_delegators_by_example()
    ensures fees { FeesOfThirtyBlocks }
    ensures withdrawals { AllWithdraw }
{}

/// Thirty delegators of a validator that was slashed undelegate 1 in each of seven blocks with fees, and then all withdraw: no
/// payment is cut.
pub fn thirty_delegators_by_example()
    ensures { NoneIsCut }
{}

/// Four blocks with a delegation, an undelegation, a missed vote, evidence and what is mature, and the report at their end.
pub fn whole_machine_by_example()
    ensures genesis { GenesisIsTold }
    ensures blocks { BlocksAreTold }
    ensures report { EndIsReported }
{}

/// Eight blocks in which a validator is removed with all its records: never bonded, after it was
/// mature, and as it is mature; what is created again begins anew.
pub fn leaving_validator_by_example()
    ensures blocks { LeavingIsTold }
    ensures gone_at_once { GoneAtOnce }
    ensures while_unbonded { HeldWhileUnbonded }
    ensures gone_with_last { GoneWithLastDelegation }
    ensures anew { BegunAnew }
    ensures without_shares { HeldWithoutShares }
    ensures gone_as_mature { GoneAsItMatures }
{}

/// A random history, reported as a second implementation does; after it the accounts hold what they owe, and supplies
/// fell by the burns that were told.
pub fn random_history_by_example()
    ensures reports { RandomHistory }
    ensures owed { HoldsAfterHistory }
    ensures burns { BurnsAfterHistory }
{}

/// A small genesis starts a chain whose state is sound, so soundness can be met.
#[tactic(auto, using(crate::proofs::SoundLemmas::soundness_is_met))]
pub fn soundness_by_example()
    ensures { SoundnessIsMet }
{}

/// Creations that are refused, rates that change day by day, and blocks that create, delegate and undo.
pub fn outcomes_by_example()
    ensures creations { CreationsAreRefused }
    ensures rates { RatesChangeDayByDay }
    ensures outcomes { TwoBlocksEnd }
{}

/// Parameters that change: refused or not, what follows sees them, and a refused transaction takes them
/// back.
pub fn changed_parameters_by_example()
    ensures refusals { ChangesAreRefused }
    ensures stays { ChangeStays }
    ensures tax { AllIsTaxed }
{}

/// What a listener hears of a genesis and of four blocks.
pub fn listening_by_example()
    ensures genesis { GenesisIsHeard }
    ensures blocks { BlocksAreHeard }
{}
