//! What the tests decide, as functions that do nothing: their contracts are the laws.

ghost use Rattle.law_records.specs.Laws.{AccountsAreDecided, EntriesAreDecided, FewIsDecided, GroundIsDecided, RecordingIsDecided, RecordsAscend, SigningIsSoundByTests, StakedIsDecided, StandingIsDecided, ValidatorsAreDecided};

/// The keys of gathered records ascend.
#[tactic(auto, using(crate::proofs::DecisionLaws::all_ascend))]
pub fn gathered_keys_ascend()
    ensures { RecordsAscend }
{}

/// The tests of ranges and supplies decide that the ground is in order.
#[tactic(auto, using(crate::proofs::DecisionLaws::ground_is_decided))]
pub fn ground_by_tests()
    ensures { GroundIsDecided }
{}

/// The test of denominations decides that they are few.
#[tactic(auto, using(crate::proofs::DecisionLaws::few_are_decided))]
pub fn few_by_tests()
    ensures { FewIsDecided }
{}

/// The tests of validators and delegations decide that they are sound.
#[tactic(auto, using(crate::proofs::DecisionLaws::staked_is_decided))]
pub fn stakes_by_tests()
    ensures { StakedIsDecided }
{}

/// The tests of accounts decide that they hold what they owe.
#[tactic(auto, using(crate::proofs::DecisionLaws::accounts_are_decided))]
pub fn accounts_by_tests()
    ensures { AccountsAreDecided }
{}

/// The test of validators decides that each is sound by itself.
#[tactic(auto, using(crate::proofs::DecisionLaws::validators_are_decided))]
pub fn validators_by_tests()
    ensures { ValidatorsAreDecided }
{}

/// The tests of keys decide that distribution stands for validators and delegations.
#[tactic(auto, using(crate::proofs::DecisionLaws::standing_is_decided))]
pub fn standing_by_tests()
    ensures { StandingIsDecided }
{}

/// The tests of entries decide that they are sound.
#[tactic(auto, using(crate::proofs::DecisionLaws::entries_are_decided))]
pub fn entries_by_tests()
    ensures { EntriesAreDecided }
{}

/// The test of signing records decides that those stand which have to.
#[tactic(auto, using(crate::proofs::DecisionLaws::recording_is_decided))]
pub fn recording_by_tests()
    ensures { RecordingIsDecided }
{}

/// Signing records that pass their tests are sound.
pub fn signing_by_tests()
    ensures { SigningIsSoundByTests }
{}
