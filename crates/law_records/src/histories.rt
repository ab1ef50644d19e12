//! What the tests of distribution tell, and which records of ended periods are kept, as functions that do nothing: their contracts are the laws.

ghost use Rattle.law_records.specs.HistoryLaws.{RewardsAreKeptByTests, RewardsAreSoundByTests};
ghost use Rattle.law_records.specs.Referred.{RecordsGoWithReferences};

/// Where the tests of distribution pass, the periods and starts of the plain state are sound.
pub fn rewards_sound_by_tests()
    ensures { RewardsAreSoundByTests }
{}

/// Where they pass, the records stand for the rewards of the plain state.
pub fn rewards_kept_by_tests()
    ensures { RewardsAreKeptByTests }
{}

/// In every sound state the record of an ended period stands exactly while its validator does and something refers to it, with
/// the number of what does.
#[tactic(auto, using(crate::proofs::ReferredLaws::records_go_with_references))]
pub fn records_go_with_references()
    ensures { RecordsGoWithReferences }
{}
