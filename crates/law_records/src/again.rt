//! That records which pass the tests are those of their plain state, as functions that do nothing: their contracts are
//! the laws.

ghost use Rattle.law_records.specs.Again.{RecordsAreThoseOfState, SigningsAreThoseOfVotes};

/// Signing records that pass their tests have the infos and the rings of the votes of their plain state.
#[tactic(auto, using(crate::proofs::AgainLaws::signings_again))]
pub fn signings_of_votes()
    ensures { SigningsAreThoseOfVotes }
{}

/// Records that pass all tests are those of their plain state.
pub fn records_of_state()
    ensures { RecordsAreThoseOfState }
{}
