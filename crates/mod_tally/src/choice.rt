/// What a ballot chooses (Cosmos SDK: `govtypes.VoteOption`).
#[derive(Clone, Copy, Debug, PartialEq, Eq)]
pub enum Choice {
    Yes,
    Abstain,
    No,
    /// Against, and against that it was proposed (`NoWithVeto`).
    Veto,
}
