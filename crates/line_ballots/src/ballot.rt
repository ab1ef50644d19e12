use base_types::Addr;
use mod_tally::Choice;

/// A ballot: who cast it, and what it chooses (Cosmos SDK: `MsgVote` of `x/gov`).
#[derive(Clone, Copy, Debug, PartialEq, Eq)]
pub struct Ballot {
    pub voter: Addr,
    pub choice: Choice,
}
