//! Evidence that a validator signed two blocks of one height (Cosmos SDK v0.47: module `x/evidence`), over any
//! lawful bank, hooks, slasher and signers.
#![tactic(auto)]

mod handling;

pub use handling::equivocation;
