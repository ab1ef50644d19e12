//! Letting go of a scene. What its parts hold in tables is let go of record by record, so each does it in a function of
//! its own.

use base_roles::Ground;
use mod_bank::BankBalances;
use mod_staking::Staking;

pub(crate) fn let_go_of_staking(_staking: Staking) {}

/// Lets go of the bank, and of the facts that were told.
pub(crate) fn let_go_of_ground(_ground: Ground<BankBalances>) {}
