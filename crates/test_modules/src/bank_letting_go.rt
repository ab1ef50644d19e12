//! Letting go of a scene. What its parts hold in tables is let go of record by record, so each does it in a function of
//! its own.

use base_roles::Facts;
use mod_bank::BankBalances;

pub(crate) fn let_go_of_book(_book: BankBalances) {}

pub(crate) fn let_go_of_facts(_facts: Facts) {}
