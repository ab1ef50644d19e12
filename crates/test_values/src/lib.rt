//! Tests of the values that all crates share: of decimals, coins and shares, of denominations, accounts and moments
//! (`base_decimals`, `base_types`, `base_coins` and `base_shares`); of tables, and of records in them (`base_table` and
//! `base_records`); of facts, messages, blocks and faults, and of the roles over small values (`base_roles`,
//! `base_roles_example` and `base_messages`). They stand apart so that what they try is proved without them, and nothing
//! waits for them.
#![tactic(auto)]

#[cfg(test)]
mod checks;
#[cfg(test)]
mod coin_tests;
#[cfg(test)]
mod decimal_cases;
#[cfg(test)]
mod decimal_tests;
#[cfg(test)]
mod forgetting_tests;
#[cfg(test)]
mod message_tests;
#[cfg(test)]
mod range_tests;
#[cfg(test)]
mod record_tests;
#[cfg(test)]
mod role_tests;
#[cfg(test)]
mod row_kinds;
#[cfg(test)]
mod row_tests;
#[cfg(test)]
mod share_cases;
#[cfg(test)]
mod table_tests;
#[cfg(test)]
mod text_tests;
#[cfg(test)]
mod trial_tests;
#[cfg(test)]
mod values;
