//! What the count knows of bonded validators.

ghost use Rattle.std.specs.Prelude.{◌≡◌, ◌^◌, ◌≤◌, IfOk, IfErr};
ghost use Rattle.std.specs.List.{filter_map, sum_by};
ghost use Rattle.base_types.specs.Orders.{addr_cmp};
ghost use Rattle.base_roles.specs.Staked.{is_bonded};
ghost use Rattle.rule_machine.specs.Orders.{in_order};
ghost use Rattle.mod_tally.specs.Counting.{bonded_in, poll_in};
ghost use Rattle.mod_tally.specs.Tally.{counts};

use crate::fault::TallyFault;
use base_decimals::Dec;
use base_roles::{Item, Validator};
use base_types::{Addr, BondStatus};
use std::alloc::Global;
use std::collections::BTreeMap;

/// A bonded validator while ballots are counted.
#[derive(Clone, Copy, Debug, PartialEq, Eq)]
pub(crate) struct Poll {
    /// In units of the bond denomination.
    pub(crate) tokens: u128,
    pub(crate) shares: Dec,
    /// The shares less those of delegators with a ballot, as far as the count has come.
    pub(crate) left: Dec,
}

/// Whether a validator is bonded.
fn is_bonded(status: BondStatus) -> bool
    ensures { result ≡ is_bonded status }
{
    match status {
        BondStatus::Bonded => true,
        BondStatus::Unbonding => false,
        BondStatus::Unbonded => false,
    }
}

/// Whether a validator is bonded and has shares.
fn counts(validator: &Validator) -> bool
    ensures { result ≡ counts validator.now }
{
    is_bonded(validator.status) && 0 < validator.shares.raw()
}

/// A bonded validator with shares, under its operator.
fn poll_in(item: &Item) -> Option<(Addr, Poll)>
    ensures { result ≡ poll_in item.now }
{
    match item {
        Item::Validator { validator } => {
            if counts(validator) {
                Some((
                    validator.operator,
                    Poll {
                        tokens: validator.tokens,
                        shares: validator.shares,
                        left: validator.shares,
                    },
                ))
            } else {
                None
            }
        }
        _ => None,
    }
}

/// The bonded validators with shares among items, by operator.
pub(crate) fn polls_in(alloc: Global, items: &[Item]) -> Result<BTreeMap<Addr, Poll>, TallyFault>
    ensures polls { IfOk result (λ polls. polls.entries
        ≡ in_order addr_cmp (filter_map poll_in items.now)) }
    ensures fault { IfErr result (λ fault. fault ≡ TallyFault.NoMemory) }
{
    let mut polls = BTreeMap::new(alloc);
    for item in items {
        if let Some(told) = poll_in(item) {
            polls.insert(told.0, told.1)?;
        }
    }
    Ok(polls)
}

/// The tokens of a bonded validator.
fn bonded_in(item: &Item) -> u128
    ensures { result ≡ bonded_in item.now }
{
    match item {
        Item::Validator { validator } => {
            if is_bonded(validator.status) {
                validator.tokens
            } else {
                0
            }
        }
        _ => 0,
    }
}

/// The tokens of all bonded validators among items, which are at most 10^18.
pub(crate) fn bonded_tokens(items: &[Item]) -> u128
    requires { sum_by bonded_in items.now ≤ 10 ^ 18 }
    ensures { result ≡ sum_by bonded_in items.now }
{
    let mut total = 0;
    for item in items {
        total += bonded_in(item);
    }
    total
}
