//! The two kinds of records as items of the state.

ghost use Rattle.std.specs.Prelude.{◌≡◌};
ghost use Rattle.base_records.specs.Items.{AnyValue};
ghost use Rattle.mod_staking.specs.Items.{validator_item, delegation_item, validator_gone, delegation_gone, validator_entry, delegation_entry, FitsOperator, same_validator, same_status, same_commission, same_shares};
ghost use Rattle.base_roles.specs.Items.{no_validator};

use crate::creating::{beginning, nothing};
use base_records::AsItem;
use base_roles::{Commission, Delegation, Item, Validator};
use base_table::TableFault;
use base_types::{Addr, BondStatus, ConsAddr};
use std::alloc::Global;

/// Validators, by operator.
pub(crate) struct ValidatorKind;

/// Delegations, by operator and delegator.
pub(crate) struct DelegationKind;

impl AsItem for ValidatorKind {
    type Key = Addr;

    type Value = Validator;

    ghost Fits = { FitsOperator };

    ghost item_of = { validator_item };

    ghost gone_of = { validator_gone };

    ghost same = { same_validator };

    ghost entry_of = { validator_entry };

    fn item(_key: &Addr, value: &Validator) -> Result<Item, TableFault> {
        Ok(Item::Validator { validator: *value })
    }

    fn gone(_alloc: Global, key: &Addr) -> Item {
        Item::Validator {
            validator: gone_validator(key),
        }
    }

    fn is_same(value: &Validator, other: &Validator) -> bool {
        is_same_validator(value, other)
    }

    fn told() {}
}

impl AsItem for DelegationKind {
    type Key = (Addr, Addr);

    type Value = Delegation;

    ghost Fits = { AnyValue };

    ghost item_of = { delegation_item };

    ghost gone_of = { delegation_gone };

    ghost same = { same_shares };

    ghost entry_of = { delegation_entry };

    fn item(key: &(Addr, Addr), value: &Delegation) -> Result<Item, TableFault> {
        Ok(Item::Delegation {
            operator: key.0,
            delegator: key.1,
            shares: value.shares(),
        })
    }

    fn gone(_alloc: Global, key: &(Addr, Addr)) -> Item {
        Item::Delegation {
            operator: key.0,
            delegator: key.1,
            shares: nothing(),
        }
    }

    fn is_same(value: &Delegation, other: &Delegation) -> bool {
        value.shares().raw() == other.shares().raw()
    }

    fn told() {}
}

/// Whether two validators are one, field by field.
fn is_same_validator(a: &Validator, b: &Validator) -> bool
    ensures { result ≡ same_validator a.now b.now }
{
    a.operator == b.operator
        && a.cons == b.cons
        && is_same_status(a.status, b.status)
        && a.jailed == b.jailed
        && a.tokens == b.tokens
        && a.shares.raw() == b.shares.raw()
        && is_same_commission(&a.commission, &b.commission)
        && a.min_self == b.min_self
        && a.unbonding_height == b.unbonding_height
        && a.unbonding_time.nanos() == b.unbonding_time.nanos()
}

fn is_same_status(a: BondStatus, b: BondStatus) -> bool
    ensures { result ≡ same_status a b }
{
    match (a, b) {
        (BondStatus::Bonded, BondStatus::Bonded) => true,
        (BondStatus::Unbonding, BondStatus::Unbonding) => true,
        (BondStatus::Unbonded, BondStatus::Unbonded) => true,
        _ => false,
    }
}

fn is_same_commission(a: &Commission, b: &Commission) -> bool
    ensures { result ≡ same_commission a.now b.now }
{
    a.rate.raw() == b.rate.raw()
        && a.max_rate.raw() == b.max_rate.raw()
        && a.max_change.raw() == b.max_change.raw()
        && a.updated.nanos() == b.updated.nanos()
}

/// A validator with its operator alone.
fn gone_validator(operator: &Addr) -> Validator
    ensures { result ≡ no_validator operator.now }
{
    Validator {
        operator: *operator,
        cons: ConsAddr::of([0; 20]),
        status: BondStatus::Bonded,
        jailed: false,
        tokens: 0,
        shares: nothing(),
        commission: Commission {
            rate: nothing(),
            max_rate: nothing(),
            max_change: nothing(),
            updated: beginning(),
        },
        min_self: 0,
        unbonding_height: 0,
        unbonding_time: beginning(),
    }
}
