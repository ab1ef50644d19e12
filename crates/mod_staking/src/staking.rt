//! The validators and the delegations, and how they are looked up (`x/staking`).

ghost use Rattle.std.specs.Prelude.{◌≡◌, ℕ, ◌+◌, ◌≤◌, ◌^◌, List, Option, Some, None, true, [], OnOk, OnErr, IsErr, option_map};
ghost use Rattle.std.specs.List.Sorted.{IsStrictlySortedBy};
ghost use Rattle.std.specs.Map.{keys_of};
ghost use Rattle.std.specs.Option.{option_copied};
ghost use Rattle.base_types.specs.Orders.{addr_cmp};
ghost use Rattle.base_table.specs.Tabled.{entry_above};
ghost use Rattle.base_roles.specs.declared.entities.Validator.{Validator};
ghost use Rattle.base_roles.specs.Entries.{without};
ghost use Rattle.base_roles.specs.Orders.{pair_cmp};
ghost use Rattle.base_roles.specs.Staked.{validator_at, validator_by_cons, delegation, put_validator};
ghost use Rattle.rule_modules.specs.Stakes.{without_validator, put_delegation, without_shares};
ghost use Rattle.mod_staking.specs.Places.{standing, standing_cmp, time_cmp, power_place, bonded_place, maturing_place, in_order};
ghost use Rattle.mod_staking.specs.KnownSet.{AreBondedTo, AreSet};
ghost use Rattle.mod_staking.specs.Registered.{new_register, holding, spent_now, operator_by_cons, Stands};

use crate::index::{put_both, take_both};
use crate::listed::ListedValidators;
use crate::places::Standing;
use base_decimals::Dec;
use base_roles::{Delegation, Validator};
use base_table::{Table, TableFault};
use base_types::{Addr, ConsAddr, Moment, Steps};
use std::alloc::Global;
use std::marker::Model;
use std::sync::ledger::Ledger;

/// Validators and delegations, in tables. Contracts see both, as they stand, at each open mark, and at the
/// last settling, and whether memory was wanting in a change.
///
/// Once memory was wanting in a change, each later change answers `NoMemory`.
#[derive(Drop)]
pub struct Staking {
    /// By operator, with the lists by power, of the bonded ones and of the unbonding ones.
    pub(crate) validators: ListedValidators,
    /// The first operator of each consensus address.
    pub(crate) operators: Table<ConsAddr, Addr>,
    /// The shares by operator and delegator.
    pub(crate) delegations: Table<(Addr, Addr), Delegation>,
    pub(crate) alloc: Global,
    pub(crate) spent: bool,
}

impl Model for Staking {
    ghost use Rattle.mod_staking.specs.Registered.{Registered, HaveSameMarks, registered};

    ghost Value = { Registered };

    ghost view = { λ s. registered s.validators s.delegations s.spent };

    ghost invariant = { λ s. HaveSameMarks s.validators s.operators s.delegations };
}

impl Staking {
    /// No validators and no delegations. The tokens of one unit of power are those of the parameters. Takes
    /// no memory.
    pub fn new(alloc: Global, power_reduction: u64) -> Staking
        requires some { 1 ≤ power_reduction }
        requires most { power_reduction ≤ 10 ^ 18 }
        ensures { result ≡ new_register power_reduction }
    {
        Staking {
            validators: ListedValidators::new(alloc, power_reduction),
            operators: Table::new(alloc),
            delegations: Table::new(alloc),
            alloc,
            spent: false,
        }
    }

    /// The validator of the least operator above `after`, or of the least of all for None; None where there
    /// is none. Takes no memory.
    pub fn next_validator<L: Ledger>(
        &self,
        after: Option<&Addr>,
        steps: &mut Steps<L>,
    ) -> Option<&Validator>
        ensures validator { option_copied result ≡ option_map (λ e. e.1)
            (entry_above addr_cmp self.now.staked.validators (option_copied after.entry)) }
        ensures cost { steps.new ≤ steps.old + 1 }
    {
        self.validators.next(after, steps)
    }

    /// The first validator behind the place of so much power and an operator, among those that are not
    /// jailed and have some power, by falling power and rising operator (`ValidatorsPowerStoreIterator`);
    /// the first of all for None, and None where there is none. Takes no memory.
    pub fn next_by_power<L: Ledger>(
        &self,
        after: Option<(u64, Addr)>,
        steps: &mut Steps<L>,
    ) -> Option<&Validator>
        ensures validator { option_copied result ≡ option_map (λ e. e.1) (entry_above standing_cmp
            (in_order standing_cmp (power_place self.now.power_reduction)
            self.now.staked.validators) (option_map standing after)) }
        ensures cost { steps.new ≤ steps.old + 2 }
    {
        self.validators
            .next_by_power(standing_of(after).as_ref(), steps)
    }

    /// The first validator of an operator above `after` among those that are bonded, by rising operator
    /// (`LastValidatorsIterator`); the first of all for None, and None where there is none. Takes no memory.
    pub fn next_bonded<L: Ledger>(
        &self,
        after: Option<&Addr>,
        steps: &mut Steps<L>,
    ) -> Option<&Validator>
        ensures validator { option_copied result ≡ option_map (λ e. e.1) (entry_above addr_cmp
            (in_order addr_cmp (bonded_place self.now.power_reduction)
            self.now.staked.validators) (option_copied after.entry)) }
        ensures cost { steps.new ≤ steps.old + 2 }
    {
        self.validators.next_bonded(after, steps)
    }

    /// The first validator behind this time and operator among those that are unbonding, by the time at
    /// which that ends and rising operator (`ValidatorQueueIterator`); the first of all for None, and None
    /// where there is none. Takes no memory.
    pub fn next_maturing<L: Ledger>(
        &self,
        after: Option<(Moment, Addr)>,
        steps: &mut Steps<L>,
    ) -> Option<&Validator>
        ensures validator { option_copied result ≡ option_map (λ e. e.1) (entry_above time_cmp
            (in_order time_cmp (maturing_place self.now.power_reduction)
            self.now.staked.validators) after) }
        ensures cost { steps.new ≤ steps.old + 2 }
    {
        self.validators.next_maturing(after.as_ref(), steps)
    }

    /// Whether so many validators are bonded, those down to some place by power and no others, as it was told by
    /// [`know_set`](Staking::know_set) and no change since can have made otherwise. It takes no step.
    pub fn knows_set(&self, most: u64) -> bool
        ensures { result ≡ true
            → AreSet self.now.power_reduction most self.now.staked.validators }
    {
        self.validators.knows_set(most)
    }

    /// Tells that those down to this place by power are bonded, and no others.
    pub fn know_set(&mut self, least: (u64, Addr))
        requires bonded { AreBondedTo self.old.power_reduction (standing least)
            self.old.staked.validators }
        ensures { self.new ≡ self.old }
    {
        let (power, operator) = least;
        self.validators.know_set(Standing {
            power: u128::from(power),
            operator,
        });
    }

    /// It tells that the keys ascend.
    pub(crate) fn known(&self)
        ensures validators { IsStrictlySortedBy addr_cmp (keys_of self.now.staked.validators) }
        ensures delegations { IsStrictlySortedBy pair_cmp (keys_of self.now.staked.delegations) }
        ensures operators { (o : List ℕ) (v : Validator)
            → validator_at self.now.staked o ≡ Some v → v.operator ≡ o }
    {
        self.validators.known();
        self.delegations.known();
    }

    /// The validator of an operator.
    pub(crate) fn at<L: Ledger>(&self, operator: &Addr, steps: &mut Steps<L>) -> Option<&Validator>
        ensures value { option_copied result ≡ validator_at self.now.staked operator.now }
        ensures cost { steps.new ≡ steps.old + 1 }
    {
        self.validators.get(operator, steps)
    }

    /// The validator of a consensus address.
    pub(crate) fn at_cons<L: Ledger>(
        &self,
        cons: &ConsAddr,
        steps: &mut Steps<L>,
    ) -> Option<&Validator>
        ensures value { option_copied result ≡ validator_by_cons self.now.staked cons.now }
        ensures cost { steps.new ≤ steps.old + 2 }
    {
        self.validators.known();
        match self.operators.get(cons, steps) {
            Some(operator) => self.validators.get(operator, steps),
            None => None,
        }
    }

    /// The shares of a delegation.
    pub(crate) fn held<L: Ledger>(
        &self,
        delegator: &Addr,
        operator: &Addr,
        steps: &mut Steps<L>,
    ) -> Option<Dec>
        ensures value { result ≡ delegation self.now.staked delegator.now operator.now }
        ensures cost { steps.new ≡ steps.old + 1 }
    {
        match self.delegations.get(&(*operator, *delegator), steps) {
            Some(stake) => Some(stake.shares()),
            None => None,
        }
    }

    /// Puts a validator in the place of one with its operator and consensus address.
    pub(crate) fn put<L: Ledger>(
        &mut self,
        v: &Validator,
        steps: &mut Steps<L>,
    ) -> Result<(), TableFault>
        requires stands { Stands v.now self.old.staked }
        ensures ok { OnOk result
            (self.new ≡ holding (put_validator v.now self.old.staked) self.old) }
        ensures err { OnErr result (self.new ≡ spent_now self.old) }
        ensures spent { self.old.spent ≡ true → IsErr result }
        ensures cost { steps.new ≤ steps.old + 8 }
    {
        if self.spent {
            return Err(TableFault::Spent);
        }
        self.validators.known();
        match self.validators.put(v, steps) {
            Ok(()) => Ok(()),
            Err(fault) => {
                self.spent = true;
                Err(fault)
            }
        }
    }

    /// Puts a validator whose operator has none. Where memory is wanting, nothing stands of it.
    pub(crate) fn add<L: Ledger>(
        &mut self,
        v: &Validator,
        steps: &mut Steps<L>,
    ) -> Result<(), TableFault>
        requires new { validator_at self.old.staked v.now.operator ≡ None }
        ensures ok { OnOk result
            (self.new ≡ holding (put_validator v.now self.old.staked) self.old) }
        ensures err { OnErr result (self.new ≡ spent_now self.old) }
        ensures spent { self.old.spent ≡ true → IsErr result }
    {
        if self.spent {
            return Err(TableFault::Spent);
        }
        match put_both(&mut self.validators, &mut self.operators, v, steps) {
            Ok(()) => Ok(()),
            Err(fault) => {
                self.spent = true;
                Err(fault)
            }
        }
    }

    /// Takes a validator out, whose consensus address no other has. Where memory is wanting, it stands.
    pub(crate) fn take<L: Ledger>(
        &mut self,
        v: &Validator,
        steps: &mut Steps<L>,
    ) -> Result<(), TableFault>
        requires stands { validator_at self.old.staked v.now.operator ≡ Some v.now }
        requires alone { operator_by_cons
            (without addr_cmp self.old.staked.validators v.now.operator) v.now.cons ≡ None }
        ensures ok { OnOk result
            (self.new ≡ holding (without_validator v.now.operator self.old.staked) self.old) }
        ensures err { OnErr result (self.new ≡ spent_now self.old) }
        ensures spent { self.old.spent ≡ true → IsErr result }
    {
        if self.spent {
            return Err(TableFault::Spent);
        }
        match take_both(&mut self.validators, &mut self.operators, v, steps) {
            Ok(()) => Ok(()),
            Err(fault) => {
                self.spent = true;
                Err(fault)
            }
        }
    }

    /// Puts the shares of a delegation.
    pub(crate) fn put_shares<L: Ledger>(
        &mut self,
        delegator: &Addr,
        operator: &Addr,
        shares: Dec,
        steps: &mut Steps<L>,
    ) -> Result<(), TableFault>
        ensures ok { OnOk result (self.new
            ≡ holding (put_delegation delegator.now operator.now shares self.old.staked) self.old) }
        ensures err { OnErr result (self.new ≡ spent_now self.old) }
        ensures spent { self.old.spent ≡ true → IsErr result }
    {
        if self.spent {
            return Err(TableFault::Spent);
        }
        match self
            .delegations
            .put(&(*operator, *delegator), Delegation::of(shares), steps)
        {
            Ok(()) => Ok(()),
            Err(fault) => {
                self.spent = true;
                Err(fault)
            }
        }
    }

    /// Takes a delegation out.
    pub(crate) fn take_shares<L: Ledger>(
        &mut self,
        delegator: &Addr,
        operator: &Addr,
        steps: &mut Steps<L>,
    ) -> Result<(), TableFault>
        ensures ok { OnOk result
            (self.new
            ≡ holding (without_shares delegator.now operator.now self.old.staked) self.old) }
        ensures err { OnErr result (self.new ≡ spent_now self.old) }
        ensures spent { self.old.spent ≡ true → IsErr result }
    {
        if self.spent {
            return Err(TableFault::Spent);
        }
        match self.delegations.remove(&(*operator, *delegator), steps) {
            Ok(_) => Ok(()),
            Err(fault) => {
                self.spent = true;
                Err(fault)
            }
        }
    }
}

/// A place by power, where one is given.
fn standing_of(after: Option<(u64, Addr)>) -> Option<Standing>
    ensures { result ≡ option_map standing after }
{
    match after {
        Some((power, operator)) => Some(Standing {
            power: u128::from(power),
            operator,
        }),
        None => None,
    }
}
