//! Validators by operator, with the lists that are kept beside them.

ghost use Rattle.std.specs.Prelude.{◌≡◌, ◌≤◌, ◌+◌, [], ◌<◌, Option, Some, None, length, option_map, is_some, OnOk, OnErr, if◌then◌else◌, true};
ghost use Rattle.std.specs.List.Sorted.{IsStrictlySortedBy};
ghost use Rattle.std.specs.Map.{keys_of};
ghost use Rattle.std.specs.Option.{option_copied};
ghost use Rattle.base_types.specs.Orders.{addr_cmp};
ghost use Rattle.base_table.specs.Tabled.{entry_above};
ghost use Rattle.base_roles.specs.declared.entities.Validator.{Validator};
ghost use Rattle.base_roles.specs.Entries.{at, with, without};
ghost use Rattle.mod_staking.specs.Listed.{new_listed, having, with_mark, settled_now, with_or_without, IsGoneBack, IsForgotten};
ghost use Rattle.mod_staking.specs.Places.{standing_cmp, time_cmp, power_place, bonded_place, maturing_place, in_order, AreListed, IsListed, AreMoved, HaveMarksOf};
ghost use Rattle.mod_staking.specs.KnownSet.{AreBondedTo, AreSet, is_within, is_as_told, known_with};
ghost use Rattle.mod_staking.specs.Registered.{AreKeyed};

use crate::lists::Lists;
use crate::places::{Bonded, ByPower, Listing, Maturing, Standing, power_of};
use base_roles::Validator;
use base_table::{Table, TableFault};
use base_types::{Addr, BondStatus, Moment, Steps};
use std::alloc::Global;
use std::cmp::Ordering;
use std::marker::Model;
use std::sync::ledger::Ledger;

/// Validators by operator, and the three lists of those that have a place in them, under the same marks.
/// Contracts see the validators alone.
#[derive(Drop)]
pub(crate) struct ListedValidators {
    records: Table<Addr, Validator>,
    lists: Lists,
    power_reduction: u64,
    /// The place by power down to which validators are bonded and behind which none is, while it is known.
    least: Option<Standing>,
}

impl Model for ListedValidators {
    ghost use Rattle.mod_staking.specs.Listed.{Listed};
    ghost use Rattle.mod_staking.specs.Places.{AreListed};
    ghost use Rattle.mod_staking.specs.KnownSet.{IsKnown};

    ghost Value = { Listed };

    ghost view = { λ l. record {
      entries = l.records.entries;
      marks = l.records.marks;
      settled = l.records.settled;
      power_reduction = l.power_reduction;
    } };

    ghost invariant = { λ l. AreListed l.power_reduction l.records l.lists
        × IsKnown l.power_reduction l.least l.records.entries };
}

impl ListedValidators {
    /// No validators. The tokens of one unit of power are those given. Takes no memory.
    pub(crate) fn new(alloc: Global, power_reduction: u64) -> ListedValidators
        requires { 1 ≤ power_reduction }
        ensures { result ≡ new_listed power_reduction }
    {
        ListedValidators {
            records: Table::new(alloc),
            lists: Lists::new(alloc),
            power_reduction,
            least: None,
        }
    }

    /// It tells that the operators ascend.
    pub(crate) fn known(&self)
        ensures ordered { IsStrictlySortedBy addr_cmp (keys_of self.now.entries) }
    {
        self.records.known();
    }

    /// The table of validators alone.
    pub(crate) fn records(&self) -> &Table<Addr, Validator>
        ensures entries { result.now.entries ≡ self.now.entries }
        ensures settled { result.now.settled ≡ self.now.settled }
    {
        &self.records
    }

    /// The validator of an operator. It counts one step.
    pub(crate) fn get<L: Ledger>(&self, operator: &Addr, steps: &mut Steps<L>) -> Option<&Validator>
        ensures value { option_copied result ≡ at addr_cmp self.now.entries operator.now }
        ensures cost { steps.new ≡ steps.old + 1 }
    {
        self.records.get(operator, steps)
    }

    /// The validator of the least operator above `after`, or of the least of all for None.
    pub(crate) fn next<L: Ledger>(
        &self,
        after: Option<&Addr>,
        steps: &mut Steps<L>,
    ) -> Option<&Validator>
        ensures above { option_copied result ≡ option_map (λ e. e.1)
            (entry_above addr_cmp self.now.entries (option_copied after.entry)) }
        ensures cost { steps.new ≤ steps.old + 1 }
    {
        match self.records.next(after, steps) {
            Some((_, v)) => Some(v),
            None => None,
        }
    }

    /// The first validator behind `after` by power, or the first of all for None.
    pub(crate) fn next_by_power<L: Ledger>(
        &self,
        after: Option<&Standing>,
        steps: &mut Steps<L>,
    ) -> Option<&Validator>
        requires keyed { AreKeyed self.now.entries }
        ensures first { option_copied result ≡ option_map (λ e. e.1) (entry_above standing_cmp
            (in_order standing_cmp (power_place self.now.power_reduction) self.now.entries)
            (option_copied after.entry)) }
        ensures cost { steps.new ≤ steps.old + 2 }
    {
        first_behind::<ByPower, L>(
            &self.records,
            &self.lists.by_power,
            after,
            self.power_reduction,
            steps,
        )
    }

    /// The first bonded validator behind `after` by operator, or the first of all for None.
    pub(crate) fn next_bonded<L: Ledger>(
        &self,
        after: Option<&Addr>,
        steps: &mut Steps<L>,
    ) -> Option<&Validator>
        requires keyed { AreKeyed self.now.entries }
        ensures first { option_copied result ≡ option_map (λ e. e.1) (entry_above addr_cmp
            (in_order addr_cmp (bonded_place self.now.power_reduction) self.now.entries)
            (option_copied after.entry)) }
        ensures cost { steps.new ≤ steps.old + 2 }
    {
        first_behind::<Bonded, L>(
            &self.records,
            &self.lists.bonded,
            after,
            self.power_reduction,
            steps,
        )
    }

    /// The first unbonding validator behind `after` by time and operator, or the first of all for None.
    pub(crate) fn next_maturing<L: Ledger>(
        &self,
        after: Option<&(Moment, Addr)>,
        steps: &mut Steps<L>,
    ) -> Option<&Validator>
        requires keyed { AreKeyed self.now.entries }
        ensures first { option_copied result ≡ option_map (λ e. e.1) (entry_above time_cmp
            (in_order time_cmp (maturing_place self.now.power_reduction) self.now.entries)
            (option_copied after.entry)) }
        ensures cost { steps.new ≤ steps.old + 2 }
    {
        first_behind::<Maturing, L>(
            &self.records,
            &self.lists.maturing,
            after,
            self.power_reduction,
            steps,
        )
    }

    /// Whether so many are bonded, those down to a place by power that is known and no others.
    pub(crate) fn knows_set(&self, most: u64) -> bool
        ensures { result ≡ true → AreSet self.now.power_reduction most self.now.entries }
    {
        match self.least {
            Some(_) => self.lists.bonded.len() as u64 == most,
            None => false,
        }
    }

    /// Knows from now on that those down to this place by power are bonded, and no others, until a validator
    /// stands otherwise, or a mark is gone back to.
    pub(crate) fn know_set(&mut self, least: Standing)
        requires { AreBondedTo self.old.power_reduction least self.old.entries }
        ensures { self.new ≡ self.old }
    {
        self.least = Some(least);
    }

    /// Puts a validator under its operator. Where memory is wanting, all is as it was.
    pub(crate) fn put<L: Ledger>(
        &mut self,
        v: &Validator,
        steps: &mut Steps<L>,
    ) -> Result<(), TableFault>
        requires keyed { AreKeyed self.old.entries }
        ensures ok { OnOk result (self.new
            ≡ having (with addr_cmp self.old.entries v.now.operator v.now) self.old) }
        ensures err { OnErr result (self.new ≡ self.old) }
        ensures cost { steps.new ≤ steps.old + 8 }
    {
        self.least = known_with(&self.least, v, self.power_reduction);
        write(
            &mut self.records,
            &mut self.lists,
            &v.operator,
            &Some(*v),
            self.power_reduction,
            steps,
        )
    }

    /// Takes the validator of an operator out. Where memory is wanting, all is as it was.
    pub(crate) fn remove<L: Ledger>(
        &mut self,
        operator: &Addr,
        steps: &mut Steps<L>,
    ) -> Result<(), TableFault>
        requires keyed { AreKeyed self.old.entries }
        ensures ok { OnOk result (self.new
            ≡ having (without addr_cmp self.old.entries operator.now) self.old) }
        ensures err { OnErr result (self.new ≡ self.old) }
        ensures cost { steps.new ≤ steps.old + 8 }
    {
        write(
            &mut self.records,
            &mut self.lists,
            operator,
            &None,
            self.power_reduction,
            steps,
        )
    }

    /// Opens a mark of the table and of the lists, or of none.
    pub(crate) fn mark(&mut self) -> Result<(), TableFault>
        ensures ok { OnOk result (self.new ≡ with_mark self.old) }
        ensures err { OnErr result (self.new ≡ self.old) }
    {
        self.records.mark()?;
        match self.lists.mark() {
            Ok(()) => Ok(()),
            Err(fault) => {
                self.records.back();
                Err(fault)
            }
        }
    }

    /// Goes back to the latest open mark, and closes it.
    pub(crate) fn back(&mut self)
        requires some { 0 < length self.old.marks }
        ensures { IsGoneBack self.old self.new }
    {
        self.least = None;
        self.records.back();
        self.lists.back();
    }

    /// Closes the latest open mark, and keeps all as it is.
    pub(crate) fn forget(&mut self)
        requires some { 0 < length self.old.marks }
        ensures { IsForgotten self.old self.new }
    {
        self.records.forget();
        self.lists.forget();
    }

    /// Settles the table and the lists.
    pub(crate) fn settle(&mut self)
        requires closed { self.old.marks ≡ [] }
        ensures { self.new ≡ settled_now self.old }
    {
        self.records.settle();
        self.lists.settle();
    }
}

/// The place that is known once a validator stands as it does now.
fn known_with(least: &Option<Standing>, v: &Validator, power_reduction: u64) -> Option<Standing>
    requires { 1 ≤ power_reduction }
    ensures { result ≡ known_with power_reduction least.now v.now }
{
    match least {
        Some(place) => {
            if is_as_told(place, v, power_reduction) {
                Some(*place)
            } else {
                None
            }
        }
        None => None,
    }
}

/// Whether a validator is bonded where it is within this place by power, and else is not.
fn is_as_told(least: &Standing, v: &Validator, power_reduction: u64) -> bool
    requires { 1 ≤ power_reduction }
    ensures { result ≡ is_as_told power_reduction least.now v.now }
{
    match v.status {
        BondStatus::Bonded => is_within(least, v, power_reduction),
        BondStatus::Unbonding | BondStatus::Unbonded => !is_within(least, v, power_reduction),
    }
}

/// Whether a validator can be in the set, and is not behind this place.
fn is_within(least: &Standing, v: &Validator, power_reduction: u64) -> bool
    requires { 1 ≤ power_reduction }
    ensures { result ≡ is_within power_reduction (Some least.now) v.now }
{
    let power = power_of(v, power_reduction);
    let place = Standing {
        power,
        operator: v.operator,
    };
    !v.jailed && 0 < power && least.cmp(&place) != Ordering::Less
}

/// The validator of the first place behind `after` in a list, or of the first of all for None.
fn first_behind<'a, P: Listing, L: Ledger>(
    records: &'a Table<Addr, Validator>,
    list: &Table<P::Place, Addr>,
    after: Option<&P::Place>,
    power_reduction: u64,
    steps: &mut Steps<L>,
) -> Option<&'a Validator>
    requires keyed { AreKeyed records.now.entries }
    requires listed { IsListed P.Place.cmp (P.place_of power_reduction) records.now list.now }
    ensures first { option_copied result ≡ option_map (λ e. e.1) (entry_above P.Place.cmp
        (in_order P.Place.cmp (P.place_of power_reduction) records.now.entries)
        (option_copied after.entry)) }
    ensures cost { steps.new ≤ steps.old + 2 }
{
    P::told();
    records.known();
    match list.next(after, steps) {
        Some((_, operator)) => records.get(operator, steps),
        None => None,
    }
}

/// Writes a validator under an operator, or none, with the lists. Where memory is wanting, all stays.
fn write<L: Ledger>(
    records: &mut Table<Addr, Validator>,
    lists: &mut Lists,
    operator: &Addr,
    now: &Option<Validator>,
    power_reduction: u64,
    steps: &mut Steps<L>,
) -> Result<(), TableFault>
    requires keyed { AreKeyed records.old.entries }
    requires own { (v : Validator) → now.now ≡ Some v → v.operator ≡ operator.now }
    requires listed { AreListed power_reduction records.old lists.old }
    ensures ok { OnOk result (records.new.entries
        ≡ with_or_without operator.now now.now records.old.entries) }
    ensures err { OnErr result (records.new.entries ≡ records.old.entries) }
    ensures marks { records.new.marks ≡ records.old.marks }
    ensures settled { records.new.settled ≡ records.old.settled }
    ensures listed { AreListed power_reduction records.new lists.new }
    ensures cost { steps.new ≤ steps.old + 8 }
{
    records.known();
    let was = copied(records.get(operator, steps));
    lists.mark()?;
    match write_all(records, lists, &was, operator, now, power_reduction, steps) {
        Ok(()) => {
            lists.forget();
            Ok(())
        }
        Err(fault) => {
            lists.back();
            Err(fault)
        }
    }
}

/// Writes a validator under an operator, or none, with the lists, over open marks of the lists. Where
/// memory is wanting, the lists may have changed.
fn write_all<L: Ledger>(
    records: &mut Table<Addr, Validator>,
    lists: &mut Lists,
    was: &Option<Validator>,
    operator: &Addr,
    now: &Option<Validator>,
    power_reduction: u64,
    steps: &mut Steps<L>,
) -> Result<(), TableFault>
    requires { 1 ≤ power_reduction }
    ensures ok { OnOk result (records.new.entries
        ≡ with_or_without operator.now now.now records.old.entries) }
    ensures moved { OnOk result
        (AreMoved power_reduction was.now now.now operator.now lists.old lists.new) }
    ensures err { OnErr result (records.new.entries ≡ records.old.entries) }
    ensures marks { records.new.marks ≡ records.old.marks }
    ensures settled { records.new.settled ≡ records.old.settled }
    ensures list_marks { HaveMarksOf lists.old lists.new }
    ensures cost { steps.new ≤ steps.old + 7 }
{
    lists.change(was, now, operator, power_reduction, steps)?;
    match now {
        Some(v) => records.put(operator, *v, steps),
        None => match records.remove(operator, steps) {
            Ok(_) => Ok(()),
            Err(fault) => Err(fault),
        },
    }
}

/// A copy of the validator, where there is one.
fn copied(v: Option<&Validator>) -> Option<Validator>
    ensures { result ≡ option_copied v.entry }
{
    match v {
        Some(v) => Some(*v),
        None => None,
    }
}
