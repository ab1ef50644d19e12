//! The three lists of validators beside their table.

ghost use Rattle.std.specs.Prelude.{◌≡◌, ◌≤◌, ◌+◌, ◌<◌, [], length, Option, Some, None, OnOk, OnErr};
ghost use Rattle.base_table.specs.Tabled.{empty_table, with_mark, settled_now, IsForgotten, IsGoneBack};
ghost use Rattle.mod_staking.specs.Places.{is_same_place, place_in, with_if, without_if, moved_place, AreMoved, HaveMarksOf};

use crate::places::{Bonded, ByPower, Listing, Maturing, Standing};
use base_records::mark_both;
use base_roles::Validator;
use base_table::{Table, TableFault};
use base_types::{Addr, Copied, Moment, Steps};
use std::alloc::Global;
use std::cmp::Ordering;
use std::hash::Hash;
use std::sync::ledger::Ledger;

/// The operators of the validators that have a place, in the order of places.
#[derive(Drop)]
pub(crate) struct Lists {
    pub by_power: Table<Standing, Addr>,
    pub bonded: Table<Addr, Addr>,
    pub maturing: Table<(Moment, Addr), Addr>,
}

impl Lists {
    /// Three empty lists.
    pub(crate) fn new(alloc: Global) -> Lists
        ensures by_power { result.by_power ≡ empty_table }
        ensures bonded { result.bonded ≡ empty_table }
        ensures maturing { result.maturing ≡ empty_table }
    {
        Lists {
            by_power: Table::new(alloc),
            bonded: Table::new(alloc),
            maturing: Table::new(alloc),
        }
    }

    /// Opens a mark of each list, or of none.
    pub(crate) fn mark(&mut self) -> Result<(), TableFault>
        ensures by_power { OnOk result (self.new.by_power ≡ with_mark self.old.by_power) }
        ensures bonded { OnOk result (self.new.bonded ≡ with_mark self.old.bonded) }
        ensures maturing { OnOk result (self.new.maturing ≡ with_mark self.old.maturing) }
        ensures err { OnErr result (self.new ≡ self.old) }
    {
        self.by_power.mark()?;
        match mark_both(&mut self.bonded, &mut self.maturing) {
            Ok(()) => Ok(()),
            Err(fault) => {
                self.by_power.back();
                Err(fault)
            }
        }
    }

    /// Goes back to the latest mark of each list, and closes it.
    pub(crate) fn back(&mut self)
        requires by_power { 0 < length self.old.by_power.marks }
        requires bonded { 0 < length self.old.bonded.marks }
        requires maturing { 0 < length self.old.maturing.marks }
        ensures by_power { IsGoneBack self.old.by_power self.new.by_power }
        ensures bonded { IsGoneBack self.old.bonded self.new.bonded }
        ensures maturing { IsGoneBack self.old.maturing self.new.maturing }
    {
        self.by_power.back();
        self.bonded.back();
        self.maturing.back();
    }

    /// Closes the latest mark of each list, and keeps it as it is.
    pub(crate) fn forget(&mut self)
        requires by_power { 0 < length self.old.by_power.marks }
        requires bonded { 0 < length self.old.bonded.marks }
        requires maturing { 0 < length self.old.maturing.marks }
        ensures by_power { IsForgotten self.old.by_power self.new.by_power }
        ensures bonded { IsForgotten self.old.bonded self.new.bonded }
        ensures maturing { IsForgotten self.old.maturing self.new.maturing }
    {
        self.by_power.forget();
        self.bonded.forget();
        self.maturing.forget();
    }

    /// Settles each list.
    pub(crate) fn settle(&mut self)
        requires by_power { self.old.by_power.marks ≡ [] }
        requires bonded { self.old.bonded.marks ≡ [] }
        requires maturing { self.old.maturing.marks ≡ [] }
        ensures by_power { self.new.by_power ≡ settled_now self.old.by_power }
        ensures bonded { self.new.bonded ≡ settled_now self.old.bonded }
        ensures maturing { self.new.maturing ≡ settled_now self.old.maturing }
    {
        self.by_power.settle();
        self.bonded.settle();
        self.maturing.settle();
    }

    /// Moves an operator from the places of the validator that it had to those of the one that it has now.
    /// Where memory is wanting, some lists may have changed.
    pub(crate) fn change<L: Ledger>(
        &mut self,
        was: &Option<Validator>,
        now: &Option<Validator>,
        operator: &Addr,
        power_reduction: u64,
        steps: &mut Steps<L>,
    ) -> Result<(), TableFault>
        requires { 1 ≤ power_reduction }
        ensures moved { OnOk result
            (AreMoved power_reduction was.now now.now operator.now self.old self.new) }
        ensures marks { HaveMarksOf self.old self.new }
        ensures cost { steps.new ≤ steps.old + 6 }
    {
        relist::<ByPower, L>(
            &mut self.by_power,
            was,
            now,
            operator,
            power_reduction,
            steps,
        )?;
        relist::<Bonded, L>(&mut self.bonded, was, now, operator, power_reduction, steps)?;
        relist::<Maturing, L>(
            &mut self.maturing,
            was,
            now,
            operator,
            power_reduction,
            steps,
        )
    }
}

/// Moves an operator in one list. Where memory is wanting, it may have left its place.
fn relist<P: Listing, L: Ledger>(
    list: &mut Table<P::Place, Addr>,
    was: &Option<Validator>,
    now: &Option<Validator>,
    operator: &Addr,
    power_reduction: u64,
    steps: &mut Steps<L>,
) -> Result<(), TableFault>
    requires { 1 ≤ power_reduction }
    ensures moved { OnOk result (list.new.entries ≡ moved_place P.Place.cmp
        (place_in P.Place.cmp (P.place_of power_reduction) was.now)
        (place_in P.Place.cmp (P.place_of power_reduction) now.now) operator.now list.old.entries) }
    ensures marks { list.new.marks ≡ list.old.marks }
    ensures cost { steps.new ≤ steps.old + 2 }
{
    let from = place_in::<P>(was, power_reduction);
    let to = place_in::<P>(now, power_reduction);
    if is_same_place(&from, &to) {
        return Ok(());
    }
    leave(list, &from, steps)?;
    join(list, &to, operator, steps)
}

/// The place of a validator, where there is one.
fn place_in<P: Listing>(v: &Option<Validator>, power_reduction: u64) -> Option<P::Place>
    requires { 1 ≤ power_reduction }
    ensures { result ≡ place_in P.Place.cmp (P.place_of power_reduction) v.now }
{
    match v {
        Some(v) => P::place(v, power_reduction),
        None => None,
    }
}

/// Whether two places are one, or there are none.
fn is_same_place<K: Ord>(from: &Option<K>, to: &Option<K>) -> bool
    ensures { result ≡ is_same_place K.cmp from.now to.now }
{
    match (from, to) {
        (None, None) => true,
        (Some(p), Some(q)) => p.cmp(q) == Ordering::Equal,
        (None, Some(_)) => false,
        (Some(_), None) => false,
    }
}

/// What stands at the place, where there is one, leaves a list.
fn leave<K: Ord + Hash + Copied, L: Ledger>(
    list: &mut Table<K, Addr>,
    from: &Option<K>,
    steps: &mut Steps<L>,
) -> Result<(), TableFault>
    ensures left { OnOk result
        (list.new.entries ≡ without_if K.cmp from.now list.old.entries) }
    ensures marks { list.new.marks ≡ list.old.marks }
    ensures cost { steps.new ≤ steps.old + 1 }
{
    match from {
        Some(place) => match list.remove(place, steps) {
            Ok(_) => Ok(()),
            Err(fault) => Err(fault),
        },
        None => Ok(()),
    }
}

/// An operator joins a list at the place, where there is one.
fn join<K: Ord + Hash + Copied, L: Ledger>(
    list: &mut Table<K, Addr>,
    to: &Option<K>,
    operator: &Addr,
    steps: &mut Steps<L>,
) -> Result<(), TableFault>
    ensures joined { OnOk result
        (list.new.entries ≡ with_if K.cmp to.now operator.now list.old.entries) }
    ensures marks { list.new.marks ≡ list.old.marks }
    ensures cost { steps.new ≤ steps.old + 1 }
{
    match to {
        Some(place) => list.put(place, *operator, steps),
        None => Ok(()),
    }
}
