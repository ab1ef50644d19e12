//! The two tables of a bank: they are marked together, and each change is of one entry.

ghost use Rattle.std.specs.Prelude.{◌≡◌, ◌+◌, [], ◌<◌, length, true, OnOk, OnErr};
ghost use Rattle.std.specs.List.Sorted.{IsStrictlySortedBy};
ghost use Rattle.std.specs.Map.{keys_of};
ghost use Rattle.std.specs.BTreeMap.{insert_entry};
ghost use Rattle.base_types.specs.Orders.{denom_cmp};
ghost use Rattle.base_roles.specs.Holdings.{balance_of, supply_of, with_balance};
ghost use Rattle.base_roles.specs.Orders.{place_cmp};
ghost use Rattle.mod_bank.specs.Booked.{new_book, spent_now, with_mark, with_supply, AreInOrder, AreNamed, IsGoneBack, IsForgotten};
ghost use Rattle.mod_bank.specs.Scenes.{Changes};

use crate::kinds::{BalanceKind, SupplyKind};
use base_records::{Both, One};
use base_table::{Table, TableFault};
use base_types::{Account, Denom, Steps};
use std::alloc::Global;
use std::marker::Model;
use std::sync::ledger::Ledger;

/// The tables as kinds of records.
pub(crate) type BankKinds<'a> = Both<One<'a, BalanceKind>, One<'a, SupplyKind>>;

/// Balances by account and denomination, and supplies, without zeros. Once memory was wanting in a change
/// they are spent.
#[derive(Drop)]
pub(crate) struct Tables {
    balances: Table<(Account, Denom), u128>,
    supplies: Table<Denom, u128>,
    spent: bool,
}

impl Model for Tables {
    ghost use Rattle.mod_bank.specs.Booked.{Booked, HaveSameMarks, booked};

    ghost Value = { Booked };

    ghost view = { λ t. booked t.balances t.supplies t.spent };

    ghost invariant = { λ t. HaveSameMarks t.balances t.supplies };
}

impl Tables {
    /// Empty tables. They take no memory yet.
    pub(crate) fn new(alloc: Global) -> Tables
        ensures { result ≡ new_book }
    {
        Tables {
            balances: Table::new(alloc),
            supplies: Table::new(alloc),
            spent: false,
        }
    }

    /// Whether memory was wanting in a change.
    pub(crate) fn is_spent(&self) -> bool
        ensures { result ≡ self.now.spent }
    {
        self.spent
    }

    /// From now on memory was wanting in a change.
    pub(crate) fn spend(&mut self)
        ensures { self.new ≡ spent_now self.old }
    {
        self.spent = true;
    }

    /// What an account holds of a denomination.
    pub(crate) fn balance<L: Ledger>(&self, place: &(Account, Denom), steps: &mut Steps<L>) -> u128
        ensures amount { result ≡ balance_of self.now.holdings place.now.0 place.now.1 }
        ensures cost { steps.new ≡ steps.old + 1 }
    {
        match self.balances.get(place, steps) {
            Some(amount) => *amount,
            None => 0,
        }
    }

    /// How much there is of a denomination.
    pub(crate) fn supply<L: Ledger>(&self, denom: &Denom, steps: &mut Steps<L>) -> u128
        ensures amount { result ≡ supply_of self.now.holdings denom.now }
        ensures cost { steps.new ≡ steps.old + 1 }
    {
        match self.supplies.get(denom, steps) {
            Some(amount) => *amount,
            None => 0,
        }
    }

    /// Puts a balance, also one of 0. Where memory is wanting the tables are spent, and else as they were.
    pub(crate) fn put_balance<L: Ledger>(
        &mut self,
        place: &(Account, Denom),
        amount: u128,
        steps: &mut Steps<L>,
    ) -> Result<(), TableFault>
        ensures changes { Changes
            (record {
              balances = insert_entry place_cmp self.old.holdings.balances place.now amount;
              supplies = self.old.holdings.supplies;
            })
            self.old self.new result }
        ensures ordered { IsStrictlySortedBy place_cmp (keys_of self.old.holdings.balances) }
        ensures cost { steps.new ≡ steps.old + 1 }
    {
        // It tells that the denomination is a name.
        let _ = place.1.bytes();
        self.balances.known();
        match self.balances.put(place, amount, steps) {
            Ok(()) => Ok(()),
            Err(fault) => {
                self.spent = true;
                Err(fault)
            }
        }
    }

    /// Puts a supply, also one of 0. Where memory is wanting the tables are spent, and else as they were.
    pub(crate) fn put_supply<L: Ledger>(
        &mut self,
        denom: &Denom,
        amount: u128,
        steps: &mut Steps<L>,
    ) -> Result<(), TableFault>
        ensures changes { Changes
            (record {
              balances = self.old.holdings.balances;
              supplies = insert_entry denom_cmp self.old.holdings.supplies denom.now amount;
            })
            self.old self.new result }
        ensures ordered { IsStrictlySortedBy denom_cmp (keys_of self.old.holdings.supplies) }
        ensures cost { steps.new ≡ steps.old + 1 }
    {
        self.supplies.known();
        match self.supplies.put(denom, amount, steps) {
            Ok(()) => Ok(()),
            Err(fault) => {
                self.spent = true;
                Err(fault)
            }
        }
    }

    /// Sets a balance, which has no entry where it is 0. Where memory is wanting the tables are spent, and
    /// else as they were.
    pub(crate) fn set_balance<L: Ledger>(
        &mut self,
        place: &(Account, Denom),
        amount: u128,
        steps: &mut Steps<L>,
    ) -> Result<(), TableFault>
        ensures changes { Changes (with_balance self.old.holdings place.now.0 place.now.1 amount)
            self.old self.new result }
        ensures cost { steps.new ≡ steps.old + 1 }
    {
        if amount != 0 {
            return self.put_balance(place, amount, steps);
        }
        match self.balances.remove(place, steps) {
            Ok(_) => Ok(()),
            Err(fault) => {
                self.spent = true;
                Err(fault)
            }
        }
    }

    /// Sets a supply, which has no entry where it is 0. Where memory is wanting the tables are spent, and
    /// else as they were.
    pub(crate) fn set_supply<L: Ledger>(
        &mut self,
        denom: &Denom,
        amount: u128,
        steps: &mut Steps<L>,
    ) -> Result<(), TableFault>
        ensures changes { Changes (with_supply self.old.holdings denom.now amount)
            self.old self.new result }
        ensures cost { steps.new ≡ steps.old + 1 }
    {
        if amount != 0 {
            return self.put_supply(denom, amount, steps);
        }
        match self.supplies.remove(denom, steps) {
            Ok(_) => Ok(()),
            Err(fault) => {
                self.spent = true;
                Err(fault)
            }
        }
    }

    /// It tells that the keys ascend.
    pub(crate) fn known(&self)
        ensures { AreInOrder self.now.holdings }
    {
        self.balances.known();
        self.supplies.known();
    }

    /// The balances by account and denomination.
    pub(crate) fn balances(&self) -> &Table<(Account, Denom), u128>
        ensures entries { result.now.entries ≡ self.now.holdings.balances }
        ensures settled { result.now.settled ≡ self.now.settled.balances }
        ensures named { AreNamed result.now.entries }
    {
        &self.balances
    }

    /// Both tables, to be listed.
    pub(crate) fn kinds(&self) -> BankKinds<'_>
        ensures held { record {
          balances = result.first.table.now.entries;
          supplies = result.second.table.now.entries;
        } ≡ self.now.holdings }
        ensures settled { record {
          balances = result.first.table.now.settled;
          supplies = result.second.table.now.settled;
        } ≡ self.now.settled }
    {
        Both {
            first: One {
                table: &self.balances,
            },
            second: One {
                table: &self.supplies,
            },
        }
    }

    /// Opens a mark above those that are open. Where memory is wanting, nothing changes.
    pub(crate) fn mark(&mut self) -> Result<(), TableFault>
        ensures ok { OnOk result (self.new ≡ with_mark self.old) }
        ensures err { OnErr result (self.new ≡ self.old) }
        ensures spent { self.old.spent ≡ true → OnOk result ⊥ }
    {
        if self.spent {
            return Err(TableFault::Spent);
        }
        self.balances.mark()?;
        match self.supplies.mark() {
            Ok(()) => Ok(()),
            Err(fault) => {
                self.balances.back();
                Err(fault)
            }
        }
    }

    /// Goes back to the latest open mark and closes it. Takes no memory.
    pub(crate) fn back(&mut self)
        requires some { 0 < length self.old.marks }
        ensures { IsGoneBack self.old self.new }
    {
        self.balances.back();
        self.supplies.back();
    }

    /// Closes the latest open mark and keeps what is held. Takes no memory.
    pub(crate) fn forget(&mut self)
        requires some { 0 < length self.old.marks }
        ensures { IsForgotten self.old self.new }
    {
        self.balances.forget();
        self.supplies.forget();
    }

    /// Settles both tables. Takes no memory.
    pub(crate) fn settle(&mut self)
        requires closed { self.old.marks ≡ [] }
        ensures { self.new ≡ record self.old { settled = self.old.holdings } }
    {
        self.balances.settle();
        self.supplies.settle();
    }
}
