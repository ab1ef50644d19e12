//! The records of distribution: periods and starts, purses and the pool, and withdraw addresses (`x/distribution`).

ghost use Rattle.std.specs.Prelude.{◌≡◌, ◌+◌, true, OnOk, OnErr};
ghost use Rattle.rule_modules.specs.Distribution.{nothing_shared};
ghost use Rattle.mod_distribution.specs.Kept.{new_distributed, keeping, payee_in, with_payee, behind};
ghost use Rattle.mod_distribution.specs.Stands.{KeepsShared};

use base_table::{Table, TableFault};
use base_types::{Addr, Steps};
use mod_allocation::Alloc;
use mod_periods::F1;
use std::alloc::Global;
use std::marker::Model;
use std::sync::ledger::Ledger;

/// Periods, starts and slash events, purses and the community pool, and to whom payments go. Contracts see
/// the records that stand, those at each open mark, those at the last settling, and whether memory was
/// wanting in a change.
///
/// The records stand for plain ones, of which no ratio is ever deleted: `KeepsShared` says how.
#[derive(Drop)]
pub struct Distr {
    pub f1: F1,
    pub alloc: Alloc,
    /// To whom payments of an address go, where not to itself.
    pub(crate) withdraw: Table<Addr, Addr>,
    pub(crate) memory: Global,
    /// Whether memory was wanting in a change of `withdraw`.
    pub(crate) spent: bool,
}

impl Model for Distr {
    ghost use Rattle.mod_distribution.specs.Kept.{Distributed, distributed, HaveSameMarks};

    ghost Value = { Distributed };

    ghost view = { λ d. distributed d.f1 d.alloc d.withdraw d.spent };

    ghost invariant = { λ d. HaveSameMarks d.f1 d.alloc d.withdraw };
}

impl Distr {
    /// No records, and an empty pool. Takes no memory.
    pub fn new(alloc: Global) -> Distr
        ensures new { result ≡ new_distributed }
        ensures kept { KeepsShared result.kept nothing_shared }
    {
        Distr {
            f1: F1::new(alloc),
            alloc: Alloc::new(alloc),
            withdraw: Table::new(alloc),
            memory: alloc,
            spent: false,
        }
    }

    /// The address to which payments of an address go, by itself its own (`GetDelegatorWithdrawAddr`).
    pub(crate) fn payee<L: Ledger>(&self, who: &Addr, steps: &mut Steps<L>) -> Addr
        ensures payee { result ≡ payee_in self.now.kept.withdraw who.now }
        ensures cost { steps.new ≡ steps.old + 1 }
    {
        match self.withdraw.get(who, steps) {
            Some(to) => *to,
            None => *who,
        }
    }

    /// From now on payments of an address go to another.
    pub(crate) fn put_payee<L: Ledger>(
        &mut self,
        who: &Addr,
        to: &Addr,
        steps: &mut Steps<L>,
    ) -> Result<(), TableFault>
        ensures ok { OnOk result
            (self.new ≡ keeping (with_payee who.now to.now self.old.kept) self.old) }
        ensures err { OnErr result (self.new.spent ≡ true) }
        ensures kept { OnErr result (self.new.kept ≡ self.old.kept) }
        ensures behind { behind self.new ≡ behind self.old }
        ensures cost { steps.new ≡ steps.old + 1 }
    {
        match self.withdraw.put(who, *to, steps) {
            Ok(()) => Ok(()),
            Err(fault) => {
                self.spent = true;
                Err(fault)
            }
        }
    }
}
