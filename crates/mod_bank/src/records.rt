//! What a bank keeps, as items of the state.

ghost use Rattle.base_roles.specs.Holdings.{Holdings};
ghost use Rattle.mod_bank.specs.Booked.{AreInOrder};
ghost use Rattle.mod_bank.specs.Items.{items_of, is_holding};

use crate::balances::BankBalances;
use base_records::Kinds;
use base_roles::{Item, RecordFault, Records};
use base_types::Steps;
use std::alloc::Global;
use std::sync::ledger::Ledger;

impl Records for BankBalances {
    ghost Kept = { Holdings };

    ghost kept = { λ b. b.holdings };

    ghost marks = { λ b. b.marks };

    ghost settled = { λ b. b.settled };

    ghost spent = { λ b. b.spent };

    ghost AreInOrder = { AreInOrder };

    ghost items = { items_of };

    ghost is_kind = { is_holding };

    fn ordered(&self) {
        self.tables.known();
    }

    fn mark<L: Ledger>(
        &mut self,
        _alloc: Global,
        _steps: &mut Steps<L>,
    ) -> Result<(), RecordFault> {
        self.tables.mark()?;
        Ok(())
    }

    fn back<L: Ledger>(&mut self, _steps: &mut Steps<L>) {
        self.tables.back();
    }

    fn forget<L: Ledger>(&mut self, _steps: &mut Steps<L>) {
        self.tables.forget();
    }

    fn items_into<L: Ledger>(
        &self,
        out: &mut Vec<Item>,
        steps: &mut Steps<L>,
    ) -> Result<(), RecordFault> {
        self.tables.kinds().items_into(out, steps)
    }

    fn changes_into<L: Ledger>(
        &self,
        out: &mut Vec<(Item, bool)>,
        steps: &mut Steps<L>,
    ) -> Result<(), RecordFault> {
        self.tables.kinds().changes_into(self.alloc, out, steps)
    }

    fn load<L: Ledger>(
        &mut self,
        _alloc: Global,
        item: &Item,
        steps: &mut Steps<L>,
    ) -> Result<bool, RecordFault> {
        if self.tables.is_spent() {
            return Err(RecordFault::NoMemory);
        }
        match item {
            Item::Balance {
                account,
                denom,
                amount,
            } => self
                .tables
                .put_balance(&(*account, *denom), *amount, steps)?,
            Item::Supply { denom, amount } => self.tables.put_supply(denom, *amount, steps)?,
            _ => return Ok(false),
        }
        Ok(true)
    }

    fn settle<L: Ledger>(&mut self, _steps: &mut Steps<L>) {
        self.tables.settle();
    }
}
