//! Validators and delegations as items of the state.

ghost use Rattle.std.specs.Prelude.{◌≡◌, ◌≢◌, ◌++◌, ◌∷◌, [], true, false, length, IfOk, IsErr, OnOk, OnErr};
ghost use Rattle.base_table.specs.Tabled.{with_mark};
ghost use Rattle.base_roles.specs.Items.{HasRoom, IsAdded};
ghost use Rattle.base_roles.specs.Staked.{Staked};
ghost use Rattle.base_records.specs.Items.{AreFit};
ghost use Rattle.mod_staking.specs.Listed as listed;
ghost use Rattle.mod_staking.specs.Registered.{AreInOrder, AreKeyed};
ghost use Rattle.mod_staking.specs.Items.{items_of, is_stake, FitsOperator};

use crate::items::{DelegationKind, ValidatorKind};
use crate::listed::ListedValidators;
use crate::staking::Staking;
use base_records::{Both, Kinds, One, mark_both};
use base_roles::{Delegation, Item, RecordFault, Records};
use base_table::{Table, TableFault};
use base_types::{Addr, ConsAddr, Steps};
use std::alloc::Global;
use std::sync::ledger::Ledger;

impl Records for Staking {
    ghost Kept = { Staked };

    ghost kept = { λ s. s.staked };

    ghost marks = { λ s. s.marks };

    ghost settled = { λ s. s.settled };

    ghost spent = { λ s. s.spent };

    ghost AreInOrder = { AreInOrder };

    ghost items = { items_of };

    ghost is_kind = { is_stake };

    fn ordered(&self) {
        self.known();
    }

    fn mark<L: Ledger>(&mut self, _alloc: Global, _steps: &mut Steps<L>) -> Result<(), RecordFault>
        ensures opened { OnOk result (self.new.marks ≡ self.old.marks ++ self.old.staked ∷ []) }
        ensures err { OnErr result (self.new.marks ≡ self.old.marks) }
        ensures kept { self.new.staked ≡ self.old.staked }
        ensures settled { self.new.settled ≡ self.old.settled }
        ensures spent { self.old.spent ≡ true → IsErr result }
        ensures spent_stays { self.new.spent ≡ self.old.spent }
        ensures power { self.new.power_reduction ≡ self.old.power_reduction }
    {
        if self.spent {
            return Err(RecordFault::NoMemory);
        }
        mark_all(
            &mut self.validators,
            &mut self.operators,
            &mut self.delegations,
        )?;
        Ok(())
    }

    fn back<L: Ledger>(&mut self, _steps: &mut Steps<L>)
        requires { self.old.marks ≢ [] }
        ensures back { self.new.marks ++ self.new.staked ∷ [] ≡ self.old.marks }
        ensures settled { self.new.settled ≡ self.old.settled }
        ensures spent { self.new.spent ≡ self.old.spent }
        ensures power { self.new.power_reduction ≡ self.old.power_reduction }
    {
        self.validators.back();
        self.operators.back();
        self.delegations.back();
    }

    fn forget<L: Ledger>(&mut self, _steps: &mut Steps<L>)
        requires { self.old.marks ≢ [] }
        ensures closed { (last : Staked) × (self.new.marks ++ last ∷ [] ≡ self.old.marks) }
        ensures kept { self.new.staked ≡ self.old.staked }
        ensures settled { self.new.settled ≡ self.old.settled }
        ensures spent { self.new.spent ≡ self.old.spent }
        ensures power { self.new.power_reduction ≡ self.old.power_reduction }
    {
        self.validators.forget();
        self.operators.forget();
        self.delegations.forget();
    }

    fn items_into<L: Ledger>(
        &self,
        out: &mut Vec<Item>,
        steps: &mut Steps<L>,
    ) -> Result<(), RecordFault> {
        self.kinds().items_into(out, steps)
    }

    fn changes_into<L: Ledger>(
        &self,
        out: &mut Vec<(Item, bool)>,
        steps: &mut Steps<L>,
    ) -> Result<(), RecordFault> {
        self.kinds().changes_into(self.alloc, out, steps)
    }

    fn load<L: Ledger>(
        &mut self,
        _alloc: Global,
        item: &Item,
        steps: &mut Steps<L>,
    ) -> Result<bool, RecordFault>
        requires room { HasRoom (items_of self.old.staked) item.now }
        ensures kind { IfOk result (λ added. added ≡ is_stake item.now) }
        ensures added { is_stake item.now ≡ true → OnOk result
            (IsAdded (items_of self.old.staked) item.now (items_of self.new.staked)) }
        ensures other { is_stake item.now ≡ false → self.new.staked ≡ self.old.staked }
        ensures marks { self.new.marks ≡ self.old.marks }
        ensures settled { self.new.settled ≡ self.old.settled }
        ensures spent { self.old.spent ≡ true → IsErr result }
        ensures spent_ok { OnOk result (self.new.spent ≡ self.old.spent) }
        ensures spent_err { OnErr result (self.new.spent ≡ true) }
        ensures power { self.new.power_reduction ≡ self.old.power_reduction }
    {
        if self.spent {
            return Err(RecordFault::NoMemory);
        }
        self.known();
        match item {
            Item::Validator { validator } => self.add(validator, steps)?,
            Item::Delegation {
                operator,
                delegator,
                shares,
            } => self.put_shares(delegator, operator, *shares, steps)?,
            _ => return Ok(false),
        }
        Ok(true)
    }

    fn settle<L: Ledger>(&mut self, _steps: &mut Steps<L>)
        requires { self.old.marks ≡ [] }
        ensures settled { self.new.settled ≡ self.old.staked }
        ensures kept { self.new.staked ≡ self.old.staked }
        ensures marks { self.new.marks ≡ [] }
        ensures spent { self.new.spent ≡ self.old.spent }
        ensures power { self.new.power_reduction ≡ self.old.power_reduction }
    {
        self.validators.settle();
        self.operators.settle();
        self.delegations.settle();
    }
}

/// The tables of records, without the index.
type StakeKinds<'a> = Both<One<'a, ValidatorKind>, One<'a, DelegationKind>>;

impl Staking {
    /// It tells that validators stand under their operators, and does nothing.
    pub fn keyed(&self)
        ensures { AreKeyed self.now.staked.validators }
    {
        let _ = &self.validators;
    }

    /// Validators and delegations, to be listed.
    fn kinds(&self) -> StakeKinds<'_>
        ensures held { record {
          validators = result.first.table.now.entries;
          delegations = result.second.table.now.entries;
        } ≡ self.now.staked }
        ensures settled { record {
          validators = result.first.table.now.settled;
          delegations = result.second.table.now.settled;
        } ≡ self.now.settled }
        ensures keyed { AreFit FitsOperator result.first.table.now.entries }
        ensures keyed_then { AreFit FitsOperator result.first.table.now.settled }
    {
        Both {
            first: One {
                table: self.validators.records(),
            },
            second: One {
                table: &self.delegations,
            },
        }
    }
}

/// Opens a mark of the validators, the index and the delegations, or of none.
fn mark_all(
    validators: &mut ListedValidators,
    operators: &mut Table<ConsAddr, Addr>,
    delegations: &mut Table<(Addr, Addr), Delegation>,
) -> Result<(), TableFault>
    ensures validators { OnOk result (validators.new ≡ listed.with_mark validators.old) }
    ensures operators { OnOk result (operators.new ≡ with_mark operators.old) }
    ensures delegations { OnOk result (delegations.new ≡ with_mark delegations.old) }
    ensures validators_err { OnErr result (validators.new ≡ validators.old) }
    ensures operators_err { OnErr result (operators.new ≡ operators.old) }
    ensures delegations_err { OnErr result (delegations.new ≡ delegations.old) }
{
    validators.mark()?;
    match mark_both(operators, delegations) {
        Ok(()) => Ok(()),
        Err(fault) => {
            validators.back();
            Err(fault)
        }
    }
}
