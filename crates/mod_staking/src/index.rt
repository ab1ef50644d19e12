//! A validator that joins or leaves two tables: that of validators, and that of the first operator of each
//! consensus address.

ghost use Rattle.std.specs.Prelude.{◌≡◌, ◌+◌, Some, None, length, OnOk, OnErr};
ghost use Rattle.base_types.specs.Orders.{addr_cmp, cons_cmp};
ghost use Rattle.base_roles.specs.Entries.{at, with, without};
ghost use Rattle.std.specs.Option.{option_copied};
ghost use Rattle.mod_staking.specs.Listed.{having};
ghost use Rattle.mod_staking.specs.Registered.{AreKeyed, IsIndex, operator_by_cons};
ghost use Rattle.mod_staking.specs.Joint.{listed, is_lower};

use crate::listed::ListedValidators;
use base_roles::Validator;
use base_table::{Table, TableFault};
use base_types::{Addr, ConsAddr, Steps};
use std::cmp::Ordering;
use std::sync::ledger::Ledger;

/// Puts a validator whose operator has none into both tables. Where memory is wanting, the entries of both
/// stay.
pub(crate) fn put_both<L: Ledger>(
    validators: &mut ListedValidators,
    operators: &mut Table<ConsAddr, Addr>,
    v: &Validator,
    steps: &mut Steps<L>,
) -> Result<(), TableFault>
    requires new { at addr_cmp validators.old.entries v.now.operator ≡ None }
    requires keyed { AreKeyed validators.old.entries }
    requires index { IsIndex validators.old.entries operators.old.entries }
    ensures validators { OnOk result
        (validators.new
        ≡ having (with addr_cmp validators.old.entries v.now.operator v.now) validators.old) }
    ensures index { OnOk result (IsIndex validators.new.entries operators.new.entries) }
    ensures marks { OnOk result (operators.new.marks ≡ operators.old.marks) }
    ensures validators_stay { OnErr result (validators.new ≡ validators.old) }
    ensures operators_entries { OnErr result (operators.new.entries ≡ operators.old.entries) }
    ensures operators_marks { OnErr result (operators.new.marks ≡ operators.old.marks) }
{
    validators.known();
    operators.mark()?;
    match list(operators, v, steps) {
        Ok(()) => (),
        Err(fault) => {
            operators.back();
            return Err(fault);
        }
    }
    match validators.put(v, steps) {
        Ok(()) => {
            operators.forget();
            Ok(())
        }
        Err(fault) => {
            operators.back();
            Err(fault)
        }
    }
}

/// Takes a validator out of both tables, whose consensus address no other has. Where memory is wanting, the
/// entries of both stay.
pub(crate) fn take_both<L: Ledger>(
    validators: &mut ListedValidators,
    operators: &mut Table<ConsAddr, Addr>,
    v: &Validator,
    steps: &mut Steps<L>,
) -> Result<(), TableFault>
    requires stands { at addr_cmp validators.old.entries v.now.operator ≡ Some v.now }
    requires keyed { AreKeyed validators.old.entries }
    requires alone { operator_by_cons (without addr_cmp validators.old.entries v.now.operator)
        v.now.cons ≡ None }
    requires index { IsIndex validators.old.entries operators.old.entries }
    ensures validators { OnOk result
        (validators.new
        ≡ having (without addr_cmp validators.old.entries v.now.operator) validators.old) }
    ensures index { OnOk result (IsIndex validators.new.entries operators.new.entries) }
    ensures marks { OnOk result (operators.new.marks ≡ operators.old.marks) }
    ensures validators_stay { OnErr result (validators.new ≡ validators.old) }
    ensures operators_entries { OnErr result (operators.new.entries ≡ operators.old.entries) }
    ensures operators_marks { OnErr result (operators.new.marks ≡ operators.old.marks) }
{
    validators.known();
    operators.known();
    operators.mark()?;
    match operators.remove(&v.cons, steps) {
        Ok(_) => (),
        Err(fault) => {
            operators.back();
            return Err(fault);
        }
    }
    match validators.remove(&v.operator, steps) {
        Ok(()) => {
            operators.forget();
            Ok(())
        }
        Err(fault) => {
            operators.back();
            Err(fault)
        }
    }
}

/// Lists a validator's operator under its consensus address, unless a lower one is listed there.
fn list<L: Ledger>(
    operators: &mut Table<ConsAddr, Addr>,
    v: &Validator,
    steps: &mut Steps<L>,
) -> Result<(), TableFault>
    ensures entries { OnOk result (operators.new.entries ≡ listed v.now operators.old.entries) }
    ensures marks { operators.new.marks ≡ operators.old.marks }
{
    if is_lower(&v.operator, operators.get(&v.cons, steps)) {
        return operators.put(&v.cons, v.operator, steps);
    }
    Ok(())
}

/// Whether an operator is lower than the one that is there, or there is none.
fn is_lower(operator: &Addr, there: Option<&Addr>) -> bool
    ensures { result ≡ is_lower operator.now (option_copied there.entry) }
{
    match there {
        None => true,
        Some(other) => operator.cmp(other) == Ordering::Less,
    }
}
