//! A walk that takes out all records of an operator.

ghost use Rattle.std.specs.Prelude.{◌≡◌, ◌≢◌, [], true, length, filter, is_some, OnOk, OnErr, IfOk, IsErr, IfSome, IfNone};
ghost use Rattle.base_roles.specs.Orders.{same_addr};
ghost use Rattle.base_table.specs.Tabled.{value_at};
ghost use Rattle.mod_periods.specs.Kept.{behind, keeping, others, without_operator};
ghost use Rattle.mod_periods.specs.Scenes.{LeavesBehind};

use crate::keyed::Keyed;
use crate::tables::Tables;
use base_table::{Table, TableFault};
use base_types::{Addr, Copied, Steps};
use std::sync::ledger::Ledger;

impl Tables {
    /// Takes out the periods and the slash events of an operator.
    pub(crate) fn clear<L: Ledger>(
        &mut self,
        operator: &Addr,
        steps: &mut Steps<L>,
    ) -> Result<(), TableFault>
        ensures ok { OnOk result
            (self.new ≡ keeping (without_operator operator.now self.old.kept) self.old) }
        ensures left { LeavesBehind self.old self.new }
        ensures spent_answer { self.old.spent ≡ true → IsErr result }
    {
        if self.spent {
            return Err(TableFault::Spent);
        }
        match self.take_all(operator, steps) {
            Ok(()) => Ok(()),
            Err(fault) => {
                self.spent = true;
                Err(fault)
            }
        }
    }

    /// Takes them out; where memory is wanting, some.
    fn take_all<L: Ledger>(
        &mut self,
        operator: &Addr,
        steps: &mut Steps<L>,
    ) -> Result<(), TableFault>
        ensures ok { OnOk result
            (self.new ≡ keeping (without_operator operator.now self.old.kept) self.old) }
        ensures behind { behind self.new ≡ behind self.old }
        ensures spent { self.new.spent ≡ self.old.spent }
    {
        self.current.remove(operator, steps)?;
        take_out(&mut self.historical, operator, steps)?;
        take_out(&mut self.events, operator, steps)
    }
}

/// Takes out the entries of an operator; where memory is wanting, some.
fn take_out<K: Keyed, V: Copied, L: Ledger>(
    table: &mut Table<K, V>,
    operator: &Addr,
    steps: &mut Steps<L>,
) -> Result<(), TableFault>
    ensures ok { OnOk result
        (table.new.entries ≡ others K.operator_of operator.now table.old.entries) }
    ensures marks { table.new.marks ≡ table.old.marks }
    ensures settled { table.new.settled ≡ table.old.settled }
{
    while let Some(key) = first_of(table, operator, steps)? {
        table.remove(&key, steps)?;
    }
    Ok(())
}

/// The first key of an operator.
fn first_of<K: Keyed, V: Copied, L: Ledger>(
    table: &Table<K, V>,
    operator: &Addr,
    steps: &mut Steps<L>,
) -> Result<Option<K>, TableFault>
    ensures found { IfOk result
        (λ found. IfSome found (λ key. is_some (value_at K.cmp table.now.entries key) ≡ true)) }
    ensures own { IfOk result
        (λ found. IfSome found (λ key. same_addr (K.operator_of key) operator.now ≡ true)) }
    ensures none { IfOk result (λ found. IfNone found
        (others K.operator_of operator.now table.now.entries ≡ table.now.entries)) }
{
    table.known();
    let first = K::first(operator);
    match table.seek(&first, steps) {
        None => Ok(None),
        Some((key, _)) => {
            if key.operator() != operator {
                return Ok(None);
            }
            Ok(Some(key.copied()?))
        }
    }
}
