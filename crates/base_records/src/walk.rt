//! The entries of a table as items of the state, and their changes since the last settling.

ghost use Rattle.std.specs.Prelude.{◌≡◌, ◌++◌, List, Bool, Option, IfOk, OnOk};
ghost use Rattle.std.specs.List.Sorted.{IsStrictlySortedBy};
ghost use Rattle.std.specs.Map.{keys_of};
ghost use Rattle.std.specs.Option.{option_copied};
ghost use Rattle.base_table.specs.Tabled.{TellsSettled};
ghost use Rattle.base_roles.specs.declared.items.Item.{Item};
ghost use Rattle.base_records.specs.Items.{rows_of, change_of, changes_of};

use crate::as_item::AsItem;
use base_roles::{Item, RecordFault};
use base_table::{Table, TableFault};
use base_types::{Copied, Steps};
use std::alloc::Global;
use std::sync::ledger::Ledger;

/// Appends the item of each entry. Where memory is wanting some of them may stand there.
pub(crate) fn rows_into<R: AsItem, L: Ledger>(
    table: &Table<R::Key, R::Value>,
    out: &mut Vec<Item>,
    steps: &mut Steps<L>,
) -> Result<(), RecordFault>
    ensures rows { OnOk result
        (out.new.items ≡ out.old.items ++ rows_of R.item_of table.now.entries) }
    ensures ordered { IsStrictlySortedBy R.Key.cmp (keys_of table.now.entries) }
    ensures err { (some : List Item) × (out.new.items ≡ out.old.items ++ some) }
{
    table.known();
    let mut after: Option<R::Key> = None;
    while let Some((key, value)) = table.next(after.as_ref(), steps) {
        let item = R::item(key, value)?;
        out.push(item)?;
        after = Some(key.copied()?);
    }
    Ok(())
}

/// Appends the change of each touched key whose value is not the settled one. Where memory is wanting some
/// of them may stand there.
pub(crate) fn changes_into<R: AsItem, L: Ledger>(
    alloc: Global,
    table: &Table<R::Key, R::Value>,
    out: &mut Vec<(Item, bool)>,
    steps: &mut Steps<L>,
) -> Result<(), RecordFault>
    ensures changes { OnOk result (out.new.items ≡ out.old.items
        ++ changes_of R.Key.cmp R.item_of R.gone_of R.same table.now.touched table.now.entries) }
    ensures settled { TellsSettled R.Key.cmp table.now }
    ensures ordered { IsStrictlySortedBy R.Key.cmp (keys_of table.now.entries) }
    ensures err { (some : List (Item × Bool)) × (out.new.items ≡ out.old.items ++ some) }
{
    table.known();
    for (key, was) in table.touched().iter() {
        let now = table.get(key, steps);
        if let Some(change) = change_of::<R>(alloc, key, was, now)? {
            out.push(change)?;
        }
    }
    Ok(())
}

/// The change of a key from its settled value to the present one.
fn change_of<R: AsItem>(
    alloc: Global,
    key: &R::Key,
    was: &Option<R::Value>,
    now: Option<&R::Value>,
) -> Result<Option<(Item, bool)>, TableFault>
    ensures { IfOk result (λ change. change
        ≡ change_of R.item_of R.gone_of R.same key.now was.now (option_copied now.entry)) }
{
    match (was, now) {
        (None, None) => Ok(None),
        (Some(_), None) => Ok(Some((R::gone(alloc, key), false))),
        (None, Some(value)) => Ok(Some((R::item(key, value)?, true))),
        (Some(old), Some(value)) => {
            if R::is_same(old, value) {
                return Ok(None);
            }
            Ok(Some((R::item(key, value)?, true)))
        }
    }
}
