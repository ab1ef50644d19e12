//! Lists of rows and of changes, one by one.

ghost use Rattle.std.specs.Prelude.{◌≡◌, ◌≢◌, List, map, All, IfOk, IfErr, IsErrOf};
ghost use Rattle.base_io.specs.Changes.{pair_of};
ghost use Rattle.base_roles.specs.declared.items.Item.{Item};
ghost use Rattle.store_rows.specs.Rows.{row_in};
ghost use Rattle.store_rows.specs.Spelled.{HasRow, IsWritable};
ghost use Rattle.store_items.specs.Making.{CanBeWritten, HasKeyInRange, HasRowIfPut, change_seen, item_change, item_put};

use base_io::{Change, Row};
use base_roles::Item;
use std::alloc::Global;
use store_rows::{Format, RowFault, decode, encode, key_of};

/// The items of rows in a format, in their order.
///
/// # Errors
/// `BadRow`, exactly where a row is that of no item, and `NoMemory`.
pub fn items_of(alloc: Global, format: Format, rows: &[Row]) -> Result<Vec<Item>, RowFault>
    ensures rows { IfOk result
        (λ items. map (row_in format) items.items ≡ map pair_of rows.now) }
    ensures found { IfOk result (λ items. All HasRow items.items) }
    // Rows that are refused are those of no items.
    ensures only { IsErrOf result RowFault.BadRow → (items : List Item)
        → All HasRow items → map (row_in format) items ≢ map pair_of rows.now }
{
    let mut items = Vec::new(alloc);
    for row in rows {
        let item = decode(alloc, format, row)?;
        items.push(item)?;
    }
    Ok(items)
}

/// The change of a row for that of an item, which stands, or is gone.
#[tactic(auto, using(store_rows::proofs::KeyLemmas::key_in_range))]
fn change_of(alloc: Global, change: &(Item, bool)) -> Result<Change, RowFault>
    requires { CanBeWritten change.now }
    ensures change { IfOk result (λ made. change_seen made ≡ item_change change.now) }
    ensures has { IfOk result (λ _. HasRowIfPut change.now) }
    ensures range { IfOk result (λ _. HasKeyInRange change.now) }
    ensures fault { IfErr result (λ fault. fault ≡ RowFault.NoMemory) }
{
    if change.1 {
        Ok(Change::Put(encode(alloc, Format::WRITTEN, &change.0)?))
    } else {
        Ok(Change::Remove(key_of(alloc, &change.0)?))
    }
}

/// The changes of rows for those of items, each with whether it stands.
///
/// # Errors
/// `NoMemory` alone.
pub fn changes_of(alloc: Global, changes: &[(Item, bool)]) -> Result<Vec<Change>, RowFault>
    requires { All CanBeWritten changes.now }
    ensures changes { IfOk result
        (λ made. map change_seen made.items ≡ map item_change changes.now) }
    // Each item that stands has a row.
    ensures have_rows { IfOk result (λ _. All HasRowIfPut changes.now) }
    // Each value of a key is in the range of its type.
    ensures in_range { IfOk result (λ _. All HasKeyInRange changes.now) }
    ensures fault { IfErr result (λ fault. fault ≡ RowFault.NoMemory) }
{
    let mut made = Vec::new(alloc);
    for change in changes {
        let row = change_of(alloc, change)?;
        made.push(row)?;
    }
    Ok(made)
}

/// The changes of rows that put each of these items.
///
/// # Errors
/// `NoMemory` alone.
pub fn puts_of(alloc: Global, items: &[Item]) -> Result<Vec<Change>, RowFault>
    requires { All IsWritable items.now }
    ensures changes { IfOk result (λ made. map change_seen made.items ≡ map item_put items.now) }
    ensures have_rows { IfOk result (λ _. All HasRow items.now) }
    ensures fault { IfErr result (λ fault. fault ≡ RowFault.NoMemory) }
{
    let mut made = Vec::new(alloc);
    for item in items {
        let row = encode(alloc, Format::WRITTEN, item)?;
        made.push(Change::Put(row))?;
    }
    Ok(made)
}
