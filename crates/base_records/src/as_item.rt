//! The trait by which the records of a table are items of the state.

ghost use Rattle.std.specs.Prelude.{◌≡◌, Bool, Option, IfOk};
ghost use Rattle.base_roles.specs.declared.items.Item.{Item};
ghost use Rattle.base_records.specs.Items.{IsRowed};

use base_roles::Item;
use base_types::{Copied, TableFault};
use std::alloc::Global;
use std::hash::Hash;

/// A kind of records: what its table has as keys and values, and how these are an item of the state.
pub trait AsItem {
    type Key: Ord + Hash + Copied;

    type Value: Copied;

    // which values may stand under a key
    ghost Fits: { Self.Key → Self.Value → Type 0 };

    // the item of a key and a value
    ghost item_of: { Self.Key → Self.Value → Item };

    // the item with its key alone
    ghost gone_of: { Self.Key → Item };

    // whether two values are one
    ghost same: { Self.Value → Self.Value → Bool };

    // the key and the value of an item of this kind
    ghost entry_of: { Item → Option (Self.Key × Self.Value) };

    /// The item of a key and a value, or an error where memory is wanting.
    fn item(key: &Self::Key, value: &Self::Value) -> Result<Item, TableFault>
        ensures { IfOk result (λ item. item ≡ item_of key.now value.now) };

    /// The item with its key alone.
    fn gone(alloc: Global, key: &Self::Key) -> Item
        ensures { result ≡ gone_of key.now };

    /// Whether two values are one.
    fn is_same(value: &Self::Value, other: &Self::Value) -> bool
        ensures { result ≡ same value.now other.now };

    /// It tells how items, keys and values belong together, and does nothing.
    fn told()
        ensures { IsRowed Self.Key.cmp Fits item_of gone_of same entry_of };
}
