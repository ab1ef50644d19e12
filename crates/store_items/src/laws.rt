//! Laws of items and of commits, as functions that do nothing: their contracts are the laws.

ghost use Rattle.std.specs.Prelude.{Bool, Contains, length, map, ◌≡◌, ◌≤◌, List, ℕ};
ghost use Rattle.base_roles.specs.declared.entities.SigningInfo.{SigningInfo};
ghost use Rattle.base_roles.specs.declared.items.Item.{Item};
ghost use Rattle.base_roles.specs.declared.items.Item.TheVariants as item;
ghost use Rattle.base_roles.specs.Items.{IsOnce, key_of};
ghost use Rattle.rule_machine.specs.Items.{items_of};
ghost use Rattle.store_rows.specs.Spelled.{IsWritable};
ghost use Rattle.rule_modules.specs.Chain.{State};
ghost use Rattle.rule_modules.specs.Sound.{IsSound};
ghost use Rattle.std.specs.List.{AllByRecursion};
ghost use Rattle.base_io.specs.declared.keeper.Change.{Change};
ghost use Rattle.base_io.specs.Rows.{HasDistinctKeys};
ghost use Rattle.base_io.specs.Changes.{ChangesRows, IsOrdinary, changed};
ghost use Rattle.store_items.specs.Stored.{AreStored, HaveOwnKeys, rows_in};
ghost use Rattle.store_items.specs.Making.{AreMade, HasNewHead};

/// Of the items of a sound state no two have one key. Each can be written: no balance and no supply
/// is 0, and no list has 2^32 elements. A signing record has a window of at most 100,000 places.
pub fn items_can_be_kept()
    ensures once { (p : State) → IsSound p → IsOnce (map key_of (items_of p)) }
    ensures written { (p : State) → IsSound p
        → (i : Item) → Contains (items_of p) i → IsWritable i }
    ensures windows { (p : State) → IsSound p → (cons : List ℕ) (info : SigningInfo)
        (ring : List Bool) → Contains (items_of p) (item.Signing cons info ring)
        → length ring ≤ 100000 }
{}

/// A commit of the changes from some items to others: no key is changed twice, and where each item has a row, each
/// change changes the rows of the first, and what it leaves are just the rows of the others. Where the last height is a new
/// one, every keeper takes the changes.
pub fn commits_reach_new_rows()
    ensures distinct { (old new : List Item) (list : List Change) → HaveOwnKeys new
        → AreMade old new list → HasDistinctKeys list }
    ensures changing { (old new : List Item) (list : List Change) → AreStored old → AreStored new
        → AreMade old new list → AllByRecursion (ChangesRows (rows_in old)) list }
    ensures reached { (old new : List Item) (list : List Change) → AreStored old → AreStored new
        → AreMade old new list → changed list (rows_in old) ≡ rows_in new }
    ensures ordinary { (old new : List Item) (list : List Change) → HaveOwnKeys new
        → AreMade old new list → HasNewHead old new → IsOrdinary list }
{}
