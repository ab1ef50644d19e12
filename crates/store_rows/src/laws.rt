//! Laws of rows, as a function that does nothing: its contract is the laws.

ghost use Rattle.std.specs.Prelude.{◌≡◌, Ok};
ghost use Rattle.base_io.specs.Rows.{key_cmp};
ghost use Rattle.base_roles.specs.declared.items.Item.{Item};
ghost use Rattle.base_roles.specs.Items.{key_of};
ghost use Rattle.store_rows.specs.Order.{item_cmp};
ghost use Rattle.store_rows.specs.Reading.{item_of};
ghost use Rattle.store_rows.specs.Alike.{IsAlike};
ghost use Rattle.store_rows.specs.declared.format.Format.{Format};
ghost use Rattle.store_rows.specs.declared.format.Format.TheVariants.{First, Second};
ghost use Rattle.store_rows.specs.Rows.{key_bytes, row_in, value_in};
ghost use Rattle.store_rows.specs.Spelled.{HasRow};

/// Items and their rows are one to one in each format, and so are the keys of items and those of
/// rows. The key of a row is that of the item's key alone, so of an item that is gone. What is
/// written is read as the item that it was. Keys of rows are in the order of their fields.
pub fn rows_are_one_to_one()
    ensures rows { (f : Format) (i j : Item) → HasRow i → HasRow j
        → row_in f i ≡ row_in f j → i ≡ j }
    ensures keys { (i j : Item) → HasRow i → HasRow j → key_bytes i ≡ key_bytes j
        → key_of i ≡ key_of j }
    ensures alone { (i : Item) → key_bytes (key_of i) ≡ key_bytes i }
    ensures back { (f : Format) (i : Item) → HasRow i
        → item_of f (key_bytes i) (value_in f i) ≡ Ok i }
    ensures order { (i j : Item) → HasRow i → HasRow j
        → key_cmp (key_bytes i) (key_bytes j) ≡ item_cmp i j }
{}

/// The two formats have the same row of an item, but of the last height and time and of signing
/// records; and of a signing record too, where its window has 25 to 32 places, of which none was
/// missed.
pub fn formats_agree()
    ensures { (i : Item) → IsAlike i → row_in First i ≡ row_in Second i }
{}
