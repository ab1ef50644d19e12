//! Worked rows, as a function that does nothing: its contract is the rows.

ghost use Rattle.store_rows.specs.Worked.{BalanceRow, ModuleKey, HeadRows, SigningRows, Rings, CoinLists, AreReadBack, BadEnds, BadValues, BadRings, BadCoins};

/// Rows of some items, and bytes that are the row of none.
pub fn rows_by_example()
    ensures balance { BalanceRow }
    ensures module_key { ModuleKey }
    ensures head { HeadRows }
    ensures signing { SigningRows }
    ensures rings { Rings }
    ensures coins { CoinLists }
    ensures read_back { AreReadBack }
    ensures bad_ends { BadEnds }
    ensures bad_values { BadValues }
    ensures bad_rings { BadRings }
    ensures bad_coins { BadCoins }
{}
