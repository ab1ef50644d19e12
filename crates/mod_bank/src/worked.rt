//! Worked rows of sends, as a function that does nothing: its contract is the rows.

ghost use Rattle.mod_bank.specs.Worked.{EachHoldsItsCoins, TwoCoinsMove, NothingMoves, PayerIsShort, PayerIsNotShort, ModuleReceivesNothing, NoCoins};

/// Two users hold coins, send two coins to one another and to themselves, and are refused.
pub fn sends_by_example()
    ensures held { EachHoldsItsCoins }
    ensures two { TwoCoinsMove }
    ensures to_oneself { NothingMoves }
    ensures short { PayerIsShort }
    ensures enough { PayerIsNotShort }
    ensures to_module { ModuleReceivesNothing }
    ensures nothing { NoCoins }
{}
