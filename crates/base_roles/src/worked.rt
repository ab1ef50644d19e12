//! Worked rows of holdings, as a function that does nothing: its contract is the rows.

ghost use Rattle.base_roles.specs.Worked.{SomeMove, AllMove, NothingMoves, AllBurn, IsEnough, IsTooMuch, Balances, NoBalances};

/// Coins of one user move to a module's account, to the user itself, and burn.
pub fn holdings_by_example()
    ensures some { SomeMove }
    ensures all { AllMove }
    ensures to_oneself { NothingMoves }
    ensures burned { AllBurn }
    ensures enough { IsEnough }
    ensures too_much { IsTooMuch }
    ensures balances { Balances }
    ensures none { NoBalances }
{}
