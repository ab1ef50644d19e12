//! What the definitions of a start mean: laws as a function that does nothing, whose contract is the laws.

ghost use Rattle.mod_bank.specs.Laws.{EachHoldsWhatItIsGiven, SuppliesAreWhatAllAreGiven};

/// Accounts that are given coins hold them amount by amount, also where one stands twice, and the supplies
/// are the sums.
pub fn accounts_hold_what_they_are_given()
    ensures balances { EachHoldsWhatItIsGiven }
    ensures supplies { SuppliesAreWhatAllAreGiven }
{}
