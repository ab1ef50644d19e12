//! What the definitions of holdings mean: laws as functions that do nothing, whose contracts are the laws.

ghost use Rattle.base_roles.specs.Laws.{MovesByAmounts, MovesKeepSupplies, MovesKeepOrder, BurnsKeepOrder, BurnsByAmounts, BurnsLowerSupplies};

/// Coins move amount by amount, and keep the supplies.
pub fn coins_move_by_amounts()
    ensures amounts { MovesByAmounts }
    ensures supplies { MovesKeepSupplies }
{}

/// A bank in order stays in order when coins move or are burned.
pub fn banks_stay_in_order()
    ensures moves { MovesKeepOrder }
    ensures burns { BurnsKeepOrder }
{}

/// A coin burns amount by amount, from one account and from the supply.
pub fn coins_burn_by_amounts()
    ensures amounts { BurnsByAmounts }
    ensures supplies { BurnsLowerSupplies }
{}
