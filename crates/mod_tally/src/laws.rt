//! Laws of the tally, each a theorem that its function's contract names.

ghost use Rattle.mod_tally.specs.Laws.{SoundStatesAreTallied, TotalsAreNearExact};

/// Each total differs by less than a unit of 10^-18 for each value that was summed up from the exact sum, which
/// gives the value of each delegation to its delegator's choice, or without one to its operator's.
pub fn totals_are_near_exact()
    ensures { TotalsAreNearExact }
{}

/// The items of a sound state, as a chain lists them, meet what a tally asks, and tell the state's validators and
/// delegations.
pub fn sound_states_are_tallied()
    ensures { SoundStatesAreTallied }
{}
