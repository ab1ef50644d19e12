//! Worked rows, as functions that do nothing: their contracts are the rows.

ghost use Rattle.mod_periods.specs.Worked.{CountsOnceBegun, CountsOnceEnded, CountsOnceStarted, CountsOnceEndedAgain, CountsOnceSlashed, CountsOnceStopped, CountsOnceEndedLast, CountsOnceCleared, SharedWithoutRest, SharedWithRest, StakeIsCut, SlashAtStart, StakeAtMostValue};

/// References of a validator, of which one delegation starts, is slashed and stops.
pub fn references_by_example()
    ensures begun { CountsOnceBegun }
    ensures ended { CountsOnceEnded }
    ensures started { CountsOnceStarted }
    ensures ended_again { CountsOnceEndedAgain }
    ensures slashed { CountsOnceSlashed }
    ensures stopped { CountsOnceStopped }
    ensures ended_last { CountsOnceEndedLast }
    ensures cleared { CountsOnceCleared }
{}

/// Rewards of two stakes, and of one that is slashed.
pub fn rewards_by_example()
    ensures shared { SharedWithoutRest }
    ensures rest { SharedWithRest }
    ensures cut { StakeIsCut }
    ensures slashed { SlashAtStart }
    ensures value { StakeAtMostValue }
{}
