//! Worked lines, computed from the definitions.
ghost use Rattle.line_ballots.specs.Worked.{BallotsRead, BallotsRefused, SpellingsRead, TalliesWritten};

/// Ballots as they are read, what is none, voters that are spelled, and the line of a tally.
pub fn ballots_by_example()
    ensures read { BallotsRead }
    ensures refused { BallotsRefused }
    ensures spelled { SpellingsRead }
    ensures written { TalliesWritten }
{}
