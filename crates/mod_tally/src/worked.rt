//! Worked rows, as a function that does nothing: its contract is the rows.

ghost use Rattle.mod_tally.specs.Worked.{AfterASlash, DelegatorsAlone, EachValueIsRounded, LastBallotCounts, NoBallots, OnlyBondedStakeCounts, OperatorVotesForOthers};

/// Tallies of a few validators and delegators.
pub fn tallies_by_example()
    ensures operator { OperatorVotesForOthers }
    ensures slashed { AfterASlash }
    ensures last { LastBallotCounts }
    ensures delegators { DelegatorsAlone }
    ensures none { NoBallots }
    ensures bonded { OnlyBondedStakeCounts }
    ensures rounded { EachValueIsRounded }
{}
