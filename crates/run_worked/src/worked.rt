//! Worked rows, as a function that does nothing: its contract is the rows.

ghost use Rattle.run_worked.specs.Worked.{BlockComesAgain, FourBlocks, GenesisMayStart, OneBlock, TwoBlocksWithEvidence};

/// The summary of four blocks of the whole machine, and of an input that stops.
pub fn summaries_by_example()
    ensures four { FourBlocks }
    ensures again { BlockComesAgain }
{}

/// The summaries of the generated input, of one block and of two.
pub fn generated_inputs_by_example()
    ensures may_start { GenesisMayStart }
    ensures one { OneBlock }
    ensures two { TwoBlocksWithEvidence }
{}
