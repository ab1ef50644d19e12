//! Worked rows, as a function that does nothing: its contract is the rows.

ghost use Rattle.store_history.specs.Worked.{GenesisRows, BlockRows, VisibleRows, PastValues, Heights, BegunAnew, BaseOfLast};

/// A genesis and two blocks, what they keep, and what is told of past heights.
pub fn worked_rows()
    ensures genesis { GenesisRows }
    ensures block { BlockRows }
    ensures visible { VisibleRows }
    ensures past { PastValues }
    ensures heights { Heights }
    ensures anew { BegunAnew }
    ensures base { BaseOfLast }
{}
