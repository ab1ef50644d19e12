//! What written lines tell, as functions that do nothing: their contracts are the laws.

ghost use Rattle.law_lines.specs.Laws.{BlocksAreRead, FactsAreRead, GenesesTellNoFact, ReportsAreRead, SuppliesFallByWrittenBurns};
ghost use Rattle.law_lines.specs.Statements.{StatementsAreRead, StatementsDiffer, StatementsInTextsAreRead};
ghost use Rattle.law_lines.specs.Runs.{RunsAreWritten};
ghost use Rattle.law_lines.specs.Worked.{LinesTell, LinesTellNothing};

/// The line of a fact is read as the fact, at the height of its block.
pub fn facts_are_read()
    ensures { FactsAreRead }
{}

/// The text of a block tells exactly the facts of its report, in their order.
pub fn blocks_are_read()
    ensures { BlocksAreRead }
{}

/// The texts of blocks, one after another, tell exactly the facts of their reports.
pub fn reports_are_read()
    ensures { ReportsAreRead }
{}

/// The text of a genesis in front of others tells no fact.
pub fn geneses_tell_no_fact()
    ensures { GenesesTellNoFact }
{}

/// Of each denomination, what is there after blocks and what their written lines say was burned come to what was
/// there at the genesis.
pub fn supplies_fall_by_written_burns()
    ensures { SuppliesFallByWrittenBurns }
{}

/// The line of a statement is read as the statement, also in a text of several, and no two statements have the same line.
pub fn statements_are_read()
    ensures read { StatementsAreRead }
    ensures texts { StatementsInTextsAreRead }
    ensures differ { StatementsDiffer }
{}

/// What the lines of a replay tell to a reader who has its text alone: each supply falls by what the lines of burns come to; each
/// line of a payment is that of a fair withdrawal that was logged, whose coins were sent right before; and it goes to the payee
/// of the moment.
pub fn runs_are_written()
    ensures { RunsAreWritten }
{}

/// Worked lines, computed from the definitions.
pub fn lines_read_by_example()
    ensures told { LinesTell }
    ensures nothing { LinesTellNothing }
{}
