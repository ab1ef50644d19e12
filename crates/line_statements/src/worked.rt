//! Worked lines, computed from the definitions.
ghost use Rattle.line_statements.specs.Worked.{EntriesRefused, SpellingsRead, StatementsRead, StatementsRefused, StatementsWritten};

/// A statement as it is read and written, what is none, entries that are none, addresses that are spelled, and the lines of
/// answers.
pub fn statements_by_example()
    ensures read { StatementsRead }
    ensures refused { StatementsRefused }
    ensures entries { EntriesRefused }
    ensures spelled { SpellingsRead }
    ensures written { StatementsWritten }
{}
