//! Worked reports and answers, computed from the definitions.
ghost use Rattle.line_report.specs.Worked.{KindsReport, RunReport, SpelledReport, StateReport};

/// What is reported after a small run, and of a state with a record of each kind, and the answers to each question
/// about them, also with spellings of addresses; the items of a whole state, and its report.
pub fn reports_by_example()
    ensures run { RunReport }
    ensures kinds { KindsReport }
    ensures spelled { SpelledReport }
    ensures state { StateReport }
{}
