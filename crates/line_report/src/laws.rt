//! Laws of reports and answers, as functions that do nothing: their contracts are the laws.
ghost use Rattle.line_report.specs.Asking.{StatesAreAsked};
ghost use Rattle.line_report.specs.Laws.{AnswersAreLines, StatesAreReported};

/// What is reported from the items of a state, in whatever order they come, and from its pending rewards is what the
/// machine reports of that state. Items that no line is told from may be missing.
#[tactic(auto, using(crate::proofs::StateLemmas::states_are_reported))]
pub fn states_are_reported()
    ensures { StatesAreReported }
{}

/// The answer to a question has the lines of the report that are of its kind and belong to its address, in the report's
/// order.
#[tactic(auto, using(crate::proofs::AnswerLemmas::answers_are_lines))]
pub fn answers_are_lines()
    ensures { AnswersAreLines }
{}

/// The items of a state and its pending rewards, each in whatever order, answer a question as the state's report does.
/// Pending rewards that are not asked for may be missing.
#[tactic(auto, using(crate::proofs::AskingLemmas::states_are_asked))]
pub fn states_are_asked()
    ensures { StatesAreAsked }
{}
