//! Worked rows, as a function that does nothing: its contract is the rows.

ghost use Rattle.run_words.specs.Worked.{Commands, Groups, Histories, NoCommands, NoGroups, NoHistories, NoQuestions, NotSpelled, Questions, Spelled, Statements};

/// Words that are a command, and words that are none.
pub fn words_by_example()
    ensures commands { Commands }
    ensures none { NoCommands }
    ensures questions { Questions }
    ensures unasked { NoQuestions }
    ensures statements { Statements }
    ensures spelled { Spelled }
    ensures not_spelled { NotSpelled }
    ensures histories { Histories }
    ensures no_histories { NoHistories }
    ensures groups { Groups }
    ensures no_groups { NoGroups }
{}
