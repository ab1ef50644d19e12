//! Worked lines, computed from the definitions.
ghost use Rattle.line_json.specs.WrittenExample.{OrderedLines, OutcomeLines, ParameterLines, PaymentLines, RewardLines, RunLines, ValidatorLines};

/// What is written of a small run; in which order a block is written; and a line of each kind of fact and of outcome.
pub fn lines_written_by_example()
    ensures run { RunLines }
    ensures order { OrderedLines }

    ensures payments { PaymentLines }
    ensures rewards { RewardLines }
    ensures validators { ValidatorLines }
    ensures parameters { ParameterLines }
    ensures outcomes { OutcomeLines }
{}
