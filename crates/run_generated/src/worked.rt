//! Worked rows and a law, as functions that do nothing: their contracts are the rows and the law.

ghost use Rattle.run_generated.specs.Lines.{LinesByPlace};
ghost use Rattle.run_generated.specs.Reading.{GeneratedIsRead};
ghost use Rattle.run_generated.specs.Worked.{BlockWithEvidence, BlocksOfOthers, BlocksOfZero, FirstDraws, LinesOfInput, MessagesOfKinds, SpelledLine};

/// Draws, messages, blocks and lines of the generated input, by example.
pub fn input_by_example()
    ensures draws { FirstDraws }
    ensures messages { MessagesOfKinds }
    ensures zero { BlocksOfZero }
    ensures others { BlocksOfOthers }
    ensures evidence { BlockWithEvidence }
    ensures lines { LinesOfInput }
    ensures spelled { SpelledLine }
{}

/// What `generate` gives for a place stands there in the list of all lines.
pub fn lines_stand_at_their_places()
    ensures { LinesByPlace }
{}

/// The text of the generated input, cut into lines, is read as what was generated: its first line spells the genesis, and each
/// further one its block.
#[tactic(auto, using(crate::proofs::ReadLemmas::generated_is_read))]
pub fn generated_is_read()
    ensures { GeneratedIsRead }
{}
