//! Laws of the generated input: it is input that a chain takes, and a run over it stays within the counts of its summary. Each
//! law is the contract of a function that does nothing.

ghost use Rattle.run_trial.specs.Generated.{CountsHaveRoom, GeneratedIsInput, TrialIsOfItsLines};

/// No condition keeps the genesis from starting a chain, and the blocks have coins as their types keep them.
#[tactic(auto, using(crate::proofs::Inputs::generated_is_input))]
pub fn generated_is_input()
    ensures { GeneratedIsInput }
{}

/// Behind the reports of a run over generated blocks there is room for the counts of each next one.
pub fn counts_have_room()
    ensures { CountsHaveRoom }
{}

/// The summary of a trial is that of the lines of the generated input, which are read as its genesis and its blocks.
#[tactic(auto, using(crate::proofs::OfLines::trial_is_of_its_lines))]
pub fn trial_is_of_its_lines()
    ensures { TrialIsOfItsLines }
{}
