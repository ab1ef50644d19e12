//! The ballot that a line spells.
ghost use Rattle.std.specs.Prelude.{◌≡◌};
ghost use Rattle.line_json.specs.Reading.{Gives};
ghost use Rattle.line_ballots.specs.Ballots.{ballot_of, choice_at, choice_of};

use crate::ballot::Ballot;
use base_bech32::Form;
use base_messages::LineFault;
use json::Scratch;
use line_json::{FromTree, Tree, only_named, read_line, user_at, word_at};
use mod_tally::Choice;
use std::alloc::Global;

/// The choice of this name.
#[tactic(auto, unfolding(crate::specs::Ballots::choice_of))]
fn choice_of(name: &str) -> Option<Choice>
    ensures { result ≡ choice_of name.now }
{
    match name {
        "yes" => Some(Choice::Yes),
        "abstain" => Some(Choice::Abstain),
        "no" => Some(Choice::No),
        "no_with_veto" => Some(Choice::Veto),
        _ => None,
    }
}

/// What a ballot chooses, a string that names a choice. The only error is `BadShape` with its number, exactly where
/// it is missing or not of its form.
fn choice_at<N: Tree>(tree: &N) -> Result<Choice, LineFault>
    ensures { result ≡ choice_at (N.seen tree.now) }
{
    match tree.get("option") {
        Some(found) => found
            .as_str()
            .and_then(choice_of)
            .ok_or(LineFault::BadShape(142)),
        None => Err(LineFault::BadShape(142)),
    }
}

impl FromTree for Ballot {
    ghost use Rattle.line_ballots.specs.Ballots.{ballot_of_tree};

    ghost reading = { ballot_of_tree };

    #[tactic(auto, unfolding(crate::specs::Ballots::ballot_of_tree))]
    fn from_tree<N: Tree>(form: Form, _alloc: Global, tree: &N) -> Result<Ballot, LineFault> {
        word_at(140, "kind", "ballot", tree)?;
        let voter = user_at(form, 141, "voter", tree)?;
        let choice = choice_at(tree)?;
        only_named(&["kind", "voter", "option"], tree)?;
        Ok(Ballot { voter, choice })
    }
}

/// Reads a ballot: a JSON object with exactly the members `kind` (`"ballot"`), `voter` (the text of a user's address in this form) and
/// `option` (`"yes"`, `"abstain"`, `"no"` or `"no_with_veto"`).
///
/// `NotJson` comes exactly where `serde_json` reads no value for another cause than memory. `BadShape` comes exactly at
/// every other value that spells no ballot: with 140, 141 or 142 for the first of these members that is missing or not of
/// its form, or with 0 for a further member, once these are of their form. The only other error is `NoMemory`. The scratch
/// keeps its memory from line to line, and nothing else.
#[tactic(auto, unfolding(crate::specs::Ballots::ballot_of))]
pub fn read_ballot(
    form: Form,
    alloc: Global,
    scratch: &mut Scratch,
    line: &[u8],
) -> Result<Ballot, LineFault>
    ensures { Gives (λ ballot. ballot) result (ballot_of form line.now) }
{
    read_line(form, alloc, scratch, line)
}
