//! The statement that a line spells.
ghost use Rattle.line_json.specs.Reading.{Gives};
ghost use Rattle.line_statements.specs.Statements.{statement_of, statement_of_tree};

use crate::entries::entries_at;
use base_bech32::Form;
use base_messages::LineFault;
use json::Scratch;
use line_json::{
    FromTree, Tree, dec_coins_at, member_at, only_named, operator_at, read_line, user_at, word_at,
};
use mod_statement::Statement;
use std::alloc::Global;

/// The statement of a tree.
#[tactic(auto, unfolding(crate::specs::Statements::statement_of_tree))]
fn statement_of_tree<N: Tree>(form: Form, alloc: Global, tree: &N) -> Result<Statement, LineFault>
    ensures { Gives (λ statement. statement) result (statement_of_tree form (N.seen tree.now)) }
{
    word_at(120, "kind", "statement", tree)?;
    let delegator = user_at(form, 121, "delegator", tree)?;
    let operator = operator_at(form, 122, "validator", tree)?;
    let height = member_at(123, "height", tree)?;
    let reward = dec_coins_at(alloc, 124, "reward", tree)?;
    let low = dec_coins_at(alloc, 125, "low", tree)?;
    let high = dec_coins_at(alloc, 126, "high", tree)?;
    let slack = dec_coins_at(alloc, 127, "slack", tree)?;
    let removals = member_at(128, "removals", tree)?;
    let ratio = dec_coins_at(alloc, 129, "ratio", tree)?;
    let entries = entries_at(alloc, tree)?;
    only_named(
        &[
            "kind",
            "delegator",
            "validator",
            "height",
            "reward",
            "low",
            "high",
            "slack",
            "removals",
            "ratio",
            "entries",
        ],
        tree,
    )?;
    Ok(Statement {
        delegator,
        operator,
        height,
        reward,
        low,
        high,
        slack,
        removals,
        ratio,
        entries,
    })
}

/// A statement, as a line spells it.
#[derive(Drop)]
struct Spelled {
    statement: Statement,
}

impl FromTree for Spelled {
    ghost use Rattle.line_statements.specs.Spelled.{spelled_of};

    ghost reading = { spelled_of };

    fn from_tree<N: Tree>(form: Form, alloc: Global, tree: &N) -> Result<Spelled, LineFault> {
        let statement = statement_of_tree(form, alloc, tree)?;
        Ok(Spelled { statement })
    }
}

/// Reads a statement: a JSON object with exactly the members `kind` (`"statement"`), `delegator` (the text of a user's address in
/// this form), `validator` (that of an operator's), `height`, `reward`, `low`, `high`, `slack` (decimal coins), `removals`, `ratio`
/// (decimal coins) and `entries`, a list of entries. Whether the entries are a span is left to [`mod_statement::check`].
///
/// An entry is an object of its `kind` and the members of that: `started` has `shares`, `tokens` and `total`, `allocated` has `coins`
/// and `tokens`, `slashed` has `burned` and `tokens`, and `ended` and `touched` have none. Shares are decimals, tokens whole.
///
/// `NotJson` comes exactly where `serde_json` reads no value for another cause than memory. `BadShape` comes exactly at
/// every other value that spells no statement: with 120 to 130 for the first of these members that is missing or not of
/// its form; of a list with what is wrong within it first: 131 for the kind of an entry, 132 for `shares`, 133 for `tokens`, 135 for
/// `total`, 136 for `coins`, 137 for `burned`, 32 and 134 for `denom` and `amount` of a coin; or with 0 for a further member, once those
/// of its object are of their form. The only other error is `NoMemory`. The scratch keeps its memory from line to line,
/// and nothing else.
pub fn read_statement(
    form: Form,
    alloc: Global,
    scratch: &mut Scratch,
    line: &[u8],
) -> Result<Statement, LineFault>
    ensures { Gives (λ statement. statement) result (statement_of form line.now) }
{
    let spelled: Spelled = read_line(form, alloc, scratch, line)?;
    Ok(spelled.statement)
}
