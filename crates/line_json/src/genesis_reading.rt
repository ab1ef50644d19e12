//! The genesis that a line spells.
ghost use Rattle.line_json.specs.Reading.{Gives};
ghost use Rattle.line_json.specs.Genesis.{genesis_of};

use crate::coin_reading::coins_at;
use crate::members::{account_at, cons_at, member_at, only_named, operator_at, user_at, word_at};
use crate::nested::{FromTree, list_at, object_at};
use crate::reading::read_line;
use crate::tree::Tree;
use base_bech32::Form;
use base_messages::{Genesis, GenesisAccount, GenesisDelegation, GenesisValidator, LineFault};
use json::Scratch;
use std::alloc::Global;

impl FromTree for GenesisAccount {
    ghost use Rattle.line_json.specs.Genesis.{account_of_tree};

    ghost reading = { account_of_tree };

    #[tactic(auto, unfolding(crate::specs::Genesis::account_of_tree))]
    fn from_tree<N: Tree>(
        form: Form,
        alloc: Global,
        tree: &N,
    ) -> Result<GenesisAccount, LineFault> {
        let address = account_at(form, 30, "address", tree)?;
        let coins = coins_at(alloc, 31, "coins", tree)?;
        only_named(&["address", "coins"], tree)?;
        Ok(GenesisAccount { address, coins })
    }
}

impl FromTree for GenesisValidator {
    ghost use Rattle.line_json.specs.Genesis.{validator_of};

    ghost reading = { validator_of };

    #[tactic(auto, unfolding(crate::specs::Genesis::validator_of))]
    fn from_tree<N: Tree>(
        form: Form,
        _alloc: Global,
        tree: &N,
    ) -> Result<GenesisValidator, LineFault> {
        let operator = operator_at(form, 40, "operator", tree)?;
        let cons = cons_at(form, 41, "cons", tree)?;
        let rate = member_at(42, "rate", tree)?;
        let max_rate = member_at(43, "max_rate", tree)?;
        let max_change_rate = member_at(44, "max_change_rate", tree)?;
        let min_self_delegation = member_at(45, "min_self_delegation", tree)?;
        only_named(
            &[
                "operator",
                "cons",
                "rate",
                "max_rate",
                "max_change_rate",
                "min_self_delegation",
            ],
            tree,
        )?;
        Ok(GenesisValidator {
            operator,
            cons,
            rate,
            max_rate,
            max_change_rate,
            min_self_delegation,
        })
    }
}

impl FromTree for GenesisDelegation {
    ghost use Rattle.line_json.specs.Genesis.{delegation_of};

    ghost reading = { delegation_of };

    #[tactic(auto, unfolding(crate::specs::Genesis::delegation_of))]
    fn from_tree<N: Tree>(
        form: Form,
        _alloc: Global,
        tree: &N,
    ) -> Result<GenesisDelegation, LineFault> {
        let delegator = user_at(form, 50, "delegator", tree)?;
        let validator = operator_at(form, 51, "validator", tree)?;
        let amount = member_at(52, "amount", tree)?;
        only_named(&["delegator", "validator", "amount"], tree)?;
        Ok(GenesisDelegation {
            delegator,
            validator,
            amount,
        })
    }
}

impl FromTree for Genesis {
    ghost use Rattle.line_json.specs.Genesis.{genesis_of_tree};

    ghost reading = { genesis_of_tree };

    #[tactic(auto, unfolding(crate::specs::Genesis::genesis_of_tree))]
    fn from_tree<N: Tree>(form: Form, alloc: Global, tree: &N) -> Result<Genesis, LineFault> {
        word_at(1, "kind", "genesis", tree)?;
        let time = member_at(2, "time", tree)?;
        let params = object_at(form, alloc, 3, "params", tree)?;
        let accounts = list_at(form, alloc, 4, "accounts", tree)?;
        let validators = list_at(form, alloc, 5, "validators", tree)?;
        let delegations = list_at(form, alloc, 6, "delegations", tree)?;
        only_named(
            &[
                "kind",
                "time",
                "params",
                "accounts",
                "validators",
                "delegations",
            ],
            tree,
        )?;
        Ok(Genesis {
            time,
            params,
            accounts,
            validators,
            delegations,
        })
    }
}

/// Reads the genesis, the first line of an input: a JSON object with exactly the members `kind`
/// (`"genesis"`), `time` (a moment's text), `params`, `accounts`, `validators` and `delegations`, of the
/// forms and with the numbers of the table in `docs/FORMATS.md`.
///
/// `NotJson` comes exactly where `serde_json` reads no value for another cause than memory. `BadShape`
/// comes exactly at every other value that spells no genesis, with the number of the first member, in the
/// order of the table and each element of a list in full, that is missing or not of its form; or with 0
/// for a member that has no number, once all others of its object are of their form. Whether the values
/// are in their ranges and belong together is for the caller to judge. The scratch keeps its memory from line to line,
/// and nothing else.
#[tactic(auto, unfolding(crate::specs::Genesis::genesis_of))]
pub fn read_genesis(
    form: Form,
    alloc: Global,
    scratch: &mut Scratch,
    line: &[u8],
) -> Result<Genesis, LineFault>
    ensures { Gives (λ genesis. genesis) result (genesis_of form line.now) }
{
    read_line(form, alloc, scratch, line)
}
