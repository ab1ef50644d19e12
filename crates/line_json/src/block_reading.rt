//! The block that a line spells.
ghost use Rattle.line_json.specs.Reading.{Gives};
ghost use Rattle.line_json.specs.Block.{block_of};

use crate::coin_reading::coins_at;
use crate::compact_block::compact_block;
use crate::members::{cons_at, member_at, only_named, user_at, word_at};
use crate::nested::{FromTree, list_at};
use crate::reading::read_line;
use crate::tree::Tree;
use base_bech32::Form;
use base_messages::{Block, LineFault, Tx};
use base_roles::{Evidence, Vote};
use json::Scratch;
use std::alloc::Global;

impl FromTree for Vote {
    ghost use Rattle.line_json.specs.Block.{vote_of};

    ghost reading = { vote_of };

    #[tactic(auto, unfolding(crate::specs::Block::vote_of))]
    fn from_tree<N: Tree>(form: Form, _alloc: Global, tree: &N) -> Result<Vote, LineFault> {
        let cons = cons_at(form, 70, "cons", tree)?;
        let power = member_at(71, "power", tree)?;
        let signed = member_at(72, "signed", tree)?;
        only_named(&["cons", "power", "signed"], tree)?;
        Ok(Vote {
            cons,
            power,
            signed,
        })
    }
}

impl FromTree for Evidence {
    ghost use Rattle.line_json.specs.Block.{evidence_of};

    ghost reading = { evidence_of };

    #[tactic(auto, unfolding(crate::specs::Block::evidence_of))]
    fn from_tree<N: Tree>(form: Form, _alloc: Global, tree: &N) -> Result<Evidence, LineFault> {
        let cons = cons_at(form, 73, "cons", tree)?;
        let height = member_at(74, "height", tree)?;
        let time = member_at(75, "time", tree)?;
        let power = member_at(76, "power", tree)?;
        only_named(&["cons", "height", "time", "power"], tree)?;
        Ok(Evidence {
            cons,
            height,
            time,
            power,
        })
    }
}

impl FromTree for Tx {
    ghost use Rattle.line_json.specs.Block.{tx_of};

    ghost reading = { tx_of };

    #[tactic(auto, unfolding(crate::specs::Block::tx_of))]
    fn from_tree<N: Tree>(form: Form, alloc: Global, tree: &N) -> Result<Tx, LineFault> {
        let payer = user_at(form, 80, "payer", tree)?;
        let fee = coins_at(alloc, 81, "fee", tree)?;
        let msgs = list_at(form, alloc, 82, "msgs", tree)?;
        only_named(&["payer", "fee", "msgs"], tree)?;
        Ok(Tx { payer, fee, msgs })
    }
}

impl FromTree for Block {
    ghost use Rattle.line_json.specs.Block.{block_of_tree};

    ghost reading = { block_of_tree };

    #[tactic(auto, unfolding(crate::specs::Block::block_of_tree))]
    fn from_tree<N: Tree>(form: Form, alloc: Global, tree: &N) -> Result<Block, LineFault> {
        word_at(60, "kind", "block", tree)?;
        let height = member_at(61, "height", tree)?;
        let time = member_at(62, "time", tree)?;
        let votes = list_at(form, alloc, 63, "votes", tree)?;
        let evidence = list_at(form, alloc, 64, "evidence", tree)?;
        let txs = list_at(form, alloc, 65, "txs", tree)?;
        only_named(
            &["kind", "height", "time", "votes", "evidence", "txs"],
            tree,
        )?;
        Ok(Block {
            height,
            time,
            votes,
            evidence,
            txs,
        })
    }
}

/// Reads a block, a later line of an input: a JSON object with exactly the members `kind` (`"block"`),
/// `height` (a whole number below 2^63, written with digits alone), `time` (a moment's text), `votes`,
/// `evidence` and `txs`, of the forms and with the numbers of the table in `docs/FORMATS.md`.
///
/// `NotJson` comes exactly where `serde_json` reads no value for another cause than memory. `BadShape`
/// comes exactly at every other value that spells no block, with the number of the first member, in the
/// order of the table and each element of a list in full, that is missing or not of its form; or with 0
/// for a member that has no number, once all others of its object are of their form. Whether the block is
/// due and its messages can be carried out is for the caller to judge. The scratch keeps its memory from line to line,
/// and nothing else.
#[tactic(auto, unfolding(crate::specs::Block::block_of))]
pub fn read_block(
    form: Form,
    alloc: Global,
    scratch: &mut Scratch,
    line: &[u8],
) -> Result<Block, LineFault>
    ensures { Gives (λ block. block) result (block_of form line.now) }
{
    if let Some(block) = compact_block(form, alloc, line) {
        return Ok(block);
    }
    read_line(form, alloc, scratch, line)
}
