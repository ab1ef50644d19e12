//! Votes, evidence, transactions and blocks read from compact text, in the order of their members in `docs/FORMATS.md` and
//! in ascending order of their names.
ghost use Rattle.std.specs.Prelude.{◌≡◌, IfSome, Ok};
ghost use Rattle.line_json.specs.Block.{block_of, tx_of};
ghost use Rattle.line_json.specs.Compact.{IsCompact};

use crate::addresses::{ACCOUNT, CONS};
use crate::compact::{FromCompact, address, list, moment, money};
use base_bech32::Form;
use base_messages::{Block, Tx};
use base_roles::{Evidence, Listed, Vote};
use base_types::{Addr, ConsAddr};
use line_compact::{after, count, flag, string};
use std::alloc::Global;

impl FromCompact for Vote {
    ghost deep = { 1 };

    fn from_compact(form: Form, _alloc: Global, text: &[u8]) -> Option<(Vote, &[u8])> {
        let at_cons = after(text, b"{\"cons\":")?;
        let (cons, behind_cons) = address(form, CONS, at_cons)?;
        let at_power = after(behind_cons, b",\"power\":")?;
        let (power, behind_power) = count(at_power)?;
        let at_signed = after(behind_power, b",\"signed\":")?;
        let (signed, behind_signed) = flag(at_signed)?;
        let rest = after(behind_signed, b"}")?;
        let vote = Vote {
            cons: ConsAddr::of(cons),
            power,
            signed,
        };
        Some((vote, rest))
    }
}

impl FromCompact for Evidence {
    ghost deep = { 1 };

    fn from_compact(form: Form, _alloc: Global, text: &[u8]) -> Option<(Evidence, &[u8])> {
        let at_cons = after(text, b"{\"cons\":")?;
        let (cons, behind_cons) = address(form, CONS, at_cons)?;
        let at_height = after(behind_cons, b",\"height\":")?;
        let (height, behind_height) = count(at_height)?;
        if let Some(at_time) = after(behind_height, b",\"time\":") {
            let (text_of_time, behind_time) = string(at_time)?;
            let time = moment(text_of_time)?;
            let at_power = after(behind_time, b",\"power\":")?;
            let (power, behind_power) = count(at_power)?;
            let rest = after(behind_power, b"}")?;
            let evidence = Evidence {
                cons: ConsAddr::of(cons),
                height,
                time,
                power,
            };
            return Some((evidence, rest));
        }
        let at_power = after(behind_height, b",\"power\":")?;
        let (power, behind_power) = count(at_power)?;
        let at_time = after(behind_power, b",\"time\":")?;
        let (text_of_time, behind_time) = string(at_time)?;
        let time = moment(text_of_time)?;
        let rest = after(behind_time, b"}")?;
        let evidence = Evidence {
            cons: ConsAddr::of(cons),
            height,
            time,
            power,
        };
        Some((evidence, rest))
    }
}

fn tx(form: Form, alloc: Global, text: &[u8]) -> Option<(Tx, &[u8])>
    ensures { IfSome result (λ found. IsCompact (tx_of form) 5 text.now found.0 found.1.now) }
{
    let at_payer = after(text, b"{\"payer\":")?;
    let (bytes, behind_payer) = address(form, ACCOUNT, at_payer)?;
    let payer = Addr::of(bytes)?;
    let at_fee = after(behind_payer, b",\"fee\":")?;
    let (parts, behind_fee) = list(form, alloc, at_fee)?;
    let fee = money(parts)?;
    let at_msgs = after(behind_fee, b",\"msgs\":")?;
    let (msgs, behind_msgs) = list(form, alloc, at_msgs)?;
    let rest = after(behind_msgs, b"}")?;
    let tx = Tx {
        payer,
        fee,
        msgs: Listed::of(msgs),
    };
    Some((tx, rest))
}

fn tx_by_name(form: Form, alloc: Global, text: &[u8]) -> Option<(Tx, &[u8])>
    ensures { IfSome result (λ found. IsCompact (tx_of form) 5 text.now found.0 found.1.now) }
{
    let at_fee = after(text, b"{\"fee\":")?;
    let (parts, behind_fee) = list(form, alloc, at_fee)?;
    let fee = money(parts)?;
    let at_msgs = after(behind_fee, b",\"msgs\":")?;
    let (msgs, behind_msgs) = list(form, alloc, at_msgs)?;
    let at_payer = after(behind_msgs, b",\"payer\":")?;
    let (bytes, behind_payer) = address(form, ACCOUNT, at_payer)?;
    let payer = Addr::of(bytes)?;
    let rest = after(behind_payer, b"}")?;
    let tx = Tx {
        payer,
        fee,
        msgs: Listed::of(msgs),
    };
    Some((tx, rest))
}

impl FromCompact for Tx {
    ghost deep = { 5 };

    fn from_compact(form: Form, alloc: Global, text: &[u8]) -> Option<(Tx, &[u8])> {
        match text.get(2) {
            Some(b'p') => tx(form, alloc, text),
            _ => tx_by_name(form, alloc, text),
        }
    }
}

fn block(form: Form, alloc: Global, line: &[u8]) -> Option<Block>
    ensures { IfSome result (λ block. block_of form line.now ≡ Ok block) }
{
    let at_height = after(line, b"{\"kind\":\"block\",\"height\":")?;
    let (height, behind_height) = count(at_height)?;
    let at_time = after(behind_height, b",\"time\":")?;
    let (text_of_time, behind_time) = string(at_time)?;
    let time = moment(text_of_time)?;
    let at_votes = after(behind_time, b",\"votes\":")?;
    let (votes, behind_votes) = list(form, alloc, at_votes)?;
    let at_evidence = after(behind_votes, b",\"evidence\":")?;
    let (evidence, behind_evidence) = list(form, alloc, at_evidence)?;
    let at_txs = after(behind_evidence, b",\"txs\":")?;
    let (txs, behind_txs) = list(form, alloc, at_txs)?;
    let rest = after(behind_txs, b"}")?;
    if !rest.is_empty() {
        return None;
    }
    Some(Block {
        height,
        time,
        votes: Listed::of(votes),
        evidence: Listed::of(evidence),
        txs: Listed::of(txs),
    })
}

fn block_by_name(form: Form, alloc: Global, line: &[u8]) -> Option<Block>
    ensures { IfSome result (λ block. block_of form line.now ≡ Ok block) }
{
    let at_evidence = after(line, b"{\"evidence\":")?;
    let (evidence, behind_evidence) = list(form, alloc, at_evidence)?;
    let at_height = after(behind_evidence, b",\"height\":")?;
    let (height, behind_height) = count(at_height)?;
    let at_time = after(behind_height, b",\"kind\":\"block\",\"time\":")?;
    let (text_of_time, behind_time) = string(at_time)?;
    let time = moment(text_of_time)?;
    let at_txs = after(behind_time, b",\"txs\":")?;
    let (txs, behind_txs) = list(form, alloc, at_txs)?;
    let at_votes = after(behind_txs, b",\"votes\":")?;
    let (votes, behind_votes) = list(form, alloc, at_votes)?;
    let rest = after(behind_votes, b"}")?;
    if !rest.is_empty() {
        return None;
    }
    Some(Block {
        height,
        time,
        votes: Listed::of(votes),
        evidence: Listed::of(evidence),
        txs: Listed::of(txs),
    })
}

/// The block that a compact line spells, its addresses in this form. None, where the line is of another form, and where
/// memory is wanting.
pub(crate) fn compact_block(form: Form, alloc: Global, line: &[u8]) -> Option<Block>
    ensures { IfSome result (λ block. block_of form line.now ≡ Ok block) }
{
    match line.get(2) {
        Some(b'k') => block(form, alloc, line),
        _ => block_by_name(form, alloc, line),
    }
}
