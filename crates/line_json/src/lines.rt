//! The lines of a genesis and of a block.
ghost use Rattle.std.specs.Prelude.{◌≡◌, ◌++◌, IfErr, OnOk};
ghost use Rattle.line_json.specs.Line.{line_of};
ghost use Rattle.line_json.specs.Written.{block_data, genesis_data, text_of_block, text_of_facts, text_of_genesis, text_of_tx, text_of_txs};

use crate::facts::push_fact;
use crate::outcomes::push_outcome;
use crate::told::Told;
use crate::writing::push_line;
use base_bech32::Form;
use base_coins::Coins;
use base_messages::{BlockReport, LineFault, TxReport};
use base_roles::Facts;
use base_types::Moment;
use std::alloc::Global;

/// Appends the line of a block itself.
fn push_block(alloc: Global, out: &mut Vec<u8>, height: u64, time: Moment) -> Result<(), LineFault>
    ensures ok { OnOk result (out.new.items ≡ out.old.items ++ line_of (block_data height time)) }
    ensures fault { IfErr result (λ fault. fault ≡ LineFault.NoMemory) }
{
    let members = [
        ("height", Told::Count(height)),
        ("kind", Told::Word("block")),
        ("time", Told::Moment(time)),
    ];
    push_line(alloc, out, &members)
}

/// Appends the line of a genesis, which tells the supply: `height` (0), `kind` (`"genesis"`) and `supply`, the coins.
///
/// The only error is `NoMemory`.
pub fn push_line_of_genesis<'a>(
    alloc: Global,
    out: &mut Vec<u8>,
    supply: &'a Coins,
) -> Result<(), LineFault>
    ensures text { OnOk result (out.new.items ≡ out.old.items ++ text_of_genesis supply.now) }
    ensures fault { IfErr result (λ fault. fault ≡ LineFault.NoMemory) }
{
    let members = [
        ("height", Told::Count(0)),
        ("kind", Told::Word("genesis")),
        ("supply", Told::Coins(supply)),
    ];
    push_line(alloc, out, &members)
}

/// Appends a line for each fact.
fn push_facts(
    form: Form,
    alloc: Global,
    out: &mut Vec<u8>,
    height: u64,
    facts: &Facts,
) -> Result<(), LineFault>
    ensures ok { OnOk result (out.new.items ≡ out.old.items ++ text_of_facts form height facts.now) }
    ensures fault { IfErr result (λ fault. fault ≡ LineFault.NoMemory) }
{
    for place in 0..facts.len() {
        if let Some(fact) = facts.at(place) {
            push_fact(form, alloc, out, height, fact)?;
        }
    }
    Ok(())
}

/// Appends the lines of a transaction: its facts, then how it ended.
fn push_tx(
    form: Form,
    alloc: Global,
    out: &mut Vec<u8>,
    height: u64,
    place: usize,
    tx: &TxReport,
) -> Result<(), LineFault>
    ensures ok { OnOk result (out.new.items ≡ out.old.items ++ text_of_tx form height place tx.now) }
    ensures fault { IfErr result (λ fault. fault ≡ LineFault.NoMemory) }
{
    push_facts(form, alloc, out, height, &tx.facts)?;
    push_outcome(alloc, out, height, place, tx.outcome)
}

fn push_txs(
    form: Form,
    alloc: Global,
    out: &mut Vec<u8>,
    height: u64,
    txs: &[TxReport],
) -> Result<(), LineFault>
    ensures ok { OnOk result (out.new.items ≡ out.old.items ++ text_of_txs form height 0 txs.now) }
    ensures fault { IfErr result (λ fault. fault ≡ LineFault.NoMemory) }
{
    for (place, tx) in txs.iter().enumerate() {
        push_tx(form, alloc, out, height, place, tx)?;
    }
    Ok(())
}

/// Appends the lines of a block: one with `height`, `kind` (`"block"`) and `time`; a line for each fact of its beginning;
/// for each transaction, numbered `tx` from 0, a line for each of its facts and one that tells how it ended; and
/// a line for each fact of its end. Addresses are in this form.
///
/// The only error is `NoMemory`.
pub fn push_lines_of_block(
    form: Form,
    alloc: Global,
    out: &mut Vec<u8>,
    report: &BlockReport,
) -> Result<(), LineFault>
    ensures text { OnOk result (out.new.items ≡ out.old.items ++ text_of_block form report.now) }
    ensures fault { IfErr result (λ fault. fault ≡ LineFault.NoMemory) }
{
    push_block(alloc, out, report.height, report.time)?;
    push_facts(form, alloc, out, report.height, &report.begun)?;
    push_txs(form, alloc, out, report.height, report.txs.as_slice())?;
    push_facts(form, alloc, out, report.height, &report.ended)
}
