//! The line of a summary: the counts of a trial, and the supplies and the community pool at its end.

ghost use Rattle.std.specs.Prelude.{◌≡◌, ◌++◌, IfErr, OnOk};
ghost use Rattle.line_json.specs.Line.{line_of};
ghost use Rattle.run_trial.specs.Summary.{summary_data};

use crate::counts::Counts;
use base_coins::{Coins, DecCoins};
use base_messages::LineFault;
use line_json::{Told, push_line};
use std::alloc::Global;

/// Appends the line of a summary: the counts, and the supplies and the community pool at the end. The only error is
/// `NoMemory`.
pub fn push_summary<'a>(
    alloc: Global,
    out: &mut Vec<u8>,
    counts: &Counts,
    supply: &'a Coins,
    pool: &'a DecCoins,
) -> Result<(), LineFault>
    ensures ok { OnOk result (out.new.items
        ≡ out.old.items ++ line_of (summary_data counts.now supply.now pool.now)) }
    ensures fault { IfErr result (λ fault. fault ≡ LineFault.NoMemory) }
{
    let members = [
        ("accepted", Told::Count(counts.accepted)),
        ("blocks", Told::Count(counts.blocks)),
        ("burned", Told::Amount(counts.burned)),
        ("kind", Told::Word("trial")),
        ("pool", Told::DecCoins(pool)),
        ("refused", Told::Count(counts.refused)),
        ("supply", Told::Coins(supply)),
    ];
    push_line(alloc, out, &members)
}
