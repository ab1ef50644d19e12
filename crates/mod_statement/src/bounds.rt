//! The bounds of a statement, by its entries.

ghost use Rattle.std.specs.Prelude.{◌≡◌, All, IfOk, IfErr, Ok};
ghost use Rattle.mod_statement.specs.Answers.{IsFaultOf};
ghost use Rattle.mod_statement.specs.Bounds.{bounds_of as bounds_of_entries, bounds_over};
ghost use Rattle.mod_statement.specs.Entries.{AreBehind, HasMoney};
ghost use Rattle.mod_statement.specs.Faults.{IsOverDue};

use crate::entry::Entry;
use crate::fault::StatementFault;
use crate::slack::slack_of;
use crate::span::span_of;
use crate::stakes::Stakes;
use crate::sums::sums_of;
use base_coins::{CoinFault, DecCoins};
use std::alloc::Global;

/// The bounds of a statement.
#[derive(Debug, Drop)]
pub(crate) struct Bounds {
    pub low: DecCoins,
    pub high: DecCoins,
    pub slack: DecCoins,
}

/// The bounds of entries. `NoSpan` comes exactly where these are no span, and `Over` exactly where an
/// operation is over, with the operands of the first.
pub(crate) fn bounds_of(
    alloc: Global,
    entries: &[Entry],
    removals: u64,
    ratio: &DecCoins,
) -> Result<Bounds, StatementFault>
    ensures bounds { IfOk result
        (λ bounds. bounds_of_entries entries.now removals ratio.now ≡ Ok bounds) }
    ensures money { IfOk result (λ _. All HasMoney entries.now) }
    ensures fault { IfErr result (IsFaultOf (bounds_of_entries entries.now removals ratio.now)) }
{
    match span_of(entries) {
        Some(span) => {
            let bounds = bounds_over(alloc, span.0, span.1, removals, ratio)?;
            Ok(bounds)
        }
        None => Err(StatementFault::NoSpan),
    }
}

/// The bounds of a span.
fn bounds_over(
    alloc: Global,
    start: Stakes,
    rest: &[Entry],
    removals: u64,
    ratio: &DecCoins,
) -> Result<Bounds, CoinFault>
    requires { AreBehind rest.now }
    ensures bounds { IfOk result
        (λ bounds. bounds_over start rest.now removals ratio.now ≡ Ok bounds) }
    ensures money { IfOk result (λ _. All HasMoney rest.now) }
    ensures fault { IfErr result (IsOverDue (bounds_over start rest.now removals ratio.now)) }
{
    let first = start.upper;
    let sums = sums_of(alloc, start, rest)?;
    let slack = slack_of(alloc, first, rest, removals, ratio)?;
    Ok(Bounds {
        low: sums.low,
        high: sums.high,
        slack,
    })
}
