//! The calls of F1 with their conditions: each answers false, and changes nothing, where one isn't met.

ghost use Rattle.std.specs.Prelude.{◌≡◌, ◌≢◌, ◌≤◌, true, All, OnOk, IfOk};
ghost use Rattle.mod_periods.specs.Kept.{events_of};
ghost use Rattle.mod_periods.specs.Stands.{IsKept};

use crate::plain_periods::{ONE, dec, is_free};
use base_coins::{DecCoin, DecCoins};
use base_roles::{Facts, MessageFault};
use base_types::{Addr, Denom, Steps};
use mod_periods::F1;
use std::process::Abort;
use std::sync::ledger::Ledger;

pub(crate) fn addr(rt: &impl Abort, byte: u8) -> Addr {
    Addr::of([byte; 20]).expect(rt, "no module's address")
}

fn atom(rt: &impl Abort) -> Denom {
    Denom::of(b"uatom").expect(rt, "a denomination")
}

/// So many units of uatom, each 10^-18.
fn atoms(rt: &(impl Abort + AllocGlobal), raw: u128) -> DecCoins {
    let coin = DecCoin {
        denom: atom(rt),
        amount: dec(rt, raw),
    };
    let mut list = Vec::new(rt.alloc());
    list.push(coin).expect(rt, "memory");
    DecCoins::of(list).expect(rt, "coins")
}

pub(crate) fn init<L: Ledger>(
    rt: &impl AllocGlobal,
    f: &mut F1,
    operator: &Addr,
    steps: &mut Steps<L>,
) -> Result<bool, MessageFault>
    requires { IsKept f.old.kept }
    ensures { OnOk result (IsKept f.new.kept) }
{
    if f.current(operator, steps).is_some() {
        return Ok(false);
    }
    f.init(rt.alloc(), operator, steps)?;
    Ok(true)
}

fn end_with<L: Ledger>(
    rt: &impl AllocGlobal,
    f: &mut F1,
    facts: &mut Facts,
    operator: &Addr,
    increment: &DecCoins,
    steps: &mut Steps<L>,
) -> Result<bool, MessageFault>
    requires { IsKept f.old.kept }
    ensures { OnOk result (IsKept f.new.kept) }
{
    if f.current(operator, steps).is_none() {
        return Ok(false);
    }
    f.end_period(rt.alloc(), facts, operator, increment, steps)?;
    Ok(true)
}

/// Ends a period with so many units of uatom per token.
pub(crate) fn end<L: Ledger>(
    rt: &(impl Abort + AllocGlobal),
    f: &mut F1,
    facts: &mut Facts,
    operator: &Addr,
    increment: u128,
    steps: &mut Steps<L>,
) -> Result<bool, MessageFault>
    requires { IsKept f.old.kept }
    ensures { OnOk result (IsKept f.new.kept) }
{
    let increment = atoms(rt, increment);
    end_with(rt, f, facts, operator, &increment, steps)
}

pub(crate) fn start<L: Ledger>(
    rt: &impl Abort,
    f: &mut F1,
    facts: &mut Facts,
    who: &Addr,
    operator: &Addr,
    stake: u128,
    height: u64,
    steps: &mut Steps<L>,
) -> Result<bool, MessageFault>
    requires { IsKept f.old.kept }
    ensures { OnOk result (IsKept f.new.kept) }
{
    let stake = dec(rt, stake);
    if f.current(operator, steps).is_none() || f.starting_info(who, operator, steps).is_some() {
        return Ok(false);
    }
    f.start(facts, who, operator, stake, height, steps)?;
    Ok(true)
}

pub(crate) fn stop<L: Ledger>(
    rt: &impl AllocGlobal,
    f: &mut F1,
    who: &Addr,
    operator: &Addr,
    steps: &mut Steps<L>,
) -> Result<bool, MessageFault>
    requires { IsKept f.old.kept }
    ensures { OnOk result (IsKept f.new.kept) }
{
    if f.starting_info(who, operator, steps).is_none() {
        return Ok(false);
    }
    f.stop(rt.alloc(), who, operator, steps)?;
    Ok(true)
}

/// Whether no slash event of an operator is at this period, nor above this height.
fn is_free_at<L: Ledger>(
    rt: &impl AllocGlobal,
    f: &F1,
    operator: &Addr,
    height: u64,
    period: u64,
    steps: &mut Steps<L>,
) -> Result<bool, MessageFault>
    ensures free { IfOk result (λ free. free ≡ true
        → All (λ e. e.period ≢ period) (events_of f.now.kept operator.now)) }
    ensures heights { IfOk result (λ free. free ≡ true
        → All (λ e. e.height ≤ height) (events_of f.now.kept operator.now)) }
{
    let events = f.slash_events(rt.alloc(), operator, 0, steps)?;
    Ok(is_free(&events, height, period))
}

/// A slash at the last ended period.
pub(crate) fn slash<L: Ledger>(
    rt: &(impl Abort + AllocGlobal),
    f: &mut F1,
    operator: &Addr,
    height: u64,
    fraction: u128,
    steps: &mut Steps<L>,
) -> Result<bool, MessageFault>
    requires { IsKept f.old.kept }
    ensures { OnOk result (IsKept f.new.kept) }
{
    let fraction = dec(rt, fraction);
    let Some(running) = f.current(operator, steps) else {
        return Ok(false);
    };
    if running == 0 || fraction.raw() > ONE {
        return Ok(false);
    }
    if !is_free_at(rt, f, operator, height, running - 1, steps)? {
        return Ok(false);
    }
    f.slash_event(operator, height, running - 1, fraction, steps)?;
    Ok(true)
}

/// Clears an operator, where no delegation at all is started.
pub(crate) fn clear<L: Ledger>(
    f: &mut F1,
    operator: &Addr,
    steps: &mut Steps<L>,
) -> Result<bool, MessageFault>
    requires { IsKept f.old.kept }
    ensures { OnOk result (IsKept f.new.kept) }
{
    if f.current(operator, steps).is_none() || f.starts() != 0 {
        return Ok(false);
    }
    f.clear(operator, steps)?;
    Ok(true)
}

/// The reward of a delegation at the last ended period, in units of uatom.
pub(crate) fn reward<L: Ledger>(
    rt: &(impl Abort + AllocGlobal),
    f: &F1,
    who: &Addr,
    operator: &Addr,
    height: u64,
    value: u128,
    steps: &mut Steps<L>,
) -> Result<Option<u128>, MessageFault>
    requires { IsKept f.now.kept }
{
    let value = dec(rt, value);
    if f.starting_info(who, operator, steps).is_none() {
        return Ok(None);
    }
    let Some(running) = f.current(operator, steps) else {
        return Ok(None);
    };
    if running == 0 {
        return Ok(None);
    }
    let coins = f.reward(rt.alloc(), who, operator, running - 1, height, value, steps)?;
    Ok(Some(coins.amount_of(&atom(rt)).raw()))
}

fn reward_with<L: Ledger>(
    rt: &(impl Abort + AllocGlobal),
    f: &F1,
    who: &Addr,
    operator: &Addr,
    increment: &DecCoins,
    height: u64,
    value: u128,
    steps: &mut Steps<L>,
) -> Result<Option<u128>, MessageFault>
    requires { IsKept f.now.kept }
{
    let value = dec(rt, value);
    if f.starting_info(who, operator, steps).is_none() || f.current(operator, steps).is_none() {
        return Ok(None);
    }
    let coins = f.reward_after(rt.alloc(), who, operator, increment, height, value, steps)?;
    Ok(Some(coins.amount_of(&atom(rt)).raw()))
}

/// The reward of a delegation once one more period ends with so many units of uatom per token.
pub(crate) fn reward_after<L: Ledger>(
    rt: &(impl Abort + AllocGlobal),
    f: &F1,
    who: &Addr,
    operator: &Addr,
    increment: u128,
    height: u64,
    value: u128,
    steps: &mut Steps<L>,
) -> Result<Option<u128>, MessageFault>
    requires { IsKept f.now.kept }
{
    let increment = atoms(rt, increment);
    reward_with(rt, f, who, operator, &increment, height, value, steps)
}
