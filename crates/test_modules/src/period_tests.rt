//! F1 against a program that keeps everything: how many refer to each period, and rewards.

ghost use Rattle.std.specs.Prelude.{◌≡◌, OnOk};
ghost use Rattle.mod_periods.specs.Stands.{IsKept};

use crate::period_calls::{addr, clear, end, init, reward, reward_after, slash, start, stop};
use crate::period_letting_go::{let_go_of_facts, let_go_of_plain, let_go_of_rewards};
use crate::plain_periods::{Dice, ONE, Plain, next_seed, thrown};
use base_roles::{Facts, MessageFault};
use base_types::{Addr, Steps};
use mod_periods::F1;
use std::process::Abort;
use std::sync::ledger::Ledger;

/// Records, the facts so far, and a program that keeps everything of one validator.
pub(crate) struct Scene {
    f: F1,
    facts: Facts,
    plain: Plain,
}

impl Drop for Scene {
    fn drop(self) {
        let Scene { f, facts, plain } = self;
        let_go_of_rewards(f);
        let_go_of_facts(facts);
        let_go_of_plain(plain);
    }
}

/// No records, which stand for no rewards.
fn fresh(rt: &impl AllocGlobal) -> F1
    ensures { IsKept result.kept }
{
    F1::new(rt.alloc())
}

pub(crate) fn opened(rt: &(impl Abort + AllocGlobal)) -> Scene
    ensures { IsKept result.f.kept }
{
    Scene {
        f: fresh(rt),
        facts: Facts::new(rt.alloc()),
        plain: Plain::new(rt),
    }
}

// ---- the counts of references, call by call

/// How many refer to a period.
fn count<L: Ledger>(f: &F1, operator: &Addr, period: u64, steps: &mut Steps<L>) -> u128 {
    match f.count(operator, period, steps) {
        Some(count) => count,
        None => 0,
    }
}

/// Whether so many refer to the periods 0 to 3, of which the records with none are gone, and this one runs.
fn stands<L: Ledger>(
    f: &F1,
    operator: &Addr,
    counts: [u128; 4],
    running: Option<u64>,
    steps: &mut Steps<L>,
) -> bool {
    let [zero, one, two, three] = counts;
    (count(f, operator, 0, steps) == zero)
        & (count(f, operator, 1, steps) == one)
        & (count(f, operator, 2, steps) == two)
        & (count(f, operator, 3, steps) == three)
        & (f.current(operator, steps) == running)
}

/// A call at a validator of which one delegation starts.
#[derive(Clone, Copy)]
enum Call {
    Init,
    End,
    Start,
    Slash,
    MessageFault,
    Clear,
}

fn carry_out<L: Ledger>(
    rt: &(impl Abort + AllocGlobal),
    f: &mut F1,
    facts: &mut Facts,
    operator: &Addr,
    call: Call,
    steps: &mut Steps<L>,
) -> Result<bool, MessageFault>
    requires { IsKept f.old.kept }
    ensures { OnOk result (IsKept f.new.kept) }
{
    let who = addr(rt, 9);
    match call {
        Call::Init => init(rt, f, operator, steps),
        Call::End => end(rt, f, facts, operator, 0, steps),
        Call::Start => start(rt, f, facts, &who, operator, ONE, 5, steps),
        Call::Slash => slash(rt, f, operator, 6, ONE / 10, steps),
        Call::MessageFault => stop(rt, f, &who, operator, steps),
        Call::Clear => clear(f, operator, steps),
    }
}

/// A validator begins, two periods end, and a delegation starts between them. A slash, the delegation stops, a
/// period ends, and the validator goes.
pub(crate) fn counts<L: Ledger>(
    rt: &(impl Abort + AllocGlobal),
    scene: &mut Scene,
    steps: &mut Steps<L>,
) -> Result<bool, MessageFault>
    requires { IsKept scene.old.f.kept }
{
    let operator = addr(rt, 1);
    for (what, counts, running) in [
        (Call::Init, [1, 0, 0, 0], Some(1)),
        (Call::End, [0, 1, 0, 0], Some(2)),
        (Call::Start, [0, 2, 0, 0], Some(2)),
        (Call::End, [0, 1, 1, 0], Some(3)),
        (Call::Slash, [0, 1, 2, 0], Some(3)),
        (Call::MessageFault, [0, 0, 2, 0], Some(3)),
        (Call::End, [0, 0, 1, 1], Some(4)),
        (Call::Clear, [0, 0, 0, 0], None),
    ] {
        let done = carry_out(rt, &mut scene.f, &mut scene.facts, &operator, what, steps)?;
        if !(done & stands(&scene.f, &operator, counts, running, steps)) {
            return Ok(false);
        }
    }
    Ok(true)
}

// ---- against a program that keeps everything

/// Whether all counts are those of the plain program.
fn counts_agree<L: Ledger>(f: &F1, operator: &Addr, plain: &Plain, steps: &mut Steps<L>) -> bool {
    for period in 0..plain.last().saturating_add(2) {
        if count(f, operator, period, steps) != plain.references(period) {
            return false;
        }
    }
    true
}

/// Whether a delegation's reward is that of the plain program, and was so before a period ended.
fn reward_agrees<L: Ledger>(
    rt: &(impl Abort + AllocGlobal),
    scene: &mut Scene,
    operator: &Addr,
    dice: Dice,
    steps: &mut Steps<L>,
) -> Result<bool, MessageFault>
    requires { IsKept scene.old.f.kept }
    ensures { OnOk result (IsKept scene.new.f.kept) }
{
    let who = addr(rt, dice.who);
    let (height, value) = (dice.height, dice.stake);
    let before = reward_after(
        rt,
        &scene.f,
        &who,
        operator,
        dice.increment,
        height,
        value,
        steps,
    )?;
    let ended = end(
        rt,
        &mut scene.f,
        &mut scene.facts,
        operator,
        dice.increment,
        steps,
    )?;
    scene.plain.end(dice.increment)?;
    let after = reward(rt, &scene.f, &who, operator, height, value, steps)?;
    let due = scene.plain.due(dice.who, height, value);
    Ok(ended & (before == due) & (after == due))
}

/// A delegation that has started stops, and any other starts.
fn turned<L: Ledger>(
    rt: &(impl Abort + AllocGlobal),
    scene: &mut Scene,
    operator: &Addr,
    dice: Dice,
    steps: &mut Steps<L>,
) -> Result<bool, MessageFault>
    requires { IsKept scene.old.f.kept }
    ensures { OnOk result (IsKept scene.new.f.kept) }
{
    let who = addr(rt, dice.who);
    if scene.plain.turn(rt, dice)? {
        return stop(rt, &mut scene.f, &who, operator, steps);
    }
    start(
        rt,
        &mut scene.f,
        &mut scene.facts,
        &who,
        operator,
        dice.stake,
        dice.height,
        steps,
    )
}

/// A slash, which is done exactly where the last period has none.
fn struck<L: Ledger>(
    rt: &(impl Abort + AllocGlobal),
    scene: &mut Scene,
    operator: &Addr,
    dice: Dice,
    steps: &mut Steps<L>,
) -> Result<bool, MessageFault>
    requires { IsKept scene.old.f.kept }
    ensures { OnOk result (IsKept scene.new.f.kept) }
{
    let free = scene.plain.strike(rt, dice)?;
    let done = slash(
        rt,
        &mut scene.f,
        operator,
        dice.height,
        dice.fraction,
        steps,
    )?;
    Ok(done == free)
}

/// What the dice say at one validator.
fn called<L: Ledger>(
    rt: &(impl Abort + AllocGlobal),
    scene: &mut Scene,
    operator: &Addr,
    dice: Dice,
    steps: &mut Steps<L>,
) -> Result<bool, MessageFault>
    requires { IsKept scene.old.f.kept }
    ensures { OnOk result (IsKept scene.new.f.kept) }
{
    if dice.call < 2 {
        return turned(rt, scene, operator, dice, steps);
    }
    if dice.call == 2 {
        return struck(rt, scene, operator, dice, steps);
    }
    reward_agrees(rt, scene, operator, dice, steps)
}

/// A turn at one validator, behind which all counts agree.
fn turn<L: Ledger>(
    rt: &(impl Abort + AllocGlobal),
    scene: &mut Scene,
    operator: &Addr,
    dice: Dice,
    steps: &mut Steps<L>,
) -> Result<bool, MessageFault>
    requires { IsKept scene.old.f.kept }
    ensures { OnOk result (IsKept scene.new.f.kept) }
{
    let done = called(rt, scene, operator, dice, steps)?;
    Ok(done & counts_agree(&scene.f, operator, &scene.plain, steps))
}

/// Turns from a seed at a validator that begins: a program that keeps everything agrees after each.
pub(crate) fn agrees<L: Ledger>(
    rt: &(impl Abort + AllocGlobal),
    scene: &mut Scene,
    seed: u64,
    steps: &mut Steps<L>,
) -> Result<bool, MessageFault>
    requires { IsKept scene.old.f.kept }
{
    let operator = addr(rt, 1);
    let mut seed = seed;
    if !init(rt, &mut scene.f, &operator, steps)? {
        return Ok(false);
    }
    for number in 0..400 {
        seed = next_seed(seed);
        if !turn(rt, scene, &operator, thrown(seed, number), steps)? {
            return Ok(false);
        }
    }
    Ok(true)
}
