//! The scene of the tests of unbonding: one validator has all coins; entries are made, cancelled and compared.

ghost use Rattle.std.specs.Prelude.{◌≡◌, ℕ, List, [], ◌<◌, ◌≤◌, ◌^◌, OnOk, IfOk};
ghost use Rattle.base_coins.specs.Coins.{amount_of};
ghost use Rattle.base_roles.specs.Ground.{seen, AreInRange};
ghost use Rattle.base_roles.specs.Holdings.{IsBacked};
ghost use Rattle.test_modules.specs.UnbondingTrials.{IsFit, IsKept};

use crate::unbonding_letting_go::{let_go_of_ground, let_go_of_staking, let_go_of_unbondings};
use base_coins::{Coin, CoinFault, Coins};
use base_decimals::Dec;
use base_roles::{
    BankFault, CreateValidator, Ctx, Facts, Ground, Item, MessageFault, NoHooks, Params,
    RecordFault, Records, UnbondingEntry,
};
use base_types::{Account, Addr, ConsAddr, Denom, Moment, Steps};
use mod_bank::BankBalances;
use mod_staking::Staking;
use mod_unbonding::Unbondings;
use std::process::Abort;
use std::sync::ledger::Ledger;

pub(crate) const ONE: u128 = 1_000_000_000_000_000_000;

/// The tokens of the validator of user 1, and all coins, at first.
pub(crate) const ALL: u128 = 3_000_000;

pub(crate) fn dec(rt: &impl Abort, raw: u128) -> Dec
    ensures { result ≡ raw }
{
    Dec::from_raw(raw).expect(rt, "below the limit")
}

pub(crate) fn moment(rt: &impl Abort, nanos: u128) -> Moment
    ensures { result ≡ nanos }
{
    Moment::of(nanos).expect(rt, "before the year 10000")
}

pub(crate) fn addr(rt: &impl Abort, byte: u8) -> Addr {
    Addr::of([byte; 20]).expect(rt, "no module's address")
}

pub(crate) fn atom(rt: &impl Abort) -> Denom {
    Denom::of(b"uatom").expect(rt, "a denomination")
}

fn coin(rt: &impl Abort, amount: u128) -> Coin {
    Coin {
        denom: atom(rt),
        amount,
    }
}

/// At most two entries stand; what is unbonding completes after a second.
fn params(rt: &impl Abort) -> Params
    ensures { AreInRange result }
{
    Params {
        bond_denom: atom(rt),
        power_reduction: 1_000_000,
        unbonding_time: 1,
        max_validators: 100,
        max_entries: 2,
        min_commission_rate: dec(rt, 0),
        community_tax: dec(rt, 20_000_000_000_000_000),
        withdraw_addr_enabled: true,
        signed_blocks_window: 100,
        min_signed_per_window: dec(rt, 500_000_000_000_000_000),
        downtime_jail_duration: 600,
        slash_fraction_double_sign: dec(rt, 50_000_000_000_000_000),
        slash_fraction_downtime: dec(rt, 10_000_000_000_000_000),
        max_age_duration: 172_800,
        max_age_num_blocks: 100_000,
        authority: addr(rt, 9),
    }
}

/// So many uatom, where there is memory.
fn coins(rt: &(impl Abort + AllocGlobal), amount: u128) -> Result<Coins, CoinFault>
    requires { amount ≤ 10 ^ 12 }
    ensures { IfOk result (λ coins. (d : List ℕ) → amount_of coins d ≤ 10 ^ 12) }
{
    let mut list = Vec::new(rt.alloc());
    list.push(Coin {
        denom: atom(rt),
        amount,
    })?;
    Ok(Coins::of(list)?)
}

/// So many uatom.
fn purse(rt: &(impl Abort + AllocGlobal), amount: u128) -> Coins
    requires { amount ≤ 10 ^ 12 }
    ensures { (d : List ℕ) → amount_of result d ≤ 10 ^ 12 }
{
    coins(rt, amount).expect(rt, "coins")
}

/// User 1 has all coins.
fn bank<L: Ledger>(
    rt: &(impl Abort + AllocGlobal),
    steps: &mut Steps<L>,
) -> Result<BankBalances, BankFault>
    ensures { IfOk result (λ bank. IsBacked bank.holdings) }
{
    let accounts = [(Account::User(addr(rt, 1)), purse(rt, ALL))];
    BankBalances::start(rt.alloc(), &accounts, steps)
}

/// Entries, ones that are loaded from their items, staking, and the ground that both act on.
pub(crate) struct Scene {
    pub(crate) unbondings: Unbondings,
    pub(crate) loaded: Unbondings,
    pub(crate) staking: Staking,
    pub(crate) g: Ground<BankBalances>,
}

impl Drop for Scene {
    fn drop(self) {
        let Scene {
            unbondings,
            loaded,
            staking,
            g,
        } = self;
        let_go_of_unbondings(unbondings);
        let_go_of_unbondings(loaded);
        let_go_of_staking(staking);
        let_go_of_ground(g);
    }
}

/// User 1 has all coins, at height 1, at the beginning of time.
fn empty<L: Ledger>(
    rt: &(impl Abort + AllocGlobal),
    steps: &mut Steps<L>,
) -> Result<Scene, BankFault>
    ensures fit { IfOk result (λ scene. IsFit scene.unbondings.lists
        scene.staking.staked (seen (λ b. b.holdings) scene.g)) }
    ensures lists { IfOk result (λ scene. scene.unbondings.lists ≡ []) }
    ensures marks { IfOk result (λ scene. scene.unbondings.marks ≡ []) }
    ensures nothing { IfOk result (λ scene. scene.loaded.lists ≡ []) }
    ensures unmarked { IfOk result (λ scene. scene.loaded.marks ≡ []) }
{
    let bank = bank(rt, steps)?;
    let staking = Staking::new(rt.alloc(), 1_000_000);
    let unbondings = Unbondings::new(rt.alloc());
    let loaded = Unbondings::new(rt.alloc());
    Ok(Scene {
        unbondings,
        loaded,
        staking,
        g: Ground {
            bank,
            ctx: Ctx {
                height: 1,
                time: moment(rt, 0),
                params: params(rt),
            },
            facts: Facts::new(rt.alloc()),
        },
    })
}

/// User 1 creates its validator, with all of its coins.
fn create<L: Ledger>(
    rt: &(impl Abort + AllocGlobal),
    scene: &mut Scene,
    steps: &mut Steps<L>,
) -> Result<(), MessageFault>
    requires fit { IsFit scene.old.unbondings.lists
        scene.old.staking.staked (seen (λ b. b.holdings) scene.old.g) }
    requires lists { scene.old.unbondings.lists ≡ [] }
    ensures fit { OnOk result (IsFit scene.new.unbondings.lists
        scene.new.staking.staked (seen (λ b. b.holdings) scene.new.g)) }
    ensures marks { scene.new.unbondings.marks ≡ scene.old.unbondings.marks }
    ensures loaded { scene.new.loaded ≡ scene.old.loaded }
{
    let m = message(rt);
    scene
        .staking
        .create_validator(rt.alloc(), &mut scene.g, &mut NoHooks::new(), &m, steps)?;
    Ok(())
}

/// User 1 has a validator with all of its coins, at height 1, at the beginning of time.
pub(crate) fn opened<L: Ledger>(
    rt: &(impl Abort + AllocGlobal),
    steps: &mut Steps<L>,
) -> Result<Scene, MessageFault>
    ensures fit { IfOk result (λ scene. IsFit scene.unbondings.lists
        scene.staking.staked (seen (λ b. b.holdings) scene.g)) }
    ensures marks { IfOk result (λ scene. scene.unbondings.marks ≡ []) }
    ensures nothing { IfOk result (λ scene. scene.loaded.lists ≡ []) }
    ensures unmarked { IfOk result (λ scene. scene.loaded.marks ≡ []) }
{
    let mut scene = empty(rt, steps)?;
    create(rt, &mut scene, steps)?;
    Ok(scene)
}

/// A message that creates the validator of user 1.
fn message(rt: &impl Abort) -> CreateValidator {
    CreateValidator {
        validator: addr(rt, 1),
        cons: ConsAddr::of([1; 20]),
        rate: dec(rt, ONE / 10),
        max_rate: dec(rt, ONE / 5),
        max_change_rate: dec(rt, ONE / 100),
        min_self_delegation: 1,
        amount: coin(rt, ALL),
    }
}

/// The next block, so many nanoseconds later.
pub(crate) fn goes_on(rt: &impl Abort, scene: &mut Scene, height: u64, time: u128)
    requires fit { IsFit scene.old.unbondings.lists
        scene.old.staking.staked (seen (λ b. b.holdings) scene.old.g) }
    requires height { height < 2 ^ 63 }
    requires time { time < 10 ^ 18 }
    ensures fit { IsFit scene.new.unbondings.lists
        scene.new.staking.staked (seen (λ b. b.holdings) scene.new.g) }
    ensures marks { scene.new.unbondings.marks ≡ scene.old.unbondings.marks }
    ensures loaded { scene.new.loaded ≡ scene.old.loaded }
{
    scene.g.ctx.height = height;
    scene.g.ctx.time = moment(rt, time);
}

pub(crate) fn undelegate<L: Ledger>(
    rt: &(impl Abort + AllocGlobal),
    scene: &mut Scene,
    amount: u128,
    steps: &mut Steps<L>,
) -> Result<Moment, MessageFault>
    requires { IsFit scene.old.unbondings.lists
        scene.old.staking.staked (seen (λ b. b.holdings) scene.old.g) }
    ensures fit { OnOk result (IsFit scene.new.unbondings.lists
        scene.new.staking.staked (seen (λ b. b.holdings) scene.new.g)) }
    ensures marks { scene.new.unbondings.marks ≡ scene.old.unbondings.marks }
    ensures loaded { scene.new.loaded ≡ scene.old.loaded }
{
    let user = addr(rt, 1);
    let coin = coin(rt, amount);
    scene.unbondings.undelegate(
        rt.alloc(),
        &mut scene.g,
        &mut NoHooks::new(),
        &mut scene.staking,
        &user,
        &user,
        &coin,
        steps,
    )
}

pub(crate) fn cancel<L: Ledger>(
    rt: &(impl Abort + AllocGlobal),
    scene: &mut Scene,
    amount: u128,
    created: u64,
    steps: &mut Steps<L>,
) -> Result<(), MessageFault>
    requires { IsKept scene.old.unbondings.lists
        scene.old.staking.staked (seen (λ b. b.holdings) scene.old.g) }
    ensures fit { OnOk result (IsKept scene.new.unbondings.lists
        scene.new.staking.staked (seen (λ b. b.holdings) scene.new.g)) }
    ensures marks { scene.new.unbondings.marks ≡ scene.old.unbondings.marks }
{
    let user = addr(rt, 1);
    let coin = coin(rt, amount);
    scene.unbondings.cancel(
        rt.alloc(),
        &mut scene.g,
        &mut NoHooks::new(),
        &mut scene.staking,
        &user,
        &user,
        &coin,
        created,
        steps,
    )
}

/// Whether the entries of user 1 are these: the height, the initial amount and the balance of each.
pub(crate) fn has_entries<L: Ledger>(
    rt: &impl AllocGlobal,
    scene: &Scene,
    want: &[(u64, u128, u128)],
    steps: &mut Steps<L>,
) -> Result<bool, RecordFault> {
    let mut items = Vec::new(rt.alloc());
    scene.unbondings.items_into(&mut items, steps)?;
    match items.get(0) {
        None => Ok(want.len() == 0),
        Some(Item::Unbonding { entries, .. }) => Ok(are(entries.as_slice(), want)),
        Some(_) => Ok(false),
    }
}

/// Whether entries are these.
pub(crate) fn are(entries: &[UnbondingEntry], want: &[(u64, u128, u128)]) -> bool {
    if entries.len() != want.len() {
        return false;
    }
    for place in 0..entries.len() {
        let one = entries[place];
        let (created, initial, balance) = want[place];
        if one.created != created || one.initial != initial || one.balance != balance {
            return false;
        }
    }
    true
}
