//! The scene of the tests of staking: two users with coins, and the message that creates a validator.

ghost use Rattle.std.specs.Prelude.{◌≡◌, ℕ, List, [], ◌<◌, ◌≤◌, ◌^◌, OnOk, IfOk};
ghost use Rattle.base_coins.specs.Coins.{amount_of};
ghost use Rattle.base_roles.specs.Ground.{seen, AreInRange};
ghost use Rattle.base_roles.specs.Holdings.{IsBacked};
ghost use Rattle.mod_staking.specs.Registered.{behind, no_stake};
ghost use Rattle.test_modules.specs.StakingTrials.{IsFit};

use crate::staking_letting_go::{let_go_of_ground, let_go_of_staking};
use base_coins::{Coin, CoinFault, Coins};
use base_decimals::Dec;
use base_roles::{
    BankFault, CreateValidator, Ctx, Facts, Ground, MessageFault, NoHooks, Params, ValidatorView,
};
use base_types::{Account, Addr, ConsAddr, Denom, Moment, Steps};
use mod_bank::BankBalances;
use mod_staking::Staking;
use std::process::Abort;
use std::sync::ledger::Ledger;

pub(crate) const ONE: u128 = 1_000_000_000_000_000_000;

pub(crate) fn dec(rt: &impl Abort, raw: u128) -> Dec
    ensures { result ≡ raw }
{
    Dec::from_raw(raw).expect(rt, "below the limit")
}

pub(crate) fn moment(rt: &impl Abort, nanos: u128) -> Moment
    ensures { result ≡ nanos }
{
    Moment::of(nanos).expect(rt, "before the year 10000")
}

pub(crate) fn addr(rt: &impl Abort, byte: u8) -> Addr {
    Addr::of([byte; 20]).expect(rt, "no module's address")
}

pub(crate) fn denom(rt: &impl Abort, name: &[u8]) -> Denom {
    Denom::of(name).expect(rt, "a denomination")
}

pub(crate) fn atom(rt: &impl Abort) -> Denom {
    denom(rt, b"uatom")
}

fn params(rt: &impl Abort) -> Params
    ensures { AreInRange result }
{
    Params {
        bond_denom: atom(rt),
        power_reduction: 1_000_000,
        unbonding_time: 1_814_400,
        max_validators: 100,
        max_entries: 7,
        min_commission_rate: dec(rt, 0),
        community_tax: dec(rt, 20_000_000_000_000_000),
        withdraw_addr_enabled: true,
        signed_blocks_window: 100,
        min_signed_per_window: dec(rt, 500_000_000_000_000_000),
        downtime_jail_duration: 600,
        slash_fraction_double_sign: dec(rt, 50_000_000_000_000_000),
        slash_fraction_downtime: dec(rt, 10_000_000_000_000_000),
        max_age_duration: 172_800,
        max_age_num_blocks: 100_000,
        authority: addr(rt, 9),
    }
}

/// So many uatom, where there is memory.
fn coins(rt: &(impl Abort + AllocGlobal), amount: u128) -> Result<Coins, CoinFault>
    requires { amount ≤ 10 ^ 12 }
    ensures { IfOk result (λ coins. (d : List ℕ) → amount_of coins d ≤ 10 ^ 12) }
{
    let mut list = Vec::new(rt.alloc());
    list.push(Coin {
        denom: atom(rt),
        amount,
    })?;
    Ok(Coins::of(list)?)
}

/// So many uatom.
fn purse(rt: &(impl Abort + AllocGlobal), amount: u128) -> Coins
    requires { amount ≤ 10 ^ 12 }
    ensures { (d : List ℕ) → amount_of result d ≤ 10 ^ 12 }
{
    coins(rt, amount).expect(rt, "coins")
}

/// User 1 has 1,000 uatom, and user 2 has 10^12.
fn bank<L: Ledger>(
    rt: &(impl Abort + AllocGlobal),
    steps: &mut Steps<L>,
) -> Result<BankBalances, BankFault>
    ensures { IfOk result (λ bank. IsBacked bank.holdings) }
{
    let accounts = [
        (Account::User(addr(rt, 1)), purse(rt, 1_000)),
        (Account::User(addr(rt, 2)), purse(rt, 1_000_000_000_000)),
    ];
    BankBalances::start(rt.alloc(), &accounts, steps)
}

/// Staking, one that is loaded from its items, and the ground that staking acts on.
pub(crate) struct Scene {
    pub(crate) staking: Staking,
    pub(crate) loaded: Staking,
    pub(crate) g: Ground<BankBalances>,
}

impl Drop for Scene {
    fn drop(self) {
        let Scene { staking, loaded, g } = self;
        let_go_of_staking(staking);
        let_go_of_staking(loaded);
        let_go_of_ground(g);
    }
}

/// No validators; users 1 and 2 have 1,000 and 10^12 uatom, at the beginning of time.
pub(crate) fn opened<L: Ledger>(
    rt: &(impl Abort + AllocGlobal),
    steps: &mut Steps<L>,
) -> Result<Scene, BankFault>
    ensures marks { IfOk result (λ scene. scene.staking.marks ≡ []) }
    ensures fit { IfOk result
        (λ scene. IsFit scene.staking.staked (seen (λ b. b.holdings) scene.g)) }
    ensures nothing { IfOk result (λ scene. scene.loaded.staked ≡ no_stake) }
    ensures unmarked { IfOk result (λ scene. scene.loaded.marks ≡ []) }
{
    let bank = bank(rt, steps)?;
    let staking = Staking::new(rt.alloc(), 1_000_000);
    let loaded = Staking::new(rt.alloc(), 1_000_000);
    Ok(Scene {
        staking,
        loaded,
        g: Ground {
            bank,
            ctx: Ctx {
                height: 1,
                time: moment(rt, 0),
                params: params(rt),
            },
            facts: Facts::new(rt.alloc()),
        },
    })
}

/// A message that creates the validator of a user and consensus address, with a commission of 0.1 of at most
/// 0.2, that may rise by 0.01.
pub(crate) fn message(
    rt: &impl Abort,
    user: u8,
    cons: u8,
    least: u128,
    amount: u128,
) -> CreateValidator {
    CreateValidator {
        validator: addr(rt, user),
        cons: ConsAddr::of([cons; 20]),
        rate: dec(rt, ONE / 10),
        max_rate: dec(rt, ONE / 5),
        max_change_rate: dec(rt, ONE / 100),
        min_self_delegation: least,
        amount: Coin {
            denom: atom(rt),
            amount,
        },
    }
}

// ---- calls with their conditions: each answers false, and changes nothing, where one isn't met

pub(crate) fn create<L: Ledger>(
    rt: &(impl Abort + AllocGlobal),
    scene: &mut Scene,
    m: &CreateValidator,
    steps: &mut Steps<L>,
) -> Result<(), MessageFault>
    requires { IsFit scene.old.staking.staked (seen (λ b. b.holdings) scene.old.g) }
    ensures fit { OnOk result
        (IsFit scene.new.staking.staked (seen (λ b. b.holdings) scene.new.g)) }
    ensures behind { behind scene.new.staking ≡ behind scene.old.staking }
    ensures loaded { scene.new.loaded ≡ scene.old.loaded }
{
    scene
        .staking
        .create_validator(rt.alloc(), &mut scene.g, &mut NoHooks::new(), m, steps)
}

/// Whether the validator of a user has these tokens and shares.
pub(crate) fn has<L: Ledger>(
    rt: &impl Abort,
    scene: &Scene,
    user: u8,
    tokens: u128,
    shares: u128,
    steps: &mut Steps<L>,
) -> bool {
    match scene.staking.validator(&addr(rt, user), steps) {
        Some(v) => v.tokens == tokens && v.shares.raw() == shares,
        None => false,
    }
}
