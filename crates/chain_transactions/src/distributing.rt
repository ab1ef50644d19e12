//! Messages of distribution.

ghost use Rattle.std.specs.Prelude.{◌≡◌, ◌^◌, ◌<◌, ◌≤◌, Ok, OnOk, IfErr};
ghost use Rattle.base_roles.specs.Ground.{IsInOrder};
ghost use Rattle.base_roles.specs.declared.calls.Hook.TheVariants.{Modified as modified};
ghost use Rattle.rule_modules.specs.Effects.{withdraw_reward, withdraw_commission, set_withdraw_address, fund_community_pool, community_pool_spend};
ghost use Rattle.rule_machine.specs.Listening.{Hearing, reward_heard};
ghost use Rattle.chain_modules.specs.Heard.{Hears, HearsAfter};
ghost use Rattle.chain_modules.specs.Kept.{StandsWhole, kept_of, stakes_kept, AreSteady, ground_of, listener_of};
ghost use Rattle.chain_modules.specs.Marks.{GoOn};
ghost use Rattle.chain_transactions.specs.Answers.{EndsWell, delegation_asked};

use base_decimals::Dec;
use base_messages::{
    CommunityPoolSpend, FundCommunityPool, SetWithdrawAddress, WithdrawCommission, WithdrawReward,
};
use base_roles::{
    Extra, HookFault, MessageFault, Refusal, StakingHooks, Unbonder, Validator, ValidatorView,
};
use base_types::{Addr, Steps};
use chain_modules::{Modules, Stakes};
use std::alloc::Global;
use std::sync::ledger::Ledger;

/// A delegator's reward is paid, and its rewards start anew (`x/distribution`: `msgServer.WithdrawDelegatorReward`).
pub(crate) fn withdraw_reward<E: Extra, L: Ledger>(
    alloc: Global,
    modules: &mut Modules<E>,
    m: &WithdrawReward,
    steps: &mut Steps<L>,
) -> Result<(), MessageFault>
    requires steady { AreSteady modules.old }
    ensures ends { EndsWell (withdraw_reward m.now.delegator m.now.validator)
        modules.old modules.new result }
    ensures heard { (w : Hearing E.Heard) → Hears E.heard StandsWhole modules.old w → OnOk result
        (HearsAfter E.heard StandsWhole (reward_heard E.hears m.now.delegator
        m.now.validator w) modules.new) }

    // Whatever the answer.
    ensures listener { E.Records.marks (listener_of modules.new)
        ≡ E.Records.marks (listener_of modules.old) }
{
    let (v, shares) = asked(&modules.stakes, m, steps)?;
    renew(alloc, modules, m, &v, shares, steps)?;
    hear_start(alloc, modules, &v, &m.delegator, shares, steps)?;
    Ok(())
}

/// The reward of a delegation of so many shares to this validator is paid, and its rewards start anew.
fn renew<E: Extra, L: Ledger>(
    alloc: Global,
    modules: &mut Modules<E>,
    m: &WithdrawReward,
    v: &Validator,
    shares: Dec,
    steps: &mut Steps<L>,
) -> Result<(), MessageFault>
    requires steady { AreSteady modules.old }
    requires asked { delegation_asked m.now.delegator m.now.validator
        (stakes_kept modules.old.stakes).staked ≡ Ok (v.now, shares) }
    ensures ends { EndsWell (withdraw_reward m.now.delegator m.now.validator)
        modules.old modules.new result }

    // Whatever the answer.
    ensures listener { listener_of modules.new ≡ listener_of modules.old }
{
    modules
        .hooks
        .first
        .first
        .withdraw_reward(alloc, &mut modules.ground, v, &m.delegator, shares, steps)?;
    Ok(())
}

/// The listener hears that the rewards of a delegation start anew. No other hook is called: distribution has
/// started them itself. The only error is `NoMemory`.
fn hear_start<E: Extra, L: Ledger>(
    alloc: Global,
    modules: &mut Modules<E>,
    v: &Validator,
    delegator: &Addr,
    shares: Dec,
    steps: &mut Steps<L>,
) -> Result<(), HookFault>
    requires in_order { IsInOrder (ground_of modules.old) }
    requires some { 0 < shares }
    requires most { shares ≤ v.now.shares }
    requires tokens { v.now.tokens ≤ 10 ^ 18 }
    ensures kept { OnOk result (kept_of modules.new ≡ kept_of modules.old) }
    ensures heard { OnOk result (E.heard (listener_of modules.new)
        ≡ E.hears (E.heard (listener_of modules.old)) (modified v.now delegator.now shares)
        (ground_of modules.old)) }
    ensures fault { IfErr result (λ fault. fault ≡ HookFault.NoMemory) }

    // Whatever the answer.
    ensures go_on { GoOn modules.old modules.new }
    ensures listener { E.Records.marks (listener_of modules.new)
        ≡ E.Records.marks (listener_of modules.old) }
{
    modules
        .hooks
        .first
        .second
        .listener
        .after_delegation_modified(alloc, &mut modules.ground, v, delegator, shares, steps)
}

/// The validator whose delegator asks for a reward, and the shares of the delegation; or why there is none.
fn asked<L: Ledger>(
    stakes: &Stakes,
    m: &WithdrawReward,
    steps: &mut Steps<L>,
) -> Result<(Validator, Dec), Refusal>
    ensures { result ≡ delegation_asked m.now.delegator m.now.validator
        (stakes_kept stakes.now).staked }
{
    let v = match stakes.staking.validator(&m.validator, steps) {
        Some(v) => *v,
        None => return Err(Refusal::NoValidator),
    };
    match stakes.staking.shares_of(&m.delegator, &m.validator, steps) {
        Some(shares) => Ok((v, shares)),
        None => Err(Refusal::NoDelegation),
    }
}

/// A validator's commission is paid (`x/distribution`: `msgServer.WithdrawValidatorCommission`).
pub(crate) fn withdraw_commission<E: Extra, L: Ledger>(
    alloc: Global,
    modules: &mut Modules<E>,
    m: &WithdrawCommission,
    steps: &mut Steps<L>,
) -> Result<(), MessageFault>
    requires steady { AreSteady modules.old }
    ensures ends { EndsWell (withdraw_commission m.now.validator) modules.old modules.new result }

    // Whatever the answer.
    ensures listener { listener_of modules.new ≡ listener_of modules.old }
{
    modules
        .hooks
        .first
        .first
        .withdraw_commission(alloc, &mut modules.ground, &m.validator, steps)?;
    Ok(())
}

/// A delegator's payments go to another address (`x/distribution`: `msgServer.SetWithdrawAddress`).
pub(crate) fn set_withdraw_address<E: Extra, L: Ledger>(
    modules: &mut Modules<E>,
    m: &SetWithdrawAddress,
    steps: &mut Steps<L>,
) -> Result<(), MessageFault>
    requires steady { AreSteady modules.old }
    ensures ends { EndsWell (set_withdraw_address m.now.delegator m.now.withdraw)
        modules.old modules.new result }

    // Whatever the answer.
    ensures listener { listener_of modules.new ≡ listener_of modules.old }
{
    let params = modules.ground.ctx.params;
    let facts = &mut modules.ground.facts;
    modules
        .hooks
        .first
        .first
        .set_withdraw(&params, facts, &m.delegator, &m.withdraw, steps)
}

/// Coins of a user join the community pool (`x/distribution`: `msgServer.FundCommunityPool`).
pub(crate) fn fund_community_pool<E: Extra, L: Ledger>(
    alloc: Global,
    modules: &mut Modules<E>,
    m: &FundCommunityPool,
    steps: &mut Steps<L>,
) -> Result<(), MessageFault>
    requires steady { AreSteady modules.old }
    ensures ends { EndsWell (fund_community_pool m.now.depositor m.now.coins)
        modules.old modules.new result }

    // Whatever the answer.
    ensures listener { listener_of modules.new ≡ listener_of modules.old }
{
    // It tells that they are a list of coins.
    let _ = m.coins.len();
    modules
        .hooks
        .first
        .first
        .fund(alloc, &mut modules.ground, &m.depositor, &m.coins, steps)
}

/// Coins of the community pool go to an account (`x/distribution`: `msgServer.CommunityPoolSpend`).
pub(crate) fn community_pool_spend<E: Extra, L: Ledger>(
    alloc: Global,
    modules: &mut Modules<E>,
    m: &CommunityPoolSpend,
    steps: &mut Steps<L>,
) -> Result<(), MessageFault>
    requires steady { AreSteady modules.old }
    ensures ends { EndsWell (community_pool_spend m.now.authority m.now.recipient m.now.coins)
        modules.old modules.new result }

    // Whatever the answer.
    ensures listener { listener_of modules.new ≡ listener_of modules.old }
{
    // It tells that they are a list of coins.
    let _ = m.coins.len();
    modules.hooks.first.first.spend(
        alloc,
        &mut modules.ground,
        &m.authority,
        &m.recipient,
        &m.coins,
        steps,
    )
}
