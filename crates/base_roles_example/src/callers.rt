//! Callers over the roles alone, as votes, evidence, slashes and delegating are.

ghost use Rattle.std.specs.Prelude.{◌≡◌, ℕ, ◌+◌, ◌*◌, ◌^◌, ◌<◌, ◌≤◌, [], List, ◌++◌, OnOk, IsSome};
ghost use Rattle.std.specs.Option.{option_copied};
ghost use Rattle.base_roles.specs.declared.facts.Fact.{Fact};
ghost use Rattle.base_roles.specs.Answers.{AnswersAs, Follows};
ghost use Rattle.base_roles.specs.Ground.{seen};
ghost use Rattle.base_roles.specs.Holdings.{IsBacked};
ghost use Rattle.base_roles.specs.Hooks.{Stands, MayCall};
ghost use Rattle.base_roles.specs.Log.{Log};
ghost use Rattle.base_roles.specs.Staked.{validator_by_cons, lists_of, bonded_tokens, other_tokens};
ghost use Rattle.base_roles.specs.StakeChanges.{HoldsStake, HasShares};
ghost use Rattle.base_roles.specs.declared.calls.Hook.TheVariants.{Starting as starting};
ghost use Rattle.base_roles_example.specs.Caller.{sent_between_hooks, unbonded_twice, can_be_jailed, can_be_slashed, can_be_banned, account_of, IsOwnBurnt, IsBurntIfKnown};

use base_coins::{Coin, Coins};
use base_decimals::Dec;
use base_roles::{
    Bank, Facts, Ground, HookFault, MessageFault, RedelegationSlash, Signers, SigningInfo, Slasher,
    StakingHooks, Unbonder, UnbondingSlash, Validator,
};
use base_types::{Account, Addr, BondStatus, ConsAddr, Module, Moment, Steps};
use std::alloc::Global;
use std::sync::ledger::Ledger;

/// Sends coins between two hooks, over any bank and any hooks.
///
/// It is refused as `Overflow` where a hook exceeds, and as `InsufficientFunds` where the bank is short,
/// whichever comes first. The only other error is `NoMemory`.
pub fn send_between_hooks<B: Bank, H: StakingHooks, L: Ledger>(
    alloc: Global,
    g: &mut Ground<B>,
    hooks: &mut H,
    v: &Validator,
    delegator: &Addr,
    coins: &Coins,
    shares: Dec,
    steps: &mut Steps<L>,
) -> Result<(), MessageFault>
    requires ready { MayCall (H.holds hooks.old) H.tells (starting v.now delegator.now)
        (seen B.holdings g.old) }
    requires some { 0 < shares }
    requires most { shares ≤ v.now.shares }
    ensures { (h : H.Held) → H.holds hooks.old h → AnswersAs (sent_between_hooks H.tells.told v.now
        delegator.now coins.now shares (record {
          mine = tt;
          hooks = h;
          view = seen B.holdings g.old;
          log = [];
        })) tt (H.holds hooks.new) (seen B.holdings g.new) result }
{
    hooks.before_delegation_created(alloc, g, v, delegator, steps)?;
    let to = Account::Module(Module::NotBonded);
    g.bank.send(
        alloc,
        &mut g.facts,
        &Account::User(*delegator),
        &to,
        coins,
        steps,
    )?;
    hooks.after_delegation_modified(alloc, g, v, delegator, shares, steps)?;
    Ok(())
}

/// What a vote does that jails: a slash, and jailing. Then it slashes once more.
///
/// The errors are those of the slasher: `NoMemory` and `Over`, which comes where a slash exceeds.
pub fn slash_jail_and_slash<B: Bank, H: StakingHooks, S: Slasher, L: Ledger>(
    alloc: Global,
    g: &mut Ground<B>,
    hooks: &mut H,
    slasher: &mut S,
    cons: &ConsAddr,
    infraction: u64,
    power: u64,
    factor: Dec,
    steps: &mut Steps<L>,
) -> Result<u128, HookFault>
    requires factor { factor ≤ 10 ^ 18 }
    requires power { power * g.old.ctx.params.power_reduction ≤ 10 ^ 18 }
    requires sound { S.sound (S.held slasher.old) }
    requires stand { Stands (H.holds hooks.old) H.tells (seen B.holdings g.old)
        (lists_of (S.stake (S.held slasher.old))) }
    requires accounts { HoldsStake (seen B.holdings g.old) (bonded_tokens
        (S.stake (S.held slasher.old)))
        (other_tokens (S.stake (S.held slasher.old)) + S.owed (S.held slasher.old)) }
    ensures sound { OnOk result (S.sound (S.held slasher.new)) }
    ensures stand { OnOk result (Stands (H.holds hooks.new) H.tells (seen B.holdings g.new)
        (lists_of (S.stake (S.held slasher.new)))) }
    ensures accounts { OnOk result (HoldsStake (seen B.holdings g.new)
        (bonded_tokens (S.stake (S.held slasher.new)))
        (other_tokens (S.stake (S.held slasher.new)) + S.owed (S.held slasher.new))) }
{
    if !can_be_jailed(slasher.by_cons(cons, steps)) {
        return Ok(0);
    }
    slasher.slash(alloc, g, hooks, cons, infraction, power, factor, steps)?;
    slasher.jail(alloc, &mut g.facts, cons, steps)?;
    slasher.slash(alloc, g, hooks, cons, infraction, power, factor, steps)
}

/// What a piece of evidence does: a slash, jailing where that was not, and a ban. Answers whether it did.
pub fn punish<B: Bank, H: StakingHooks, S: Slasher, N: Signers, L: Ledger>(
    alloc: Global,
    g: &mut Ground<B>,
    hooks: &mut H,
    slasher: &mut S,
    signers: &mut N,
    cons: &ConsAddr,
    infraction: u64,
    power: u64,
    factor: Dec,
    until: Moment,
    steps: &mut Steps<L>,
) -> Result<bool, HookFault>
    requires factor { factor ≤ 10 ^ 18 }
    requires power { power * g.old.ctx.params.power_reduction ≤ 10 ^ 18 }
    requires sound { S.sound (S.held slasher.old) }
    requires signers { N.sound (N.held signers.old) }
    requires stand { Stands (H.holds hooks.old) H.tells (seen B.holdings g.old)
        (lists_of (S.stake (S.held slasher.old))) }
    requires accounts { HoldsStake (seen B.holdings g.old) (bonded_tokens
        (S.stake (S.held slasher.old)))
        (other_tokens (S.stake (S.held slasher.old)) + S.owed (S.held slasher.old)) }
    ensures sound { OnOk result (S.sound (S.held slasher.new)) }
    ensures signers { OnOk result (N.sound (N.held signers.new)) }
    ensures stand { OnOk result (Stands (H.holds hooks.new) H.tells (seen B.holdings g.new)
        (lists_of (S.stake (S.held slasher.new)))) }
    ensures accounts { OnOk result (HoldsStake (seen B.holdings g.new)
        (bonded_tokens (S.stake (S.held slasher.new)))
        (other_tokens (S.stake (S.held slasher.new)) + S.owed (S.held slasher.new))) }
{
    if !can_be_banned(signers.info(cons, steps)) {
        return Ok(false);
    }
    if !can_be_slashed(slasher.by_cons(cons, steps)) {
        return Ok(false);
    }
    slasher.slash(alloc, g, hooks, cons, infraction, power, factor, steps)?;
    jail_if_not(alloc, &mut g.facts, slasher, cons, steps)?;
    signers.ban(alloc, cons, until, steps)?;
    Ok(true)
}

/// What a slash through entries does: the unbonding entries of an operator are slashed, then the redelegation
/// entries from it over lent delegations and the same unbonding entries, then the tokens of the validator itself
/// burn. Answers what was counted of entries.
pub fn slash_through_entries<
    B: Bank,
    H: StakingHooks,
    D: Unbonder,
    U: UnbondingSlash,
    R: RedelegationSlash,
    L: Ledger,
>(
    alloc: Global,
    g: &mut Ground<B>,
    hooks: &mut H,
    delegations: &mut D,
    unbondings: &mut U,
    redelegations: &mut R,
    operator: &Addr,
    infraction: u64,
    factor: Dec,
    steps: &mut Steps<L>,
) -> Result<u128, HookFault>
    requires factor { factor ≤ 10 ^ 18 }
    requires unbondings { U.sound (U.held unbondings.old) }
    requires redelegations { R.sound (R.held redelegations.old) }
    requires delegations { D.sound (D.held delegations.old) }
    requires stand { Stands (H.holds hooks.old) H.tells (seen B.holdings g.old)
        (lists_of (D.stake (D.held delegations.old))) }
    requires accounts { HoldsStake (seen B.holdings g.old) (bonded_tokens
        (D.stake (D.held delegations.old)))
        (other_tokens (D.stake (D.held delegations.old)) + U.owed (U.held unbondings.old)) }
    ensures unbondings { OnOk result (U.sound (U.held unbondings.new)) }
    ensures redelegations { OnOk result (R.sound (R.held redelegations.new)) }
    ensures delegations { OnOk result (D.sound (D.held delegations.new)) }
    ensures stand { OnOk result (Stands (H.holds hooks.new) H.tells (seen B.holdings g.new)
        (lists_of (D.stake (D.held delegations.new)))) }
{
    let some = unbondings.slash_unbondings(alloc, g, operator, infraction, factor, steps)?;
    let more = redelegations.slash_redelegations(
        alloc,
        g,
        hooks,
        delegations,
        unbondings,
        operator,
        infraction,
        factor,
        steps,
    )?;
    burn_known(alloc, g, delegations.validator(operator, steps), steps)?;
    Ok(some + more)
}

/// What a slash does with two redelegation entries of one delegation: it unbonds a part, and then more of the
/// rest, behind the log of the part. Answers the tokens that go out with the last.
///
/// The errors are `NoMemory` and `Over`, which comes where an unbonding exceeds.
pub fn unbond_twice<B: Bank, H: StakingHooks, D: Unbonder, L: Ledger>(
    alloc: Global,
    g: &mut Ground<B>,
    hooks: &mut H,
    delegations: &mut D,
    delegator: &Addr,
    operator: &Addr,
    part: Dec,
    more: Dec,
    steps: &mut Steps<L>,
) -> Result<u128, HookFault>
    requires some { 0 < more }
    requires shares { HasShares (D.stake (D.held delegations.old))
        delegator.now operator.now (part + more) }
    requires sound { D.sound (D.held delegations.old) }
    requires stand { Stands (H.holds hooks.old) H.tells (seen B.holdings g.old)
        (lists_of (D.stake (D.held delegations.old))) }

    // Behind any log.
    ensures told { (h : H.Held) → H.holds hooks.old h → (log : Log) → Follows
        (unbonded_twice (D.unbonds H.Held H.tells.told delegator.now operator.now) part more
        (record {
          mine = D.held delegations.old;
          hooks = h;
          view = seen B.holdings g.old;
          log = log;
        })) (D.held delegations.new) (H.holds hooks.new)
        (seen B.holdings g.new) result }
    ensures sound { OnOk result (D.sound (D.held delegations.new)) }
    ensures stand { OnOk result (Stands (H.holds hooks.new) H.tells (seen B.holdings g.new)
        (lists_of (D.stake (D.held delegations.new)))) }
{
    delegations.unbond(alloc, g, hooks, delegator, operator, part, steps)?;
    delegations.unbond(alloc, g, hooks, delegator, operator, more, steps)
}

/// The tokens of a validator burn, where there is one.
fn burn_known<B: Bank, L: Ledger>(
    alloc: Global,
    g: &mut Ground<B>,
    v: Option<&Validator>,
    steps: &mut Steps<L>,
) -> Result<(), HookFault>
    requires { IsBacked (B.holdings g.old.bank) }
    ensures { OnOk result
        (IsBurntIfKnown (option_copied v.entry) (seen B.holdings g.old) (seen B.holdings g.new)) }
{
    match v {
        Some(v) => burn_own(alloc, g, v, steps),
        None => Ok(()),
    }
}

/// The tokens of a validator burn, from the account of its status.
fn burn_own<B: Bank, L: Ledger>(
    alloc: Global,
    g: &mut Ground<B>,
    v: &Validator,
    steps: &mut Steps<L>,
) -> Result<(), HookFault>
    requires { IsBacked (B.holdings g.old.bank) }
    ensures burnt { OnOk result (IsOwnBurnt v.now (seen B.holdings g.old) (seen B.holdings g.new)) }
{
    let coin = Coin {
        denom: g.ctx.params.bond_denom,
        amount: v.tokens,
    };
    match g
        .bank
        .burn(alloc, &mut g.facts, account_of(v.status), &coin, steps)
    {
        Ok(()) => Ok(()),
        Err(_) => Err(HookFault::NoMemory),
    }
}

/// The account from which a validator's tokens are owed.
fn account_of(status: BondStatus) -> Module
    ensures { result ≡ account_of status }
{
    match status {
        BondStatus::Bonded => Module::Bonded,
        _ => Module::NotBonded,
    }
}

/// Jails a validator that is known, unless it is jailed.
fn jail_if_not<S: Slasher, L: Ledger>(
    alloc: Global,
    facts: &mut Facts,
    slasher: &mut S,
    cons: &ConsAddr,
    steps: &mut Steps<L>,
) -> Result<(), HookFault>
    requires known { IsSome (validator_by_cons (S.stake (S.held slasher.old)) cons.now) }
    requires sound { S.sound (S.held slasher.old) }
    ensures sound { OnOk result (S.sound (S.held slasher.new)) }
    ensures lists { OnOk result
        (lists_of (S.stake (S.held slasher.new)) ≡ lists_of (S.stake (S.held slasher.old))) }
    ensures bonded { OnOk result (bonded_tokens (S.stake (S.held slasher.new))
        ≡ bonded_tokens (S.stake (S.held slasher.old))) }
    ensures other { OnOk result (other_tokens (S.stake (S.held slasher.new))
        ≡ other_tokens (S.stake (S.held slasher.old))) }
    ensures owed { OnOk result (S.owed (S.held slasher.new) ≡ S.owed (S.held slasher.old)) }
    ensures grown { (more : List Fact) × (facts.new ≡ facts.old ++ more) }
{
    if can_be_jailed(slasher.by_cons(cons, steps)) {
        slasher.jail(alloc, facts, cons, steps)?;
    }
    Ok(())
}

/// Whether there is a validator that is not unbonded.
fn can_be_slashed(v: Option<&Validator>) -> bool
    ensures { result ≡ can_be_slashed (option_copied v.entry) }
{
    match v {
        Some(v) => v.status != BondStatus::Unbonded,
        None => false,
    }
}

/// Whether there is a validator that is neither unbonded nor jailed.
fn can_be_jailed(v: Option<&Validator>) -> bool
    ensures { result ≡ can_be_jailed (option_copied v.entry) }
{
    match v {
        Some(v) => v.status != BondStatus::Unbonded && !v.jailed,
        None => false,
    }
}

/// Whether there is an info that is not banned for ever.
fn can_be_banned(info: Option<&SigningInfo>) -> bool
    ensures { result ≡ can_be_banned (option_copied info.entry) }
{
    match info {
        Some(info) => !info.tombstoned,
        None => false,
    }
}
