//! Evidence of double signing: its validator is slashed, jailed and tombstoned (`x/evidence`:
//! `HandleEquivocationEvidence`).

ghost use Rattle.std.specs.Prelude.{◌≡◌, ℕ, ◌+◌, ◌*◌, ◌^◌, ◌≤◌, ◌++◌, true, false, List, Some, None, IsSome, if◌then◌else◌, OnOk, IfOk, IfErr};
ghost use Rattle.std.specs.Option.{option_copied};
ghost use Rattle.base_types.specs.Orders.{cons_cmp};
ghost use Rattle.base_roles.specs.declared.facts.Fact.{Fact};
ghost use Rattle.base_roles.specs.declared.faults.HookFault.TheVariants.{NoMemory};
ghost use Rattle.base_roles.specs.Entries.{at};
ghost use Rattle.base_roles.specs.Ground.{seen, CanBeUndone};
ghost use Rattle.base_roles.specs.Hooks.{Stands};
ghost use Rattle.base_roles.specs.Lent.{jail_told};
ghost use Rattle.base_roles.specs.Log.{Log};
ghost use Rattle.base_roles.specs.Staked.{validator_by_cons, lists_of, bonded_tokens, other_tokens};
ghost use Rattle.base_roles.specs.StakeChanges.{HoldsStake, StakeFalls};
ghost use Rattle.rule_modules.specs.Evidence.{equivocation_handled, forever, is_too_old};
ghost use Rattle.mod_evidence.specs.Calls.{lent_bans, accused, can_be_banned, is_punished, is_free, Handles};

use base_roles::{
    Bank, Ctx, Evidence, Fact, Facts, Ground, HookFault, Signers, SigningInfo, Slasher,
    StakingHooks, Validator,
};
use base_types::{Addr, BondStatus, ConsAddr, Moment, Steps};
use std::alloc::Global;
use std::sync::ledger::Ledger;

/// Handles a piece of evidence (`HandleEquivocationEvidence`), and answers whether it was punished. It is
/// ignored where its validator is unknown or unbonded, has no signing info or is tombstoned, and where it is
/// older than both limits. Else, in this order: the validator is slashed by the evidence's power for an
/// infraction one height back; it is jailed, where it is not jailed then; it is banned for ever, which is told
/// by a fact. Evidence that is ignored takes at most three steps.
///
/// The errors are `NoMemory` and `Over`, which comes exactly where the slash exceeds.
pub fn equivocation<B: Bank, H: StakingHooks, S: Slasher, N: Signers, L: Ledger>(
    alloc: Global,
    g: &mut Ground<B>,
    hooks: &mut H,
    slasher: &mut S,
    signers: &mut N,
    e: &Evidence,
    steps: &mut Steps<L>,
) -> Result<bool, HookFault>
    requires power { e.now.power * g.old.ctx.params.power_reduction ≤ 10 ^ 18 }
    requires sound { S.sound (S.held slasher.old) }
    requires signers { N.sound (N.held signers.old) }
    requires stand { Stands (H.holds hooks.old) H.tells (seen B.holdings g.old)
        (lists_of (S.stake (S.held slasher.old))) }
    requires accounts { HoldsStake (seen B.holdings g.old) (bonded_tokens
        (S.stake (S.held slasher.old)))
        (other_tokens (S.stake (S.held slasher.old)) + S.owed (S.held slasher.old)) }

    ensures told { (h : H.Held) → H.holds hooks.old h → (log : Log) → Handles
        (equivocation_handled (record {
          stake = S.stake;
          slash = S.slashes H.Held H.tells.told;
          jail = S.jails;
        }) (lent_bans N.infos N.bans) e.now (N.held signers.old) (record {
          mine = S.held slasher.old;
          hooks = h;
          view = seen B.holdings g.old;
          log = log;
        })) (N.held signers.new) (S.held slasher.new) (H.holds hooks.new)
        (seen B.holdings g.new) result }
    ensures punished { IfOk result (λ done. done ≡ is_punished g.old.ctx e.now
        (validator_by_cons (S.stake (S.held slasher.old)) e.now.cons)
        (at cons_cmp (N.infos (N.held signers.old)) e.now.cons)) }
    ensures falls { OnOk result (StakeFalls (seen B.holdings g.old) (seen B.holdings g.new)
        (bonded_tokens (S.stake (S.held slasher.old))) (other_tokens (S.stake (S.held slasher.old))
        + S.owed (S.held slasher.old)) (bonded_tokens (S.stake (S.held slasher.new)))
        (other_tokens (S.stake (S.held slasher.new)) + S.owed (S.held slasher.new))) }
    ensures sound { OnOk result (S.sound (S.held slasher.new)) }
    ensures signers { OnOk result (N.sound (N.held signers.new)) }
    ensures stand { OnOk result (Stands (H.holds hooks.new) H.tells (seen B.holdings g.new)
        (lists_of (S.stake (S.held slasher.new)))) }
    ensures cost { accused g.old.ctx e.now (validator_by_cons (S.stake (S.held slasher.old))
        e.now.cons) ≡ None → steps.new ≤ steps.old + 2 }
    ensures cost_ignored { is_punished g.old.ctx e.now
        (validator_by_cons (S.stake (S.held slasher.old)) e.now.cons)
        (at cons_cmp (N.infos (N.held signers.old)) e.now.cons) ≡ false
        → steps.new ≤ steps.old + 3 }

    // Whatever the answer.
    ensures undone { CanBeUndone B.marks g.old g.new }
    ensures bank { B.most_steps g.new.bank ≡ B.most_steps g.old.bank }
    ensures marks { S.marks slasher.new ≡ S.marks slasher.old }
    ensures signer_marks { N.marks signers.new ≡ N.marks signers.old }
    ensures hook_marks { H.marks hooks.new ≡ H.marks hooks.old }
{
    let operator = match accused(&g.ctx, e, slasher.by_cons(&e.cons, steps)) {
        Some(operator) => operator,
        None => return Ok(false),
    };
    if !can_be_banned(signers.info(&e.cons, steps)) {
        return Ok(false);
    }
    punish(alloc, g, hooks, slasher, signers, e, operator, steps)
}

/// Evidence that is punished: its validator is slashed, then jailed where it is not jailed then, then banned for
/// ever, which is told by a fact. The errors are those of [`equivocation`].
fn punish<B: Bank, H: StakingHooks, S: Slasher, N: Signers, L: Ledger>(
    alloc: Global,
    g: &mut Ground<B>,
    hooks: &mut H,
    slasher: &mut S,
    signers: &mut N,
    e: &Evidence,
    operator: Addr,
    steps: &mut Steps<L>,
) -> Result<bool, HookFault>
    requires accused { accused g.old.ctx e.now
        (validator_by_cons (S.stake (S.held slasher.old)) e.now.cons) ≡ Some operator }
    requires free { can_be_banned (at cons_cmp (N.infos (N.held signers.old)) e.now.cons) ≡ true }
    requires power { e.now.power * g.old.ctx.params.power_reduction ≤ 10 ^ 18 }
    requires sound { S.sound (S.held slasher.old) }
    requires signers { N.sound (N.held signers.old) }
    requires stand { Stands (H.holds hooks.old) H.tells (seen B.holdings g.old)
        (lists_of (S.stake (S.held slasher.old))) }
    requires accounts { HoldsStake (seen B.holdings g.old) (bonded_tokens
        (S.stake (S.held slasher.old)))
        (other_tokens (S.stake (S.held slasher.old)) + S.owed (S.held slasher.old)) }

    ensures told { (h : H.Held) → H.holds hooks.old h → (log : Log) → Handles
        (equivocation_handled (record {
          stake = S.stake;
          slash = S.slashes H.Held H.tells.told;
          jail = S.jails;
        }) (lent_bans N.infos N.bans) e.now (N.held signers.old) (record {
          mine = S.held slasher.old;
          hooks = h;
          view = seen B.holdings g.old;
          log = log;
        })) (N.held signers.new) (S.held slasher.new) (H.holds hooks.new)
        (seen B.holdings g.new) result }
    ensures punished { IfOk result (λ done. done ≡ is_punished g.old.ctx e.now
        (validator_by_cons (S.stake (S.held slasher.old)) e.now.cons)
        (at cons_cmp (N.infos (N.held signers.old)) e.now.cons)) }
    ensures falls { OnOk result (StakeFalls (seen B.holdings g.old) (seen B.holdings g.new)
        (bonded_tokens (S.stake (S.held slasher.old))) (other_tokens (S.stake (S.held slasher.old))
        + S.owed (S.held slasher.old)) (bonded_tokens (S.stake (S.held slasher.new)))
        (other_tokens (S.stake (S.held slasher.new)) + S.owed (S.held slasher.new))) }
    ensures sound { OnOk result (S.sound (S.held slasher.new)) }
    ensures signers { OnOk result (N.sound (N.held signers.new)) }
    ensures stand { OnOk result (Stands (H.holds hooks.new) H.tells (seen B.holdings g.new)
        (lists_of (S.stake (S.held slasher.new)))) }

    // Whatever the answer.
    ensures undone { CanBeUndone B.marks g.old g.new }
    ensures bank { B.most_steps g.new.bank ≡ B.most_steps g.old.bank }
    ensures marks { S.marks slasher.new ≡ S.marks slasher.old }
    ensures signer_marks { N.marks signers.new ≡ N.marks signers.old }
    ensures hook_marks { H.marks hooks.new ≡ H.marks hooks.old }
{
    let factor = g.ctx.params.slash_fraction_double_sign;
    let infraction = e.height.saturating_sub(1);
    slasher.slash(alloc, g, hooks, &e.cons, infraction, e.power, factor, steps)?;
    jail_if_free(alloc, &mut g.facts, slasher, &e.cons, steps)?;
    signers.ban(alloc, &e.cons, forever(), steps)?;
    g.facts.push(Fact::Tombstoned {
        validator: operator,
    })?;
    Ok(true)
}

/// Jails a validator that is known, unless it is jailed. The only error is `NoMemory`.
fn jail_if_free<S: Slasher, L: Ledger>(
    alloc: Global,
    facts: &mut Facts,
    slasher: &mut S,
    cons: &ConsAddr,
    steps: &mut Steps<L>,
) -> Result<(), HookFault>
    requires known { IsSome (validator_by_cons (S.stake (S.held slasher.old)) cons.now) }
    requires sound { S.sound (S.held slasher.old) }
    ensures held { OnOk result (S.held slasher.new
        ≡ (if is_free (validator_by_cons (S.stake (S.held slasher.old)) cons.now)
        then S.jails cons.now (S.held slasher.old) else S.held slasher.old)) }
    ensures told { OnOk result (facts.new
        ≡ (if is_free (validator_by_cons (S.stake (S.held slasher.old)) cons.now)
        then jail_told (validator_by_cons (S.stake (S.held slasher.old)) cons.now) facts.old
        else facts.old)) }
    ensures sound { OnOk result (S.sound (S.held slasher.new)) }
    ensures lists { OnOk result
        (lists_of (S.stake (S.held slasher.new)) ≡ lists_of (S.stake (S.held slasher.old))) }
    ensures bonded { OnOk result (bonded_tokens (S.stake (S.held slasher.new))
        ≡ bonded_tokens (S.stake (S.held slasher.old))) }
    ensures other { OnOk result (other_tokens (S.stake (S.held slasher.new))
        ≡ other_tokens (S.stake (S.held slasher.old))) }
    ensures owed { OnOk result (S.owed (S.held slasher.new) ≡ S.owed (S.held slasher.old)) }
    ensures fault { IfErr result (λ fault. fault ≡ NoMemory) }
    ensures grown { (more : List Fact) × (facts.new ≡ facts.old ++ more) }
    ensures marks { S.marks slasher.new ≡ S.marks slasher.old }
{
    if is_free(slasher.by_cons(cons, steps)) {
        slasher.jail(alloc, facts, cons, steps)?;
    }
    Ok(())
}

/// The operator whom evidence accuses: its validator is known and not unbonded, and the evidence is not too old.
fn accused(ctx: &Ctx, e: &Evidence, v: Option<&Validator>) -> Option<Addr>
    ensures { result ≡ accused ctx.now e.now (option_copied v.entry) }
{
    match v {
        Some(v) => {
            if v.status == BondStatus::Unbonded || is_too_old(ctx, e) {
                None
            } else {
                Some(v.operator)
            }
        }
        None => None,
    }
}

/// Whether evidence is older than both limits (`MaxAgeDuration`, `MaxAgeNumBlocks`).
fn is_too_old(ctx: &Ctx, e: &Evidence) -> bool
    ensures { result ≡ is_too_old ctx.now e.now }
{
    let age = ctx.time.nanos().saturating_sub(e.time.nanos());
    let blocks = ctx.height.saturating_sub(e.height);
    let most = ctx.params.max_age_duration as u128 * 1_000_000_000;
    most < age && ctx.params.max_age_num_blocks < blocks
}

/// Whether there is an info that is not banned for ever.
fn can_be_banned(info: Option<&SigningInfo>) -> bool
    ensures { result ≡ can_be_banned (option_copied info.entry) }
{
    match info {
        Some(info) => !info.tombstoned,
        None => false,
    }
}

/// Whether there is a validator that is not jailed.
fn is_free(v: Option<&Validator>) -> bool
    ensures { result ≡ is_free (option_copied v.entry) }
{
    match v {
        Some(v) => !v.jailed,
        None => false,
    }
}

/// 9999-12-31T23:59:59Z (`DoubleSignJailEndTime`).
fn forever() -> Moment
    ensures { result ≡ forever }
{
    Moment::of(253_402_300_799_000_000_000).unwrap()
}
