//! Who joins and who leaves the bonded set, by the lists of staking.

ghost use Rattle.std.specs.Prelude.{◌≡◌, ℕ, ◌+◌, ◌*◌, ◌^◌, ◌≤◌, ◌++◌, ◌∷◌, [], not, filter, List, None, IfOk, IfErr, OnOk, option_map};
ghost use Rattle.std.specs.Map.{values_of};
ghost use Rattle.std.specs.Option.{option_copied};
ghost use Rattle.base_table.specs.Tabled.{entry_above};
ghost use Rattle.base_roles.specs.declared.faults.HookFault.TheVariants.{NoMemory};
ghost use Rattle.base_roles.specs.Staked.{is_bonded};
ghost use Rattle.rule_modules.specs.Amounts.{count_where};
ghost use Rattle.rule_modules.specs.BondedSet.{power_of, joining_of, leaving_of};
ghost use Rattle.mod_staking.specs.Calls.{IsSoundStake};
ghost use Rattle.mod_staking.specs.Places.{standing, standing_cmp, power_place, in_order};
ghost use Rattle.mod_bonded_set.specs.Sets.{TellsSet, IsUnmoved, unmoved_last};
ghost use Rattle.mod_staking.specs.KnownSet.{place, is_within};

use base_roles::{HookFault, Validator};
use base_types::{Addr, BondStatus, Steps};
use mod_staking::Staking;
use std::alloc::Global;
use std::cmp::Ordering;
use std::sync::ledger::Ledger;

/// Who joins the bonded set, in its order, who leaves it, by rising operator, and, where that was found to be
/// nobody, the place of its last validator.
#[derive(Drop)]
pub(crate) struct Moves {
    pub joining: Vec<Validator>,
    pub leaving: Vec<Validator>,
    pub last: Option<(u64, Addr)>,
}

/// Who joins the bonded set, in its order, and the place of its last validator, where it has one.
#[derive(Drop)]
struct Joining {
    validators: Vec<Validator>,
    last: Option<(u64, Addr)>,
}

/// Who joins and who leaves the bonded set of at most so many. Nobody is looked for where staking knows the bonded
/// ones to be the set. The only error is `NoMemory`.
pub(crate) fn who_moves<L: Ledger>(
    alloc: Global,
    staking: &Staking,
    power_reduction: u64,
    most: u64,
    steps: &mut Steps<L>,
) -> Result<Moves, HookFault>
    requires sound { IsSoundStake staking.now.staked }
    requires power { staking.now.power_reduction ≡ power_reduction }
    requires some { 1 ≤ power_reduction }
    ensures joining { IfOk result (λ m. m.joining.items
        ≡ joining_of power_reduction most (values_of staking.now.staked.validators)) }
    ensures leaving { IfOk result (λ m. m.leaving.items
        ≡ leaving_of power_reduction most (values_of staking.now.staked.validators)) }
    ensures unmoved { IfOk result (λ m.
        IsUnmoved power_reduction most staking.now.staked (option_map standing m.last)) }
    ensures fault { IfErr result (λ fault. fault ≡ NoMemory) }
    ensures cost { steps.new ≤ steps.old + 2 * (most + count_where
        (λ v. is_bonded v.status) (values_of staking.now.staked.validators) + 1) }
{
    if staking.knows_set(most) {
        return Ok(nobody(alloc));
    }
    let set = who_joins(alloc, staking, power_reduction, most, steps)?;
    let leaving = who_leaves(alloc, staking, &set.last, power_reduction, steps)?;
    let Joining {
        validators: joining,
        last,
    } = set;
    let last = unmoved_last(joining.as_slice(), leaving.as_slice(), last);
    Ok(Moves {
        joining,
        leaving,
        last,
    })
}

/// Nobody joins and nobody leaves. It takes no memory.
fn nobody(alloc: Global) -> Moves
    ensures joining { result.joining.items ≡ [] }
    ensures leaving { result.leaving.items ≡ [] }
    ensures last { result.last ≡ None }
{
    Moves {
        joining: Vec::new(alloc),
        leaving: Vec::new(alloc),
        last: None,
    }
}

/// The place of the set's last validator, where nobody joins or leaves it.
fn unmoved_last(
    joining: &[Validator],
    leaving: &[Validator],
    last: Option<(u64, Addr)>,
) -> Option<(u64, Addr)>
    ensures { result ≡ unmoved_last joining.now leaving.now last }
{
    if joining.is_empty() && leaving.is_empty() {
        last
    } else {
        None
    }
}

/// Those of the first validators by power, of which there are at most so many, that are not bonded yet.
/// The only error is `NoMemory`.
fn who_joins<L: Ledger>(
    alloc: Global,
    staking: &Staking,
    power_reduction: u64,
    most: u64,
    steps: &mut Steps<L>,
) -> Result<Joining, HookFault>
    requires sound { IsSoundStake staking.now.staked }
    requires power { staking.now.power_reduction ≡ power_reduction }
    requires some { 1 ≤ power_reduction }
    ensures joining { IfOk result (λ j. j.validators.items
        ≡ joining_of power_reduction most (values_of staking.now.staked.validators)) }
    ensures set { IfOk result (λ j.
        TellsSet power_reduction most staking.now.staked (option_map standing j.last)) }
    ensures fault { IfErr result (λ fault. fault ≡ NoMemory) }
    ensures cost { steps.new ≤ steps.old + 2 * most }
{
    let mut validators = Vec::new(alloc);
    let last = list_first(&mut validators, staking, power_reduction, most, steps)?;
    Ok(Joining { validators, last })
}

/// Lists those of the first validators by power that are not bonded yet. Answers the place of the last that
/// it came to, where there was one.
fn list_first<L: Ledger>(
    list: &mut Vec<Validator>,
    staking: &Staking,
    power_reduction: u64,
    most: u64,
    steps: &mut Steps<L>,
) -> Result<Option<(u64, Addr)>, HookFault>
    requires none { list.old.items ≡ [] }
    requires sound { IsSoundStake staking.now.staked }
    requires power { staking.now.power_reduction ≡ power_reduction }
    requires some { 1 ≤ power_reduction }
    ensures joining { OnOk result (list.new.items
        ≡ joining_of power_reduction most (values_of staking.now.staked.validators)) }
    ensures set { IfOk result (λ last.
        TellsSet power_reduction most staking.now.staked (option_map standing last)) }
    ensures fault { IfErr result (λ fault. fault ≡ NoMemory) }
    ensures cost { steps.new ≤ steps.old + 2 * most }
{
    let mut last: Option<(u64, Addr)> = None;
    for _passed in 0..most {
        match next_behind(staking, &last, steps) {
            Some(v) => {
                list_new(list, v)?;
                last = Some(place_of(v, power_reduction));
            }
            None => return Ok(last),
        }
    }
    Ok(last)
}

/// The first validator by power behind this place, of all where there is none.
fn next_behind<'a, L: Ledger>(
    staking: &'a Staking,
    last: &Option<(u64, Addr)>,
    steps: &mut Steps<L>,
) -> Option<&'a Validator>
    ensures validator { option_copied result ≡ option_map (λ e. e.1) (entry_above standing_cmp
        (in_order standing_cmp (power_place staking.now.power_reduction)
        staking.now.staked.validators) (option_map standing last.now)) }
    ensures cost { steps.new ≤ steps.old + 2 }
{
    match last {
        Some((power, operator)) => staking.next_by_power(Some((*power, *operator)), steps),
        None => staking.next_by_power(None, steps),
    }
}

/// Those of the bonded validators, by operator, that are not within the last place of the set. The only error
/// is `NoMemory`.
fn who_leaves<L: Ledger>(
    alloc: Global,
    staking: &Staking,
    last: &Option<(u64, Addr)>,
    power_reduction: u64,
    steps: &mut Steps<L>,
) -> Result<Vec<Validator>, HookFault>
    requires sound { IsSoundStake staking.now.staked }
    requires power { staking.now.power_reduction ≡ power_reduction }
    requires some { 1 ≤ power_reduction }
    ensures leaving { (most : ℕ)
        → TellsSet power_reduction most staking.now.staked (option_map standing last.now)
        → IfOk result (λ vs. vs.items
        ≡ leaving_of power_reduction most (values_of staking.now.staked.validators)) }
    ensures fault { IfErr result (λ fault. fault ≡ NoMemory) }
    ensures cost { steps.new ≤ steps.old + 2 * (count_where
        (λ v. is_bonded v.status) (values_of staking.now.staked.validators) + 1) }
{
    let mut leaving = Vec::new(alloc);
    let mut after: Option<Addr> = None;
    while let Some(v) = staking.next_bonded(after.as_ref(), steps) {
        list_outside(&mut leaving, v, last, power_reduction)?;
        after = Some(v.operator);
    }
    Ok(leaving)
}

/// Appends a validator that is not bonded.
fn list_new(list: &mut Vec<Validator>, v: &Validator) -> Result<(), HookFault>
    ensures ok { OnOk result (list.new.items
        ≡ list.old.items ++ filter (λ x. not (is_bonded x.status)) (v.now ∷ [])) }
    ensures fault { IfErr result (λ fault. fault ≡ NoMemory) }
{
    match v.status {
        BondStatus::Bonded => (),
        BondStatus::Unbonding | BondStatus::Unbonded => list.push(*v)?,
    }
    Ok(())
}

/// Appends a validator that is not within the last place of the set.
fn list_outside(
    list: &mut Vec<Validator>,
    v: &Validator,
    last: &Option<(u64, Addr)>,
    power_reduction: u64,
) -> Result<(), HookFault>
    requires some { 1 ≤ power_reduction }
    ensures ok { OnOk result (list.new.items ≡ list.old.items
        ++ filter (λ x. not (is_within power_reduction (option_map standing last.now) x)) (v.now ∷ [])) }
    ensures fault { IfErr result (λ fault. fault ≡ NoMemory) }
{
    if !is_within(v, last, power_reduction) {
        list.push(*v)?;
    }
    Ok(())
}

/// Whether a validator can be in the set, and is not behind its last place.
fn is_within(v: &Validator, last: &Option<(u64, Addr)>, power_reduction: u64) -> bool
    requires some { 1 ≤ power_reduction }
    ensures { result ≡ is_within power_reduction (option_map standing last.now) v.now }
{
    let power = power_of(v, power_reduction);
    if v.jailed || power == 0 {
        return false;
    }
    match last {
        Some((least, operator)) => {
            let order = power.cmp(&u128::from(*least));
            order.then(operator.cmp(&v.operator)) != Ordering::Less
        }
        None => false,
    }
}

/// The place of a validator by power.
fn place_of(v: &Validator, power_reduction: u64) -> (u64, Addr)
    requires some { 1 ≤ power_reduction }
    requires tokens { v.now.tokens ≤ 10 ^ 18 }
    ensures { standing result ≡ place power_reduction v.now }
{
    (power_of(v, power_reduction) as u64, v.operator)
}

/// The power of a validator: its tokens by those of one unit of power, cut (`Validator.ConsensusPower`).
fn power_of(v: &Validator, power_reduction: u64) -> u128
    requires some { 1 ≤ power_reduction }
    ensures { result ≡ power_of power_reduction v.now }
{
    v.tokens / u128::from(power_reduction)
}
