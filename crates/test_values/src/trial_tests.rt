//! Each trait is called once, over the trial values.

ghost use Rattle.std.specs.Prelude.{◌≡◌, ◌<◌, ◌≤◌, ◌^◌};

use crate::checks::holds;
use crate::role_tests::empty_ground;
use crate::values::{dec, moment, user, validator};
use base_coins::DecCoins;
use base_decimals::Dec;
use base_roles::{
    Facts, HookFault, Item, NoHooks, Records, RedelegationSlash, Signers, SigningInfo, Slasher,
    Unbonder, UnbondingSlash, Validator, ValidatorView,
};
use base_roles_example::trials::{NoEntries, NoRecords, OneSigner, OneValidator};
use base_types::{ConsAddr, Steps};
use std::alloc::Global;
use std::marker::Brand;
use std::process::Abort;
use std::sync::ledger::{Blank, Ledger};

/// Whether nothing is slashed where there is no entry, nor at an unbonded validator, which can be jailed.
fn trials_are_slashed<L: Ledger>(rt: &(impl Abort + AllocGlobal), blank: Blank) -> bool
    requires name { blank.name ≡ L.name }
    requires parts { blank.parts ≡ L.parts }
    requires some { 0 < L.parts }
{
    let mut steps: Steps<L> = Steps::new(blank);
    let half = dec(rt, 500_000_000_000_000_000);
    let v = validator(rt, 0);
    let mut g = empty_ground(rt);
    let unbondings = NoEntries.slash_unbondings(
        rt.alloc(),
        &mut g,
        &v.operator,
        1,
        half,
        &mut steps,
    );
    let followed = NoEntries.slash_followed(
        rt.alloc(),
        &mut g,
        &v.operator,
        &v.operator,
        1,
        5,
        &mut steps,
    );
    let redelegations = redelegations_are_slashed(rt, &v, half, &mut steps);
    let validator = is_slashed(rt, &v, half, &mut steps) & is_jailed(rt, &v, &mut steps);
    (unbondings == Ok(0)) & (followed == Ok(0)) & redelegations & validator
}

/// Whether no redelegation is slashed where there is none.
fn redelegations_are_slashed<L: Ledger>(
    rt: &(impl Abort + AllocGlobal),
    v: &Validator,
    factor: Dec,
    steps: &mut Steps<L>,
) -> bool
    requires tokens { v.now.tokens ≡ 0 }
    requires factor { factor ≤ 10 ^ 18 }
{
    let mut g = empty_ground(rt);
    let mut one = one(rt, v);
    let slashed = NoEntries.slash_redelegations(
        rt.alloc(),
        &mut g,
        &mut NoHooks::new(),
        &mut one,
        &mut NoEntries,
        &v.operator,
        1,
        factor,
        steps,
    );
    slashed == Ok(0)
}

/// Whether the slash of a validator without tokens burns nothing.
fn is_slashed<L: Ledger>(
    rt: &(impl Abort + AllocGlobal),
    v: &Validator,
    factor: Dec,
    steps: &mut Steps<L>,
) -> bool
    requires tokens { v.now.tokens ≡ 0 }
    requires factor { factor ≤ 10 ^ 18 }
{
    let mut g = empty_ground(rt);
    let mut one = one(rt, v);
    one.slash(
        rt.alloc(),
        &mut g,
        &mut NoHooks::new(),
        &v.cons,
        1,
        1,
        factor,
        steps,
    ) == Ok(0)
}

/// Whether the validator is found and jailed, which is told.
fn is_jailed<L: Ledger>(
    rt: &(impl Abort + AllocGlobal),
    v: &Validator,
    steps: &mut Steps<L>,
) -> bool {
    let mut facts = Facts::new(rt.alloc());
    let mut one = one(rt, v);
    if one.by_cons(&v.cons, steps).is_none() {
        return false;
    }
    let done = one.jail(rt.alloc(), &mut facts, &v.cons, steps);
    done == Ok(())
        && facts.len() == 1
        && one.validator(&v.operator, steps).is_some_and(|v| v.jailed)
}

/// The validator, with a delegation of one share.
fn one(rt: &impl Abort, v: &Validator) -> OneValidator
    ensures validator { result.validator ≡ v.now }
    ensures spare { result.spare ≡ None }
{
    OneValidator {
        validator: *v,
        spare: None,
        delegator: user(rt, 7),
        shares: dec(rt, 1_000_000_000_000_000_000),
    }
}

/// Whether memory is wanting where the one delegation is unbonded.
fn wants_memory<L: Ledger>(rt: &(impl Abort + AllocGlobal), blank: Blank) -> bool
    requires name { blank.name ≡ L.name }
    requires parts { blank.parts ≡ L.parts }
    requires some { 0 < L.parts }
{
    let mut steps: Steps<L> = Steps::new(blank);
    let v = validator(rt, 0);
    let mut g = empty_ground(rt);
    let mut one = one(rt, &v);
    let delegator = user(rt, 7);
    match one.shares_of(&delegator, &v.operator, &mut steps) {
        Some(shares) => one.unbond(
            rt.alloc(),
            &mut g,
            &mut NoHooks::new(),
            &delegator,
            &v.operator,
            shares,
            &mut steps,
        ) == Err(HookFault::NoMemory),
        None => false,
    }
}

/// Whether one signer can be banned.
fn is_banned<L: Ledger>(rt: &(impl Abort + AllocGlobal), blank: Blank) -> bool
    requires name { blank.name ≡ L.name }
    requires parts { blank.parts ≡ L.parts }
    requires some { 0 < L.parts }
{
    let mut steps: Steps<L> = Steps::new(blank);
    let cons = ConsAddr::of([9; 20]);
    let mut signer = OneSigner {
        cons,
        info: SigningInfo {
            start: 1,
            counted: 0,
            missed: 0,
            jailed_until: moment(rt, 0),
            tombstoned: false,
        },
    };
    let is_other = signer.info(&ConsAddr::of([8; 20]), &mut steps).is_none();
    let is_known = signer.info(&cons, &mut steps).is_some();
    let done = signer.ban(rt.alloc(), &cons, moment(rt, 5), &mut steps);
    let is_jailed = signer.info.tombstoned & (signer.info.jailed_until == moment(rt, 5));
    is_other & is_known & (done == Ok(())) & is_jailed
}

/// Whether the marks of a module without records nest, and it lists nothing.
fn marks_nest<L: Ledger>(rt: &(impl Abort + AllocGlobal), blank: Blank) -> bool
    requires name { blank.name ≡ L.name }
    requires parts { blank.parts ≡ L.parts }
    requires some { 0 < L.parts }
{
    let mut steps: Steps<L> = Steps::new(blank);
    let mut none = NoRecords { open: 0 };
    none.mark(rt.alloc(), &mut steps).expect(rt, "a mark");
    none.mark(rt.alloc(), &mut steps).expect(rt, "a mark");
    let mut items = Vec::new(rt.alloc());
    none.items_into(&mut items, &mut steps).expect(rt, "items");
    let mut changes = Vec::new(rt.alloc());
    let told = none.changes_into(&mut changes, &mut steps);
    told.expect(rt, "changes");
    let pool = Item::Pool {
        coins: DecCoins::new(rt.alloc()),
    };
    let loaded = none
        .load(rt.alloc(), &pool, &mut steps)
        .expect(rt, "an item");
    none.back(&mut steps);
    none.forget(&mut steps);
    none.settle(&mut steps);
    (items.len() == 0) & (changes.len() == 0) & !loaded & (none.open == 0)
}

#[test]
fn each_trait_has_a_value(rt: HostRuntime) {
    holds(
        &rt,
        "slashed",
        trials_are_slashed::<Brand>(&rt, Blank::new(1)),
    );
    holds(&rt, "no memory", wants_memory::<Brand>(&rt, Blank::new(1)));
    holds(&rt, "banned", is_banned::<Brand>(&rt, Blank::new(1)));
    holds(&rt, "marks", marks_nest::<Brand>(&rt, Blank::new(1)));
}
