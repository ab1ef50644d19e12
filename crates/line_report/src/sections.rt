//! The sections of the report, from the items and the pending rewards.
ghost use Rattle.std.specs.Prelude.{◌≡◌, ◌++◌, map, IfErr, OnOk};
ghost use Rattle.std.specs.List.{flat_map};
ghost use Rattle.line_json.specs.Line.{line_of};
ghost use Rattle.line_report.specs.Groups.{accounts_of, delegations_of, pending_of, pool_of, redelegations_of, signing_of, supply_of, unbondings_of, validators_of};
ghost use Rattle.line_report.specs.Lines.{account_line, delegation_line, pending_line, pool_line, redelegation_lines, signing_line, supply_line, text_of, unbonding_lines, validator_line};

use crate::accounts::push_accounts;
use crate::asked::Asked;
use crate::groups::{
    balances, delegations, pending_rewards, pool, purses, redelegations, signing_records, supplies,
    unbondings, validators,
};
use crate::lines::{push_pool, push_supply};
use crate::pushing::{
    push_delegations, push_redelegations, push_rewards, push_signing_records, push_unbondings,
    push_validators,
};
use base_bech32::Form;
use base_coins::DecCoins;
use base_messages::{LineFault, Pending};
use base_roles::Item;
use std::alloc::Global;

/// The supply.
pub(crate) fn supply(alloc: Global, out: &mut Vec<u8>, items: &[Item]) -> Result<(), LineFault>
    ensures ok { OnOk result (out.new.items
        ≡ out.old.items ++ line_of (supply_line (supply_of items.now))) }
    ensures fault { IfErr result (λ fault. fault ≡ LineFault.NoMemory) }
{
    push_supply(alloc, out, &supplies(alloc, items)?)
}

/// What accounts hold.
pub(crate) fn accounts(
    form: Form,
    alloc: Global,
    out: &mut Vec<u8>,
    asked: Asked,
    items: &[Item],
) -> Result<(), LineFault>
    ensures ok { OnOk result (out.new.items
        ≡ out.old.items ++ text_of (map (account_line form) (accounts_of asked items.now))) }
    ensures fault { IfErr result (λ fault. fault ≡ LineFault.NoMemory) }
{
    push_accounts(form, alloc, out, &balances(alloc, asked, items)?)
}

/// Validators with their purses.
pub(crate) fn validators_with_purses(
    form: Form,
    alloc: Global,
    out: &mut Vec<u8>,
    asked: Asked,
    items: &[Item],
) -> Result<(), LineFault>
    ensures ok { OnOk result (out.new.items
        ≡ out.old.items ++ text_of (map (validator_line form) (validators_of asked items.now))) }
    ensures fault { IfErr result (λ fault. fault ≡ LineFault.NoMemory) }
{
    let purses = purses(alloc, asked, items)?;
    push_validators(form, alloc, out, &validators(alloc, asked, items)?, &purses)
}

/// Delegations.
pub(crate) fn shares(
    form: Form,
    alloc: Global,
    out: &mut Vec<u8>,
    asked: Asked,
    items: &[Item],
) -> Result<(), LineFault>
    ensures ok { OnOk result (out.new.items
        ≡ out.old.items ++ text_of (map (delegation_line form) (delegations_of asked items.now))) }
    ensures fault { IfErr result (λ fault. fault ≡ LineFault.NoMemory) }
{
    push_delegations(form, alloc, out, &delegations(alloc, asked, items)?)
}

/// Pending rewards.
pub(crate) fn rewards(
    form: Form,
    alloc: Global,
    out: &mut Vec<u8>,
    asked: Asked,
    pending: &[Pending],
) -> Result<(), LineFault>
    ensures ok { OnOk result (out.new.items
        ≡ out.old.items ++ text_of (map (pending_line form) (pending_of asked pending.now))) }
    ensures fault { IfErr result (λ fault. fault ≡ LineFault.NoMemory) }
{
    push_rewards(form, alloc, out, &pending_rewards(alloc, asked, pending)?)
}

/// Unbonding entries.
pub(crate) fn unbonding_entries(
    form: Form,
    alloc: Global,
    out: &mut Vec<u8>,
    asked: Asked,
    items: &[Item],
) -> Result<(), LineFault>
    ensures ok { OnOk result (out.new.items
        ≡ out.old.items ++ text_of (flat_map (unbonding_lines form) (unbondings_of asked items.now))) }
    ensures fault { IfErr result (λ fault. fault ≡ LineFault.NoMemory) }
{
    push_unbondings(form, alloc, out, &unbondings(alloc, asked, items)?)
}

/// Redelegation entries.
pub(crate) fn redelegation_entries(
    form: Form,
    alloc: Global,
    out: &mut Vec<u8>,
    asked: Asked,
    items: &[Item],
) -> Result<(), LineFault>
    ensures ok { OnOk result (out.new.items
        ≡ out.old.items ++ text_of (flat_map (redelegation_lines form)
        (redelegations_of asked items.now))) }
    ensures fault { IfErr result (λ fault. fault ≡ LineFault.NoMemory) }
{
    push_redelegations(form, alloc, out, &redelegations(alloc, asked, items)?)
}

/// Signing records.
pub(crate) fn votes(
    form: Form,
    alloc: Global,
    out: &mut Vec<u8>,
    asked: Asked,
    items: &[Item],
) -> Result<(), LineFault>
    ensures ok { OnOk result (out.new.items
        ≡ out.old.items ++ text_of (map (signing_line form) (signing_of asked items.now))) }
    ensures fault { IfErr result (λ fault. fault ≡ LineFault.NoMemory) }
{
    push_signing_records(form, alloc, out, &signing_records(alloc, asked, items)?)
}

/// The community pool.
pub(crate) fn community_pool(
    alloc: Global,
    out: &mut Vec<u8>,
    items: &[Item],
) -> Result<(), LineFault>
    ensures ok { OnOk result (out.new.items
        ≡ out.old.items ++ line_of (pool_line (pool_of items.now))) }
    ensures fault { IfErr result (λ fault. fault ≡ LineFault.NoMemory) }
{
    match pool(items) {
        Some(coins) => push_pool(alloc, out, coins),
        None => push_pool(alloc, out, &DecCoins::new(alloc)),
    }
}
