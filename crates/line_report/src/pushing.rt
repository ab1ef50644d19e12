//! The lines of the groups of the report.
ghost use Rattle.std.specs.Prelude.{◌≡◌, ◌++◌, map, IfErr, OnOk};
ghost use Rattle.std.specs.List.{flat_map};
ghost use Rattle.std.specs.Map.{values_of};
ghost use Rattle.line_json.specs.Line.{line_of};
ghost use Rattle.line_report.specs.Groups.{purse_at, with_purses};
ghost use Rattle.line_report.specs.Lines.{delegation_line, pending_line, redelegation_line, redelegation_lines, signing_line, text_of, unbonding_line, unbonding_lines, validator_line};
ghost use Rattle.line_report.specs.Seen.{seen};

use crate::lines::{
    push_delegation, push_pending, push_redelegation, push_signing, push_unbonding, push_validator,
};
use base_bech32::Form;
use base_coins::DecCoins;
use base_decimals::Dec;
use base_messages::{LineFault, Pending};
use base_roles::{Purse, RedelegationEntry, SigningInfo, UnbondingEntry, Validator};
use base_types::{Addr, ConsAddr};
use std::alloc::Global;
use std::collections::BTreeMap;

/// Appends the line of a validator with the purse of its operator, if there is one.
fn push_with_purse(
    form: Form,
    alloc: Global,
    out: &mut Vec<u8>,
    operator: &Addr,
    validator: &Validator,
    purses: &BTreeMap<Addr, &Purse>,
) -> Result<(), LineFault>
    ensures ok { OnOk result (out.new.items ≡ out.old.items
        ++ line_of (validator_line form
        (validator.now, purse_at (seen purses.now.entries) operator.now))) }
    ensures fault { IfErr result (λ fault. fault ≡ LineFault.NoMemory) }
{
    match purses.get(operator) {
        Some(purse) => push_validator(
            form,
            alloc,
            out,
            validator,
            &purse.commission,
            &purse.outstanding,
        ),
        None => {
            let nothing = DecCoins::new(alloc);
            push_validator(form, alloc, out, validator, &nothing, &nothing)
        }
    }
}

/// Appends a line for each validator.
pub(crate) fn push_validators(
    form: Form,
    alloc: Global,
    out: &mut Vec<u8>,
    validators: &BTreeMap<Addr, &Validator>,
    purses: &BTreeMap<Addr, &Purse>,
) -> Result<(), LineFault>
    ensures ok { OnOk result (out.new.items ≡ out.old.items ++ text_of (map (validator_line form)
        (with_purses (seen purses.now.entries) (seen validators.now.entries)))) }
    ensures fault { IfErr result (λ fault. fault ≡ LineFault.NoMemory) }
{
    for (operator, validator) in validators {
        push_with_purse(form, alloc, out, operator, validator, purses)?;
    }
    Ok(())
}

/// Appends a line for each delegation.
pub(crate) fn push_delegations(
    form: Form,
    alloc: Global,
    out: &mut Vec<u8>,
    delegations: &BTreeMap<(Addr, Addr), Dec>,
) -> Result<(), LineFault>
    ensures ok { OnOk result (out.new.items
        ≡ out.old.items ++ text_of (map (delegation_line form) delegations.now.entries)) }
    ensures fault { IfErr result (λ fault. fault ≡ LineFault.NoMemory) }
{
    for (who, shares) in delegations {
        push_delegation(form, alloc, out, &who.0, &who.1, *shares)?;
    }
    Ok(())
}

/// Appends a line for each pending reward.
pub(crate) fn push_rewards(
    form: Form,
    alloc: Global,
    out: &mut Vec<u8>,
    rewards: &BTreeMap<(Addr, Addr), &Pending>,
) -> Result<(), LineFault>
    ensures ok { OnOk result (out.new.items
        ≡ out.old.items ++ text_of (map (pending_line form) (values_of (seen rewards.now.entries)))) }
    ensures fault { IfErr result (λ fault. fault ≡ LineFault.NoMemory) }
{
    for (_, reward) in rewards {
        push_pending(form, alloc, out, reward)?;
    }
    Ok(())
}

/// Appends a line for each unbonding entry of a delegator and an operator.
fn push_unbonding_entries(
    form: Form,
    alloc: Global,
    out: &mut Vec<u8>,
    who: &(Addr, Addr),
    entries: &[UnbondingEntry],
) -> Result<(), LineFault>
    ensures ok { OnOk result (out.new.items
        ≡ out.old.items ++ text_of (map (unbonding_line form who.now) entries.now)) }
    ensures fault { IfErr result (λ fault. fault ≡ LineFault.NoMemory) }
{
    for entry in entries {
        push_unbonding(form, alloc, out, &who.0, &who.1, entry)?;
    }
    Ok(())
}

/// Appends a line for each unbonding entry.
pub(crate) fn push_unbondings(
    form: Form,
    alloc: Global,
    out: &mut Vec<u8>,
    unbondings: &BTreeMap<(Addr, Addr), &[UnbondingEntry]>,
) -> Result<(), LineFault>
    ensures ok { OnOk result (out.new.items
        ≡ out.old.items ++ text_of (flat_map (unbonding_lines form) (seen unbondings.now.entries))) }
    ensures fault { IfErr result (λ fault. fault ≡ LineFault.NoMemory) }
{
    for (who, entries) in unbondings {
        push_unbonding_entries(form, alloc, out, who, entries)?;
    }
    Ok(())
}

/// Appends a line for each redelegation entry of a delegator, a source and a target.
fn push_redelegation_entries(
    form: Form,
    alloc: Global,
    out: &mut Vec<u8>,
    who: &(Addr, Addr, Addr),
    entries: &[RedelegationEntry],
) -> Result<(), LineFault>
    ensures ok { OnOk result (out.new.items
        ≡ out.old.items ++ text_of (map (redelegation_line form who.now) entries.now)) }
    ensures fault { IfErr result (λ fault. fault ≡ LineFault.NoMemory) }
{
    for entry in entries {
        push_redelegation(form, alloc, out, &who.0, &who.1, &who.2, entry)?;
    }
    Ok(())
}

/// Appends a line for each redelegation entry.
pub(crate) fn push_redelegations(
    form: Form,
    alloc: Global,
    out: &mut Vec<u8>,
    redelegations: &BTreeMap<(Addr, Addr, Addr), &[RedelegationEntry]>,
) -> Result<(), LineFault>
    ensures ok { OnOk result (out.new.items
        ≡ out.old.items ++ text_of (flat_map (redelegation_lines form) (seen redelegations.now.entries))) }
    ensures fault { IfErr result (λ fault. fault ≡ LineFault.NoMemory) }
{
    for (who, entries) in redelegations {
        push_redelegation_entries(form, alloc, out, who, entries)?;
    }
    Ok(())
}

/// Appends a line for each signing record.
pub(crate) fn push_signing_records(
    form: Form,
    alloc: Global,
    out: &mut Vec<u8>,
    records: &BTreeMap<ConsAddr, SigningInfo>,
) -> Result<(), LineFault>
    ensures ok { OnOk result (out.new.items
        ≡ out.old.items ++ text_of (map (signing_line form) records.now.entries)) }
    ensures fault { IfErr result (λ fault. fault ≡ LineFault.NoMemory) }
{
    for (cons, info) in records {
        push_signing(form, alloc, out, cons, info)?;
    }
    Ok(())
}
