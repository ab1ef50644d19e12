//! Parameters that change.

ghost use Rattle.std.specs.Prelude.{◌≡◌, ◌==◌, OnOk};
ghost use Rattle.std.specs.BTreeMap.{is_at};
ghost use Rattle.base_types.specs.Orders.{denom_cmp};
ghost use Rattle.rule_modules.specs.Chain.{State};
ghost use Rattle.rule_modules.specs.Parameters.{fixed_changed, may_update, update_params};
ghost use Rattle.chain_modules.specs.Kept.{StandsWhole, kept_of, AreSteady, listener_of};
ghost use Rattle.chain_modules.specs.Marks.{MessagesGoOn};
ghost use Rattle.chain_transactions.specs.Answers.{MessageEnds};

use base_messages::UpdateParams;
use base_roles::{Extra, Fact, MessageFault, Params, Refusal};
use base_types::{Addr, Denom, Steps};
use chain_modules::Modules;
use mod_entries::is_same;
use std::cmp::Ordering;
use std::sync::ledger::Ledger;

/// The authority replaces the parameters, at once (the `MsgUpdateParams` of `x/staking`, `x/distribution` and
/// `x/slashing`, as one message). Where the window changes, each signing record keeps the last votes that both
/// windows hold.
///
/// It is refused as `NotAuthority` where the sender is not the present authority, else as `ParamRange` with the
/// first parameter that is out of its range, else as `ParamFixed` with the first that never changes and would: the
/// bond denomination, or the power reduction.
pub(crate) fn update_params<E: Extra, L: Ledger>(
    modules: &mut Modules<E>,
    m: &UpdateParams,
    steps: &mut Steps<L>,
) -> Result<(), MessageFault>
    requires steady { AreSteady modules.old }
    ensures ends { (p : State) → StandsWhole (kept_of modules.old) p → MessageEnds
        (update_params m.now.authority m.now.params p) (kept_of modules.new) result }
    ensures steady { OnOk result (AreSteady modules.new) }

    // Whatever the answer.
    ensures go_on { MessagesGoOn modules.old modules.new }
    ensures listener { listener_of modules.new ≡ listener_of modules.old }
{
    may_update(&m.authority, &modules.ground.ctx.params, &m.params)?;
    modules
        .hooks
        .second
        .resize(m.params.signed_blocks_window, steps)?;
    modules.ground.facts.push(Fact::ParamsChanged {
        authority: m.authority,
    })?;
    modules.ground.ctx.params = m.params;
    Ok(())
}

/// What refuses to let an address replace parameters by others.
fn may_update(authority: &Addr, old: &Params, new: &Params) -> Result<(), Refusal>
    ensures { result ≡ may_update authority.now old.now new.now }
{
    if !is_same(authority, &old.authority) {
        return Err(Refusal::NotAuthority);
    }
    if let Some(number) = new.out_of_range() {
        return Err(Refusal::ParamRange(number));
    }
    if let Some(number) = fixed_changed(old, new) {
        return Err(Refusal::ParamFixed(number));
    }
    Ok(())
}

/// The first parameter that never changes and would, by the number by which lines name it.
fn fixed_changed(old: &Params, new: &Params) -> Option<u16>
    ensures { result ≡ fixed_changed old.now new.now }
{
    if !is_one(&old.bond_denom, &new.bond_denom) {
        return Some(10);
    }
    if !is_equal(old.power_reduction, new.power_reduction) {
        return Some(11);
    }
    None
}

/// Whether two denominations are one.
fn is_one(denom: &Denom, other: &Denom) -> bool
    ensures { result ≡ is_at (denom_cmp denom.now) other.now }
{
    denom.cmp(other) == Ordering::Equal
}

/// Whether two numbers are equal.
fn is_equal(number: u64, other: u64) -> bool
    ensures { result ≡ (number == other) }
{
    number == other
}
