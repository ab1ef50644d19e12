//! The difference of what joined and left the bonded set, on its way between the staking accounts.

ghost use Rattle.std.specs.Prelude.{◌≡◌, ◌+◌, ◌-◌, ◌<◌, ◌≤◌, OnOk, IfErr};
ghost use Rattle.base_types.specs.declared.account.Account.TheVariants as account;
ghost use Rattle.base_types.specs.declared.account.Module.TheVariants as holder;
ghost use Rattle.base_roles.specs.declared.faults.HookFault.TheVariants.{NoMemory};
ghost use Rattle.base_roles.specs.Ground.{seen, CanBeUndone};
ghost use Rattle.base_roles.specs.Holdings.{IsBacked, balance_of};
ghost use Rattle.base_roles.specs.World.{sent};
ghost use Rattle.rule_modules.specs.Amounts.{bond_coins};
ghost use Rattle.rule_modules.specs.BondedSet.{difference_moved};

use base_roles::{Bank, Ground, HookFault};
use base_types::{Account, Module, Steps};
use mod_staking::send_from;
use std::alloc::Global;
use std::sync::ledger::Ledger;

/// Moves the difference of the tokens that joined and those that left between the staking accounts. The only
/// error is `NoMemory`.
pub(crate) fn move_difference<B: Bank, L: Ledger>(
    alloc: Global,
    g: &mut Ground<B>,
    joined: u128,
    left: u128,
    steps: &mut Steps<L>,
) -> Result<(), HookFault>
    requires backed { IsBacked (B.holdings g.old.bank) }
    requires not_bonded { joined - left ≤ balance_of (B.holdings g.old.bank)
        (account.Module holder.NotBonded) g.old.ctx.params.bond_denom }
    requires bonded { left - joined ≤ balance_of (B.holdings g.old.bank)
        (account.Module holder.Bonded) g.old.ctx.params.bond_denom }
    ensures moved { OnOk result (seen B.holdings g.new
        ≡ difference_moved joined left (seen B.holdings g.old)) }
    ensures fault { IfErr result (λ fault. fault ≡ NoMemory) }
    ensures backed { IsBacked (B.holdings g.new.bank) }
    ensures undone { CanBeUndone B.marks g.old g.new }
    ensures bank { B.most_steps g.new.bank ≡ B.most_steps g.old.bank }
    ensures cost { steps.new ≤ steps.old + B.most_steps g.old.bank }
{
    if left < joined {
        let more = joined - left;
        let to = Account::Module(Module::Bonded);
        return send_from(alloc, g, Module::NotBonded, &to, more, steps);
    }
    let less = left - joined;
    let to = Account::Module(Module::NotBonded);
    send_from(alloc, g, Module::Bonded, &to, less, steps)
}
