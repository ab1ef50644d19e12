//! Payments from the distribution account.

ghost use Rattle.std.specs.Prelude.{◌≡◌, ℕ, ◌≤◌, List, IfErr, OnOk};
ghost use Rattle.base_types.specs.declared.account.Account.TheVariants as account;
ghost use Rattle.base_types.specs.declared.account.Module.TheVariants as holder;
ghost use Rattle.base_coins.specs.Coins.{amount_of};
ghost use Rattle.base_roles.specs.declared.faults.HookFault.TheVariants.{NoMemory};
ghost use Rattle.base_roles.specs.Ground.{seen, CanBeUndone};
ghost use Rattle.base_roles.specs.Holdings.{IsBacked, balance_of};
ghost use Rattle.rule_modules.specs.Distribution.{paid_to};

use base_coins::Coins;
use base_roles::{Bank, Ground, HookFault};
use base_types::{Account, Addr, Module, Steps};
use std::alloc::Global;
use std::sync::ledger::Ledger;

/// Coins go from the distribution account, which has as many, to a user. The only error is `NoMemory`.
pub(crate) fn pay<B: Bank, L: Ledger>(
    alloc: Global,
    g: &mut Ground<B>,
    to: &Addr,
    coins: &Coins,
    steps: &mut Steps<L>,
) -> Result<(), HookFault>
    requires backed { IsBacked (B.holdings g.old.bank) }
    requires enough { (d : List ℕ) → amount_of coins.now d
        ≤ balance_of (B.holdings g.old.bank) (account.Module holder.Distribution) d }
    ensures paid { OnOk result (seen B.holdings g.new
        ≡ paid_to to.now coins.now (seen B.holdings g.old)) }
    ensures fault { IfErr result (λ fault. fault ≡ NoMemory) }
    ensures backed { IsBacked (B.holdings g.new.bank) }

    // Whatever the answer.
    ensures undone { CanBeUndone B.marks g.old g.new }
    ensures bank { B.most_steps g.new.bank ≡ B.most_steps g.old.bank }
{
    // It tells that this is a list of coins.
    let _ = coins.len();
    let from = Account::Module(Module::Distribution);
    match g.bank.send(
        alloc,
        &mut g.facts,
        &from,
        &Account::User(*to),
        coins,
        steps,
    ) {
        Ok(()) => Ok(()),
        Err(_) => Err(HookFault::NoMemory),
    }
}
