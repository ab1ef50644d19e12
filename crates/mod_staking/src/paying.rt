//! Coins of the bond denomination: those of a delegation, on their way to the account that holds a validator's
//! tokens, and those that a slash burns.

ghost use Rattle.std.specs.Prelude.{◌≡◌, ◌+◌, ◌<◌, ◌≤◌, ◌^◌, [], ◌∷◌, OnOk, IfOk, IfErr};
ghost use Rattle.base_types.specs.declared.account.Account.TheVariants as account;
ghost use Rattle.base_roles.specs.declared.faults.BankFault.TheVariants.{NoMemory};
ghost use Rattle.base_roles.specs.declared.faults.HookFault.TheVariants as hook;
ghost use Rattle.base_roles.specs.Ground.{seen, CanBeUndone};
ghost use Rattle.base_roles.specs.Holdings.{IsBacked, balance_of};
ghost use Rattle.base_roles.specs.World.{sent, burnt};
ghost use Rattle.rule_modules.specs.Amounts.{bond_coins};
ghost use Rattle.rule_modules.specs.Delegating.{paid_in};
ghost use Rattle.rule_modules.specs.Stakes.{pool_of};
ghost use Rattle.mod_staking.specs.Calls.{origin_of, CanPay, PaysAs};

use crate::origin::Origin;
use base_coins::{Coin, Coins};
use base_roles::{Bank, BankFault, Ground, HookFault, MessageFault, Refusal};
use base_types::{Account, Addr, BondStatus, Denom, Module, Steps};
use std::alloc::Global;
use std::sync::ledger::Ledger;

/// The account that holds the tokens of a validator of this status.
pub fn pool_of(status: BondStatus) -> Module
    ensures { result ≡ pool_of status }
{
    match status {
        BondStatus::Bonded => Module::Bonded,
        BondStatus::Unbonding | BondStatus::Unbonded => Module::NotBonded,
    }
}

/// Moves the coins of a delegation to the account of a validator of this status: from the delegator, who
/// may be short, or from the account of the origin, unless that is the same.
pub(crate) fn pay_in<B: Bank, L: Ledger>(
    alloc: Global,
    g: &mut Ground<B>,
    delegator: &Addr,
    status: BondStatus,
    amount: u128,
    origin: Origin,
    steps: &mut Steps<L>,
) -> Result<(), MessageFault>
    requires some { 0 < amount }
    requires backed { IsBacked (B.holdings g.old.bank) }
    requires enough { CanPay (origin_of origin) amount (seen B.holdings g.old) }
    ensures paid { PaysAs (paid_in (origin_of origin) delegator.now status amount
        (seen B.holdings g.old))
        (seen B.holdings g.new) result }
    ensures backed { IsBacked (B.holdings g.new.bank) }
    ensures undone { CanBeUndone B.marks g.old g.new }
    ensures bank { B.most_steps g.new.bank ≡ B.most_steps g.old.bank }
{
    match origin {
        Origin::Wallet => {
            let from = Account::User(*delegator);
            if g.bank.balance(&from, &g.ctx.params.bond_denom, steps) < amount {
                return Err(MessageFault::Refused(Refusal::InsufficientFunds));
            }
            let to = Account::Module(pool_of(status));
            send_bond(alloc, g, &from, &to, amount, steps)?;
        }
        Origin::Pool(status_of) => {
            let from = pool_of(status_of);
            if from != pool_of(status) {
                let from = Account::Module(from);
                let to = Account::Module(pool_of(status));
                send_bond(alloc, g, &from, &to, amount, steps)?;
            }
        }
    }
    Ok(())
}

/// Sends so much of the bond denomination, also nothing, from a module's account that has it. The only error
/// is `NoMemory`.
pub fn send_from<B: Bank, L: Ledger>(
    alloc: Global,
    g: &mut Ground<B>,
    from: Module,
    to: &Account,
    amount: u128,
    steps: &mut Steps<L>,
) -> Result<(), HookFault>
    requires backed { IsBacked (B.holdings g.old.bank) }
    requires enough { amount ≤ balance_of (B.holdings g.old.bank)
        (account.Module from) g.old.ctx.params.bond_denom }
    ensures sent { OnOk result (seen B.holdings g.new ≡ sent (account.Module from) to.now
        (bond_coins (seen B.holdings g.old) amount) (seen B.holdings g.old)) }
    ensures fault { IfErr result (λ fault. fault ≡ hook.NoMemory) }
    ensures backed { IsBacked (B.holdings g.new.bank) }
    ensures undone { CanBeUndone B.marks g.old g.new }
    ensures bank { B.most_steps g.new.bank ≡ B.most_steps g.old.bank }
    ensures cost { steps.new ≤ steps.old + B.most_steps g.old.bank }
{
    if amount == 0 {
        return Ok(());
    }
    let from = Account::Module(from);
    match send_bond(alloc, g, &from, to, amount, steps) {
        Ok(()) => Ok(()),
        Err(_) => Err(HookFault::NoMemory),
    }
}

/// Sends so much of the bond denomination from an account, which has it, to another. The only error is `NoMemory`.
fn send_bond<B: Bank, L: Ledger>(
    alloc: Global,
    g: &mut Ground<B>,
    from: &Account,
    to: &Account,
    amount: u128,
    steps: &mut Steps<L>,
) -> Result<(), BankFault>
    requires some { 0 < amount }
    requires backed { IsBacked (B.holdings g.old.bank) }
    requires enough { amount
        ≤ balance_of (B.holdings g.old.bank) from.now g.old.ctx.params.bond_denom }
    ensures sent { OnOk result (seen B.holdings g.new ≡ sent from.now to.now
        (bond_coins (seen B.holdings g.old) amount) (seen B.holdings g.old)) }
    ensures fault { IfErr result (λ fault. fault ≡ NoMemory) }
    ensures backed { IsBacked (B.holdings g.new.bank) }
    ensures undone { CanBeUndone B.marks g.old g.new }
    ensures bank { B.most_steps g.new.bank ≡ B.most_steps g.old.bank }
    ensures cost { steps.new ≤ steps.old + B.most_steps g.old.bank }
{
    let coins = coins_of(alloc, &g.ctx.params.bond_denom, amount)?;
    g.bank.send(alloc, &mut g.facts, from, to, &coins, steps)
}

/// So much of a denomination, as coins. The only error is `NoMemory`.
fn coins_of(alloc: Global, denom: &Denom, amount: u128) -> Result<Coins, BankFault>
    requires some { 0 < amount }
    requires most { amount < 10 ^ 38 }
    ensures coins { IfOk result (λ coins. coins ≡ (denom.now, amount) ∷ []) }
    ensures fault { IfErr result (λ fault. fault ≡ NoMemory) }
{
    let mut list = Vec::new(alloc);
    list.push(Coin {
        denom: *denom,
        amount,
    })?;
    match Coins::of(list) {
        Ok(coins) => Ok(coins),
        // It never comes: one denomination stands once.
        Err(_) => Err(BankFault::NoMemory),
    }
}

/// Burns so much of the bond denomination from a module's account, which has it. The only error is `NoMemory`.
pub fn burn_bond<B: Bank, L: Ledger>(
    alloc: Global,
    g: &mut Ground<B>,
    from: Module,
    amount: u128,
    steps: &mut Steps<L>,
) -> Result<(), HookFault>
    requires backed { IsBacked (B.holdings g.old.bank) }
    requires enough { amount ≤ balance_of (B.holdings g.old.bank)
        (account.Module from) g.old.ctx.params.bond_denom }
    ensures burnt { OnOk result (seen B.holdings g.new
        ≡ burnt from g.old.ctx.params.bond_denom amount (seen B.holdings g.old)) }
    ensures fault { IfErr result (λ fault. fault ≡ hook.NoMemory) }
    ensures backed { IsBacked (B.holdings g.new.bank) }
    ensures undone { CanBeUndone B.marks g.old g.new }
    ensures bank { B.most_steps g.new.bank ≡ B.most_steps g.old.bank }
{
    let coin = Coin {
        denom: g.ctx.params.bond_denom,
        amount,
    };
    match g.bank.burn(alloc, &mut g.facts, from, &coin, steps) {
        Ok(()) => Ok(()),
        Err(_) => Err(HookFault::NoMemory),
    }
}
