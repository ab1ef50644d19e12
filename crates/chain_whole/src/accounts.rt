//! The accounts of a genesis: none may be a module's or stand twice.

ghost use Rattle.std.specs.Prelude.{◌≡◌, map, All, IfOk, IfErr, OnOk};
ghost use Rattle.std.specs.List.{list_any};
ghost use Rattle.base_coins.specs.Coins.{IsMoney};
ghost use Rattle.rule_modules.specs.Withdrawals.{is_module};
ghost use Rattle.rule_machine.specs.Genesis.{has_wrong_account};

use crate::fault::ChainFault;
use base_coins::Coins;
use base_lists::has_repeat;
use base_messages::GenesisAccount;
use base_types::{Account, Copied};
use std::alloc::{AllocError, Global};

/// Whether an account is a module's.
fn has_module(accounts: &[GenesisAccount]) -> bool
    ensures { result ≡ list_any (λ a. is_module a.address) accounts.now }
{
    accounts
        .iter()
        .any(|account| matches!(account.address, Account::Module(_)))
}

/// The addresses of accounts, in their order.
fn addresses_of(alloc: Global, accounts: &[GenesisAccount]) -> Result<Vec<Account>, AllocError>
    ensures { IfOk result (λ keys. keys.items ≡ map (λ a. a.address) accounts.now) }
{
    accounts.iter().map(|a| a.address).collect(alloc)
}

/// Whether an account is a module's or stands twice.
pub(crate) fn has_wrong_account(
    alloc: Global,
    accounts: &[GenesisAccount],
) -> Result<bool, AllocError>
    ensures { IfOk result (λ wrong. wrong ≡ has_wrong_account accounts.now) }
{
    if has_module(accounts) {
        return Ok(true);
    }
    has_repeat(alloc, &addresses_of(alloc, accounts)?)
}

/// Each account's address with a copy of its coins.
pub(crate) fn holders(
    alloc: Global,
    accounts: &[GenesisAccount],
) -> Result<Vec<(Account, Coins)>, ChainFault>
    ensures pairs { IfOk result
        (λ pairs. pairs.items ≡ map (λ a. (a.address, a.coins)) accounts.now) }
    ensures money { OnOk result (All (λ a. IsMoney a.coins) accounts.now) }
    ensures fault { IfErr result (λ fault. fault ≡ ChainFault.NoMemory) }
{
    let mut pairs = Vec::new(alloc);
    for account in accounts {
        // It tells that the coins are in order.
        let _ = account.coins.len();
        pairs.push((account.address, account.coins.copied()?))?;
    }
    Ok(pairs)
}
