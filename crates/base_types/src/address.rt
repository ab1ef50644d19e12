//! Accounts, addresses of users and consensus addresses, read from text and printed.

ghost use Rattle.std.specs.Prelude.{◌≡◌, Some, None, IfOk, IfErr, string_bytes};
ghost use Rattle.base_types.specs.Address.{address_of, address_text, user_of};
ghost use Rattle.base_types.specs.Accounts.{account_of, account_text};

use crate::account::{Account, Addr};
use crate::cons::ConsAddr;
use crate::digits::read_bytes;
use crate::fault::TextFault;
use std::alloc::Global;

/// Reads an account: forty hexadecimal digits with small letters, which may be a module's address.
/// `BadAddress` comes exactly at any other text. Takes no memory.
pub fn read_account(text: &str) -> Result<Account, TextFault>
    ensures found { IfOk result (λ account. account_of text.now ≡ Some account) }
    ensures only { IfErr result
        (λ fault. (fault ≡ TextFault.BadAddress) × (account_of text.now ≡ None)) }
{
    match read_bytes(text) {
        Some(bytes) => Ok(Account::of(bytes)),
        None => Err(TextFault::BadAddress),
    }
}

/// Reads the address of a user: forty hexadecimal digits with small letters. `BadAddress` comes exactly
/// at any other text, and at a module's address. Takes no memory.
pub fn read_addr(text: &str) -> Result<Addr, TextFault>
    ensures found { IfOk result (λ addr. user_of text.now ≡ Some addr) }
    ensures only { IfErr result
        (λ fault. (fault ≡ TextFault.BadAddress) × (user_of text.now ≡ None)) }
{
    let Some(bytes) = read_bytes(text) else {
        return Err(TextFault::BadAddress);
    };
    match Addr::of(bytes) {
        Some(addr) => Ok(addr),
        None => Err(TextFault::BadAddress),
    }
}

/// Reads a consensus address: forty hexadecimal digits with small letters. `BadAddress` comes exactly at
/// any other text. Takes no memory.
pub fn read_cons(text: &str) -> Result<ConsAddr, TextFault>
    ensures found { IfOk result (λ cons. address_of text.now ≡ Some cons) }
    ensures only { IfErr result
        (λ fault. (fault ≡ TextFault.BadAddress) × (address_of text.now ≡ None)) }
{
    match read_bytes(text) {
        Some(bytes) => Ok(ConsAddr::of(bytes)),
        None => Err(TextFault::BadAddress),
    }
}

/// Prints a user's account as forty hexadecimal digits with small letters, and a module's by its name.
/// The only error is `NoMemory`.
pub fn print_account(alloc: Global, account: &Account) -> Result<String, TextFault>
    ensures text { IfOk result (λ text. string_bytes text ≡ account_text account.now) }
    ensures fault { IfErr result (λ fault. fault ≡ TextFault.NoMemory) }
{
    let text = match account {
        Account::User(addr) => hex::encode(alloc, addr.bytes())?,
        Account::Module(module) => String::from_str(alloc, module.name())?,
    };
    Ok(text)
}

/// Prints a consensus address as forty hexadecimal digits with small letters. The only error is
/// `NoMemory`.
pub fn print_cons(alloc: Global, cons: &ConsAddr) -> Result<String, TextFault>
    ensures text { IfOk result (λ text. string_bytes text ≡ address_text cons.now) }
    ensures fault { IfErr result (λ fault. fault ≡ TextFault.NoMemory) }
{
    let text = hex::encode(alloc, cons.bytes())?;
    Ok(text)
}
