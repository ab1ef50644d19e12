//! The genesis of the generated input. Nothing of it is drawn.
ghost use Rattle.std.specs.Prelude.{◌≡◌, ◌<◌, ◌^◌, ℕ, map, IfErr, IfOk};
ghost use Rattle.run_generated.specs.Drawing.{numbers_from};
ghost use Rattle.run_generated.specs.Input.{account_at, delegation_at, first_genesis, parameters, validator_at};

use crate::names::{address, coins_of, signer, time_at, uatom};
use base_decimals::Dec;
use base_messages::{Genesis, GenesisAccount, GenesisDelegation, GenesisValidator, LineFault};
use base_roles::{Listed, Params};
use base_types::Account;
use std::alloc::Global;

/// How many users there are.
const USERS: u8 = 40;

/// How many of them are operators.
const OPERATORS: u8 = 10;

/// So many units of 10^-18.
fn part(raw: u128) -> Dec
    requires { raw < 10 ^ 38 }
    ensures { result ≡ raw }
{
    Dec::from_raw(raw).unwrap()
}

/// The parameters.
fn parameters() -> Params
    ensures { result ≡ parameters }
{
    Params {
        bond_denom: uatom(),
        power_reduction: 1_000_000,
        unbonding_time: 1_000,
        max_validators: 8,
        max_entries: 7,
        min_commission_rate: part(0),
        community_tax: part(20_000_000_000_000_000),
        withdraw_addr_enabled: true,
        signed_blocks_window: 100,
        min_signed_per_window: part(500_000_000_000_000_000),
        downtime_jail_duration: 600,
        slash_fraction_double_sign: part(50_000_000_000_000_000),
        slash_fraction_downtime: part(100_000_000_000_000),
        max_age_duration: 172_800,
        max_age_num_blocks: 100_000,
        authority: address(39),
    }
}

/// What a genesis has one of for each number.
trait Numbered: Drop {
    // the one of a number
    ghost value_at: { ℕ → Self };

    /// The one of this number. The only error is `NoMemory`.
    fn at(alloc: Global, number: u8) -> Result<Self, LineFault>
        ensures value { IfOk result (λ value. value ≡ value_at number) }
        ensures fault { IfErr result (λ fault. fault ≡ LineFault.NoMemory) };
}

impl Numbered for GenesisAccount {
    ghost value_at = { account_at };

    fn at(alloc: Global, number: u8) -> Result<GenesisAccount, LineFault> {
        let held = coins_of(alloc, 1_000_000_000)?;
        Ok(GenesisAccount {
            address: Account::User(address(number)),
            coins: held,
        })
    }
}

impl Numbered for GenesisValidator {
    ghost value_at = { validator_at };

    fn at(_alloc: Global, number: u8) -> Result<GenesisValidator, LineFault> {
        Ok(GenesisValidator {
            operator: address(number),
            cons: signer(number),
            rate: part(100_000_000_000_000_000),
            max_rate: part(500_000_000_000_000_000),
            max_change_rate: part(100_000_000_000_000_000),
            min_self_delegation: 1,
        })
    }
}

impl Numbered for GenesisDelegation {
    ghost value_at = { delegation_at };

    fn at(_alloc: Global, number: u8) -> Result<GenesisDelegation, LineFault> {
        Ok(GenesisDelegation {
            delegator: address(number),
            validator: address(number),
            amount: 10_000_000,
        })
    }
}

/// Those of the first numbers. The only error is `NoMemory`.
fn first<T: Numbered>(alloc: Global, many: u8) -> Result<Listed<T>, LineFault>
    ensures list { IfOk result (λ list. list ≡ map T.value_at (numbers_from 0 many)) }
    ensures fault { IfErr result (λ fault. fault ≡ LineFault.NoMemory) }
{
    let mut list = Vec::new(alloc);
    for number in 0..many {
        let value = T::at(alloc, number)?;
        list.push(value)?;
    }
    Ok(Listed::of(list))
}

/// The genesis of the generated input: forty users with 1,000,000,000 each, of whom the first ten are operators with a
/// delegation of 10,000,000 each. The only error is `NoMemory`.
pub fn first_genesis(alloc: Global) -> Result<Genesis, LineFault>
    ensures genesis { IfOk result (λ genesis. genesis ≡ first_genesis) }
    ensures fault { IfErr result (λ fault. fault ≡ LineFault.NoMemory) }
{
    let accounts = first::<GenesisAccount>(alloc, USERS)?;
    let validators = first::<GenesisValidator>(alloc, OPERATORS)?;
    let delegations = first::<GenesisDelegation>(alloc, OPERATORS)?;
    Ok(Genesis {
        time: time_at(0),
        params: parameters(),
        accounts,
        validators,
        delegations,
    })
}
