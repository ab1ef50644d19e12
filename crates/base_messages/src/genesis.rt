//! The genesis of a chain: its parameters, accounts, validators and delegations.

ghost use Rattle.std.specs.Prelude.{⊤};

use base_coins::Coins;
use base_decimals::Dec;
use base_roles::{Listed, Params};
use base_types::{Account, Addr, ConsAddr, Copied, Moment, TableFault};

/// What a chain starts from: accounts with their coins, validators, and delegations to them at one token a
/// share.
#[derive(Debug, Drop)]
pub struct Genesis {
    pub time: Moment,
    pub params: Params,
    pub accounts: Listed<GenesisAccount>,
    pub validators: Listed<GenesisValidator>,
    pub delegations: Listed<GenesisDelegation>,
}

/// An account and what it holds.
#[derive(Debug, Drop)]
pub struct GenesisAccount {
    pub address: Account,
    pub coins: Coins,
}

/// A validator, without tokens yet. The rates are parts of one.
#[derive(Clone, Copy, Debug, PartialEq, Eq)]
pub struct GenesisValidator {
    pub operator: Addr,
    pub cons: ConsAddr,
    pub rate: Dec,
    pub max_rate: Dec,
    pub max_change_rate: Dec,
    /// In units of the bond denomination.
    pub min_self_delegation: u128,
}

/// A delegation to a validator of the genesis.
#[derive(Clone, Copy, Debug, PartialEq, Eq)]
pub struct GenesisDelegation {
    pub delegator: Addr,
    /// The validator's operator.
    pub validator: Addr,
    /// In units of the bond denomination.
    pub amount: u128,
}

impl Copied for GenesisAccount {
    fn copied(&self) -> Result<GenesisAccount, TableFault> {
        Ok(GenesisAccount {
            address: self.address,
            coins: self.coins.copied()?,
        })
    }
}

impl Copied for GenesisValidator {
    ghost is_infallible = { ⊤ };

    fn copied(&self) -> Result<GenesisValidator, TableFault> {
        Ok(*self)
    }
}

impl Copied for GenesisDelegation {
    ghost is_infallible = { ⊤ };

    fn copied(&self) -> Result<GenesisDelegation, TableFault> {
        Ok(*self)
    }
}

impl Copied for Genesis {
    fn copied(&self) -> Result<Genesis, TableFault> {
        Ok(Genesis {
            time: self.time,
            params: self.params,
            accounts: self.accounts.copied()?,
            validators: self.validators.copied()?,
            delegations: self.delegations.copied()?,
        })
    }
}
