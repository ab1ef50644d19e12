//! Values of the traits that hold as little as can be.

ghost use Rattle.std.specs.Prelude.{ℕ, ◌∷◌, [], List, true, false, replicate, Ok, refl};
ghost use Rattle.base_roles.specs.Holdings.{no_holdings};
ghost use Rattle.base_roles.specs.Staked.{Staked};
ghost use Rattle.base_roles_example.specs.Trials.{staked_once, HasOne, jailed_by_cons, banned_by_cons};

use base_coins::{Coin, Coins};
use base_decimals::Dec;
use base_roles::{
    Bank, BankFault, Fact, Facts, Ground, HookFault, Item, RecordFault, Records, RedelegationSlash,
    Signers, SigningInfo, Slasher, StakingHooks, Unbonder, UnbondingSlash, Validator,
    ValidatorView,
};
use base_types::{Account, Addr, ConsAddr, Denom, Module, Moment, Steps};
use std::alloc::Global;
use std::cmp::Ordering;
use std::sync::ledger::Ledger;

/// A bank that holds nothing.
#[derive(Drop)]
pub struct EmptyBank;

impl Bank for EmptyBank {
    ghost holdings = { λ _. no_holdings };

    ghost spent = { λ _. false };

    ghost most_steps = { λ _. 0 };

    ghost Marks = { Unit {0} };

    ghost marks = { λ _. tt };

    fn balance<L: Ledger>(&self, _who: &Account, _denom: &Denom, _steps: &mut Steps<L>) -> u128 {
        0
    }

    fn supply<L: Ledger>(&self, _denom: &Denom, _steps: &mut Steps<L>) -> u128 {
        0
    }

    fn coins_of<L: Ledger>(
        &self,
        alloc: Global,
        _who: &Account,
        _steps: &mut Steps<L>,
    ) -> Result<Coins, BankFault> {
        match Coins::of(Vec::new(alloc)) {
            Ok(coins) => Ok(coins),
            Err(_) => Err(BankFault::NoMemory),
        }
    }

    fn send<L: Ledger>(
        &mut self,
        _alloc: Global,
        _facts: &mut Facts,
        _from: &Account,
        _to: &Account,
        coins: &Coins,
        _steps: &mut Steps<L>,
    ) -> Result<(), BankFault> {
        if coins.len() == 0 {
            Ok(())
        } else {
            Err(BankFault::Short)
        }
    }

    fn burn<L: Ledger>(
        &mut self,
        _alloc: Global,
        _facts: &mut Facts,
        _from: Module,
        coin: &Coin,
        _steps: &mut Steps<L>,
    ) -> Result<(), BankFault> {
        if coin.amount == 0 {
            Ok(())
        } else {
            Err(BankFault::Short)
        }
    }
}

/// One validator, and one delegation to it. There is room for another validator, which no call fills. It is
/// slashed as an unbonded one, and memory is always wanting where the delegation is unbonded.
#[derive(Drop)]
pub struct OneValidator {
    pub validator: Validator,
    pub spare: Option<Validator>,
    pub delegator: Addr,
    pub shares: Dec,
}

impl ValidatorView for OneValidator {
    ghost staked = { λ s. staked_once s.validator s.spare s.delegator s.shares };

    fn validator<L: Ledger>(&self, operator: &Addr, _steps: &mut Steps<L>) -> Option<&Validator> {
        match operator.cmp(&self.validator.operator) {
            Ordering::Equal => Some(&self.validator),
            _ => match &self.spare {
                Some(v) => match operator.cmp(&v.operator) {
                    Ordering::Equal => Some(v),
                    _ => None,
                },
                None => None,
            },
        }
    }

    fn by_cons<L: Ledger>(&self, cons: &ConsAddr, _steps: &mut Steps<L>) -> Option<&Validator> {
        match self.validator.cons.cmp(cons) {
            Ordering::Equal => Some(&self.validator),
            _ => match &self.spare {
                Some(v) => match v.cons.cmp(cons) {
                    Ordering::Equal => Some(v),
                    _ => None,
                },
                None => None,
            },
        }
    }
}

impl Unbonder for OneValidator {
    ghost Held = { Staked };

    ghost held = { λ s. staked_once s.validator s.spare s.delegator s.shares };

    ghost stake = { λ h. h };

    ghost sound = { λ h. Unit {0} };

    ghost unbonds = { λ H told delegator operator shares w. Ok (0, w) };

    ghost Marks = { Unit {0} };

    ghost marks = { λ _. tt };

    fn shares_of<L: Ledger>(
        &self,
        delegator: &Addr,
        operator: &Addr,
        _steps: &mut Steps<L>,
    ) -> Option<Dec> {
        match (operator, delegator).cmp(&(&self.validator.operator, &self.delegator)) {
            Ordering::Equal => Some(self.shares),
            _ => None,
        }
    }

    fn unbond<B: Bank, H: StakingHooks, L: Ledger>(
        &mut self,
        _alloc: Global,
        _g: &mut Ground<B>,
        _hooks: &mut H,
        _who: &Addr,
        _operator: &Addr,
        _shares: Dec,
        _steps: &mut Steps<L>,
    ) -> Result<u128, HookFault> {
        Err(HookFault::NoMemory)
    }

    ghost looks_up = { λ s. refl };
}

impl Slasher for OneValidator {
    ghost Held = { Staked };

    ghost held = { λ s. staked_once s.validator s.spare s.delegator s.shares };

    ghost stake = { λ h. h };

    ghost sound = { λ h. HasOne h.validators };

    ghost owed = { λ h. 0 };

    ghost slashes = { λ H told cons infraction power factor w. Ok (0, w) };

    ghost jails = { jailed_by_cons };

    ghost Marks = { Unit {0} };

    ghost marks = { λ _. tt };

    fn slash<B: Bank, H: StakingHooks, L: Ledger>(
        &mut self,
        _alloc: Global,
        _g: &mut Ground<B>,
        _hooks: &mut H,
        _cons: &ConsAddr,
        _infraction: u64,
        _power: u64,
        _factor: Dec,
        _steps: &mut Steps<L>,
    ) -> Result<u128, HookFault> {
        Ok(0)
    }

    fn jail<L: Ledger>(
        &mut self,
        _alloc: Global,
        facts: &mut Facts,
        _cons: &ConsAddr,
        _steps: &mut Steps<L>,
    ) -> Result<(), HookFault> {
        facts.push(Fact::Jailed {
            validator: self.validator.operator,
        })?;
        self.validator.jailed = true;
        Ok(())
    }

    ghost looks_up = { λ s. refl };
}

/// No unbonding and no redelegation entry.
#[derive(Drop)]
pub struct NoEntries;

impl UnbondingSlash for NoEntries {
    ghost Held = { Unit {0} };

    ghost held = { λ _. tt };

    ghost sound = { λ h. Unit {0} };

    ghost owed = { λ h. 0 };

    ghost slashes = { λ operator infraction factor h v. (0, h, v) };

    ghost follows = { λ delegator operator from tokens h v. (0, h, v) };

    ghost Marks = { Unit {0} };

    ghost marks = { λ _. tt };

    fn slash_unbondings<B: Bank, L: Ledger>(
        &mut self,
        _alloc: Global,
        _g: &mut Ground<B>,
        _operator: &Addr,
        _infraction: u64,
        _factor: Dec,
        _steps: &mut Steps<L>,
    ) -> Result<u128, HookFault> {
        Ok(0)
    }

    fn slash_followed<B: Bank, L: Ledger>(
        &mut self,
        _alloc: Global,
        _g: &mut Ground<B>,
        _delegator: &Addr,
        _operator: &Addr,
        _from: u64,
        _tokens: u128,
        _steps: &mut Steps<L>,
    ) -> Result<u128, HookFault> {
        Ok(0)
    }
}

impl RedelegationSlash for NoEntries {
    ghost Held = { Unit {0} };

    ghost held = { λ _. tt };

    ghost sound = { λ h. Unit {0} };

    ghost slashes = { λ D U H unbonds following operator infraction factor h u w. Ok (0, h, u, w) };

    ghost Marks = { Unit {0} };

    ghost marks = { λ _. tt };

    fn slash_redelegations<B: Bank, H: StakingHooks, D: Unbonder, U: UnbondingSlash, L: Ledger>(
        &mut self,
        _alloc: Global,
        _g: &mut Ground<B>,
        _hooks: &mut H,
        _delegations: &mut D,
        _unbondings: &mut U,
        _operator: &Addr,
        _infraction: u64,
        _factor: Dec,
        _steps: &mut Steps<L>,
    ) -> Result<u128, HookFault> {
        Ok(0)
    }
}

/// The signing info of one validator.
#[derive(Drop)]
pub struct OneSigner {
    pub cons: ConsAddr,
    pub info: SigningInfo,
}

impl Signers for OneSigner {
    ghost use Rattle.base_roles.specs.declared.entities.SigningInfo.{SigningInfo};

    ghost Held = { List (List ℕ × SigningInfo) };

    ghost held = { λ s. (s.cons, s.info) ∷ [] };

    ghost sound = { λ h. Unit {0} };

    ghost infos = { λ h. h };

    ghost bans = { banned_by_cons };

    ghost Marks = { Unit {0} };

    ghost marks = { λ _. tt };

    fn info<L: Ledger>(&self, cons: &ConsAddr, _steps: &mut Steps<L>) -> Option<&SigningInfo> {
        match cons.cmp(&self.cons) {
            Ordering::Equal => Some(&self.info),
            _ => None,
        }
    }

    fn ban<L: Ledger>(
        &mut self,
        _alloc: Global,
        _cons: &ConsAddr,
        until: Moment,
        _steps: &mut Steps<L>,
    ) -> Result<(), HookFault> {
        self.info.jailed_until = until;
        self.info.tombstoned = true;
        Ok(())
    }
}

/// The records of a module that keeps none, with so many open marks.
#[derive(Drop)]
pub struct NoRecords {
    pub open: usize,
}

impl Records for NoRecords {
    ghost Kept = { Unit {0} };

    ghost kept = { λ _. tt };

    ghost marks = { λ s. replicate s.open tt };

    ghost settled = { λ _. tt };

    ghost spent = { λ _. false };

    ghost AreInOrder = { λ _. Unit {0} };

    ghost items = { λ k. [] };

    ghost is_kind = { λ i. false };

    fn ordered(&self) {}

    fn mark<L: Ledger>(
        &mut self,
        _alloc: Global,
        _steps: &mut Steps<L>,
    ) -> Result<(), RecordFault> {
        match self.open.checked_add(1) {
            Some(open) => {
                self.open = open;
                Ok(())
            }
            None => Err(RecordFault::NoMemory),
        }
    }

    fn back<L: Ledger>(&mut self, _steps: &mut Steps<L>) {
        self.open -= 1;
    }

    fn forget<L: Ledger>(&mut self, _steps: &mut Steps<L>) {
        self.open -= 1;
    }

    fn items_into<L: Ledger>(
        &self,
        _out: &mut Vec<Item>,
        _steps: &mut Steps<L>,
    ) -> Result<(), RecordFault> {
        Ok(())
    }

    fn changes_into<L: Ledger>(
        &self,
        _out: &mut Vec<(Item, bool)>,
        _steps: &mut Steps<L>,
    ) -> Result<(), RecordFault> {
        Ok(())
    }

    fn load<L: Ledger>(
        &mut self,
        _alloc: Global,
        _item: &Item,
        _steps: &mut Steps<L>,
    ) -> Result<bool, RecordFault> {
        Ok(false)
    }

    fn settle<L: Ledger>(&mut self, _steps: &mut Steps<L>) {}
}
