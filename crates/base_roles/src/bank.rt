//! The bank as other modules use it (Cosmos SDK: what `x/staking` and `x/distribution` expect of `x/bank`).

ghost use Rattle.std.specs.Prelude.{◌≡◌, ℕ, ◌+◌, ◌≤◌, Bool, true, length, OnOk, IfOk, IfErr, Err};
ghost use Rattle.base_roles.specs.Answers.{Sends, Burns};
ghost use Rattle.base_roles.specs.Holdings.{Holdings, IsBacked, balance_of, supply_of, coins_of};
ghost use Rattle.base_roles.specs.declared.faults.BankFault.TheVariants.{Short, NoMemory};

use crate::facts::Facts;
use crate::faults::BankFault;
use crate::params::Ctx;
use base_coins::{Coin, Coins};
use base_types::{Account, Denom, Module, Steps};
use std::alloc::Global;
use std::sync::ledger::Ledger;

/// Balances and supplies (Cosmos SDK: what `x/staking` and `x/distribution` use of `x/bank`). Amounts are
/// whole, in units of their denomination.
///
/// Callers see what the bank holds, and not how it is kept.
pub trait Bank {
    /// What it holds.
    ghost holdings: { Self → Holdings };

    /// Whether memory was wanting in a change: from then on it moves and burns no coins, and answers `NoMemory`.
    ghost spent: { Self → Bool };

    /// The most touches of one `send` of one coin.
    ghost most_steps: { Self → ℕ };

    /// What its open marks would give back.
    ghost Marks: { Type 0 };

    ghost marks: { Self → Marks };

    /// What an account holds of a denomination.
    fn balance<L: Ledger>(&self, who: &Account, denom: &Denom, steps: &mut Steps<L>) -> u128
        ensures { result ≡ balance_of (holdings self.now) who.now denom.now };

    /// How much there is of a denomination.
    fn supply<L: Ledger>(&self, denom: &Denom, steps: &mut Steps<L>) -> u128
        ensures { result ≡ supply_of (holdings self.now) denom.now };

    /// All balances of an account. The only error is `NoMemory`.
    fn coins_of<L: Ledger>(
        &self,
        alloc: Global,
        who: &Account,
        steps: &mut Steps<L>,
    ) -> Result<Coins, BankFault>
        requires { IsBacked (holdings self.now) }
        ensures coins { IfOk result (λ coins. coins ≡ coins_of (holdings self.now) who.now) }
        ensures fault { IfErr result (λ fault. fault ≡ NoMemory) };

    /// Moves coins from one account to another, and tells it by a fact. No coins are no transfer, and are
    /// not told. `Short` comes exactly where a coin is above the sender's balance. After a fault all is as it
    /// was, but that the bank is spent where memory was wanting.
    fn send<L: Ledger>(
        &mut self,
        alloc: Global,
        facts: &mut Facts,
        from: &Account,
        to: &Account,
        coins: &Coins,
        steps: &mut Steps<L>,
    ) -> Result<(), BankFault>
        requires { IsBacked (holdings self.old) }

        ensures sends { Sends from.now to.now coins.now (holdings self.old) facts.old
            (holdings self.new) facts.new result }
        ensures backed { IsBacked (holdings self.new) }

        ensures spent { spent self.old ≡ true → result ≡ Err NoMemory }
        ensures spent_stays { spent self.old ≡ true → spent self.new ≡ true }
        ensures spent_ok { OnOk result (spent self.new ≡ spent self.old) }
        ensures spent_short { result ≡ Err Short → spent self.new ≡ spent self.old }
        ensures spent_err { result ≡ Err NoMemory → spent self.new ≡ true }
        ensures marks { marks self.new ≡ marks self.old }

        ensures cost { length coins.now ≡ 1 → steps.new ≤ steps.old + most_steps self.old }
        ensures most_steps { most_steps self.new ≡ most_steps self.old };

    /// Burns a coin of a module's account, and tells it by a fact. An amount of 0 is no burn, and is not
    /// told. `Short` comes exactly where the amount is above the balance. After a fault all is as it was, but
    /// that the bank is spent where memory was wanting.
    fn burn<L: Ledger>(
        &mut self,
        alloc: Global,
        facts: &mut Facts,
        from: Module,
        coin: &Coin,
        steps: &mut Steps<L>,
    ) -> Result<(), BankFault>
        requires { IsBacked (holdings self.old) }

        ensures burns { Burns from coin.now (holdings self.old) facts.old (holdings self.new)
            facts.new result }
        ensures backed { IsBacked (holdings self.new) }

        ensures spent { spent self.old ≡ true → result ≡ Err NoMemory }
        ensures spent_stays { spent self.old ≡ true → spent self.new ≡ true }
        ensures spent_ok { OnOk result (spent self.new ≡ spent self.old) }
        ensures spent_short { result ≡ Err Short → spent self.new ≡ spent self.old }
        ensures spent_err { result ≡ Err NoMemory → spent self.new ≡ true }
        ensures marks { marks self.new ≡ marks self.old }
        ensures most_steps { most_steps self.new ≡ most_steps self.old };
}

/// What a call acts on besides the records of its module: the bank, where it happens, and the facts so
/// far.
#[derive(Drop)]
pub struct Ground<B> {
    pub bank: B,
    pub ctx: Ctx,
    pub facts: Facts,
}
