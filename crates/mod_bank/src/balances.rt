//! The bank over its tables: balances and supplies, and the message that sends coins (`x/bank`: `MsgSend`).

ghost use Rattle.std.specs.Prelude.{◌≡◌, ℕ, true, Err, ◌++◌, ◌∷◌, [], length, OnOk, OnErr, IfOk, IfErr};
ghost use Rattle.base_roles.specs.Holdings.{IsBacked};
ghost use Rattle.base_roles.specs.declared.facts.Fact.TheVariants as fact;
ghost use Rattle.base_roles.specs.declared.faults.BankFault.TheVariants.{NoMemory};
ghost use Rattle.base_roles.specs.declared.faults.MessageFault.TheVariants as stop;
ghost use Rattle.mod_bank.specs.Booked.{Booked, Behind, behind, new_book, holding};
ghost use Rattle.mod_bank.specs.Given.{held_by, IsBounded};
ghost use Rattle.mod_bank.specs.Sending.{Transfers};

use crate::tables::Tables;
use base_coins::{Coin, Coins};
use base_roles::{Bank, BankFault, Fact, Facts, MessageFault, Refusal};
use base_types::{Account, Addr, Copied, Denom, Module, Steps};
use std::alloc::Global;
use std::marker::Model;
use std::sync::ledger::Ledger;

/// A bank over tables of balances and supplies. Contracts see what it holds, its open marks, what was
/// settled, and whether memory was wanting in a change.
#[derive(Drop)]
pub struct BankBalances {
    pub(crate) tables: Tables,
    pub(crate) alloc: Global,
}

impl Model for BankBalances {
    ghost use Rattle.mod_bank.specs.Booked.{Booked};

    ghost Value = { Booked };

    ghost view = { λ b. b.tables };
}

impl BankBalances {
    /// A bank that holds nothing. Takes no memory.
    pub fn new(alloc: Global) -> BankBalances
        ensures { result ≡ new_book }
    {
        BankBalances {
            tables: Tables::new(alloc),
            alloc,
        }
    }

    /// A bank in which each account holds its coins, and the supplies are their sums, as a chain's genesis
    /// gives them. Of no denomination may there be more than 10^18. Nothing of it is settled yet, and no
    /// mark is open. The only error is `NoMemory`.
    pub fn start<L: Ledger>(
        alloc: Global,
        accounts: &[(Account, Coins)],
        steps: &mut Steps<L>,
    ) -> Result<BankBalances, BankFault>
        requires bounded { IsBounded accounts.now }
        ensures book { IfOk result (λ book. book ≡ holding (held_by accounts.now) new_book) }
        ensures backed { IfOk result (λ book. IsBacked book.holdings) }
        ensures fault { IfErr result (λ fault. fault ≡ NoMemory) }
    {
        let mut tables = Tables::new(alloc);
        for (who, coins) in accounts {
            tables.give_coins(who, coins, steps)?;
        }
        Ok(BankBalances { tables, alloc })
    }

    /// The message by which a user sends coins (Cosmos SDK: `MsgSend` of `x/bank`).
    ///
    /// It is refused as `NonPositive` where there are no coins, else as `ModuleRecipient` where the receiver
    /// is a module, else as `InsufficientFunds` where a coin is above the sender's balance. After a fault all
    /// is as it was.
    pub fn transfer<L: Ledger>(
        &mut self,
        alloc: Global,
        facts: &mut Facts,
        from: &Addr,
        to: &Account,
        coins: &Coins,
        steps: &mut Steps<L>,
    ) -> Result<(), MessageFault>
        requires { IsBacked self.old.holdings }
        ensures transfers { Transfers from.now to.now coins.now self.old.holdings facts.old
            self.new.holdings facts.new result }
        ensures backed { IsBacked self.new.holdings }
        ensures behind { behind self.new ≡ behind self.old }
        ensures spent { self.old.spent ≡ true → self.new.spent ≡ true }
    {
        if coins.len() == 0 {
            return Err(MessageFault::Refused(Refusal::NonPositive));
        }
        if let Account::Module(_) = to {
            return Err(MessageFault::Refused(Refusal::ModuleRecipient));
        }
        self.send(alloc, facts, &Account::User(*from), to, coins, steps)?;
        Ok(())
    }
}

impl Bank for BankBalances {
    ghost holdings = { λ b. b.holdings };

    ghost spent = { λ b. b.spent };

    ghost most_steps = { λ _. 8 };

    ghost Marks = { Behind };

    ghost marks = { behind };

    fn balance<L: Ledger>(&self, who: &Account, denom: &Denom, steps: &mut Steps<L>) -> u128 {
        self.tables.balance(&(*who, *denom), steps)
    }

    fn supply<L: Ledger>(&self, denom: &Denom, steps: &mut Steps<L>) -> u128 {
        self.tables.supply(denom, steps)
    }

    fn coins_of<L: Ledger>(
        &self,
        alloc: Global,
        who: &Account,
        steps: &mut Steps<L>,
    ) -> Result<Coins, BankFault> {
        match Coins::of(self.tables.coins_of(alloc, who, steps)?) {
            Ok(coins) => Ok(coins),
            // It never comes: of an account each denomination stands once.
            Err(_) => Err(BankFault::NoMemory),
        }
    }

    fn send<L: Ledger>(
        &mut self,
        _alloc: Global,
        facts: &mut Facts,
        from: &Account,
        to: &Account,
        coins: &Coins,
        steps: &mut Steps<L>,
    ) -> Result<(), BankFault> {
        if self.tables.is_spent() {
            return Err(BankFault::NoMemory);
        }
        if self.tables.is_short(from, coins, steps) {
            return Err(BankFault::Short);
        }
        if coins.len() == 0 {
            return Ok(());
        }
        let told = facts.len();
        if tell_transfer(facts, from, to, coins).is_err() {
            self.tables.spend();
            return Err(BankFault::NoMemory);
        }
        if self.tables.send(from, to, coins, steps).is_err() {
            facts.cut(told);
            return Err(BankFault::NoMemory);
        }
        Ok(())
    }

    fn burn<L: Ledger>(
        &mut self,
        _alloc: Global,
        facts: &mut Facts,
        from: Module,
        coin: &Coin,
        steps: &mut Steps<L>,
    ) -> Result<(), BankFault> {
        if self.tables.is_spent() {
            return Err(BankFault::NoMemory);
        }
        if coin.amount == 0 {
            return Ok(());
        }
        let place = (Account::Module(from), coin.denom);
        if self.tables.balance(&place, steps) < coin.amount {
            return Err(BankFault::Short);
        }
        let told = facts.len();
        if facts.push(Fact::Burn { from, coin: *coin }).is_err() {
            self.tables.spend();
            return Err(BankFault::NoMemory);
        }
        if self.tables.burn(&place, coin.amount, steps).is_err() {
            facts.cut(told);
            return Err(BankFault::NoMemory);
        }
        Ok(())
    }
}

/// Tells a transfer, or nothing where memory is wanting.
fn tell_transfer(
    facts: &mut Facts,
    from: &Account,
    to: &Account,
    coins: &Coins,
) -> Result<(), BankFault>
    ensures ok { OnOk result
        (facts.new ≡ facts.old ++ fact.Transfer from.now to.now coins.now ∷ []) }
    ensures err { OnErr result (facts.new ≡ facts.old) }
{
    facts.push(Fact::Transfer {
        from: *from,
        to: *to,
        coins: coins.copied()?,
    })?;
    Ok(())
}
