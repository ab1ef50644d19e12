//! Coins that move, burn or are given, over the two tables: each whole, or nothing.

ghost use Rattle.std.specs.Prelude.{◌≡◌, ℕ, List, ◌+◌, ◌*◌, ◌^◌, ◌≤◌, ◌<◌, length, slice_get, Some, true, false, OnOk, OnErr};
ghost use Rattle.base_coins.specs.Coins.{amount_of};
ghost use Rattle.base_roles.specs.Holdings.{balance_of, supply_of, is_short, moved, coin_moved, coin_burned, IsBacked};
ghost use Rattle.mod_bank.specs.Booked.{holding, IsGoneBack, IsForgotten};
ghost use Rattle.mod_bank.specs.Given.{coin_given, coins_given};
ghost use Rattle.mod_bank.specs.Scenes.{Affords, Changes, ChangesInPart};

use crate::tables::Tables;
use base_coins::{Coin, Coins};
use base_table::TableFault;
use base_types::{Account, Denom, Steps};
use std::sync::ledger::Ledger;

impl Tables {
    /// Whether some coin is above the account's balance.
    pub(crate) fn is_short<L: Ledger>(
        &self,
        who: &Account,
        coins: &Coins,
        steps: &mut Steps<L>,
    ) -> bool
        ensures short { result ≡ is_short self.now.holdings who.now coins.now }
        ensures cost { steps.new ≤ steps.old + length coins.now }
    {
        for place in 0..coins.len() {
            let coin = coin_at(coins, place);
            if self.balance(&(*who, coin.denom), steps) < coin.amount {
                return true;
            }
        }
        false
    }

    /// Moves coins from one account to another. Where memory is wanting the tables are spent, and else as they
    /// were.
    pub(crate) fn send<L: Ledger>(
        &mut self,
        from: &Account,
        to: &Account,
        coins: &Coins,
        steps: &mut Steps<L>,
    ) -> Result<(), TableFault>
        requires backed { IsBacked self.old.holdings }
        requires enough { is_short self.old.holdings from.now coins.now ≡ false }
        ensures changes { Changes (moved from.now to.now coins.now self.old.holdings)
            self.old self.new result }
        ensures cost { steps.new ≤ steps.old + 4 * length coins.now }
    {
        match self.mark() {
            Ok(()) => {
                let change = self.move_coins(from, to, coins, steps);
                self.close(change)
            }
            Err(fault) => {
                self.spend();
                Err(fault)
            }
        }
    }

    /// Burns an amount of an account's balance. Where memory is wanting the tables are spent, and else as they
    /// were.
    pub(crate) fn burn<L: Ledger>(
        &mut self,
        place: &(Account, Denom),
        amount: u128,
        steps: &mut Steps<L>,
    ) -> Result<(), TableFault>
        requires affords { Affords self.old.holdings place.now.0 place.now.1 amount }
        ensures changes { Changes (coin_burned place.now.0 place.now.1 amount self.old.holdings)
            self.old self.new result }
    {
        match self.mark() {
            Ok(()) => {
                let change = self.burn_coin(place, amount, steps);
                self.close(change)
            }
            Err(fault) => {
                self.spend();
                Err(fault)
            }
        }
    }

    /// Gives coins to an account; the supplies rise by them. Where memory is wanting some may be given.
    pub(crate) fn give_coins<L: Ledger>(
        &mut self,
        who: &Account,
        coins: &Coins,
        steps: &mut Steps<L>,
    ) -> Result<(), TableFault>
        requires backed { IsBacked self.old.holdings }
        requires bounded { (d : List ℕ)
            → supply_of self.old.holdings d + amount_of coins.now d ≤ 10 ^ 18 }
        ensures ok { OnOk result
            (self.new ≡ holding (coins_given who.now coins.now self.old.holdings) self.old) }
        ensures backed { OnOk result (IsBacked self.new.holdings) }
        ensures supplies { OnOk result ((d : List ℕ) → supply_of self.new.holdings d
            ≡ supply_of self.old.holdings d + amount_of coins.now d) }
    {
        for place in 0..coins.len() {
            let coin = coin_at(coins, place);
            self.give_coin(&(*who, coin.denom), coin.amount, steps)?;
        }
        Ok(())
    }

    /// Ends a change: the mark is forgotten, or where memory was wanting gone back to.
    fn close(&mut self, change: Result<(), TableFault>) -> Result<(), TableFault>
        requires some { 0 < length self.old.marks }
        ensures same { result ≡ change }
        ensures ok { OnOk result (IsForgotten self.old self.new) }
        ensures err { OnErr result (IsGoneBack self.old self.new) }
    {
        match change {
            Ok(()) => self.forget(),
            Err(_) => self.back(),
        }
        change
    }

    /// Moves coins; where memory is wanting some may be moved.
    fn move_coins<L: Ledger>(
        &mut self,
        from: &Account,
        to: &Account,
        coins: &Coins,
        steps: &mut Steps<L>,
    ) -> Result<(), TableFault>
        requires backed { IsBacked self.old.holdings }
        requires enough { is_short self.old.holdings from.now coins.now ≡ false }
        ensures changes { ChangesInPart (moved from.now to.now coins.now self.old.holdings)
            self.old self.new result }
        ensures cost { steps.new ≤ steps.old + 4 * length coins.now }
    {
        for place in 0..coins.len() {
            self.move_coin(from, to, coin_at(coins, place), steps)?;
        }
        Ok(())
    }

    /// Moves a coin; where memory is wanting it may be gone from its sender.
    fn move_coin<L: Ledger>(
        &mut self,
        from: &Account,
        to: &Account,
        coin: &Coin,
        steps: &mut Steps<L>,
    ) -> Result<(), TableFault>
        requires affords { Affords self.old.holdings from.now coin.now.denom coin.now.amount }
        ensures changes { ChangesInPart
            (coin_moved from.now to.now coin.now.denom coin.now.amount self.old.holdings)
            self.old self.new result }
        ensures cost { steps.new ≤ steps.old + 4 }
    {
        let source = (*from, coin.denom);
        let target = (*to, coin.denom);
        let held = self.balance(&source, steps);
        self.set_balance(&source, held - coin.amount, steps)?;
        let there = self.balance(&target, steps);
        self.set_balance(&target, there + coin.amount, steps)
    }

    /// Burns an amount; where memory is wanting it may be gone from its account alone.
    fn burn_coin<L: Ledger>(
        &mut self,
        place: &(Account, Denom),
        amount: u128,
        steps: &mut Steps<L>,
    ) -> Result<(), TableFault>
        requires affords { Affords self.old.holdings place.now.0 place.now.1 amount }
        ensures changes { ChangesInPart
            (coin_burned place.now.0 place.now.1 amount self.old.holdings)
            self.old self.new result }
    {
        let held = self.balance(place, steps);
        let supply = self.supply(&place.1, steps);
        self.set_balance(place, held - amount, steps)?;
        self.set_supply(&place.1, supply - amount, steps)
    }

    /// Gives an amount to an account; where memory is wanting the supply may be as it was.
    fn give_coin<L: Ledger>(
        &mut self,
        place: &(Account, Denom),
        amount: u128,
        steps: &mut Steps<L>,
    ) -> Result<(), TableFault>
        requires backed { IsBacked self.old.holdings }
        requires bounded { supply_of self.old.holdings place.now.1 + amount ≤ 10 ^ 18 }
        ensures ok { OnOk result (self.new
            ≡ holding (coin_given place.now.0 place.now.1 amount self.old.holdings) self.old) }
    {
        let held = self.balance(place, steps);
        let supply = self.supply(&place.1, steps);
        self.set_balance(place, held + amount, steps)?;
        self.set_supply(&place.1, supply + amount, steps)
    }
}

/// The coin at a place of a list.
fn coin_at(coins: &Coins, place: usize) -> &Coin
    requires { place < length coins.now }
    ensures { slice_get coins.now place ≡ Some (result.now.denom, result.now.amount) }
{
    coins.at(place).unwrap()
}
