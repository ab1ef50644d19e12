//! The walk over the coins of an account.

ghost use Rattle.std.specs.Prelude.{◌≡◌, ℕ, ◌+◌, map, codes, option_map, IfOk};
ghost use Rattle.base_types.specs.Orders.{denom_cmp};
ghost use Rattle.base_table.specs.Tabled.{entry_above};
ghost use Rattle.base_roles.specs.Holdings.{coins_of};
ghost use Rattle.mod_bank.specs.Items.{own_coin};

use crate::tables::Tables;
use base_coins::Coin;
use base_table::TableFault;
use base_types::{Account, Denom, Steps};
use std::alloc::Global;
use std::sync::ledger::Ledger;

impl Tables {
    /// All balances of an account. The walk is over its entries alone.
    pub(crate) fn coins_of<L: Ledger>(
        &self,
        alloc: Global,
        who: &Account,
        steps: &mut Steps<L>,
    ) -> Result<Vec<Coin>, TableFault>
        ensures { IfOk result (λ coins. map (λ c. (c.denom, c.amount)) coins.items
            ≡ coins_of self.now.holdings who.now) }
    {
        self.balances().known();
        let mut coins = Vec::new(alloc);
        let mut after = None;
        while let Some(coin) = self.coin_above(who, after, steps) {
            after = Some(coin.denom);
            coins.push(coin)?;
        }
        Ok(coins)
    }

    /// The first coin of an account, or that of the least denomination above `after`.
    fn coin_above<L: Ledger>(
        &self,
        who: &Account,
        after: Option<Denom>,
        steps: &mut Steps<L>,
    ) -> Option<Coin>
        ensures { option_map (λ c. (c.denom, c.amount)) result
            ≡ entry_above denom_cmp (coins_of self.now.holdings who.now) after }
    {
        let balances = self.balances();
        balances.known();
        match after {
            None => own_coin(who, balances.seek(&(*who, least_denom()), steps)),
            Some(denom) => own_coin(who, balances.next(Some(&(*who, denom)), steps)),
        }
    }
}

/// The coin of an entry, where there is one and it is the account's.
fn own_coin(who: &Account, entry: Option<(&(Account, Denom), &u128)>) -> Option<Coin>
    ensures { option_map (λ c. (c.denom, c.amount)) result
        ≡ own_coin who.now (option_map (λ e. (e.0.now, e.1.now)) entry.entry) }
{
    let (place, amount) = entry?;
    if *who != place.0 {
        return None;
    }
    Some(Coin {
        denom: place.1,
        amount: *amount,
    })
}

/// The denomination that comes before all others.
fn least_denom() -> Denom
    ensures { result ≡ codes "A--" }
{
    Denom::of(b"A--").unwrap()
}
