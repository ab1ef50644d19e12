//! The sums that are the two bounds of an ideal reward.

ghost use Rattle.std.specs.Prelude.{◌≡◌, ◌^◌, ◌<◌, ◌≤◌, All, IfOk, IfErr, Ok, map, true};
ghost use Rattle.base_coins.specs.Coins.{IsMoney};
ghost use Rattle.mod_statement.specs.Faults.{IsOverDue};
ghost use Rattle.mod_statement.specs.Entries.{AreBehind, HasMoney, is_behind};
ghost use Rattle.mod_statement.specs.Sums.{coin_shared, coins_allocated, coins_shared, more_of, no_sums, sums_after, sums_over, sums_slashed};

use crate::entry::Entry;
use crate::rounding::{ONE, quotient_cut, quotient_up};
use crate::stakes::Stakes;
use base_coins::{CoinFault, DecCoin, DecCoins};
use base_decimals::Dec;
use base_types::Denom;
use std::alloc::Global;

/// What a walk along a span has come to: the stake there, and the two bounds so far.
#[derive(Debug, Drop)]
pub(crate) struct Sums {
    pub stakes: Stakes,
    pub low: DecCoins,
    pub high: DecCoins,
}

/// The bounds of the entries behind a start.
pub(crate) fn sums_of(alloc: Global, start: Stakes, rest: &[Entry]) -> Result<Sums, CoinFault>
    requires { AreBehind rest.now }
    ensures sums { IfOk result (λ sums. sums_over (no_sums start) rest.now ≡ Ok sums) }
    ensures money { IfOk result (λ _. All HasMoney rest.now) }
    ensures fault { IfErr result (IsOverDue (sums_over (no_sums start) rest.now)) }
{
    let mut sums = Sums {
        stakes: start,
        low: DecCoins::new(alloc),
        high: DecCoins::new(alloc),
    };
    for entry in rest {
        sums = sums.after(alloc, entry)?;
    }
    Ok(sums)
}

impl Sums {
    /// What one more entry makes of the sums.
    fn after(self, alloc: Global, entry: &Entry) -> Result<Sums, CoinFault>
        requires { is_behind entry.now ≡ true }
        ensures sums { IfOk result (λ sums. sums_after self entry.now ≡ Ok sums) }
        ensures money { IfOk result (λ _. HasMoney entry.now) }
        ensures fault { IfErr result (IsOverDue (sums_after self entry.now)) }
    {
        match entry {
            Entry::Allocated { coins, tokens } => self.with_coins(alloc, coins, *tokens),
            Entry::Slashed { burned, tokens } => Ok(self.slashed(*burned, *tokens)),
            _ => Ok(self),
        }
    }

    /// Behind a slash.
    fn slashed(self, burned: u128, tokens: u128) -> Sums
        requires positive { 0 < tokens }
        requires most { tokens ≤ 10 ^ 18 }
        ensures { result ≡ sums_slashed burned tokens self }
    {
        let Sums { stakes, low, high } = self;
        Sums {
            stakes: stakes.slashed(burned, tokens),
            low,
            high,
        }
    }

    /// With allocated coins, of which nobody has a share without tokens.
    fn with_coins(self, alloc: Global, coins: &DecCoins, tokens: u128) -> Result<Sums, CoinFault>
        requires { tokens ≤ 10 ^ 18 }
        ensures sums { IfOk result (λ sums. coins_allocated tokens self coins.now ≡ Ok sums) }
        ensures money { IfOk result (λ _. IsMoney coins.now) }
        ensures fault { IfErr result (IsOverDue (coins_allocated tokens self coins.now)) }
    {
        let list = coins.as_slice();
        if tokens == 0 {
            return Ok(self);
        }
        self.with_shares(alloc, list, tokens)
    }

    /// With the shares of coins, one after another.
    fn with_shares(self, alloc: Global, coins: &[DecCoin], tokens: u128) -> Result<Sums, CoinFault>
        requires positive { 0 < tokens }
        requires most { tokens ≤ 10 ^ 18 }
        ensures sums { IfOk result (λ sums. coins_shared tokens self
            (map (λ c. (c.denom, c.amount)) coins.now) ≡ Ok sums) }
        ensures fault { IfErr result (IsOverDue (coins_shared tokens self
            (map (λ c. (c.denom, c.amount)) coins.now))) }
    {
        let mut sums = self;
        for coin in coins {
            sums = sums.with_coin(alloc, coin, tokens)?;
        }
        Ok(sums)
    }

    /// With the shares of an allocated coin.
    fn with_coin(self, alloc: Global, coin: &DecCoin, tokens: u128) -> Result<Sums, CoinFault>
        requires positive { 0 < tokens }
        requires most { tokens ≤ 10 ^ 18 }
        ensures sums { IfOk result
            (λ sums. coin_shared tokens self (coin.now.denom, coin.now.amount) ≡ Ok sums) }
        ensures fault { IfErr result
            (IsOverDue (coin_shared tokens self (coin.now.denom, coin.now.amount))) }
    {
        let Sums { stakes, low, high } = self;
        let least = quotient_cut(coin.amount, stakes.lower, tokens * ONE)?;
        let low = more(alloc, &low, coin.denom, least)?;
        let most = quotient_up(coin.amount, stakes.upper.raw(), tokens * ONE)?;
        let high = more(alloc, &high, coin.denom, most)?;
        Ok(Sums { stakes, low, high })
    }
}

/// A sum with more of a denomination.
fn more(alloc: Global, sum: &DecCoins, denom: Denom, amount: Dec) -> Result<DecCoins, CoinFault>
    ensures sum { IfOk result (λ more. more_of sum.now denom amount ≡ Ok more) }
    ensures fault { IfErr result (IsOverDue (more_of sum.now denom amount)) }
{
    let mut coins = Vec::new(alloc);
    coins.push(DecCoin { denom, amount })?;
    sum.add(alloc, &DecCoins::of(coins)?)
}
