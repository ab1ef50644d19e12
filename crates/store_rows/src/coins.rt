//! Lists of decimal coins taken from the front of bytes.

ghost use Rattle.std.specs.Prelude.{◌≡◌, map};
ghost use Rattle.store_rows.specs.Fields.{coin_seen};
ghost use Rattle.store_rows.specs.Reading.{Gives, IsRead, coin_at, coins_at, comes_before, each_at, is_in_order, listed};

use crate::fault::RowFault;
use crate::fields::{decimal_at, denom_at, u32_at};
use crate::front::Unread;
use base_coins::{DecCoin, DecCoins};
use std::alloc::Global;

#[tactic(auto, unfolding(crate::specs::Reading::coin_at))]
fn coin_at(bytes: &mut Unread<'_>) -> Result<DecCoin, RowFault>
    ensures { IsRead (λ x. (coin_seen x, bytes.new.left.now)) result (coin_at bytes.old.left.now) }
{
    let denom = denom_at(bytes)?;
    let amount = decimal_at(bytes)?;
    Ok(DecCoin { denom, amount })
}

fn each_coin(alloc: Global, count: u32, bytes: &mut Unread<'_>) -> Result<Vec<DecCoin>, RowFault>
    ensures { Gives (λ x. (map coin_seen x.items, bytes.new.left.now)) result
        (each_at coin_at count bytes.old.left.now) }
{
    let mut coins = Vec::new(alloc);
    for _ in 0..count {
        let coin = coin_at(bytes)?;
        coins.push(coin)?;
    }
    Ok(coins)
}

/// Whether the coin is not 0, and its denomination is before that of the next.
fn comes_before(coin: &DecCoin, others: &[DecCoin]) -> bool
    ensures { result ≡ comes_before (coin_seen coin.now)
        (map coin_seen others.now) }
{
    match others {
        [] => 0 < coin.amount.raw(),
        [next, ..] => 0 < coin.amount.raw() && coin.denom < next.denom,
    }
}

/// Whether the denominations ascend and no amount is 0.
fn are_in_order(coins: &[DecCoin]) -> bool
    ensures { result ≡ is_in_order (map coin_seen coins.now) }
{
    let mut left = coins;
    'coins: while let [coin, others @ ..] = left {
        if !comes_before(coin, others) {
            return false;
        }
        left = others;
    }
    true
}

/// These coins as a list, where they stand so in one. It takes no memory.
#[tactic(auto, using(crate::proofs::CoinLemmas::in_order_is_sorted, crate::proofs::CoinLemmas::in_order_is_once))]
fn listed(coins: Vec<DecCoin>) -> Result<DecCoins, RowFault>
    ensures { IsRead (λ list. list) result (listed (map coin_seen coins.items)) }
{
    if !are_in_order(&coins) {
        return Err(RowFault::BadRow);
    }
    match DecCoins::of(coins) {
        Ok(coins) => Ok(coins),
        Err(_) => Err(RowFault::BadRow),
    }
}

/// A list of decimal coins, as they stand in one.
#[tactic(auto, unfolding(crate::specs::Reading::coins_at))]
pub(crate) fn coins_at(alloc: Global, bytes: &mut Unread<'_>) -> Result<DecCoins, RowFault>
    ensures { Gives (λ x. (x, bytes.new.left.now)) result (coins_at bytes.old.left.now) }
{
    let count = u32_at(bytes)?;
    let coins = each_coin(alloc, count, bytes)?;
    listed(coins)
}
