//! Coins, and lists of coins, with whole amounts or with decimals.
ghost use Rattle.line_json.specs.Reading.{Gives};
ghost use Rattle.line_json.specs.Coin.{coin_at, coins_at, dec_coins_at};

use crate::members::{member_at, only_named};
use crate::nested::{FromTree, list_at, object_at};
use crate::tree::Tree;
use base_bech32::Form;
use base_coins::{Coin, Coins, DecCoin, DecCoins};
use base_messages::LineFault;
use base_roles::Listed;
use std::alloc::Global;

/// The form in which a coin is read: it has no address, so that each gives the same.
const ANY: Form = Form::Hex;

impl FromTree for Coin {
    ghost use Rattle.line_json.specs.Coin.{coin_of};

    ghost reading = { λ _. coin_of };

    #[tactic(auto, unfolding(crate::specs::Coin::coin_of))]
    fn from_tree<N: Tree>(_form: Form, _alloc: Global, tree: &N) -> Result<Coin, LineFault> {
        let denom = member_at(32, "denom", tree)?;
        let amount = member_at(33, "amount", tree)?;
        only_named(&["denom", "amount"], tree)?;
        Ok(Coin { denom, amount })
    }
}

/// The member of this name, a coin.
///
/// # Errors
/// `BadShape` with the given number, where the member is missing; with 32, 33 or 0, where it is not of the form of a coin;
/// and `NoMemory`.
pub fn coin_at<N: Tree>(alloc: Global, number: u16, name: &str, tree: &N) -> Result<Coin, LineFault>
    ensures { Gives (λ coin. coin) result (coin_at number name.now (N.seen tree.now)) }
{
    object_at(ANY, alloc, number, name, tree)
}

/// The member of this name, a list of coins in any order.
///
/// # Errors
/// `BadShape` with the given number, where the member is missing or no list, or where a denomination stands twice; with
/// 32, 33 or 0, where an element is not of the form of a coin; and `NoMemory`.
#[tactic(auto, unfolding(crate::specs::Coin::coins_at))]
pub fn coins_at<N: Tree>(
    alloc: Global,
    number: u16,
    name: &str,
    tree: &N,
) -> Result<Coins, LineFault>
    ensures { Gives (λ coins. coins) result (coins_at number name.now (N.seen tree.now)) }
{
    let list: Listed<Coin> = list_at(ANY, alloc, number, name, tree)?;
    match Coins::of(list.into_vec()) {
        Ok(coins) => Ok(coins),
        Err(_) => Err(LineFault::BadShape(number)),
    }
}

impl FromTree for DecCoin {
    ghost use Rattle.line_json.specs.Coin.{dec_coin_of};

    ghost reading = { λ _. dec_coin_of };

    #[tactic(auto, unfolding(crate::specs::Coin::dec_coin_of))]
    fn from_tree<N: Tree>(_form: Form, _alloc: Global, tree: &N) -> Result<DecCoin, LineFault> {
        let denom = member_at(32, "denom", tree)?;
        let amount = member_at(134, "amount", tree)?;
        only_named(&["denom", "amount"], tree)?;
        Ok(DecCoin { denom, amount })
    }
}

/// The member of this name, a list of decimal coins in any order.
///
/// # Errors
/// `BadShape` with the given number, where the member is missing or no list, or where a denomination stands twice; with
/// 32, 134 or 0, where an element is not of the form of a decimal coin; and `NoMemory`.
#[tactic(auto, unfolding(crate::specs::Coin::dec_coins_at))]
pub fn dec_coins_at<N: Tree>(
    alloc: Global,
    number: u16,
    name: &str,
    tree: &N,
) -> Result<DecCoins, LineFault>
    ensures { Gives (λ coins. coins) result (dec_coins_at number name.now (N.seen tree.now)) }
{
    let list: Listed<DecCoin> = list_at(ANY, alloc, number, name, tree)?;
    match DecCoins::of(list.into_vec()) {
        Ok(coins) => Ok(coins),
        Err(_) => Err(LineFault::BadShape(number)),
    }
}
