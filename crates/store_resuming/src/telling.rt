//! What the types of records tell of them: coins are lists of coins, each denomination once and in order; shares are
//! decimals; and no list is longer than what memory can hold.

ghost use Rattle.std.specs.Prelude.{◌<◌, ◌^◌, All, length};
ghost use Rattle.base_coins.specs.Coins.{IsMoney};
ghost use Rattle.rule_modules.specs.Sound.{PurseIsSound};
ghost use Rattle.store_records.specs.Plain.{seen};
ghost use Rattle.law_records.specs.Coins.{AreCoins};
ghost use Rattle.law_records.specs.PassLaws.{AreInMemory};

use base_coins::DecCoins;
use base_roles::{Historical, Purse, Validator};
use base_types::Addr;
use std::collections::BTreeMap;
use store_records::PlainRecords;

/// It tells that these are coins, and does nothing.
fn tell_coins(coins: &DecCoins)
    ensures { IsMoney coins.now }
{
    let _ = coins.len();
}

/// It tells it of the coins of a purse.
fn tell_purse(purse: &Purse)
    ensures { PurseIsSound purse.now }
{
    tell_coins(&purse.outstanding);
    tell_coins(&purse.commission);
    tell_coins(&purse.current);
}

/// It tells it of the coins of purses.
fn tell_purses(purses: &BTreeMap<Addr, Purse>)
    ensures { All (λ e. PurseIsSound e.1) purses.now.entries }
{
    for (_, purse) in purses {
        tell_purse(purse);
    }
}

/// It tells it of ratios.
fn tell_ratios(histories: &BTreeMap<(Addr, u64), Historical>)
    ensures { All (λ h. IsMoney h.1.ratio) histories.now.entries }
{
    for (_, history) in histories {
        tell_coins(&history.ratio);
    }
}

/// It tells that the shares of a validator are below 10^38, and does nothing.
fn tell_shares(v: &Validator)
    ensures { v.now.shares < 10 ^ 38 }
{
    let _ = v.shares.raw();
}

/// It tells it of the shares of validators.
fn tell_all_shares(validators: &BTreeMap<Addr, Validator>)
    ensures { All (λ e. e.1.shares < 10 ^ 38) validators.now.entries }
{
    for (_, v) in validators {
        tell_shares(v);
    }
}

/// It tells that the coins in records are coins, and does nothing.
pub(crate) fn tell_money(records: &PlainRecords)
    ensures { AreCoins (seen records.now) }
{
    tell_coins(&records.pool);
    tell_purses(&records.lists.shared.purses);
    tell_ratios(&records.lists.shared.histories);
}

/// It tells that shares and the numbers of records are what memory can hold, and does nothing.
pub(crate) fn tell_numbers(records: &PlainRecords)
    ensures { AreInMemory (seen records.now) }
{
    tell_all_shares(&records.lists.validators);
    let _ = records.lists.shared.starts.len();
    let _ = records.lists.shared.events.len();
}
