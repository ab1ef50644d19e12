//! The four kinds of records as items of the state.

ghost use Rattle.std.specs.Prelude.{◌≡◌};
ghost use Rattle.base_records.specs.Items.{AnyValue};
ghost use Rattle.mod_periods.specs.Items.{current_item, historical_item, start_item, event_item, current_gone, historical_gone, start_gone, event_gone, current_entry, historical_entry, start_entry, event_entry, same_period, same_history, same_start};

use crate::slash::Slash;
use base_coins::DecCoins;
use base_decimals::Dec;
use base_records::AsItem;
use base_roles::{Historical, Item, SlashEvent, StartingInfo};
use base_table::TableFault;
use base_types::{Addr, Copied};
use mod_sums::same_coins;
use std::alloc::Global;

/// The periods that run, by operator.
pub(crate) struct CurrentKind;

impl AsItem for CurrentKind {
    type Key = Addr;

    type Value = u64;

    ghost Fits = { AnyValue };

    ghost item_of = { current_item };

    ghost gone_of = { current_gone };

    ghost same = { same_period };

    ghost entry_of = { current_entry };

    fn item(key: &Addr, value: &u64) -> Result<Item, TableFault> {
        Ok(Item::CurrentPeriod {
            operator: *key,
            period: *value,
        })
    }

    fn gone(_alloc: Global, key: &Addr) -> Item {
        Item::CurrentPeriod {
            operator: *key,
            period: 0,
        }
    }

    fn is_same(value: &u64, other: &u64) -> bool {
        *value == *other
    }

    fn told() {}
}

/// The records of ended periods, by operator and period.
pub(crate) struct HistoricalKind;

impl AsItem for HistoricalKind {
    type Key = (Addr, u64);

    type Value = Historical;

    ghost Fits = { AnyValue };

    ghost item_of = { historical_item };

    ghost gone_of = { historical_gone };

    ghost same = { same_history };

    ghost entry_of = { historical_entry };

    fn item(key: &(Addr, u64), value: &Historical) -> Result<Item, TableFault> {
        Ok(Item::Historical {
            operator: key.0,
            period: key.1,
            history: value.copied()?,
        })
    }

    fn gone(alloc: Global, key: &(Addr, u64)) -> Item {
        Item::Historical {
            operator: key.0,
            period: key.1,
            history: Historical {
                ratio: DecCoins::new(alloc),
                count: 0,
            },
        }
    }

    fn is_same(value: &Historical, other: &Historical) -> bool {
        value.count == other.count && same_coins(&value.ratio, &other.ratio)
    }

    fn told() {}
}

/// Where rewards begin, by operator and delegator.
pub(crate) struct StartKind;

impl AsItem for StartKind {
    type Key = (Addr, Addr);

    type Value = StartingInfo;

    ghost Fits = { AnyValue };

    ghost item_of = { start_item };

    ghost gone_of = { start_gone };

    ghost same = { same_start };

    ghost entry_of = { start_entry };

    fn item(key: &(Addr, Addr), value: &StartingInfo) -> Result<Item, TableFault> {
        Ok(Item::Start {
            operator: key.0,
            delegator: key.1,
            info: *value,
        })
    }

    fn gone(_alloc: Global, key: &(Addr, Addr)) -> Item {
        Item::Start {
            operator: key.0,
            delegator: key.1,
            info: StartingInfo {
                period: 0,
                stake: nothing(),
                height: 0,
            },
        }
    }

    fn is_same(value: &StartingInfo, other: &StartingInfo) -> bool {
        value.period == other.period
            && value.stake.raw() == other.stake.raw()
            && value.height == other.height
    }

    fn told() {}
}

/// The slash events, by operator, height and period.
pub(crate) struct EventKind;

impl AsItem for EventKind {
    type Key = (Addr, u64, u64);

    type Value = Slash;

    ghost Fits = { AnyValue };

    ghost item_of = { event_item };

    ghost gone_of = { event_gone };

    ghost same = { same_period };

    ghost entry_of = { event_entry };

    fn item(key: &(Addr, u64, u64), value: &Slash) -> Result<Item, TableFault> {
        Ok(Item::Event {
            operator: key.0,
            event: SlashEvent {
                height: key.1,
                period: key.2,
                fraction: value.fraction(),
            },
        })
    }

    fn gone(_alloc: Global, key: &(Addr, u64, u64)) -> Item {
        Item::Event {
            operator: key.0,
            event: SlashEvent {
                height: key.1,
                period: key.2,
                fraction: nothing(),
            },
        }
    }

    fn is_same(value: &Slash, other: &Slash) -> bool {
        value.fraction().raw() == other.fraction().raw()
    }

    fn told() {}
}

/// The decimal 0.
fn nothing() -> Dec
    ensures { result ≡ 0 }
{
    Dec::from_raw(0).unwrap()
}
