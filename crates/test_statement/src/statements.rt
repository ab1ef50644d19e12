//! What the tests are made of.

use base_coins::{DecCoin, DecCoins};
use base_decimals::Dec;
use base_types::{Addr, Denom};
use mod_statement::{Entry, Statement, StatementFault, make};
use std::process::Abort;

/// The units of one whole, 10^18.
pub const ONE: u128 = 1_000_000_000_000_000_000;

/// The decimal of so many units.
pub fn dec(rt: &impl Abort, raw: u128) -> Dec {
    Dec::from_raw(raw).expect(rt, "below the limit")
}

/// So many units of a denomination.
pub fn coins(rt: &(impl Abort + AllocGlobal), name: &str, raw: u128) -> DecCoins {
    let mut list = Vec::new(rt.alloc());
    let coin = DecCoin {
        denom: Denom::of(name.as_bytes()).expect(rt, "a denomination"),
        amount: dec(rt, raw),
    };
    list.push(coin).expect(rt, "memory");
    DecCoins::of(list).expect(rt, "coins")
}

/// An address.
pub fn addr(rt: &impl Abort, first: u8) -> Addr {
    let mut bytes = [7u8; 20];
    bytes[0] = first;
    Addr::of(bytes).expect(rt, "no module's address")
}

/// A start of so many whole shares of all.
pub fn start(rt: &impl Abort, shares: u64, tokens: u128, total: u64) -> Entry {
    Entry::Started {
        shares: dec(rt, u128::from(shares) * ONE),
        tokens,
        total: dec(rt, u128::from(total) * ONE),
    }
}

/// An allocation of so many units of a denomination.
pub fn fees_in(rt: &(impl Abort + AllocGlobal), name: &str, raw: u128, tokens: u128) -> Entry {
    Entry::Allocated {
        coins: coins(rt, name, raw),
        tokens,
    }
}

/// An allocation of so many units of uatom.
pub fn fees(rt: &(impl Abort + AllocGlobal), raw: u128, tokens: u128) -> Entry {
    fees_in(rt, "uatom", raw, tokens)
}

/// One of three tokens, half a fee of one and of 7 units of another denomination, a slash of a third, a fee
/// to nobody, and a fee of one; periods end and shares change between.
pub fn two_stretches(rt: &(impl Abort + AllocGlobal)) -> Vec<Entry> {
    let slash = Entry::Slashed {
        burned: 1,
        tokens: 3,
    };
    let mut entries = Vec::new(rt.alloc());
    entries.push(start(rt, 1, 3, 3)).expect(rt, "memory");
    entries.push(fees(rt, ONE, 2)).expect(rt, "memory");
    entries
        .push(fees_in(rt, "uosmo", 7, 2))
        .expect(rt, "memory");
    entries.push(Entry::Touched).expect(rt, "memory");
    entries.push(Entry::Ended).expect(rt, "memory");
    entries.push(slash).expect(rt, "memory");
    entries.push(fees(rt, 5, 0)).expect(rt, "memory");
    entries.push(fees(rt, ONE, 3)).expect(rt, "memory");
    entries.push(Entry::Ended).expect(rt, "memory");
    entries.push(Entry::Touched).expect(rt, "memory");
    entries.push(Entry::Ended).expect(rt, "memory");
    entries
}

/// A delegation of two thirds, fees of so many units, and the end of a period.
pub fn two_thirds(rt: &(impl Abort + AllocGlobal), raw: u128) -> Vec<Entry> {
    let mut entries = Vec::new(rt.alloc());
    entries
        .push(start(rt, 2_000_000, 3_000_000, 3_000_000))
        .expect(rt, "memory");
    entries.push(fees(rt, raw, 3_000_000)).expect(rt, "memory");
    entries.push(Entry::Ended).expect(rt, "memory");
    entries
}

/// The statement of a reward of so many units by these entries, with a ratio and removals.
pub fn stated_after(
    rt: &(impl Abort + AllocGlobal),
    reward: u128,
    removals: u64,
    ratio: u128,
    entries: Vec<Entry>,
) -> Result<Statement, StatementFault> {
    make(
        rt.alloc(),
        &addr(rt, 2),
        &addr(rt, 1),
        2,
        &coins(rt, "uatom", reward),
        removals,
        &coins(rt, "uatom", ratio),
        entries,
    )
}

/// The same without removals.
pub fn stated(
    rt: &(impl Abort + AllocGlobal),
    reward: u128,
    ratio: u128,
    entries: Vec<Entry>,
) -> Result<Statement, StatementFault> {
    stated_after(rt, reward, 0, ratio, entries)
}
