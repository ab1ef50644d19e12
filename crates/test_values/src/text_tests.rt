//! Addresses, accounts, denominations and moments: read, printed, compared as keys, and copied.

ghost use Rattle.std.specs.Prelude.{◌≡◌, ◌<◌};

use crate::checks::holds;
use base_types::{
    Account, Addr, BondStatus, ConsAddr, Copied, Denom, Module, Moment, Steps, TableFault,
    TextFault, address_digits, print_account, print_cons, print_moment, read_account, read_addr,
    read_cons, read_denom, read_moment,
};
use std::collections::{BTreeMap, HashMap};
use std::fmt::Display;
use std::marker::Brand;
use std::process::Abort;
use std::sync::ledger::{Blank, Ledger};

const ADDRESS: &str = "00112233445566778899aabbccddeeff01234567";

const BYTES: [u8; 20] = [
    0, 17, 34, 51, 68, 85, 102, 119, 136, 153, 170, 187, 204, 221, 238, 255, 1, 35, 69, 103,
];

fn printed(rt: &(impl Abort + AllocGlobal), account: &Account) -> String {
    print_account(rt.alloc(), account).expect(rt, "memory")
}

#[test]
fn an_address_is_read_and_printed(rt: HostRuntime) {
    let addr = read_addr(ADDRESS).expect(&rt, "an address");
    holds(&rt, "its bytes", addr.bytes() == BYTES);
    let digits = address_digits(&addr.bytes());
    holds(&rt, "its digits", digits.as_slice() == ADDRESS.as_bytes());
    let account = read_account(ADDRESS).expect(&rt, "an account");
    holds(&rt, "a user", account == Account::User(addr));
    holds(&rt, "its text", printed(&rt, &account).as_str() == ADDRESS);
    let cons = read_cons(ADDRESS).expect(&rt, "an address");
    holds(&rt, "a consensus address", cons == ConsAddr::of(BYTES));
    let text = print_cons(rt.alloc(), &cons).expect(&rt, "memory");
    holds(&rt, "its text", text.as_str() == ADDRESS);
}

#[test]
fn a_capital_digit_or_another_length_is_no_address(rt: HostRuntime) {
    let capital = read_addr("00112233445566778899aabbccddeeff0123456A");
    holds(
        &rt,
        "a capital digit",
        capital == Err(TextFault::BadAddress),
    );
    let few = read_cons("00112233445566778899aabbccddeeff012345");
    holds(&rt, "a byte too few", few == Err(TextFault::BadAddress));
    let many = read_account("00112233445566778899aabbccddeeff0123456789");
    holds(&rt, "a byte too much", many == Err(TextFault::BadAddress));
}

#[test]
fn a_module_has_an_address_and_is_printed_by_name(rt: HostRuntime) {
    let text = "0000000000000000000000000000000000000003";
    let account = read_account(text).expect(&rt, "an account");
    holds(
        &rt,
        "a module",
        account == Account::Module(Module::NotBonded),
    );
    holds(
        &rt,
        "no user",
        read_addr(text) == Err(TextFault::BadAddress),
    );
    holds(&rt, "no user's bytes", Addr::of(account.bytes()).is_none());
    let name = printed(&rt, &account);
    holds(&rt, "its name", name.as_str() == "not_bonded_tokens_pool");
}

#[test]
fn a_denomination_has_3_to_128_bytes(rt: HostRuntime) {
    let mut bytes = [b'a'; 129];
    bytes[2] = b'/';
    holds(&rt, "2 bytes", Denom::of(&bytes[..2]).is_none());
    holds(&rt, "3 bytes", Denom::of(&bytes[..3]).is_some());
    holds(&rt, "128 bytes", Denom::of(&bytes[..128]).is_some());
    holds(&rt, "129 bytes", Denom::of(&bytes).is_none());
    holds(
        &rt,
        "a digit in front",
        read_denom("1atom") == Err(TextFault::BadDenom),
    );
    let text = "ibc/27394FB092D2ECCD56123C74F36E4C1F926001CE";
    let denom = read_denom(text).expect(&rt, "a denomination");
    holds(&rt, "a path", denom.bytes() == text.as_bytes());
}

/// Texts, and so many nanoseconds as Python's `datetime` gives.
const MOMENTS: [(&str, u128); 4] = [
    ("1970-01-01T00:00:00Z", 0),
    ("2000-02-29T00:00:00.000000001Z", 951_782_400_000_000_001),
    ("2024-02-29T12:00:00.500Z", 1_709_208_000_500_000_000),
    (
        "9999-12-31T23:59:59.999999999Z",
        253_402_300_799_999_999_999,
    ),
];

/// Texts of no moment: of a day that is none, with a small letter, and without the last one.
const NO_MOMENTS: [&str; 3] = [
    "2023-02-29T12:00:00Z",
    "2024-02-29t12:00:00Z",
    "2024-02-29T12:00:00",
];

fn spells(text: &str, nanos: u128) -> bool {
    match read_moment(text) {
        Ok(moment) => moment.nanos() == nanos,
        Err(_) => false,
    }
}

#[test]
fn moments_are_read(rt: HostRuntime) {
    for (text, nanos) in MOMENTS {
        holds(&rt, text, spells(text, nanos));
    }
    for text in NO_MOMENTS {
        holds(&rt, text, read_moment(text) == Err(TextFault::BadMoment));
    }
}

fn is_printed(rt: &(impl Abort + AllocGlobal), nanos: u128, want: &str) {
    let moment = Moment::of(nanos).expect(rt, "before the year 10000");
    let text = print_moment(rt.alloc(), moment).expect(rt, "memory");
    holds(rt, want, text.as_str() == want);
}

#[test]
fn moments_are_printed(rt: HostRuntime) {
    is_printed(&rt, 1_709_208_000_500_000_000, "2024-02-29T12:00:00.5Z");
    is_printed(&rt, 1_735_689_599_000_000_000, "2024-12-31T23:59:59Z");
    let late = Moment::of(253_402_300_800_000_000_000);
    holds(&rt, "the year 10000", late.is_none());
}

fn user() -> Account {
    Account::of(BYTES)
}

fn pool() -> Account {
    Account::Module(Module::Bonded)
}

fn put(
    rt: &impl Abort,
    amounts: &mut BTreeMap<(Account, Account), u64>,
    pair: (Account, Account),
    amount: u64,
) {
    let put: Result<_, _> = amounts.insert(pair, amount);
    holds(rt, "a new pair", put.ok() == Some(None));
}

#[test]
fn accounts_and_pairs_are_keys(rt: HostRuntime) {
    let mut amounts: BTreeMap<(Account, Account), u64> = BTreeMap::new(rt.alloc());
    put(&rt, &mut amounts, (pool(), user()), 2);
    put(&rt, &mut amounts, (user(), pool()), 1);
    let amount = amounts.get(&(user(), pool())).copied();
    holds(&rt, "the amount of a pair", amount == Some(1));
    holds(
        &rt,
        "users stand first",
        amounts.first_key_value() == Some((&(user(), pool()), &1)),
    );
}

#[test]
fn denominations_are_keys(rt: HostRuntime) {
    let denom = read_denom("uatom").expect(&rt, "a denomination");
    let mut counts: HashMap<Denom, u64> = HashMap::new(rt.alloc());
    let put: Result<_, _> = counts.insert(denom, 7);
    holds(&rt, "a new denomination", put.ok() == Some(None));
    holds(&rt, "its count", counts.get(&denom).copied() == Some(7));
}

#[test]
fn copies_are_equal(rt: HostRuntime) {
    let pair = (7u128, Module::Distribution);
    holds(&rt, "of a pair", pair.copied() == Ok(pair));
    let triple = (true, BondStatus::Unbonding, 3u8);
    holds(&rt, "of three", triple.copied() == Ok(triple));
}

fn ticks_twice<L: Ledger>(blank: Blank)
    requires name { blank.name ≡ L.name }
    requires parts { blank.parts ≡ L.parts }
    requires some { 0 < L.parts }
{
    let mut steps: Steps<L> = Steps::new(blank);
    steps.tick();
    steps.tick();
}

#[test]
fn a_caller_that_counts_nothing_starts_from_a_blank() {
    ticks_twice::<Brand>(Blank::new(1));
}

fn is_shown(rt: &(impl Abort + AllocGlobal), fault: impl Display + Drop, want: &str) {
    let text = format!(in rt.alloc(); "{fault}").expect(rt, "memory");
    holds(rt, want, text.as_str() == want);
}

#[test]
fn the_text_of_a_fault_is_its_name(rt: HostRuntime) {
    is_shown(&rt, TextFault::BadAddress, "BadAddress");
    is_shown(&rt, TextFault::BadMoment, "BadMoment");
    is_shown(&rt, TextFault::BadDenom, "BadDenom");
    is_shown(&rt, TextFault::NoMemory, "NoMemory");
    is_shown(&rt, TableFault::NoMemory, "NoMemory");
    is_shown(&rt, TableFault::Spent, "Spent");
}
