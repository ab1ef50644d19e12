//! The report of a state with an item of each kind, and the answers to questions about it.

use crate::checks::holds;
use base_bech32::Form;
use base_coins::{DecCoin, DecCoins};
use base_decimals::Dec;
use base_messages::Pending;
use base_roles::{
    Commission, Item, Listed, Purse, RedelegationEntry, SigningInfo, UnbondingEntry, Validator,
};
use base_types::{Account, Addr, BondStatus, ConsAddr, Denom, Module, Moment};
use line_report::{Query, query, report};
use std::process::Abort;

const ONES_LINE: &str =
    "{\"address\":\"1111111111111111111111111111111111111111\",\"coins\":[{\"amount\":\"5\",\"denom\":\"stake\"},{\"amount\":\"890\",\"denom\":\"uatom\"}],\"kind\":\"account\"}\n";

const VALIDATOR_LINE: &str =
    "{\"commission\":[{\"amount\":\"0.500000000000000000\",\"denom\":\"uatom\"}],\"cons\":\"2222222222222222222222222222222222222222\",\"jailed\":true,\"kind\":\"validator\",\"operator\":\"3333333333333333333333333333333333333333\",\"outstanding\":[{\"amount\":\"1.500000000000000000\",\"denom\":\"uatom\"}],\"rate\":\"0.100000000000000000\",\"shares\":\"150.000000000000000000\",\"status\":\"unbonding\",\"tokens\":\"149\"}\n";

const ONES_DELEGATION: &str =
    "{\"delegator\":\"1111111111111111111111111111111111111111\",\"kind\":\"delegation\",\"shares\":\"100.000000000000000000\",\"validator\":\"3333333333333333333333333333333333333333\"}\n";

const TWOS_DELEGATION: &str =
    "{\"delegator\":\"2222222222222222222222222222222222222222\",\"kind\":\"delegation\",\"shares\":\"50.000000000000000000\",\"validator\":\"3333333333333333333333333333333333333333\"}\n";

const ONES_PENDING: &str =
    "{\"delegator\":\"1111111111111111111111111111111111111111\",\"kind\":\"pending\",\"limit\":true,\"validator\":\"3333333333333333333333333333333333333333\"}\n";

const TWOS_PENDING: &str =
    "{\"coins\":[{\"amount\":\"0.250000000000000000\",\"denom\":\"uatom\"}],\"delegator\":\"2222222222222222222222222222222222222222\",\"kind\":\"pending\",\"validator\":\"3333333333333333333333333333333333333333\"}\n";

const UNBONDINGS: &str =
    "{\"balance\":\"950\",\"completes\":\"2024-01-01T00:00:05Z\",\"created\":7,\"delegator\":\"1111111111111111111111111111111111111111\",\"initial\":\"1000\",\"kind\":\"unbonding\",\"validator\":\"3333333333333333333333333333333333333333\"}\n{\"balance\":\"0\",\"completes\":\"2024-01-01T00:00:05Z\",\"created\":8,\"delegator\":\"1111111111111111111111111111111111111111\",\"initial\":\"12\",\"kind\":\"unbonding\",\"validator\":\"3333333333333333333333333333333333333333\"}\n";

const REDELEGATION: &str =
    "{\"completes\":\"2024-01-01T00:00:05Z\",\"created\":8,\"delegator\":\"1111111111111111111111111111111111111111\",\"initial\":\"5\",\"kind\":\"redelegation\",\"shares\":\"5.000000000000000000\",\"source\":\"2222222222222222222222222222222222222222\",\"target\":\"3333333333333333333333333333333333333333\"}\n";

const SIGNING: &str =
    "{\"cons\":\"2222222222222222222222222222222222222222\",\"counted\":9,\"jailed_until\":\"2024-01-01T00:00:05Z\",\"kind\":\"signing\",\"missed\":2,\"start\":1,\"tombstoned\":true}\n";

const POOL: &str =
    "{\"coins\":[{\"amount\":\"0.250000000000000000\",\"denom\":\"uatom\"}],\"kind\":\"pool\"}\n";

fn addr(rt: &impl Abort, byte: u8) -> Addr {
    Addr::of([byte; 20]).expect(rt, "a user")
}

fn user(rt: &impl Abort, byte: u8) -> Account {
    Account::User(addr(rt, byte))
}

fn dec(rt: &impl Abort, raw: u128) -> Dec {
    Dec::from_raw(raw).expect(rt, "below the limit")
}

fn time(rt: &impl Abort) -> Moment {
    Moment::of(1_704_067_205_000_000_000).expect(rt, "a moment")
}

fn balance(rt: &impl Abort, account: Account, name: &str, amount: u128) -> Item {
    Item::Balance {
        account,
        denom: Denom::of(name.as_bytes()).expect(rt, "a denomination"),
        amount,
    }
}

/// So many units of 10^-18 of `uatom`.
fn part(rt: &(impl Abort + AllocGlobal), raw: u128) -> DecCoins {
    let coin = DecCoin {
        denom: Denom::of(b"uatom".as_slice()).expect(rt, "a denomination"),
        amount: dec(rt, raw),
    };
    let list = vec![in rt.alloc(); coin].expect(rt, "memory");
    DecCoins::of(list).expect(rt, "coins")
}

/// Adds an item.
fn put(rt: &impl Abort, items: &mut Vec<Item>, item: Item) {
    match items.push(item) {
        Ok(()) => (),
        Err(_) => rt.panic("memory"),
    }
}

/// What the worked run leaves, in the order of rows, where modules stand before users.
fn run_items(rt: &(impl Abort + AllocGlobal)) -> Vec<Item> {
    let denom = Denom::of(b"uatom".as_slice()).expect(rt, "a denomination");
    let supply = Item::Supply {
        denom,
        amount: 1000,
    };
    let pool = Item::Pool {
        coins: DecCoins::new(rt.alloc()),
    };
    let collector = Account::Module(Module::FeeCollector);
    let mut items = Vec::new(rt.alloc());
    put(rt, &mut items, balance(rt, collector, "uatom", 10));
    put(rt, &mut items, balance(rt, user(rt, 0x11), "uatom", 890));
    put(rt, &mut items, balance(rt, user(rt, 0x22), "uatom", 100));
    put(rt, &mut items, supply);
    put(rt, &mut items, pool);
    items
}

fn validator(rt: &impl Abort) -> Validator {
    Validator {
        operator: addr(rt, 0x33),
        cons: ConsAddr::of([0x22; 20]),
        status: BondStatus::Unbonding,
        jailed: true,
        tokens: 149,
        shares: dec(rt, 150_000_000_000_000_000_000),
        commission: Commission {
            rate: dec(rt, 100_000_000_000_000_000),
            max_rate: dec(rt, 1_000_000_000_000_000_000),
            max_change: dec(rt, 0),
            updated: time(rt),
        },
        min_self: 1,
        unbonding_height: 7,
        unbonding_time: time(rt),
    }
}

fn delegation(rt: &impl Abort, delegator: u8, shares: u128) -> Item {
    Item::Delegation {
        operator: addr(rt, 0x33),
        delegator: addr(rt, delegator),
        shares: dec(rt, shares),
    }
}

fn unbonding(rt: &(impl Abort + AllocGlobal)) -> Item {
    let first = UnbondingEntry {
        created: 7,
        completes: time(rt),
        initial: 1000,
        balance: 950,
    };
    let second = UnbondingEntry {
        created: 8,
        completes: time(rt),
        initial: 12,
        balance: 0,
    };
    let entries = vec![in rt.alloc(); first, second].expect(rt, "memory");
    Item::Unbonding {
        delegator: addr(rt, 0x11),
        operator: addr(rt, 0x33),
        entries: Listed::of(entries),
    }
}

fn redelegation(rt: &(impl Abort + AllocGlobal)) -> Item {
    let entry = RedelegationEntry {
        created: 8,
        completes: time(rt),
        initial: 5,
        shares_dst: dec(rt, 5_000_000_000_000_000_000),
    };
    let entries = vec![in rt.alloc(); entry].expect(rt, "memory");
    Item::Redelegation {
        delegator: addr(rt, 0x11),
        source: addr(rt, 0x22),
        target: addr(rt, 0x33),
        entries: Listed::of(entries),
    }
}

fn pool(rt: &(impl Abort + AllocGlobal)) -> Item {
    Item::Pool {
        coins: part(rt, 250_000_000_000_000_000),
    }
}

fn purse(rt: &(impl Abort + AllocGlobal)) -> Item {
    Item::Purse {
        operator: addr(rt, 0x33),
        purse: Purse {
            outstanding: part(rt, 1_500_000_000_000_000_000),
            commission: part(rt, 500_000_000_000_000_000),
            current: part(rt, 1),
        },
    }
}

fn signing(rt: &(impl Abort + AllocGlobal)) -> Item {
    Item::Signing {
        cons: ConsAddr::of([0x22; 20]),
        info: SigningInfo {
            start: 1,
            counted: 9,
            missed: 2,
            jailed_until: time(rt),
            tombstoned: true,
        },
        ring: Listed::new(rt.alloc()),
    }
}

/// An item of each kind that has a line, and not in the order of the report.
fn items(rt: &(impl Abort + AllocGlobal)) -> Vec<Item> {
    let validator = Item::Validator {
        validator: validator(rt),
    };
    let mut items = Vec::new(rt.alloc());
    put(rt, &mut items, pool(rt));
    put(
        rt,
        &mut items,
        delegation(rt, 0x22, 50_000_000_000_000_000_000),
    );
    put(
        rt,
        &mut items,
        delegation(rt, 0x11, 100_000_000_000_000_000_000),
    );
    put(rt, &mut items, purse(rt));
    put(rt, &mut items, validator);
    put(rt, &mut items, redelegation(rt));
    put(rt, &mut items, unbonding(rt));
    put(rt, &mut items, signing(rt));
    put(rt, &mut items, balance(rt, user(rt, 0x11), "uatom", 890));
    put(rt, &mut items, balance(rt, user(rt, 0x11), "stake", 5));
    items
}

/// What is pending for a delegator, or nothing that fits.
fn pending_of(rt: &impl Abort, delegator: u8, coins: Option<DecCoins>) -> Pending {
    Pending {
        delegator: addr(rt, delegator),
        operator: addr(rt, 0x33),
        coins,
    }
}

fn pending(rt: &(impl Abort + AllocGlobal)) -> Vec<Pending> {
    let mut pending = Vec::new(rt.alloc());
    let coins = part(rt, 250_000_000_000_000_000);
    let second = pending.push(pending_of(rt, 0x22, Some(coins)));
    holds(rt, "memory", second.is_ok());
    let first = pending.push(pending_of(rt, 0x11, None));
    holds(rt, "memory", first.is_ok());
    pending
}

/// Whether the answer to a question about the items is this text.
fn answers(
    rt: &(impl Abort + AllocGlobal),
    items: &[Item],
    pending: &[Pending],
    what: Query,
    wanted: Option<&str>,
) -> bool {
    let answer = query(Form::Hex, rt.alloc(), items, pending, &what).expect(rt, "memory");
    match (answer, wanted) {
        (Some(text), Some(wanted)) => text.as_slice() == wanted.as_bytes(),
        (None, None) => true,
        _ => false,
    }
}

#[test]
fn each_kind_has_its_lines_in_order(rt: HostRuntime) {
    let items = items(&rt);
    let pending = pending(&rt);
    let text = report(Form::Hex, rt.alloc(), items.as_slice(), pending.as_slice());
    let wanted = format!(in rt.alloc();
        "{{\"coins\":[],\"kind\":\"supply\"}}\n{ONES_LINE}{VALIDATOR_LINE}{ONES_DELEGATION}{TWOS_DELEGATION}{ONES_PENDING}{TWOS_PENDING}{UNBONDINGS}{REDELEGATION}{SIGNING}{POOL}"
    );
    let wanted = wanted.expect(&rt, "memory");
    let text = text.expect(&rt, "memory");
    holds(&rt, "the report", text.as_slice() == wanted.as_bytes());
}

#[test]
fn a_question_is_answered_by_the_lines_of_its_address(rt: HostRuntime) {
    let items = items(&rt);
    let pending = pending(&rt);
    for (case, what, wanted) in [
        (
            "an account",
            Query::Account(user(&rt, 0x11)),
            Some(ONES_LINE),
        ),
        ("no account", Query::Account(user(&rt, 0x22)), None),
        (
            "a validator",
            Query::Validator(user(&rt, 0x33)),
            Some(VALIDATOR_LINE),
        ),
        ("no validator", Query::Validator(user(&rt, 0x11)), None),
        (
            "a delegation",
            Query::Delegations(user(&rt, 0x22)),
            Some(TWOS_DELEGATION),
        ),
        ("no delegation", Query::Delegations(user(&rt, 0x33)), None),
        (
            "rewards",
            Query::Rewards(user(&rt, 0x11)),
            Some(ONES_PENDING),
        ),
        ("no rewards", Query::Rewards(user(&rt, 0x33)), None),
        (
            "unbondings",
            Query::Unbondings(user(&rt, 0x11)),
            Some(UNBONDINGS),
        ),
        ("no unbondings", Query::Unbondings(user(&rt, 0x22)), None),
        (
            "redelegations",
            Query::Redelegations(user(&rt, 0x11)),
            Some(REDELEGATION),
        ),
        (
            "no redelegations",
            Query::Redelegations(user(&rt, 0x22)),
            None,
        ),
        (
            "a signing record",
            Query::Signing(ConsAddr::of([0x22; 20])),
            Some(SIGNING),
        ),
        (
            "no signing record",
            Query::Signing(ConsAddr::of([0x11; 20])),
            None,
        ),
    ] {
        holds(&rt, case, answers(&rt, &items, &pending, what, wanted));
    }
}

#[test]
fn a_question_about_all_has_an_answer_without_lines(rt: HostRuntime) {
    let items = run_items(&rt);
    let supply = "{\"coins\":[{\"amount\":\"1000\",\"denom\":\"uatom\"}],\"kind\":\"supply\"}\n";
    let pool = "{\"coins\":[],\"kind\":\"pool\"}\n";
    let line =
        "{\"address\":\"fee_collector\",\"coins\":[{\"amount\":\"10\",\"denom\":\"uatom\"}],\"kind\":\"account\"}\n";
    for (case, what, wanted) in [
        ("the supply", Query::Supply, Some(supply)),
        ("the pool", Query::Pool, Some(pool)),
        ("no validators", Query::Validators, Some("")),
        (
            "a module",
            Query::Account(Account::Module(Module::FeeCollector)),
            Some(line),
        ),
        (
            "a module without coins",
            Query::Account(Account::Module(Module::Bonded)),
            None,
        ),
        (
            "a module's delegations",
            Query::Delegations(Account::Module(Module::FeeCollector)),
            None,
        ),
    ] {
        holds(&rt, case, answers(&rt, &items, &[], what, wanted));
    }
}
