//! Facts, refusals, lists and the values of records: their copies, and faults that become those of callers.

use crate::checks::holds;
use crate::values::{atom, dec, moment, params, user, validator};
use base_coins::{Coin, DecCoin, DecCoins};
use base_decimals::{Over, OverKind};
use base_roles::laws::{banks_stay_in_order, coins_burn_by_amounts, coins_move_by_amounts};
use base_roles::worked::holdings_by_example;
use base_roles::{
    BankFault, CreateValidator, Ctx, Delegation, EditValidator, Evidence, Fact, Facts, Historical,
    HookFault, Listed, MessageFault, Purse, RecordFault, RedelegationEntry, Refusal, SigningInfo,
    SlashEvent, StartingInfo, UnbondingEntry, Vote,
};
use base_types::{ConsAddr, Copied, TableFault};
use std::alloc::{AllocError, AllocFailed};
use std::process::Abort;

/// So many units of one denomination.
fn dec_coins(rt: &(impl Abort + AllocGlobal), raw: u128) -> DecCoins {
    let coin = DecCoin {
        denom: atom(rt),
        amount: dec(rt, raw),
    };
    let mut list = Vec::new(rt.alloc());
    list.push(coin).expect(rt, "memory");
    DecCoins::of(list).expect(rt, "coins")
}

fn is_jailed(fact: Option<&Fact>) -> bool {
    matches!(fact, Some(Fact::Jailed { .. }))
}

fn is_tombstoned(fact: Option<&Fact>) -> bool {
    matches!(fact, Some(Fact::Tombstoned { .. }))
}

#[test]
fn facts_are_put_at_the_end_and_cut(rt: HostRuntime) {
    let mut facts = Facts::new(rt.alloc());
    let validator = user(&rt, 7);
    facts.push(Fact::Jailed { validator }).expect(&rt, "memory");
    let second = facts.push(Fact::Tombstoned { validator });
    second.expect(&rt, "memory");
    holds(&rt, "two facts", facts.len() == 2);
    holds(&rt, "the second", is_tombstoned(facts.at(1)));
    holds(&rt, "no third", facts.at(2).is_none());
    facts.cut(1);
    holds(&rt, "one fact", facts.len() == 1);
    holds(&rt, "the first", is_jailed(facts.at(0)));
}

/// A sum that is over.
const OVER: Over = Over {
    kind: OverKind::Sum,
    a: 1,
    b: 2,
    c: 0,
};

fn has_number(rt: &impl Abort, case: &str, refusal: Refusal, number: u8) {
    holds(rt, case, refusal.number() == number);
}

#[test]
fn refusals_have_the_numbers_of_printed_lines(rt: HostRuntime) {
    has_number(&rt, "funds", Refusal::InsufficientFunds, 1);
    has_number(&rt, "no delegation", Refusal::NoDelegation, 16);
    has_number(
        &rt,
        "still jailed",
        Refusal::StillJailed(moment(&rt, 0)),
        30,
    );
    has_number(&rt, "over", Refusal::Overflow(OVER), 35);
    has_number(&rt, "a range", Refusal::ParamRange(13), 38);
    has_number(&rt, "fixed", Refusal::ParamFixed(10), 39);
    has_number(&rt, "no fee", Refusal::FeeUnpaid, 40);
}

/// Whether a copy is equal to the value.
fn is_copied<T: Copied + PartialEq>(value: T) -> bool {
    match value.copied() {
        Ok(copy) => copy == value,
        Err(_) => false,
    }
}

#[test]
fn copies_of_validators_and_entries_are_equal(rt: HostRuntime) {
    let (one, early) = (dec(&rt, 1), moment(&rt, 7));
    holds(&rt, "a validator", is_copied(validator(&rt, 5)));
    let commission = validator(&rt, 5).commission;
    holds(&rt, "a commission", is_copied(commission));
    holds(&rt, "a delegation", is_copied(Delegation::of(one)));
    let unbonding = UnbondingEntry {
        created: 1,
        completes: early,
        initial: 2,
        balance: 3,
    };
    holds(&rt, "an unbonding entry", is_copied(unbonding));
    let redelegation = RedelegationEntry {
        created: 1,
        completes: early,
        initial: 2,
        shares_dst: one,
    };
    holds(&rt, "a redelegation entry", is_copied(redelegation));
}

#[test]
fn copies_of_signing_and_of_periods_are_equal(rt: HostRuntime) {
    let (one, early) = (dec(&rt, 1), moment(&rt, 7));
    let info = SigningInfo {
        start: 1,
        counted: 2,
        missed: 3,
        jailed_until: early,
        tombstoned: true,
    };
    holds(&rt, "a signing record", is_copied(info));
    let start = StartingInfo {
        period: 1,
        stake: one,
        height: 2,
    };
    holds(&rt, "a start", is_copied(start));
    let event = SlashEvent {
        height: 1,
        period: 2,
        fraction: one,
    };
    holds(&rt, "a slash event", is_copied(event));
}

#[test]
fn copies_of_what_a_block_tells_are_equal(rt: HostRuntime) {
    let (early, cons) = (moment(&rt, 7), ConsAddr::of([9; 20]));
    holds(&rt, "parameters", is_copied(params(&rt)));
    let ctx = Ctx {
        height: 1,
        time: early,
        params: params(&rt),
    };
    holds(&rt, "a context", is_copied(ctx));
    let vote = Vote {
        cons,
        power: 1,
        signed: true,
    };
    holds(&rt, "a vote", is_copied(vote));
    let evidence = Evidence {
        cons,
        height: 1,
        time: early,
        power: 2,
    };
    holds(&rt, "evidence", is_copied(evidence));
}

#[test]
fn copies_of_messages_are_equal(rt: HostRuntime) {
    let (one, validator) = (dec(&rt, 1), user(&rt, 7));
    let edit = EditValidator {
        validator,
        rate: Some(one),
        min_self_delegation: None,
    };
    holds(&rt, "an edit", is_copied(edit));
    let amount = Coin {
        denom: atom(&rt),
        amount: 4,
    };
    let create = CreateValidator {
        validator,
        cons: ConsAddr::of([9; 20]),
        rate: one,
        max_rate: one,
        max_change_rate: one,
        min_self_delegation: 3,
        amount,
    };
    holds(&rt, "a creation", is_copied(create));
}

#[test]
fn a_copy_of_a_purse_has_the_same_coins(rt: HostRuntime) {
    let purse = Purse {
        outstanding: dec_coins(&rt, 1),
        commission: dec_coins(&rt, 2),
        current: dec_coins(&rt, 3),
    };
    let copy = purse.copied().expect(&rt, "memory");
    let atom = atom(&rt);
    holds(
        &rt,
        "outstanding",
        copy.outstanding.amount_of(&atom).raw() == 1,
    );
    holds(
        &rt,
        "commission",
        copy.commission.amount_of(&atom).raw() == 2,
    );
    holds(&rt, "current", copy.current.amount_of(&atom).raw() == 3);
}

#[test]
fn a_copy_of_a_ratio_has_the_same_coins(rt: HostRuntime) {
    let history = Historical {
        ratio: dec_coins(&rt, 4),
        count: 2,
    };
    let copy = history.copied().expect(&rt, "memory");
    holds(
        &rt,
        "the ratio",
        copy.ratio.amount_of(&atom(&rt)).raw() == 4,
    );
    holds(&rt, "the count", copy.count == 2);
}

#[test]
fn faults_of_records_become_those_of_callers(rt: HostRuntime) {
    let fault = RecordFault::NoMemory;
    holds(
        &rt,
        "of a table",
        RecordFault::from(TableFault::Spent) == fault,
    );
    holds(&rt, "of memory", RecordFault::from(AllocError) == fault);
    holds(
        &rt,
        "of a value",
        RecordFault::from(AllocFailed { value: 1u8 }) == fault,
    );
}

#[test]
fn faults_of_the_bank_become_those_of_callers(rt: HostRuntime) {
    let fault = BankFault::NoMemory;
    holds(
        &rt,
        "of a table",
        BankFault::from(TableFault::Spent) == fault,
    );
    holds(
        &rt,
        "of a record",
        BankFault::from(RecordFault::NoMemory) == fault,
    );
    holds(&rt, "of memory", BankFault::from(AllocError) == fault);
    holds(
        &rt,
        "of a value",
        BankFault::from(AllocFailed { value: 1u8 }) == fault,
    );
}

#[test]
fn faults_of_hooks_become_those_of_callers(rt: HostRuntime) {
    let fault = HookFault::NoMemory;
    holds(
        &rt,
        "of a table",
        HookFault::from(TableFault::Spent) == fault,
    );
    holds(
        &rt,
        "of a record",
        HookFault::from(RecordFault::NoMemory) == fault,
    );
    holds(&rt, "of memory", HookFault::from(AllocError) == fault);
    holds(
        &rt,
        "of a value",
        HookFault::from(AllocFailed { value: 1u8 }) == fault,
    );
    holds(&rt, "over", HookFault::from(OVER) == HookFault::Over(OVER));
}

#[test]
fn want_of_memory_becomes_that_of_messages(rt: HostRuntime) {
    let fault = MessageFault::NoMemory;
    holds(
        &rt,
        "of a table",
        MessageFault::from(TableFault::Spent) == fault,
    );
    holds(
        &rt,
        "of a record",
        MessageFault::from(RecordFault::NoMemory) == fault,
    );
    holds(&rt, "of memory", MessageFault::from(AllocError) == fault);
    holds(
        &rt,
        "of a value",
        MessageFault::from(AllocFailed { value: 1u8 }) == fault,
    );
    holds(
        &rt,
        "of a hook",
        MessageFault::from(HookFault::NoMemory) == fault,
    );
    holds(
        &rt,
        "of the bank",
        MessageFault::from(BankFault::NoMemory) == fault,
    );
}

#[test]
fn faults_become_refusals_of_messages(rt: HostRuntime) {
    let over = MessageFault::Refused(Refusal::Overflow(OVER));
    holds(&rt, "over", MessageFault::from(OVER) == over);
    holds(
        &rt,
        "over in a hook",
        MessageFault::from(HookFault::Over(OVER)) == over,
    );
    let funds = MessageFault::Refused(Refusal::InsufficientFunds);
    holds(&rt, "short", MessageFault::from(BankFault::Short) == funds);
    let tokens = MessageFault::Refused(Refusal::NoTokens);
    holds(
        &rt,
        "refused",
        MessageFault::from(Refusal::NoTokens) == tokens,
    );
}

#[test]
fn a_list_gives_back_what_it_was_made_of(rt: HostRuntime) {
    let given = vec![in rt.alloc(); true, false].expect(&rt, "memory");
    let ring = Listed::of(given).copied().expect(&rt, "memory");
    holds(&rt, "two", ring.len() == 2);
    holds(&rt, "the first", ring.at(0) == Some(&true));
    holds(&rt, "no third", ring.at(2).is_none());
    holds(&rt, "the same", ring.as_slice() == [true, false].as_slice());
    let back = ring.into_vec();
    holds(
        &rt,
        "given back",
        back.as_slice() == [true, false].as_slice(),
    );
    let none: Listed<bool> = Listed::new(rt.alloc());
    holds(&rt, "none", none.len() == 0);
}

#[test]
fn facts_give_back_what_they_were_made_of(rt: HostRuntime) {
    let validator = user(&rt, 7);
    let given = vec![in rt.alloc(); Fact::Jailed { validator }].expect(&rt, "memory");
    let back = Facts::of(given).into_vec();
    holds(&rt, "given back", is_jailed(back.get(0)));
}

#[test]
fn laws_are_called(rt: HostRuntime) {
    holdings_by_example();
    coins_move_by_amounts();
    coins_burn_by_amounts();
    banks_stay_in_order();
    has_number(&rt, "no tokens", Refusal::NoTokens, 18);
}
