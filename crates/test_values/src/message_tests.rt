//! Copies of messages, blocks and a genesis, and want of memory as a fault.

use crate::checks::holds;
use crate::values::{atom, coins, dec, moment, params, user};
use base_coins::{Coin, Coins};
use base_messages::{
    BeginRedelegate, Block, BlockFault, CancelUnbonding, CommunityPoolSpend, CreateValidator,
    Delegate, EditValidator, Evidence, FundCommunityPool, Genesis, GenesisAccount,
    GenesisDelegation, GenesisValidator, LineFault, Msg, Send, SetWithdrawAddress, Tx, Undelegate,
    Unjail, UpdateParams, Vote, WithdrawCommission, WithdrawReward,
};
use base_roles::Listed;
use base_types::{Account, Addr, ConsAddr, Copied, Denom, Module, TableFault};
use std::alloc::{AllocError, AllocFailed};
use std::process::Abort;

/// Three of one denomination.
fn coin(rt: &impl Abort) -> Coin {
    Coin {
        denom: atom(rt),
        amount: 3,
    }
}

/// The account of distribution.
fn pool() -> Account {
    Account::Module(Module::Distribution)
}

/// Adds a message.
fn put(rt: &impl Abort, messages: &mut Vec<Msg>, message: Msg) {
    match messages.push(message) {
        Ok(()) => {}
        Err(_) => rt.panic("memory"),
    }
}

/// Adds messages that make, change or leave a stake.
fn put_stakes(rt: &impl Abort, messages: &mut Vec<Msg>, delegator: Addr, validator: Addr) {
    let delegate = Delegate {
        delegator,
        validator,
        amount: coin(rt),
    };
    put(rt, messages, Msg::Delegate(delegate));
    let undelegate = Undelegate {
        delegator,
        validator,
        amount: coin(rt),
    };
    put(rt, messages, Msg::Undelegate(undelegate));
    let redelegate = BeginRedelegate {
        delegator,
        source: validator,
        target: delegator,
        amount: coin(rt),
    };
    put(rt, messages, Msg::BeginRedelegate(redelegate));
    let cancel = CancelUnbonding {
        delegator,
        validator,
        amount: coin(rt),
        creation_height: 5,
    };
    put(rt, messages, Msg::CancelUnbonding(cancel));
}

/// Adds messages of a validator, and one that changes parameters.
fn put_validators(rt: &impl Abort, messages: &mut Vec<Msg>, authority: Addr, validator: Addr) {
    let one = dec(rt, 1);
    let create = CreateValidator {
        validator,
        cons: ConsAddr::of([9; 20]),
        rate: one,
        max_rate: one,
        max_change_rate: one,
        min_self_delegation: 3,
        amount: coin(rt),
    };
    put(rt, messages, Msg::CreateValidator(create));
    let edit = EditValidator {
        validator,
        rate: Some(one),
        min_self_delegation: None,
    };
    put(rt, messages, Msg::EditValidator(edit));
    put(rt, messages, Msg::Unjail(Unjail { validator }));
    let update = UpdateParams {
        authority,
        params: params(rt),
    };
    put(rt, messages, Msg::UpdateParams(update));
}

/// Adds messages about rewards.
fn put_rewards(rt: &impl Abort, messages: &mut Vec<Msg>, delegator: Addr, validator: Addr) {
    let reward = WithdrawReward {
        delegator,
        validator,
    };
    put(rt, messages, Msg::WithdrawReward(reward));
    put(
        rt,
        messages,
        Msg::WithdrawCommission(WithdrawCommission { validator }),
    );
    let payee = SetWithdrawAddress {
        delegator,
        withdraw: pool(),
    };
    put(rt, messages, Msg::SetWithdrawAddress(payee));
}

/// Adds messages with lists of coins.
fn put_coins(rt: &(impl Abort + AllocGlobal), messages: &mut Vec<Msg>, sender: Addr) {
    let send = Send {
        from: sender,
        to: pool(),
        coins: coins(rt, 1),
    };
    put(rt, messages, Msg::Send(send));
    let fund = FundCommunityPool {
        depositor: sender,
        coins: coins(rt, 2),
    };
    put(rt, messages, Msg::FundCommunityPool(fund));
    let spend = CommunityPoolSpend {
        authority: sender,
        recipient: pool(),
        coins: coins(rt, 3),
    };
    put(rt, messages, Msg::CommunityPoolSpend(spend));
}

/// A message of each kind.
fn messages(rt: &(impl Abort + AllocGlobal)) -> Vec<Msg> {
    let (delegator, validator) = (user(rt, 1), user(rt, 2));
    let mut messages = Vec::new(rt.alloc());
    put_validators(rt, &mut messages, delegator, validator);
    put_stakes(rt, &mut messages, delegator, validator);
    put_rewards(rt, &mut messages, delegator, validator);
    put_coins(rt, &mut messages, delegator);
    messages
}

/// Whether two lists of coins hold as much of a denomination.
fn hold_as_much(a: &Coins, b: &Coins, denom: &Denom) -> bool {
    a.amount_of(denom) == b.amount_of(denom)
}

/// Whether two messages that make, change or leave a stake are equal.
fn are_equal_of_stakes(a: &Msg, b: &Msg) -> bool {
    match (a, b) {
        (Msg::Delegate(a), Msg::Delegate(b)) => a == b,
        (Msg::Undelegate(a), Msg::Undelegate(b)) => a == b,
        (Msg::BeginRedelegate(a), Msg::BeginRedelegate(b)) => a == b,
        (Msg::CancelUnbonding(a), Msg::CancelUnbonding(b)) => a == b,
        _ => false,
    }
}

/// Whether two messages of a validator, or that change parameters, are equal.
fn are_equal_of_validators(a: &Msg, b: &Msg) -> bool {
    match (a, b) {
        (Msg::CreateValidator(a), Msg::CreateValidator(b)) => a == b,
        (Msg::EditValidator(a), Msg::EditValidator(b)) => a == b,
        (Msg::Unjail(a), Msg::Unjail(b)) => a == b,
        (Msg::UpdateParams(a), Msg::UpdateParams(b)) => a == b,
        _ => false,
    }
}

/// Whether two messages about rewards are equal.
fn are_equal_of_rewards(a: &Msg, b: &Msg) -> bool {
    match (a, b) {
        (Msg::WithdrawReward(a), Msg::WithdrawReward(b)) => a == b,
        (Msg::WithdrawCommission(a), Msg::WithdrawCommission(b)) => a == b,
        (Msg::SetWithdrawAddress(a), Msg::SetWithdrawAddress(b)) => a == b,
        _ => false,
    }
}

/// Whether two messages with lists of coins are equal, these in one denomination.
fn are_equal_with_coins(a: &Msg, b: &Msg, denom: &Denom) -> bool {
    match (a, b) {
        (Msg::Send(a), Msg::Send(b)) => (a.from == b.from)
            & (a.to == b.to)
            & hold_as_much(&a.coins, &b.coins, denom),
        (Msg::FundCommunityPool(a), Msg::FundCommunityPool(b)) => (a.depositor == b.depositor)
            & hold_as_much(&a.coins, &b.coins, denom),
        (Msg::CommunityPoolSpend(a), Msg::CommunityPoolSpend(b)) => (a.authority == b.authority)
            & (a.recipient == b.recipient)
            & hold_as_much(&a.coins, &b.coins, denom),
        _ => false,
    }
}

/// Whether two messages are equal, their lists of coins in one denomination.
fn are_equal(a: &Msg, b: &Msg, denom: &Denom) -> bool {
    are_equal_of_stakes(a, b)
        | are_equal_of_validators(a, b)
        | are_equal_of_rewards(a, b)
        | are_equal_with_coins(a, b, denom)
}

/// Whether the lists have equal messages at each place.
fn all_equal(a: &Listed<Msg>, b: &Listed<Msg>, denom: &Denom) -> bool {
    if a.len() != b.len() {
        return false;
    }
    for (x, y) in a.as_slice().iter().zip(b.as_slice()) {
        if !are_equal(x, y, denom) {
            return false;
        }
    }
    true
}

/// A list of this alone.
fn only<T: Drop>(rt: &(impl Abort + AllocGlobal), it: T) -> Listed<T> {
    let mut list = Vec::new(rt.alloc());
    match list.push(it) {
        Ok(()) => Listed::of(list),
        Err(_) => rt.panic("memory"),
    }
}

/// A block of one vote, one piece of evidence and one transaction.
fn block(rt: &(impl Abort + AllocGlobal)) -> Block {
    let (cons, time) = (ConsAddr::of([9; 20]), moment(rt, 7));
    let tx = Tx {
        payer: user(rt, 1),
        fee: coins(rt, 5),
        msgs: Listed::of(messages(rt)),
    };
    let vote = Vote {
        cons,
        power: 1,
        signed: true,
    };
    let evidence = Evidence {
        cons,
        height: 2,
        time,
        power: 1,
    };
    Block {
        height: 3,
        time,
        votes: only(rt, vote),
        evidence: only(rt, evidence),
        txs: only(rt, tx),
    }
}

/// A genesis of one account, one validator and one delegation.
fn genesis(rt: &(impl Abort + AllocGlobal)) -> Genesis {
    let (operator, one) = (user(rt, 2), dec(rt, 1));
    let account = GenesisAccount {
        address: Account::User(operator),
        coins: coins(rt, 4),
    };
    let validator = GenesisValidator {
        operator,
        cons: ConsAddr::of([9; 20]),
        rate: one,
        max_rate: one,
        max_change_rate: one,
        min_self_delegation: 1,
    };
    let delegation = GenesisDelegation {
        delegator: operator,
        validator: operator,
        amount: 2,
    };
    Genesis {
        time: moment(rt, 7),
        params: params(rt),
        accounts: only(rt, account),
        validators: only(rt, validator),
        delegations: only(rt, delegation),
    }
}

/// That a transaction has equal members, and a message of each kind.
fn is_copied_tx(rt: &impl Abort, tx: &Tx, copy: &Tx) {
    let denom = atom(rt);
    holds(rt, "the payer", copy.payer == tx.payer);
    holds(rt, "the fee", hold_as_much(&copy.fee, &tx.fee, &denom));
    holds(rt, "a message of each kind", tx.msgs.len() == 14);
    holds(rt, "the messages", all_equal(&copy.msgs, &tx.msgs, &denom));
}

#[test]
fn a_copy_of_a_block_has_equal_members(rt: HostRuntime) {
    let block = block(&rt);
    let copy = block.copied().expect(&rt, "memory");
    holds(&rt, "the height", copy.height == 3);
    holds(&rt, "the time", copy.time == block.time);
    holds(
        &rt,
        "the votes",
        copy.votes.as_slice() == block.votes.as_slice(),
    );
    holds(
        &rt,
        "the evidence",
        copy.evidence.as_slice() == block.evidence.as_slice(),
    );
    let tx = block.txs.at(0).expect(&rt, "a transaction");
    is_copied_tx(&rt, tx, copy.txs.at(0).expect(&rt, "a transaction"));
}

#[test]
fn a_copy_of_a_genesis_has_equal_members(rt: HostRuntime) {
    let genesis = genesis(&rt);
    let copy = genesis.copied().expect(&rt, "memory");
    holds(&rt, "the time", copy.time == genesis.time);
    holds(&rt, "the parameters", copy.params == genesis.params);
    holds(
        &rt,
        "the validators",
        copy.validators.as_slice() == genesis.validators.as_slice(),
    );
    holds(
        &rt,
        "the delegations",
        copy.delegations.as_slice() == genesis.delegations.as_slice(),
    );
    let account = genesis.accounts.at(0).expect(&rt, "an account");
    let other = copy.accounts.at(0).expect(&rt, "an account");
    holds(&rt, "the address", other.address == account.address);
    holds(
        &rt,
        "the coins",
        hold_as_much(&other.coins, &account.coins, &atom(&rt)),
    );
}

#[test]
fn want_of_memory_stays_that_of_a_line(rt: HostRuntime) {
    let fault = LineFault::NoMemory;
    holds(&rt, "of memory", LineFault::from(AllocError) == fault);
    holds(
        &rt,
        "of a value",
        LineFault::from(AllocFailed { value: 1u8 }) == fault,
    );
    holds(
        &rt,
        "of a table",
        LineFault::from(TableFault::Spent) == fault,
    );
}

#[test]
fn want_of_memory_stays_that_of_a_block(rt: HostRuntime) {
    let fault = BlockFault::NoMemory;
    holds(&rt, "of memory", BlockFault::from(AllocError) == fault);
    holds(
        &rt,
        "of a value",
        BlockFault::from(AllocFailed { value: 1u8 }) == fault,
    );
    holds(
        &rt,
        "of a table",
        BlockFault::from(TableFault::Spent) == fault,
    );
}
