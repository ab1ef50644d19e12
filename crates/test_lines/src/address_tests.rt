//! Texts of addresses in either form, by values that another program wrote.

use crate::checks::holds;
use base_bech32::Form;
use base_types::{Account, Addr, ConsAddr, Module};
use line_json::{account_of_text, cons_of_text, operator_asked};
use std::process::Abort;

const DIGITS: &str = "2222222222222222222222222222222222222222";

const ACCOUNT: &str = "cosmos1yg3zyg3zyg3zyg3zyg3zyg3zyg3zyg3zwqjy6c";

const OPERATOR: &str = "cosmosvaloper1yg3zyg3zyg3zyg3zyg3zyg3zyg3zyg3zt5x3kt";

const CONS: &str = "cosmosvalcons1yg3zyg3zyg3zyg3zyg3zyg3zyg3zyg3zl84d62";

/// The user of all these texts.
fn user(rt: &impl Abort) -> Option<Account> {
    Some(Account::User(Addr::of([0x22; 20]).expect(rt, "a user")))
}

/// The module of the first address.
fn module() -> Option<Account> {
    Some(Account::Module(Module::FeeCollector))
}

#[test]
fn accounts_are_read_in_either_form(rt: HostRuntime) {
    for (form, text, account) in [
        (Form::Hex, DIGITS, user(&rt)),
        (
            Form::Hex,
            "0000000000000000000000000000000000000001",
            module(),
        ),
        (Form::Hex, ACCOUNT, None),
        (Form::Bech32, ACCOUNT, user(&rt)),
        (
            Form::Bech32,
            "cosmos1qqqqqqqqqqqqqqqqqqqqqqqqqqqqqqqpw45260",
            module(),
        ),
        (Form::Bech32, OPERATOR, None),
        (Form::Bech32, DIGITS, None),
        (Form::Bech32, "fee_collector", None),
    ] {
        holds(&rt, text, account_of_text(form, text) == account);
    }
}

#[test]
fn operators_are_read_in_either_form(rt: HostRuntime) {
    for (form, text, asked) in [
        (Form::Hex, DIGITS, user(&rt)),
        (Form::Hex, OPERATOR, None),
        (Form::Bech32, OPERATOR, user(&rt)),
        (Form::Bech32, ACCOUNT, None),
        (Form::Bech32, CONS, None),
    ] {
        holds(&rt, text, operator_asked(form, text) == asked);
    }
}

#[test]
fn consensus_addresses_are_read_in_either_form(rt: HostRuntime) {
    let cons = ConsAddr::of([0x22; 20]);
    for (form, text, read) in [
        (Form::Hex, DIGITS, Some(cons)),
        (Form::Hex, CONS, None),
        (Form::Bech32, CONS, Some(cons)),
        (Form::Bech32, OPERATOR, None),
    ] {
        holds(&rt, text, cons_of_text(form, text) == read);
    }
}
