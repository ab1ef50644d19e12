//! What the members of written lines tell.

use base_bech32::Form;
use base_coins::{Coins, DecCoins};
use base_decimals::{Dec, OverKind};
use base_roles::Refusal;
use base_types::{Account, Addr, BondStatus, ConsAddr, Denom, Module, Moment};

/// What a member of a written line tells. Amounts, decimals, moments, accounts, denominations and words are
/// strings, counts are numbers, and coins are arrays of objects with `amount` and `denom`.
#[derive(Clone, Copy)]
pub enum Told<'a> {
    /// A word, as a string.
    Word(&'a str),
    /// A height, a place or a period.
    Count(u64),
    /// The number of a refusal.
    Number(Refusal),
    /// Whether something holds.
    Flag(bool),
    /// A whole amount: its digits.
    Amount(u128),
    /// A decimal: its whole part, a point and 18 places.
    Decimal(Dec),
    /// What went past the limit: its word.
    Over(OverKind),
    /// The status of a validator: its word.
    Status(BondStatus),
    /// A moment, as in RFC 3339.
    Moment(Moment),
    /// The address of a user.
    User(Form, &'a Addr),
    /// The address of an operator.
    Operator(Form, &'a Addr),
    /// An account: a user by the address, a module by its name.
    Account(Form, &'a Account),
    /// A module, by its name.
    Module(Module),
    /// A consensus address.
    Cons(Form, &'a ConsAddr),
    /// The name of a denomination.
    Denom(&'a Denom),
    /// Coins with whole amounts.
    Coins(&'a Coins),
    /// Coins with whole amounts, of lent denominations.
    Lent(&'a [(&'a Denom, u128)]),
    /// Coins with decimal amounts.
    DecCoins(&'a DecCoins),
}
