//! A statement of a withdrawal: it is made, and it is checked.

ghost use Rattle.std.specs.Prelude.{◌≡◌, ℕ, List, ◌≤◌, ◌+◌, ◌↔◌, IsTrue, IfOk, IfErr, nat_le};
ghost use Rattle.std.specs.List.{list_all};
ghost use Rattle.base_coins.specs.Coins.{IsMoney, amount_of};
ghost use Rattle.mod_statement.specs.Answers.{IsAnswer, IsFaultOf, IsRight, IsStatement};
ghost use Rattle.mod_statement.specs.Bounds.{bounds_of as bounds_of_entries};
ghost use Rattle.mod_statement.specs.Bracketed.{IsBracketed};

use crate::bounds::{Bounds, bounds_of};
use crate::entry::Entry;
use crate::fault::StatementFault;
use base_coins::{DecCoin, DecCoins};
use base_roles::Listed;
use base_types::{Addr, Copied, Denom};
use std::alloc::Global;

/// A reward and what it rests on.
#[derive(Debug, Drop)]
pub struct Statement {
    pub delegator: Addr,
    pub operator: Addr,
    /// The height of the withdrawal.
    pub height: u64,
    /// What left the outstanding rewards, before its whole coins were paid.
    pub reward: DecCoins,
    /// The reward that sharing each block's fees at once would give is at least this.
    pub low: DecCoins,
    /// It is at most this, and so is the reward.
    pub high: DecCoins,
    /// By how much the reward may lie below `low`.
    pub slack: DecCoins,
    /// How often shares were about to leave the validator since it was created.
    pub removals: u64,
    /// The ratio of the last period that ended: what one token earned since the validator was created.
    pub ratio: DecCoins,
    /// From the delegator's start to the end of the withdrawal's period.
    pub entries: Listed<Entry>,
}

/// The statement of a withdrawal: `entries` from the delegator's start to the end of the withdrawal's
/// period, and the bounds by these.
///
/// `NoSpan` comes exactly where the entries are no span: a start of some shares, at most all, stands
/// first and nowhere else, the end of a period last; tokens are at most 10^18, and a slash burns at most
/// its tokens, which are some. `Over` comes exactly where an amount of the bounds reaches 10^38 units,
/// with the operands of the first: entry by entry, at each denomination by denomination with the lower
/// value before the upper, and last those of the slack, denomination by denomination.
pub fn make(
    alloc: Global,
    delegator: &Addr,
    operator: &Addr,
    height: u64,
    reward: &DecCoins,
    removals: u64,
    ratio: &DecCoins,
    entries: Vec<Entry>,
) -> Result<Statement, StatementFault>
    ensures statement { IfOk result (λ statement. IsStatement delegator.now operator.now height
        reward.now removals ratio.now entries.items statement) }
    ensures fault { IfErr result
        (IsFaultOf (bounds_of_entries entries.items removals ratio.now)) }
{
    let bounds = bounds_of(alloc, entries.as_slice(), removals, ratio)?;
    let paid = reward.copied()?;
    let last = ratio.copied()?;
    Ok(Statement {
        delegator: *delegator,
        operator: *operator,
        height,
        reward: paid,
        low: bounds.low,
        high: bounds.high,
        slack: bounds.slack,
        removals,
        ratio: last,
        entries: Listed::of(entries),
    })
}

/// Whether a statement is right: its bounds are those of its entries, and its reward is at most `high`
/// and, with the slack, at least `low`. So where it is right, the exact ideal reward of its entries lies
/// between `low` and `high`, and its reward between `low` less `slack` and `high`.
///
/// The errors are those of [`make`], by the same causes.
pub fn check(alloc: Global, statement: &Statement) -> Result<bool, StatementFault>
    ensures answer { IfOk result (IsAnswer statement.now) }
    ensures bracketed { IfOk result (λ yes. IsTrue yes → IsBracketed statement.now) }
    ensures fault { IfErr result (IsFaultOf (bounds_of_entries statement.now.entries
        statement.now.removals statement.now.ratio)) }
{
    let entries = statement.entries.as_slice();
    let due = bounds_of(alloc, entries, statement.removals, &statement.ratio)?;
    Ok(statement.is_right(&due))
}

impl Statement {
    /// Whether the bounds are those that are due, and the reward lies between them.
    fn is_right(&self, due: &Bounds) -> bool
        ensures { IsTrue result ↔ IsRight self.now due.now }
    {
        let same_low = same_coins(&self.low, &due.low);
        let same_high = same_coins(&self.high, &due.high);
        let same_slack = same_coins(&self.slack, &due.slack);
        let at_most = is_at_most(&self.reward, &self.high);
        let at_least = is_covered(&self.low, &self.reward, &self.slack);
        all_hold(&[same_low, same_high, same_slack, at_most, at_least])
    }
}

/// Whether all of these hold.
fn all_hold(tests: &[bool]) -> bool
    ensures { result ≡ list_all (λ test. test) tests.now }
{
    tests.iter().all(|test| *test)
}

/// Whether two lists have the same coins.
fn same_coins(coins: &DecCoins, other: &DecCoins) -> bool
    ensures { IsTrue result ↔ (coins.now ≡ other.now) }
{
    let below = is_at_most(coins, other);
    let above = is_at_most(other, coins);
    all_hold(&[below, above])
}

/// Whether each amount is at most that of another list.
fn is_at_most(coins: &DecCoins, most: &DecCoins) -> bool
    ensures answer { IsTrue result
        ↔ ((d : List ℕ) → amount_of coins.now d ≤ amount_of most.now d) }
    ensures money { IsMoney coins.now }
{
    are_at_most(coins.as_slice(), most)
}

/// Whether each coin is.
fn are_at_most(coins: &[DecCoin], most: &DecCoins) -> bool
    ensures { result ≡ list_all (λ c. nat_le c.amount (amount_of most.now c.denom)) coins.now }
{
    coins.iter().all(|coin| coin.amount.raw() <= most.amount_of(&coin.denom).raw())
}

/// Whether each amount is at most the sum of those of two lists.
fn is_covered(coins: &DecCoins, one: &DecCoins, other: &DecCoins) -> bool
    ensures { IsTrue result ↔ ((d : List ℕ) → amount_of coins.now d
        ≤ amount_of one.now d + amount_of other.now d) }
{
    are_covered(coins.as_slice(), one, other)
}

/// Whether each coin is.
fn are_covered(coins: &[DecCoin], one: &DecCoins, other: &DecCoins) -> bool
    ensures { result ≡ list_all (λ c. nat_le c.amount
        (amount_of one.now c.denom + amount_of other.now c.denom)) coins.now }
{
    coins.iter().all(|coin| coin.amount.raw() <= sum_in(one, other, &coin.denom))
}

/// The sum of the amounts of a denomination in two lists.
fn sum_in(one: &DecCoins, other: &DecCoins, denom: &Denom) -> u128
    ensures { result ≡ amount_of one.now denom.now + amount_of other.now denom.now }
{
    one.amount_of(denom).raw() + other.amount_of(denom).raw()
}
