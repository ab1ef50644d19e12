//! By how much a reward may lie below the low bound.

ghost use Rattle.std.specs.Prelude.{◌≡◌, ℕ, List, ◌+◌, ◌^◌, ◌≤◌, ◌++◌, ◌∷◌, [], IfOk, IfErr, Ok, count_by, map, true};
ghost use Rattle.base_coins.specs.declared.fault.CoinFault.TheVariants.{NoMemory};
ghost use Rattle.mod_statement.specs.Entries.{AreBehind, is_behind, is_end, is_touch};
ghost use Rattle.mod_statement.specs.Faults.{IsOverDue};
ghost use Rattle.mod_statement.specs.Slack.{factor_after, first_stretch as first_stretch_of, given as given_of, number_after, rate_of as rate_of_stretch, slack_coins, slack_in as slack_in_of, stretches_of as stretches_of_entries, with_stretch};

use crate::denoms::denoms_of;
use crate::entry::Entry;
use crate::rounding::{ONE, decimal, part_up, product, quotient_up, whole_up};
use base_coins::{CoinFault, DecCoin, DecCoins};
use base_decimals::{Dec, Over};
use base_types::Denom;
use std::alloc::Global;

/// The factor of a slack as far as its stretches are walked, and the rate of the last of these: what it
/// gave to one token.
#[derive(Clone, Copy, Debug)]
pub(crate) struct Factor {
    pub sum: Dec,
    pub rate: Dec,
}

/// Each denomination of a slack with its amount.
pub(crate) fn slack_of(
    alloc: Global,
    first: Dec,
    rest: &[Entry],
    removals: u64,
    ratio: &DecCoins,
) -> Result<DecCoins, CoinFault>
    requires { AreBehind rest.now }
    ensures slack { IfOk result
        (λ slack. slack_coins first rest.now removals ratio.now ≡ Ok slack) }
    ensures fault { IfErr result (IsOverDue (slack_coins first rest.now removals ratio.now)) }
{
    let denoms = denoms_of(alloc, ratio, rest)?;
    let mut slacks = Vec::new(alloc);
    for denom in &denoms {
        let amount = slack_in(denom, first, rest, removals, ratio)?;
        put_slack(&mut slacks, *denom, amount)?;
    }
    DecCoins::of(slacks)
}

/// Puts a denomination with its slack at the end.
fn put_slack(slacks: &mut Vec<DecCoin>, denom: Denom, amount: Dec) -> Result<(), CoinFault>
    ensures coin { IfOk result
        (λ _. map {B = List ℕ × ℕ} (λ c. (c.denom, c.amount)) slacks.new.items
        ≡ map (λ c. (c.denom, c.amount)) slacks.old.items ++ (denom, amount) ∷ []) }
    ensures fault { IfErr result (λ fault. fault ≡ NoMemory) }
{
    slacks.push(DecCoin { denom, amount })?;
    Ok(())
}

/// The slack in a denomination.
fn slack_in(
    denom: &Denom,
    first: Dec,
    rest: &[Entry],
    removals: u64,
    ratio: &DecCoins,
) -> Result<Dec, Over>
    requires { AreBehind rest.now }
    ensures { result ≡ slack_in_of denom.now first rest.now removals ratio.now }
{
    let factor = Factor::of_stretches(denom, first, rest)?;
    let clamped = product(factor.rate, touches_in(rest) as u128 + 2)?;
    let within = factor.sum.add(clamped)?;
    let overclaim = product(ratio.amount_of(denom), u128::from(removals))?;
    let all = within.add(overclaim)?;
    Ok(whole_up(all))
}

impl Factor {
    /// The factor of all stretches.
    fn of_stretches(denom: &Denom, first: Dec, entries: &[Entry]) -> Result<Factor, Over>
        requires { AreBehind entries.now }
        ensures { result ≡ stretches_of_entries denom.now first entries.now }
    {
        let zero = decimal(0);
        let none = Factor {
            sum: zero,
            rate: zero,
        };
        let begun = none.with_stretch(denom, first, 1, first_stretch(entries))?;
        let mut factor = begun;
        let mut number = 1;
        for (place, entry) in entries.iter().enumerate() {
            let (_, rest) = entries.split_at(place + 1);
            factor = factor.behind(denom, first, number, entry, rest)?;
            number = next_number(number, entry);
        }
        Ok(factor)
    }

    /// The factor behind an entry, with the stretch that follows it where it is a slash.
    fn behind(
        self,
        denom: &Denom,
        first: Dec,
        number: u128,
        entry: &Entry,
        rest: &[Entry],
    ) -> Result<Factor, Over>
        requires behind { AreBehind rest.now }
        requires room { number ≤ 2 ^ 64 }
        ensures { result ≡ factor_after denom.now first number entry.now rest.now self }
    {
        if entry.is_slash() {
            self.with_stretch(denom, first, number + 1, first_stretch(rest))
        } else {
            Ok(self)
        }
    }

    /// The factor with one more stretch, of this number.
    fn with_stretch(
        self,
        denom: &Denom,
        first: Dec,
        number: u128,
        stretch: &[Entry],
    ) -> Result<Factor, Over>
        requires { AreBehind stretch.now }
        ensures { result ≡ with_stretch denom.now first number stretch.now self }
    {
        let one = decimal(ONE);
        let ended = product(first, ends_in(stretch) as u128)?;
        let alone = one.add(ended)?;
        let more = one.add(first)?;
        let weight = product(more, number)?;
        let rate = rate_of(denom, stretch)?;
        let spread = quotient_up(weight, rate.raw(), ONE)?;
        let part = alone.add(spread)?;
        let sum = self.sum.add(part)?;
        Ok(Factor { sum, rate })
    }
}

/// How many periods ended.
fn ends_in(entries: &[Entry]) -> usize
    ensures { result ≡ count_by is_end entries.now }
{
    entries.iter().filter(|entry| entry.is_end()).count()
}

/// How often shares were about to change.
fn touches_in(entries: &[Entry]) -> usize
    ensures { result ≡ count_by is_touch entries.now }
{
    entries.iter().filter(|entry| entry.is_touch()).count()
}

/// The number of the stretch behind an entry.
fn next_number(number: u128, entry: &Entry) -> u128
    requires { number ≤ 2 ^ 64 }
    ensures number { result ≡ number_after number entry.now }
    ensures most { result ≤ number + 1 }
{
    if entry.is_slash() { number + 1 } else { number }
}

/// The entries before the first slash.
fn first_stretch(entries: &[Entry]) -> &[Entry]
    ensures { result.now ≡ first_stretch_of entries.now }
{
    for (place, entry) in entries.iter().enumerate() {
        if entry.is_slash() {
            let (stretch, _) = entries.split_at(place);
            return stretch;
        }
    }
    entries
}

/// What the entries of a stretch give to one token.
fn rate_of(denom: &Denom, stretch: &[Entry]) -> Result<Dec, Over>
    requires { AreBehind stretch.now }
    ensures { result ≡ rate_of_stretch denom.now 0 stretch.now }
{
    let mut rate = decimal(0);
    for entry in stretch {
        rate = rate.add(given(denom, entry))?;
    }
    Ok(rate)
}

/// What an entry gives to one token, rounded up.
fn given(denom: &Denom, entry: &Entry) -> Dec
    requires { is_behind entry.now ≡ true }
    ensures { result ≡ given_of denom.now entry.now }
{
    match entry {
        Entry::Allocated { coins, tokens } if *tokens > 0 => {
            part_up(coins.amount_of(denom), 1, *tokens)
        }
        _ => decimal(0),
    }
}
