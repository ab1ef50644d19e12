//! Delegations are counted one by one, and then what is left of each validator for its operator.

ghost use Rattle.std.specs.Prelude.{◌≡◌, IfErr, OnOk};
ghost use Rattle.std.specs.List.{filter_map};
ghost use Rattle.base_types.specs.Orders.{addr_cmp};
ghost use Rattle.base_roles.specs.Entries.{at};
ghost use Rattle.mod_tally.specs.Counting.{closed, counted, left_counted, walked, CanClose, CanCount, CanCountLeft, CanWalk};
ghost use Rattle.mod_tally.specs.Taken.{delegation_in};

use crate::ballots::Ballots;
use crate::choice::Choice;
use crate::fault::TallyFault;
use crate::outcome::Tally;
use crate::polls::Poll;
use crate::totals::add_value;
use base_decimals::Dec;
use base_roles::Item;
use base_types::Addr;
use std::collections::BTreeMap;

/// Shares, by operator and delegator.
fn delegation_in(item: &Item) -> Option<((Addr, Addr), Dec)>
    ensures { result ≡ delegation_in item.now }
{
    match item {
        Item::Delegation {
            operator,
            delegator,
            shares,
        } => Some(((*operator, *delegator), *shares)),
        _ => None,
    }
}

/// Counts a delegation whose delegator chose this, if it cast a ballot: its value is added, and its shares are
/// taken from what the operator votes for.
fn count_delegation(
    polls: &mut BTreeMap<Addr, Poll>,
    totals: &mut Tally,
    choice: Option<Choice>,
    operator: Addr,
    shares: Dec,
) -> Result<(), TallyFault>
    requires { CanCount choice (at addr_cmp polls.old.entries operator) shares totals.old }
    ensures counted { OnOk result ((polls.new.entries, totals.new)
        ≡ counted choice (at addr_cmp polls.old.entries operator) operator shares
        (polls.old.entries, totals.old)) }
    ensures fault { IfErr result (λ fault. fault ≡ TallyFault.NoMemory) }
{
    let Some(choice) = choice else {
        return Ok(());
    };
    let Some(poll) = polls.get(&operator).copied() else {
        return Ok(());
    };
    add_value(totals, choice, &poll, shares);
    let left = poll.left.sub(shares);
    polls.insert(operator, Poll { left, ..poll })?;
    Ok(())
}

/// Counts the delegations among items.
pub(crate) fn count_delegations(
    polls: &mut BTreeMap<Addr, Poll>,
    totals: &mut Tally,
    items: &[Item],
    ballots: &Ballots,
) -> Result<(), TallyFault>
    requires { CanWalk (at addr_cmp ballots.now) (filter_map delegation_in items.now)
        (polls.old.entries, totals.old) }
    ensures walked { OnOk result ((polls.new.entries, totals.new)
        ≡ walked (at addr_cmp ballots.now) (filter_map delegation_in items.now)
        (polls.old.entries, totals.old)) }
    ensures fault { IfErr result (λ fault. fault ≡ TallyFault.NoMemory) }
{
    for item in items {
        if let Some((who, shares)) = delegation_in(item) {
            let choice = ballots.choice_of(&who.1);
            count_delegation(polls, totals, choice, who.0, shares)?;
        }
    }
    Ok(())
}

/// Counts what is left of a validator whose operator chose this, if it cast a ballot.
fn count_left(totals: &mut Tally, choice: Option<Choice>, poll: &Poll)
    requires { CanCountLeft choice poll.now totals.old }
    ensures { totals.new ≡ left_counted choice poll.now totals.old }
{
    if let Some(choice) = choice {
        add_value(totals, choice, poll, poll.left);
    }
}

/// Counts what is left of each validator for its operator.
pub(crate) fn count_operators(polls: &BTreeMap<Addr, Poll>, totals: &mut Tally, ballots: &Ballots)
    requires { CanClose (at addr_cmp ballots.now) polls.now.entries totals.old }
    ensures { totals.new ≡ closed (at addr_cmp ballots.now) polls.now.entries totals.old }
{
    for (operator, poll) in polls {
        count_left(totals, ballots.choice_of(operator), poll);
    }
}
