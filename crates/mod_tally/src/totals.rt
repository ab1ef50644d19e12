//! Totals of choices.

ghost use Rattle.std.specs.Prelude.{◌≡◌, ◌+◌, ◌^◌, ◌<◌};
ghost use Rattle.mod_tally.specs.Counting.{nothing_counted, raised, total_for, worth_at, HasRoom};

use crate::choice::Choice;
use crate::outcome::Tally;
use crate::polls::Poll;
use base_decimals::Dec;
use base_shares::value_even;

/// No stake for any choice.
pub(crate) fn nothing_counted(bonded: u128) -> Tally
    ensures { result ≡ nothing_counted bonded }
{
    let none = Dec::from_raw(0).unwrap();
    Tally {
        yes: none,
        abstain: none,
        no: none,
        veto: none,
        bonded,
    }
}

/// Adds to the total of a choice.
fn raise(totals: &mut Tally, choice: Choice, more: Dec)
    requires { total_for totals.old choice + more < 10 ^ 38 }
    ensures { totals.new ≡ raised choice more totals.old }
{
    match choice {
        Choice::Yes => totals.yes = totals.yes.add(more).unwrap(),
        Choice::Abstain => totals.abstain = totals.abstain.add(more).unwrap(),
        Choice::No => totals.no = totals.no.add(more).unwrap(),
        Choice::Veto => totals.veto = totals.veto.add(more).unwrap(),
    }
}

/// Adds the value of a part of a validator's shares to the total of a choice.
pub(crate) fn add_value(totals: &mut Tally, choice: Choice, poll: &Poll, part: Dec)
    requires { HasRoom choice poll.now part totals.old }
    ensures { totals.new ≡ raised choice (worth_at poll.now part) totals.old }
{
    raise(totals, choice, value_even(poll.tokens, poll.shares, part));
}
