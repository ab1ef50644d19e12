//! The tally.

ghost use Rattle.std.specs.Prelude.{◌≡◌, ◌^◌, ◌<◌, length, IfErr, IfOk};
ghost use Rattle.base_types.specs.Orders.{addr_cmp};
ghost use Rattle.base_roles.specs.Entries.{at};
ghost use Rattle.mod_tally.specs.Ballots.{chosen_in};
ghost use Rattle.mod_tally.specs.Taken.{staked_in, CanBeTallied};
ghost use Rattle.mod_tally.specs.Tally.{tally_of};

use crate::ballots::Ballots;
use crate::choice::Choice;
use crate::counting::{count_delegations, count_operators};
use crate::fault::TallyFault;
use crate::outcome::Tally;
use crate::polls::{bonded_tokens, polls_in};
use crate::totals::nothing_counted;
use base_roles::Item;
use base_types::Addr;
use std::alloc::Global;

/// How many items there are: few enough that no total of their values exceeds a decimal.
fn item_count(items: &[Item]) -> usize
    ensures value { result ≡ length items.now }
    ensures few { length items.now < 2 ^ 64 }
{
    items.len()
}

/// The tally of ballots that were cast one by one, over the items of a sound state, in whatever order (Cosmos SDK:
/// `Tally` of `x/gov/keeper`).
///
/// Over the bonded validators with shares, each delegation whose delegator cast a ballot counts for its choice
/// with the value of its shares, rounded half to even; and for the operator's choice the value of the validator's
/// shares less those of all delegators with a ballot, where the operator cast one. The only error is `NoMemory`.
pub fn count(alloc: Global, items: &[Item], ballots: &Ballots) -> Result<Tally, TallyFault>
    requires { CanBeTallied (staked_in items.now) }
    ensures tally { IfOk result (λ tally. tally
        ≡ tally_of (staked_in items.now) (at addr_cmp ballots.now)) }
    ensures fault { IfErr result (λ fault. fault ≡ TallyFault.NoMemory) }
{
    // So many values are summed up at most that each total is a decimal.
    item_count(items);
    let mut polls = polls_in(alloc, items)?;
    let mut totals = nothing_counted(bonded_tokens(items));
    count_delegations(&mut polls, &mut totals, items, ballots)?;
    count_operators(&polls, &mut totals, ballots);
    Ok(totals)
}

/// The tally of a list of ballots, in the order in which they were cast: a voter's last ballot counts. The rest is
/// that of [`count`].
pub fn tally(alloc: Global, items: &[Item], ballots: &[(Addr, Choice)]) -> Result<Tally, TallyFault>
    requires { CanBeTallied (staked_in items.now) }
    ensures tally { IfOk result (λ tally. tally
        ≡ tally_of (staked_in items.now) (chosen_in ballots.now)) }
    ensures fault { IfErr result (λ fault. fault ≡ TallyFault.NoMemory) }
{
    let cast = Ballots::of(alloc, ballots)?;
    count(alloc, items, &cast)
}
