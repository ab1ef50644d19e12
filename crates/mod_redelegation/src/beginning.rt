//! Redelegating: shares are unbonded at a source, and what goes out is delegated to a target.

ghost use Rattle.std.specs.Prelude.{◌≡◌, ◌++◌, ◌∷◌, [], true, IfOk, OnOk, IsErr};
ghost use Rattle.base_roles.specs.Ground.{seen};
ghost use Rattle.base_roles.specs.Log.{Log};
ghost use Rattle.rule_modules.specs.Redelegations.{redelegated, redelegations_of, appended};
ghost use Rattle.mod_staking.specs.Calls.{behind_log};
ghost use Rattle.mod_staking.specs.Scenes.{GoesOn};
ghost use Rattle.mod_entries.specs.Answers.{AnswersBoth, EntriesGoOn};
ghost use Rattle.mod_entries.specs.Kept.{behind, holding};
ghost use Rattle.mod_redelegation.specs.Calls.{StillHolds};
ghost use Rattle.mod_redelegation.specs.Scenes.{IsEntryScene};

use crate::asking::{begun, is_gone};
use crate::keyed::{Key, put};
use crate::redelegations::Redelegations;
use base_coins::Coin;
use base_decimals::Dec;
use base_roles::{Bank, Ground, Listed, MessageFault, RedelegationEntry, StakingHooks, Unbonder};
use base_table::TableFault;
use base_types::{Addr, Moment, Steps};
use mod_staking::{Origin, Staking};
use std::alloc::Global;
use std::sync::ledger::Ledger;

impl Redelegations {
    /// The message by which a delegator moves an amount from one validator to another
    /// (`msgServer.BeginRedelegate`): its shares are unbonded at the source, and what goes out is delegated
    /// to the target from the account of the source's status. An entry is made of it, unless the source is
    /// unbonded and still stands: with this height and the completion of an unbonding that begins now, or, of
    /// an unbonding source, with the source's own.
    ///
    /// It is refused as `NonPositive`, else `NoValidator` for the source, else `NoDelegation`, else
    /// `NoTokens`, else `TooManyShares`, else `WrongDenom`, else `SelfRedelegation`, else `NoValidator` for
    /// the target, else `Transitive` where some entry of the delegator has the source as its target, else
    /// `RedelegationsFull`, else `TinyRedelegation` where nothing goes out, else as delegating to the target
    /// is (`RateInvalid`, `Overflow`, `TinyDelegation`), else `Overflow` where a hook exceeds.
    pub fn begin<B: Bank, H: StakingHooks, L: Ledger>(
        &mut self,
        alloc: Global,
        g: &mut Ground<B>,
        hooks: &mut H,
        staking: &mut Staking,
        delegator: &Addr,
        source: &Addr,
        target: &Addr,
        coin: &Coin,
        steps: &mut Steps<L>,
    ) -> Result<(), MessageFault>
        requires scene { IsEntryScene H.tells (H.holds hooks.old)
            (seen B.holdings g.old) staking.old.staked self.old.lists }

        ensures told { (h : H.Held) → H.holds hooks.old h → (log : Log)
            → AnswersBoth (redelegated H.tells.told delegator.now source.now target.now coin.now
            self.old.lists (behind_log log staking.old.staked h (seen B.holdings g.old)))
            self.new.lists staking.new.staked (H.holds hooks.new) (seen B.holdings g.new) result }
        ensures scene { OnOk result (IsEntryScene H.tells (H.holds hooks.new)
            (seen B.holdings g.new) staking.new.staked self.new.lists) }
        ensures accounts { StillHolds staking.old.staked (seen B.holdings g.old)
            staking.new.staked (seen B.holdings g.new) result }

        // Whatever the answer.
        ensures goes_on { GoesOn B.marks B.most_steps H.marks
            g.old g.new hooks.old hooks.new staking.old staking.new result }
        ensures entries_go_on { EntriesGoOn self.old self.new result }
    {
        let asked = self.can_begin(g, staking, delegator, source, target, coin, steps)?;
        let out = staking.unbond(alloc, g, hooks, delegator, source, asked.1, steps)?;
        let gone = is_gone(staking, source, steps);
        let begun = begun(&asked.0, gone, &g.ctx);
        let origin = Origin::Pool(asked.0.status);
        let issued = staking.delegate(alloc, g, hooks, delegator, target, out, origin, steps)?;
        let key = (*delegator, *source, *target);
        self.append(alloc, &key, begun, out, issued, steps)?;
        Ok(())
    }

    /// Adds an entry behind the others of its key, where one is made.
    fn append<L: Ledger>(
        &mut self,
        alloc: Global,
        key: &Key,
        begun: Option<(u64, Moment)>,
        initial: u128,
        shares_dst: Dec,
        steps: &mut Steps<L>,
    ) -> Result<(), TableFault>
        ensures ok { OnOk result (self.new ≡ holding (appended key.now.0 key.now.1 key.now.2
            begun initial shares_dst self.old.lists) self.old) }
        ensures behind { behind self.new ≡ behind self.old }
        ensures spent { self.old.spent ≡ true → self.new.spent ≡ true }
        ensures spent_answer { self.old.spent ≡ true → IsErr result }
    {
        match begun {
            Some((created, completes)) => {
                let entry = RedelegationEntry {
                    created,
                    completes,
                    initial,
                    shares_dst,
                };
                let list = self.behind(alloc, key, entry, steps)?;
                put(&mut self.entries, key, list, steps)
            }
            None => self.still(),
        }
    }

    /// Nothing changes; an error where memory was wanting in a change before.
    fn still(&self) -> Result<(), TableFault>
        ensures { self.now.spent ≡ true → IsErr result }
    {
        if self.entries.is_spent() {
            return Err(TableFault::Spent);
        }
        Ok(())
    }

    /// The entries of a key with one more behind them.
    fn behind<L: Ledger>(
        &self,
        alloc: Global,
        key: &Key,
        entry: RedelegationEntry,
        steps: &mut Steps<L>,
    ) -> Result<Listed<RedelegationEntry>, TableFault>
        ensures { IfOk result (λ list. list
            ≡ redelegations_of self.now.lists key.now.0 key.now.1 key.now.2 ++ entry ∷ []) }
    {
        behind(alloc, self.list_at(key, steps), entry)
    }
}

/// Entries with one more behind them.
fn behind(
    alloc: Global,
    entries: &[RedelegationEntry],
    entry: RedelegationEntry,
) -> Result<Listed<RedelegationEntry>, TableFault>
    ensures { IfOk result (λ list. list ≡ entries.now ++ entry ∷ []) }
{
    let mut list = Vec::new(alloc);
    for old in entries {
        list.push(*old)?;
    }
    list.push(entry)?;
    Ok(Listed::of(list))
}
