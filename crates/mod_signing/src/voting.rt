//! Votes, and the punishment of downtime.

ghost use Rattle.std.specs.Prelude.{◌≡◌, ◌&&◌, nat_lt, ℕ, ◌+◌, ◌*◌, ◌^◌, ◌<◌, ◌≤◌, ◌%◌, ◌/◌, true, false, ◌∷◌, Some, OnOk};
ghost use Rattle.base_roles.specs.Ground.{seen};
ghost use Rattle.base_roles.specs.Log.{Log};
ghost use Rattle.base_roles.specs.Staked.{validator_by_cons, bonded_tokens, other_tokens};
ghost use Rattle.base_roles.specs.StakeChanges.{StakeFalls};
ghost use Rattle.rule_modules.specs.Answers.{Leaves};
ghost use Rattle.rule_modules.specs.Window.{Signing, info_of, signing_of, vote_counted, voted};
ghost use Rattle.mod_signing.specs.Kept.{Signed, signed_of};
ghost use Rattle.mod_signing.specs.Stands.{AllVotes, KeepsSignings, IsKept, KeepsVotes};
ghost use Rattle.mod_signing.specs.Rings.{is_set};
ghost use Rattle.mod_signing.specs.Calls.{VoteAnswers, is_punished, ring_at, IsRow, HasEntry, CanBeSlashed, one_more, downtime_slashed, IsScene, WindowGoesOn, GroundGoesOn};

use crate::bits::{PLACES, is_set, one_if};
use crate::downtime::{is_downtime, reset};
use crate::entry::Entry;
use crate::window::Window;
use base_roles::{Bank, Ground, HookFault, SigningInfo, Slasher, StakingHooks, Validator, Vote};
use base_types::{ConsAddr, Steps};
use std::alloc::Global;
use std::sync::ledger::Ledger;

/// A vote that is counted: the info that follows from it, the place that it takes in the ring, and the row
/// that has this place.
#[derive(Clone, Copy)]
struct Tally {
    info: SigningInfo,
    place: u64,
    row: u128,
}

impl Window {
    /// Counts a vote, and punishes downtime (`HandleValidatorSignature`), in this order: a slash two heights
    /// back by the vote's power; the jailing; the reset of the votes, with the time in jail. A vote is
    /// skipped where its validator is jailed, has no record or is gone.
    ///
    /// The errors are `NoMemory` and `Over`, which comes exactly where the slash exceeds. A vote that is not
    /// punished takes at most 6 steps.
    pub fn vote<B: Bank, H: StakingHooks, S: Slasher, L: Ledger>(
        &mut self,
        alloc: Global,
        g: &mut Ground<B>,
        hooks: &mut H,
        slasher: &mut S,
        vote: &Vote,
        steps: &mut Steps<L>,
    ) -> Result<(), HookFault>
        requires kept { IsKept g.old.ctx.params.signed_blocks_window self.old.kept }
        requires counted { (s : Signed) → signed_of self.old.kept vote.now.cons ≡ Some s
            → s.info.counted < g.old.ctx.height }
        requires power { vote.now.power * g.old.ctx.params.power_reduction ≤ 10 ^ 18 }
        requires scene { IsScene H.tells (H.holds hooks.old) (seen B.holdings g.old)
            (S.sound (S.held slasher.old)) (S.stake (S.held slasher.old))
            (S.owed (S.held slasher.old)) }

        ensures told { (h : H.Held) → H.holds hooks.old h → (log : Log) → (i : AllVotes)
            → KeepsSignings g.old.ctx.params.signed_blocks_window self.old.kept i
            → VoteAnswers (voted (record {
              stake = S.stake;
              slash = S.slashes H.Held H.tells.told;
              jail = S.jails;
            }) vote.now i (record {
              mine = S.held slasher.old;
              hooks = h;
              view = seen B.holdings g.old;
              log = log;
            })) (KeepsSignings g.old.ctx.params.signed_blocks_window self.new.kept)
            (S.held slasher.new) (H.holds hooks.new) (seen B.holdings g.new) result }
        ensures kept { OnOk result
            (IsKept g.old.ctx.params.signed_blocks_window self.new.kept) }
        ensures falls { OnOk result (StakeFalls (seen B.holdings g.old) (seen B.holdings g.new)
            (bonded_tokens (S.stake (S.held slasher.old)))
            (other_tokens (S.stake (S.held slasher.old)) + S.owed (S.held slasher.old))
            (bonded_tokens (S.stake (S.held slasher.new)))
            (other_tokens (S.stake (S.held slasher.new)) + S.owed (S.held slasher.new))) }
        ensures scene { OnOk result (IsScene H.tells (H.holds hooks.new)
            (seen B.holdings g.new) (S.sound (S.held slasher.new)) (S.stake (S.held slasher.new))
            (S.owed (S.held slasher.new))) }
        ensures cost { (i : AllVotes)
            → KeepsSignings g.old.ctx.params.signed_blocks_window self.old.kept i
            → is_punished g.old.ctx
            (validator_by_cons (S.stake (S.held slasher.old)) vote.now.cons)
            (signing_of i vote.now.cons) vote.now.signed ≡ false → steps.new ≤ steps.old + 6 }

        // Whatever the answer.
        ensures goes_on { WindowGoesOn self.old self.new result }
        ensures ground { GroundGoesOn B.marks B.most_steps H.marks S.marks
            g.old g.new hooks.old hooks.new slasher.old slasher.new }
    {
        let v = match slasher.by_cons(&vote.cons, steps) {
            Some(v) => *v,
            None => return Ok(()),
        };
        let entry = match self.tables.entry(&vote.cons, steps) {
            Some(entry) => *entry,
            None => return Ok(()),
        };
        if v.jailed {
            return Ok(());
        }
        self.count(alloc, g, hooks, slasher, vote, &v, &entry, steps)
    }

    /// Counts the vote of a validator that is not jailed and whose record has this entry, and punishes
    /// downtime.
    fn count<B: Bank, H: StakingHooks, S: Slasher, L: Ledger>(
        &mut self,
        alloc: Global,
        g: &mut Ground<B>,
        hooks: &mut H,
        slasher: &mut S,
        vote: &Vote,
        v: &Validator,
        entry: &Entry,
        steps: &mut Steps<L>,
    ) -> Result<(), HookFault>
        requires known { validator_by_cons (S.stake (S.held slasher.old)) vote.now.cons
            ≡ Some v.now }
        requires free { v.now.jailed ≡ false }
        requires entry { HasEntry vote.now.cons entry.now.info entry.now.places self.old.kept }
        requires kept { IsKept g.old.ctx.params.signed_blocks_window self.old.kept }
        requires counted { entry.now.info.counted < g.old.ctx.height }
        requires power { vote.now.power * g.old.ctx.params.power_reduction ≤ 10 ^ 18 }
        requires scene { IsScene H.tells (H.holds hooks.old) (seen B.holdings g.old)
            (S.sound (S.held slasher.old)) (S.stake (S.held slasher.old))
            (S.owed (S.held slasher.old)) }

        ensures told { (h : H.Held) → H.holds hooks.old h → (log : Log) → (i : AllVotes)
            → KeepsSignings g.old.ctx.params.signed_blocks_window self.old.kept i → (s : Signing)
            → signing_of i vote.now.cons ≡ Some s
            → VoteAnswers (vote_counted (record {
              stake = S.stake;
              slash = S.slashes H.Held H.tells.told;
              jail = S.jails;
            }) (Some v.now) (Some s) vote.now i (record {
              mine = S.held slasher.old;
              hooks = h;
              view = seen B.holdings g.old;
              log = log;
            })) (KeepsSignings g.old.ctx.params.signed_blocks_window self.new.kept)
            (S.held slasher.new) (H.holds hooks.new) (seen B.holdings g.new) result }
        ensures kept { OnOk result
            (IsKept g.old.ctx.params.signed_blocks_window self.new.kept) }
        ensures falls { OnOk result (StakeFalls (seen B.holdings g.old) (seen B.holdings g.new)
            (bonded_tokens (S.stake (S.held slasher.old)))
            (other_tokens (S.stake (S.held slasher.old)) + S.owed (S.held slasher.old))
            (bonded_tokens (S.stake (S.held slasher.new)))
            (other_tokens (S.stake (S.held slasher.new)) + S.owed (S.held slasher.new))) }
        ensures scene { OnOk result (IsScene H.tells (H.holds hooks.new)
            (seen B.holdings g.new) (S.sound (S.held slasher.new)) (S.stake (S.held slasher.new))
            (S.owed (S.held slasher.new))) }
        ensures cost { (i : AllVotes)
            → KeepsSignings g.old.ctx.params.signed_blocks_window self.old.kept i
            → is_punished g.old.ctx (Some v.now) (signing_of i vote.now.cons) vote.now.signed
            ≡ false → steps.new ≤ steps.old + 3 }

        // Whatever the answer.
        ensures goes_on { WindowGoesOn self.old self.new result }
        ensures ground { GroundGoesOn B.marks B.most_steps H.marks S.marks
            g.old g.new hooks.old hooks.new slasher.old slasher.new }
    {
        let window = g.ctx.params.signed_blocks_window;
        let tally = self.tally(&vote.cons, entry, window, !vote.signed, steps);
        if is_downtime(&g.ctx, &tally.info, v.status) {
            let next = Entry {
                info: reset(&tally.info, &g.ctx),
                places: 0,
            };
            punish(alloc, g, hooks, slasher, vote, steps)?;
            self.tables.put_info(&vote.cons, next, steps)?;
            return Ok(());
        }
        let next = Entry {
            info: tally.info,
            places: entry.places.max(tally.place + 1),
        };
        let Tally { place, row, .. } = tally;
        self.tables
            .put_vote(&vote.cons, next, place, !vote.signed, row, steps)?;
        Ok(())
    }

    /// What a vote makes of the record of a consensus address, which has this entry.
    fn tally<L: Ledger>(
        &self,
        cons: &ConsAddr,
        entry: &Entry,
        window: u64,
        missed: bool,
        steps: &mut Steps<L>,
    ) -> Tally
        requires some { 1 ≤ window }
        requires kept { IsKept window self.now.kept }
        requires entry { HasEntry cons.now entry.now.info entry.now.places self.now.kept }
        requires counted { entry.now.info.counted < 2 ^ 63 }
        ensures info { (k : Signed) → signed_of self.now.kept cons.now ≡ Some k → (s : Signing)
            → KeepsVotes window k s
            → result.info ≡ info_of window (record s { votes = missed ∷ s.votes }) }
        ensures place { result.place ≡ entry.now.info.counted % window }
        ensures row { IsRow (result.place / 128) result.row (ring_at self.now.kept cons.now) }
        ensures cost { steps.new ≤ steps.old + 1 }
    {
        let place = entry.info.counted % window;
        let row = self.tables.row(cons, place / PLACES, steps);
        let was_missed = is_missed(row, place, entry.places);
        Tally {
            info: counted(&entry.info, was_missed, missed),
            place,
            row,
        }
    }
}

/// Whether a miss stands at a place of a ring with so many, which this row has.
fn is_missed(row: u128, place: u64, places: u64) -> bool
    ensures { result ≡ (nat_lt place places && is_set row (place % 128)) }
{
    place < places && is_set(row, place % PLACES)
}

/// An info with one more vote, in whose place a miss stood, or none.
fn counted(info: &SigningInfo, was_missed: bool, missed: bool) -> SigningInfo
    requires counted { info.now.counted < 2 ^ 63 }
    requires misses { was_missed ≡ true → 1 ≤ info.now.missed }
    requires bounded { info.now.missed < 2 ^ 63 }
    ensures { result ≡ one_more was_missed missed info.now }
{
    SigningInfo {
        counted: info.counted + 1,
        missed: info.missed - one_if(was_missed) + one_if(missed),
        ..*info
    }
}

/// Slashes a validator for downtime, two heights back by the vote's power, and jails it.
fn punish<B: Bank, H: StakingHooks, S: Slasher, L: Ledger>(
    alloc: Global,
    g: &mut Ground<B>,
    hooks: &mut H,
    slasher: &mut S,
    vote: &Vote,
    steps: &mut Steps<L>,
) -> Result<(), HookFault>
    requires known { CanBeSlashed vote.now.cons (S.stake (S.held slasher.old)) }
    requires height { 2 ≤ g.old.ctx.height }
    requires power { vote.now.power * g.old.ctx.params.power_reduction ≤ 10 ^ 18 }
    requires scene { IsScene H.tells (H.holds hooks.old) (seen B.holdings g.old)
        (S.sound (S.held slasher.old)) (S.stake (S.held slasher.old))
        (S.owed (S.held slasher.old)) }

    ensures told { (h : H.Held) → H.holds hooks.old h → (log : Log)
        → Leaves (downtime_slashed (record {
          stake = S.stake;
          slash = S.slashes H.Held H.tells.told;
          jail = S.jails;
        }) vote.now.cons vote.now.power (record {
          mine = S.held slasher.old;
          hooks = h;
          view = seen B.holdings g.old;
          log = log;
        })) (S.held slasher.new) (H.holds hooks.new) (seen B.holdings g.new) result }
    ensures falls { OnOk result (StakeFalls (seen B.holdings g.old) (seen B.holdings g.new)
        (bonded_tokens (S.stake (S.held slasher.old)))
        (other_tokens (S.stake (S.held slasher.old)) + S.owed (S.held slasher.old))
        (bonded_tokens (S.stake (S.held slasher.new)))
        (other_tokens (S.stake (S.held slasher.new)) + S.owed (S.held slasher.new))) }
    ensures scene { OnOk result (IsScene H.tells (H.holds hooks.new)
        (seen B.holdings g.new) (S.sound (S.held slasher.new)) (S.stake (S.held slasher.new))
        (S.owed (S.held slasher.new))) }

    // Whatever the answer.
    ensures ground { GroundGoesOn B.marks B.most_steps H.marks S.marks
        g.old g.new hooks.old hooks.new slasher.old slasher.new }
{
    let (height, factor) = (g.ctx.height, g.ctx.params.slash_fraction_downtime);
    slasher.slash(
        alloc,
        g,
        hooks,
        &vote.cons,
        height - 2,
        vote.power,
        factor,
        steps,
    )?;
    slasher.jail(alloc, &mut g.facts, &vote.cons, steps)?;
    Ok(())
}
