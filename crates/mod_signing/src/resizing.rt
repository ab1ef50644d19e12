//! A window that changes: of each ring the last votes stay that both windows hold.

ghost use Rattle.std.specs.Prelude.{◌≡◌, ℕ, ◌≤◌, ◌<◌, ◌+◌, ◌-◌, true, IfErr, IfOk, OnOk};
ghost use Rattle.base_roles.specs.Answers.{WantsMemory};
ghost use Rattle.rule_modules.specs.Amounts.{count_where};
ghost use Rattle.rule_modules.specs.Window.{window_resized};
ghost use Rattle.mod_signing.specs.Calls.{HasEntry, WindowGoesOn};
ghost use Rattle.mod_signing.specs.Kept.{behind, keeping, signed_of};
ghost use Rattle.mod_signing.specs.Resizing.{has_room, kept_resized, last_votes_of, next_of, resized_at};
ghost use Rattle.mod_signing.specs.Stands.{AllVotes, KeepsSignings};

use crate::bits::one_if;
use crate::entry::Entry;
use crate::ring::Ring;
use crate::tables::Tables;
use crate::window::Window;
use base_roles::{HookFault, Listed, SigningInfo};
use base_table::TableFault;
use base_types::{ConsAddr, Steps};
use std::alloc::Global;
use std::sync::ledger::Ledger;

impl Window {
    /// Changes the window to this size, in blocks: each record keeps the last votes of its ring, as many as
    /// both windows hold, the earliest at the first place; what was counted becomes their number, and what was
    /// missed the misses among them. Where the window has this size already, nothing changes. (On a chain the
    /// parameter `SignedBlocksWindow` changes alone, and its bit arrays and counters stay; this is the
    /// program's own rule.)
    ///
    /// The only error is `NoMemory`; some records may have been changed then. It looks at every record.
    pub fn resize<L: Ledger>(&mut self, window: u64, steps: &mut Steps<L>) -> Result<(), HookFault>
        requires some { 1 ≤ window }
        requires most { window ≤ 100_000 }
        ensures resized { (old : ℕ) (i : AllVotes) → 1 ≤ old → KeepsSignings old self.old.kept i
            → OnOk result (KeepsSignings window self.new.kept (window_resized old window i)) }
        ensures fault { IfErr result WantsMemory }

        // Whatever the answer.
        ensures goes_on { WindowGoesOn self.old self.new result }
    {
        resize_all(self.alloc, &mut self.tables, window, steps)?;
        Ok(())
    }
}

/// Changes each record to what a window of this size keeps of it.
fn resize_all<L: Ledger>(
    alloc: Global,
    tables: &mut Tables,
    window: u64,
    steps: &mut Steps<L>,
) -> Result<(), TableFault>
    ensures kept { OnOk result (tables.new.kept ≡ kept_resized window tables.old.kept) }

    // Whatever the answer.
    ensures goes_on { WindowGoesOn tables.old tables.new result }
{
    let mut after: Option<ConsAddr> = None;
    while let Some((at, found)) = tables.next(after.as_ref(), steps) {
        let cons = *at;
        let entry = *found;
        resize_one(alloc, tables, &cons, &entry, window, steps)?;
        after = Some(cons);
    }
    Ok(())
}

/// Changes the record of a consensus address, which has this entry, to what a window of this size keeps of it.
fn resize_one<L: Ledger>(
    alloc: Global,
    tables: &mut Tables,
    cons: &ConsAddr,
    entry: &Entry,
    window: u64,
    steps: &mut Steps<L>,
) -> Result<(), TableFault>
    requires entry { HasEntry cons.now entry.now.info entry.now.places tables.old.kept }
    ensures ok { OnOk result (tables.new ≡ keeping (resized_at window cons.now
        (signed_of tables.old.kept cons.now) tables.old.kept) tables.old) }
    ensures behind { behind tables.new ≡ behind tables.old }
    ensures spent { tables.old.spent ≡ true → tables.new.spent ≡ true }
{
    if has_room(entry, window) {
        return Ok(());
    }
    let votes = last_votes(
        alloc,
        &Ring::of(tables, *cons, entry.places),
        entry.info.counted,
        window,
        steps,
    )?;
    let info = SigningInfo {
        counted: votes.len() as u64,
        missed: misses(votes.as_slice()),
        ..entry.info
    };
    tables.put_record(cons, &info, &votes, steps)
}

/// Whether a window of this size leaves a record with this entry as it is: its ring has as many places as the
/// window, or fewer and every vote that was counted.
fn has_room(entry: &Entry, window: u64) -> bool
    ensures { result ≡ has_room window entry.now.info.counted entry.now.places }
{
    entry.places == window || entry.places < window && entry.info.counted == entry.places
}

/// The last votes of a ring after so many, at most the last of this number, the earliest first.
fn last_votes<L: Ledger>(
    alloc: Global,
    ring: &Ring<'_>,
    counted: u64,
    most: u64,
    steps: &mut Steps<L>,
) -> Result<Listed<bool>, TableFault>
    ensures { IfOk result (λ votes. votes ≡ last_votes_of most counted ring.now) }
{
    let places = ring.len();
    let next = next_of(counted, places);
    let first = places.saturating_sub(most);
    let mut votes = Vec::new(alloc);
    for turn in first..places {
        votes.push(ring.at(place_at(next, turn, places), steps))?;
    }
    Ok(Listed::of(votes))
}

/// The next place of a ring with so many places after so many votes: the first one, until it is full.
#[tactic(auto, using(crate::proofs::ResizedLemmas::next_few, crate::proofs::ResizedLemmas::next_none, crate::proofs::ResizedLemmas::next_some))]
fn next_of(counted: u64, places: u64) -> u64
    ensures next { result ≡ next_of counted places }
    ensures within { result ≤ places }
{
    if places == 0 { 0 } else { counted % places }
}

/// The place of a ring with so many places at which one comes from its next place in so many steps, around its
/// end.
fn place_at(next: u64, turn: u64, places: u64) -> u64
    requires next { next ≤ places }
    requires turn { turn < places }
    ensures before { turn < places - next → result ≡ next + turn }
    ensures behind { places - next ≤ turn → result ≡ turn - (places - next) }
    ensures within { result < places }
{
    let ahead = places - next;
    if turn < ahead {
        next + turn
    } else {
        turn - ahead
    }
}

/// How many of these votes were missed.
fn misses(votes: &[bool]) -> u64
    ensures { result ≡ count_where (λ missed. missed) votes.now }
{
    let mut missed = 0;
    for vote in votes {
        missed += one_if(*vote);
    }
    missed
}
