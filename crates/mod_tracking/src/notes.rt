//! What a pair's notes tell.

ghost use Rattle.std.specs.Prelude.{◌≡◌, ◌<◌, IfErr, IfOk, OnOk, Some, drop, length, slice_get};
ghost use Rattle.mod_statement.specs.declared.fault.StatementFault.TheVariants.{NoMemory};
ghost use Rattle.mod_tracking.specs.Tracking.{entry_taken, is_of, note_taken, notes_before, notes_behind, notes_taken, own_taken, stands_before, started, touched, untracked};

use crate::tracker::{Pair, Tracker, is_same};
use base_coins::DecCoins;
use base_decimals::Dec;
use base_types::Addr;
use mod_recorder::{Note, Recorder};
use mod_statement::{Entry, StatementFault};
use std::alloc::Global;

/// Whether the address is that of the delegator.
fn is_of(delegator: &Addr, who: &Option<Addr>) -> bool
    ensures { result ≡ is_of delegator.now who.now }
{
    match who {
        Some(who) => is_same(who, delegator),
        None => false,
    }
}

/// Whether a note stands before the fact at this place of its block.
fn stands_before(note: &Note, fact: usize) -> bool
    ensures { result ≡ stands_before fact note.now }
{
    note.facts <= fact
}

/// The note at a place.
fn note_at(recorder: &Recorder, place: usize) -> &Note
    requires { place < length recorder.now.noted.notes }
    ensures { slice_get recorder.now.noted.notes place ≡ Some result.now }
{
    match recorder.at(place) {
        Some(note) => note,
        None => unreachable!(),
    }
}

impl Tracker {
    /// The validator was created anew.
    fn forget(&mut self, alloc: Global)
        ensures { self.new ≡ untracked }
    {
        self.entries = Vec::new(alloc);
        self.removals = 0;
        self.ratio = DecCoins::new(alloc);
    }

    /// The delegator's rewards begin. The only error is `NoMemory`.
    fn start(
        &mut self,
        alloc: Global,
        shares: Dec,
        tokens: u128,
        total: Dec,
    ) -> Result<(), StatementFault>
        ensures tracked { OnOk result (self.new ≡ started shares tokens total self.old) }
        ensures fault { IfErr result (λ fault. fault ≡ NoMemory) }
    {
        let mut entries = Vec::new(alloc);
        let start = Entry::Started {
            shares,
            tokens,
            total,
        };
        match entries.push(start) {
            Ok(()) => {}
            Err(_) => return Err(StatementFault::NoMemory),
        }
        self.entries = entries;
        Ok(())
    }

    /// The shares of some delegation are about to change. The only error is `NoMemory`.
    fn touch(&mut self) -> Result<(), StatementFault>
        ensures tracked { OnOk result (self.new ≡ touched self.old) }
        ensures fault { IfErr result (λ fault. fault ≡ NoMemory) }
    {
        self.removals = self.removals.saturating_add(1);
        self.push(Entry::Touched)
    }

    /// Takes an entry that a note of the validator has, of whom. The only error is `NoMemory`.
    fn take_entry(
        &mut self,
        alloc: Global,
        delegator: &Addr,
        who: &Option<Addr>,
        entry: &Entry,
    ) -> Result<(), StatementFault>
        ensures tracked { OnOk result
            (self.new ≡ entry_taken delegator.now who.now entry.now self.old) }
        ensures fault { IfErr result (λ fault. fault ≡ NoMemory) }
    {
        match entry {
            Entry::Started {
                shares,
                tokens,
                total,
            } => {
                if is_of(delegator, who) {
                    self.start(alloc, *shares, *tokens, *total)
                } else {
                    Ok(())
                }
            }
            Entry::Touched => self.touch(),
            Entry::Slashed { burned, tokens } => self.push(Entry::Slashed {
                burned: *burned,
                tokens: *tokens,
            }),
            Entry::Allocated { .. } | Entry::Ended => Ok(()),
        }
    }

    /// Takes a note of the validator, of whom. The only error is `NoMemory`.
    fn take_own(
        &mut self,
        alloc: Global,
        delegator: &Addr,
        note: &Note,
    ) -> Result<(), StatementFault>
        ensures tracked { OnOk result
            (self.new ≡ own_taken delegator.now note.now.delegator note.now.entry self.old) }
        ensures fault { IfErr result (λ fault. fault ≡ NoMemory) }
    {
        match &note.entry {
            Some(entry) => self.take_entry(alloc, delegator, &note.delegator, entry),
            None => {
                self.forget(alloc);
                Ok(())
            }
        }
    }

    /// Takes a note. The only error is `NoMemory`.
    fn take_note(&mut self, alloc: Global, pair: &Pair, note: &Note) -> Result<(), StatementFault>
        ensures tracked { OnOk result (self.new ≡ note_taken pair.now note.now self.old) }
        ensures fault { IfErr result (λ fault. fault ≡ NoMemory) }
    {
        if is_same(&note.operator, &pair.operator) {
            self.take_own(alloc, &pair.delegator, note)
        } else {
            Ok(())
        }
    }

    /// Takes the recorder's notes from one on that stand before the fact at this place of their block, and answers which comes
    /// next. The only error is `NoMemory`.
    pub(crate) fn take_notes(
        &mut self,
        alloc: Global,
        pair: &Pair,
        recorder: &Recorder,
        first: usize,
        fact: usize,
    ) -> Result<usize, StatementFault>
        ensures tracked { IfOk result (λ _. self.new ≡ notes_taken pair.now
            (notes_before fact (drop first recorder.now.noted.notes)) self.old) }
        ensures rest { IfOk result (λ next. drop next recorder.now.noted.notes
            ≡ notes_behind fact (drop first recorder.now.noted.notes)) }
        ensures fault { IfErr result (λ fault. fault ≡ NoMemory) }
    {
        for place in first..recorder.len() {
            let note = note_at(recorder, place);
            if !stands_before(note, fact) {
                return Ok(place);
            }
            self.take_note(alloc, pair, note)?;
        }
        Ok(recorder.len())
    }

    /// Takes all of the recorder's notes from one on. The only error is `NoMemory`.
    pub(crate) fn take_rest(
        &mut self,
        alloc: Global,
        pair: &Pair,
        recorder: &Recorder,
        first: usize,
    ) -> Result<(), StatementFault>
        ensures tracked { OnOk result (self.new
            ≡ notes_taken pair.now (drop first recorder.now.noted.notes) self.old) }
        ensures fault { IfErr result (λ fault. fault ≡ NoMemory) }
    {
        for place in first..recorder.len() {
            let note = note_at(recorder, place);
            self.take_note(alloc, pair, note)?;
        }
        Ok(())
    }
}
