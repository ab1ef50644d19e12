//! The recorder, as a listener to staking.

ghost use Rattle.std.specs.Prelude.{◌≡◌, List, length, slice_get, OnOk, OnErr, Some};
ghost use Rattle.std.specs.Option.{option_copied};
ghost use Rattle.base_roles.specs.Listeners.{listener_tells, listener_lawful, listener_listens};
ghost use Rattle.mod_recorder.specs.Notes.{CanBurn, Noted, heard, parted, ended, noted, note_of, counted};
ghost use Rattle.mod_recorder.specs.Recorded.{new_recorded};

use crate::note::{Note, note_of};
use base_roles::{Bank, Extra, Ground, Hook, HookFault, RecordFault, StakingHooks};
use base_types::Steps;
use std::alloc::Global;
use std::marker::Model;
use std::sync::ledger::Ledger;

/// A place that the notes had reached: how many they were, and how many facts the parts of the present block had
/// told before.
#[derive(Clone, Copy, Debug)]
pub(crate) struct Place {
    pub notes: usize,
    pub before: usize,
}

/// It listens to staking, and notes what reward statements rest on and no fact shows, of all validators. Contracts
/// see what it heard, and what it had heard at each open mark.
#[derive(Drop)]
pub struct Recorder {
    pub(crate) notes: Vec<Note>,
    pub(crate) before: usize,
    pub(crate) marks: Vec<Place>,
    pub(crate) settled: Place,
}

impl Model for Recorder {
    ghost use Rattle.std.specs.Prelude.{◌≡◌, true, length};
    ghost use Rattle.mod_recorder.specs.Recorded.{Recorded, recorded, are_rising};

    ghost Value = { Recorded };

    ghost view = { λ r. recorded r.notes.items r.before r.marks.items r.settled };

    ghost invariant = { λ r. are_rising r.settled.notes r.marks.items (length r.notes.items)
        ≡ true };
}

impl Recorder {
    /// A recorder that heard nothing yet. Takes no memory.
    pub fn new(alloc: Global) -> Recorder
        ensures { result ≡ new_recorded }
    {
        Recorder {
            notes: Vec::new(alloc),
            before: 0,
            marks: Vec::new(alloc),
            settled: Place {
                notes: 0,
                before: 0,
            },
        }
    }

    /// How many notes there are. Takes no memory.
    pub fn len(&self) -> usize
        ensures { result ≡ length self.now.noted.notes }
    {
        self.notes.len()
    }

    /// The note at a place, in the order of the calls, or None exactly where the place is not below `len`. Takes no
    /// memory.
    pub fn at(&self, place: usize) -> Option<&Note>
        ensures { option_copied result ≡ slice_get self.now.noted.notes place }
    {
        self.notes.get(place)
    }

    /// What is noted of a call, in whose part so many facts were told before it.
    fn told(&self, facts: usize, hook: &Hook) -> Option<Note>
        requires { CanBurn hook.now }
        ensures { result ≡ note_of (counted self.now.noted.before facts) hook.now }
    {
        note_of(self.before.saturating_add(facts), hook)
    }

    /// Puts one more note.
    fn put(&mut self, note: Note) -> Result<(), RecordFault>
        ensures noted { OnOk result (self.new.noted ≡ noted (Some note) self.old.noted) }
        ensures err { OnErr result (self.new.noted ≡ self.old.noted) }
        ensures marks { self.new.marks ≡ self.old.marks }
        ensures settled { self.new.settled ≡ self.old.settled }
    {
        self.notes.push(note)?;
        Ok(())
    }

    /// Notes a call, in whose part so many facts were told before it.
    fn note(&mut self, facts: usize, hook: &Hook) -> Result<(), RecordFault>
        requires { CanBurn hook.now }
        ensures noted { OnOk result (self.new.noted
            ≡ noted (note_of (counted self.old.noted.before facts) hook.now) self.old.noted) }
        ensures err { OnErr result (self.new.noted ≡ self.old.noted) }
        ensures marks { self.new.marks ≡ self.old.marks }
        ensures settled { self.new.settled ≡ self.old.settled }
    {
        match self.told(facts, hook) {
            Some(note) => self.put(note),
            None => Ok(()),
        }
    }
}

impl StakingHooks for Recorder {
    ghost Held = { Noted };

    ghost holds = { λ r h. r.noted ≡ h };

    ghost tells = { listener_tells heard };

    ghost Marks = { List Noted };

    ghost marks = { λ r. r.marks };

    fn hear<B: Bank, L: Ledger>(
        &mut self,
        _alloc: Global,
        g: &mut Ground<B>,
        hook: &Hook,
        _steps: &mut Steps<L>,
    ) -> Result<(), HookFault> {
        self.note(g.facts.len(), hook)?;
        Ok(())
    }

    ghost lawful = { listener_lawful heard };
}

impl Extra for Recorder {
    ghost Heard = { Noted };

    ghost heard = { λ r. r.noted };

    ghost hears = { heard };

    ghost parted = { parted };

    ghost ended = { ended };

    fn after_part(&mut self, facts: usize) {
        self.before = self.before.saturating_add(facts);
    }

    fn after_block(&mut self) {
        self.before = 0;
    }

    ghost listens = { listener_listens heard };
}
