//! The signing records of all consensus addresses: infos, and rings of the last votes (`x/slashing`).

ghost use Rattle.std.specs.Prelude.{◌≡◌, ℕ, [], ◌+◌, ◌≤◌, option_map};
ghost use Rattle.mod_signing.specs.Kept.{new_window, signed_of};
ghost use Rattle.mod_signing.specs.Stands.{KeepsSignings};

use crate::ring::Ring;
use crate::tables::Tables;
use base_types::{ConsAddr, Steps};
use std::alloc::Global;
use std::marker::Model;
use std::sync::ledger::Ledger;

/// Signing records by consensus address. Contracts see the records that stand, those at each open mark, those
/// at the last settling, and whether memory was wanting in a change.
///
/// The records stand for plain ones, in which a vote is forgotten only where the window changes:
/// `KeepsSignings` says how, for the window of the parameters. Each call carries them from plain records to those that the rule leaves.
#[derive(Drop)]
pub struct Window {
    pub(crate) tables: Tables,
    pub(crate) alloc: Global,
}

impl Model for Window {
    ghost use Rattle.mod_signing.specs.Kept.{Windowed};

    ghost Value = { Windowed };

    ghost view = { λ w. w.tables };
}

impl Window {
    /// No records. Takes no memory.
    pub fn new(alloc: Global) -> Window
        ensures new { result ≡ new_window }
        ensures kept { (window : ℕ) → KeepsSignings window result.kept [] }
    {
        Window {
            tables: Tables::new(alloc),
            alloc,
        }
    }

    /// The ring of a consensus address: its last votes. It answers None exactly where there is no record.
    /// Takes no memory.
    pub fn ring<L: Ledger>(&self, cons: &ConsAddr, steps: &mut Steps<L>) -> Option<Ring<'_>>
        ensures ring { result ≡ option_map (λ s. s.ring) (signed_of self.now.kept cons.now) }
        ensures cost { steps.new ≤ steps.old + 1 }
    {
        match self.tables.entry(cons, steps) {
            Some(entry) => Some(Ring::of(&self.tables, *cons, entry.places)),
            None => None,
        }
    }
}
