//! Rings: the last votes of a consensus address within the window (`x/slashing`).

ghost use Rattle.std.specs.Prelude.{◌≡◌, ◌<◌, ◌+◌, ◌≤◌, length, slice_get, Some};
ghost use Rattle.rule_modules.specs.Amounts.{count_where};
ghost use Rattle.mod_signing.specs.Calls.{ring_at};

use crate::bits::{PLACES, is_set, one_if};
use crate::tables::Tables;
use base_types::{ConsAddr, Steps};
use std::marker::Model;
use std::sync::ledger::Ledger;

/// The last votes of a consensus address by their places in the window (`x/slashing`:
/// `ValidatorMissedBlockBitArray`). Contracts see the list of them, true where a vote was missed.
#[derive(Drop)]
pub struct Ring<'a> {
    tables: &'a Tables,
    cons: ConsAddr,
    places: u64,
}

impl<'a> Model for Ring<'a> {
    ghost use Rattle.std.specs.Prelude.{◌≡◌, Bool, List, length};
    ghost use Rattle.mod_signing.specs.Calls.{ring_at};

    ghost Value = { List Bool };

    ghost view = { λ r. ring_at r.tables.now.kept r.cons };

    ghost invariant = { λ r. length (ring_at r.tables.now.kept r.cons) ≡ r.places };
}

impl<'a> Ring<'a> {
    /// The ring of a consensus address, which has so many places.
    pub(crate) fn of(tables: &'a Tables, cons: ConsAddr, places: u64) -> Ring<'a>
        requires places { length (ring_at tables.now.kept cons) ≡ places }
        ensures { result ≡ ring_at tables.now.kept cons }
    {
        Ring {
            tables,
            cons,
            places,
        }
    }

    /// Whether the vote at a place was missed.
    pub fn at<L: Ledger>(&self, place: u64, steps: &mut Steps<L>) -> bool
        requires within { place < length self.now }
        ensures vote { slice_get self.now place ≡ Some result }
        ensures cost { steps.new ≤ steps.old + 1 }
    {
        let row = self.tables.row(&self.cons, place / PLACES, steps);
        is_set(row, place % PLACES)
    }

    /// How many of the votes were missed.
    pub fn missed<L: Ledger>(&self, steps: &mut Steps<L>) -> u64
        ensures { result ≡ count_where (λ missed. missed) self.now }
    {
        let mut missed = 0;
        for place in 0..self.places {
            missed += one_if(self.at(place, steps));
        }
        missed
    }

    /// How many votes there are.
    pub fn len(&self) -> u64
        ensures { result ≡ length self.now }
    {
        self.places
    }
}
