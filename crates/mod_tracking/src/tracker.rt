//! What stands of a pair.

ghost use Rattle.std.specs.Prelude.{◌≡◌, OnOk, IfErr};
ghost use Rattle.base_roles.specs.Orders.{same_addr};
ghost use Rattle.mod_statement.specs.declared.fault.StatementFault.TheVariants.{NoMemory};
ghost use Rattle.mod_tracking.specs.Tracking.{untracked, with_entry};

use base_coins::DecCoins;
use base_types::Addr;
use mod_statement::{Entry, StatementFault};
use std::alloc::Global;
use std::cmp::Ordering;
use std::marker::Model;

/// A delegator and the operator of a validator.
#[derive(Clone, Copy, Debug)]
pub struct Pair {
    pub delegator: Addr,
    pub operator: Addr,
}

/// Whether two addresses are one.
pub(crate) fn is_same(a: &Addr, b: &Addr) -> bool
    ensures { result ≡ same_addr a.now b.now }
{
    a.cmp(b) == Ordering::Equal
}

/// What stands of a pair: the entries since the delegator's last start, of which there are none where it has no start or was paid
/// since; how often shares were about to change since the validator was created, counted up to 2^64 - 1; and the validator's last
/// ratio, the reward of one token since then in units of 10^-18.
#[derive(Debug, Drop)]
pub struct Tracker {
    pub(crate) entries: Vec<Entry>,
    pub(crate) removals: u64,
    pub(crate) ratio: DecCoins,
}

impl Model for Tracker {
    ghost use Rattle.mod_tracking.specs.Tracking.{Tracked, tracked};

    ghost Value = { Tracked };

    ghost view = { λ t. tracked t.entries.items t.removals t.ratio };
}

impl Tracker {
    /// Nothing happened to the validator yet. Takes no memory.
    pub fn new(alloc: Global) -> Tracker
        ensures { result ≡ untracked }
    {
        Tracker {
            entries: Vec::new(alloc),
            removals: 0,
            ratio: DecCoins::new(alloc),
        }
    }

    /// Adds an entry, where there is a start. The only error is `NoMemory`.
    pub(crate) fn push(&mut self, entry: Entry) -> Result<(), StatementFault>
        ensures tracked { OnOk result (self.new ≡ with_entry entry self.old) }
        ensures fault { IfErr result (λ fault. fault ≡ NoMemory) }
    {
        if self.entries.is_empty() {
            return Ok(());
        }
        match self.entries.push(entry) {
            Ok(()) => Ok(()),
            Err(_) => Err(StatementFault::NoMemory),
        }
    }
}
