//! Ballots, of each voter the last.

ghost use Rattle.std.specs.Prelude.{◌≡◌, ℕ, [], List, IfOk, IfErr, OnOk};
ghost use Rattle.base_types.specs.Orders.{addr_cmp};
ghost use Rattle.base_roles.specs.Entries.{at, with};
ghost use Rattle.mod_tally.specs.Ballots.{chosen_in};

use crate::choice::Choice;
use crate::fault::TallyFault;
use base_types::Addr;
use std::alloc::Global;
use std::collections::BTreeMap;
use std::marker::Model;

/// Ballots as they were cast, of each voter the last. Contracts see the choices by voter, in ascending order.
#[derive(Debug, Drop)]
pub struct Ballots {
    choices: BTreeMap<Addr, Choice>,
}

impl Model for Ballots {
    ghost use Rattle.std.specs.Prelude.{ℕ, List};
    ghost use Rattle.mod_tally.specs.declared.choice.Choice.{Choice};

    ghost Value = { List (List ℕ × Choice) };

    ghost view = { λ b. b.choices.entries };
}

impl Ballots {
    /// No ballots. Takes no memory.
    pub fn new(alloc: Global) -> Ballots
        ensures { result ≡ [] }
    {
        Ballots {
            choices: BTreeMap::new(alloc),
        }
    }

    /// The ballots of a list, in the order in which they were cast. The only error is `NoMemory`.
    pub fn of(alloc: Global, cast: &[(Addr, Choice)]) -> Result<Ballots, TallyFault>
        ensures chosen { IfOk result (λ ballots.
            (voter : List ℕ) → at addr_cmp ballots voter ≡ chosen_in cast.now voter) }
        ensures fault { IfErr result (λ fault. fault ≡ TallyFault.NoMemory) }
    {
        let mut ballots = Ballots::new(alloc);
        for (voter, choice) in cast {
            ballots.cast(*voter, *choice)?;
        }
        Ok(ballots)
    }

    /// Casts a ballot; it stands in place of an earlier one of its voter. The only error is `NoMemory`.
    pub fn cast(&mut self, voter: Addr, choice: Choice) -> Result<(), TallyFault>
        ensures cast { OnOk result (self.new ≡ with addr_cmp self.old voter choice) }
        ensures fault { IfErr result (λ fault. fault ≡ TallyFault.NoMemory) }
    {
        self.choices.insert(voter, choice)?;
        Ok(())
    }

    /// The choice of a voter's last ballot, or None where it cast none.
    pub fn choice_of(&self, voter: &Addr) -> Option<Choice>
        ensures { result ≡ at addr_cmp self.now voter.now }
    {
        self.choices.get(voter).copied()
    }
}
