//! Coins that join the community pool, or leave it.

ghost use Rattle.std.specs.Prelude.{◌≡◌, [], OnOk};
ghost use Rattle.base_roles.specs.Ground.{seen, CanBeUndone};
ghost use Rattle.base_roles.specs.Holdings.{IsBacked};
ghost use Rattle.base_roles.specs.Owing.{Lists};
ghost use Rattle.rule_modules.specs.Distribution.{Shared};
ghost use Rattle.rule_modules.specs.Withdrawals.{pool_funded, pool_spent};
ghost use Rattle.mod_allocation.specs.Owed.{IsMoved};
ghost use Rattle.mod_distribution.specs.Calls.{StandFor, PoolsOrRefuses};
ghost use Rattle.mod_distribution.specs.Kept.{SharedGoesOn};
ghost use Rattle.mod_distribution.specs.Stands.{KeepsShared};

use crate::distr::Distr;
use base_coins::Coins;
use base_roles::{Bank, Ground, MessageFault};
use base_types::{Account, Addr, Steps};
use std::alloc::Global;
use std::sync::ledger::Ledger;

impl Distr {
    /// Coins of a user join the community pool (`FundCommunityPool`), and that is told. The order of facts
    /// is: the transfer, what joined the pool.
    ///
    /// It is refused as `NonPositive` where there are no coins, else as `InsufficientFunds` where a coin is
    /// above the user's balance.
    pub fn fund<B: Bank, L: Ledger>(
        &mut self,
        alloc: Global,
        g: &mut Ground<B>,
        from: &Addr,
        coins: &Coins,
        steps: &mut Steps<L>,
    ) -> Result<(), MessageFault>
        requires stand { (l : Lists) × StandFor self.old.kept (seen B.holdings g.old) l }

        ensures funded { (d : Shared) → KeepsShared self.old.kept d → PoolsOrRefuses
            (pool_funded from.now coins.now d (seen B.holdings g.old)) self.new.kept
            (seen B.holdings g.new) result }
        ensures stand { (l : Lists) → StandFor self.old.kept (seen B.holdings g.old) l
            → OnOk result (StandFor self.new.kept (seen B.holdings g.new) l) }
        ensures moved { OnOk result
            (IsMoved self.old.kept.purses coins.now [] self.new.kept.purses) }
        ensures backed { IsBacked (B.holdings g.new.bank) }

        // Whatever the answer.
        ensures undone { CanBeUndone B.marks g.old g.new }
        ensures bank { B.most_steps g.new.bank ≡ B.most_steps g.old.bank }
        ensures goes_on { SharedGoesOn self.old self.new result }
    {
        // It tells that these are a list of coins.
        let _ = coins.len();
        self.alloc.fund(alloc, g, from, coins, steps)
    }

    /// Coins of the community pool go to an account, at the authority's order (`CommunityPoolSpend`).
    ///
    /// It is refused as `NotAuthority` where another orders it, else as `NonPositive` where there are no
    /// coins, else as `ModuleRecipient` where the receiver is a module, else as `PoolTooSmall` where a coin
    /// is above what the pool has.
    pub fn spend<B: Bank, L: Ledger>(
        &mut self,
        alloc: Global,
        g: &mut Ground<B>,
        authority: &Addr,
        to: &Account,
        coins: &Coins,
        steps: &mut Steps<L>,
    ) -> Result<(), MessageFault>
        requires stand { (l : Lists) × StandFor self.old.kept (seen B.holdings g.old) l }

        ensures spent { (d : Shared) → KeepsShared self.old.kept d → PoolsOrRefuses
            (pool_spent authority.now to.now coins.now d (seen B.holdings g.old)) self.new.kept
            (seen B.holdings g.new) result }
        ensures stand { (l : Lists) → StandFor self.old.kept (seen B.holdings g.old) l
            → OnOk result (StandFor self.new.kept (seen B.holdings g.new) l) }
        ensures moved { OnOk result
            (IsMoved self.old.kept.purses [] coins.now self.new.kept.purses) }
        ensures backed { IsBacked (B.holdings g.new.bank) }

        // Whatever the answer.
        ensures undone { CanBeUndone B.marks g.old g.new }
        ensures bank { B.most_steps g.new.bank ≡ B.most_steps g.old.bank }
        ensures goes_on { SharedGoesOn self.old self.new result }
    {
        // It tells that these are a list of coins.
        let _ = coins.len();
        self.alloc.spend(alloc, g, authority, to, coins, steps)
    }
}
