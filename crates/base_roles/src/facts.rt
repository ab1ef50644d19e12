//! Facts: what happened in a block, in its order, as printed lines tell it (Cosmos SDK: events).

ghost use Rattle.std.specs.Prelude.{◌≡◌, ◌≤◌, ◌++◌, ◌∷◌, [], length, take, slice_get, OnOk, OnErr};
ghost use Rattle.std.specs.Option.{option_copied};

use crate::faults::RecordFault;
use base_coins::{Coin, Coins, DecCoins};
use base_decimals::Dec;
use base_types::{Account, Addr, BondStatus, Module};
use std::alloc::Global;
use std::marker::Model;

/// Something that happened, as printed lines tell it. Whole amounts are in units of their denomination,
/// decimals in units of 10^-18 of it.
#[derive(Debug, Drop)]
pub enum Fact {
    /// Coins moved from one account to another.
    Transfer {
        from: Account,
        to: Account,
        coins: Coins,
    },
    /// A coin is gone from a module's account and from the supply.
    Burn {
        from: Module,
        coin: Coin,
    },
    /// A validator's share of a block's fees.
    Allocated {
        validator: Addr,
        share: DecCoins,
    },
    /// This joined the community pool.
    Pooled {
        coins: DecCoins,
    },
    /// A validator's period ended; the ratio is the reward of one token since the validator was created.
    Period {
        validator: Addr,
        period: u64,
        ratio: DecCoins,
    },
    /// The rewards of a delegation begin behind this period.
    Started {
        delegator: Addr,
        validator: Addr,
        period: u64,
        stake: Dec,
    },
    /// A validator lost this part of its tokens, which is so many.
    Slashed {
        validator: Addr,
        fraction: Dec,
        burned: u128,
    },
    /// A reward left what is outstanding; its whole coins were paid.
    Paid {
        delegator: Addr,
        validator: Addr,
        to: Addr,
        reward: DecCoins,
        coins: Coins,
    },
    /// A validator's commission was paid.
    Commission {
        validator: Addr,
        to: Addr,
        coins: Coins,
    },
    /// A validator has another status.
    Changed {
        validator: Addr,
        status: BondStatus,
    },
    /// A validator was jailed.
    Jailed {
        validator: Addr,
    },
    /// A validator is no longer jailed.
    Unjailed {
        validator: Addr,
    },
    /// A validator was jailed for ever.
    Tombstoned {
        validator: Addr,
    },
    /// A validator is gone.
    Removed {
        validator: Addr,
    },
    /// The parameters were replaced, by this authority.
    ParamsChanged {
        authority: Addr,
    },
}

/// A list of facts that grows. Contracts see the list.
#[derive(Debug, Drop)]
pub struct Facts {
    list: Vec<Fact>,
}

impl Model for Facts {
    ghost use Rattle.std.specs.Prelude.{List};
    ghost use Rattle.base_roles.specs.declared.facts.Fact.{Fact};

    ghost Value = { List Fact };

    ghost view = { λ f. f.list.items };
}

impl Facts {
    /// The empty list. Takes no memory.
    pub fn new(alloc: Global) -> Facts
        ensures { result ≡ [] }
    {
        Facts {
            list: Vec::new(alloc),
        }
    }

    /// The list of these facts. Takes no memory.
    pub fn of(list: Vec<Fact>) -> Facts
        ensures { result ≡ list.items }
    {
        Facts { list }
    }

    /// The facts. Takes no memory.
    pub fn into_vec(self) -> Vec<Fact>
        ensures { result.items ≡ self }
    {
        self.list
    }

    /// How many facts there are.
    pub fn len(&self) -> usize
        ensures { result ≡ length self.now }
    {
        self.list.len()
    }

    /// The fact at a place, or None exactly where the place is not below the length.
    pub fn at(&self, place: usize) -> Option<&Fact>
        ensures { option_copied result ≡ slice_get self.now place }
    {
        self.list.get(place)
    }

    /// Puts a fact at the end. At `NoMemory` the list is as it was.
    pub fn push(&mut self, fact: Fact) -> Result<(), RecordFault>
        ensures ok { OnOk result (self.new ≡ self.old ++ fact ∷ []) }
        ensures err { OnErr result (self.new ≡ self.old) }
    {
        match self.list.push(fact) {
            Ok(()) => Ok(()),
            Err(_) => Err(RecordFault::NoMemory),
        }
    }

    /// Cuts the list to a length, which is at most its own. Takes no memory.
    pub fn cut(&mut self, len: usize)
        requires { len ≤ length self.old }
        ensures { self.new ≡ take len self.old }
    {
        self.list.truncate(len);
    }
}
