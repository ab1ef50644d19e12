//! Accounts: the addresses of users, and the modules that hold coins (Cosmos SDK: module accounts).

ghost use Rattle.std.specs.Prelude.{◌≡◌, ℕ, List, ◌∷◌, [], Some, None, nat_eq};
ghost use Rattle.std.specs.Cmp.Lexicographic.{bytes_decides, pointwise};
ghost use Rattle.std.specs.Cmp.Rules.{comparing};
ghost use Rattle.std.specs.Cmp.{partial_order_from_own_ties};
ghost use Rattle.std.specs.Ordering.{as_partial_cmp};
ghost use Rattle.std.proofs.Common.{ap, rules};
ghost use Rattle.base_types.specs.Modules.{module_bytes, module_name, module_of, user_from};
ghost use Rattle.base_types.specs.Orders.{addr_cmp};

use crate::words::{are_equal, order_of};
use std::cmp::Ordering;
use std::hash::{Hash, Hasher};
use std::marker::Model;

/// The modules that hold coins, in the order of their addresses.
#[derive(Clone, Copy, Debug, PartialEq, Eq, PartialOrd, Ord, Hash)]
pub enum Module {
    /// Collects the fees of transactions.
    FeeCollector,
    /// Holds the tokens of bonded validators (Cosmos SDK: `bonded_tokens_pool`).
    Bonded,
    /// Holds the other tokens of validators, and what is unbonding (`not_bonded_tokens_pool`).
    NotBonded,
    /// Holds rewards, commission and the community pool (`distribution`).
    Distribution,
}

impl Module {
    /// The module's address: nineteen zero bytes, then 1, 2, 3 or 4 in the order of the modules.
    pub fn bytes(self) -> [u8; 20]
        ensures { result ≡ module_bytes self }
    {
        let number = match self {
            Module::FeeCollector => 1u8,
            Module::Bonded => 2,
            Module::NotBonded => 3,
            Module::Distribution => 4,
        };
        let mut bytes = [0u8; 20];
        bytes[19] = number;
        bytes
    }

    /// The name that stands for the module in printed lines.
    pub fn name(self) -> &'static str
        ensures { result.now ≡ module_name self }
    {
        match self {
            Module::FeeCollector => "fee_collector",
            Module::Bonded => "bonded_tokens_pool",
            Module::NotBonded => "not_bonded_tokens_pool",
            Module::Distribution => "distribution",
        }
    }
}

/// The module that has this address.
fn module_of(bytes: &[u8; 20]) -> Option<Module>
    ensures { result ≡ module_of bytes.now }
{
    if are_equal(bytes, &Module::FeeCollector.bytes()) {
        Some(Module::FeeCollector)
    } else if are_equal(bytes, &Module::Bonded.bytes()) {
        Some(Module::Bonded)
    } else if are_equal(bytes, &Module::NotBonded.bytes()) {
        Some(Module::NotBonded)
    } else if are_equal(bytes, &Module::Distribution.bytes()) {
        Some(Module::Distribution)
    } else {
        None
    }
}

/// The address of a user, who may be an operator: twenty bytes that are no module's address. Ordered
/// by the bytes; contracts see the list of them.
#[derive(Clone, Copy, Debug)]
pub struct Addr {
    bytes: [u8; 20],
}

impl Model for Addr {
    ghost use Rattle.std.specs.Prelude.{◌≡◌, ℕ, List, None};
    ghost use Rattle.base_types.specs.Modules.{module_of};

    ghost Value = { List ℕ };

    ghost view = { λ a. a.bytes };

    ghost invariant = { λ a. module_of a.bytes ≡ None };

    ghost inverse = { λ bytes. record { bytes = bytes } };
}

impl Addr {
    /// The address of these bytes, or None where they are a module's.
    pub fn of(bytes: [u8; 20]) -> Option<Addr>
        ensures { result ≡ user_from bytes }
    {
        match module_of(&bytes) {
            Some(_) => None,
            None => Some(Addr { bytes }),
        }
    }

    /// The twenty bytes.
    pub fn bytes(&self) -> [u8; 20]
        ensures value { result ≡ self.now }
        ensures user { module_of result ≡ None }
    {
        self.bytes
    }
}

impl PartialEq for Addr {
    ghost eq = { pointwise nat_eq };

    ghost laws = { Prim.search (comparing, rules) };

    fn eq(&self, other: &Addr) -> bool {
        are_equal(&self.bytes, &other.bytes)
    }
}

impl Eq for Addr {
    ghost laws = { Prim.search (comparing, rules) };
}

impl Ord for Addr {
    ghost cmp = { addr_cmp };

    ghost total = { Prim.search (comparing, rules) };

    ghost matches_partial_cmp = { Prim.search (comparing, rules) };

    ghost matches_eq = { Prim.search (comparing, rules) };

    fn cmp(&self, other: &Addr) -> Ordering {
        order_of(&self.bytes, &other.bytes)
    }
}

impl PartialOrd for Addr {
    ghost partial_cmp = { as_partial_cmp addr_cmp };

    ghost laws = { partial_order_from_own_ties (Prim.search (comparing, rules))
        (Prim.search (comparing, rules)) };

    fn partial_cmp(&self, other: &Addr) -> Option<Ordering> {
        Some(self.cmp(other))
    }
}

impl Hash for Addr {
    ghost hash_input = { λ addr. addr ∷ [] };

    ghost respects_eq = { λ a b same. ap (λ bytes. bytes ∷ []) ((bytes_decides a b).0 same) };

    fn hash<H: Hasher>(&self, state: &mut H) {
        state.write(&self.bytes);
    }
}

/// Whose coins they are. Users come first, in the order of their addresses, then the modules in theirs.
#[derive(Clone, Copy, Debug, PartialEq, Eq, PartialOrd, Ord, Hash)]
pub enum Account {
    /// A user, by the address.
    User(Addr),
    /// A module.
    Module(Module),
}

impl Account {
    ghost use Rattle.base_types.specs.Accounts.{account_bytes, account_from};

    /// The account at these bytes: a module's where they are its address, else a user's.
    pub fn of(bytes: [u8; 20]) -> Account
        ensures { result ≡ account_from bytes }
    {
        match module_of(&bytes) {
            Some(module) => Account::Module(module),
            None => Account::User(Addr { bytes }),
        }
    }

    /// The twenty bytes of the account's address, by which [`Account::of`] gives it back.
    pub fn bytes(&self) -> [u8; 20]
        ensures value { result ≡ account_bytes self.now }
        ensures again { account_from result ≡ self.now }
    {
        match self {
            Account::User(addr) => addr.bytes(),
            Account::Module(module) => module.bytes(),
        }
    }
}
