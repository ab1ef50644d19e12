//! Values that can be copied, as tables need them, and the errors of tables.

ghost use Rattle.std.specs.Prelude.{◌≡◌, ⊤, Ok, IfOk, IfErr};

use crate::account::{Account, Addr, Module};
use crate::cons::ConsAddr;
use crate::denom::Denom;
use crate::moment::Moment;
use crate::status::BondStatus;
use std::alloc::{AllocError, AllocFailed};
use thiserror::Error;

/// Why a table gives no answer.
#[derive(Clone, Copy, Debug, PartialEq, Eq, Error)]
pub enum TableFault {
    /// Memory is wanting.
    #[error("NoMemory")]
    NoMemory,
    /// Memory was wanting in an earlier change of this table.
    #[error("Spent")]
    Spent,
}

impl From<AllocError> for TableFault {
    ghost use Rattle.base_types.specs.declared.copied.TableFault.TheVariants.{NoMemory};

    ghost from_gives = { λ _ fault. fault ≡ NoMemory };

    fn from(_: AllocError) -> TableFault {
        TableFault::NoMemory
    }
}

impl<T: Drop> From<AllocFailed<T>> for TableFault {
    ghost use Rattle.base_types.specs.declared.copied.TableFault.TheVariants.{NoMemory};

    ghost from_gives = { λ _ fault. fault ≡ NoMemory };

    fn from(_: AllocFailed<T>) -> TableFault {
        TableFault::NoMemory
    }
}

/// A value that can be copied, where the copy may want memory.
pub trait Copied: Sized + Drop {
    // Holds of a type whose copies take no memory, so that none fails.
    ghost is_infallible: { Type 0 } = { ⊥ };

    /// A copy, equal to the value. The only error is `NoMemory`.
    fn copied(&self) -> Result<Self, TableFault>
        ensures same { IfOk result (λ copy. copy ≡ self.now) }
        ensures succeeds { is_infallible → result ≡ Ok self.now }
        ensures fault { IfErr result (λ fault. fault ≡ TableFault.NoMemory) };
}

impl Copied for bool {
    ghost is_infallible = { ⊤ };

    fn copied(&self) -> Result<bool, TableFault> {
        Ok(*self)
    }
}

impl Copied for u8 {
    ghost is_infallible = { ⊤ };

    fn copied(&self) -> Result<u8, TableFault> {
        Ok(*self)
    }
}

impl Copied for u16 {
    ghost is_infallible = { ⊤ };

    fn copied(&self) -> Result<u16, TableFault> {
        Ok(*self)
    }
}

impl Copied for u32 {
    ghost is_infallible = { ⊤ };

    fn copied(&self) -> Result<u32, TableFault> {
        Ok(*self)
    }
}

impl Copied for u64 {
    ghost is_infallible = { ⊤ };

    fn copied(&self) -> Result<u64, TableFault> {
        Ok(*self)
    }
}

impl Copied for u128 {
    ghost is_infallible = { ⊤ };

    fn copied(&self) -> Result<u128, TableFault> {
        Ok(*self)
    }
}

impl Copied for usize {
    ghost is_infallible = { ⊤ };

    fn copied(&self) -> Result<usize, TableFault> {
        Ok(*self)
    }
}

impl Copied for Module {
    ghost is_infallible = { ⊤ };

    fn copied(&self) -> Result<Module, TableFault> {
        Ok(*self)
    }
}

impl Copied for Addr {
    ghost is_infallible = { ⊤ };

    fn copied(&self) -> Result<Addr, TableFault> {
        Ok(*self)
    }
}

impl Copied for Account {
    ghost is_infallible = { ⊤ };

    fn copied(&self) -> Result<Account, TableFault> {
        Ok(*self)
    }
}

impl Copied for ConsAddr {
    ghost is_infallible = { ⊤ };

    fn copied(&self) -> Result<ConsAddr, TableFault> {
        Ok(*self)
    }
}

impl Copied for Denom {
    ghost is_infallible = { ⊤ };

    fn copied(&self) -> Result<Denom, TableFault> {
        Ok(*self)
    }
}

impl Copied for Moment {
    ghost is_infallible = { ⊤ };

    fn copied(&self) -> Result<Moment, TableFault> {
        Ok(*self)
    }
}

impl Copied for BondStatus {
    ghost is_infallible = { ⊤ };

    fn copied(&self) -> Result<BondStatus, TableFault> {
        Ok(*self)
    }
}

impl<A: Copied, B: Copied> Copied for (A, B) {
    ghost is_infallible = { A.is_infallible × B.is_infallible };

    fn copied(&self) -> Result<(A, B), TableFault> {
        Ok((self.0.copied()?, self.1.copied()?))
    }
}

impl<A: Copied, B: Copied, C: Copied> Copied for (A, B, C) {
    ghost is_infallible = { A.is_infallible × B.is_infallible × C.is_infallible };

    fn copied(&self) -> Result<(A, B, C), TableFault> {
        Ok((self.0.copied()?, self.1.copied()?, self.2.copied()?))
    }
}
