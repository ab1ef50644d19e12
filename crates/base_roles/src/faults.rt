//! The errors of records, banks, hooks and messages, and which error of a deeper call becomes which of them.

ghost use Rattle.std.specs.Prelude.{◌≡◌};

use crate::refusal::Refusal;
use base_decimals::Over;
use base_types::TableFault;
use std::alloc::{AllocError, AllocFailed};

/// Why a list or a module's records can't be kept.
#[derive(Clone, Copy, Debug, PartialEq, Eq)]
pub enum RecordFault {
    /// Memory is wanting.
    NoMemory,
}

/// Why a bank does not move or burn coins.
#[derive(Clone, Copy, Debug, PartialEq, Eq)]
pub enum BankFault {
    /// A balance is below its coin.
    Short,
    /// Memory is wanting.
    NoMemory,
}

/// Why a hook, or a call of a block's beginning or end, is not carried out.
#[derive(Clone, Copy, Debug, PartialEq, Eq)]
pub enum HookFault {
    /// A result would be 10^38 units or more; its operands.
    Over(Over),
    /// Memory is wanting.
    NoMemory,
}

/// Why a message is not carried out.
#[derive(Clone, Copy, Debug, PartialEq, Eq)]
pub enum MessageFault {
    /// It is refused.
    Refused(Refusal),
    /// Memory is wanting.
    NoMemory,
}

impl From<AllocError> for RecordFault {
    ghost use Rattle.base_roles.specs.declared.faults.RecordFault.TheVariants.{NoMemory};

    ghost from_gives = { λ _ given. given ≡ NoMemory };

    fn from(_: AllocError) -> RecordFault {
        RecordFault::NoMemory
    }
}

impl<T: Drop> From<AllocFailed<T>> for RecordFault {
    ghost use Rattle.base_roles.specs.declared.faults.RecordFault.TheVariants.{NoMemory};

    ghost from_gives = { λ _ given. given ≡ NoMemory };

    fn from(_: AllocFailed<T>) -> RecordFault {
        RecordFault::NoMemory
    }
}

impl From<TableFault> for RecordFault {
    ghost use Rattle.base_roles.specs.declared.faults.RecordFault.TheVariants.{NoMemory};

    ghost from_gives = { λ _ given. given ≡ NoMemory };

    fn from(_: TableFault) -> RecordFault {
        RecordFault::NoMemory
    }
}

impl From<AllocError> for BankFault {
    ghost use Rattle.base_roles.specs.declared.faults.BankFault.TheVariants.{NoMemory};

    ghost from_gives = { λ _ given. given ≡ NoMemory };

    fn from(_: AllocError) -> BankFault {
        BankFault::NoMemory
    }
}

impl<T: Drop> From<AllocFailed<T>> for BankFault {
    ghost use Rattle.base_roles.specs.declared.faults.BankFault.TheVariants.{NoMemory};

    ghost from_gives = { λ _ given. given ≡ NoMemory };

    fn from(_: AllocFailed<T>) -> BankFault {
        BankFault::NoMemory
    }
}

impl From<TableFault> for BankFault {
    ghost use Rattle.base_roles.specs.declared.faults.BankFault.TheVariants.{NoMemory};

    ghost from_gives = { λ _ given. given ≡ NoMemory };

    fn from(_: TableFault) -> BankFault {
        BankFault::NoMemory
    }
}

impl From<RecordFault> for BankFault {
    ghost use Rattle.base_roles.specs.declared.faults.BankFault.TheVariants.{NoMemory};

    ghost from_gives = { λ _ given. given ≡ NoMemory };

    fn from(_: RecordFault) -> BankFault {
        BankFault::NoMemory
    }
}

impl From<AllocError> for HookFault {
    ghost use Rattle.base_roles.specs.declared.faults.HookFault.TheVariants.{NoMemory};

    ghost from_gives = { λ _ given. given ≡ NoMemory };

    fn from(_: AllocError) -> HookFault {
        HookFault::NoMemory
    }
}

impl<T: Drop> From<AllocFailed<T>> for HookFault {
    ghost use Rattle.base_roles.specs.declared.faults.HookFault.TheVariants.{NoMemory};

    ghost from_gives = { λ _ given. given ≡ NoMemory };

    fn from(_: AllocFailed<T>) -> HookFault {
        HookFault::NoMemory
    }
}

impl From<TableFault> for HookFault {
    ghost use Rattle.base_roles.specs.declared.faults.HookFault.TheVariants.{NoMemory};

    ghost from_gives = { λ _ given. given ≡ NoMemory };

    fn from(_: TableFault) -> HookFault {
        HookFault::NoMemory
    }
}

impl From<RecordFault> for HookFault {
    ghost use Rattle.base_roles.specs.declared.faults.HookFault.TheVariants.{NoMemory};

    ghost from_gives = { λ _ given. given ≡ NoMemory };

    fn from(_: RecordFault) -> HookFault {
        HookFault::NoMemory
    }
}

impl From<AllocError> for MessageFault {
    ghost use Rattle.base_roles.specs.declared.faults.MessageFault.TheVariants.{NoMemory};

    ghost from_gives = { λ _ given. given ≡ NoMemory };

    fn from(_: AllocError) -> MessageFault {
        MessageFault::NoMemory
    }
}

impl<T: Drop> From<AllocFailed<T>> for MessageFault {
    ghost use Rattle.base_roles.specs.declared.faults.MessageFault.TheVariants.{NoMemory};

    ghost from_gives = { λ _ given. given ≡ NoMemory };

    fn from(_: AllocFailed<T>) -> MessageFault {
        MessageFault::NoMemory
    }
}

impl From<TableFault> for MessageFault {
    ghost use Rattle.base_roles.specs.declared.faults.MessageFault.TheVariants.{NoMemory};

    ghost from_gives = { λ _ given. given ≡ NoMemory };

    fn from(_: TableFault) -> MessageFault {
        MessageFault::NoMemory
    }
}

impl From<RecordFault> for MessageFault {
    ghost use Rattle.base_roles.specs.declared.faults.MessageFault.TheVariants.{NoMemory};

    ghost from_gives = { λ _ given. given ≡ NoMemory };

    fn from(_: RecordFault) -> MessageFault {
        MessageFault::NoMemory
    }
}

impl From<Over> for HookFault {
    ghost use Rattle.base_roles.specs.declared.faults.HookFault.TheVariants as fault;

    ghost from_gives = { λ over given. given ≡ fault.Over over };

    fn from(over: Over) -> HookFault {
        HookFault::Over(over)
    }
}

impl From<Refusal> for MessageFault {
    ghost use Rattle.base_roles.specs.declared.faults.MessageFault.TheVariants.{Refused};

    ghost from_gives = { λ why given. given ≡ Refused why };

    fn from(why: Refusal) -> MessageFault {
        MessageFault::Refused(why)
    }
}

impl From<Over> for MessageFault {
    ghost use Rattle.base_roles.specs.declared.faults.MessageFault.TheVariants.{Refused};
    ghost use Rattle.base_roles.specs.declared.refusal.Refusal.TheVariants.{Overflow};

    ghost from_gives = { λ over given. given ≡ Refused (Overflow over) };

    fn from(over: Over) -> MessageFault {
        MessageFault::Refused(Refusal::Overflow(over))
    }
}

impl From<HookFault> for MessageFault {
    ghost use Rattle.base_roles.specs.Stops.{stop_of_hook};

    ghost from_gives = { λ fault given. given ≡ stop_of_hook fault };

    fn from(fault: HookFault) -> MessageFault {
        match fault {
            HookFault::Over(over) => MessageFault::Refused(Refusal::Overflow(over)),
            HookFault::NoMemory => MessageFault::NoMemory,
        }
    }
}

impl From<BankFault> for MessageFault {
    ghost use Rattle.base_roles.specs.Stops.{stop_of_bank};

    ghost from_gives = { λ fault given. given ≡ stop_of_bank fault };

    fn from(fault: BankFault) -> MessageFault {
        match fault {
            BankFault::Short => MessageFault::Refused(Refusal::InsufficientFunds),
            BankFault::NoMemory => MessageFault::NoMemory,
        }
    }
}
