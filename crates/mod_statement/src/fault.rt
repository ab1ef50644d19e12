//! Why there is no statement.

ghost use Rattle.std.specs.Prelude.{◌≡◌};

use base_coins::CoinFault;
use base_decimals::Over;
use base_types::TableFault;

/// Why there is no statement, or no answer about one.
#[derive(Clone, Copy, Debug, PartialEq, Eq)]
pub enum StatementFault {
    /// An amount of the bounds is 10^38 units or more; the operands that led to it.
    Over(Over),
    /// The entries are no span.
    NoSpan,
    /// Memory is wanting.
    NoMemory,
}

/// A call on lists of coins here is over, or wants memory.
impl From<CoinFault> for StatementFault {
    ghost use Rattle.mod_statement.specs.Answers.{fault_of};

    ghost from_gives = { λ fault given. given ≡ fault_of fault };

    fn from(fault: CoinFault) -> StatementFault {
        match fault {
            CoinFault::Over(over) => StatementFault::Over(over),
            CoinFault::NoMemory | CoinFault::Short(_) | CoinFault::Repeated => {
                StatementFault::NoMemory
            }
        }
    }
}

/// A copy wants memory.
impl From<TableFault> for StatementFault {
    ghost use Rattle.mod_statement.specs.declared.fault.StatementFault.TheVariants as fault;

    ghost from_gives = { λ _ given. given ≡ fault.NoMemory };

    fn from(_: TableFault) -> StatementFault {
        StatementFault::NoMemory
    }
}
