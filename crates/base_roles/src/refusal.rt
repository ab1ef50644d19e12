//! Why messages and transactions are refused, with the numbers of the reasons (Cosmos SDK: the modules' errors).

ghost use Rattle.std.specs.Prelude.{◌≡◌};
ghost use Rattle.base_roles.specs.Refusals.{refusal_number};

use base_decimals::Over;
use base_types::Moment;

/// Why a message or a transaction is refused. The numbers are this program's own; most reasons are errors
/// of Cosmos SDK v0.47 (`x/staking/types/errors.go`, `x/distribution/types/errors.go`,
/// `x/slashing/types/errors.go`, `types/errors`).
#[derive(Clone, Copy, Debug, PartialEq, Eq)]
pub enum Refusal {
    /// Some coin is above the payer's balance.
    InsufficientFunds,
    /// The receiver or the withdraw address is a module's account.
    ModuleRecipient,
    /// The coin is not of the bond denomination.
    WrongDenom,
    /// The amount is 0, or the list has no coin.
    NonPositive,
    /// No validator has the operator.
    NoValidator,
    /// A validator has the operator already.
    ValidatorExists,
    /// A validator has the consensus address already.
    ConsKeyExists,
    /// The greatest rate is above one, or a rate or step above the greatest rate.
    CommissionRange,
    /// The rate is below the least rate of the parameters.
    CommissionBelowMinimum,
    /// Less than 24 hours passed since the rate was changed.
    CommissionTooSoon,
    /// The rate is above the greatest rate.
    CommissionAboveMax,
    /// The rate is above the old one by more than the greatest step.
    CommissionStep,
    /// The given least self-delegation is 0.
    MinSelfNotPositive,
    /// The self-delegation is below the least one.
    SelfBelowMinimum,
    /// The given least self-delegation is not above the old one.
    MinSelfNotRaised,
    /// There is no such delegation.
    NoDelegation,
    /// The delegation has fewer shares.
    TooManyShares,
    /// The validator has no tokens.
    NoTokens,
    /// The validator has shares and no tokens.
    RateInvalid,
    /// The delegator has as many unbonding entries at the operator as are allowed.
    UnbondingsFull,
    /// Source and target are one.
    SelfRedelegation,
    /// A redelegation to the source is not complete.
    Transitive,
    /// The delegator has as many redelegation entries from source to target as are allowed.
    RedelegationsFull,
    /// Nothing would come out of the source.
    TinyRedelegation,
    /// The validator is jailed.
    Jailed,
    /// There is no such unbonding entry.
    NoEntry,
    /// The entry's balance is smaller.
    CancelTooMuch,
    /// The validator is not jailed.
    NotJailed,
    /// The operator has no delegation to itself.
    NoSelfDelegation,
    /// The validator stays jailed until this moment.
    StillJailed(Moment),
    /// The validator is jailed for ever.
    Tombstoned,
    /// There is no commission to withdraw.
    NoCommission,
    /// Some coin is above what the community pool holds.
    PoolTooSmall,
    /// The sender is not the authority.
    NotAuthority,
    /// A result would be 10^38 units or more; its operands.
    Overflow(Over),
    /// The parameters allow no other withdraw address.
    WithdrawFixed,
    /// The amount would give no shares.
    TinyDelegation,
    /// The parameter of this number, by which lines name it, is out of its range.
    ParamRange(u16),
    /// The parameter of this number never changes.
    ParamFixed(u16),
    /// The payer is short of the fee: of a whole transaction, never of a message.
    FeeUnpaid,
}

impl Refusal {
    /// The number by which printed lines name it.
    pub fn number(&self) -> u8
        ensures { result ≡ refusal_number self.now }
    {
        match self {
            Refusal::InsufficientFunds => 1,
            Refusal::ModuleRecipient => 2,
            Refusal::WrongDenom => 3,
            Refusal::NonPositive => 4,
            Refusal::NoValidator => 5,
            Refusal::ValidatorExists => 6,
            Refusal::ConsKeyExists => 7,
            Refusal::CommissionRange => 8,
            Refusal::CommissionBelowMinimum => 9,
            Refusal::CommissionTooSoon => 10,
            Refusal::CommissionAboveMax => 11,
            Refusal::CommissionStep => 12,
            Refusal::MinSelfNotPositive => 13,
            Refusal::SelfBelowMinimum => 14,
            Refusal::MinSelfNotRaised => 15,
            Refusal::NoDelegation => 16,
            Refusal::TooManyShares => 17,
            Refusal::NoTokens => 18,
            Refusal::RateInvalid => 19,
            Refusal::UnbondingsFull => 20,
            Refusal::SelfRedelegation => 21,
            Refusal::Transitive => 22,
            Refusal::RedelegationsFull => 23,
            Refusal::TinyRedelegation => 24,
            Refusal::Jailed => 25,
            Refusal::NoEntry => 26,
            Refusal::CancelTooMuch => 27,
            Refusal::NotJailed => 28,
            Refusal::NoSelfDelegation => 29,
            Refusal::StillJailed(_) => 30,
            Refusal::Tombstoned => 31,
            Refusal::NoCommission => 32,
            Refusal::PoolTooSmall => 33,
            Refusal::NotAuthority => 34,
            Refusal::Overflow(_) => 35,
            Refusal::WithdrawFixed => 36,
            Refusal::TinyDelegation => 37,
            Refusal::ParamRange(_) => 38,
            Refusal::ParamFixed(_) => 39,
            Refusal::FeeUnpaid => 40,
        }
    }
}
