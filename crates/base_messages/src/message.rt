//! The messages of transactions (Cosmos SDK: those of `x/bank`, `x/staking`, `x/slashing` and `x/distribution`).

ghost use Rattle.std.specs.Prelude.{⊤};

use base_coins::{Coin, Coins};
use base_roles::{CreateValidator, EditValidator, Params};
use base_types::{Account, Addr, Copied, TableFault};

/// A message of a transaction.
#[derive(Debug, Drop)]
pub enum Msg {
    Send(Send),
    CreateValidator(CreateValidator),
    EditValidator(EditValidator),
    Delegate(Delegate),
    Undelegate(Undelegate),
    BeginRedelegate(BeginRedelegate),
    CancelUnbonding(CancelUnbonding),
    Unjail(Unjail),
    WithdrawReward(WithdrawReward),
    WithdrawCommission(WithdrawCommission),
    SetWithdrawAddress(SetWithdrawAddress),
    FundCommunityPool(FundCommunityPool),
    CommunityPoolSpend(CommunityPoolSpend),
    UpdateParams(UpdateParams),
}

/// Coins move from a user to an account (`banktypes.MsgSend`).
#[derive(Debug, Drop)]
pub struct Send {
    pub from: Addr,
    pub to: Account,
    pub coins: Coins,
}

/// A coin of the bond denomination is delegated (`stakingtypes.MsgDelegate`).
#[derive(Clone, Copy, Debug, PartialEq, Eq)]
pub struct Delegate {
    pub delegator: Addr,
    /// The validator's operator.
    pub validator: Addr,
    pub amount: Coin,
}

/// A delegation is lowered by a coin, which is paid when it has unbonded (`stakingtypes.MsgUndelegate`).
#[derive(Clone, Copy, Debug, PartialEq, Eq)]
pub struct Undelegate {
    pub delegator: Addr,
    /// The validator's operator.
    pub validator: Addr,
    pub amount: Coin,
}

/// A coin of a delegation moves to another validator (`stakingtypes.MsgBeginRedelegate`).
#[derive(Clone, Copy, Debug, PartialEq, Eq)]
pub struct BeginRedelegate {
    pub delegator: Addr,
    /// The operator that it leaves.
    pub source: Addr,
    /// The operator that it goes to.
    pub target: Addr,
    pub amount: Coin,
}

/// A coin that is unbonding is delegated again (`stakingtypes.MsgCancelUnbondingDelegation`).
#[derive(Clone, Copy, Debug, PartialEq, Eq)]
pub struct CancelUnbonding {
    pub delegator: Addr,
    /// The validator's operator.
    pub validator: Addr,
    pub amount: Coin,
    /// The height at which the unbonding entry was made.
    pub creation_height: u64,
}

/// A validator is to be jailed no longer (`slashingtypes.MsgUnjail`).
#[derive(Clone, Copy, Debug, PartialEq, Eq)]
pub struct Unjail {
    /// The validator's operator.
    pub validator: Addr,
}

/// A delegator's reward is paid (`distrtypes.MsgWithdrawDelegatorReward`).
#[derive(Clone, Copy, Debug, PartialEq, Eq)]
pub struct WithdrawReward {
    pub delegator: Addr,
    /// The validator's operator.
    pub validator: Addr,
}

/// A validator's commission is paid (`distrtypes.MsgWithdrawValidatorCommission`).
#[derive(Clone, Copy, Debug, PartialEq, Eq)]
pub struct WithdrawCommission {
    /// The validator's operator.
    pub validator: Addr,
}

/// A delegator's rewards are to go to an account (`distrtypes.MsgSetWithdrawAddress`).
#[derive(Clone, Copy, Debug, PartialEq, Eq)]
pub struct SetWithdrawAddress {
    pub delegator: Addr,
    pub withdraw: Account,
}

/// Coins of a user join the community pool (`distrtypes.MsgFundCommunityPool`).
#[derive(Debug, Drop)]
pub struct FundCommunityPool {
    pub depositor: Addr,
    pub coins: Coins,
}

/// Coins of the community pool go to an account (`distrtypes.MsgCommunityPoolSpend`).
#[derive(Debug, Drop)]
pub struct CommunityPoolSpend {
    pub authority: Addr,
    pub recipient: Account,
    pub coins: Coins,
}

/// The parameters are replaced (the `MsgUpdateParams` of `x/staking`, `x/distribution` and `x/slashing`, as one
/// message).
#[derive(Clone, Copy, Debug, PartialEq, Eq)]
pub struct UpdateParams {
    pub authority: Addr,
    pub params: Params,
}

impl Copied for Send {
    fn copied(&self) -> Result<Send, TableFault> {
        Ok(Send {
            from: self.from,
            to: self.to,
            coins: self.coins.copied()?,
        })
    }
}

impl Copied for FundCommunityPool {
    fn copied(&self) -> Result<FundCommunityPool, TableFault> {
        Ok(FundCommunityPool {
            depositor: self.depositor,
            coins: self.coins.copied()?,
        })
    }
}

impl Copied for CommunityPoolSpend {
    fn copied(&self) -> Result<CommunityPoolSpend, TableFault> {
        Ok(CommunityPoolSpend {
            authority: self.authority,
            recipient: self.recipient,
            coins: self.coins.copied()?,
        })
    }
}

impl Copied for Delegate {
    ghost is_infallible = { ⊤ };

    fn copied(&self) -> Result<Delegate, TableFault> {
        Ok(*self)
    }
}

impl Copied for Undelegate {
    ghost is_infallible = { ⊤ };

    fn copied(&self) -> Result<Undelegate, TableFault> {
        Ok(*self)
    }
}

impl Copied for BeginRedelegate {
    ghost is_infallible = { ⊤ };

    fn copied(&self) -> Result<BeginRedelegate, TableFault> {
        Ok(*self)
    }
}

impl Copied for CancelUnbonding {
    ghost is_infallible = { ⊤ };

    fn copied(&self) -> Result<CancelUnbonding, TableFault> {
        Ok(*self)
    }
}

impl Copied for Unjail {
    ghost is_infallible = { ⊤ };

    fn copied(&self) -> Result<Unjail, TableFault> {
        Ok(*self)
    }
}

impl Copied for WithdrawReward {
    ghost is_infallible = { ⊤ };

    fn copied(&self) -> Result<WithdrawReward, TableFault> {
        Ok(*self)
    }
}

impl Copied for WithdrawCommission {
    ghost is_infallible = { ⊤ };

    fn copied(&self) -> Result<WithdrawCommission, TableFault> {
        Ok(*self)
    }
}

impl Copied for SetWithdrawAddress {
    ghost is_infallible = { ⊤ };

    fn copied(&self) -> Result<SetWithdrawAddress, TableFault> {
        Ok(*self)
    }
}

impl Copied for UpdateParams {
    ghost is_infallible = { ⊤ };

    fn copied(&self) -> Result<UpdateParams, TableFault> {
        Ok(*self)
    }
}

impl Copied for Msg {
    fn copied(&self) -> Result<Msg, TableFault> {
        Ok(match self {
            Msg::Send(message) => Msg::Send(message.copied()?),
            Msg::CreateValidator(message) => Msg::CreateValidator(*message),
            Msg::EditValidator(message) => Msg::EditValidator(*message),
            Msg::Delegate(message) => Msg::Delegate(*message),
            Msg::Undelegate(message) => Msg::Undelegate(*message),
            Msg::BeginRedelegate(message) => Msg::BeginRedelegate(*message),
            Msg::CancelUnbonding(message) => Msg::CancelUnbonding(*message),
            Msg::Unjail(message) => Msg::Unjail(*message),
            Msg::WithdrawReward(message) => Msg::WithdrawReward(*message),
            Msg::WithdrawCommission(message) => Msg::WithdrawCommission(*message),
            Msg::SetWithdrawAddress(message) => Msg::SetWithdrawAddress(*message),
            Msg::FundCommunityPool(message) => Msg::FundCommunityPool(message.copied()?),
            Msg::CommunityPoolSpend(message) => Msg::CommunityPoolSpend(message.copied()?),
            Msg::UpdateParams(message) => Msg::UpdateParams(*message),
        })
    }
}
