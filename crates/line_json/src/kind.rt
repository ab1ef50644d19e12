//! The kinds of messages, by their names.
ghost use Rattle.std.specs.Prelude.{◌≡◌};
ghost use Rattle.line_json.specs.Messages.{kind_of};

use crate::members::Scalar;
use crate::tree::Tree;

/// The kind of a message.
#[derive(Clone, Copy, Debug, PartialEq, Eq)]
pub enum Kind {
    Send,
    CreateValidator,
    EditValidator,
    Delegate,
    Undelegate,
    BeginRedelegate,
    CancelUnbonding,
    Unjail,
    WithdrawReward,
    WithdrawCommission,
    SetWithdrawAddress,
    FundCommunityPool,
    CommunityPoolSpend,
    UpdateParams,
}

/// The kind of this name.
#[tactic(auto, unfolding(crate::specs::Messages::kind_of))]
fn kind_of(name: &str) -> Option<Kind>
    ensures { result ≡ kind_of name.now }
{
    match name {
        "send" => Some(Kind::Send),
        "create_validator" => Some(Kind::CreateValidator),
        "edit_validator" => Some(Kind::EditValidator),
        "delegate" => Some(Kind::Delegate),
        "undelegate" => Some(Kind::Undelegate),
        "begin_redelegate" => Some(Kind::BeginRedelegate),
        "cancel_unbonding" => Some(Kind::CancelUnbonding),
        "unjail" => Some(Kind::Unjail),
        "withdraw_reward" => Some(Kind::WithdrawReward),
        "withdraw_commission" => Some(Kind::WithdrawCommission),
        "set_withdraw_address" => Some(Kind::SetWithdrawAddress),
        "fund_community_pool" => Some(Kind::FundCommunityPool),
        "community_pool_spend" => Some(Kind::CommunityPoolSpend),
        "update_params" => Some(Kind::UpdateParams),
        _ => None,
    }
}

/// A string that names a kind.
impl Scalar for Kind {
    ghost use Rattle.line_json.specs.Messages.{kind_of};
    ghost use Rattle.line_json.specs.Members.{spelled_by};

    ghost form = { spelled_by kind_of };

    fn from_tree<N: Tree>(tree: &N) -> Option<Kind> {
        tree.as_str().and_then(kind_of)
    }
}
