//! The calls of the hooks of staking, as values.

use crate::entities::Validator;
use base_decimals::Dec;
use base_types::Addr;

/// One call of a hook of staking, with its arguments (Cosmos SDK v0.47: `x/staking/types`, the methods of
/// `StakingHooks`). The validator is as it is at the call; shares and parts are in units of 10^-18.
#[derive(Clone, Copy, Debug)]
pub enum Hook {
    /// After a validator was created (`AfterValidatorCreated`).
    Created {
        validator: Validator,
    },
    /// After a validator was removed (`AfterValidatorRemoved`).
    Removed {
        validator: Validator,
    },
    /// After a validator joined the bonded set (`AfterValidatorBonded`).
    Bonded {
        validator: Validator,
    },
    /// Before a delegation is created (`BeforeDelegationCreated`).
    Starting {
        validator: Validator,
        delegator: Addr,
    },
    /// Before a delegation's shares, which are so many, change (`BeforeDelegationSharesModified`).
    Modifying {
        validator: Validator,
        delegator: Addr,
        shares: Dec,
    },
    /// After a delegation was created or changed, and has so many shares (`AfterDelegationModified`).
    Modified {
        validator: Validator,
        delegator: Addr,
        shares: Dec,
    },
    /// Before a validator loses this part of its tokens (`BeforeValidatorSlashed`).
    Slashing {
        validator: Validator,
        fraction: Dec,
    },
}
