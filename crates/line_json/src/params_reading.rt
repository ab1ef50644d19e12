//! The parameters of a chain.
use crate::members::{member_at, only_named, user_at};
use crate::nested::FromTree;
use crate::tree::Tree;
use base_bech32::Form;
use base_messages::LineFault;
use base_roles::Params;
use std::alloc::Global;

impl FromTree for Params {
    ghost use Rattle.line_json.specs.Params.{params_of};

    ghost reading = { params_of };

    #[tactic(auto, unfolding(crate::specs::Params::params_of))]
    fn from_tree<N: Tree>(form: Form, _alloc: Global, tree: &N) -> Result<Params, LineFault> {
        let bond_denom = member_at(10, "bond_denom", tree)?;
        let power_reduction = member_at(11, "power_reduction", tree)?;
        let unbonding_time = member_at(12, "unbonding_time", tree)?;
        let max_validators = member_at(13, "max_validators", tree)?;
        let max_entries = member_at(14, "max_entries", tree)?;
        let min_commission_rate = member_at(15, "min_commission_rate", tree)?;
        let community_tax = member_at(16, "community_tax", tree)?;
        let withdraw_addr_enabled = member_at(17, "withdraw_addr_enabled", tree)?;
        let signed_blocks_window = member_at(18, "signed_blocks_window", tree)?;
        let min_signed_per_window = member_at(19, "min_signed_per_window", tree)?;
        let downtime_jail_duration = member_at(20, "downtime_jail_duration", tree)?;
        let slash_fraction_double_sign = member_at(21, "slash_fraction_double_sign", tree)?;
        let slash_fraction_downtime = member_at(22, "slash_fraction_downtime", tree)?;
        let max_age_duration = member_at(23, "max_age_duration", tree)?;
        let max_age_num_blocks = member_at(24, "max_age_num_blocks", tree)?;
        let authority = user_at(form, 25, "authority", tree)?;
        only_named(
            &[
                "bond_denom",
                "power_reduction",
                "unbonding_time",
                "max_validators",
                "max_entries",
                "min_commission_rate",
                "community_tax",
                "withdraw_addr_enabled",
                "signed_blocks_window",
                "min_signed_per_window",
                "downtime_jail_duration",
                "slash_fraction_double_sign",
                "slash_fraction_downtime",
                "max_age_duration",
                "max_age_num_blocks",
                "authority",
            ],
            tree,
        )?;
        Ok(Params {
            bond_denom,
            power_reduction,
            unbonding_time,
            max_validators,
            max_entries,
            min_commission_rate,
            community_tax,
            withdraw_addr_enabled,
            signed_blocks_window,
            min_signed_per_window,
            downtime_jail_duration,
            slash_fraction_double_sign,
            slash_fraction_downtime,
            max_age_duration,
            max_age_num_blocks,
            authority,
        })
    }
}
