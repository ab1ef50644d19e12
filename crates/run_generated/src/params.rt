//! The parameters, in the lines of an input. Members stand in ascending order of their names.
ghost use Rattle.std.specs.Prelude.{◌≡◌, ◌++◌, IfErr, OnOk};
ghost use Rattle.line_json.specs.Told.{data_tokens};
ghost use Rattle.run_generated.specs.Lines.{params_data};

use crate::spelling::push_object;
use base_bech32::Form;
use base_messages::LineFault;
use base_roles::Params;
use json::Writer;
use line_json::Told;
use std::alloc::Global;

/// The object of parameters.
pub(crate) fn push_params(
    form: Form,
    alloc: Global,
    writer: &mut Writer,
    params: &Params,
) -> Result<(), LineFault>
    ensures ok { OnOk result (writer.new.tokens
        ≡ writer.old.tokens ++ data_tokens (params_data form params.now)) }
    ensures before { OnOk result (writer.new.before ≡ writer.old.before) }
    ensures fault { IfErr result (λ fault. fault ≡ LineFault.NoMemory) }
{
    let members = [
        ("authority", Told::User(form, &params.authority)),
        ("bond_denom", Told::Denom(&params.bond_denom)),
        ("community_tax", Told::Decimal(params.community_tax)),
        (
            "downtime_jail_duration",
            Told::Count(params.downtime_jail_duration),
        ),
        ("max_age_duration", Told::Count(params.max_age_duration)),
        ("max_age_num_blocks", Told::Count(params.max_age_num_blocks)),
        ("max_entries", Told::Count(params.max_entries)),
        ("max_validators", Told::Count(params.max_validators)),
        (
            "min_commission_rate",
            Told::Decimal(params.min_commission_rate),
        ),
        (
            "min_signed_per_window",
            Told::Decimal(params.min_signed_per_window),
        ),
        ("power_reduction", Told::Count(params.power_reduction)),
        (
            "signed_blocks_window",
            Told::Count(params.signed_blocks_window),
        ),
        (
            "slash_fraction_double_sign",
            Told::Decimal(params.slash_fraction_double_sign),
        ),
        (
            "slash_fraction_downtime",
            Told::Decimal(params.slash_fraction_downtime),
        ),
        ("unbonding_time", Told::Count(params.unbonding_time)),
        (
            "withdraw_addr_enabled",
            Told::Flag(params.withdraw_addr_enabled),
        ),
    ];
    push_object(alloc, writer, &members)
}
