//! Words of written lines.
ghost use Rattle.std.specs.Prelude.{◌≡◌};
ghost use Rattle.line_json.specs.Values.{over_name, status_name};

use base_decimals::OverKind;
use base_types::BondStatus;

/// The word of a status.
pub(crate) fn status_name(status: BondStatus) -> &'static str
    ensures { result.now ≡ status_name status }
{
    match status {
        BondStatus::Bonded => "bonded",
        BondStatus::Unbonding => "unbonding",
        BondStatus::Unbonded => "unbonded",
    }
}

/// The word of what went past the limit.
pub(crate) fn over_name(kind: OverKind) -> &'static str
    ensures { result.now ≡ over_name kind }
{
    match kind {
        OverKind::Sum => "sum",
        OverKind::Quotient => "quotient",
        OverKind::Period => "period",
    }
}
