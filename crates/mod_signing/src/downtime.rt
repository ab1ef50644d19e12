//! When downtime is punished, and what it leaves of a record.

ghost use Rattle.std.specs.Prelude.{◌≡◌, ◌+◌, ◌^◌, ◌≤◌, ◌<◌};
ghost use Rattle.base_roles.specs.Ground.{AreInRange, end_of_blocks};
ghost use Rattle.rule_modules.specs.Window.{allowed_of};
ghost use Rattle.mod_signing.specs.Calls.{down_of};
ghost use Rattle.rule_modules.specs.Amounts.{seconds};

use base_decimals::Dec;
use base_roles::{Ctx, Params, SigningInfo};
use base_types::{BondStatus, Moment};

/// A second, in nanoseconds.
const SECOND: u128 = 1_000_000_000;

/// Whether a record with this info is down: its window since the start is over, more votes were missed than
/// are allowed, and the validator is not unbonded.
pub(crate) fn is_downtime(ctx: &Ctx, info: &SigningInfo, status: BondStatus) -> bool
    requires params { AreInRange ctx.now.params }
    ensures { result ≡ down_of ctx.now info.now status }
{
    // As start + window < height, which could be above a u64.
    info.start < ctx.height.saturating_sub(ctx.params.signed_blocks_window)
        && allowed(&ctx.params) < info.missed as u128
        && status != BondStatus::Unbonded
}

/// How many misses are allowed: the window less its part that is to be signed.
fn allowed(params: &Params) -> u128
    requires params { AreInRange params.now }
    ensures { result ≡ allowed_of params.now }
{
    let window = params.signed_blocks_window as u128;
    let raw = params.min_signed_per_window.raw() * window;
    let part = Dec::from_raw(raw).unwrap();
    window.saturating_sub(part.round_int())
}

/// An info after punished downtime: no votes, and jailed for the downtime's duration.
pub(crate) fn reset(info: &SigningInfo, ctx: &Ctx) -> SigningInfo
    requires params { AreInRange ctx.now.params }
    requires time { ctx.now.time < end_of_blocks }
    ensures { result ≡ record info.now {
      counted = 0;
      missed = 0;
      jailed_until = ctx.now.time + seconds ctx.now.params.downtime_jail_duration;
    } }
{
    SigningInfo {
        counted: 0,
        missed: 0,
        jailed_until: behind(ctx.time, ctx.params.downtime_jail_duration),
        ..*info
    }
}

/// The moment so many seconds behind another.
fn behind(time: Moment, duration: u64) -> Moment
    requires time { time < end_of_blocks }
    requires duration { duration ≤ 10 ^ 9 }
    ensures { result ≡ time + seconds duration }
{
    Moment::of(time.nanos() + duration as u128 * SECOND).unwrap()
}
