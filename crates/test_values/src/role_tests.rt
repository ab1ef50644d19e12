//! Coins are sent between hooks that do nothing.

ghost use Rattle.std.specs.Prelude.{◌≡◌, ◌<◌};
ghost use Rattle.base_roles.specs.Ground.{seen, IsInOrder};
ghost use Rattle.base_roles.specs.Holdings.{no_holdings};

use crate::checks::holds;
use crate::values::{coins, dec, moment, params, validator};
use base_coins::Coins;
use base_roles::{Ctx, Facts, Ground, HookPair, MessageFault, NoHooks, Refusal};
use base_roles_example::callers::send_between_hooks;
use base_roles_example::trials::EmptyBank;
use base_types::Steps;
use std::marker::Brand;
use std::process::Abort;
use std::sync::ledger::{Blank, Ledger};

/// Height 1, over a bank that holds nothing.
pub fn empty_ground(rt: &(impl Abort + AllocGlobal)) -> Ground<EmptyBank>
    ensures height { result.ctx.height ≡ 1 }
    ensures in_order { IsInOrder (seen (λ _. no_holdings) result) }
{
    Ground {
        bank: EmptyBank,
        ctx: Ctx {
            height: 1,
            time: moment(rt, 0),
            params: params(rt),
        },
        facts: Facts::new(rt.alloc()),
    }
}

/// What sending coins between hooks that do nothing answers, from a bank that holds nothing.
fn outcome_of_sending<L: Ledger>(
    rt: &(impl Abort + AllocGlobal),
    blank: Blank,
    coins: &Coins,
) -> Result<(), MessageFault>
    requires name { blank.name ≡ L.name }
    requires parts { blank.parts ≡ L.parts }
    requires some { 0 < L.parts }
{
    let mut steps: Steps<L> = Steps::new(blank);
    let mut g = empty_ground(rt);
    let mut hooks = HookPair {
        first: NoHooks::new(),
        second: NoHooks::new(),
    };
    let v = validator(rt, 5);
    let shares = dec(rt, 1);
    send_between_hooks(
        rt.alloc(),
        &mut g,
        &mut hooks,
        &v,
        &v.operator,
        coins,
        shares,
        &mut steps,
    )
}

#[test]
fn a_short_sender_between_hooks_is_refused(rt: HostRuntime) {
    let short = outcome_of_sending::<Brand>(&rt, Blank::new(1), &coins(&rt, 3));
    let refused = MessageFault::Refused(Refusal::InsufficientFunds);
    holds(&rt, "short", short == Err(refused));
    let nothing = outcome_of_sending::<Brand>(&rt, Blank::new(1), &coins(&rt, 0));
    holds(&rt, "nothing", nothing == Ok(()));
}
