//! The modules of a chain over one ground, as one value (`x/bank`, `x/staking`, `x/slashing` and `x/distribution`).

ghost use Rattle.std.specs.Prelude.{◌≡◌, ◌≤◌, ◌^◌};
ghost use Rattle.chain_modules.specs.Kept.{IsNewOver, listener_of};

use crate::listening::Listening;
use base_roles::{Extra, Ground, HookPair, NoHooks};
use mod_bank::BankBalances;
use mod_distribution::Distr;
use mod_redelegation::Redelegations;
use mod_signing::Window;
use mod_slashing::Core;
use mod_staking::Staking;
use mod_unbonding::Unbondings;
use std::alloc::Global;

/// What staking keeps: validators and delegations, unbonding entries, and redelegation entries.
pub type Stakes = Core<Unbondings, Redelegations>;

/// Distribution, and behind it a listener, over the ground that distribution leaves.
pub type Heard<E = NoHooks> = HookPair<Distr, Listening<E>>;

/// What hears of staking: distribution, behind it a listener, and then the signing records.
pub type Hooks<E = NoHooks> = HookPair<Heard<E>, Window>;

/// The bank within its ground, what staking keeps, and what hears of it. What is done to them is told as
/// facts of the ground.
#[derive(Drop)]
pub struct Modules<E = NoHooks> {
    pub ground: Ground<BankBalances>,
    pub stakes: Stakes,
    pub hooks: Hooks<E>,
}

impl<E: Extra> Modules<E> {
    /// The modules over a ground of which none but the bank has records yet, with a listener. Takes no memory.
    pub fn over(alloc: Global, ground: Ground<BankBalances>, listener: E) -> Modules<E>
        requires some { 1 ≤ ground.ctx.params.power_reduction }
        requires most { ground.ctx.params.power_reduction ≤ 10 ^ 18 }
        ensures empty { IsNewOver ground result }
        ensures listener { listener_of result ≡ listener }
    {
        let stakes = Core {
            staking: Staking::new(alloc, ground.ctx.params.power_reduction),
            unbondings: Unbondings::new(alloc),
            redelegations: Redelegations::new(alloc),
        };
        let hooks = HookPair {
            first: HookPair {
                first: Distr::new(alloc),
                second: Listening { listener },
            },
            second: Window::new(alloc),
        };
        Modules {
            ground,
            stakes,
            hooks,
        }
    }
}
