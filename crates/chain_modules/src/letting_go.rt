//! Letting go of modules, one after the other. What a module holds in its tables is let go of record by record, so each
//! does it in a function of its own.

use crate::listening::Listening;
use crate::modules::{Hooks, Modules, Stakes};
use base_roles::{Ground, HookPair};
use mod_bank::BankBalances;
use mod_distribution::Distr;
use mod_redelegation::Redelegations;
use mod_signing::Window;
use mod_slashing::Core;
use mod_staking::Staking;
use mod_unbonding::Unbondings;

/// Lets go of all modules: a function that owns them does it here, and proves nothing of what they hold.
pub fn let_go<E: Drop>(modules: Modules<E>) {
    let Modules {
        ground,
        stakes,
        hooks,
    } = modules;
    let_go_of_ground(ground);
    let_go_of_stakes(stakes);
    let_go_of_hooks(hooks);
}

/// Lets go of the bank, and of the facts that were told.
fn let_go_of_ground(_ground: Ground<BankBalances>) {}

/// Lets go of what staking keeps.
fn let_go_of_stakes(stakes: Stakes) {
    let Core {
        staking,
        unbondings,
        redelegations,
    } = stakes;
    let_go_of_staking(staking);
    let_go_of_unbondings(unbondings);
    let_go_of_redelegations(redelegations);
}

fn let_go_of_staking(_staking: Staking) {}

fn let_go_of_unbondings(_unbondings: Unbondings) {}

fn let_go_of_redelegations(_redelegations: Redelegations) {}

/// Lets go of distribution, of the listener and of the signing records.
fn let_go_of_hooks<E: Drop>(hooks: Hooks<E>) {
    let HookPair { first, second } = hooks;
    let HookPair {
        first: distribution,
        second: Listening { listener },
    } = first;
    let_go_of_distribution(distribution);
    let_go_of_listener(listener);
    let_go_of_signings(second);
}

fn let_go_of_distribution(_distribution: Distr) {}

fn let_go_of_listener<E: Drop>(_listener: E) {}

fn let_go_of_signings(_signings: Window) {}
