//! A block's fees.

ghost use Rattle.std.specs.Prelude.{◌≡◌, false, IfOk, IfErr, OnOk};
ghost use Rattle.base_types.specs.declared.account.Account.TheVariants as account;
ghost use Rattle.base_types.specs.declared.account.Module.TheVariants as holder;
ghost use Rattle.base_roles.specs.declared.faults.HookFault.TheVariants.{NoMemory};
ghost use Rattle.base_roles.specs.Answers.{Answers};
ghost use Rattle.base_roles.specs.Ground.{seen, CanBeUndone};
ghost use Rattle.base_roles.specs.Holdings.{IsBacked, coins_of, is_short};
ghost use Rattle.base_roles.specs.Owing.{Lists};
ghost use Rattle.base_roles.specs.World.{sent};
ghost use Rattle.rule_modules.specs.Allocation.{fees_allocated};
ghost use Rattle.rule_modules.specs.Distribution.{Shared, told_of};
ghost use Rattle.mod_allocation.specs.Calls.{AreVotes};
ghost use Rattle.mod_distribution.specs.Calls.{StandFor};
ghost use Rattle.mod_distribution.specs.Kept.{SharedGoesOn};
ghost use Rattle.mod_distribution.specs.Stands.{KeepsShared};

use crate::distr::Distr;
use base_coins::Coins;
use base_roles::{Bank, Ground, HookFault, ValidatorView, Vote};
use base_types::{Account, Module, Steps};
use std::alloc::Global;
use std::sync::ledger::Ledger;

impl Distr {
    /// Begins a block above height 1 (`BeginBlocker` of `x/distribution`): all that the fee collector holds
    /// moves to the distribution account and is allocated among the votes. The order of facts is: the
    /// transfer, the share of each vote that has one, what joined the pool. A block of height 1 allocates
    /// nothing.
    ///
    /// The errors are `NoMemory` and `Over`, which comes exactly where a commission or current rewards
    /// would reach 10^38 units, with the operands of the first such sum in the order of the votes.
    pub fn begin_block<B: Bank, V: ValidatorView, L: Ledger>(
        &mut self,
        alloc: Global,
        g: &mut Ground<B>,
        validators: &V,
        votes: &[Vote],
        steps: &mut Steps<L>,
    ) -> Result<(), HookFault>
        requires stand { (l : Lists) × StandFor self.old.kept (seen B.holdings g.old) l }
        requires votes { AreVotes (V.staked validators.now) self.old.kept.purses votes.now }

        ensures allocated { (d : Shared) → KeepsShared self.old.kept d → Answers
            (told_of (fees_allocated (V.staked validators.now) votes.now d (seen B.holdings g.old)))
            (KeepsShared self.new.kept) (seen B.holdings g.new) result }
        ensures stand { (l : Lists) → StandFor self.old.kept (seen B.holdings g.old) l
            → OnOk result (StandFor self.new.kept (seen B.holdings g.new) l) }

        // Whatever the answer.
        ensures undone { CanBeUndone B.marks g.old g.new }
        ensures bank { B.most_steps g.new.bank ≡ B.most_steps g.old.bank }
        ensures goes_on { SharedGoesOn self.old self.new result }
    {
        if g.ctx.height <= 1 {
            return Ok(());
        }
        let fees = collect(alloc, g, steps)?;
        // It tells that the fees are a list of coins.
        let _ = fees.len();
        self.alloc.allocate(
            alloc,
            &mut g.facts,
            validators,
            &g.ctx.params,
            &fees,
            votes,
            steps,
        )
    }
}

/// All that the fee collector holds moves to the distribution account. Answers what moved. The only error
/// is `NoMemory`.
fn collect<B: Bank, L: Ledger>(
    alloc: Global,
    g: &mut Ground<B>,
    steps: &mut Steps<L>,
) -> Result<Coins, HookFault>
    requires backed { IsBacked (B.holdings g.old.bank) }
    ensures fees { IfOk result
        (λ fees. fees ≡ coins_of (B.holdings g.old.bank) (account.Module holder.FeeCollector)) }
    ensures moved { IfOk result (λ fees. seen B.holdings g.new
        ≡ sent (account.Module holder.FeeCollector) (account.Module holder.Distribution) fees
        (seen B.holdings g.old)) }
    ensures enough { IfOk result (λ fees. is_short (B.holdings g.old.bank)
        (account.Module holder.FeeCollector) fees ≡ false) }
    ensures fault { IfErr result (λ fault. fault ≡ NoMemory) }
    ensures backed { IsBacked (B.holdings g.new.bank) }

    // Whatever the answer.
    ensures undone { CanBeUndone B.marks g.old g.new }
    ensures bank { B.most_steps g.new.bank ≡ B.most_steps g.old.bank }
{
    let from = Account::Module(Module::FeeCollector);
    let to = Account::Module(Module::Distribution);
    let Ok(fees) = g.bank.coins_of(alloc, &from, steps) else {
        return Err(HookFault::NoMemory);
    };
    match g.bank.send(alloc, &mut g.facts, &from, &to, &fees, steps) {
        Ok(()) => Ok(fees),
        Err(_) => Err(HookFault::NoMemory),
    }
}
