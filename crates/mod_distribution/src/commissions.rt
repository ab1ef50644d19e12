//! Withdrawals of commissions, and to whom payments go.

ghost use Rattle.std.specs.Prelude.{◌≡◌, ◌++◌, ◌∷◌, [], OnOk, OnErr, IfErr};
ghost use Rattle.base_roles.specs.declared.facts.Fact.TheVariants as fact;
ghost use Rattle.base_roles.specs.declared.faults.HookFault.TheVariants.{NoMemory};
ghost use Rattle.base_roles.specs.Ground.{seen, CanBeUndone};
ghost use Rattle.base_roles.specs.Owing.{Lists};
ghost use Rattle.base_roles.specs.World.{View};
ghost use Rattle.rule_modules.specs.Distribution.{Shared};
ghost use Rattle.rule_modules.specs.Withdrawals.{commission_withdrawn, payee_set};
ghost use Rattle.mod_distribution.specs.Calls.{StandFor, commission_told, CarriesOutOrRefuses, SetsOrRefuses};
ghost use Rattle.mod_distribution.specs.Kept.{SharedGoesOn};
ghost use Rattle.mod_distribution.specs.Stands.{KeepsShared};

use crate::distr::Distr;
use crate::paying::pay;
use base_coins::Coins;
use base_roles::{Bank, Fact, Facts, Ground, HookFault, MessageFault, Params, Refusal};
use base_types::{Account, Addr, Copied, Steps};
use std::alloc::Global;
use std::sync::ledger::Ledger;

impl Distr {
    /// Pays a validator's commission to its operator's withdraw address, in whole coins and as far as what
    /// is outstanding goes (`WithdrawValidatorCommission`). Answers the coins that were paid. The order of
    /// facts is: the transfer where something is paid, the commission.
    ///
    /// It is refused as `NoCommission` exactly where the operator has no purse or no commission.
    pub fn withdraw_commission<B: Bank, L: Ledger>(
        &mut self,
        alloc: Global,
        g: &mut Ground<B>,
        operator: &Addr,
        steps: &mut Steps<L>,
    ) -> Result<Coins, MessageFault>
        requires stand { (l : Lists) × StandFor self.old.kept (seen B.holdings g.old) l }

        ensures withdrawn { (d : Shared) → KeepsShared self.old.kept d → CarriesOutOrRefuses
            (commission_withdrawn operator.now d (seen B.holdings g.old)) self.new.kept
            (seen B.holdings g.new) result }
        ensures stand { (l : Lists) → StandFor self.old.kept (seen B.holdings g.old) l
            → OnOk result (StandFor self.new.kept (seen B.holdings g.new) l) }

        // Whatever the answer.
        ensures undone { CanBeUndone B.marks g.old g.new }
        ensures bank { B.most_steps g.new.bank ≡ B.most_steps g.old.bank }
        ensures goes_on { SharedGoesOn self.old self.new result }
    {
        let to = self.payee(operator, steps);
        let Some(coins) = self.alloc.take_commission(alloc, operator, steps)? else {
            return Err(MessageFault::Refused(Refusal::NoCommission));
        };
        pay(alloc, g, &to, &coins, steps)?;
        let told = coins.copied()?;
        tell_commission(&mut g.facts, operator, &to, told)?;
        Ok(coins)
    }

    /// From now on payments of an address go to another (`SetWithdrawAddr`). It has no fact.
    ///
    /// It is refused as `ModuleRecipient` where the other is a module's account, else as `WithdrawFixed`
    /// where the parameters do not allow it.
    pub fn set_withdraw<L: Ledger>(
        &mut self,
        params: &Params,
        facts: &mut Facts,
        who: &Addr,
        to: &Account,
        steps: &mut Steps<L>,
    ) -> Result<(), MessageFault>
        ensures set { (d : Shared) → KeepsShared self.old.kept d → SetsOrRefuses
            (payee_set who.now to.now params.now d) self.new.kept result }
        ensures untold { facts.new ≡ facts.old }
        ensures stand { (u : View) (l : Lists) → StandFor self.old.kept u l
            → OnOk result (StandFor self.new.kept u l) }
        ensures err { OnErr result (self.new.kept ≡ self.old.kept) }

        // Whatever the answer.
        ensures goes_on { SharedGoesOn self.old self.new result }
    {
        // A new withdraw address is told by no fact.
        let _ = facts.len();
        let Account::User(to) = to else {
            return Err(MessageFault::Refused(Refusal::ModuleRecipient));
        };
        if !params.withdraw_addr_enabled {
            return Err(MessageFault::Refused(Refusal::WithdrawFixed));
        }
        self.put_payee(who, to, steps)?;
        Ok(())
    }
}

/// Tells that a validator's commission was paid. Where memory is wanting, nothing is told.
fn tell_commission(
    facts: &mut Facts,
    operator: &Addr,
    to: &Addr,
    coins: Coins,
) -> Result<(), HookFault>
    ensures told { OnOk result
        (facts.new ≡ facts.old ++ fact.Commission operator.now to.now coins ∷ []) }
    ensures untold { OnErr result (facts.new ≡ facts.old) }
    ensures fault { IfErr result (λ fault. fault ≡ NoMemory) }
{
    facts.push(Fact::Commission {
        validator: *operator,
        to: *to,
        coins,
    })?;
    Ok(())
}

/// Tells that a validator's commission was paid, where there are any coins. Where memory is wanting,
/// nothing is told.
pub(crate) fn tell_some_commission(
    facts: &mut Facts,
    operator: &Addr,
    to: &Addr,
    coins: Coins,
) -> Result<(), HookFault>
    ensures told { OnOk result
        (facts.new ≡ commission_told operator.now to.now coins facts.old) }
    ensures untold { OnErr result (facts.new ≡ facts.old) }
    ensures fault { IfErr result (λ fault. fault ≡ NoMemory) }
{
    if coins.len() == 0 {
        return Ok(());
    }
    tell_commission(facts, operator, to, coins)
}
