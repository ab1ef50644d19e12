//! What the definitions mean: laws as functions that do nothing, whose contracts are the laws.

ghost use Rattle.law_statements.specs.Rightly.{FairPaymentsAreStatedRightly};
ghost use Rattle.law_statements.specs.Runs.{UnheardRunsPayRightly};

/// The statement of a payment is right that rests on the log up to it, where it is of a withdrawal that is fair by that log; and in
/// each denomination that it lists its slack is at least the exact one of the delegation's span and the overclaim of the moment.
pub fn fair_payments_are_stated_rightly()
    ensures { FairPaymentsAreStatedRightly }
{}

/// Wherever a good genesis and blocks lead to, which a recorder hears that changes nothing: the genesis pays nobody, and each
/// payment of a pair is of a withdrawal that was logged, and is stated rightly, by the log up to it.
#[tactic(auto, using(crate::proofs::Running::unheard_runs_pay_rightly))]
pub fn unheard_runs_pay_rightly()
    ensures { UnheardRunsPayRightly }
{}
