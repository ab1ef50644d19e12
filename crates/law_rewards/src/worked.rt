//! Worked rows of accounts, each a theorem that its function's contract names: histories of fitting deeds, and what they
//! come to. So the premises of the laws can be met.

ghost use Rattle.law_rewards.specs.Worked.{SlashedTwice, LastPaymentIsCut, NothingIsUnfair, TwiceIsUnfair, OtherOutstandingIsUnfair, AgainIsUnfair, UnpaidStartIsUnfair, UnsentIsUnfair, GoneUnpaidIsUnfair};

/// A delegation that was redelegated is slashed for both validators; its reward and its ideal reward.
#[tactic(auto, using(crate::proofs::RowLemmas::slashed_twice))]
pub fn slashed_twice()
    ensures { SlashedTwice }
{}

/// An exhausted outstanding record cuts the last payment of a history, within the overclaim.
#[tactic(auto, using(crate::proofs::RowLemmas::last_payment_is_cut))]
pub fn last_payment_is_cut()
    ensures { LastPaymentIsCut }
{}

/// Where fees were shared, a withdrawal that pays nothing is not fair, nor is one that pays twice as much, nor one that says
/// that another amount was outstanding, nor a second one, nor a new start of a delegation whose reward was not withdrawn; nor
/// a payment of coins that is told before they are sent. A rule that pays nothing for the last delegation of a validator that
/// goes with it logs entries that are fair, one by one; but rewards run then where no delegation is.
pub fn unfair_payments()
    ensures nothing { NothingIsUnfair }
    ensures twice { TwiceIsUnfair }
    ensures other { OtherOutstandingIsUnfair }
    ensures again { AgainIsUnfair }
    ensures unpaid { UnpaidStartIsUnfair }
    ensures unsent { UnsentIsUnfair }
    ensures gone { GoneUnpaidIsUnfair }
{}
