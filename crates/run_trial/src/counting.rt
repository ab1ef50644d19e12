//! What the reports of blocks come to, one block after another.
ghost use Rattle.std.specs.Prelude.{◌≡◌, ◌+◌, ◌<◌, ◌^◌, not, [], count_by, drop, length, sum_by};
ghost use Rattle.run_trial.specs.Summary.{HasRoom, burned_amount, burned_by, counted, counts_of, is_accepted};

use crate::counts::Counts;
use base_messages::{BlockReport, Outcome, TxReport};
use base_roles::{Fact, Facts};

/// Whether the transaction was carried out.
fn is_accepted(tx: &TxReport) -> bool
    ensures { result ≡ is_accepted tx.now }
{
    match tx.outcome {
        Outcome::Accepted => true,
        Outcome::FeeUnpaid | Outcome::Refused(_, _) => false,
    }
}

/// How many transactions were carried out.
fn accepted_of(txs: &[TxReport]) -> usize
    ensures { result ≡ count_by is_accepted txs.now }
{
    let mut count = 0usize;
    for tx in txs {
        if is_accepted(tx) {
            count += 1;
        }
    }
    count
}

/// How many transactions were not.
fn refused_of(txs: &[TxReport]) -> usize
    ensures { result ≡ count_by (λ tx. not (is_accepted tx)) txs.now }
{
    let mut count = 0usize;
    for tx in txs {
        if !is_accepted(tx) {
            count += 1;
        }
    }
    count
}

/// What a fact says was burned.
fn burned_amount(fact: &Fact) -> u128
    ensures { result ≡ burned_amount fact.now }
{
    match fact {
        Fact::Burn { coin, .. } => coin.amount,
        _ => 0,
    }
}

/// What the fact at a place says was burned.
fn burned_at(facts: &Facts, place: usize) -> u128
    requires { place < length facts.now }
    ensures { burned_by (drop place facts.now) ≡ result + burned_by (drop (place + 1) facts.now) }
{
    match facts.at(place) {
        Some(fact) => burned_amount(fact),
        None => 0,
    }
}

/// What facts say was burned.
fn burned_by(facts: &Facts) -> u128
    requires { burned_by facts.now < 2 ^ 128 }
    ensures { result ≡ burned_by facts.now }
{
    let mut sum = 0u128;
    for place in 0..facts.len() {
        sum += burned_at(facts, place);
    }
    sum
}

/// What the facts of transactions say was burned.
#[tactic(auto, using(std::proofs::lemmas::List::Sums::sum_by_more, std::proofs::lemmas::List::Sums::sum_by_more_le))]
fn burned_by_all(txs: &[TxReport]) -> u128
    requires { sum_by (λ tx. burned_by tx.facts) txs.now < 2 ^ 128 }
    ensures { result ≡ sum_by (λ tx. burned_by tx.facts) txs.now }
{
    let mut sum = 0u128;
    for tx in txs {
        sum += burned_by(&tx.facts);
    }
    sum
}

impl Counts {
    /// Those of no blocks.
    pub fn new() -> Counts
        ensures { result ≡ counts_of [] }
    {
        Counts {
            blocks: 0,
            accepted: 0,
            refused: 0,
            burned: 0,
        }
    }

    /// Adds those of one more block.
    pub fn add(&mut self, report: &BlockReport)
        requires room { HasRoom self.old report.now }
        ensures { self.new ≡ counted self.old report.now }
    {
        let txs = report.txs.as_slice();
        self.blocks += 1;
        self.accepted += accepted_of(txs) as u64;
        self.refused += refused_of(txs) as u64;
        self.burned += burned_by(&report.begun) + burned_by_all(txs) + burned_by(&report.ended);
    }
}
