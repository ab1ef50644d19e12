//! The facts of a block, each behind the notes that stand before it.

ghost use Rattle.std.specs.Prelude.{◌≡◌, ◌<◌, ◌++◌, List, None, Some, drop, length, slice_get, OnOk, IfErr, IfOk};
ghost use Rattle.base_roles.specs.declared.facts.Fact.{Fact as OneFact};
ghost use Rattle.mod_statement.specs.Answers.{IsFaultOf};
ghost use Rattle.mod_statement.specs.declared.fault.StatementFault.TheVariants.{NoMemory};
ghost use Rattle.mod_statement.specs.declared.statement.Statement.{Statement as Stated};
ghost use Rattle.rule_machine.specs.Promises.{facts_of};
ghost use Rattle.mod_tracking.specs.Stating.{Follows, StillDue, statements_of, told_in};
ghost use Rattle.mod_tracking.specs.Tracking.{Followed, allocation, block_followed, fact_followed, is_pair, paid, period_ended, rest_of, unpaid};

use crate::tracker::{Pair, Tracker, is_same};
use base_coins::DecCoins;
use base_decimals::Dec;
use base_messages::{BlockReport, TxReport};
use base_roles::{Fact, Facts, Validator};
use base_types::{Addr, Copied};
use mod_recorder::Recorder;
use mod_statement::{Entry, Statement, StatementFault, make};
use std::alloc::Global;
use std::mem;

/// What the walk through a block knows of it: its height, and the operator's validator as it stood before.
#[derive(Clone, Copy, Debug)]
pub(crate) struct Passage {
    pub height: u64,
    pub validator: Option<Validator>,
}

/// The places of a block's next fact, counted up to 2^64 - 1, and of the recorder's next note.
#[derive(Clone, Copy, Debug)]
pub(crate) struct Places {
    pub fact: usize,
    pub note: usize,
}

/// What the delegators get of a share: what is left of it behind commission. The only error is `NoMemory`: no commission at a rate
/// of at most 1 is over.
fn rest_of(alloc: Global, share: &DecCoins, rate: Dec) -> Result<DecCoins, StatementFault>
    ensures rest { IfOk result (λ rest. rest ≡ rest_of share.now rate) }
    ensures fault { IfErr result (λ fault. fault ≡ NoMemory) }
{
    let Ok(part) = share.mul_even(alloc, rate) else {
        return Err(StatementFault::NoMemory);
    };
    match share.sub_checked(alloc, &part) {
        Ok(rest) => Ok(rest),
        Err(_) => Err(StatementFault::NoMemory),
    }
}

/// The fact at a place.
fn fact_at(facts: &Facts, place: usize) -> &Fact
    requires { place < length facts.now }
    ensures { slice_get facts.now place ≡ Some result.now }
{
    match facts.at(place) {
        Some(fact) => fact,
        None => unreachable!(),
    }
}

/// Whether these are the delegator and the operator of the pair.
fn is_pair(pair: &Pair, delegator: &Addr, operator: &Addr) -> bool
    ensures { result ≡ is_pair pair.now delegator.now operator.now }
{
    is_same(delegator, &pair.delegator) && is_same(operator, &pair.operator)
}

impl Tracker {
    /// Makes the statement of a payment of the pair at a height, whose entries are used up.
    ///
    /// The errors are those of [`mod_statement::make`].
    fn pay(
        &mut self,
        alloc: Global,
        pair: &Pair,
        height: u64,
        reward: &DecCoins,
        made: &mut Vec<Statement>,
    ) -> Result<(), StatementFault>
        ensures made { OnOk result (Follows pair.now height (paid reward.now (unpaid self.old))
            self.new made.old.items made.new.items) }
        ensures fault { IfErr result (IsFaultOf
            (statements_of pair.now height (paid reward.now (unpaid self.old)).payments)) }
    {
        let entries = mem::replace(&mut self.entries, Vec::new(alloc));
        let statement = make(
            alloc,
            &pair.delegator,
            &pair.operator,
            height,
            reward,
            self.removals,
            &self.ratio,
            entries,
        )?;
        match made.push(statement) {
            Ok(()) => Ok(()),
            Err(_) => Err(StatementFault::NoMemory),
        }
    }

    /// Takes an allocation to the validator, as it stood before the block. The only error is `NoMemory`.
    fn allocate(
        &mut self,
        alloc: Global,
        validator: &Option<Validator>,
        share: &DecCoins,
    ) -> Result<(), StatementFault>
        ensures tracked { OnOk result
            (self.new ≡ allocation validator.now share.now self.old) }
        ensures fault { IfErr result (λ fault. fault ≡ NoMemory) }
    {
        match validator {
            Some(validator) => {
                let coins = rest_of(alloc, share, validator.commission.rate)?;
                self.push(Entry::Allocated {
                    coins,
                    tokens: validator.tokens,
                })
            }
            None => Ok(()),
        }
    }

    /// Takes the end of a period of the validator, with this ratio. The only error is `NoMemory`.
    fn end_period(&mut self, ratio: &DecCoins) -> Result<(), StatementFault>
        ensures tracked { OnOk result (self.new ≡ period_ended ratio.now self.old) }
        ensures fault { IfErr result (λ fault. fault ≡ NoMemory) }
    {
        self.ratio = ratio.copied()?;
        self.push(Entry::Ended)
    }

    /// Takes a fact, and makes the statement of what it pays the pair.
    ///
    /// The errors are those of [`mod_statement::make`].
    fn take_fact(
        &mut self,
        alloc: Global,
        pair: &Pair,
        passage: &Passage,
        fact: &Fact,
        made: &mut Vec<Statement>,
    ) -> Result<(), StatementFault>
        ensures made { OnOk result (Follows pair.now passage.now.height
            (fact_followed pair.now passage.now.validator fact.now (unpaid self.old))
            self.new made.old.items made.new.items) }
        ensures fault { IfErr result (IsFaultOf (statements_of pair.now passage.now.height
            (fact_followed pair.now passage.now.validator fact.now (unpaid self.old)).payments)) }
    {
        match fact {
            Fact::Allocated { validator, share } => {
                if is_same(validator, &pair.operator) {
                    self.allocate(alloc, &passage.validator, share)
                } else {
                    Ok(())
                }
            }
            Fact::Period {
                validator,
                ratio,
                ..
            } => {
                if is_same(validator, &pair.operator) {
                    self.end_period(ratio)
                } else {
                    Ok(())
                }
            }
            Fact::Paid {
                delegator,
                validator,
                reward,
                ..
            } => {
                if is_pair(pair, delegator, validator) {
                    self.pay(alloc, pair, passage.height, reward, made)
                } else {
                    Ok(())
                }
            }
            _ => Ok(()),
        }
    }

    /// Takes facts, each behind the notes that stand before it, and answers where the next ones stand.
    ///
    /// The errors are those of [`mod_statement::make`], at the first statement that has one.
    fn take_facts(
        &mut self,
        alloc: Global,
        pair: &Pair,
        passage: &Passage,
        recorder: &Recorder,
        first: Places,
        facts: &Facts,
        made: &mut Vec<Statement>,
    ) -> Result<Places, StatementFault>
        ensures due { (due : Followed) (old : List Stated) (later : List OneFact)
            → StillDue pair.now passage.now.validator passage.now.height due old
            (facts.now ++ later) first.fact (drop first.note recorder.now.noted.notes)
            self.old made.old.items
            → IfOk result (λ next. StillDue pair.now passage.now.validator passage.now.height due old
            later next.fact (drop next.note recorder.now.noted.notes) self.new made.new.items) }
        ensures fault { (due : Followed) (old : List Stated) (later : List OneFact)
            → StillDue pair.now passage.now.validator passage.now.height due old
            (facts.now ++ later) first.fact (drop first.note recorder.now.noted.notes)
            self.old made.old.items
            → IfErr result (IsFaultOf (statements_of pair.now passage.now.height due.payments)) }
    {
        let mut next = first;
        for place in 0..facts.len() {
            let fact = fact_at(facts, place);
            let note = self.take_notes(alloc, pair, recorder, next.note, next.fact)?;
            self.take_fact(alloc, pair, passage, fact, made)?;
            next = Places {
                fact: next.fact.saturating_add(1),
                note,
            };
        }
        Ok(next)
    }

    /// Takes the facts of transactions, one after the other, as [`Tracker::take_facts`] does.
    fn take_txs(
        &mut self,
        alloc: Global,
        pair: &Pair,
        passage: &Passage,
        recorder: &Recorder,
        first: Places,
        txs: &[TxReport],
        made: &mut Vec<Statement>,
    ) -> Result<Places, StatementFault>
        ensures due { (due : Followed) (old : List Stated) (later : List OneFact)
            → StillDue pair.now passage.now.validator passage.now.height due old
            (told_in txs.now ++ later) first.fact (drop first.note recorder.now.noted.notes)
            self.old made.old.items
            → IfOk result (λ next. StillDue pair.now passage.now.validator passage.now.height due old
            later next.fact (drop next.note recorder.now.noted.notes) self.new made.new.items) }
        ensures fault { (due : Followed) (old : List Stated) (later : List OneFact)
            → StillDue pair.now passage.now.validator passage.now.height due old
            (told_in txs.now ++ later) first.fact (drop first.note recorder.now.noted.notes)
            self.old made.old.items
            → IfErr result (IsFaultOf (statements_of pair.now passage.now.height due.payments)) }
    {
        let mut next = first;
        for tx in txs {
            next = self.take_facts(alloc, pair, passage, recorder, next, &tx.facts, made)?;
        }
        Ok(next)
    }

    /// Takes what a genesis told, with all notes of its start, and makes the statement of each payment of the pair.
    ///
    /// The errors are those of [`mod_statement::make`], of which none but `NoMemory` comes: a genesis pays nobody.
    pub fn take_start(
        &mut self,
        alloc: Global,
        pair: &Pair,
        recorder: &Recorder,
        facts: &Facts,
        made: &mut Vec<Statement>,
    ) -> Result<(), StatementFault>
        ensures made { OnOk result (Follows pair.now 0
            (block_followed pair.now None facts.now recorder.now.noted.notes self.old)
            self.new made.old.items made.new.items) }
        ensures fault { IfErr result (IsFaultOf (statements_of pair.now 0
            (block_followed pair.now None facts.now recorder.now.noted.notes self.old).payments)) }
    {
        let passage = Passage {
            height: 0,
            validator: None,
        };
        let first = Places { fact: 0, note: 0 };
        let last = self.take_facts(alloc, pair, &passage, recorder, first, facts, made)?;
        self.take_rest(alloc, pair, recorder, last.note)
    }

    /// Takes what a block told, with the recorder's notes from one on, and makes the statement of each payment of the pair. The
    /// operator's validator is as it stood before the block.
    ///
    /// The errors are those of [`mod_statement::make`], at the first statement that has one.
    pub fn take_block(
        &mut self,
        alloc: Global,
        pair: &Pair,
        validator: Option<Validator>,
        recorder: &Recorder,
        note: usize,
        report: &BlockReport,
        made: &mut Vec<Statement>,
    ) -> Result<(), StatementFault>
        ensures made { OnOk result (Follows pair.now report.now.height
            (block_followed pair.now validator (facts_of report.now)
            (drop note recorder.now.noted.notes) self.old)
            self.new made.old.items made.new.items) }
        ensures fault { IfErr result (IsFaultOf (statements_of pair.now report.now.height
            (block_followed pair.now validator (facts_of report.now)
            (drop note recorder.now.noted.notes) self.old).payments)) }
    {
        let passage = Passage {
            height: report.height,
            validator,
        };
        let first = Places { fact: 0, note };
        let begun = self.take_facts(alloc, pair, &passage, recorder, first, &report.begun, made)?;
        let txs = report.txs.as_slice();
        let done = self.take_txs(alloc, pair, &passage, recorder, begun, txs, made)?;
        let last = self.take_facts(alloc, pair, &passage, recorder, done, &report.ended, made)?;
        self.take_rest(alloc, pair, recorder, last.note)
    }
}
