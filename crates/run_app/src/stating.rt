//! The command `statement`: the blocks of the input are applied as in a replay, and when all were, the reward statements of a
//! pair of a delegator and a validator are written, one for each time that it was paid.

ghost use Rattle.std.specs.Prelude.{◌≡◌, None, Option, Some, false, true, IfErr, IfOk, OnOk, drop};
ghost use Rattle.std.specs.List.{flat_map};
ghost use Rattle.chain_modules.specs.Kept.{StandsFor};
ghost use Rattle.line_json.specs.Block.{block_of};
ghost use Rattle.line_json.specs.Genesis.{genesis_of};
ghost use Rattle.line_statements.specs.Statements.{text_of_statement};
ghost use Rattle.mod_tracking.specs.Stating.{block_taken};
ghost use Rattle.rule_machine.specs.Promises.{facts_of};
ghost use Rattle.rule_modules.specs.Chain.{State};
ghost use Rattle.run_app.specs.Counts.{Moved, is_keep_fault, is_read_fault, is_write_fault};
ghost use Rattle.run_app.specs.Seen.{by_sink, by_source};
ghost use Rattle.run_app.specs.Statements.{IsUnled, IsUntold, LeadsTo, MayStopUnwritten, StatementEnds, StatesAt, StatesLast, Stating as Stated, TakesTold, pair_of, stated_block, stated_genesis, validator_of};

use crate::checking::not_bounded;
use crate::generating::status_of_sink;
use crate::line::{not_applied, not_read, not_started};
use crate::status::{InputFault, Status, status_of};
use crate::taking::{Reading, TakesLines, take_lines};
use base_bech32::Form;
use base_io::{Sink, Source};
use base_messages::{BlockReport, LineFault};
use base_roles::{Facts, Validator};
use base_types::Account;
use chain_whole::Chain;
use json::Scratch;
use line_json::{read_block, read_genesis};
use line_statements::push_line_of_statement;
use mod_recorder::Recorder;
use mod_statement::Statement;
use mod_tracking::{Pair, Tracker};
use run_generated::write_text;
use std::alloc::Global;

/// The pair of two accounts of users, or None where one is a module's: a module is never paid a reward, and operates no
/// validator.
fn pair_of(delegator: &Account, operator: &Account) -> Option<Pair>
    ensures { result ≡ pair_of delegator.now operator.now }
{
    match delegator {
        Account::User(delegator) => match operator {
            Account::User(operator) => Some(Pair {
                delegator: *delegator,
                operator: *operator,
            }),
            Account::Module(_) => None,
        },
        Account::Module(_) => None,
    }
}

/// What stands of a pair, and its statements so far. Where there is no pair nothing is ever stated.
#[derive(Drop)]
struct Following {
    pair: Option<Pair>,
    tracker: Tracker,
    made: Vec<Statement>,
}

impl Following {
    /// Takes what the genesis of the line of this number told, with what the recorder heard of it.
    fn take_start(
        &mut self,
        alloc: Global,
        number: u64,
        recorder: &Recorder,
        facts: &Facts,
    ) -> Result<(), Status>
        ensures told { OnOk result (TakesTold
            (block_taken self.old.pair None 0 facts.now recorder.now.noted.notes self.old.tracker)
            self.old.made.items self.new.tracker self.new.made.items) }
        ensures pair { self.new.pair ≡ self.old.pair }
        ensures stop { IfErr result (IsUntold number
            (block_taken self.old.pair None 0 facts.now recorder.now.noted.notes
            self.old.tracker)) }
    {
        let Following {
            pair,
            tracker,
            made,
        } = self;
        let Some(pair) = pair else {
            return Ok(());
        };
        match tracker.take_start(alloc, pair, recorder, facts, made) {
            Ok(()) => Ok(()),
            Err(fault) => Err(not_bounded(number, fault)),
        }
    }

    /// The operator's validator, as it stands.
    fn validator(&self, chain: &Chain<Recorder>) -> Option<Validator>
        ensures { (p : State) → StandsFor chain.now.kept p → result ≡ validator_of self.now.pair p }
    {
        match &self.pair {
            Some(pair) => chain.validator(&pair.operator).copied(),
            None => None,
        }
    }

    /// Takes what the block of the line of this number told, with what the recorder heard of it: the notes from one on. The
    /// validator is as it stood before.
    fn take_block(
        &mut self,
        alloc: Global,
        number: u64,
        validator: Option<Validator>,
        recorder: &Recorder,
        note: usize,
        report: &BlockReport,
    ) -> Result<(), Status>
        ensures told { OnOk result (TakesTold
            (block_taken self.old.pair validator report.now.height (facts_of report.now)
            (drop note recorder.now.noted.notes) self.old.tracker)
            self.old.made.items self.new.tracker self.new.made.items) }
        ensures pair { self.new.pair ≡ self.old.pair }
        ensures stop { IfErr result (IsUntold number
            (block_taken self.old.pair validator report.now.height (facts_of report.now)
            (drop note recorder.now.noted.notes) self.old.tracker)) }
    {
        let Following {
            pair,
            tracker,
            made,
        } = self;
        let Some(pair) = pair else {
            return Ok(());
        };
        match tracker.take_block(alloc, pair, validator, recorder, note, report, made) {
            Ok(()) => Ok(()),
            Err(fault) => Err(not_bounded(number, fault)),
        }
    }
}

/// What lines led to: a chain, to which a recorder listens, and what stands of the pair. The scratch is kept from line to
/// line for its memory alone.
#[derive(Drop)]
struct Stating {
    chain: Option<Chain<Recorder>>,
    following: Following,
    scratch: Scratch,
}

/// The genesis of the first line starts the chain.
fn begin(
    form: Form,
    alloc: Global,
    following: &mut Following,
    number: u64,
    line: &[u8],
) -> Result<Chain<Recorder>, Status>
    ensures led { StatesAt None following.old.tracker following.old.made.items None
        → IfOk result (λ chain. LeadsTo
        (stated_genesis number following.old.pair (genesis_of form line.now))
        (StatesAt (Some chain) following.new.tracker following.new.made.items)) }
    ensures pair { following.new.pair ≡ following.old.pair }
    ensures stop { StatesAt None following.old.tracker following.old.made.items None
        → IfErr result (IsUnled
        (stated_genesis number following.old.pair (genesis_of form line.now))) }
    ensures may { IfErr result MayStopUnwritten }
{
    let genesis = match read_genesis(form, alloc, &mut Scratch::new(alloc), line) {
        Ok(genesis) => genesis,
        Err(fault) => return Err(status_of(not_read(number, fault))),
    };
    let recorder = Recorder::new(alloc);
    let (chain, facts) = match Chain::with(alloc, &genesis, recorder) {
        Ok((chain, facts)) => (chain, facts),
        Err(fault) => return Err(status_of(not_started(number, fault))),
    };
    match following.take_start(alloc, number, chain.extra(), &facts) {
        Ok(()) => Ok(chain),
        Err(status) => Err(status),
    }
}

/// The block of a line after the genesis is applied.
#[tactic(auto, using(crate::proofs::ReadLemmas::height_is_low))]
fn advance(
    form: Form,
    alloc: Global,
    scratch: &mut Scratch,
    following: &mut Following,
    chain: &mut Chain<Recorder>,
    number: u64,
    line: &[u8],
) -> Result<(), Status>
    ensures led { (s : Stated)
        → StatesAt (Some chain.old) following.old.tracker following.old.made.items (Some s)
        → OnOk result (LeadsTo
        (stated_block number following.old.pair s (block_of form line.now))
        (StatesAt (Some chain.new) following.new.tracker following.new.made.items)) }
    ensures pair { following.new.pair ≡ following.old.pair }
    ensures stop { (s : Stated)
        → StatesAt (Some chain.old) following.old.tracker following.old.made.items (Some s)
        → IfErr result (IsUnled
        (stated_block number following.old.pair s (block_of form line.now))) }
    ensures may { IfErr result MayStopUnwritten }
{
    let block = match read_block(form, alloc, scratch, line) {
        Ok(block) => block,
        Err(fault) => return Err(status_of(not_read(number, fault))),
    };
    // nobody asks what changed since, so tables need not remember it
    chain.settle();
    let validator = following.validator(chain);
    let note = chain.extra().len();
    let report = match chain.apply_block(alloc, &block) {
        Ok(report) => report,
        Err(fault) => return Err(status_of(not_applied(number, fault))),
    };
    let recorder = chain.extra();
    following.take_block(alloc, number, validator, recorder, note, &report)
}

impl TakesLines for Stating {
    ghost use Rattle.std.specs.Prelude.{◌≡◌, Option, Result, Some};
    ghost use Rattle.run_app.specs.Statements.{IsUnled, LeadsTo, StatesAt, Stating as Stated, stated_at};

    ghost takes = { λ form n line x y. ((s : Option Stated)
        → StatesAt x.0.chain x.0.following.tracker x.0.following.made.items s
        → LeadsTo (stated_at form n x.0.following.pair s line)
        (StatesAt y.0.chain y.0.following.tracker y.0.following.made.items))
        × (y.0.following.pair ≡ x.0.following.pair) × (y.1 ≡ x.1) };

    ghost stops = { λ form status n line x y. ((s : Option Stated)
        → StatesAt x.0.chain x.0.following.tracker x.0.following.made.items s
        → IsUnled (stated_at form n x.0.following.pair s line) status)
        × (y.1 ≡ x.1) };

    fn take<K: Sink>(
        &mut self,
        form: Form,
        alloc: Global,
        _sink: &mut K,
        number: u64,
        line: &[u8],
    ) -> Result<(), Status> {
        match &mut self.chain {
            Some(chain) => advance(
                form,
                alloc,
                &mut self.scratch,
                &mut self.following,
                chain,
                number,
                line,
            ),
            None => match begin(form, alloc, &mut self.following, number, line) {
                Ok(chain) => {
                    self.chain = Some(chain);
                    Ok(())
                }
                Err(status) => Err(status),
            },
        }
    }
}

/// The lines of statements. The only error is `NoMemory`.
fn text_of(form: Form, alloc: Global, made: &[Statement]) -> Result<Vec<u8>, LineFault>
    ensures text { IfOk result (λ text. text.items ≡ flat_map (text_of_statement form) made.now) }
    ensures fault { IfErr result (λ fault. fault ≡ LineFault.NoMemory) }
{
    let mut text = Vec::new(alloc);
    for statement in made {
        push_line_of_statement(form, alloc, &mut text, statement)?;
    }
    Ok(text)
}

/// Writes the statements of an input whose lines led here: there is a genesis among them, and they paid the pair.
fn write_statements<K: Sink>(form: Form, alloc: Global, sink: &mut K, stating: &Stating) -> Status
    ensures ends { (s : Option Stated) → StatesAt stating.now.chain
        stating.now.following.tracker stating.now.following.made.items s
        → StatesLast form s (K.written sink.old) (K.written sink.new) result }
    ensures busy { result ≡ Status.Usage → ⊥ }
    ensures read { is_read_fault result ≡ false }
    ensures keep { is_keep_fault result ≡ false }
    ensures writes { Moved (is_write_fault result) (K.faults sink.old) (K.faults sink.new)
        × (result ≡ Status.Done → K.clean sink.new ≡ true) }
{
    if stating.chain.is_none() {
        return Status::BadInput(1, InputFault::Missing);
    }
    if stating.following.made.is_empty() {
        return Status::NotFound;
    }
    match text_of(form, alloc, stating.following.made.as_slice()) {
        Ok(text) => status_of_sink(write_text(sink, &text)),
        Err(_) => Status::NoMemory,
    }
}

/// The command `statement`. Nothing is written unless the source was read to its end, each of its lines leads on, and the pair
/// was paid; then the sink is flushed.
pub(crate) fn state_all<S: Source, K: Sink>(
    form: Form,
    alloc: Global,
    source: &mut S,
    sink: &mut K,
    delegator: &Account,
    operator: &Account,
) -> Status
    ensures ends { StatementEnds form delegator.now operator.now
        (by_source S.left source.old source.new) (by_sink K.written sink.old sink.new) result }
    ensures busy { result ≡ Status.Usage → ⊥ }
    ensures reads { Moved (is_read_fault result) (S.faults source.old) (S.faults source.new) }
    ensures writes { Moved (is_write_fault result) (K.faults sink.old) (K.faults sink.new)
        × (result ≡ Status.Done → K.clean sink.new ≡ true) }
    ensures keep { is_keep_fault result ≡ false }
{
    let tracker = Tracker::new(alloc);
    let made = Vec::new(alloc);
    let mut stating = Stating {
        chain: None,
        following: Following {
            pair: pair_of(delegator, operator),
            tracker,
            made,
        },
        scratch: Scratch::new(alloc),
    };
    let mut reading = Reading {
        number: 1,
        line: Vec::new(alloc),
    };
    match take_lines(form, alloc, source, &mut stating, sink, &mut reading) {
        Ok(()) => write_statements(form, alloc, sink, &stating),
        Err(status) => status,
    }
}
