//! The commands: `run` reads the words of one, carries it out over a source, a sink and a keeper, and tells by a status
//! how it ended.

ghost use Rattle.std.specs.Prelude.{◌≡◌, ◌≤◌, ◌<◌, ◌^◌, ◌+◌, ◌⊎◌, [], List, ℕ, Option, None, length, map, string_bytes, true, false, MatchResult};
ghost use Rattle.base_bech32.specs.declared.form.Form.{Form};
ghost use Rattle.base_io.specs.Outside.{Rose};
ghost use Rattle.run_app.specs.Alone.{EachLineAlone};
ghost use Rattle.run_app.specs.Counts.{IsOfWords, Moved, ReadMoved, every_of, is_keep_fault, is_write_fault};
ghost use Rattle.run_app.specs.Kept.{Began, Keeping, LeftIn};
ghost use Rattle.run_app.specs.Machine.{Standing};
ghost use Rattle.run_words.specs.Words.{command_of};
ghost use Rattle.run_app.specs.Commands.{CommandEnds, CommandStops, CommandUnkept, IsUntroubledBy};
ghost use Rattle.run_app.specs.Modes.{HasFewBlocks, ModeEnds, ReplayEnds};
ghost use Rattle.store_history.specs.Held.{TakesDistinct};
ghost use Rattle.run_app.specs.Unkept.{ModeUnkept};
ghost use Rattle.run_app.specs.Outcome.{HasBegun, RunEnds, most_bytes};
ghost use Rattle.run_app.specs.Parts.{EndsSo, Fed, HasStopped, IsPaused, Pauses, Stands, ending_of, is_keep, is_read, is_write};
ghost use Rattle.run_app.specs.Told.{Told};
ghost use Rattle.rule_machine.specs.Promises.{AllTransactionsEnd, ClaimsAreBracketed, ShortfallsAreBounded};
ghost use Rattle.law_soundness.specs.Going.{RunsGoSoundly};
ghost use Rattle.law_lines.specs.Runs.{RunsAreWritten};
ghost use Rattle.law_records.specs.Referred.{RecordsGoWithReferences};
ghost use Rattle.law_runs.specs.Moments.{MomentsOfRunsDoNotMatter};
ghost use Rattle.law_runs.specs.Paying.{RunsPayFairly};
ghost use Rattle.run_trial.specs.Generated.{TrialIsOfItsLines};
ghost use Rattle.run_app.specs.Rejoined.{RunsGoOn};
ghost use Rattle.run_app.specs.RightStatements.{StatementsAreRight};
ghost use Rattle.run_app.specs.Laws.{AnswersAreReplays, LinesAreReplayed};
ghost use Rattle.run_app.specs.Seen.{by_keeper, by_sink, by_source};

use crate::checking::check_all;
use crate::feeding::feed;
use crate::finishing::finish;
use crate::generating::{write_generated, write_trial};
use crate::line::{LONGEST, take_line};
use crate::performing::perform;
use crate::progress::{Ending, Progress};
use crate::releasing::release;
use crate::resuming::{answer, resume};
use crate::stating::state_all;
use crate::status::{LimitKind, LineStop, Status, status_of, status_of_words};
use crate::tallying::tally;
use base_bech32::Form;
use base_io::{KeepFault, Keeper, Sink, Source, read_at_most};
use chain_whole::Chain;
use json::Scratch;
use law_lines::laws::runs_are_written;
use law_records::histories::records_go_with_references;
use law_runs::runs::{
    claims_are_bracketed, moments_of_runs_do_not_matter, runs_pay_fairly, shortfalls_are_bounded,
};
use law_soundness::runs::runs_go_soundly;
use rule_machine::all_transactions_end;
use run_trial::trial_is_of_its_lines;
use run_words::{Mode, read_words};
use std::alloc::Global;
use store_commits::has_rows;

/// How many bytes are asked for at once.
pub(crate) const PIECE: usize = 4096;

/// How many bytes an input may have.
pub(crate) const MOST: u64 = 1 << 40;

/// How many bytes may be taken at once, where so many were taken.
pub(crate) fn room(taken: u64) -> usize
    requires { taken < most_bytes }
    ensures some { 0 < result }
    ensures within { result ≤ 4096 }
    ensures fits { taken + result ≤ most_bytes }
{
    if MOST - taken < PIECE as u64 {
        (MOST - taken) as usize
    } else {
        PIECE
    }
}

/// Where a line stopped a run: it has no answer, and those before it may wait; or what waited is lost, and the run ends by
/// this status.
fn ending_of(stop: LineStop) -> Result<Ending, Status>
    ensures { result ≡ ending_of stop }
{
    match stop {
        LineStop::BadInput(n, fault) => Ok(Ending::Before(Status::BadInput(n, fault))),
        LineStop::Long(n) => Ok(Ending::Before(Status::Limit(n, LimitKind::Line))),
        LineStop::Ratio(n, over) => Ok(Ending::Before(Status::Limit(n, LimitKind::Ratio(over)))),
        LineStop::Write => Err(Status::WriteFault),
        LineStop::Keep => Err(Status::KeepFault),
        LineStop::NoMemory => Err(Status::NoMemory),
    }
}

/// The input was read to its end: a last line that came without its end is taken, where there is one.
fn last_line<K: Sink, D: Keeper>(
    form: Form,
    alloc: Global,
    every: u64,
    scratch: &mut Scratch,
    sink: &mut K,
    keeper: &mut D,
    progress: &mut Progress,
) -> Result<Ending, Status>
    requires number { progress.old.number < 2 ^ 63 }
    requires every { 0 < every }
    requires fed { (b : Began) × (taken : List ℕ) × (end : Standing) × (from : Option (List ℕ))
        × Fed form every b taken end progress.old.number
        progress.old.line.items progress.old.chain progress.old.waiting progress.old.held.items
        from (K.written sink.old)
        (D.rows keeper.old) (D.is_honest keeper.old) (D.may_leave keeper.old) }
    ensures ends { (b : Began) → (taken : List ℕ) → (end : Standing) → (from : Option (List ℕ))
        → length taken ≤ most_bytes
        → Fed form every b taken end progress.old.number
        progress.old.line.items progress.old.chain progress.old.waiting progress.old.held.items
        from (K.written sink.old)
        (D.rows keeper.old) (D.is_honest keeper.old) (D.may_leave keeper.old)
        → MatchResult result (IsPaused form taken []
        (λ lines last. Stands form every b lines last progress.new.number progress.new.chain
        progress.new.waiting progress.new.held.items from (K.written sink.new)
        (D.rows keeper.new) (D.is_honest keeper.new) (D.may_leave keeper.new)))
        (EndsSo form every b.first
        (LeftIn b (D.rows keeper.new) (D.is_honest keeper.new) (D.may_leave keeper.new))
        taken [] from (K.written sink.new)) }
    ensures stopped { HasStopped result }
    ensures read { is_read result ≡ false }
    ensures writes { Moved (is_write result) (K.faults sink.old) (K.faults sink.new) }
    ensures keeps { Moved (is_keep result) (D.faults keeper.old) (D.faults keeper.new) }
    ensures honest { D.is_honest keeper.new → D.is_honest keeper.old }
{
    if progress.line.is_empty() {
        return Ok(Ending::End);
    }
    match take_line(form, alloc, every, scratch, sink, keeper, progress) {
        Ok(()) => Ok(Ending::End),
        Err(stop) => ending_of(stop),
    }
}

/// As many bytes were taken as an input may have: what waits is released, and then a byte more is asked for.
fn at_limit<S: Source, K: Sink, D: Keeper>(
    form: Form,
    alloc: Global,
    every: u64,
    scratch: &mut Scratch,
    source: &mut S,
    sink: &mut K,
    keeper: &mut D,
    progress: &mut Progress,
) -> Result<Ending, Status>
    requires number { progress.old.number < 2 ^ 63 }
    requires every { 0 < every }
    requires fed { (b : Began) × (taken : List ℕ) × (end : Standing) × (from : Option (List ℕ))
        × Fed form every b taken end progress.old.number
        progress.old.line.items progress.old.chain progress.old.waiting progress.old.held.items
        from (K.written sink.old)
        (D.rows keeper.old) (D.is_honest keeper.old) (D.may_leave keeper.old) }
    ensures ends { (b : Began) → (taken : List ℕ) → (end : Standing) → (from : Option (List ℕ))
        → (first : Option (List ℕ)) → length taken ≡ most_bytes
        → Told first taken (S.left source.old)
        → Fed form every b taken end progress.old.number
        progress.old.line.items progress.old.chain progress.old.waiting progress.old.held.items
        from (K.written sink.old)
        (D.rows keeper.old) (D.is_honest keeper.old) (D.may_leave keeper.old)
        → MatchResult result (Pauses form first (S.left source.new)
        (λ lines last. Stands form every b lines last progress.new.number progress.new.chain
        progress.new.waiting progress.new.held.items from (K.written sink.new)
        (D.rows keeper.new) (D.is_honest keeper.new) (D.may_leave keeper.new)))
        (RunEnds form every b.first
        (LeftIn b (D.rows keeper.new) (D.is_honest keeper.new) (D.may_leave keeper.new))
        first (S.left source.new) from (K.written sink.new)) }
    ensures stopped { HasStopped result }
    ensures reads { Moved (is_read result) (S.faults source.old) (S.faults source.new) }
    ensures writes { Moved (is_write result) (K.faults sink.old) (K.faults sink.new) }
    ensures keeps { Moved (is_keep result) (D.faults keeper.old) (D.faults keeper.new) }
    ensures honest { D.is_honest keeper.new → D.is_honest keeper.old }
{
    if let Err(stop) = release(alloc, sink, keeper, progress) {
        return Err(status_of(stop));
    }
    let mut piece = [0u8; 1];
    match read_at_most(source, &mut piece, 1) {
        Err(_) => Err(Status::ReadFault),
        Ok(0) => last_line(form, alloc, every, scratch, sink, keeper, progress),
        Ok(_) => {
            if piece[0] != b'\n' && progress.line.len() == LONGEST {
                Err(Status::Limit(progress.number, LimitKind::Line))
            } else {
                Err(Status::Limit(progress.number, LimitKind::Input))
            }
        }
    }
}

/// Takes the source to its end, from where a run begins. What was led on stays the caller's, so that no way out of
/// the loop has a chain to let go of.
///
/// The error is the status by which the run ends at once: where lines are lost that waited, or where none wait.
fn take_all<S: Source, K: Sink, D: Keeper>(
    form: Form,
    alloc: Global,
    every: u64,
    scratch: &mut Scratch,
    source: &mut S,
    sink: &mut K,
    keeper: &mut D,
    progress: &mut Progress,
) -> Result<Ending, Status>
    requires number { progress.old.number ≡ 1 }
    requires line { progress.old.line.items ≡ [] }
    requires none { progress.old.waiting ≡ 0 }
    requires empty { progress.old.held.items ≡ [] }
    requires every { 0 < every }
    requires kept { (b : Began) × Keeping b progress.old.chain
        (D.rows keeper.old) (D.is_honest keeper.old) (D.may_leave keeper.old) b.first b.first }
    ensures ends { (b : Began) → Keeping b progress.old.chain
        (D.rows keeper.old) (D.is_honest keeper.old) (D.may_leave keeper.old) b.first b.first
        → MatchResult result (Pauses form (S.left source.old) (S.left source.new)
        (λ lines last. Stands form every b lines last progress.new.number progress.new.chain
        progress.new.waiting progress.new.held.items (K.written sink.old) (K.written sink.new)
        (D.rows keeper.new) (D.is_honest keeper.new) (D.may_leave keeper.new)))
        (RunEnds form every b.first
        (LeftIn b (D.rows keeper.new) (D.is_honest keeper.new) (D.may_leave keeper.new))
        (S.left source.old) (S.left source.new) (K.written sink.old) (K.written sink.new)) }
    ensures stopped { HasStopped result }
    ensures reads { Moved (is_read result) (S.faults source.old) (S.faults source.new) }
    ensures writes { Moved (is_write result) (K.faults sink.old) (K.faults sink.new) }
    ensures keeps { Moved (is_keep result) (D.faults keeper.old) (D.faults keeper.new) }
    ensures honest { D.is_honest keeper.new → D.is_honest keeper.old }
{
    let mut piece = [0u8; PIECE];
    let mut taken = 0u64;
    while taken < MOST {
        match read_at_most(source, &mut piece, room(taken)) {
            Err(_) => return Ok(Ending::Before(Status::ReadFault)),
            Ok(0) => return last_line(form, alloc, every, scratch, sink, keeper, progress),
            Ok(n) => {
                let bytes = &piece[..n];
                if let Err(stop) = feed(
                    form, alloc, every, scratch, sink, keeper, progress, bytes,
                ) {
                    return ending_of(stop);
                }
                taken += n as u64;
            }
        }
    }
    at_limit(form, alloc, every, scratch, source, sink, keeper, progress)
}

/// Runs the machine over all lines of the source, from where this chain stands: what they lead to is committed at each Nth block,
/// and where no more lines are taken, before any status is told.
pub(crate) fn drive<S: Source, K: Sink, D: Keeper>(
    form: Form,
    alloc: Global,
    every: u64,
    source: &mut S,
    sink: &mut K,
    keeper: &mut D,
    chain: Option<Chain>,
) -> Status
    requires every { 0 < every }
    requires kept { (b : Began) × Keeping b chain
        (D.rows keeper.old) (D.is_honest keeper.old) (D.may_leave keeper.old) b.first b.first }
    ensures ends { (b : Began) → Keeping b chain
        (D.rows keeper.old) (D.is_honest keeper.old) (D.may_leave keeper.old) b.first b.first
        → RunEnds form every b.first
        (LeftIn b (D.rows keeper.new) (D.is_honest keeper.new) (D.may_leave keeper.new))
        (S.left source.old) (S.left source.new) (K.written sink.old) (K.written sink.new) result }
    ensures begun { HasBegun result }
    ensures reads { ReadMoved every result (S.faults source.old) (S.faults source.new) }
    ensures writes { Moved (is_write_fault result) (K.faults sink.old) (K.faults sink.new)
        × (result ≡ Status.Done → K.clean sink.new ≡ true) }
    ensures keeps { Moved (is_keep_fault result) (D.faults keeper.old) (D.faults keeper.new) }
    ensures honest { D.is_honest keeper.new → D.is_honest keeper.old }
{
    let mut progress = Progress {
        number: 1,
        line: Vec::new(alloc),
        chain,
        waiting: 0,
        held: Vec::new(alloc),
    };
    let mut scratch = Scratch::new(alloc);
    let ending = match take_all(
        form,
        alloc,
        every,
        &mut scratch,
        source,
        sink,
        keeper,
        &mut progress,
    ) {
        Ok(ending) => ending,
        Err(status) => return status,
    };
    if let Err(stop) = release(alloc, sink, keeper, &mut progress) {
        return status_of(stop);
    }
    match ending {
        Ending::Before(status) => status,
        Ending::End => finish(form, alloc, sink, &progress.chain),
    }
}

/// The command `replay`: a run that begins on no rows.
fn replay<S: Source, K: Sink, D: Keeper>(
    form: Form,
    alloc: Global,
    every: u64,
    source: &mut S,
    sink: &mut K,
    keeper: &mut D,
) -> Status
    requires every { 0 < every }
    ensures ends { ReplayEnds form every (by_source S.left source.old source.new)
        (by_sink K.written sink.old sink.new)
        (by_keeper D.rows D.is_honest D.may_leave keeper.old keeper.new) result }
    ensures busy { result ≡ Status.Usage → ⊥ }
    // A keeper that keeps nothing is never refused.
    ensures unkept { D.keeps keeper.old ≡ false → result ≡ Status.WrongStore false → ⊥ }
    ensures reads { ReadMoved every result (S.faults source.old) (S.faults source.new) }
    ensures writes { Moved (is_write_fault result) (K.faults sink.old) (K.faults sink.new)
        × (result ≡ Status.Done → K.clean sink.new ≡ true) }
    ensures keeps { Moved (is_keep_fault result) (D.faults keeper.old) (D.faults keeper.new) }
    ensures honest { D.is_honest keeper.new → D.is_honest keeper.old }
{
    match has_rows(keeper) {
        Ok(false) => drive(form, alloc, every, source, sink, keeper, None),
        Ok(true) => Status::WrongStore(false),
        Err(KeepFault::Failed) => Status::KeepFault,
        Err(KeepFault::NoMemory) => Status::NoMemory,
    }
}

/// Carries out a command, as its own words say. Of those that commit it is at each Nth block.
pub(crate) fn carry_out<S: Source, K: Sink, D: Keeper>(
    form: Form,
    alloc: Global,
    every: u64,
    mode: Mode,
    source: &mut S,
    sink: &mut K,
    keeper: &mut D,
) -> Status
    requires every { 0 < every }
    requires few { HasFewBlocks mode }
    ensures ends { ModeEnds form every mode (by_source S.left source.old source.new)
        (by_sink K.written sink.old sink.new)
        (by_keeper D.rows D.is_honest D.may_leave keeper.old keeper.new) result }
    ensures busy { result ≡ Status.Usage → ⊥ }
    ensures unkept { D.keeps keeper.old ≡ false → ModeUnkept mode
        (by_source S.left source.old source.new) (by_sink K.written sink.old sink.new) result }
    ensures reads { ReadMoved every result (S.faults source.old) (S.faults source.new) }
    ensures writes { Moved (is_write_fault result) (K.faults sink.old) (K.faults sink.new)
        × (result ≡ Status.Done → K.clean sink.new ≡ true) }
    ensures keeps { Moved (is_keep_fault result) (D.faults keeper.old) (D.faults keeper.new) }
    ensures honest { D.is_honest keeper.new → D.is_honest keeper.old }
{
    match mode {
        Mode::Replay => replay(form, alloc, every, source, sink, keeper),
        Mode::Resume => resume(form, alloc, every, source, sink, keeper),
        Mode::Query(what) => answer(form, alloc, sink, keeper, &what),
        Mode::Tally => tally(form, alloc, source, sink, keeper),
        Mode::Check => check_all(form, alloc, source, sink),
        Mode::Statement {
            delegator,
            operator,
        } => state_all(form, alloc, source, sink, &delegator, &operator),
        Mode::Gen { seed, count } => write_generated(form, alloc, sink, seed, count),
        Mode::Trial { seed, count } => write_trial(alloc, sink, seed, count),
    }
}

/// Runs the command of these words: `replay`, `resume`, `query` with a kind and perhaps an address, `tally`, `check`,
/// `statement DELEGATOR OPERATOR`, `gen SEED COUNT` or `trial SEED COUNT`; `replay` and `resume` may stand behind the word
/// `keep` or the words `every N`, `query` behind the words `past HEIGHT`, and each behind the word `bech32`, which stands before all others. Addresses
/// are read and written as forty hexadecimal digits, and behind `bech32` as their spellings of BIP 173 alone, modules being
/// written by their names. Nothing else depends on that word: what is kept has no texts of addresses, so either form goes on
/// from a store.
///
/// Of `replay` the first line of the source is a genesis, each further line a block. It begins on a keeper without rows. What a
/// line leads to is committed, and then its text is written; at the end of the input the report is written, and the sink
/// flushed. A keeper that keeps nothing has no rows, and there a commit does nothing; all else is as over any other. `resume`
/// goes on from the keeper's rows, so each of its lines is a block; its lines are numbered from 1. It writes and commits what
/// the machine does from any sound state that has these rows. Where they are in the first format of rows, they are brought to
/// the second by a commit before any line; `query` and `tally` read both formats. `query` writes the lines of that state's
/// report that are of its kind and belong to its address, and commits nothing; it takes nothing from the source. `tally` counts
/// ballots, of which each line of the source is one, by the stake of that state, and writes the line of the totals once the
/// source was read to its end; it commits nothing. `check` reads reward statements, of which each line of the source is one,
/// and writes for each whether it is right; it does not call the keeper. `statement` applies the lines of a replay, and once
/// the source was read to its end writes the reward statements of the pair, a line for each time that it was paid; it does not
/// call the keeper. `gen` writes the generated input, and `trial` the summary of it, which a chain takes block by block;
/// neither takes anything from the source, or calls the keeper.
///
/// Behind `every N` it commits at each Nth block, once a mebibyte of text waits, and where no more lines are taken; what was
/// answered since the last commit is written after it. The genesis is committed and written alone. Without these words N is 1.
///
/// Behind `keep`, each commit also keeps what its rows replaced, in rows of the keeper whose keys begin with the byte 0x60
/// or 0x61; what is said of rows is then said of the others, which are visible. A history that stands there goes on, and else
/// one begins; a commit that brings rows to the second format begins it anew. Behind `past HEIGHT` a question is answered from
/// the rows that were visible after the last commit of at most this height. Without these words such rows are those of no
/// sound state.
///
/// What each status leaves: at `Done` the whole output, flushed; at `Usage` nothing was read or written; at `BadInput` and
/// `Limit` exactly the texts of the lines before the named one, and of a trial, a tally and `statement` nothing; at `ReadFault`
/// those of all lines that were taken with their end, and of a tally and `statement` nothing; at `WriteFault` all texts before
/// those being written, of at most N lines, and a part of these, or the whole output where the flush failed; at `KeepFault`
/// those of the lines before those whose commit failed, and nothing where the rows were not loaded or not brought to the
/// second format; at
/// `NoMemory` a front of the whole output; at `WrongStore`, `BadStore`, `NotFound` and `NoPast` nothing. What was taken and
/// written is what the source and the sink tell, where they tell it. The keeper's rows are those of the last committed line, as
/// they were where there is none (in the second format, once they were brought to it): of the lines whose texts were written,
/// and at `WriteFault` and `NoMemory` of at most N lines more. A stop at a fault of the keeper may also leave the rows that were
/// to be committed. `ReadFault`, `WriteFault` and `KeepFault` come only where the count of the source's, the sink's, the
/// keeper's faults rose in this call, and that count rises at no other status; but where N is above 1 and lines wait at a fault
/// of the source, which are then not kept or not written, the run ends by that later fault.
///
/// Of `check` the member 130 is also at fault where the entries of a statement are no span, and so of `statement` where those
/// of a payment are none; of both `Limit` with `Bound` comes exactly where an operation of a statement's bounds is over.
///
/// `WrongStore(false)` comes exactly where `replay` loaded rows, and `WrongStore(true)` where `resume`, `query` or
/// `tally` loaded none, as over a keeper that keeps nothing; `BadStore` exactly where these loaded rows that are those of
/// no sound state in either format; `NotFound` exactly where a query has an address of which the report has no line, or
/// `statement` a pair that was never paid.
/// Behind `keep`, `BadStore` also comes, before all of these, exactly where a history in the rows is not of its form. Behind
/// `past HEIGHT` the order is `WrongStore(true)`; `BadStore` where a history is not of its form or no head stands; `NoPast`
/// exactly where the height is below the base of the history or above the last height, with these; and `BadStore` where the
/// past rows are those of no sound state.
pub fn run<S: Source, K: Sink, D: Keeper>(
    alloc: Global,
    words: &[String],
    source: &mut S,
    sink: &mut K,
    keeper: &mut D,
) -> Status
    // Its keeper takes every list of changes of distinct keys.
    requires takes { TakesDistinct (D.takes keeper.old) }
    // What was written and kept is what the words ask for.
    ensures ends { CommandEnds (command_of (map string_bytes words.now))
        (by_source S.left source.old source.new) (by_sink K.written sink.old sink.new)
        (by_keeper D.rows D.is_honest D.may_leave keeper.old keeper.new) result }
    // Over a keeper that keeps nothing a replay begins, and what goes on from rows finds none.
    ensures unkept { D.keeps keeper.old ≡ false
        → CommandUnkept (command_of (map string_bytes words.now))
        (by_source S.left source.old source.new) (by_sink K.written sink.old sink.new) result }
    // Whatever the status, a stop leaves the rows after a front of the lines that holds each line of which a byte was
    // written, and at most N lines more, where N is the number of `every`, and else 1.
    ensures stops { CommandStops (command_of (map string_bytes words.now)) (S.left source.old)
        (K.written sink.old) (K.written sink.new) (D.rows keeper.old)
        (D.is_honest keeper.new) (D.may_leave keeper.old) (D.may_leave keeper.new) }
    // Usage is of words that are no command, and every other status but want of memory of words that are one.
    ensures usage { IsOfWords (command_of (map string_bytes words.now)) result }
    // A fault has its cause, and there is none without it; at Done all was handed on. Behind `every` a later fault may be told in
    // place of the source's.
    ensures reads { ReadMoved (every_of (command_of (map string_bytes words.now))) result
        (S.faults source.old) (S.faults source.new) }
    ensures writes { Moved (is_write_fault result) (K.faults sink.old) (K.faults sink.new)
        × (result ≡ Status.Done → K.clean sink.new ≡ true) }
    ensures keeps { Moved (is_keep_fault result) (D.faults keeper.old) (D.faults keeper.new) }
    // Nothing else keeps the run from its end.
    ensures complete { IsUntroubledBy (command_of (map string_bytes words.now)) (S.left source.old)
        (D.keeps keeper.old) (D.rows keeper.old) (D.is_honest keeper.new)
        (D.faults keeper.old) (D.faults keeper.new)
        → ¬ Rose (S.faults source.old) (S.faults source.new)
        → ¬ Rose (K.faults sink.old) (K.faults sink.new)
        → (result ≡ Status.Done) ⊎ (result ≡ Status.NoMemory) }
    // Without `every`, where N is 1, what is said of at most N lines is said of one.
    ensures alone { EachLineAlone }
    // In each form of addresses: lines that are answered are a replay, and what was written for them is what it reports.
    ensures replayed { (form : Form) → LinesAreReplayed form }
    ensures whole { (form : Form) → AnswersAreReplays form }
    // A stopped and a resumed run print what one run prints; and wherever lines lead, a run may go on.
    ensures continued { (form : Form) → RunsGoOn form }
    // What holds of each replay.
    ensures runs { RunsGoSoundly }
    ensures transactions { AllTransactionsEnd }
    ensures rewards { ClaimsAreBracketed }
    ensures payments { RunsPayFairly }
    ensures statements { StatementsAreRight }
    ensures moments { MomentsOfRunsDoNotMatter }
    ensures shortfalls { ShortfallsAreBounded }
    ensures lines { RunsAreWritten }
    ensures generated { TrialIsOfItsLines }
    ensures records { RecordsGoWithReferences }
{
    runs_go_soundly();
    all_transactions_end();
    claims_are_bracketed();
    runs_pay_fairly();
    moments_of_runs_do_not_matter();
    shortfalls_are_bounded();
    runs_are_written();
    trial_is_of_its_lines();
    records_go_with_references();
    match read_words(alloc, words) {
        Ok(command) => perform(alloc, command, source, sink, keeper),
        Err(fault) => status_of_words(fault),
    }
}
