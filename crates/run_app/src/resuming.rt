//! The commands that go on from what a keeper has.

ghost use Rattle.std.specs.Prelude.{◌≡◌, ◌<◌, [], List, ℕ, Option, None, Ok, option_map, true, false, IfOk};
ghost use Rattle.rule_machine.specs.Report.{report_of};
ghost use Rattle.chain_modules.specs.Kept.{StandsFor};
ghost use Rattle.line_report.specs.Asking.{answered_by};
ghost use Rattle.rule_modules.specs.Chain.{State};
ghost use Rattle.run_app.specs.Counts.{Moved, ReadMoved, is_keep_fault, is_read_fault, is_write_fault};
ghost use Rattle.run_app.specs.Resumes.{Answers, QueryEnds, ResumeEnds, status_of_restore};
ghost use Rattle.run_app.specs.Unkept.{FindsNoRows, IsOfNoRows};
ghost use Rattle.run_app.specs.Writes.{Adds};
ghost use Rattle.run_app.specs.Seen.{by_keeper, by_sink, by_source};

use crate::answer::answer_text;
use crate::generating::status_of_sink;
use crate::running::drive;
use crate::status::{EndStop, Status};
use base_bech32::Form;
use base_io::{KeepFault, Keeper, Sink, Source};
use chain_whole::Chain;
use line_report::Query;
use run_generated::write_text;
use std::alloc::Global;
use store_commits::commit_migration;
use store_resuming::{RestoreFault, restore, restore_with_changes};

/// How a run ends where no chain comes of its keeper.
pub(crate) fn status_of_restore(fault: RestoreFault) -> Status
    ensures { result ≡ status_of_restore fault }
{
    match fault {
        RestoreFault::Failed => Status::KeepFault,
        RestoreFault::NoMemory => Status::NoMemory,
        RestoreFault::Empty => Status::WrongStore(true),
        RestoreFault::Unsound => Status::BadStore,
    }
}

/// The command `resume`: each line is a block behind what the keeper has. Rows of the first format
/// are brought to the second before anything is taken.
pub(crate) fn resume<S: Source, K: Sink, D: Keeper>(
    form: Form,
    alloc: Global,
    every: u64,
    source: &mut S,
    sink: &mut K,
    keeper: &mut D,
) -> Status
    requires every { 0 < every }
    ensures ends { ResumeEnds form every (by_source S.left source.old source.new)
        (by_sink K.written sink.old sink.new)
        (by_keeper D.rows D.is_honest D.may_leave keeper.old keeper.new) result }
    ensures unkept { D.keeps keeper.old ≡ false → FindsNoRows
        (by_source S.left source.old source.new) (by_sink K.written sink.old sink.new) result }
    ensures busy { result ≡ Status.Usage → ⊥ }
    ensures reads { ReadMoved every result (S.faults source.old) (S.faults source.new) }
    ensures writes { Moved (is_write_fault result) (K.faults sink.old) (K.faults sink.new)
        × (result ≡ Status.Done → K.clean sink.new ≡ true) }
    ensures keeps { Moved (is_keep_fault result) (D.faults keeper.old) (D.faults keeper.new) }
    ensures honest { D.is_honest keeper.new → D.is_honest keeper.old }
{
    let restored = match restore_with_changes(alloc, keeper) {
        Ok(restored) => restored,
        Err(fault) => return status_of_restore(fault),
    };
    match commit_migration(keeper, &restored.changes) {
        Ok(()) => drive(
            form,
            alloc,
            every,
            source,
            sink,
            keeper,
            Some(restored.chain),
        ),
        Err(KeepFault::Failed) => Status::KeepFault,
        Err(KeepFault::NoMemory) => Status::NoMemory,
    }
}

/// Writes the report's lines that answer a question, as they were made: there are none, where no line belongs to its address.
fn write_told<K: Sink>(sink: &mut K, told: Result<Option<Vec<u8>>, EndStop>) -> Status
    ensures ends { (due : Option (List ℕ))
        → IfOk told (λ answer. option_map (λ text. text.items) answer ≡ due)
        → Answers due (K.written sink.old) (K.written sink.new) result }
    // That there are none takes no memory to tell.
    ensures none { told ≡ Ok None → result ≡ Status.NotFound }
    ensures busy { result ≡ Status.Usage → ⊥ }
    ensures read { is_read_fault result ≡ false }
    ensures keep { is_keep_fault result ≡ false }
    ensures writes { Moved (is_write_fault result) (K.faults sink.old) (K.faults sink.new)
        × (result ≡ Status.Done → K.clean sink.new ≡ true) }
{
    match told {
        Ok(Some(text)) => status_of_sink(write_text(sink, &text)),
        Ok(None) => Status::NotFound,
        Err(_) => Status::NoMemory,
    }
}

/// Writes the report's lines of a chain that answer the question.
pub(crate) fn write_answer<K: Sink>(
    form: Form,
    alloc: Global,
    sink: &mut K,
    chain: &Chain,
    what: &Query,
) -> Status
    ensures ends { (p : State) → StandsFor chain.now.kept p
        → Answers (answered_by form (report_of p) what.now)
        (K.written sink.old) (K.written sink.new) result }
    ensures busy { result ≡ Status.Usage → ⊥ }
    ensures read { is_read_fault result ≡ false }
    ensures keep { is_keep_fault result ≡ false }
    ensures writes { Moved (is_write_fault result) (K.faults sink.old) (K.faults sink.new)
        × (result ≡ Status.Done → K.clean sink.new ≡ true) }
{
    write_told(sink, answer_text(form, alloc, chain, what))
}

/// The command `query`: the report's lines that answer the question are written, and nothing is committed.
pub(crate) fn answer<K: Sink, D: Keeper>(
    form: Form,
    alloc: Global,
    sink: &mut K,
    keeper: &mut D,
    what: &Query,
) -> Status
    ensures ends { QueryEnds form what.now (by_sink K.written sink.old sink.new)
        (by_keeper D.rows D.is_honest D.may_leave keeper.old keeper.new) result }
    ensures unkept { D.keeps keeper.old ≡ false → IsOfNoRows result
        × Adds (K.written sink.old) (K.written sink.new) (λ text. text ≡ []) }
    ensures busy { result ≡ Status.Usage → ⊥ }
    ensures read { is_read_fault result ≡ false }
    ensures writes { Moved (is_write_fault result) (K.faults sink.old) (K.faults sink.new)
        × (result ≡ Status.Done → K.clean sink.new ≡ true) }
    ensures keeps { Moved (is_keep_fault result) (D.faults keeper.old) (D.faults keeper.new) }
    ensures honest { D.is_honest keeper.new → D.is_honest keeper.old }
{
    match restore(alloc, keeper) {
        Ok(chain) => write_answer(form, alloc, sink, &chain, what),
        Err(fault) => status_of_restore(fault),
    }
}
