//! Questions of a past height: the chain of the past rows is asked as that of the present ones is.

ghost use Rattle.std.specs.Prelude.{◌≡◌, [], false, true, map};
ghost use Rattle.base_io.specs.Changes.{pair_of};
ghost use Rattle.run_app.specs.Counts.{Moved, is_keep_fault, is_read_fault, is_write_fault};
ghost use Rattle.run_app.specs.Histories.{PastAnswers, PastEnds, status_of_past};
ghost use Rattle.run_app.specs.Unkept.{IsOfNoRows};
ghost use Rattle.run_app.specs.Writes.{Adds};
ghost use Rattle.run_app.specs.Seen.{by_keeper, by_sink};
ghost use Rattle.store_resuming.specs.Restoring.{InOrder};

use crate::resuming::{status_of_restore, write_answer};
use crate::status::Status;
use base_bech32::Form;
use base_io::{Keeper, Row, Sink};
use line_report::Query;
use std::alloc::Global;
use store_history::{PastFault, past};
use store_resuming::{chain_of_rows, load_rows};

/// How a run ends where rows tell nothing of a height.
fn status_of_past(fault: PastFault) -> Status
    ensures { result ≡ status_of_past fault }
{
    match fault {
        PastFault::BadHistory => Status::BadStore,
        PastFault::NoPast(base, last) => Status::NoPast(base, last),
        PastFault::NoMemory => Status::NoMemory,
    }
}

/// Writes the report's lines of the past rows of these at a height that answer the question.
fn answer_at<K: Sink>(
    form: Form,
    alloc: Global,
    sink: &mut K,
    rows: &[Row],
    height: u64,
    what: &Query,
) -> Status
    ensures answers { PastAnswers form height what.now (InOrder (map pair_of rows.now))
        (K.written sink.old) (K.written sink.new) result }
    ensures busy { result ≡ Status.Usage → ⊥ }
    ensures read { is_read_fault result ≡ false }
    ensures keep { is_keep_fault result ≡ false }
    ensures writes { Moved (is_write_fault result) (K.faults sink.old) (K.faults sink.new)
        × (result ≡ Status.Done → K.clean sink.new ≡ true) }
{
    let stood = match past(alloc, rows, height) {
        Ok(stood) => stood,
        Err(fault) => return status_of_past(fault),
    };
    match chain_of_rows(alloc, &stood) {
        Ok(chain) => write_answer(form, alloc, sink, &chain, what),
        Err(fault) => status_of_restore(fault),
    }
}

/// The command `query` behind `past` and a height: the report's lines of the past rows that answer the question are written,
/// and nothing is committed.
pub(crate) fn answer_past<K: Sink, D: Keeper>(
    form: Form,
    alloc: Global,
    sink: &mut K,
    keeper: &mut D,
    height: u64,
    what: &Query,
) -> Status
    ensures ends { PastEnds form height what.now (by_sink K.written sink.old sink.new)
        (by_keeper D.rows D.is_honest D.may_leave keeper.old keeper.new) result }
    ensures busy { result ≡ Status.Usage → ⊥ }
    ensures read { is_read_fault result ≡ false }
    ensures writes { Moved (is_write_fault result) (K.faults sink.old) (K.faults sink.new)
        × (result ≡ Status.Done → K.clean sink.new ≡ true) }
    ensures keeps { Moved (is_keep_fault result) (D.faults keeper.old) (D.faults keeper.new) }
    // One that keeps nothing has no rows.
    ensures unkept { D.keeps keeper.old ≡ false → IsOfNoRows result
        × Adds (K.written sink.old) (K.written sink.new) (λ text. text ≡ []) }
{
    let rows = match load_rows(keeper) {
        Ok(rows) => rows,
        Err(fault) => return status_of_restore(fault),
    };
    answer_at(form, alloc, sink, &rows, height, what)
}
