//! The commands that commit, where what they replace is kept: they are carried out over a keeper that keeps a history.

ghost use Rattle.std.specs.Prelude.{◌≡◌, false, true, IfSome};
ghost use Rattle.base_io.specs.Changes.{LeavesRows, Rises};
ghost use Rattle.run_app.specs.Counts.{Moved, is_keep_fault, is_read_fault, is_write_fault};
ghost use Rattle.run_app.specs.Histories.{IsCommitting, KeepEnds, status_of_open};
ghost use Rattle.run_app.specs.Modes.{HasFewBlocks, ModeEnds};
ghost use Rattle.run_app.specs.Unkept.{ModeUnkept};
ghost use Rattle.run_app.specs.Seen.{by_keeper, by_sink, by_source, visible};
ghost use Rattle.store_history.specs.Held.{HaveBecome, Knows, TakesDistinct};
ghost use Rattle.store_history.specs.History.{IsHistory};

use crate::running::carry_out;
use crate::status::Status;
use base_bech32::Form;
use base_io::{Keeper, Sink, Source};
use run_words::Mode;
use std::alloc::Global;
use std::marker::Brand;
use store_history::{History, HistoryKeeper, Loan, OpenFault, read_history};

/// How a run ends that was to keep a history, and does not begin.
fn status_of_open(fault: OpenFault) -> Status
    ensures { result ≡ status_of_open fault }
{
    match fault {
        OpenFault::Failed => Status::KeepFault,
        OpenFault::BadHistory => Status::BadStore,
        OpenFault::NoMemory => Status::NoMemory,
    }
}

/// Carries out a command over a keeper that is lent, of whose rows this is known. What of them is visible is left as without
/// a history. It gives the keeper back.
fn carry_out_kept<'a, L: Loan, S: Source, K: Sink, D: Keeper>(
    form: Form,
    alloc: Global,
    mode: Mode,
    source: &mut S,
    sink: &mut K,
    keeper: &'a mut D,
    history: History,
) -> (Status, &'a mut D)
    requires few { HasFewBlocks mode }
    requires lent { keeper.ghost_name ≡ L.name }
    requires rows { D.rows keeper.old ≡ L.rows }
    requires takes { TakesDistinct (D.takes keeper.old) }
    requires settled { LeavesRows (D.may_leave keeper.old) (D.rows keeper.old) }
    requires rises { IfSome (D.rows keeper.old) Rises }
    requires history { IfSome (D.rows keeper.old) IsHistory }
    requires knows { Knows (D.rows keeper.old) history.base history.visible }
    ensures same_reference { result.1.ghost_name ≡ keeper.entry.ghost_name }
    ensures ends { ModeEnds form 1 mode (by_source S.left source.old source.new)
        (by_sink K.written sink.old sink.new)
        (visible (by_keeper D.rows D.is_honest D.may_leave keeper.old result.1.now)) result.0 }
    ensures became { HaveBecome (D.rows keeper.old) (D.rows result.1.now) }
    ensures history { IfSome (D.rows result.1.now) IsHistory }
    ensures busy { result.0 ≡ Status.Usage → ⊥ }
    ensures unkept { D.keeps keeper.old ≡ false → ModeUnkept mode
        (by_source S.left source.old source.new) (by_sink K.written sink.old sink.new) result.0 }
    ensures reads { Moved (is_read_fault result.0) (S.faults source.old) (S.faults source.new) }
    ensures writes { Moved (is_write_fault result.0) (K.faults sink.old) (K.faults sink.new)
        × (result.0 ≡ Status.Done → K.clean sink.new ≡ true) }
    ensures keeps { Moved (is_keep_fault result.0) (D.faults keeper.old) (D.faults result.1.now) }
    ensures honest { D.is_honest result.1.now → D.is_honest keeper.old }
{
    let mut over = HistoryKeeper::<D, L>::over(alloc, keeper, history);
    let status = carry_out(form, alloc, 1, mode, source, sink, &mut over);
    (status, over.into_inner())
}

/// Carries out a command that commits, and keeps what it replaces.
pub(crate) fn keep<S: Source, K: Sink, D: Keeper>(
    form: Form,
    alloc: Global,
    mode: Mode,
    source: &mut S,
    sink: &mut K,
    keeper: &mut D,
) -> Status
    requires commits { IsCommitting mode }
    requires takes { TakesDistinct (D.takes keeper.old) }
    ensures ends { KeepEnds form mode (by_source S.left source.old source.new)
        (by_sink K.written sink.old sink.new)
        (by_keeper D.rows D.is_honest D.may_leave keeper.old keeper.new) result }
    ensures busy { result ≡ Status.Usage → ⊥ }
    ensures unkept { D.keeps keeper.old ≡ false → ModeUnkept mode
        (by_source S.left source.old source.new) (by_sink K.written sink.old sink.new) result
        × (result ≡ Status.BadStore → ⊥) }
    ensures reads { Moved (is_read_fault result) (S.faults source.old) (S.faults source.new) }
    ensures writes { Moved (is_write_fault result) (K.faults sink.old) (K.faults sink.new)
        × (result ≡ Status.Done → K.clean sink.new ≡ true) }
    ensures keeps { Moved (is_keep_fault result) (D.faults keeper.old) (D.faults keeper.new) }
{
    match read_history(alloc, keeper) {
        Ok(history) => {
            let (status, _kept) = carry_out_kept::<Brand, S, K, D>(
                form, alloc, mode, source, sink, keeper, history,
            );
            status
        }
        Err(fault) => status_of_open(fault),
    }
}
