//! The end of the output: the report, then the flush.

ghost use Rattle.std.specs.Prelude.{◌≡◌, true, false, None, Err, IfErr, OnOk, []};
ghost use Rattle.run_app.specs.Counts.{Moved, is_keep_fault, is_read_fault, is_write_fault};
ghost use Rattle.run_app.specs.Machine.{Standing, StandsAt};
ghost use Rattle.run_app.specs.Outcome.{HasBegun};
ghost use Rattle.run_app.specs.Parts.{FinishStatus, FinishStops, Finishes, status_of_end};

use crate::report::report_text;
use crate::status::{EndStop, InputFault, Status, status_at_end};
use base_bech32::Form;
use base_io::{Sink, SinkFault, write_all};
use chain_whole::Chain;
use std::alloc::Global;

/// Writes the report, and flushes.
///
/// # Errors
/// `Lacking`, where there is no chain, so that the genesis is missing. `Report` and `Flush`, where the sink failed at the report
/// or at the flush, and only where its count of faults rose. `NoMemory`, where memory was wanting.
#[tactic(auto, unfolding(crate::specs::Machine::report_of))]
fn report<K: Sink>(
    form: Form,
    alloc: Global,
    sink: &mut K,
    chain: &Option<Chain>,
) -> Result<(), EndStop>
    ensures written { (s : Standing) → StandsAt chain.now s → OnOk result
        (Finishes form (λ _ _. Unit {0}) 1 s [] (K.written sink.old) (K.written sink.new)) }
    ensures stops { (s : Standing) → StandsAt chain.now s → IfErr result
        (FinishStops form (λ _ _. Unit {0}) 1 s [] (K.written sink.old) (K.written sink.new)) }
    // That the genesis is missing takes no memory to tell.
    ensures missing { chain.now ≡ None → result ≡ Err (EndStop.Lacking 1 InputFault.Missing) }
    ensures writes { Moved (is_write_fault (status_of_end result))
        (K.faults sink.old) (K.faults sink.new) × OnOk result (K.clean sink.new ≡ true) }
{
    let Some(chain) = chain else {
        return Err(EndStop::Lacking(1, InputFault::Missing));
    };
    let Ok(text) = report_text(form, alloc, chain) else {
        return Err(EndStop::NoMemory);
    };
    match write_all(sink, &text) {
        Ok(()) => {}
        Err(SinkFault::Failed) => return Err(EndStop::Report),
        Err(SinkFault::NoMemory) => return Err(EndStop::NoMemory),
    }
    match sink.flush() {
        Ok(()) => Ok(()),
        Err(_) => Err(EndStop::Flush),
    }
}

/// The input was read to its end, and all lines were written: so is the report.
pub(crate) fn finish<K: Sink>(
    form: Form,
    alloc: Global,
    sink: &mut K,
    chain: &Option<Chain>,
) -> Status
    ensures status { (s : Standing) → StandsAt chain.now s
        → FinishStatus form (λ _ _. Unit {0}) 1 s []
        (K.written sink.old) (K.written sink.new) result }
    // That the genesis is missing takes no memory to tell.
    ensures missing { chain.now ≡ None → result ≡ Status.BadInput 1 InputFault.Missing }
    ensures begun { HasBegun result }
    ensures read { is_read_fault result ≡ false }
    ensures keep { is_keep_fault result ≡ false }
    ensures writes { Moved (is_write_fault result) (K.faults sink.old) (K.faults sink.new)
        × (result ≡ Status.Done → K.clean sink.new ≡ true) }
{
    match report(form, alloc, sink, chain) {
        Ok(()) => Status::Done,
        Err(stop) => status_at_end(stop),
    }
}
