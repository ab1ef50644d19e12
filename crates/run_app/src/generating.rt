//! The commands that generate their input: it is written, or a chain takes it and its summary is written. Neither takes
//! anything from a source.
ghost use Rattle.std.specs.Prelude.{◌≡◌, ◌≤◌, ℕ, List, Result, Ok, Err, false, true, IfErr, IfOk};
ghost use Rattle.base_messages.specs.declared.faults.BlockFault.{BlockFault};
ghost use Rattle.base_roles.specs.declared.refusal.Refusal.{Refusal};
ghost use Rattle.run_generated.specs.Writing.{generated_text};
ghost use Rattle.run_trial.specs.Summary.{Stopped};
ghost use Rattle.run_trial.specs.Trial.{trial_of};
ghost use Rattle.run_trial.specs.Trying.{IsTrialFault};
ghost use Rattle.run_app.specs.Counts.{Moved, is_keep_fault, is_read_fault, is_write_fault};
ghost use Rattle.run_app.specs.Ending.{status_of};
ghost use Rattle.run_app.specs.Machine.{not_applied};
ghost use Rattle.run_app.specs.Modes.{Tries};
ghost use Rattle.run_app.specs.Writes.{Writes, status_of_sink};

use crate::line::not_applied;
use crate::status::{Status, status_of};
use base_bech32::Form;
use base_io::{Sink, SinkFault};
use run_generated::{write_input, write_text};
use run_trial::{TrialFault, try_input};
use std::alloc::Global;

/// How a run ends that has written its text, or could not.
pub(crate) fn status_of_sink(written: Result<(), SinkFault>) -> Status
    ensures { result ≡ status_of_sink written }
{
    match written {
        Ok(()) => Status::Done,
        Err(SinkFault::Failed) => Status::WriteFault,
        Err(SinkFault::NoMemory) => Status::NoMemory,
    }
}

/// The command `gen`: writes the generated input, with addresses in this form, a line at a time.
pub(crate) fn write_generated<K: Sink>(
    form: Form,
    alloc: Global,
    sink: &mut K,
    seed: u64,
    count: u32,
) -> Status
    requires most { count ≤ 100_000 }
    ensures ends { Writes (generated_text form seed count) (K.written sink.old) (K.written sink.new)
        result }
    ensures busy { result ≡ Status.Usage → ⊥ }
    ensures read { is_read_fault result ≡ false }
    ensures keep { is_keep_fault result ≡ false }
    ensures writes { Moved (is_write_fault result) (K.faults sink.old) (K.faults sink.new)
        × (result ≡ Status.Done → K.clean sink.new ≡ true) }
{
    status_of_sink(write_input(form, alloc, sink, seed, count))
}

/// Writes the summary of a trial, as it was made; there is none, where a block may not follow.
fn write_summary<K: Sink>(sink: &mut K, tried: Result<Vec<u8>, TrialFault>) -> Status
    ensures ends { (due : Result (Result (List ℕ) Stopped) Refusal)
        → IfOk tried (λ summary. due ≡ Ok (Ok summary.items)) → IfErr tried (IsTrialFault due)
        → Tries due (K.written sink.old) (K.written sink.new) result }
    // Which block it is takes no memory to tell.
    ensures stopped { (line : ℕ) (fault : BlockFault) → tried ≡ Err (TrialFault.Block line fault)
        → result ≡ status_of (not_applied line fault) }
    ensures busy { result ≡ Status.Usage → ⊥ }
    ensures read { is_read_fault result ≡ false }
    ensures keep { is_keep_fault result ≡ false }
    ensures writes { Moved (is_write_fault result) (K.faults sink.old) (K.faults sink.new)
        × (result ≡ Status.Done → K.clean sink.new ≡ true) }
{
    match tried {
        Ok(summary) => status_of_sink(write_text(sink, &summary)),
        Err(TrialFault::Block(line, fault)) => status_of(not_applied(line, fault)),
        Err(TrialFault::NoMemory) => Status::NoMemory,
    }
}

/// The command `trial`: applies the generated input to a chain, and writes its summary.
pub(crate) fn write_trial<K: Sink>(alloc: Global, sink: &mut K, seed: u64, count: u32) -> Status
    requires most { count ≤ 100_000 }
    ensures ends { Tries (trial_of seed count) (K.written sink.old) (K.written sink.new) result }
    ensures busy { result ≡ Status.Usage → ⊥ }
    ensures read { is_read_fault result ≡ false }
    ensures keep { is_keep_fault result ≡ false }
    ensures writes { Moved (is_write_fault result) (K.faults sink.old) (K.faults sink.new)
        × (result ≡ Status.Done → K.clean sink.new ≡ true) }
{
    write_summary(sink, try_input(alloc, seed, count))
}
