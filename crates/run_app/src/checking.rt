//! The command `check`: each line of the input is a statement, and is answered by whether it is right.

ghost use Rattle.std.specs.Prelude.{◌≡◌, ◌≤◌, false, true, IfErr, OnOk, IsErrOf, length};
ghost use Rattle.base_io.specs.Outside.{Rose};
ghost use Rattle.run_app.specs.Ballots.{UnlessUnread};
ghost use Rattle.run_app.specs.Checks.{CheckEnds, ChecksAll, IsChecked, IsUnanswered, not_bounded};
ghost use Rattle.run_app.specs.Counts.{Moved, is_keep_fault, is_read_fault, is_write_fault};
ghost use Rattle.run_app.specs.Machine.{longest};
ghost use Rattle.run_app.specs.Taking.{MayEnd, UnlessUnwritten};
ghost use Rattle.run_app.specs.Seen.{by_sink, by_source};

use crate::line::not_read;
use crate::status::{InputFault, LimitKind, Status, status_of};
use crate::taking::{Reading, TakesLines, take_lines};
use base_bech32::Form;
use base_io::{Sink, SinkFault, Source, write_all};
use json::Scratch;
use line_statements::{push_line_of_answer, read_statement};
use mod_statement::{StatementFault, check};
use std::alloc::Global;

/// The number of the member `entries` of a statement.
const ENTRIES: u16 = 130;

/// What answers statements. Its scratch and its text are kept from line to line for their memory alone.
#[derive(Drop)]
struct Checker {
    scratch: Scratch,
    text: Vec<u8>,
}

/// Why the statement of the line of this number has no bounds.
pub(crate) fn not_bounded(number: u64, fault: StatementFault) -> Status
    ensures { result ≡ not_bounded number fault }
{
    match fault {
        StatementFault::Over(over) => Status::Limit(number, LimitKind::Bound(over)),
        StatementFault::NoSpan => Status::BadInput(number, InputFault::BadShape(ENTRIES)),
        StatementFault::NoMemory => Status::NoMemory,
    }
}

/// The answer to the line of this number, which takes the place of the last one.
fn answer_line(
    form: Form,
    alloc: Global,
    checker: &mut Checker,
    number: u64,
    line: &[u8],
) -> Result<(), Status>
    requires short { length line.now ≤ longest }
    ensures text { OnOk result (IsChecked form number line.now checker.new.text.items) }
    ensures stop { IfErr result (IsUnanswered form number line.now) }
{
    checker.text.clear();
    let statement = match read_statement(form, alloc, &mut checker.scratch, line) {
        Ok(statement) => statement,
        Err(fault) => return Err(status_of(not_read(number, fault))),
    };
    let right = match check(alloc, &statement) {
        Ok(right) => right,
        Err(fault) => return Err(not_bounded(number, fault)),
    };
    match push_line_of_answer(alloc, &mut checker.text, number, right) {
        Ok(()) => Ok(()),
        Err(_) => Err(Status::NoMemory),
    }
}

impl TakesLines for Checker {
    ghost use Rattle.run_app.specs.Checks.{HaltsCheck, TakesCheck};

    ghost takes = { λ form n line x y. TakesCheck form n line x.1 y.1 };

    ghost stops = { λ form status n line x y. HaltsCheck form status n line x.1 y.1 };

    fn take<K: Sink>(
        &mut self,
        form: Form,
        alloc: Global,
        sink: &mut K,
        number: u64,
        line: &[u8],
    ) -> Result<(), Status> {
        if let Err(status) = answer_line(form, alloc, self, number, line) {
            return Err(status);
        }
        match write_all(sink, &self.text) {
            Ok(()) => Ok(()),
            Err(SinkFault::Failed) => Err(Status::WriteFault),
            Err(SinkFault::NoMemory) => Err(Status::NoMemory),
        }
    }
}

/// Answers each line of the source. The error is how a run ends whose input was not taken whole.
fn answer_lines<S: Source, K: Sink>(
    form: Form,
    alloc: Global,
    source: &mut S,
    sink: &mut K,
) -> Result<(), Status>
    ensures all { OnOk result (ChecksAll form (S.left source.old) (S.left source.new)
        (K.written sink.old) (K.written sink.new)) }
    ensures part { IfErr result (λ status. CheckEnds form (by_source S.left source.old source.new)
        (by_sink K.written sink.old sink.new) status) }
    ensures may { IfErr result MayEnd }
    ensures read_cause { IsErrOf result Status.ReadFault
        → Rose (S.faults source.old) (S.faults source.new) }
    ensures write_later { K.faults sink.old ≤ K.faults sink.new }
    ensures write_cause { IsErrOf result Status.WriteFault
        → Rose (K.faults sink.old) (K.faults sink.new) }
    ensures read_quiet { UnlessUnread result (S.faults source.new ≡ S.faults source.old) }
    ensures write_quiet { UnlessUnwritten result (K.faults sink.new ≡ K.faults sink.old) }
{
    let mut checker = Checker {
        scratch: Scratch::new(alloc),
        text: Vec::new(alloc),
    };
    let mut reading = Reading {
        number: 1,
        line: Vec::new(alloc),
    };
    take_lines(form, alloc, source, &mut checker, sink, &mut reading)
}

/// The command `check`: each line of the source is a statement, and is answered by whether it is right; then the sink is
/// flushed.
pub(crate) fn check_all<S: Source, K: Sink>(
    form: Form,
    alloc: Global,
    source: &mut S,
    sink: &mut K,
) -> Status
    ensures ends { CheckEnds form (by_source S.left source.old source.new)
        (by_sink K.written sink.old sink.new) result }
    ensures busy { result ≡ Status.Usage → ⊥ }
    ensures reads { Moved (is_read_fault result) (S.faults source.old) (S.faults source.new) }
    ensures writes { Moved (is_write_fault result) (K.faults sink.old) (K.faults sink.new)
        × (result ≡ Status.Done → K.clean sink.new ≡ true) }
    ensures keep { is_keep_fault result ≡ false }
{
    if let Err(status) = answer_lines(form, alloc, source, sink) {
        return status;
    }
    match sink.flush() {
        Ok(()) => Status::Done,
        Err(_) => Status::WriteFault,
    }
}
