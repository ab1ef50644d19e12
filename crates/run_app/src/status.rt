//! How a run ends: its statuses, and why a line of the input, or the end of the output, stopped it.

ghost use Rattle.std.specs.Prelude.{◌≡◌};
ghost use Rattle.run_app.specs.Parts.{status_at_end};
ghost use Rattle.run_app.specs.Ending.{status_of, status_of_words};

use base_decimals::Over;
use base_messages::BlockFault;
use run_words::WordsFault;

/// Why a line of the input is not answered.
#[derive(Clone, Copy, Debug, PartialEq, Eq)]
pub enum InputFault {
    /// The input has no line, so the genesis is missing.
    Missing,
    /// The line is no JSON that `serde_json` reads.
    NotJson,
    /// The member of this number is missing or not of its form; 0: a member that has no number.
    BadShape(u16),
    /// The condition of this number keeps the genesis from starting a chain.
    BadGenesis(u8),
    /// The block does not follow those before it.
    Block(BlockFault),
}

/// Which limit the input passes.
#[derive(Clone, Copy, Debug, PartialEq, Eq)]
pub enum LimitKind {
    /// A line has more than 4,194,304 bytes, not counting its end.
    Line,
    /// 2^40 bytes were taken, and the input goes on.
    Input,
    /// A result of the beginning of a block would be 10^38 units or more, or a period that it ends is 10^18;
    /// its operands.
    Ratio(Over),
    /// An amount of the bounds of a reward statement would be 10^38 units or more; its operands.
    Bound(Over),
}

/// How a run ended.
#[derive(Clone, Copy, Debug, PartialEq, Eq)]
pub enum Status {
    /// The input was read to its end, and the whole output written and flushed.
    Done,
    /// The words are no command.
    Usage,
    /// The line of this number, from 1, is the first that is not answered.
    BadInput(u64, InputFault),
    /// The line of this number passes a limit.
    Limit(u64, LimitKind),
    /// The source failed.
    ReadFault,
    /// The sink failed.
    WriteFault,
    /// The keeper failed.
    KeepFault,
    /// Memory was wanting.
    NoMemory,
    /// The keeper's rows are those of no sound state.
    BadStore,
    /// The keeper has no rows, where this is true, though the command goes on from rows; or it has rows, though the command
    /// begins on none.
    WrongStore(bool),
    /// No line is told of this address, or the pair was never paid.
    NotFound,
    /// The keeper's rows tell nothing of this height: it is not between these, the base of their history and the last
    /// height.
    NoPast(u64, u64),
}

/// Why a line, or a piece of the input, was not answered.
#[derive(Clone, Copy, Debug, PartialEq, Eq)]
pub enum LineStop {
    BadInput(u64, InputFault),
    Long(u64),
    Ratio(u64, Over),
    Write,
    Keep,
    NoMemory,
}

/// Why the end of the output was not written.
#[derive(Clone, Copy, Debug, PartialEq, Eq)]
pub enum EndStop {
    /// The lines lead to no report: so many were answered, and the next is at fault.
    Lacking(u64, InputFault),
    Report,
    Flush,
    NoMemory,
}

/// How a run ends whose words ask for nothing.
pub(crate) fn status_of_words(fault: WordsFault) -> Status
    ensures { result ≡ status_of_words fault }
{
    match fault {
        WordsFault::Usage => Status::Usage,
        WordsFault::NoMemory => Status::NoMemory,
    }
}

/// How a run ends that a part of it stopped.
pub fn status_of(stop: LineStop) -> Status
    ensures { result ≡ status_of stop }
{
    match stop {
        LineStop::BadInput(n, fault) => Status::BadInput(n, fault),
        LineStop::Long(n) => Status::Limit(n, LimitKind::Line),
        LineStop::Ratio(n, over) => Status::Limit(n, LimitKind::Ratio(over)),
        LineStop::Write => Status::WriteFault,
        LineStop::Keep => Status::KeepFault,
        LineStop::NoMemory => Status::NoMemory,
    }
}

/// How a run ends that its end stopped.
pub fn status_at_end(stop: EndStop) -> Status
    ensures { result ≡ status_at_end stop }
{
    match stop {
        EndStop::Lacking(n, fault) => Status::BadInput(n, fault),
        EndStop::Report => Status::WriteFault,
        EndStop::Flush => Status::WriteFault,
        EndStop::NoMemory => Status::NoMemory,
    }
}
