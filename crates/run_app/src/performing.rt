//! What words ask for: a command, in the way that the words before it say.

ghost use Rattle.std.specs.Prelude.{◌≡◌, ◌<◌, true, false};
ghost use Rattle.run_app.specs.Commands.{WayEnds, WayUnkept, kept_way, past_way, way_of};
ghost use Rattle.run_app.specs.Counts.{Moved, ReadMoved, is_keep_fault, is_write_fault};
ghost use Rattle.run_app.specs.Modes.{HasFewBlocks};
ghost use Rattle.run_app.specs.Seen.{by_keeper, by_sink, by_source};
ghost use Rattle.store_history.specs.Held.{TakesDistinct};

use crate::keeping::keep;
use crate::recalling::answer_past;
use crate::running::carry_out;
use crate::status::Status;
use base_io::{Keeper, Sink, Source};
use line_report::Query;
use run_words::{Command, Mode};
use std::alloc::Global;

/// The way in which a command is carried out.
#[derive(Clone, Copy, Debug, PartialEq, Eq)]
pub enum Way {
    /// As its own words say.
    Plain(Mode),
    /// It commits, and what it replaces is kept.
    Kept(Mode),
    /// It is a question, of this past height.
    Past(u64, Query),
}

/// A command that commits, and keeps what it replaces where it is to.
fn kept_way(keep: bool, mode: Mode) -> Way
    ensures { result ≡ kept_way keep mode }
{
    if keep {
        Way::Kept(mode)
    } else {
        Way::Plain(mode)
    }
}

/// A question, of a past height where there is one.
fn past_way(past: Option<u64>, what: Query) -> Way
    ensures { result ≡ past_way past what }
{
    match past {
        Some(height) => Way::Past(height, what),
        None => Way::Plain(Mode::Query(what)),
    }
}

/// The way in which a command is carried out.
fn way_of(command: &Command) -> Way
    ensures { result ≡ way_of command.now }
{
    match command.mode {
        Mode::Replay => kept_way(command.keep, Mode::Replay),
        Mode::Resume => kept_way(command.keep, Mode::Resume),
        Mode::Query(what) => past_way(command.past, what),
        Mode::Tally => Way::Plain(Mode::Tally),
        Mode::Check => Way::Plain(Mode::Check),
        Mode::Statement {
            delegator,
            operator,
        } => Way::Plain(Mode::Statement {
            delegator,
            operator,
        }),
        Mode::Gen { seed, count } => Way::Plain(Mode::Gen { seed, count }),
        Mode::Trial { seed, count } => Way::Plain(Mode::Trial { seed, count }),
    }
}

/// Carries out a command, in its way.
pub(crate) fn perform<S: Source, K: Sink, D: Keeper>(
    alloc: Global,
    command: Command,
    source: &mut S,
    sink: &mut K,
    keeper: &mut D,
) -> Status
    requires every { 0 < command.every }
    requires few { HasFewBlocks command.mode }
    requires takes { TakesDistinct (D.takes keeper.old) }
    ensures ends { WayEnds command.form command.every (way_of command)
        (by_source S.left source.old source.new) (by_sink K.written sink.old sink.new)
        (by_keeper D.rows D.is_honest D.may_leave keeper.old keeper.new) result }
    ensures busy { result ≡ Status.Usage → ⊥ }
    ensures unkept { D.keeps keeper.old ≡ false → WayUnkept (way_of command)
        (by_source S.left source.old source.new) (by_sink K.written sink.old sink.new) result }
    ensures reads { ReadMoved command.every result (S.faults source.old) (S.faults source.new) }
    ensures writes { Moved (is_write_fault result) (K.faults sink.old) (K.faults sink.new)
        × (result ≡ Status.Done → K.clean sink.new ≡ true) }
    ensures keeps { Moved (is_keep_fault result) (D.faults keeper.old) (D.faults keeper.new) }
{
    match way_of(&command) {
        Way::Plain(mode) => carry_out(
            command.form,
            alloc,
            command.every,
            mode,
            source,
            sink,
            keeper,
        ),
        Way::Kept(mode) => keep(command.form, alloc, mode, source, sink, keeper),
        Way::Past(height, what) => { answer_past(command.form, alloc, sink, keeper, height, &what) }
    }
}
