//! Runs of which one call of the source, the sink or the keeper fails: the status, the text and the rows they leave.

use crate::whole::{
    Fronts, KEPT, KEPT_ON, LINES, NEW, OLD, ON, Start, WHOLE, are_behind, are_same, begun,
    command_behind, grouped_command, input_behind, lines_within, make_fronts, text_of, visible,
};
use base_io::{MemKeeper, MemSink, MemSource, Row};
use run_app::{Status, run};
use std::process::Abort;

/// How many bytes a read gives.
const PIECE: usize = 2000;

/// Where runs begin.
const STARTS: [Start; 5] = [NEW, ON, OLD, KEPT, KEPT_ON];

/// The object of which a call fails.
#[derive(Clone, Copy, PartialEq, Eq)]
enum Failing {
    Source,
    Sink,
    Keeper,
}

/// The numbers of the calls of an object that fail: of one object the one call, of the others none.
fn calls(
    rt: &(impl Abort + AllocGlobal),
    object: Failing,
    failing: Failing,
    call: u32,
) -> Vec<u64> {
    let mut calls = Vec::new(rt.alloc());
    if object == failing {
        calls.push(u64::from(call)).expect(rt, "memory");
    }
    calls
}

/// How a run ends, and what it leaves: the text of so many lines, and the rows behind so many, or
/// those on which it began.
#[derive(Clone, Copy)]
struct Exit {
    status: Status,
    text: u32,
    kept: Option<u32>,
}

/// Whether these rows are left.
fn are_left(
    rt: &(impl Abort + AllocGlobal),
    fronts: &Fronts,
    start: Start,
    kept: Option<u32>,
    rows: &[Row],
) -> bool {
    match kept {
        Some(lines) => are_behind(rt, fronts, lines, rows),
        None => {
            let (_, began) = begun(rt, fronts, start);
            are_same(&began, rows)
        }
    }
}

/// Whether a run that begins so ends so where this call fails.
fn exits(
    rt: &(impl Abort + AllocGlobal),
    fronts: &Fronts,
    start: Start,
    failing: Failing,
    call: u32,
    exit: &Exit,
) -> bool {
    let (before, rows) = begun(rt, fronts, start);
    let reads = calls(rt, Failing::Source, failing, call);
    let mut source = MemSource::new(input_behind(rt, fronts, start.lines), PIECE, reads);
    let mut sink = MemSink::new(rt.alloc(), calls(rt, Failing::Sink, failing, call));
    let keeps = calls(rt, Failing::Keeper, failing, call);
    let mut keeper = MemKeeper::new(rt.alloc(), rows, keeps);
    let words = command_behind(rt, start.lines, start.is_kept);
    let status = run(rt.alloc(), &words, &mut source, &mut sink, &mut keeper);
    status == exit.status
        && text_of(rt, fronts, exit.text).get(before.len()..) == Some(sink.bytes())
        && are_left(rt, fronts, start, exit.kept, &visible(rt, keeper.rows()))
}

/// How a run ends and what it leaves of whose calls one fails, or none where that one is not made.
fn exit_of(is_made: bool, fault: Status, text: u32, kept: Option<u32>) -> Exit {
    if is_made {
        Exit {
            status: fault,
            text,
            kept,
        }
    } else {
        Exit {
            status: Status::Done,
            text: WHOLE,
            kept: Some(LINES),
        }
    }
}

#[test]
fn each_failed_read_leaves_the_lines_that_had_ended(rt: HostRuntime) {
    let fronts = make_fronts(&rt);
    for start in STARTS {
        let input = input_behind(&rt, &fronts, start.lines);
        // So many reads give bytes, and one more finds the end.
        let reads = u32::try_from(input.len().div_ceil(PIECE));
        let reads = reads.ok().expect(&rt, "few reads");
        for call in 0..reads.saturating_add(2) {
            let bytes = (call as usize).saturating_mul(PIECE);
            let ended = start.lines.saturating_add(lines_within(&input, bytes));
            let exit = exit_of(call <= reads, Status::ReadFault, ended, Some(ended));
            assert!(rt; exits(&rt, &fronts, start, Failing::Source, call, &exit));
        }
    }
}

#[test]
fn each_failed_write_leaves_the_texts_before_it(rt: HostRuntime) {
    let fronts = make_fronts(&rt);
    for start in STARTS {
        // A write for each line, one for the report, and a flush.
        let lines = LINES.saturating_sub(start.lines);
        for call in 0..lines.saturating_add(3) {
            let text = start.lines.saturating_add(call);
            let kept = text.saturating_add(1).min(LINES);
            let exit = exit_of(
                call < lines.saturating_add(2),
                Status::WriteFault,
                text,
                Some(kept),
            );
            assert!(rt; exits(&rt, &fronts, start, Failing::Sink, call, &exit));
        }
    }
}

/// How many calls of the keeper a run makes before it commits its first line: a load; one more where it keeps what it
/// replaces, and one more there before a genesis begins a history; a commit that brings rows of the first format to the
/// second.
fn calls_before(start: Start) -> u32 {
    match (start.is_kept, start.lines) {
        (true, 0) => 3,
        (true, _) => 2,
        (false, _) => { if start.is_old { 2 } else { 1 } }
    }
}

#[test]
fn each_failed_call_of_the_keeper_leaves_what_it_had(rt: HostRuntime) {
    let fronts = make_fronts(&rt);
    for start in STARTS {
        let before = calls_before(start);
        let calls = LINES.saturating_sub(start.lines).saturating_add(before);
        for call in 0..calls.saturating_add(1) {
            let text = start.lines.saturating_add(call.saturating_sub(before));
            let kept = if call < before { None } else { Some(text) };
            let exit = exit_of(call < calls, Status::KeepFault, text, kept);
            assert!(rt; exits(&rt, &fronts, start, Failing::Keeper, call, &exit));
        }
    }
}

/// What each failed write leaves of a replay that commits at each second block: the text of so many lines, and the rows behind
/// so many. The genesis is written alone, then two blocks, then one, then the report; and the last call is the flush.
const GROUPED: [(u32, u32); 5] = [(0, 1), (1, 3), (3, LINES), (LINES, LINES), (WHOLE, LINES)];

/// Whether a replay that commits at each Nth block ends so where this call fails.
fn grouped_exits(
    rt: &(impl Abort + AllocGlobal),
    fronts: &Fronts,
    every: &str,
    failing: Failing,
    call: u32,
    exit: &Exit,
) -> bool {
    let reads = calls(rt, Failing::Source, failing, call);
    let mut source = MemSource::new(input_behind(rt, fronts, 0), PIECE, reads);
    let mut sink = MemSink::new(rt.alloc(), calls(rt, Failing::Sink, failing, call));
    let keeps = calls(rt, Failing::Keeper, failing, call);
    let mut keeper = MemKeeper::new(rt.alloc(), Vec::new(rt.alloc()), keeps);
    let words = grouped_command(rt, every);
    let status = run(rt.alloc(), &words, &mut source, &mut sink, &mut keeper);
    status == exit.status
        && text_of(rt, fronts, exit.text) == sink.bytes()
        && are_left(rt, fronts, NEW, exit.kept, &visible(rt, keeper.rows()))
}

#[test]
fn blocks_that_are_committed_together_leave_what_single_ones_do(rt: HostRuntime) {
    let fronts = make_fronts(&rt);
    let exit = exit_of(false, Status::Done, WHOLE, Some(LINES));
    for every in ["1", "2", "3", "1000000"] {
        assert!(rt; grouped_exits(&rt, &fronts, every, Failing::Sink, 100, &exit));
    }
}

#[test]
fn a_failed_write_of_a_batch_leaves_the_texts_before_it(rt: HostRuntime) {
    let fronts = make_fronts(&rt);
    let mut call = 0u32;
    for (text, kept) in GROUPED {
        let exit = exit_of(true, Status::WriteFault, text, Some(kept));
        assert!(rt; grouped_exits(&rt, &fronts, "2", Failing::Sink, call, &exit));
        call = call.saturating_add(1);
    }
}

#[test]
fn a_failed_read_leaves_the_lines_that_waited(rt: HostRuntime) {
    let fronts = make_fronts(&rt);
    let input = input_behind(&rt, &fronts, 0);
    let reads = u32::try_from(input.len().div_ceil(PIECE));
    let reads = reads.ok().expect(&rt, "few reads");
    for call in 0..reads.saturating_add(1) {
        let bytes = (call as usize).saturating_mul(PIECE);
        let ended = lines_within(&input, bytes);
        let exit = exit_of(true, Status::ReadFault, ended, Some(ended));
        assert!(rt; grouped_exits(&rt, &fronts, "1000000", Failing::Source, call, &exit));
    }
}

#[test]
fn a_failed_commit_of_a_batch_leaves_the_lines_before_it(rt: HostRuntime) {
    let fronts = make_fronts(&rt);
    let mut call = 0u32;
    // A load, and the commits of the genesis, of two blocks, and of one.
    for lines in [0, 0, 1, 3] {
        let exit = exit_of(true, Status::KeepFault, lines, Some(lines));
        assert!(rt; grouped_exits(&rt, &fronts, "2", Failing::Keeper, call, &exit));
        call = call.saturating_add(1);
    }
}
