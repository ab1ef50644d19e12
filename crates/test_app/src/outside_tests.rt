//! Runs of the worked input: in pieces of any size, over readers and writers of `std`, and with nothing kept.

ghost use Rattle.std.specs.Prelude.{◌≤◌};

use crate::samples::*;
use base_io::{NoKeeper, StdSink, StdSource, SureKeeper, SureSink, SureSource};
use run_app::{Status, run};
use std::process::Abort;

/// How a replay of the worked input ends that comes in pieces of so many bytes, and what it writes.
fn ends(rt: &(impl Abort + AllocGlobal), piece: usize) -> (Status, Vec<u8>)
    requires { 1 ≤ piece }
{
    let mut source = SureSource::new(worked_input(rt), piece);
    let mut sink = SureSink::new(rt.alloc());
    let mut keeper = SureKeeper::new(rt.alloc(), Vec::new(rt.alloc()));
    let words = words(rt, "replay");
    let status = run(rt.alloc(), &words, &mut source, &mut sink, &mut keeper);
    let written = Vec::from_slice(rt.alloc(), sink.bytes());
    (status, written.expect(rt, "memory"))
}

#[test]
fn pieces_of_any_size_give_the_same_bytes(rt: HostRuntime) {
    let whole = text(
        &rt,
        &[
            GENESIS_LINE,
            BLOCK_LINE,
            FEE_LINE,
            SEND_LINE,
            ACCEPTED_LINE,
            SUPPLY_LINE,
            PAYER_LINE,
            RECEIVER_LINE,
            COLLECTOR_LINE,
            POOL_LINE,
        ],
    );
    for piece in [1usize, 7, 4096] {
        let (status, written) = ends(&rt, piece);
        assert_eq!(rt; status, Status::Done);
        assert!(rt; written == whole);
    }
}

#[test]
fn a_run_goes_over_readers_and_writers_of_std(rt: HostRuntime) {
    let input = worked_input(&rt);
    let mut source = StdSource::new(input.as_slice());
    let mut sink = StdSink::new(Vec::new(rt.alloc()));
    let mut keeper = SureKeeper::new(rt.alloc(), Vec::new(rt.alloc()));
    let words = words(&rt, "replay");
    let status = run(rt.alloc(), &words, &mut source, &mut sink, &mut keeper);
    assert_eq!(rt; status, Status::Done);
}

#[test]
fn a_replay_that_keeps_nothing_writes_the_same(rt: HostRuntime) {
    let mut source = SureSource::new(worked_input(&rt), 4096);
    let mut sink = SureSink::new(rt.alloc());
    let mut keeper = NoKeeper::new(rt.alloc());
    let words = words(&rt, "replay");
    let status = run(rt.alloc(), &words, &mut source, &mut sink, &mut keeper);
    assert_eq!(rt; status, Status::Done);
    let (_, kept) = ends(&rt, 4096);
    assert!(rt; sink.bytes() == kept.as_slice());
}
