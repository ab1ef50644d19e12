//! Words that are no command, and a line as long as one may be.

use crate::samples::*;
use base_io::{SureKeeper, SureSink, SureSource};
use run_app::{InputFault, LimitKind, Status, run};
use std::process::Abort;

/// A copy of bytes.
fn copied(rt: &(impl Abort + AllocGlobal), bytes: &[u8]) -> Vec<u8> {
    Vec::from_slice(rt.alloc(), bytes).expect(rt, "memory")
}

/// Whether a replay of the input ends so, and writes this.
fn replays(rt: &(impl Abort + AllocGlobal), input: &[u8], status: Status, output: &[u8]) -> bool {
    let mut source = SureSource::new(copied(rt, input), 4096);
    let mut sink = SureSink::new(rt.alloc());
    let mut keeper = SureKeeper::new(rt.alloc(), Vec::new(rt.alloc()));
    let words = words(rt, "replay");
    let ended = run(rt.alloc(), &words, &mut source, &mut sink, &mut keeper);
    ended == status && sink.bytes() == output
}

#[test]
fn other_words_are_no_command(rt: HostRuntime) {
    let mut source = SureSource::new(worked_input(&rt), 1);
    let mut sink = SureSink::new(rt.alloc());
    let mut keeper = SureKeeper::new(rt.alloc(), Vec::new(rt.alloc()));
    let words = words(&rt, "repeat");
    let ended = run(rt.alloc(), &words, &mut source, &mut sink, &mut keeper);
    assert_eq!(rt; ended, Status::Usage);
    assert!(rt; sink.bytes().is_empty());
    assert!(rt; keeper.rows().is_empty());
}

#[test]
fn a_line_may_have_4194304_bytes(rt: HostRuntime) {
    let before = text(&rt, &[GENESIS_LINE]);
    let spaces = vec![in rt.alloc(); b' '; 4_194_304].expect(&rt, "memory");
    let mut input = Vec::new(rt.alloc());
    push_genesis(&rt, &mut input, ONE_THOUSAND);
    input.extend_from_slice(&spaces).expect(&rt, "memory");
    for status in [
        Status::BadInput(2, InputFault::NotJson),
        Status::Limit(2, LimitKind::Line),
    ] {
        assert!(rt; replays(&rt, &input, status, &before));
        input.push(b' ').expect(&rt, "memory");
    }
}
