//! Words of each command, and words that are none.

use crate::rows::ROWS;
use base_bech32::Form;
use base_types::read_cons;
use line_report::Query;
use run_words::{Command, Mode, WordsFault, read_words};
use std::process::Abort;

/// Ends a test where this does not hold, with the name of the case.
fn holds(rt: &impl Abort, case: &str, it: bool) {
    if !it {
        rt.panic(case)
    }
}

/// What the words of a line ask for, which are parted by single spaces.
fn read(rt: &(impl Abort + AllocGlobal), line: &str) -> Result<Command, WordsFault> {
    let mut words = Vec::new(rt.alloc());
    for word in line.split(' ') {
        let word = String::from_str(rt.alloc(), word).expect(rt, "memory");
        match words.push(word) {
            Ok(()) => {}
            Err(_) => rt.panic("memory"),
        }
    }
    read_words(rt.alloc(), &words)
}

/// The text of what a line asks for, or of its fault.
fn told(rt: &(impl Abort + AllocGlobal), line: &str) -> String {
    let text = match read(rt, line) {
        Ok(command) => format!(in rt.alloc(); "{command:?}"),
        Err(fault) => format!(in rt.alloc(); "{fault:?}"),
    };
    text.expect(rt, "memory")
}

/// Whether a row's line asks for what stands behind it.
fn agrees(rt: &(impl Abort + AllocGlobal), row: &str) -> bool {
    let (line, wanted) = row
        .split_once(" = ")
        .expect(rt, "a line and what it asks for");
    told(rt, line).as_str() == wanted
}

#[test]
fn lines_ask_for_commands_or_for_nothing(rt: HostRuntime) {
    for row in ROWS.lines() {
        holds(&rt, row, agrees(&rt, row));
    }
    let none = read_words(rt.alloc(), &[]);
    holds(&rt, "no words", none == Err(WordsFault::Usage));
}

/// Whether the words ask for the signing record of an address that ends in 255.
fn asks_for_signing(rt: &(impl Abort + AllocGlobal), line: &str, form: Form) -> bool {
    let cons = read_cons("00000000000000000000000000000000000000ff").expect(rt, "an address");
    let command = Command {
        form,
        keep: false,
        every: 1,
        past: None,
        mode: Mode::Query(Query::Signing(cons)),
    };
    read(rt, line) == Ok(command)
}

#[test]
fn a_signing_record_is_asked_for(rt: HostRuntime) {
    let line = "query signing 00000000000000000000000000000000000000ff";
    holds(&rt, line, asks_for_signing(&rt, line, Form::Hex));
    let line = "bech32 query signing cosmosvalcons1qqqqqqqqqqqqqqqqqqqqqqqqqqqqqq8lvfcx4k";
    holds(&rt, line, asks_for_signing(&rt, line, Form::Bech32));
}
