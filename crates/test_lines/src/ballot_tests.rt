//! Ballots read from lines, and the line of a tally. Lines that are no ballot are rows of `cases/forms.txt`.

use crate::checks::holds;
use base_bech32::Form;
use base_decimals::Dec;
use base_messages::LineFault;
use base_types::Addr;
use json::Scratch;
use line_ballots::{Ballot, push_line_of_tally, read_ballot};
use mod_tally::{Choice, Tally};
use std::alloc::Global;
use std::process::Abort;

const TALLY_LINE: &str =
    "{\"abstain\":\"0.000000000000000002\",\"bonded\":\"1000000\",\"kind\":\"tally\",\"no\":\"99999999999999999999.999999999999999999\",\"no_with_veto\":\"0.000000000000000000\",\"yes\":\"1.500000000000000000\"}\n";

fn read(alloc: Global, line: &str) -> Result<Ballot, LineFault> {
    read_ballot(Form::Hex, alloc, &mut Scratch::new(alloc), line.as_bytes())
}

#[test]
fn each_choice_is_read(rt: HostRuntime) {
    let voter = Addr::of([0x11; 20]).expect(&rt, "a user");
    for (line, choice) in [
        (
            r#"{"kind":"ballot","voter":"1111111111111111111111111111111111111111","option":"yes"}"#,
            Choice::Yes,
        ),
        (
            r#" {"option":"abstain", "voter":"1111111111111111111111111111111111111111","kind":"ballot"}"#,
            Choice::Abstain,
        ),
        (
            r#"{"kind":"ballot","voter":"","option":"no","voter":"1111111111111111111111111111111111111111"}"#,
            Choice::No,
        ),
        (
            r#"{"kind":"ballot","voter":"1111111111111111111111111111111111111111","option":"no_with\u005fveto"}"#,
            Choice::Veto,
        ),
    ] {
        let ballot = Ballot { voter, choice };
        holds(&rt, line, read(rt.alloc(), line) == Ok(ballot));
    }
}

/// A decimal of so many units of 10^-18.
fn dec(rt: &impl Abort, raw: u128) -> Dec {
    Dec::from_raw(raw).expect(rt, "below the limit")
}

#[test]
fn a_tally_is_written(rt: HostRuntime) {
    let tally = Tally {
        yes: dec(&rt, 1_500_000_000_000_000_000),
        abstain: dec(&rt, 2),
        no: dec(&rt, 99_999_999_999_999_999_999_999_999_999_999_999_999),
        veto: dec(&rt, 0),
        bonded: 1_000_000,
    };
    let mut out = Vec::new(rt.alloc());
    let pushed = push_line_of_tally(rt.alloc(), &mut out, &tally);
    holds(&rt, "memory", pushed.is_ok());
    holds(&rt, "its line", out.as_slice() == TALLY_LINE.as_bytes());
}
