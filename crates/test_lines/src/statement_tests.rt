//! Statements read from lines and written as they were, in either form of addresses, and the lines of answers. Lines that
//! are no statement are rows of `cases/forms.txt`.

use crate::checks::holds;
use base_bech32::Form;
use base_messages::LineFault;
use json::Scratch;
use line_statements::{push_line_of_answer, push_line_of_statement, read_statement};
use mod_statement::Statement;
use std::alloc::Global;
use std::process::Abort;

/// The statement of a delegator of two thirds of a validator's shares, of fees of 1,000 uatom.
const TWO_THIRDS: &str =
    r#"{"delegator":"400000000000000000000000000000000000000b","entries":[{"kind":"started","shares":"2000000.000000000000000000","tokens":"3000000","total":"3000000.000000000000000000"},{"coins":[{"amount":"1000.000000000000000000","denom":"uatom"}],"kind":"allocated","tokens":"3000000"},{"kind":"ended"}],"height":2,"high":[{"amount":"666.666666666666666667","denom":"uatom"}],"kind":"statement","low":[{"amount":"666.666666666666666666","denom":"uatom"}],"ratio":[{"amount":"0.000333333333333333","denom":"uatom"}],"removals":0,"reward":[{"amount":"666.666666666666000000","denom":"uatom"}],"slack":[{"amount":"0.000000000002000668","denom":"uatom"}],"validator":"4000000000000000000000000000000000000001"}"#;

/// The same with addresses as explorers print them.
const SPELLED: &str =
    r#"{"delegator":"cosmos1gqqqqqqqqqqqqqqqqqqqqqqqqqqqqqqtdvv75w","entries":[{"kind":"started","shares":"2000000.000000000000000000","tokens":"3000000","total":"3000000.000000000000000000"},{"coins":[{"amount":"1000.000000000000000000","denom":"uatom"}],"kind":"allocated","tokens":"3000000"},{"kind":"ended"}],"height":2,"high":[{"amount":"666.666666666666666667","denom":"uatom"}],"kind":"statement","low":[{"amount":"666.666666666666666666","denom":"uatom"}],"ratio":[{"amount":"0.000333333333333333","denom":"uatom"}],"removals":0,"reward":[{"amount":"666.666666666666000000","denom":"uatom"}],"slack":[{"amount":"0.000000000002000668","denom":"uatom"}],"validator":"cosmosvaloper1gqqqqqqqqqqqqqqqqqqqqqqqqqqqqqqp9fay4d"}"#;

/// A statement with a slash and a change of shares.
const SLASHED: &str =
    r#"{"delegator":"400000000000000000000000000000000000005f","entries":[{"kind":"started","shares":"20.000000000000000000","tokens":"20","total":"20.000000000000000000"},{"kind":"ended"},{"kind":"ended"},{"kind":"touched"},{"kind":"ended"},{"burned":"6","kind":"slashed","tokens":"20"},{"kind":"ended"}],"height":6,"high":[],"kind":"statement","low":[],"ratio":[],"removals":1,"reward":[],"slack":[],"validator":"400000000000000000000000000000000000005f"}"#;

fn read(alloc: Global, form: Form, line: &str) -> Result<Statement, LineFault> {
    read_statement(form, alloc, &mut Scratch::new(alloc), line.as_bytes())
}

/// Whether what is written of a statement is this line and its end.
fn is_written(
    rt: &(impl Abort + AllocGlobal),
    form: Form,
    statement: &Statement,
    line: &str,
) -> bool {
    let mut out = Vec::new(rt.alloc());
    push_line_of_statement(form, rt.alloc(), &mut out, statement).expect(rt, "memory");
    let Some((last, written)) = out.as_slice().split_last() else {
        return false;
    };
    *last == b'\n' && written == line.as_bytes()
}

#[test]
fn statements_are_written_as_they_were_read(rt: HostRuntime) {
    for (form, line) in [
        (Form::Hex, TWO_THIRDS),
        (Form::Bech32, SPELLED),
        (Form::Hex, SLASHED),
    ] {
        let statement = read(rt.alloc(), form, line).expect(&rt, "a statement");
        holds(&rt, line, is_written(&rt, form, &statement, line));
    }
}

#[test]
fn a_statement_is_spelled_in_either_form(rt: HostRuntime) {
    let statement = read(rt.alloc(), Form::Hex, TWO_THIRDS).expect(&rt, "a statement");
    holds(&rt, "the height", statement.height == 2);
    holds(&rt, "no removals", statement.removals == 0);
    holds(&rt, "three entries", statement.entries.len() == 3);
    holds(
        &rt,
        "spelled",
        is_written(&rt, Form::Bech32, &statement, SPELLED),
    );
}

#[test]
fn answers_are_written(rt: HostRuntime) {
    let mut out = Vec::new(rt.alloc());
    push_line_of_answer(rt.alloc(), &mut out, 1, true).expect(&rt, "memory");
    push_line_of_answer(rt.alloc(), &mut out, 20, false).expect(&rt, "memory");
    let lines =
        "{\"kind\":\"checked\",\"line\":1,\"yes\":true}\n{\"kind\":\"checked\",\"line\":20,\"yes\":false}\n";
    holds(&rt, "two answers", out.as_slice() == lines.as_bytes());
}
