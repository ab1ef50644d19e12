//! What a line gives, by its tape where that is plain, else by its tree.
ghost use Rattle.std.specs.Prelude.{IfSome};
ghost use Rattle.serde_json.specs.View.{view};
ghost use Rattle.line_json.specs.Reading.{Gives, tree_of, value_of};

use crate::nested::FromTree;
use crate::place::Place;
use crate::plain::is_plain;
use base_bech32::Form;
use base_messages::LineFault;
use json::{Scratch, Tape};
use serde_json::Value;
use std::alloc::Global;

/// The tree that `serde_json` reads from a line.
fn tree_of(alloc: Global, line: &[u8]) -> Result<Value, LineFault>
    ensures { Gives view result (tree_of line.now) }
{
    match Value::from_slice(alloc, line) {
        Ok(value) => Ok(value),
        Err(e) => {
            if e.is_memory() {
                Err(LineFault::NoMemory)
            } else {
                Err(LineFault::NotJson)
            }
        }
    }
}

/// What the tree of a line gives.
fn read_by_tree<T: FromTree>(form: Form, alloc: Global, line: &[u8]) -> Result<T, LineFault>
    ensures { Gives (λ value. value) result (value_of (T.reading form) line.now) }
{
    let value = tree_of(alloc, line)?;
    T::from_tree(form, alloc, &&value)
}

/// What the tape of a line gives, where that is plain.
fn read_by_tape<T: FromTree>(
    form: Form,
    alloc: Global,
    scratch: &mut Scratch,
    text: &str,
) -> Option<Result<T, LineFault>>
    ensures { IfSome result (λ reading. Gives (λ value. value) reading (value_of (T.reading form) text.now)) }
{
    let tape = match Tape::parse(text, scratch, Vec::new(alloc)) {
        Ok(tape) => tape,
        Err(_) => return None,
    };
    if !is_plain(tape.nodes()) {
        return None;
    }
    let place = Place::of(tape.root());
    Some(T::from_tree(form, alloc, &place))
}

/// What a line gives, with its addresses in this form: by its tape, and by its tree where the tape is not plain. The scratch
/// is used by the tape.
///
/// # Errors
/// `NotJson`, exactly where `serde_json` reads no value from the line for another cause than memory; the error of the
/// form, where the tree is not of it; and `NoMemory`.
pub fn read_line<T: FromTree>(
    form: Form,
    alloc: Global,
    scratch: &mut Scratch,
    line: &[u8],
) -> Result<T, LineFault>
    ensures { Gives (λ value. value) result (value_of (T.reading form) line.now) }
{
    if let Ok(text) = std::str::from_utf8(line) {
        if let Some(reading) = read_by_tape(form, alloc, scratch, text) {
            return reading;
        }
    }
    read_by_tree(form, alloc, line)
}
