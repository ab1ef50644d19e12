//! A run of three blocks of which nothing fails, and what each front of its lines leaves.

ghost use Rattle.std.specs.Prelude.{map};
ghost use Rattle.base_io.specs.Changes.{pair_of, Rises};

use crate::old::old_rows;
use base_io::{Keeper, Row, SureKeeper, SureSink, SureSource};
use run_app::{InputFault, Status, run};
use std::process::Abort;

/// The lines of the input: a genesis and three blocks.
pub(crate) const LINES: u32 = 4;

/// The place of the whole output among the texts.
pub(crate) const WHOLE: u32 = 5;

/// Where runs begin: behind how many lines, and whether the rows are in the first format there; and
/// whether they keep what they replace. Where there are no lines it is a replay, else it resumes.
#[derive(Clone, Copy)]
pub(crate) struct Start {
    pub(crate) lines: u32,
    pub(crate) is_old: bool,
    pub(crate) is_kept: bool,
}

/// A replay.
pub(crate) const NEW: Start = Start {
    lines: 0,
    is_old: false,
    is_kept: false,
};

/// A run that goes on.
pub(crate) const ON: Start = Start {
    lines: 2,
    is_old: false,
    is_kept: false,
};

/// A run that goes on from rows of the first format.
pub(crate) const OLD: Start = Start {
    lines: 2,
    is_old: true,
    is_kept: false,
};

/// A replay that keeps what it replaces.
pub(crate) const KEPT: Start = Start {
    lines: 0,
    is_old: false,
    is_kept: true,
};

/// A run that goes on, and keeps what it replaces.
pub(crate) const KEPT_ON: Start = Start {
    lines: 2,
    is_old: false,
    is_kept: true,
};

/// A copy of bytes.
pub(crate) fn copied(rt: &(impl Abort + AllocGlobal), bytes: &[u8]) -> Vec<u8> {
    Vec::from_slice(rt.alloc(), bytes).expect(rt, "memory")
}

/// The words of a command.
fn words(rt: &(impl Abort + AllocGlobal), command: &[&str]) -> Vec<String> {
    let mut words = Vec::new(rt.alloc());
    for word in command {
        let word = String::from_str(rt.alloc(), word).expect(rt, "memory");
        match words.push(word) {
            Ok(()) => {}
            Err(_) => panic!(rt; "no memory"),
        }
    }
    words
}

/// What a command writes, and the rows that it leaves where there were none. Nothing fails, and it ends as it is to end.
fn left(
    rt: &(impl Abort + AllocGlobal),
    command: &[&str],
    input: Vec<u8>,
    wanted: Status,
) -> (Vec<u8>, Vec<Row>)
    ensures { Rises (map pair_of result.1.items) }
{
    let mut source = SureSource::new(input, 4096);
    let mut sink = SureSink::new(rt.alloc());
    let mut keeper = SureKeeper::new(rt.alloc(), Vec::new(rt.alloc()));
    let words = words(rt, command);
    let status = run(rt.alloc(), &words, &mut source, &mut sink, &mut keeper);
    if status != wanted {
        panic!(rt; "a run of which nothing fails ends otherwise");
    }
    (
        copied(rt, sink.bytes()),
        keeper.load().expect(rt, "the rows"),
    )
}

/// The input, as it is drawn.
fn input(rt: &(impl Abort + AllocGlobal)) -> Vec<u8> {
    left(rt, &["gen", "7", "3"], Vec::new(rt.alloc()), Status::Done).0
}

/// The words of a run that goes on behind the first lines: a replay where there are none, else it
/// resumes. It may keep what it replaces.
pub(crate) fn command_behind(
    rt: &(impl Abort + AllocGlobal),
    lines: u32,
    is_kept: bool,
) -> Vec<String> {
    let command = if lines == 0 { "replay" } else { "resume" };
    if is_kept {
        words(rt, &["keep", command])
    } else {
        words(rt, &[command])
    }
}

/// The words of a replay that commits at each Nth block.
pub(crate) fn grouped_command(rt: &(impl Abort + AllocGlobal), every: &str) -> Vec<String> {
    words(rt, &["every", every, "replay"])
}

/// Whether a key is of no row of a history.
fn is_visible(key: &[u8]) -> bool {
    match key {
        [first, ..] => *first != 0x60 && *first != 0x61,
        [] => true,
    }
}

/// Copies of the rows that are of no history.
pub(crate) fn visible(rt: &(impl Abort + AllocGlobal), rows: &[Row]) -> Vec<Row> {
    let mut seen = Vec::new(rt.alloc());
    for row in rows {
        if is_visible(row.key.as_slice()) {
            let key = copied(rt, row.key.as_slice());
            let value = copied(rt, row.value.as_slice());
            put(rt, &mut seen, Row { key, value });
        }
    }
    seen
}

/// How many lines end within the first bytes of a text.
pub(crate) fn lines_within(text: &[u8], bytes: usize) -> u32 {
    let mut lines = 0u32;
    for byte in text.iter().take(bytes) {
        if *byte == b'\n' {
            lines = lines.saturating_add(1);
        }
    }
    lines
}

/// The first lines of a text, or what is behind them.
fn part(rt: &(impl Abort + AllocGlobal), text: &[u8], lines: u32, is_behind: bool) -> Vec<u8> {
    let mut part = Vec::new(rt.alloc());
    let mut ended = 0u32;
    for byte in text {
        if (ended < lines) != is_behind {
            part.push(*byte).expect(rt, "memory");
        }
        if *byte == b'\n' {
            ended = ended.saturating_add(1);
        }
    }
    part
}

/// What is written of the first lines of an input, and the rows behind them: a replay of them, up to a line which is cut.
fn behind(rt: &(impl Abort + AllocGlobal), input: &[u8], lines: u32) -> (Vec<u8>, Vec<Row>)
    ensures { Rises (map pair_of result.1.items) }
{
    let mut cut = part(rt, input, lines, false);
    cut.push(b'{').expect(rt, "memory");
    let status = Status::BadInput(u64::from(lines).saturating_add(1), InputFault::NotJson);
    left(rt, &["replay"], cut, status)
}

/// What is written of the lines behind which runs begin, and the rows on which they begin.
pub(crate) fn begun(
    rt: &(impl Abort + AllocGlobal),
    fronts: &Fronts,
    start: Start,
) -> (Vec<u8>, Vec<Row>)
    ensures { Rises (map pair_of result.1.items) }
{
    let (text, rows) = behind(rt, &fronts.input, start.lines);
    if start.is_old {
        (text, old_rows(rt, &rows))
    } else {
        (text, rows)
    }
}

/// An input, and what each front of its lines leaves.
#[derive(Drop)]
pub(crate) struct Fronts {
    pub(crate) input: Vec<u8>,
    /// What is written of so many lines; behind all lines, the whole output.
    texts: Vec<Vec<u8>>,
    /// The rows behind so many lines.
    rows: Vec<Vec<Row>>,
}

/// Puts a value at the end of a list.
pub(crate) fn put<T: Drop>(rt: &impl Abort, list: &mut Vec<T>, value: T) {
    match list.push(value) {
        Ok(()) => {}
        Err(_) => panic!(rt; "no memory"),
    }
}

/// The fronts of the input of these tests.
pub(crate) fn make_fronts(rt: &(impl Abort + AllocGlobal)) -> Fronts {
    let input = input(rt);
    let mut texts = Vec::new(rt.alloc());
    let mut rows = Vec::new(rt.alloc());
    for lines in 0..LINES + 1 {
        let (text, left) = behind(rt, &input, lines);
        put(rt, &mut texts, text);
        put(rt, &mut rows, left);
    }
    let whole = copied(rt, &input);
    put(rt, &mut texts, left(rt, &["replay"], whole, Status::Done).0);
    Fronts { input, texts, rows }
}

/// What is written of so many lines, or of all with the report.
pub(crate) fn text_of<'a>(rt: &impl Abort, fronts: &'a Fronts, lines: u32) -> &'a [u8] {
    let text = fronts.texts.get(lines as usize);
    text.expect(rt, "a text").as_slice()
}

/// Whether these are the rows behind so many lines.
pub(crate) fn are_behind(rt: &impl Abort, fronts: &Fronts, lines: u32, rows: &[Row]) -> bool {
    let wanted = fronts.rows.get(lines as usize);
    are_same(wanted.expect(rt, "rows"), rows)
}

/// The lines of the input behind the first ones.
pub(crate) fn input_behind(
    rt: &(impl Abort + AllocGlobal),
    fronts: &Fronts,
    lines: u32,
) -> Vec<u8> {
    part(rt, &fronts.input, lines, true)
}

/// Whether two lists of rows are the same.
pub(crate) fn are_same(one: &[Row], other: &[Row]) -> bool {
    one.len() == other.len()
        && one.iter().zip(other).all(|(row, pair)| {
            row.key.as_slice() == pair.key.as_slice()
                && row.value.as_slice() == pair.value.as_slice()
        })
}
