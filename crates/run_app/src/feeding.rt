//! The input in pieces, as a source gives them: a piece is cut into lines, and each line that has ended is answered. Lines
//! that wait may have come in earlier pieces, so what is said of a piece is said of all bytes up to its end.

ghost use Rattle.std.specs.Prelude.{◌≡◌, ◌≤◌, ◌<◌, ◌^◌, ◌+◌, ◌∷◌, ◌++◌, [], ℕ, List, Option, Err, IfErr, IfSome, IfNone, OnOk, length, take, drop};
ghost use Rattle.run_app.specs.Counts.{Moved};
ghost use Rattle.run_app.specs.Kept.{Began, LeftIn};
ghost use Rattle.run_app.specs.Lines.{lines_of, whole_from};
ghost use Rattle.run_app.specs.Machine.{longest, Standing};
ghost use Rattle.run_app.specs.Parts.{Fed, HasNoEnd, NotExtended, PartStops, Stands, is_keep_stop, is_write_stop};

use crate::line::{LONGEST, take_line};
use crate::progress::Progress;
use crate::status::LineStop;
use base_bech32::Form;
use base_io::{Keeper, Sink};
use json::Scratch;
use memchr::memchr;
use std::alloc::Global;

/// Where the first end of a line stands.
pub(crate) fn end_of_line(bytes: &[u8]) -> Option<usize>
    ensures within { IfSome result (λ i. i < length bytes.now) }
    ensures before { IfSome result (λ i. HasNoEnd (take i bytes.now)) }
    ensures end { IfSome result (λ i. drop i bytes.now ≡ 10 ∷ drop (i + 1) bytes.now) }
    ensures none { IfNone result (HasNoEnd bytes.now) }
{
    memchr(b'\n', bytes)
}

/// The bytes from a place on.
pub(crate) fn after(bytes: &[u8], place: usize) -> &[u8]
    requires { place ≤ length bytes.now }
    ensures { result.now ≡ drop place bytes.now }
{
    &bytes[place..]
}

/// Adds bytes to a line of which no end has come.
pub(crate) fn extend(number: u64, line: &mut Vec<u8>, bytes: &[u8]) -> Result<(), LineStop>
    requires short { length line.old.items ≤ longest }
    ensures line { OnOk result (line.new.items ≡ line.old.items ++ bytes.now) }
    ensures short { OnOk result (length line.new.items ≤ longest) }
    ensures err { IfErr result (λ stop. NotExtended stop number line.old.items bytes.now) }
    // That it is too long takes no memory to tell.
    ensures long { longest < length line.old.items + length bytes.now
        → result ≡ Err (LineStop.Long number) }
{
    if bytes.len() > LONGEST - line.len() {
        return Err(LineStop::Long(number));
    }
    match line.extend_from_slice(bytes) {
        Ok(()) => Ok(()),
        Err(_) => Err(LineStop::NoMemory),
    }
}

/// Takes the bytes up to the end of a line, and that end.
fn end_line<K: Sink, D: Keeper>(
    form: Form,
    alloc: Global,
    every: u64,
    scratch: &mut Scratch,
    sink: &mut K,
    keeper: &mut D,
    progress: &mut Progress,
    bytes: &[u8],
) -> Result<(), LineStop>
    requires number { progress.old.number < 2 ^ 63 }
    requires before { HasNoEnd bytes.now }
    requires every { 0 < every }
    requires fed { (b : Began) × (taken : List ℕ) × (end : Standing) × (from : Option (List ℕ))
        × Fed form every b taken end progress.old.number
        progress.old.line.items progress.old.chain progress.old.waiting progress.old.held.items
        from (K.written sink.old)
        (D.rows keeper.old) (D.is_honest keeper.old) (D.may_leave keeper.old) }
    ensures fed { (b : Began) → (taken : List ℕ) → (end : Standing) → (from : Option (List ℕ))
        → Fed form every b taken end progress.old.number
        progress.old.line.items progress.old.chain progress.old.waiting progress.old.held.items
        from (K.written sink.old)
        (D.rows keeper.old) (D.is_honest keeper.old) (D.may_leave keeper.old)
        → OnOk result ((next : Standing)
        × Fed form every b (taken ++ (bytes.now ++ 10 ∷ [])) next progress.new.number
        progress.new.line.items progress.new.chain progress.new.waiting progress.new.held.items
        from (K.written sink.new)
        (D.rows keeper.new) (D.is_honest keeper.new) (D.may_leave keeper.new)) }
    ensures stops { (b : Began) → (taken : List ℕ) → (end : Standing) → (from : Option (List ℕ))
        → Fed form every b taken end progress.old.number
        progress.old.line.items progress.old.chain progress.old.waiting progress.old.held.items
        from (K.written sink.old)
        (D.rows keeper.old) (D.is_honest keeper.old) (D.may_leave keeper.old)
        → IfErr result (PartStops form every b.first
        (LeftIn b (D.rows keeper.new) (D.is_honest keeper.new) (D.may_leave keeper.new))
        (λ lines last. Stands form every b lines last progress.new.number progress.new.chain
        progress.new.waiting progress.new.held.items from (K.written sink.new)
        (D.rows keeper.new) (D.is_honest keeper.new) (D.may_leave keeper.new))
        (λ (more : List ℕ). lines_of ((taken ++ (bytes.now ++ 10 ∷ [])) ++ more))
        (whole_from [] (taken ++ (bytes.now ++ 10 ∷ []))) from (K.written sink.new)) }
    ensures writes { Moved (is_write_stop result) (K.faults sink.old) (K.faults sink.new) }
    ensures keeps { Moved (is_keep_stop result) (D.faults keeper.old) (D.faults keeper.new) }
    ensures honest { D.is_honest keeper.new → D.is_honest keeper.old }
{
    if let Err(stop) = extend(progress.number, &mut progress.line, bytes) {
        return Err(stop);
    }
    if let Err(stop) = take_line(form, alloc, every, scratch, sink, keeper, progress) {
        return Err(stop);
    }
    progress.line.clear();
    Ok(())
}

/// Takes the next bytes of the source: each line that ends in them is answered, and what is behind the last end begins
/// the next.
///
/// # Errors
/// Those of `take_line`, at the first line that is not answered, with its number; and `Long` also where that line has
/// no end yet.
pub(crate) fn feed<K: Sink, D: Keeper>(
    form: Form,
    alloc: Global,
    every: u64,
    scratch: &mut Scratch,
    sink: &mut K,
    keeper: &mut D,
    progress: &mut Progress,
    piece: &[u8],
) -> Result<(), LineStop>
    requires number { progress.old.number + length piece.now < 2 ^ 63 }
    requires every { 0 < every }
    requires fed { (b : Began) × (taken : List ℕ) × (end : Standing) × (from : Option (List ℕ))
        × Fed form every b taken end progress.old.number
        progress.old.line.items progress.old.chain progress.old.waiting progress.old.held.items
        from (K.written sink.old)
        (D.rows keeper.old) (D.is_honest keeper.old) (D.may_leave keeper.old) }
    ensures fed { (b : Began) → (taken : List ℕ) → (end : Standing) → (from : Option (List ℕ))
        → Fed form every b taken end progress.old.number
        progress.old.line.items progress.old.chain progress.old.waiting progress.old.held.items
        from (K.written sink.old)
        (D.rows keeper.old) (D.is_honest keeper.old) (D.may_leave keeper.old)
        → OnOk result ((next : Standing)
        × Fed form every b (taken ++ piece.now) next progress.new.number
        progress.new.line.items progress.new.chain progress.new.waiting progress.new.held.items
        from (K.written sink.new)
        (D.rows keeper.new) (D.is_honest keeper.new) (D.may_leave keeper.new)) }
    ensures stops { (b : Began) → (taken : List ℕ) → (end : Standing) → (from : Option (List ℕ))
        → Fed form every b taken end progress.old.number
        progress.old.line.items progress.old.chain progress.old.waiting progress.old.held.items
        from (K.written sink.old)
        (D.rows keeper.old) (D.is_honest keeper.old) (D.may_leave keeper.old)
        → IfErr result (PartStops form every b.first
        (LeftIn b (D.rows keeper.new) (D.is_honest keeper.new) (D.may_leave keeper.new))
        (λ lines last. Stands form every b lines last progress.new.number progress.new.chain
        progress.new.waiting progress.new.held.items from (K.written sink.new)
        (D.rows keeper.new) (D.is_honest keeper.new) (D.may_leave keeper.new))
        (λ (more : List ℕ). lines_of ((taken ++ piece.now) ++ more))
        (whole_from [] (taken ++ piece.now)) from (K.written sink.new)) }
    ensures writes { Moved (is_write_stop result) (K.faults sink.old) (K.faults sink.new) }
    ensures keeps { Moved (is_keep_stop result) (D.faults keeper.old) (D.faults keeper.new) }
    ensures honest { D.is_honest keeper.new → D.is_honest keeper.old }
{
    let mut rest = piece;
    while let Some(end) = end_of_line(rest) {
        let line = &rest[..end];
        if let Err(stop) = end_line(form, alloc, every, scratch, sink, keeper, progress, line) {
            return Err(stop);
        }
        rest = after(rest, end + 1);
    }
    extend(progress.number, &mut progress.line, rest)
}
