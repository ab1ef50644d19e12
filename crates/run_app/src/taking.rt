//! The lines of an input, as a source gives it in pieces: a piece is cut into lines, and each line that has ended is taken.
//! What takes them is any value that can; what it leads to is the caller's.

ghost use Rattle.std.specs.Prelude.{◌≡◌, ◌≤◌, ◌<◌, ◌^◌, ◌+◌, ◌∷◌, ◌++◌, [], List, ℕ, Option, IfErr, OnOk, IsErrOf, length};
ghost use Rattle.base_bech32.specs.declared.form.Form.{Form};
ghost use Rattle.base_io.specs.Outside.{Rose};
ghost use Rattle.run_app.specs.declared.status.Status.{Status};
ghost use Rattle.run_app.specs.Ballots.{UnlessUnread};
ghost use Rattle.run_app.specs.Lines.{lines_of};
ghost use Rattle.run_app.specs.Machine.{longest};
ghost use Rattle.run_app.specs.Outcome.{most_bytes};
ghost use Rattle.run_app.specs.Parts.{HasNoEnd};
ghost use Rattle.run_app.specs.Taking.{IsFed, IsUntaken, Leads, MayEnd, MayStop, StopsSo, TakesAll, TakesPart, UnlessUnwritten};

use crate::feeding::{after, end_of_line, extend};
use crate::line::LONGEST;
use crate::running::{MOST, PIECE, room};
use crate::status::{LimitKind, Status, status_of};
use base_bech32::Form;
use base_io::{Sink, Source, read_at_most};
use std::alloc::Global;

/// What takes the lines of an input, one after another, and may write what it makes of each.
pub(crate) trait TakesLines: Drop {
    // the line of this number leads from one value, and what was written, to others
    ghost takes: { Form → ℕ → List ℕ → Self × Option (List ℕ) → Self × Option (List ℕ) → Type 0 };

    // or it stops the run so, and leaves these
    ghost stops: { Form → Status → ℕ → List ℕ → Self × Option (List ℕ) → Self × Option (List ℕ)
        → Type 0 };

    /// Takes the line of this number.
    fn take<K: Sink>(
        &mut self,
        form: Form,
        alloc: Global,
        sink: &mut K,
        number: u64,
        line: &[u8],
    ) -> Result<(), Status>
        requires short { length line.now ≤ longest }
        ensures takes { OnOk result (takes form number line.now
            (self.old, K.written sink.old) (self.new, K.written sink.new)) }
        ensures stops { IfErr result (λ status. stops form status number line.now
            (self.old, K.written sink.old) (self.new, K.written sink.new)) }
        ensures may { IfErr result MayStop }
        ensures later { K.faults sink.old ≤ K.faults sink.new }
        ensures cause { IsErrOf result Status.WriteFault
            → Rose (K.faults sink.old) (K.faults sink.new) }
        ensures quiet { UnlessUnwritten result (K.faults sink.new ≡ K.faults sink.old) };
}

/// Where the reading of lines stands: the number of the next line, and what has come of it.
#[derive(Drop)]
pub(crate) struct Reading {
    pub(crate) number: u64,
    pub(crate) line: Vec<u8>,
}

/// Takes the bytes up to the end of a line, and that end.
fn end_line<T: TakesLines, K: Sink>(
    form: Form,
    alloc: Global,
    taker: &mut T,
    sink: &mut K,
    reading: &mut Reading,
    bytes: &[u8],
) -> Result<(), Status>
    requires number { reading.old.number < 2 ^ 63 }
    requires short { length reading.old.line.items ≤ longest }
    requires before { HasNoEnd bytes.now }
    ensures fed { (x : T × Option (List ℕ)) → (t : List ℕ) → IsFed (T.takes form) x t
        reading.old.number reading.old.line.items (taker.old, K.written sink.old)
        → OnOk result (IsFed (T.takes form) x (t ++ (bytes.now ++ 10 ∷ []))
        reading.new.number reading.new.line.items (taker.new, K.written sink.new)) }
    ensures stop { (x : T × Option (List ℕ)) → (t : List ℕ) → IsFed (T.takes form) x t
        reading.old.number reading.old.line.items (taker.old, K.written sink.old)
        → IfErr result (λ status. StopsSo (T.takes form) (T.stops form) status
        (t ++ (bytes.now ++ 10 ∷ [])) x (taker.new, K.written sink.new)) }
    ensures may { IfErr result MayStop }
    ensures later { K.faults sink.old ≤ K.faults sink.new }
    ensures cause { IsErrOf result Status.WriteFault
        → Rose (K.faults sink.old) (K.faults sink.new) }
    ensures quiet { UnlessUnwritten result (K.faults sink.new ≡ K.faults sink.old) }
{
    if let Err(stop) = extend(reading.number, &mut reading.line, bytes) {
        return Err(status_of(stop));
    }
    if let Err(status) = taker.take(form, alloc, sink, reading.number, &reading.line) {
        return Err(status);
    }
    reading.line.clear();
    reading.number += 1;
    Ok(())
}

/// Takes the next bytes of the source: each line that ends in them is taken, and what is behind the last end begins the next.
fn feed_lines<T: TakesLines, K: Sink>(
    form: Form,
    alloc: Global,
    taker: &mut T,
    sink: &mut K,
    reading: &mut Reading,
    piece: &[u8],
) -> Result<(), Status>
    requires number { reading.old.number + length piece.now < 2 ^ 63 }
    requires fed { (x : T × Option (List ℕ)) × (t : List ℕ) × IsFed (T.takes form) x t
        reading.old.number reading.old.line.items (taker.old, K.written sink.old) }
    ensures fed { (x : T × Option (List ℕ)) → (t : List ℕ) → IsFed (T.takes form) x t
        reading.old.number reading.old.line.items (taker.old, K.written sink.old)
        → OnOk result (IsFed (T.takes form) x (t ++ piece.now)
        reading.new.number reading.new.line.items (taker.new, K.written sink.new)) }
    ensures stop { (x : T × Option (List ℕ)) → (t : List ℕ) → IsFed (T.takes form) x t
        reading.old.number reading.old.line.items (taker.old, K.written sink.old)
        → IfErr result (λ status. StopsSo (T.takes form) (T.stops form) status
        (t ++ piece.now) x (taker.new, K.written sink.new)) }
    ensures may { IfErr result MayStop }
    ensures later { K.faults sink.old ≤ K.faults sink.new }
    ensures cause { IsErrOf result Status.WriteFault
        → Rose (K.faults sink.old) (K.faults sink.new) }
    ensures quiet { UnlessUnwritten result (K.faults sink.new ≡ K.faults sink.old) }
{
    let mut rest = piece;
    while let Some(end) = end_of_line(rest) {
        if let Err(status) = end_line(form, alloc, taker, sink, reading, &rest[..end]) {
            return Err(status);
        }
        rest = after(rest, end + 1);
    }
    match extend(reading.number, &mut reading.line, rest) {
        Ok(()) => Ok(()),
        Err(stop) => Err(status_of(stop)),
    }
}

/// The input has ended: a last line that came without its end is taken, where there is one.
fn last_line<T: TakesLines, K: Sink>(
    form: Form,
    alloc: Global,
    taker: &mut T,
    sink: &mut K,
    reading: &mut Reading,
) -> Result<(), Status>
    requires short { length reading.old.line.items ≤ longest }
    ensures all { (x : T × Option (List ℕ)) → (t : List ℕ) → IsFed (T.takes form) x t
        reading.old.number reading.old.line.items (taker.old, K.written sink.old)
        → OnOk result
        (Leads (T.takes form) 1 (lines_of t) x (taker.new, K.written sink.new)) }
    ensures part { (x : T × Option (List ℕ)) → (t : List ℕ) → length t ≤ most_bytes
        → IsFed (T.takes form) x t
        reading.old.number reading.old.line.items (taker.old, K.written sink.old)
        → IfErr result (λ status. IsUntaken (T.takes form) (T.stops form) status t []
        x (taker.new, K.written sink.new)) }
    ensures may { IfErr result MayStop }
    ensures later { K.faults sink.old ≤ K.faults sink.new }
    ensures cause { IsErrOf result Status.WriteFault
        → Rose (K.faults sink.old) (K.faults sink.new) }
    ensures quiet { UnlessUnwritten result (K.faults sink.new ≡ K.faults sink.old) }
{
    if reading.line.is_empty() {
        return Ok(());
    }
    taker.take(form, alloc, sink, reading.number, &reading.line)
}

/// Takes the source to its end, and each of its lines. What was led on stays the caller's, so that no way out of the loop
/// has anything to let go of.
///
/// The error is how a run ends at the first line that stops it, at a limit, where the source failed, or where memory is
/// wanting.
pub(crate) fn take_lines<S: Source, T: TakesLines, K: Sink>(
    form: Form,
    alloc: Global,
    source: &mut S,
    taker: &mut T,
    sink: &mut K,
    reading: &mut Reading,
) -> Result<(), Status>
    requires number { reading.old.number ≡ 1 }
    requires line { reading.old.line.items ≡ [] }
    ensures all { OnOk result (TakesAll (T.takes form) (S.left source.old) (S.left source.new)
        (taker.old, K.written sink.old) (taker.new, K.written sink.new)) }
    ensures part { IfErr result (λ status. TakesPart (T.takes form) (T.stops form) status
        (S.left source.old) (S.left source.new)
        (taker.old, K.written sink.old) (taker.new, K.written sink.new)) }
    ensures may { IfErr result MayEnd }
    ensures read_cause { IsErrOf result Status.ReadFault
        → Rose (S.faults source.old) (S.faults source.new) }
    ensures write_later { K.faults sink.old ≤ K.faults sink.new }
    ensures write_cause { IsErrOf result Status.WriteFault
        → Rose (K.faults sink.old) (K.faults sink.new) }
    ensures read_quiet { UnlessUnread result (S.faults source.new ≡ S.faults source.old) }
    ensures write_quiet { UnlessUnwritten result (K.faults sink.new ≡ K.faults sink.old) }
{
    let mut piece = [0u8; PIECE];
    let mut taken = 0u64;
    while taken < MOST {
        match read_at_most(source, &mut piece, room(taken)) {
            Err(_) => return Err(Status::ReadFault),
            Ok(0) => return last_line(form, alloc, taker, sink, reading),
            Ok(n) => {
                if let Err(status) = feed_lines(form, alloc, taker, sink, reading, &piece[..n]) {
                    return Err(status);
                }
                taken += n as u64;
            }
        }
    }
    match read_at_most(source, &mut piece, 1) {
        Err(_) => Err(Status::ReadFault),
        Ok(0) => last_line(form, alloc, taker, sink, reading),
        Ok(_) => {
            if piece[0] != b'\n' && reading.line.len() == LONGEST {
                Err(Status::Limit(reading.number, LimitKind::Line))
            } else {
                Err(Status::Limit(reading.number, LimitKind::Input))
            }
        }
    }
}
