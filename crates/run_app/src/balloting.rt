//! The ballots of an input, as a source gives it in pieces: a piece is cut into lines, and each line that has ended is a
//! ballot, which is cast.

ghost use Rattle.std.specs.Prelude.{◌≡◌, ◌≤◌, ◌<◌, ◌^◌, ◌+◌, ◌∷◌, ◌++◌, [], List, ℕ, IfErr, OnOk, IsErrOf, length};
ghost use Rattle.base_io.specs.Outside.{Rose};
ghost use Rattle.run_app.specs.Ballots.{AllAreKept, AreKept, AreTaken, AreUncounted, IsCast, IsNone, IsOfBallots, IsUncounted, StopsIn, UnlessUnread, ballot_at};
ghost use Rattle.run_app.specs.Lines.{lines_of};
ghost use Rattle.run_app.specs.Machine.{longest};
ghost use Rattle.run_app.specs.Outcome.{most_bytes};
ghost use Rattle.run_app.specs.Parts.{HasNoEnd};

use crate::feeding::{after, end_of_line, extend};
use crate::line::{LONGEST, not_read};
use crate::running::{MOST, PIECE, room};
use crate::status::{LimitKind, LineStop, Status, status_of};
use base_bech32::Form;
use base_io::{Source, read_at_most};
use json::Scratch;
use line_ballots::read_ballot;
use mod_tally::Ballots;
use std::alloc::Global;

/// Where the reading of ballots stands: the number of the next line, what has come of it, and the ballots of the lines
/// before it. The scratch is kept from line to line for its memory alone.
#[derive(Drop)]
pub(crate) struct Balloting {
    pub(crate) number: u64,
    pub(crate) line: Vec<u8>,
    pub(crate) ballots: Ballots,
    pub(crate) scratch: Scratch,
}

/// Casts the ballot that the line of this number spells.
fn cast_line(
    form: Form,
    alloc: Global,
    scratch: &mut Scratch,
    ballots: &mut Ballots,
    number: u64,
    line: &[u8],
) -> Result<(), LineStop>
    requires short { length line.now ≤ longest }
    ensures cast { OnOk result (IsCast (ballot_at form number line.now) ballots.old ballots.new) }
    ensures stop { IfErr result (λ stop. IsNone stop (ballot_at form number line.now)) }
{
    let ballot = match read_ballot(form, alloc, scratch, line) {
        Ok(ballot) => ballot,
        Err(fault) => return Err(not_read(number, fault)),
    };
    match ballots.cast(ballot.voter, ballot.choice) {
        Ok(()) => Ok(()),
        Err(_) => Err(LineStop::NoMemory),
    }
}

/// Takes the bytes up to the end of a line, and that end.
fn end_ballot(
    form: Form,
    alloc: Global,
    balloting: &mut Balloting,
    bytes: &[u8],
) -> Result<(), LineStop>
    requires number { balloting.old.number < 2 ^ 63 }
    requires short { length balloting.old.line.items ≤ longest }
    requires before { HasNoEnd bytes.now }
    ensures taken { (taken : List ℕ) → AreTaken form taken balloting.old.number
        balloting.old.line.items balloting.old.ballots
        → OnOk result (AreTaken form (taken ++ (bytes.now ++ 10 ∷ [])) balloting.new.number
        balloting.new.line.items balloting.new.ballots) }
    ensures stop { (taken : List ℕ) → AreTaken form taken balloting.old.number
        balloting.old.line.items balloting.old.ballots
        → IfErr result (λ stop. StopsIn form stop (taken ++ (bytes.now ++ 10 ∷ []))) }
{
    if let Err(stop) = extend(balloting.number, &mut balloting.line, bytes) {
        return Err(stop);
    }
    if let Err(stop) = cast_line(
        form,
        alloc,
        &mut balloting.scratch,
        &mut balloting.ballots,
        balloting.number,
        &balloting.line,
    ) {
        return Err(stop);
    }
    balloting.line.clear();
    balloting.number += 1;
    Ok(())
}

/// Takes the next bytes of the source: the ballot of each line that ends in them is cast, and what is behind the last end
/// begins the next.
fn feed_ballots(
    form: Form,
    alloc: Global,
    balloting: &mut Balloting,
    piece: &[u8],
) -> Result<(), LineStop>
    requires number { balloting.old.number + length piece.now < 2 ^ 63 }
    requires taken { (taken : List ℕ) × AreTaken form taken balloting.old.number
        balloting.old.line.items balloting.old.ballots }
    ensures taken { (taken : List ℕ) → AreTaken form taken balloting.old.number
        balloting.old.line.items balloting.old.ballots
        → OnOk result (AreTaken form (taken ++ piece.now) balloting.new.number
        balloting.new.line.items balloting.new.ballots) }
    ensures stop { (taken : List ℕ) → AreTaken form taken balloting.old.number
        balloting.old.line.items balloting.old.ballots
        → IfErr result (λ stop. StopsIn form stop (taken ++ piece.now)) }
{
    let mut rest = piece;
    while let Some(end) = end_of_line(rest) {
        if let Err(stop) = end_ballot(form, alloc, balloting, &rest[..end]) {
            return Err(stop);
        }
        rest = after(rest, end + 1);
    }
    extend(balloting.number, &mut balloting.line, rest)
}

/// The input has ended: the ballot of a last line that came without its end is cast, where there is one. The error is how
/// the run ends whose last line is no ballot.
fn last_ballot(form: Form, alloc: Global, balloting: &mut Balloting) -> Result<(), Status>
    requires short { length balloting.old.line.items ≤ longest }
    ensures kept { (taken : List ℕ) → AreTaken form taken balloting.old.number
        balloting.old.line.items balloting.old.ballots
        → OnOk result (AreKept form (lines_of taken) balloting.new.ballots) }
    ensures uncounted { (taken : List ℕ) → length taken ≤ most_bytes
        → AreTaken form taken balloting.old.number balloting.old.line.items balloting.old.ballots
        → IfErr result (λ status. IsUncounted form status taken []) }
    ensures of_ballots { IfErr result IsOfBallots }
    ensures read { IsErrOf result Status.ReadFault → ⊥ }
{
    if balloting.line.is_empty() {
        return Ok(());
    }
    match cast_line(
        form,
        alloc,
        &mut balloting.scratch,
        &mut balloting.ballots,
        balloting.number,
        &balloting.line,
    ) {
        Ok(()) => Ok(()),
        Err(stop) => Err(status_of(stop)),
    }
}

/// Takes the source to its end, and casts the ballot of each line. What was cast stays the caller's, so that no way out of
/// the loop has ballots to let go of.
///
/// The error is how a run ends at the first line that is no ballot, at a limit, where the source failed, or where memory
/// is wanting.
pub(crate) fn read_ballots<S: Source>(
    form: Form,
    alloc: Global,
    source: &mut S,
    balloting: &mut Balloting,
) -> Result<(), Status>
    requires number { balloting.old.number ≡ 1 }
    requires line { balloting.old.line.items ≡ [] }
    requires none { balloting.old.ballots ≡ [] }
    ensures kept { OnOk result
        (AllAreKept form (S.left source.old) (S.left source.new) balloting.new.ballots) }
    ensures uncounted { IfErr result (AreUncounted form (S.left source.old) (S.left source.new)) }
    ensures of_ballots { IfErr result IsOfBallots }
    ensures cause { IsErrOf result Status.ReadFault
        → Rose (S.faults source.old) (S.faults source.new) }
    ensures quiet { UnlessUnread result (S.faults source.new ≡ S.faults source.old) }
{
    let mut piece = [0u8; PIECE];
    let mut taken = 0u64;
    while taken < MOST {
        match read_at_most(source, &mut piece, room(taken)) {
            Err(_) => return Err(Status::ReadFault),
            Ok(0) => return last_ballot(form, alloc, balloting),
            Ok(n) => {
                if let Err(stop) = feed_ballots(form, alloc, balloting, &piece[..n]) {
                    return Err(status_of(stop));
                }
                taken += n as u64;
            }
        }
    }
    match read_at_most(source, &mut piece, 1) {
        Err(_) => Err(Status::ReadFault),
        Ok(0) => last_ballot(form, alloc, balloting),
        Ok(_) => {
            if piece[0] != b'\n' && balloting.line.len() == LONGEST {
                Err(Status::Limit(balloting.number, LimitKind::Line))
            } else {
                Err(Status::Limit(balloting.number, LimitKind::Input))
            }
        }
    }
}
