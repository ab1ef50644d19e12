//! The lines of how transactions ended. Members stand in ascending order of their names.
ghost use Rattle.std.specs.Prelude.{◌≡◌, ◌++◌, [], ◌∷◌, codes, IfErr, OnOk};
ghost use Rattle.base_roles.specs.Refusals.{refusal_number};
ghost use Rattle.line_json.specs.Line.{line_of, told_at};
ghost use Rattle.line_json.specs.Outcomes.{outcome_data, refused_members};
ghost use Rattle.line_json.specs.Values.{count_data};

use crate::pieces::push_pieces;
use crate::told::Told;
use crate::writing::push_line;
use base_decimals::Over;
use base_messages::{LineFault, Outcome};
use base_roles::Refusal;
use base_types::Moment;
use std::alloc::Global;

fn accepted(alloc: Global, out: &mut Vec<u8>, height: u64, place: usize) -> Result<(), LineFault>
    ensures ok { OnOk result (out.new.items ≡ out.old.items
        ++ line_of (outcome_data height place Outcome.Accepted)) }
    ensures fault { IfErr result (λ fault. fault ≡ LineFault.NoMemory) }
{
    let pieces = [
        ("{\"height\":", Told::Count(height)),
        (",\"kind\":\"accepted\",\"tx\":", Told::Count(place as u64)),
    ];
    push_pieces(alloc, out, &pieces, "}")
}

fn unpaid(alloc: Global, out: &mut Vec<u8>, height: u64, place: usize) -> Result<(), LineFault>
    ensures ok { OnOk result (out.new.items ≡ out.old.items
        ++ line_of (outcome_data height place Outcome.FeeUnpaid)) }
    ensures fault { IfErr result (λ fault. fault ≡ LineFault.NoMemory) }
{
    let members = [
        ("height", Told::Count(height)),
        ("kind", Told::Word("refused")),
        ("number", Told::Number(Refusal::FeeUnpaid)),
        ("tx", Told::Count(place as u64)),
    ];
    push_line(alloc, out, &members)
}

/// A message that was refused for a reason of which the number tells all.
fn refused(
    alloc: Global,
    out: &mut Vec<u8>,
    height: u64,
    place: usize,
    message: usize,
    reason: Refusal,
) -> Result<(), LineFault>
    ensures ok { OnOk result (out.new.items ≡ out.old.items ++ line_of
        (told_at height (codes "refused")
        (refused_members place message (refusal_number reason) []))) }
    ensures fault { IfErr result (λ fault. fault ≡ LineFault.NoMemory) }
{
    let pieces = [
        ("{\"height\":", Told::Count(height)),
        (
            ",\"kind\":\"refused\",\"msg\":",
            Told::Count(message as u64),
        ),
        (",\"number\":", Told::Number(reason)),
        (",\"tx\":", Told::Count(place as u64)),
    ];
    push_pieces(alloc, out, &pieces, "}")
}

/// A message that was refused because a validator stays jailed.
fn still_jailed(
    alloc: Global,
    out: &mut Vec<u8>,
    height: u64,
    place: usize,
    message: usize,
    until: Moment,
) -> Result<(), LineFault>
    ensures ok { OnOk result (out.new.items ≡ out.old.items
        ++ line_of (outcome_data height place
        (Outcome.Refused message (Refusal.StillJailed until)))) }
    ensures fault { IfErr result (λ fault. fault ≡ LineFault.NoMemory) }
{
    let members = [
        ("height", Told::Count(height)),
        ("kind", Told::Word("refused")),
        ("msg", Told::Count(message as u64)),
        ("number", Told::Number(Refusal::StillJailed(until))),
        ("tx", Told::Count(place as u64)),
        ("until", Told::Moment(until)),
    ];
    push_line(alloc, out, &members)
}

/// A message that was refused because a result would be past the limit.
fn overflowed(
    alloc: Global,
    out: &mut Vec<u8>,
    height: u64,
    place: usize,
    message: usize,
    over: Over,
) -> Result<(), LineFault>
    ensures ok { OnOk result (out.new.items ≡ out.old.items
        ++ line_of (outcome_data height place (Outcome.Refused message (Refusal.Overflow over)))) }
    ensures fault { IfErr result (λ fault. fault ≡ LineFault.NoMemory) }
{
    let members = [
        ("a", Told::Amount(over.a)),
        ("b", Told::Amount(over.b)),
        ("c", Told::Amount(over.c)),
        ("height", Told::Count(height)),
        ("kind", Told::Word("refused")),
        ("msg", Told::Count(message as u64)),
        ("number", Told::Number(Refusal::Overflow(over))),
        ("over", Told::Over(over.kind)),
        ("tx", Told::Count(place as u64)),
    ];
    push_line(alloc, out, &members)
}

/// A message that was refused for the parameter of this number.
fn of_parameter(
    alloc: Global,
    out: &mut Vec<u8>,
    height: u64,
    place: usize,
    message: usize,
    reason: Refusal,
    number: u16,
) -> Result<(), LineFault>
    ensures ok { OnOk result (out.new.items ≡ out.old.items ++ line_of
        (told_at height (codes "refused")
        (refused_members place message (refusal_number reason)
        ((codes "member", count_data number) ∷ [])))) }
    ensures fault { IfErr result (λ fault. fault ≡ LineFault.NoMemory) }
{
    let members = [
        ("height", Told::Count(height)),
        ("kind", Told::Word("refused")),
        ("member", Told::Count(number as u64)),
        ("msg", Told::Count(message as u64)),
        ("number", Told::Number(reason)),
        ("tx", Told::Count(place as u64)),
    ];
    push_line(alloc, out, &members)
}

/// Appends the line of a message that was refused for a reason.
fn push_refused(
    alloc: Global,
    out: &mut Vec<u8>,
    height: u64,
    place: usize,
    message: usize,
    reason: Refusal,
) -> Result<(), LineFault>
    ensures ok { OnOk result (out.new.items ≡ out.old.items
        ++ line_of (outcome_data height place (Outcome.Refused message reason))) }
    ensures fault { IfErr result (λ fault. fault ≡ LineFault.NoMemory) }
{
    match reason {
        Refusal::StillJailed(until) => still_jailed(alloc, out, height, place, message, until),
        Refusal::Overflow(over) => overflowed(alloc, out, height, place, message, over),
        Refusal::ParamRange(number) => {
            of_parameter(alloc, out, height, place, message, reason, number)
        }
        Refusal::ParamFixed(number) => {
            of_parameter(alloc, out, height, place, message, reason, number)
        }
        _ => refused(alloc, out, height, place, message, reason),
    }
}

/// Appends the line of how the transaction at this place of a block of this height ended. The only error is `NoMemory`.
pub fn push_outcome(
    alloc: Global,
    out: &mut Vec<u8>,
    height: u64,
    place: usize,
    outcome: Outcome,
) -> Result<(), LineFault>
    ensures ok { OnOk result
        (out.new.items ≡ out.old.items ++ line_of (outcome_data height place outcome)) }
    ensures fault { IfErr result (λ fault. fault ≡ LineFault.NoMemory) }
{
    match outcome {
        Outcome::Accepted => accepted(alloc, out, height, place),
        Outcome::FeeUnpaid => unpaid(alloc, out, height, place),
        Outcome::Refused(message, reason) => {
            push_refused(alloc, out, height, place, message, reason)
        }
    }
}
