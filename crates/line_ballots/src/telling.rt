//! The line of a tally. Its members stand in ascending order of their names.
ghost use Rattle.std.specs.Prelude.{◌≡◌, ◌++◌, IfErr, OnOk};
ghost use Rattle.line_ballots.specs.Ballots.{text_of_tally};

use base_messages::LineFault;
use line_json::{Told, push_line};
use mod_tally::Tally;
use std::alloc::Global;

/// Appends the line of a tally: `abstain`, `bonded`, `kind` (`"tally"`), `no`, `no_with_veto` and `yes`. All but `kind` are
/// in tokens, those of the choices with 18 places. The only error is `NoMemory`.
pub fn push_line_of_tally(alloc: Global, out: &mut Vec<u8>, tally: &Tally) -> Result<(), LineFault>
    ensures text { OnOk result (out.new.items ≡ out.old.items ++ text_of_tally tally.now) }
    ensures fault { IfErr result (λ fault. fault ≡ LineFault.NoMemory) }
{
    let members = [
        ("abstain", Told::Decimal(tally.abstain)),
        ("bonded", Told::Amount(tally.bonded)),
        ("kind", Told::Word("tally")),
        ("no", Told::Decimal(tally.no)),
        ("no_with_veto", Told::Decimal(tally.veto)),
        ("yes", Told::Decimal(tally.yes)),
    ];
    push_line(alloc, out, &members)
}
