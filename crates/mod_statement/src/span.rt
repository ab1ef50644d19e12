//! Which entries are a span.

ghost use Rattle.std.specs.Prelude.{◌≡◌, ◌-◌, IfSome, length, slice_get};
ghost use Rattle.std.specs.Option.{option_map};
ghost use Rattle.std.specs.List.{list_all};
ghost use Rattle.mod_statement.specs.Entries.{AreBehind, is_behind, is_ended_by, span_of};

use crate::entry::Entry;
use crate::stakes::Stakes;

/// The stake at the start of a span and the entries behind it, or None exactly where the entries are no
/// span.
pub(crate) fn span_of(entries: &[Entry]) -> Option<(Stakes, &[Entry])>
    ensures span { option_map (λ span. (span.0, span.1.now)) result ≡ span_of entries.now }
    ensures behind { IfSome result (λ span. AreBehind span.1.now) }
{
    let (first, rest) = entries.split_first()?;
    let stakes = Stakes::at(first)?;
    if are_behind(rest) && ends(rest) {
        Some((stakes, rest))
    } else {
        None
    }
}

/// Whether all entries may stand behind a start.
fn are_behind(entries: &[Entry]) -> bool
    ensures { result ≡ list_all is_behind entries.now }
{
    entries.iter().all(|entry| entry.is_behind())
}

/// Whether the last entry is the end of a period.
fn ends(entries: &[Entry]) -> bool
    ensures { result ≡ is_ended_by (slice_get entries.now (length entries.now - 1)) }
{
    match entries.last() {
        Some(entry) => entry.is_end(),
        None => false,
    }
}
