//! A ring of votes in each format.

ghost use Rattle.std.specs.Prelude.{◌≡◌, ◌<◌, ◌^◌, ◌++◌, length, OnOk};
ghost use Rattle.store_rows.specs.Fields.{ring_bytes};
ghost use Rattle.store_rows.specs.Reading.{Gives, ring_at};

use crate::fault::RowFault;
use crate::format::Format;
use crate::front::Unread;
use crate::missed::{missed_ring_at, push_missed_ring};
use crate::places::{packed_ring_at, push_packed_ring};
use base_roles::Listed;
use std::alloc::{AllocError, Global};

/// A ring of places.
pub(crate) fn ring_at(
    alloc: Global,
    format: Format,
    bytes: &mut Unread<'_>,
) -> Result<Listed<bool>, RowFault>
    ensures { Gives (λ x. (x, bytes.new.left.now)) result (ring_at format bytes.old.left.now) }
{
    match format {
        Format::First => packed_ring_at(alloc, bytes),
        Format::Second => missed_ring_at(alloc, bytes),
    }
}

/// Appends a ring of places.
pub(crate) fn push_ring(
    out: &mut Vec<u8>,
    format: Format,
    places: &[bool],
) -> Result<(), AllocError>
    requires { length places.now < 2 ^ 32 }
    ensures { OnOk result (out.new.items ≡ out.old.items ++ ring_bytes format places.now) }
{
    match format {
        Format::First => push_packed_ring(out, places),
        Format::Second => push_missed_ring(out, places),
    }
}
