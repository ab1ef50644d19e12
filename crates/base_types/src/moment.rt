//! Moments: block times and the like, in nanoseconds of Unix time.

ghost use Rattle.std.specs.Prelude.{◌≡◌, ◌<◌};
ghost use Rattle.base_types.specs.Calendar.{end_of_time};
ghost use Rattle.base_types.specs.Moment.{moment_from};

mod printing;
mod reading;

pub use printing::print_moment;
pub use reading::read_moment;
use std::marker::Model;

/// A moment, as nanoseconds since 1970-01-01T00:00:00Z (Unix time: no leap seconds), before the year
/// 10000. Contracts see the number.
#[derive(Clone, Copy, Debug, PartialEq, Eq, PartialOrd, Ord, Hash)]
pub struct Moment {
    nanos: u128,
}

impl Model for Moment {
    ghost use Rattle.std.specs.Prelude.{ℕ, ◌<◌};
    ghost use Rattle.base_types.specs.Calendar.{end_of_time};

    ghost Value = { ℕ };

    ghost view = { λ m. m.nanos };

    ghost invariant = { λ m. m.nanos < end_of_time };

    ghost inverse = { λ nanos. record { nanos = nanos } };
}

/// 10000-01-01T00:00:00Z.
const END: u128 = 253_402_300_800_000_000_000;

impl Moment {
    /// The moment of so many nanoseconds since 1970-01-01T00:00:00Z, or None exactly from the year 10000
    /// on.
    pub fn of(nanos: u128) -> Option<Moment>
        ensures { result ≡ moment_from nanos }
    {
        if nanos < END {
            Some(Moment { nanos })
        } else {
            None
        }
    }

    /// The nanoseconds since 1970-01-01T00:00:00Z.
    pub fn nanos(self) -> u128
        ensures value { result ≡ self }
        ensures below { result < end_of_time }
    {
        self.nanos
    }
}
