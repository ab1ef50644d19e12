//! The formats of rows.

ghost use Rattle.std.specs.Prelude.{◌≡◌};
ghost use Rattle.store_rows.specs.Formats.{number_of};

/// A format of rows. Two things differ: the number in front of the last height, and how a signing
/// record tells which of the last votes were missed. All other rows are the same in both.
#[derive(Clone, Copy, Debug, PartialEq, Eq)]
pub enum Format {
    /// Each place of the window is told, eight in a byte.
    First,
    /// The missed places alone are told.
    Second,
}

impl Format {
    /// The format in which rows are written.
    pub const WRITTEN: Format = Format::Second;

    /// The number of the format, in front of the last height.
    pub(crate) fn number(self) -> u8
        ensures { result ≡ number_of self }
    {
        match self {
            Format::First => 1,
            Format::Second => 2,
        }
    }
}
