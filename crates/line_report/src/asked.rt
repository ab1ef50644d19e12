//! Whose lines are asked for.
ghost use Rattle.std.specs.Prelude.{◌≡◌};
ghost use Rattle.line_report.specs.Telling.{is_asked};

/// The address of these bytes, or everybody.
pub(crate) type Asked = Option<[u8; 20]>;

/// Whether the lines of an address are asked for.
pub(crate) fn is_asked(asked: Asked, address: [u8; 20]) -> bool
    ensures { result ≡ is_asked asked address }
{
    match asked {
        None => true,
        Some(bytes) => bytes == address,
    }
}
