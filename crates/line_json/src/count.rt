//! Numbers of a tape.
ghost use Rattle.std.specs.Prelude.{◌≡◌, ◌==◌, slice_index};
ghost use Rattle.fast_float.specs.Text.{minus};
ghost use Rattle.line_json.specs.Tape.{count_of};

use fast_float::Numeral;

fn has_minus(bytes: &[u8]) -> bool
    ensures { result ≡ (slice_index bytes.now 0 == minus) }
{
    !bytes.is_empty() && bytes[0] == b'-'
}

/// The whole number that a text spells without a sign, a point or an exponent, where it fits 64 bits.
pub(crate) fn count_of(text: &str) -> Option<u64>
    ensures { result ≡ count_of text.now }
{
    let bytes = text.as_bytes();
    if has_minus(bytes) {
        None
    } else {
        Numeral::scan(bytes).to_u64()
    }
}
