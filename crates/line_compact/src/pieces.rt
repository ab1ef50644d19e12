//! Pieces of a text: constant ones, numbers and strings.
ghost use Rattle.std.specs.Prelude.{◌≡◌, ◌^◌, ◌<◌, ◌++◌, ◌∷◌, IfSome, decimal, true};
ghost use Rattle.std.specs.List.{list_all};
ghost use Rattle.serde_json.specs.Data.{boolean, number, string, unsigned};
ghost use Rattle.line_compact.specs.Begins.{Begins};
ghost use Rattle.line_compact.specs.Pieces.{stands_for_itself};

/// What follows the piece, where the text begins with it. No branch is taken at a byte, so that a constant piece is
/// compared by words.
#[inline(always)]
pub fn after<'a>(text: &'a [u8], piece: &[u8]) -> Option<&'a [u8]>
    ensures { IfSome result (λ rest. text.now ≡ piece.now ++ rest.now) }
{
    if text.len() < piece.len() {
        return None;
    }
    let mut same = true;
    'bytes: for i in 0..piece.len() {
        same = same & (text[i] == piece[i]);
    }
    if same {
        Some(&text[piece.len()..])
    } else {
        None
    }
}

// The number that the text begins with, in digits with no zero in front, and what follows them.
fn digits(text: &[u8]) -> Option<(u64, &[u8])>
    ensures { IfSome result (λ found. (text.now ≡ decimal found.0 ++ found.1.now) × (found.0 < 2 ^ 63)) }
{
    let (first, others) = text.split_first()?;
    if !first.is_ascii_digit() {
        return None;
    }
    let mut number = u64::from(*first - b'0');
    let mut rest = others;
    if number == 0 {
        return Some((number, rest));
    }
    while let Some((digit, others)) = rest.split_first() {
        if !digit.is_ascii_digit() {
            break;
        }
        if number >= 100_000_000_000_000_000 {
            return None;
        }
        number = number * 10 + u64::from(*digit - b'0');
        rest = others;
    }
    Some((number, rest))
}

// Whether the byte is ASCII that stands for itself in a string.
fn stands_for_itself(byte: u8) -> bool
    ensures { result ≡ stands_for_itself byte }
{
    byte >= 32 && byte < 127 && byte != b'"' && byte != b'\\'
}

// The bytes up to the first quote, each of which stands for itself, and what follows the quote.
fn until_quote(text: &[u8]) -> Option<(&[u8], &[u8])>
    ensures { IfSome result (λ found. (text.now ≡ found.0.now ++ 34 ∷ found.1.now) × (list_all stands_for_itself found.0.now ≡ true)) }
{
    let mut at = 0;
    while at < text.len() && stands_for_itself(text[at]) {
        at += 1;
    }
    if at < text.len() && text[at] == b'"' {
        Some((&text[..at], &text[at + 1..]))
    } else {
        None
    }
}

/// The number below 2^63 that the text begins with, and what follows it. None, where it is longer than 18 digits.
pub fn count(text: &[u8]) -> Option<(u64, &[u8])>
    ensures { IfSome result (λ found. Begins 0 text.now (number (unsigned found.0)) found.1.now × (found.0 < 2 ^ 63)) }
{
    let (number, rest) = digits(text)?;
    Some((number, rest))
}

/// The string without an escape that the text begins with, and what follows it.
pub fn string(text: &[u8]) -> Option<(&[u8], &[u8])>
    ensures { IfSome result (λ found. Begins 0 text.now (string found.0.now) found.1.now) }
{
    let inner = after(text, b"\"")?;
    let (bytes, rest) = until_quote(inner)?;
    Some((bytes, rest))
}

/// The truth value that the text begins with, and what follows it.
pub fn flag(text: &[u8]) -> Option<(bool, &[u8])>
    ensures { IfSome result (λ found. Begins 0 text.now (boolean found.0) found.1.now) }
{
    if let Some(rest) = after(text, b"true") {
        return Some((true, rest));
    }
    let rest = after(text, b"false")?;
    Some((false, rest))
}

/// The number below 10^18 that a string spells, in digits with no zero in front, and what follows it.
pub fn amount(text: &[u8]) -> Option<(u128, &[u8])>
    ensures { IfSome result (λ found. Begins 0 text.now (string (decimal found.0)) found.1.now × (found.0 < 2 ^ 63)) }
{
    let inner = after(text, b"\"")?;
    let (number, behind) = digits(inner)?;
    let rest = after(behind, b"\"")?;
    Some((u128::from(number), rest))
}
