//! Reading the spelling of an address.

ghost use Rattle.std.specs.Prelude.{◌≡◌, ◌<◌, ◌++◌, ◌∷◌, [], ◌+◌, nat_eq, length, drop, take, bytes_eq, IsTrue, Ok, IfOk};
ghost use Rattle.std.specs.List.{starts_with};
ghost use Rattle.base_bech32.specs.Alphabet.{IsValues};
ghost use Rattle.base_bech32.specs.Reading.{unspelled};
ghost use Rattle.base_bech32.specs.Spelling.{check_of, is_prefix, spelling_of};

use crate::alphabet::values_of_letters;
use crate::digits::{bytes_of, number_of};
use crate::fault::BechFault;
use crate::residue::check_number;

// Whether the text begins with the prefix and `1`.
fn has_prefix(prefix: &[u8], text: &[u8]) -> bool
    ensures { result ≡ starts_with nat_eq text.now (prefix.now ++ 49 ∷ []) }
{
    let end = prefix.len();
    if text.len() <= end {
        return false;
    }
    &text[..end] == prefix && text[end] == b'1'
}

// Whether the last six values check the others.
fn is_checked(prefix: &[u8], values: &[u8]) -> bool
    requires lengths { length values.now ≡ 38 }
    requires values { IsValues values.now }
    ensures { result ≡ bytes_eq (drop 32 values.now) (check_of prefix.now (take 32 values.now)) }
{
    let check = check_number(prefix, &values[..32]);
    number_of(32, &values[32..]) == check as u64
}

// The bytes that the text spells behind the prefix.
fn read(prefix: &[u8], text: &[u8]) -> Result<[u8; 20], BechFault>
    ensures { result ≡ unspelled prefix.now text.now }
{
    if !has_prefix(prefix, text) {
        return Err(BechFault::Prefix);
    }
    let letters = &text[prefix.len() + 1..];
    if letters.len() != 38 {
        return Err(BechFault::Length);
    }
    let values = values_of_letters(letters)?;
    if !is_checked(prefix, &values) {
        return Err(BechFault::Sum);
    }
    Ok(bytes_of(&values))
}

/// The bytes of which this text is the spelling behind a prefix, which has 1 to 20 characters of `a` to
/// `z`. Takes no memory. Refused in this order: `Prefix`, exactly where the text does not begin with the
/// prefix and `1`; `Length`, exactly where not thirty-eight bytes follow; `Digit` with the first place among
/// these at which there is no letter; `Sum`, exactly where the last six letters are not those that check the
/// others. A spelling has no capital letters.
pub fn unspell(prefix: &str, text: &str) -> Result<[u8; 20], BechFault>
    requires { IsTrue (is_prefix prefix.now) }
    ensures value { result ≡ unspelled prefix.now text.now }
    ensures spelling { IfOk result (λ bytes. text.now ≡ spelling_of prefix.now bytes) }
{
    read(prefix.as_bytes(), text.as_bytes())
}
