//! Denominations: the names of kinds of coins.

ghost use Rattle.std.specs.Prelude.{◌≡◌, ◌≤◌, length, true, Some, None, IfOk, IfErr, nat_eq};
ghost use Rattle.std.specs.List.{list_all};
ghost use Rattle.std.specs.Cmp.Rules.{comparing};
ghost use Rattle.std.specs.Cmp.{partial_order_from_own_ties};
ghost use Rattle.std.specs.Ordering.{as_partial_cmp};
ghost use Rattle.std.specs.Cmp.Lexicographic.{pointwise};
ghost use Rattle.std.proofs.Common.{rules};
ghost use Rattle.std.specs.Hash as fed;
ghost use Rattle.base_types.specs.Denom.{is_letter, is_denom_character, is_denom, denom_of};
ghost use Rattle.base_types.specs.Orders.{denom_cmp};
ghost use Rattle.base_types.specs.Padded.{padded};

use crate::fault::TextFault;
use std::cmp::Ordering;
use std::hash::{Hash, Hasher};
use std::marker::Model;

/// The name of a kind of coins: a letter, then 2 to 127 characters of `a-z A-Z 0-9 / : . _ -` (as the
/// Cosmos SDK's `types.ValidateDenom` reads it). Kept in place, ordered by its bytes; contracts see the
/// list of them.
#[derive(Clone, Copy, Debug)]
pub struct Denom {
    bytes: [u8; 128],
    len: usize,
}

impl Model for Denom {
    ghost use Rattle.std.specs.Prelude.{◌≡◌, ℕ, List, take, length, true};
    ghost use Rattle.base_types.specs.Denom.{is_denom};
    ghost use Rattle.base_types.specs.Padded.{IsPadded, padded, padded_again, length_of_taken};

    ghost Value = { List ℕ };

    ghost view = { λ d. take d.len d.bytes };

    // The places behind the name hold zeros, so that equal names are equal values.
    ghost invariant = { λ d. IsPadded d.bytes d.len × (is_denom (take d.len d.bytes) ≡ true) };

    ghost inverse = { λ name. record { bytes = padded name; len = length name } };

    ghost inverse_ok = { λ d h. λ i. record
        { bytes = padded_again d.bytes d.len h.0 i; len = length_of_taken d.bytes d.len h.0 i } };
}

fn is_letter(c: u8) -> bool
    ensures { result ≡ is_letter c }
{
    c.is_ascii_uppercase() || c.is_ascii_lowercase()
}

fn is_denom_character(c: u8) -> bool
    ensures { result ≡ is_denom_character c }
{
    is_letter(c)
        || c.is_ascii_digit()
        || c == b'/'
        || c == b':'
        || c == b'.'
        || c == b'_'
        || c == b'-'
}

fn are_denom_characters(text: &[u8]) -> bool
    ensures { result ≡ list_all is_denom_character text.now }
{
    text.iter().all(|c| is_denom_character(*c))
}

fn is_denom(text: &[u8]) -> bool
    ensures { result ≡ is_denom text.now }
{
    match text {
        [] => false,
        [first, others @ ..] => {
            is_letter(*first)
                && 2 <= others.len()
                && others.len() <= 127
                && are_denom_characters(others)
        }
    }
}

/// The places that keep a name.
fn padded(name: &[u8]) -> [u8; 128]
    requires { length name.now ≤ 128 }
    ensures { result ≡ padded name.now }
{
    let mut places = [0u8; 128];
    places[..name.len()].copy_from_slice(name);
    places
}

impl Denom {
    /// The denomination of this name, or None exactly where the bytes are none.
    pub fn of(bytes: &[u8]) -> Option<Denom>
        ensures { result ≡ denom_of bytes.now }
    {
        if !is_denom(bytes) {
            return None;
        }
        Some(Denom {
            bytes: padded(bytes),
            len: bytes.len(),
        })
    }

    /// The bytes of the name, from 3 to 128.
    pub fn bytes(&self) -> &[u8]
        ensures value { result.now ≡ self.now }
        ensures name { is_denom result.now ≡ true }
    {
        &self.bytes[..self.len]
    }
}

impl PartialEq for Denom {
    ghost eq = { pointwise nat_eq };

    ghost laws = { Prim.search (comparing, rules) };

    fn eq(&self, other: &Denom) -> bool {
        self.bytes() == other.bytes()
    }
}

impl Eq for Denom {
    ghost laws = { Prim.search (comparing, rules) };
}

impl Ord for Denom {
    ghost cmp = { denom_cmp };

    ghost total = { Prim.search (comparing, rules) };

    ghost matches_partial_cmp = { Prim.search (comparing, rules) };

    ghost matches_eq = { Prim.search (comparing, rules) };

    fn cmp(&self, other: &Denom) -> Ordering {
        self.bytes().cmp(other.bytes())
    }
}

impl PartialOrd for Denom {
    ghost partial_cmp = { as_partial_cmp denom_cmp };

    ghost laws = { partial_order_from_own_ties (Prim.search (comparing, rules))
        (Prim.search (comparing, rules)) };

    fn partial_cmp(&self, other: &Denom) -> Option<Ordering> {
        Some(self.cmp(other))
    }
}

impl Hash for Denom {
    ghost hash_input = { fed.str };

    ghost respects_eq = { Prim.search (comparing, rules) };

    fn hash<H: Hasher>(&self, state: &mut H) {
        state.write(self.bytes());
        state.write_u8(0xff);
    }
}

/// Reads a denomination. `BadDenom` comes exactly where the text is none. Takes no memory.
pub fn read_denom(text: &str) -> Result<Denom, TextFault>
    ensures found { IfOk result (λ denom. denom_of text.now ≡ Some denom) }
    ensures only { IfErr result
        (λ fault. (fault ≡ TextFault.BadDenom) × (denom_of text.now ≡ None)) }
{
    match Denom::of(text.as_bytes()) {
        Some(denom) => Ok(denom),
        None => Err(TextFault::BadDenom),
    }
}
