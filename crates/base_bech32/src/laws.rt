//! Laws of spellings, as functions that do nothing: each contract is the law.

ghost use Rattle.std.specs.Prelude.{◌≡◌, ◌+◌, ◌↔◌, ◌∷◌, [], ℕ, List, length, Ok, Err, codes, IsTrue, IsAscii};
ghost use Rattle.std.specs.List.{list_all};
ghost use Rattle.base_types.specs.Address.{IsAddress};
ghost use Rattle.base_bech32.specs.Alphabet.{value_of};
ghost use Rattle.base_bech32.specs.Digits.{digits, number_of};
ghost use Rattle.base_bech32.specs.Reading.{unspelled};
ghost use Rattle.base_bech32.specs.Residue.{expansion, residue};
ghost use Rattle.base_bech32.specs.Spelling.{is_plain, is_prefix, spelling_of};
ghost use Rattle.base_bech32.specs.Worked.{every_letter, fee_collector};

use crate::fault::BechFault;

/// What is read of a text is twenty bytes of which it is the spelling, and no other text is read as these:
/// an address has one spelling behind a prefix.
pub fn spellings_read_back()
    ensures { (prefix text bytes : List ℕ)
        → (unspelled prefix text ≡ Ok bytes)
        ↔ (IsAddress bytes × (text ≡ spelling_of prefix bytes)) }
{}

/// A spelling has thirty-nine characters more than its prefix, and each is a small letter or a digit, so
/// that quotation marks round it need no escape.
pub fn spellings_are_plain()
    ensures length { (prefix bytes : List ℕ)
        → length (spelling_of prefix bytes) ≡ length prefix + 39 }
    ensures characters { (prefix bytes : List ℕ) → IsTrue (is_prefix prefix)
        → IsTrue (list_all is_plain (spelling_of prefix bytes)) }
    ensures ascii { (prefix bytes : List ℕ) → IsTrue (is_prefix prefix)
        → IsAscii (spelling_of prefix bytes) }
{}

/// Worked rows: one of the test vectors of BIP 173, and the account of the fee collector on chains with the
/// prefix `cosmos`.
pub fn spellings_by_example()
    ensures digits { digits 32 3 1000 ≡ 0 ∷ 31 ∷ 8 ∷ [] }
    ensures number { number_of 32 (0 ∷ 31 ∷ 8 ∷ []) ≡ 1000 }
    ensures letter { value_of 108 ≡ 31 }
    ensures no_letter { value_of 98 ≡ 32 }
    ensures expansion { expansion (codes "abc") ≡ 3 ∷ 3 ∷ 3 ∷ 0 ∷ 1 ∷ 2 ∷ 3 ∷ [] }
    ensures residue { residue (expansion (codes "cosmos")) ≡ 0x3f30_2b3f }

    ensures spelling { spelling_of (codes "abcdef") every_letter
        ≡ codes "abcdef1qpzry9x8gf2tvdw0s3jn54khce6mua7lmqqqxw" }
    ensures read { unspelled (codes "abcdef")
        (codes "abcdef1qpzry9x8gf2tvdw0s3jn54khce6mua7lmqqqxw") ≡ Ok every_letter }
    ensures sum { unspelled (codes "abcdef")
        (codes "abcdef1qpzry9x8gf2tvdw0s3jn54khce6mua7lmqqqxq") ≡ Err BechFault.Sum }
    ensures digit { unspelled (codes "abcdef")
        (codes "abcdef1bpzry9x8gf2tvdw0s3jn54khce6mua7lmqqqxw") ≡ Err (BechFault.Digit 0) }
    ensures length { unspelled (codes "abcdef")
        (codes "abcdef1qpzry9x8gf2tvdw0s3jn54khce6mua7lmqqqx") ≡ Err BechFault.Length }
    ensures capitals { unspelled (codes "abcdef")
        (codes "ABCDEF1QPZRY9X8GF2TVDW0S3JN54KHCE6MUA7LMQQQXW") ≡ Err BechFault.Prefix }
    ensures account { spelling_of (codes "cosmos") fee_collector
        ≡ codes "cosmos17xpfvakm2amg962yls6f84z3kell8c5lserqta" }
    ensures operator { spelling_of (codes "cosmosvaloper") fee_collector
        ≡ codes "cosmosvaloper17xpfvakm2amg962yls6f84z3kell8c5l4dh48w" }
{}
