//! Spelling an address.

ghost use Rattle.std.specs.Prelude.{◌≡◌, ◌+◌, ◌++◌, length, drop, IfOk, IfErr, IsTrue, string_bytes};
ghost use Rattle.base_bech32.specs.Spelling.{is_prefix, spelling_of};

use crate::alphabet::put_letters;
use crate::digits::{put_digits, values_of};
use crate::fault::BechFault;
use crate::residue::check_number;
use std::alloc::Global;

/// Writes the spelling of twenty bytes behind a prefix into the front of `out`, and answers its length: the
/// prefix, `1`, and thirty-eight letters. What stands behind it in `out` stays. Takes no memory. The prefix
/// has 1 to 20 characters of `a` to `z`.
pub fn spell_into(prefix: &str, bytes: &[u8; 20], out: &mut [u8; 64]) -> usize
    requires { IsTrue (is_prefix prefix.now) }
    ensures text { out.new ≡ spelling_of prefix.now bytes.now ++ drop result out.old }
    ensures length { result ≡ length prefix.now + 39 }
{
    let prefix = prefix.as_bytes();
    let values = values_of(bytes);
    let mut check = [0u8; 6];
    put_digits(32, check_number(prefix, &values) as u64, &mut check);
    let end = prefix.len();
    out[..end].copy_from_slice(prefix);
    out[end] = b'1';
    put_letters(&values, &mut out[end + 1..end + 33]);
    put_letters(&check, &mut out[end + 33..end + 39]);
    end + 39
}

/// The spelling of twenty bytes behind a prefix, which has 1 to 20 characters of `a` to `z`. The only error
/// is `NoMemory`.
pub fn spell(alloc: Global, prefix: &str, bytes: &[u8; 20]) -> Result<String, BechFault>
    requires { IsTrue (is_prefix prefix.now) }
    ensures text { IfOk result (λ text. string_bytes text ≡ spelling_of prefix.now bytes.now) }
    ensures fault { IfErr result (λ fault. fault ≡ BechFault.NoMemory) }
{
    let mut out = [0u8; 64];
    let end = spell_into(prefix, bytes, &mut out);
    let mut text = String::with_capacity(alloc, end)?;
    'letters: for i in 0..end {
        text.push(out[i] as char)?;
    }
    Ok(text)
}
