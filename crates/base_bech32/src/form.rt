//! The two forms of an address in a text.

/// How addresses are read and printed.
#[derive(Clone, Copy, Debug, PartialEq, Eq)]
pub enum Form {
    /// Forty hexadecimal digits with small letters.
    Hex,
    /// The spelling of BIP 173.
    Bech32,
}
