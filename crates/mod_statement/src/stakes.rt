//! The stake along a span, rounded down and rounded up.

ghost use Rattle.std.specs.Prelude.{◌≡◌, ◌^◌, ◌<◌, ◌≤◌};
ghost use Rattle.mod_statement.specs.Entries.{stakes_at, stakes_slashed};

use crate::entry::Entry;
use crate::rounding::{MOST_TOKENS, ONE, part_cut, part_up};
use base_decimals::Dec;

/// The two values of a stake at a place of a span, in units of 10^-18: rounded down and rounded up since
/// its start.
#[derive(Clone, Copy, Debug)]
pub(crate) struct Stakes {
    pub lower: Dec,
    pub upper: Dec,
}

impl Stakes {
    /// The values at a start: what the shares are worth. None exactly where the entry starts no span.
    pub fn at(start: &Entry) -> Option<Stakes>
        ensures { result ≡ stakes_at start.now }
    {
        let Entry::Started {
            shares,
            tokens,
            total,
        } = start
        else {
            return None;
        };
        if shares.raw() > 0 && shares.raw() <= total.raw() && *tokens <= MOST_TOKENS {
            let worth = Dec::from_raw(*tokens * ONE).unwrap();
            Some(Stakes {
                lower: part_cut(worth, shares.raw(), total.raw()),
                upper: part_up(worth, shares.raw(), total.raw()),
            })
        } else {
            None
        }
    }

    /// The values behind a slash, which takes the burn's part of them.
    pub fn slashed(self, burned: u128, tokens: u128) -> Stakes
        requires positive { 0 < tokens }
        requires most { tokens ≤ 10 ^ 18 }
        ensures { result ≡ stakes_slashed burned tokens self }
    {
        let left = tokens.saturating_sub(burned);
        Stakes {
            lower: part_cut(self.lower, left, tokens),
            upper: part_up(self.upper, left, tokens),
        }
    }
}
