//! What a reward rests on, entry by entry.

ghost use Rattle.std.specs.Prelude.{◌≡◌};
ghost use Rattle.mod_statement.specs.Entries.{is_behind as is_behind_of, is_end as is_end_of, is_slash as is_slash_of, is_touch as is_touch_of};

use crate::rounding::MOST_TOKENS;
use base_coins::DecCoins;
use base_decimals::Dec;

/// What a reward rests on: something that happened to a validator between a delegator's start and its
/// withdrawal. Tokens are whole, in units of the bond denomination; shares are decimals.
#[derive(Debug, Drop)]
pub enum Entry {
    /// The rewards of a delegation of `shares` began; the validator had so many tokens, and `total` shares.
    Started {
        shares: Dec,
        tokens: u128,
        total: Dec,
    },
    /// The validator's delegators got these coins of a block's fees, commission already taken; the
    /// validator had so many tokens.
    Allocated {
        coins: DecCoins,
        tokens: u128,
    },
    /// A period of the validator ended.
    Ended,
    /// A slash burned so many of the validator's tokens.
    Slashed {
        burned: u128,
        tokens: u128,
    },
    /// The shares of some delegation were about to change.
    Touched,
}

impl Entry {
    /// Whether the entry may stand behind a start: no other start, tokens at most 10^18, and a slash of
    /// some tokens that burns no more than these.
    pub(crate) fn is_behind(&self) -> bool
        ensures { result ≡ is_behind_of self.now }
    {
        match self {
            Entry::Started { .. } => false,
            Entry::Allocated { tokens, .. } => *tokens <= MOST_TOKENS,
            Entry::Slashed { burned, tokens } => {
                *tokens > 0 && *tokens <= MOST_TOKENS && *burned <= *tokens
            }
            Entry::Ended | Entry::Touched => true,
        }
    }

    /// Whether it is the end of a period.
    pub(crate) fn is_end(&self) -> bool
        ensures { result ≡ is_end_of self.now }
    {
        matches!(self, Entry::Ended)
    }

    /// Whether it is a slash.
    pub(crate) fn is_slash(&self) -> bool
        ensures { result ≡ is_slash_of self.now }
    {
        matches!(self, Entry::Slashed { .. })
    }

    /// Whether shares were about to change.
    pub(crate) fn is_touch(&self) -> bool
        ensures { result ≡ is_touch_of self.now }
    {
        matches!(self, Entry::Touched)
    }
}
