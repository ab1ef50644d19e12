//! What a recorder notes of one call.

ghost use Rattle.std.specs.Prelude.{◌≡◌, ◌^◌, ◌≤◌};
ghost use Rattle.mod_recorder.specs.Notes.{CanBurn, burned_of, note_of};

use base_decimals::Dec;
use base_roles::Hook;
use base_types::Addr;
use mod_statement::Entry;

/// What a recorder noted of one call of a hook.
#[derive(Debug, Drop)]
pub struct Note {
    /// The validator.
    pub operator: Addr,
    /// Whose rewards began, or whose shares were about to change; with all else there is none.
    pub delegator: Option<Addr>,
    /// How many facts of the same block were told before it, counted up to 2^64 - 1.
    pub facts: usize,
    /// What a reward rests on, or None exactly where the validator was created: then what was noted of the operator
    /// before is of another validator.
    pub entry: Option<Entry>,
}

/// The units of one whole, 10^18.
const ONE: u128 = 1_000_000_000_000_000_000;

/// What a slash of this fraction burns of so many tokens, cut to whole ones (`x/staking`: `Slash`).
pub(crate) fn burned_of(fraction: Dec, tokens: u128) -> u128
    requires fraction { fraction ≤ 10 ^ 18 }
    requires tokens { tokens ≤ 10 ^ 18 }
    ensures { result ≡ burned_of fraction tokens }
{
    fraction.raw() * tokens / ONE
}

/// What is noted of a call, behind so many facts of its block, or None where nothing is.
pub(crate) fn note_of(facts: usize, hook: &Hook) -> Option<Note>
    requires { CanBurn hook.now }
    ensures { result ≡ note_of facts hook.now }
{
    match hook {
        Hook::Created { validator } => Some(Note {
            operator: validator.operator,
            delegator: None,
            facts,
            entry: None,
        }),
        Hook::Removed { .. } | Hook::Bonded { .. } | Hook::Starting { .. } => None,
        Hook::Modifying {
            validator,
            delegator,
            ..
        } => Some(Note {
            operator: validator.operator,
            delegator: Some(*delegator),
            facts,
            entry: Some(Entry::Touched),
        }),
        Hook::Modified {
            validator,
            delegator,
            shares,
        } => Some(Note {
            operator: validator.operator,
            delegator: Some(*delegator),
            facts,
            entry: Some(Entry::Started {
                shares: *shares,
                tokens: validator.tokens,
                total: validator.shares,
            }),
        }),
        Hook::Slashing {
            validator,
            fraction,
        } => Some(Note {
            operator: validator.operator,
            delegator: None,
            facts,
            entry: Some(Entry::Slashed {
                burned: burned_of(*fraction, validator.tokens),
                tokens: validator.tokens,
            }),
        }),
    }
}
