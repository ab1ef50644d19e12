//! What the definitions mean: laws as functions that do nothing, whose contracts are the laws.

ghost use Rattle.mod_statement.specs.Bracketed.{RightIsBracketed};
ghost use Rattle.mod_statement.specs.Covers.{SlackCovers};

/// The bounds of entries lie about their exact ideal reward, which rounds nothing, and a statement that is
/// right has its reward between the low bound less the slack and the high one.
pub fn right_is_bracketed()
    ensures { RightIsBracketed }
{}

/// In each denomination that it lists, the slack of a statement that is right is at least the exact slack of
/// the ideal reward with what all rewards of the validator may be short of, which rounds nothing.
pub fn slack_covers()
    ensures { SlackCovers }
{}
