//! Rewards that wrong rules of slashes would pay, which the upper side of the bracket refuses.

ghost use Rattle.rule_worked.specs.WrongRules.{PassedOverIsUnfair, CutFractionIsUnfair};

/// A rule of rewards that passes over a slash at the height of the start pays more than the ideal reward; and so does a rule of
/// slashes that cuts the fraction in place of rounding it up, by a few units. What either would withdraw is not fair.
pub fn wrong_slashes()
    ensures passed_over { PassedOverIsUnfair }
    ensures cut { CutFractionIsUnfair }
{}
