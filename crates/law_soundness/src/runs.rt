//! What a genesis and blocks lead to is sound, the accounts hold what they owe, supplies fall by burns, and refusals are named:
//! laws as functions that do nothing, whose contracts are the laws.

ghost use Rattle.law_soundness.specs.Ranges.{SoundIsInRange, RunsAreInRange};
ghost use Rattle.law_soundness.specs.Going.{RunsGoSoundly};
ghost use Rattle.law_soundness.specs.Kept.{FullListsTakeNoMore, RefusalsAreNamed, RunsAreAnswered};
ghost use Rattle.law_soundness.specs.StepLaws.{RunsLowerSupplies, RunsNameConditions};
ghost use Rattle.rule_modules.specs.StepLaws.{SoundIsKept, OnlyBurnsLowerSupplies};
ghost use Rattle.rule_machine.specs.Promises.{GenesisIsSound, RunsAreSound, AccountsHoldWhatIsOwed, SuppliesFallByBurns};

/// Every atomic step keeps a state sound.
pub fn sound_is_kept()
    ensures { SoundIsKept }
{}

/// A good genesis starts a chain, whose state is sound.
pub fn genesis_is_sound()
    ensures { GenesisIsSound }
{}

/// Wherever blocks lead to from a good genesis, the state is sound.
#[tactic(auto, using(crate::proofs::Starting::runs_are_sound))]
pub fn runs_are_sound()
    ensures { RunsAreSound }
{}

/// After a good genesis and after each block the bonded, the not-bonded and the distribution account hold exactly what they
/// owe.
pub fn accounts_hold_what_is_owed()
    ensures { AccountsHoldWhatIsOwed }
{}

/// Every atomic step lowers each supply by exactly the burns that its facts tell.
#[tactic(auto, using(crate::proofs::Supplies::only_burns_lower_supplies))]
pub fn only_burns_lower_supplies()
    ensures { OnlyBurnsLowerSupplies }
{}

/// Wherever blocks lead to from a sound state, each supply is less by exactly what they say was burned.
#[tactic(auto, using(crate::proofs::Running::runs_burn))]
pub fn runs_lower_supplies()
    ensures { RunsLowerSupplies }
{}

/// Wherever blocks lead to from a good genesis, each supply and what was burned of it come to the supply of the genesis.
#[tactic(auto, using(crate::proofs::Starting::supplies_fall_by_burns))]
pub fn supplies_fall_by_burns()
    ensures { SuppliesFallByBurns }
{}

/// Wherever blocks lead to from a sound state, each message that is carried out met a sound state of which none of its
/// conditions held, and each that is refused is by the first of its conditions that held.
#[tactic(auto, using(crate::proofs::Refusals::runs_name_conditions))]
pub fn runs_name_conditions()
    ensures { RunsNameConditions }
{}

/// Wherever blocks lead to from a good genesis, each message that is carried out met a sound state of which none of its
/// conditions held, and each that is refused is by the first of its conditions that held.
#[tactic(auto, using(crate::proofs::Refusals::refusals_are_named))]
pub fn refusals_are_named()
    ensures { RefusalsAreNamed }
{}

/// A list of entries that has the most takes no more: no undelegation that met one was carried out.
#[tactic(auto, using(crate::proofs::Refusals::full_lists_take_no_more))]
pub fn full_lists_take_no_more()
    ensures { FullListsTakeNoMore }
{}

/// Blocks from any sound state, and so those of each replay, lead to a sound state, in which the accounts hold what they owe;
/// supplies fall by burns; messages are judged by their conditions; and each block is answered, or has a fault that has its cause.
#[tactic(auto, using(crate::proofs::Going::runs_go_soundly))]
pub fn runs_go_soundly()
    ensures { RunsGoSoundly }
{}

/// Wherever blocks lead to from a good genesis, each is answered, or has the fault of the first condition against it or a limit
/// that its beginning met.
#[tactic(auto, using(crate::proofs::Answered::runs_are_answered))]
pub fn runs_are_answered()
    ensures { RunsAreAnswered }
{}

/// In a sound state, and so wherever blocks lead to from a good genesis, no account holds more than 10^18 of a denomination, and
/// tokens, entries of unbondings and what distribution owes are within that.
#[tactic(auto, using(crate::proofs::Ranges::sound_is_in_range, crate::proofs::Ranges::runs_are_in_range))]
pub fn amounts_are_in_range()
    ensures sound { SoundIsInRange }
    ensures runs { RunsAreInRange }
{}
