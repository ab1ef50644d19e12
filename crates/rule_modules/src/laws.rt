//! Laws of the rules, each a theorem that its function's contract names.

ghost use Rattle.rule_modules.specs.Accepted.{UndelegationsFindRoom, WithdrawalsTell};
ghost use Rattle.rule_modules.specs.RefusalOrder.{AreRefusedAnywhere};
ghost use Rattle.rule_modules.specs.Ties.{SetIsDecided, TestsDecide, RingCountsMisses, SameReward, ReferencesAfterEnd, ReferencesAfterStart, ReferencesAfterEvent};

/// The test of the bonded set decides who is in it.
#[tactic(auto, using(crate::proofs::TieLemmas::set_is_decided))]
pub fn bonded_set_is_decided()
    ensures { SetIsDecided }
{}

/// Tests decide what is said in words: mature entries, transitive sources, falling below the minimum, downtime, and
/// delegations that give no shares.
#[tactic(auto, using(crate::proofs::TieLemmas::tests_decide))]
pub fn tests_decide()
    ensures { TestsDecide }
{}

/// A ring of the last votes counts the missed ones.
#[tactic(auto, using(crate::proofs::TieLemmas::ring_counts_misses))]
pub fn rings_count_misses()
    ensures { RingCountsMisses }
{}

/// Rewards read ratios at the ends of their stretches alone.
#[tactic(auto, using(crate::proofs::TieLemmas::same_reward))]
pub fn rewards_read_ends_of_stretches()
    ensures { SameReward }
{}

/// What the end of a period, a start and a slash event do to the references of each period.
pub fn references_follow_the_records()
    ensures ended { ReferencesAfterEnd }
    ensures started { ReferencesAfterStart }
    ensures slashed { ReferencesAfterEvent }
{}

/// Sending, editing a validator, leaving jail, withdrawing commission, naming a payee, spending from the pool and replacing
/// the parameters are refused by the first of their conditions that holds, and accepted where none does.
#[tactic(auto, using(crate::proofs::RefusalLemmas::are_refused_anywhere))]
pub fn refusals_name_conditions()
    ensures { AreRefusedAnywhere }
{}

/// In every state, an undelegation that is carried out met a list of entries that had room, and a withdrawal of a reward tells
/// something.
#[tactic(auto, using(crate::proofs::AcceptedLemmas::undelegations_find_room, crate::proofs::AcceptedLemmas::withdrawals_tell))]
pub fn accepted_messages_did()
    ensures room { UndelegationsFindRoom }
    ensures told { WithdrawalsTell }
{}
