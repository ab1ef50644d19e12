//! What gathered records list, as functions that do nothing: their contracts are the laws.

ghost use Rattle.law_records.specs.Listed.{ListedAreGathered, RecordsAreListed, StatesAreGathered};

/// Gathered records list just the items.
#[tactic(auto, using(crate::proofs::ListedLaws::records_listed))]
pub fn gathered_records_list_items()
    ensures { RecordsAreListed }
{}

/// What records list whose keys ascend is gathered, in whatever order it comes.
pub fn listed_items_are_gathered()
    ensures { ListedAreGathered }
{}

/// The items of a sound state are gathered as its records, in whatever order they come.
pub fn states_are_gathered()
    ensures { StatesAreGathered }
{}
