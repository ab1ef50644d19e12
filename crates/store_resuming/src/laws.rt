//! That the records of a sound state are all that modules keep of it, so that rows decide what is kept.
//!
//! Each law is the contract of a function that does nothing.

ghost use Rattle.store_resuming.specs.Deciding.{RowsDecideAnswers};
ghost use Rattle.store_resuming.specs.Kept.{RecordsAreAll, RecordsAreKept, RowsDecide};
ghost use Rattle.store_resuming.specs.Restored.{FormatsTellTheSame};

/// The records of a sound state, as modules keep them, stand for it.
pub fn records_are_kept()
    ensures { RecordsAreKept }
{}

/// They are all that stands for it in the order of its keys.
pub fn records_are_all()
    ensures { RecordsAreAll }
{}

/// What stands for a sound state stands for each other one with the same items.
pub fn rows_decide_what_is_kept()
    ensures { RowsDecide }
{}

/// States that have the same rows in one format have the same in the other.
pub fn formats_tell_the_same()
    ensures { FormatsTellTheSame }
{}

/// The rows of a store decide all later answers: blocks from two states of the same rows report the same and end at the same fault,
/// in states of the same items and the same report.
pub fn rows_decide_answers()
    ensures { RowsDecideAnswers }
{}
