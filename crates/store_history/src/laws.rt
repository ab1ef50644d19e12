//! What a history tells of past heights, as a function that does nothing: its contract is the law.

ghost use Rattle.store_history.specs.Commits.{CommitsKeepHistory, PastIsOne, PastIsWhatStood};

/// Past rows are what stood.
///
/// After any commits to rows in which a history is of its form, the past rows at each height from the
/// base to the last one are the visible rows that stood after the last commit of at most that height.
/// Where there was none, they are what they were before these commits. Each commit keeps the history of
/// its form and makes of the visible rows what its changes say; and past rows are one list.
pub fn past_rows_are_what_stood()
    ensures kept { CommitsKeepHistory }
    ensures stood { PastIsWhatStood }
    ensures one { PastIsOne }
{}
