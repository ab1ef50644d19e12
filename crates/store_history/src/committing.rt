//! A commit of the keeper below, with the changes of the history.

ghost use Rattle.std.specs.Prelude.{◌≡◌, ◌^◌, ◌<◌, ◌≤◌, List, Some, true, false, map, IfOk, IfSome, IsErrOf, IsSome, OnErr, OnOk};
ghost use Rattle.base_io.specs.declared.keeper.Change.{Change};
ghost use Rattle.base_io.specs.Keeping.{UnlessLost};
ghost use Rattle.base_io.specs.Outside.{Rose};
ghost use Rattle.base_io.specs.Changes.{ChangeRows, IsOrdinary, LeavesRows, Rises};
ghost use Rattle.base_io.specs.Rows.{Makes, Pair};
ghost use Rattle.store_history.specs.Commits.{height_of, seen, IsCommit};
ghost use Rattle.store_history.specs.Held.{shown, CommitsTo, Knows, TakesDistinct};
ghost use Rattle.store_history.specs.History.{last_of, IsHistory};

use crate::changes::{anew, going_on, height_of};
use crate::history::{History, kept_of};
use crate::loading::load_history;
use base_io::{Change, KeepFault, Keeper};
use std::alloc::Global;

/// Sees that what is known are the rows of the keeper: where it is not, they are loaded.
pub(crate) fn ready<D: Keeper>(
    alloc: Global,
    keeper: &mut D,
    known: bool,
    history: &mut History,
) -> Result<(), KeepFault>
    requires known { known ≡ true
        → Knows (D.rows keeper.old) history.old.base history.old.visible }
    requires settled { LeavesRows (D.may_leave keeper.old) (D.rows keeper.old) }
    ensures knows { OnOk result
        (Knows (D.rows keeper.new) history.new.base history.new.visible) }
    ensures unknown { OnErr result (known ≡ false) }
    ensures same { Makes (λ pairs. pairs) (D.rows keeper.old) (D.rows keeper.new) }
    ensures told { OnOk result (D.is_honest keeper.new
        → IsSome (D.rows keeper.old) → IsSome (D.rows keeper.new)) }
    ensures settled { LeavesRows (D.may_leave keeper.new) (D.rows keeper.new) }
    ensures honest { D.is_honest keeper.new → D.is_honest keeper.old }
    ensures stop { D.is_honest keeper.new → (left : List Pair)
        → D.may_leave keeper.new left → D.may_leave keeper.old left }
    ensures takes { (more : List Change) → D.takes keeper.old more → D.takes keeper.new more }
    ensures later { D.faults keeper.old ≤ D.faults keeper.new }
    ensures cause { IsErrOf result KeepFault.Failed
        → Rose (D.faults keeper.old) (D.faults keeper.new) }
    ensures quiet { UnlessLost result (D.faults keeper.new ≡ D.faults keeper.old) }
{
    if known {
        return Ok(());
    }
    *history = load_history(alloc, keeper)?;
    Ok(())
}

/// Goes on from the last height to a greater one.
fn commit_on<D: Keeper>(
    alloc: Global,
    keeper: &mut D,
    history: &History,
    last: u64,
    height: u64,
    changes: &[Change],
) -> Result<(), KeepFault>
    requires takes { TakesDistinct (D.takes keeper.old) }
    requires settled { LeavesRows (D.may_leave keeper.old) (D.rows keeper.old) }
    requires rises { IfSome (D.rows keeper.old) Rises }
    requires history { IfSome (D.rows keeper.old) IsHistory }
    requires knows { Knows (D.rows keeper.old) history.now.base history.now.visible }
    requires ordinary { IsOrdinary changes.now }
    requires changing { ChangeRows changes.now (shown (D.rows keeper.old)) }
    requires height { height_of (map seen changes.now) ≡ Some height }
    requires last { last_of history.now.visible ≡ Some last }
    requires less { last < height }
    ensures commits { CommitsTo result changes.now (D.rows keeper.old) (D.rows keeper.new)
        (D.is_honest keeper.old) (D.is_honest keeper.new)
        (D.may_leave keeper.old) (D.may_leave keeper.new) }
    ensures takes { (more : List Change) → D.takes keeper.old more → D.takes keeper.new more }
    ensures later { D.faults keeper.old ≤ D.faults keeper.new }
    ensures cause { IsErrOf result KeepFault.Failed
        → Rose (D.faults keeper.old) (D.faults keeper.new) }
    ensures quiet { UnlessLost result (D.faults keeper.new ≡ D.faults keeper.old) }
{
    let list = going_on(alloc, history, last, height, changes)?;
    keeper.commit(list.as_slice())
}

/// Begins a new history at a height: what is kept goes. It is loaded.
fn commit_anew<D: Keeper>(
    alloc: Global,
    keeper: &mut D,
    history: &History,
    height: u64,
    changes: &[Change],
) -> Result<(), KeepFault>
    requires takes { TakesDistinct (D.takes keeper.old) }
    requires settled { LeavesRows (D.may_leave keeper.old) (D.rows keeper.old) }
    requires rises { IfSome (D.rows keeper.old) Rises }
    requires history { IfSome (D.rows keeper.old) IsHistory }
    requires knows { Knows (D.rows keeper.old) history.now.base history.now.visible }
    requires ordinary { IsOrdinary changes.now }
    requires changing { ChangeRows changes.now (shown (D.rows keeper.old)) }
    requires height { height_of (map seen changes.now) ≡ Some height }
    requires last { IfSome (last_of history.now.visible) (λ last. height ≤ last) }
    ensures commits { CommitsTo result changes.now (D.rows keeper.old) (D.rows keeper.new)
        (D.is_honest keeper.old) (D.is_honest keeper.new)
        (D.may_leave keeper.old) (D.may_leave keeper.new) }
    ensures takes { (more : List Change) → D.takes keeper.old more → D.takes keeper.new more }
    ensures later { D.faults keeper.old ≤ D.faults keeper.new }
    ensures cause { IsErrOf result KeepFault.Failed
        → Rose (D.faults keeper.old) (D.faults keeper.new) }
    ensures quiet { UnlessLost result (D.faults keeper.new ≡ D.faults keeper.old) }
{
    let rows = keeper.load()?;
    let kept = kept_of(alloc, rows.as_slice())?;
    let list = anew(alloc, kept.as_slice(), history.base, height, changes)?;
    keeper.commit(list.as_slice())
}

/// Makes changes of this height with those of the history, in one commit of the keeper.
pub(crate) fn commit_at<D: Keeper>(
    alloc: Global,
    keeper: &mut D,
    history: &History,
    height: u64,
    changes: &[Change],
) -> Result<(), KeepFault>
    requires takes { TakesDistinct (D.takes keeper.old) }
    requires settled { LeavesRows (D.may_leave keeper.old) (D.rows keeper.old) }
    requires rises { IfSome (D.rows keeper.old) Rises }
    requires history { IfSome (D.rows keeper.old) IsHistory }
    requires knows { Knows (D.rows keeper.old) history.now.base history.now.visible }
    requires ordinary { IsOrdinary changes.now }
    requires changing { ChangeRows changes.now (shown (D.rows keeper.old)) }
    requires height { height_of (map seen changes.now) ≡ Some height }
    ensures commits { CommitsTo result changes.now (D.rows keeper.old) (D.rows keeper.new)
        (D.is_honest keeper.old) (D.is_honest keeper.new)
        (D.may_leave keeper.old) (D.may_leave keeper.new) }
    ensures takes { (more : List Change) → D.takes keeper.old more → D.takes keeper.new more }
    ensures later { D.faults keeper.old ≤ D.faults keeper.new }
    ensures cause { IsErrOf result KeepFault.Failed
        → Rose (D.faults keeper.old) (D.faults keeper.new) }
    ensures quiet { UnlessLost result (D.faults keeper.new ≡ D.faults keeper.old) }
{
    match history.last() {
        Some(last) => {
            if last < height {
                commit_on(alloc, keeper, history, last, height, changes)
            } else {
                commit_anew(alloc, keeper, history, height, changes)
            }
        }
        None => commit_anew(alloc, keeper, history, height, changes),
    }
}

/// The height of a commit that every keeper takes.
pub(crate) fn commit_height(changes: &[Change]) -> u64
    requires { IsOrdinary changes.now }
    ensures names { height_of (map seen changes.now) ≡ Some result }
    ensures fits { result < 2 ^ 64 }
{
    match height_of(changes) {
        Some(height) => height,
        None => unreachable!(),
    }
}

/// Makes changes that every keeper takes with those of the history, in one commit of the keeper, and
/// follows them in what is known of its rows.
///
/// Where memory was wanting to follow them, what is known are no more the rows of the keeper.
pub(crate) fn commit_known<D: Keeper>(
    alloc: Global,
    keeper: &mut D,
    known: &mut bool,
    history: &mut History,
    changes: &[Change],
) -> Result<(), KeepFault>
    requires takes { TakesDistinct (D.takes keeper.old) }
    requires settled { LeavesRows (D.may_leave keeper.old) (D.rows keeper.old) }
    requires rises { IfSome (D.rows keeper.old) Rises }
    requires history { IfSome (D.rows keeper.old) IsHistory }
    requires knows { known.old ≡ true
        → Knows (D.rows keeper.old) history.old.base history.old.visible }
    requires ordinary { IsOrdinary changes.now }
    requires changing { ChangeRows changes.now (shown (D.rows keeper.old)) }
    ensures is_commit { IsCommit changes.now }
    ensures commits { CommitsTo result changes.now (D.rows keeper.old) (D.rows keeper.new)
        (D.is_honest keeper.old) (D.is_honest keeper.new)
        (D.may_leave keeper.old) (D.may_leave keeper.new) }
    ensures knows { known.new ≡ true
        → Knows (D.rows keeper.new) history.new.base history.new.visible }
    ensures takes { (more : List Change) → D.takes keeper.old more → D.takes keeper.new more }
    ensures later { D.faults keeper.old ≤ D.faults keeper.new }
    ensures cause { IsErrOf result KeepFault.Failed
        → Rose (D.faults keeper.old) (D.faults keeper.new) }
    ensures quiet { UnlessLost result (D.faults keeper.new ≡ D.faults keeper.old) }
{
    let height = commit_height(changes);
    ready(alloc, keeper, *known, history)?;
    *known = true;
    commit_at(alloc, keeper, history, height, changes)?;
    *known = history.follow(changes, height);
    Ok(())
}
