//! Code that is generic over keepers and knows no histories, over a keeper that keeps one.

ghost use Rattle.std.specs.Prelude.{◌≡◌, IfSome};
ghost use Rattle.base_io.specs.Changes.{IsOrdinary, LeavesRows, Rises};
ghost use Rattle.store_history.specs.Held.{HaveBecome, Knows, TakesDistinct};
ghost use Rattle.store_history.specs.History.{IsHistory};

use crate::checked::commit;
use base_io::{Change, Keeper};
use std::process::Abort;
use store_history::{History, HistoryKeeper, Loan};

/// Commits the changes, where each of them changes the rows, and keeps what they replace. It gives the keeper below back.
/// `commit` is generic over keepers and says nothing of that one: that it is still the one that was lent, and what became of
/// its rows, is known all the same.
pub(crate) fn commit_kept<'a, L: Loan, D: Keeper>(
    rt: &(impl Abort + AllocGlobal),
    keeper: &'a mut D,
    history: History,
    changes: &[Change],
) -> (bool, &'a mut D)
    requires lent { keeper.ghost_name ≡ L.name }
    requires rows { D.rows keeper.old ≡ L.rows }
    requires takes { TakesDistinct (D.takes keeper.old) }
    requires settled { LeavesRows (D.may_leave keeper.old) (D.rows keeper.old) }
    requires rises { IfSome (D.rows keeper.old) Rises }
    requires history { IfSome (D.rows keeper.old) IsHistory }
    requires knows { Knows (D.rows keeper.old) history.base history.visible }
    requires ordinary { IsOrdinary changes.now }
    ensures same_reference { result.1.ghost_name ≡ keeper.entry.ghost_name }
    ensures became { HaveBecome (D.rows keeper.old) (D.rows result.1.now) }
    ensures history { IfSome (D.rows result.1.now) IsHistory }
{
    let mut over = HistoryKeeper::<D, L>::over(rt.alloc(), keeper, history);
    let done = commit(rt, &mut over, changes);
    (done, over.into_inner())
}
