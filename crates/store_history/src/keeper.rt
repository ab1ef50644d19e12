//! A keeper over a keeper that also keeps what each commit's rows replaced.

ghost use Rattle.std.specs.Prelude.{◌≡◌, ◌≤◌, ◌⊎◌, ℕ, List, [], Option, None, false, map, IfOk, IfSome, IsErrOf, IsSome, OnErr, OnOk};
ghost use Rattle.base_io.specs.declared.keeper.Change.{Change};
ghost use Rattle.base_io.specs.Keeping.{UnlessLost};
ghost use Rattle.base_io.specs.Outside.{Rose};
ghost use Rattle.base_io.specs.Changes.{changed, pair_of, ChangeRows, IsOrdinary, LeavesRows, Rises};
ghost use Rattle.base_io.specs.Rows.{Makes, Pair};
ghost use Rattle.store_history.specs.Commits.{committed, seen};
ghost use Rattle.store_history.specs.Held.{shown, HaveBecome, Knows, ShowsLeft, TakesDistinct};
ghost use Rattle.store_history.specs.History.{IsHistory};

use crate::committing::commit_known;
use crate::history::History;
use crate::loading::{OpenFault, load_visible, read_history};
use base_io::{Change, KeepFault, Keeper, Row};
use std::alloc::Global;
use std::marker::{Brand, Model, PhantomData};

/// What proofs remember of a keeper that is lent: the name of the reference, and the rows that it told then.
///
/// It has no values. Code that lends a keeper to a [`HistoryKeeper`] is generic over it and gives the keeper
/// back, and is called with [`Brand`] in its place, of which the call's proof says what it stands for.
pub trait Loan {
    ghost name: { ℕ };

    ghost rows: { Option (List Pair) };
}

impl Loan for Brand {
    ghost name = { 0 };

    ghost rows = { None };
}

/// A keeper over another, which it was lent. It tells the visible rows of the other, and with each commit
/// it keeps there what the changed rows were before, so that rows of a past height can be read.
///
/// Each commit is one commit of the other keeper. What of a history stands among the rows of the other has
/// keys that begin with the byte 0x60 or 0x61.
///
/// Whatever is done with it, the other keeper is the one of the loan `L`, and its rows are what commits made
/// of those of the loan. So code that is generic over keepers need not say so.
#[derive(Drop)]
pub struct HistoryKeeper<'a, D: Keeper, L: Loan> {
    of: PhantomData<L>,
    alloc: Global,
    inner: &'a mut D,
    /// Whether what is known are the rows of the other keeper. Where memory was wanting to follow a commit,
    /// they are loaded again before the next one.
    known: bool,
    history: History,
}

impl<'a, D: Keeper, L: Loan> Model for HistoryKeeper<'a, D, L> {
    ghost use Rattle.std.specs.Prelude.{◌≡◌};
    ghost use Rattle.store_history.specs.Held.{HaveBecome, Held, held_code, IsKeeping};

    ghost Value = { Held D };

    ghost coded = { held_code D.code };

    ghost view = { λ k. record { inner = k.inner } };

    ghost invariant = { λ k. IsKeeping (D.takes k.inner.now) (D.rows k.inner.now)
        (D.may_leave k.inner.now) k.known k.history.base k.history.visible
        × (k.inner.ghost_name ≡ L.name) × HaveBecome L.rows (D.rows k.inner.now) };
}

impl<'a, D: Keeper, L: Loan> HistoryKeeper<'a, D, L> {
    /// A keeper over one of whose rows this is known, as [`read_history`] reads it.
    pub fn over(alloc: Global, inner: &'a mut D, history: History) -> HistoryKeeper<'a, D, L>
        requires takes { TakesDistinct (D.takes inner.old) }
        requires settled { LeavesRows (D.may_leave inner.old) (D.rows inner.old) }
        requires rises { IfSome (D.rows inner.old) Rises }
        requires history { IfSome (D.rows inner.old) IsHistory }
        requires knows { Knows (D.rows inner.old) history.base history.visible }
        // It is the one of the loan, and its rows are those of the loan, or what commits made of them.
        requires lent { inner.ghost_name ≡ L.name }
        requires became { HaveBecome L.rows (D.rows inner.old) }
        ensures same_reference { result.inner.ghost_name ≡ inner.entry.ghost_name }
        ensures same { result.inner.now ≡ inner.old }
    {
        HistoryKeeper {
            of: PhantomData,
            alloc,
            inner,
            known: true,
            history,
        }
    }

    /// Gives the other keeper back: that of the loan, with what commits made of its rows, in which a history
    /// is of its form.
    pub fn into_inner(self) -> &'a mut D
        ensures same_reference { result.ghost_name ≡ self.entry.inner.ghost_name }
        ensures same { result.now ≡ self.entry.inner.now }
        ensures lent { result.ghost_name ≡ L.name }
        ensures became { HaveBecome L.rows (D.rows result.now) }
        ensures history { IfSome (D.rows result.now) IsHistory }
        ensures settled { LeavesRows (D.may_leave result.now) (D.rows result.now) }
        ensures takes { TakesDistinct (D.takes result.now) }
    {
        let HistoryKeeper {
            of: _,
            alloc: _,
            inner,
            known: _,
            history: _,
        } = self;
        inner
    }
}

/// Begins to keep a history in the rows of a keeper, or goes on with the one that stands there. The keeper
/// takes every list of distinct keys. [`read_history`] and [`HistoryKeeper::over`] are its two parts.
///
/// # Errors
/// `Failed` where the keeper did not give its rows, and its count of faults rose; `BadHistory` where a history
/// in them is not of its form; and `NoMemory`. The rows of the keeper are as before.
pub fn open<'a, D: Keeper, L: Loan>(
    alloc: Global,
    inner: &'a mut D,
) -> Result<HistoryKeeper<'a, D, L>, OpenFault>
    requires takes { TakesDistinct (D.takes inner.old) }
    requires lent { inner.ghost_name ≡ L.name }
    requires rows { D.rows inner.old ≡ L.rows }
    ensures same_reference { IfOk result (λ k. k.inner.ghost_name ≡ inner.entry.ghost_name) }
    ensures same { IfOk result
        (λ k. Makes (λ pairs. pairs) (D.rows inner.old) (D.rows k.inner.now)) }
    ensures told { IfOk result (λ k. D.is_honest k.inner.now
        → IsSome (D.rows inner.old) → IsSome (D.rows k.inner.now)) }
    ensures history { IfOk result (λ k. IfSome (D.rows k.inner.now) IsHistory) }
    ensures settled { IfOk result (λ k. LeavesRows (D.may_leave k.inner.now) (D.rows k.inner.now)) }
    ensures honest { IfOk result (λ k. D.is_honest k.inner.now → D.is_honest inner.old) }
    ensures stop { IfOk result (λ k. D.is_honest k.inner.now → (left : List Pair)
        → D.may_leave k.inner.now left → D.may_leave inner.old left) }
    ensures takes { IfOk result (λ k. TakesDistinct (D.takes k.inner.now)) }
    ensures quiet { IfOk result (λ k. D.faults k.inner.now ≡ D.faults inner.old) }
{
    match read_history(alloc, inner) {
        Ok(history) => Ok(HistoryKeeper::over(alloc, inner, history)),
        Err(fault) => Err(fault),
    }
}

impl<D: Keeper, L: Loan> Keeper for HistoryKeeper<'_, D, L> {
    ghost use Rattle.base_io.specs.Changes.{IsOrdinary};
    ghost use Rattle.store_history.specs.Held.{shown, ShowsLeft};
    ghost use Rattle.std.proofs.Common.{ap};

    ghost keeps = { λ k. D.keeps k.inner.now };

    ghost rows = { λ k. shown (D.rows k.inner.now) };

    ghost is_honest = { λ k. D.is_honest k.inner.now };

    ghost may_leave = { λ k. ShowsLeft (D.may_leave k.inner.now) };

    ghost faults = { λ k. D.faults k.inner.now };

    ghost takes = { λ _ changes. IsOrdinary changes };

    fn keeps_rows(&self) -> bool {
        self.inner.keeps_rows()
    }

    /// The visible rows of the other keeper.
    fn load(&mut self) -> Result<Vec<Row>, KeepFault>
        ensures rows { IfOk result (λ list.
            IfSome (shown (D.rows self.new.inner.now)) (λ pairs. map pair_of list.items ≡ pairs)) }
        ensures ascending { IfSome (shown (D.rows self.new.inner.now)) Rises }
        ensures unkept { D.keeps self.old.inner.now ≡ false
            → IfOk result (λ list. list.items ≡ []) }
        ensures same { Makes (λ pairs. pairs) (shown (D.rows self.old.inner.now))
            (shown (D.rows self.new.inner.now)) }
        ensures told { OnOk result (D.is_honest self.new.inner.now
            → IsSome (shown (D.rows self.old.inner.now))
            → IsSome (shown (D.rows self.new.inner.now))) }
        ensures settled { LeavesRows (ShowsLeft (D.may_leave self.new.inner.now))
            (shown (D.rows self.new.inner.now)) }
        ensures honest { D.is_honest self.new.inner.now → D.is_honest self.old.inner.now }
        ensures stop { D.is_honest self.new.inner.now → (left : List Pair)
            → ShowsLeft (D.may_leave self.new.inner.now) left
            → ShowsLeft (D.may_leave self.old.inner.now) left }
        ensures takes { (changes : List Change) → IsOrdinary changes → IsOrdinary changes }
        ensures later { D.faults self.old.inner.now ≤ D.faults self.new.inner.now }
        ensures cause { IsErrOf result KeepFault.Failed
            → Rose (D.faults self.old.inner.now) (D.faults self.new.inner.now) }
        ensures quiet { UnlessLost result
            (D.faults self.new.inner.now ≡ D.faults self.old.inner.now) }
        // The other keeper is the one that was lent, and its rows stay.
        ensures same_reference { self.new.inner.ghost_name ≡ self.old.inner.ghost_name }
        ensures inner { Makes (λ pairs. pairs) (D.rows self.old.inner.now)
            (D.rows self.new.inner.now) }
        ensures history { IfSome (D.rows self.new.inner.now) IsHistory }
    {
        load_visible(self.inner)
    }

    /// Makes the changes, and keeps what they replace: one commit of the other keeper.
    fn commit(&mut self, changes: &[Change]) -> Result<(), KeepFault>
        requires taken { IsOrdinary changes.now }
        requires changing { ChangeRows changes.now (shown (D.rows self.old.inner.now)) }
        ensures ok { OnOk result (Makes (changed changes.now) (shown (D.rows self.old.inner.now))
            (shown (D.rows self.new.inner.now))) }
        ensures told { OnOk result (D.is_honest self.new.inner.now
            → IsSome (shown (D.rows self.old.inner.now))
            → IsSome (shown (D.rows self.new.inner.now))) }
        ensures err { OnErr result (Makes (λ pairs. pairs) (shown (D.rows self.old.inner.now))
            (shown (D.rows self.new.inner.now))) }
        ensures settled { LeavesRows (ShowsLeft (D.may_leave self.new.inner.now))
            (shown (D.rows self.new.inner.now)) }
        ensures honest { D.is_honest self.new.inner.now → D.is_honest self.old.inner.now }
        ensures stop { D.is_honest self.new.inner.now
            → IfSome (shown (D.rows self.old.inner.now)) (λ pairs. (left : List Pair)
            → ShowsLeft (D.may_leave self.new.inner.now) left
            → ShowsLeft (D.may_leave self.old.inner.now) left
            ⊎ (left ≡ changed changes.now pairs)) }
        ensures takes { (more : List Change) → IsOrdinary more → IsOrdinary more }
        ensures later { D.faults self.old.inner.now ≤ D.faults self.new.inner.now }
        ensures cause { IsErrOf result KeepFault.Failed
            → Rose (D.faults self.old.inner.now) (D.faults self.new.inner.now) }
        ensures quiet { UnlessLost result
            (D.faults self.new.inner.now ≡ D.faults self.old.inner.now) }
        // The other keeper is the one that was lent, and its rows are those after this commit.
        ensures same_reference { self.new.inner.ghost_name ≡ self.old.inner.ghost_name }
        ensures inner { OnOk result (Makes (committed (map seen changes.now))
            (D.rows self.old.inner.now) (D.rows self.new.inner.now)) }
        ensures inner_err { OnErr result (Makes (λ pairs. pairs)
            (D.rows self.old.inner.now) (D.rows self.new.inner.now)) }
        ensures history { IfSome (D.rows self.new.inner.now) IsHistory }
    {
        commit_known(
            self.alloc,
            self.inner,
            &mut self.known,
            &mut self.history,
            changes,
        )
    }

    ghost takes_ordinary = { λ _ changes ordinary. ordinary };

    ghost untold = { λ k unkept. ap shown (D.untold k.inner.now unkept) };

    ghost keeps_alike = { λ k other. D.keeps_alike k.inner.now other.inner.now };
}
