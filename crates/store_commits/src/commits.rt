//! Commits of a chain to a keeper: all of its rows at the genesis, and at each block those that
//! changed; and before a run that goes on from rows of another format, those that are others in the
//! one that is written.

ghost use Rattle.std.specs.Prelude.{◌≡◌, ◌≢◌, ◌⊎◌, ◌≤◌, [], List, Ok, IsErrOf, IfErr, IfOk, IfSome, IsSome, OnErr, OnOk, true, false};
ghost use Rattle.base_io.specs.declared.keeper.Change.{Change};
ghost use Rattle.base_io.specs.Keeping.{UnlessLost};
ghost use Rattle.base_io.specs.Outside.{Rose};
ghost use Rattle.base_io.specs.Rows.{Makes, Pair};
ghost use Rattle.base_io.specs.Changes.{ChangeRows, IsOrdinary, LeavesRows};
ghost use Rattle.base_roles.specs.declared.items.Item.{Item};
ghost use Rattle.store_commits.specs.Held.{HasRisen};
ghost use Rattle.store_commits.specs.Commits.{Commits, Holds, IsCommit, LeadTo};
ghost use Rattle.rule_machine.specs.Items.{items_of};
ghost use Rattle.chain_modules.specs.Kept.{StandsFor};
ghost use Rattle.rule_modules.specs.Chain.{State};

use base_io::{Change, KeepFault, Keeper};
use chain_whole::{Chain, ChainFault};
use std::alloc::Global;
use store_items::{changes_of, commits_reach_new_rows, items_can_be_kept, puts_of};

/// Whether the keeper has rows. They are loaded.
///
/// # Errors
/// `Failed`, only where the count of faults rose, and `NoMemory`.
pub fn has_rows<D: Keeper>(keeper: &mut D) -> Result<bool, KeepFault>
    ensures none { result ≡ Ok false → IfSome (D.rows keeper.new) (λ rows. rows ≡ []) }
    ensures some { result ≡ Ok true → IfSome (D.rows keeper.new) (λ rows. rows ≢ []) }
    // One that keeps nothing has none.
    ensures kept { result ≡ Ok true → D.keeps keeper.old ≡ true }
    ensures same { Makes (λ rows. rows) (D.rows keeper.old) (D.rows keeper.new) }
    ensures told { OnOk result (D.is_honest keeper.new → IsSome (D.rows keeper.old)
        → IsSome (D.rows keeper.new)) }
    ensures settled { LeavesRows (D.may_leave keeper.new) (D.rows keeper.new) }
    ensures honest { D.is_honest keeper.new → D.is_honest keeper.old }
    ensures stop { D.is_honest keeper.new → (left : List Pair)
        → D.may_leave keeper.new left → D.may_leave keeper.old left }
    ensures later { D.faults keeper.old ≤ D.faults keeper.new }
    ensures cause { IsErrOf result KeepFault.Failed
        → Rose (D.faults keeper.old) (D.faults keeper.new) }
    ensures quiet { UnlessLost result (D.faults keeper.new ≡ D.faults keeper.old) }
{
    match keeper.load() {
        Ok(rows) => { if rows.is_empty() { Ok(false) } else { Ok(true) } }
        Err(fault) => Err(fault),
    }
}

/// The changes that put each row of a chain. The only error is `NoMemory`.
fn first_changes(alloc: Global, chain: &Chain) -> Result<Vec<Change>, KeepFault>
    requires stands { (q : State) × StandsFor chain.now.kept q }
    ensures made { (q : State) → StandsFor chain.now.kept q
        → IfOk result (λ list. IsCommit [] (items_of q) list.items) }
    ensures fault { IfErr result (λ fault. fault ≡ KeepFault.NoMemory) }
{
    items_can_be_kept();
    commits_reach_new_rows();
    let items = match chain.items(alloc) {
        Ok(items) => items,
        Err(ChainFault::NoMemory) => return Err(KeepFault::NoMemory),
        Err(_) => unreachable!(),
    };
    match puts_of(alloc, &items) {
        Ok(list) => Ok(list),
        Err(_) => Err(KeepFault::NoMemory),
    }
}

/// The changes of rows since a chain was settled. The only error is `NoMemory`.
fn next_changes(alloc: Global, chain: &Chain) -> Result<Vec<Change>, KeepFault>
    // The height rose since then.
    requires risen { (p : State) × (q : State) × StandsFor chain.now.settled p
        × StandsFor chain.now.kept q × HasRisen p q }
    ensures made { (p q : State) → StandsFor chain.now.settled p → StandsFor chain.now.kept q
        → IfOk result (λ list. IsCommit (items_of p) (items_of q) list.items) }
    ensures fault { IfErr result (λ fault. fault ≡ KeepFault.NoMemory) }
{
    items_can_be_kept();
    commits_reach_new_rows();
    let changes = match chain.changes(alloc) {
        Ok(changes) => changes,
        Err(ChainFault::NoMemory) => return Err(KeepFault::NoMemory),
        Err(_) => unreachable!(),
    };
    match changes_of(alloc, &changes) {
        Ok(list) => Ok(list),
        Err(_) => Err(KeepFault::NoMemory),
    }
}

/// Commits changes that lead from the items that the keeper holds to others.
fn commit_made<D: Keeper>(keeper: &mut D, list: &[Change]) -> Result<(), KeepFault>
    requires made { (old new : List Item) × IsCommit old new list.now
        × Holds old (D.rows keeper.old) }
    ensures commits { (old new : List Item) → IsCommit old new list.now
        → Holds old (D.rows keeper.old) → Commits result new (D.rows keeper.old) (D.rows keeper.new)
        (D.is_honest keeper.old) (D.is_honest keeper.new)
        (D.may_leave keeper.old) (D.may_leave keeper.new) }
    ensures honest { D.is_honest keeper.new → D.is_honest keeper.old }
    ensures later { D.faults keeper.old ≤ D.faults keeper.new }
    ensures cause { IsErrOf result KeepFault.Failed
        → Rose (D.faults keeper.old) (D.faults keeper.new) }
    ensures quiet { UnlessLost result (D.faults keeper.new ≡ D.faults keeper.old) }
{
    commits_reach_new_rows();
    keeper.commit(list)
}

/// Puts the rows of a chain into a keeper that has none. Nothing is done where the keeper keeps
/// nothing.
///
/// # Errors
/// `Failed`, only where the count of faults rose, and `NoMemory`. The keeper has no rows then.
pub fn commit_first<D: Keeper>(
    alloc: Global,
    keeper: &mut D,
    chain: &Chain,
) -> Result<(), KeepFault>
    requires holds { Holds [] (D.rows keeper.old) }
    requires stands { (q : State) × StandsFor chain.now.kept q }
    ensures commits { (q : State) → StandsFor chain.now.kept q
        → Commits result (items_of q) (D.rows keeper.old) (D.rows keeper.new)
        (D.is_honest keeper.old) (D.is_honest keeper.new)
        (D.may_leave keeper.old) (D.may_leave keeper.new) }
    ensures honest { D.is_honest keeper.new → D.is_honest keeper.old }
    ensures later { D.faults keeper.old ≤ D.faults keeper.new }
    ensures cause { IsErrOf result KeepFault.Failed
        → Rose (D.faults keeper.old) (D.faults keeper.new) }
    ensures quiet { UnlessLost result (D.faults keeper.new ≡ D.faults keeper.old) }
{
    if !keeper.keeps_rows() {
        return Ok(());
    }
    match first_changes(alloc, chain) {
        Ok(list) => commit_made(keeper, &list),
        Err(fault) => Err(fault),
    }
}

/// Makes the changes of a chain since it was settled, in a keeper that holds what was settled. After
/// Ok the chain is settled. Where the keeper keeps nothing, no change is looked for: the chain is
/// settled, and that is all.
///
/// # Errors
/// `Failed`, only where the count of faults rose, and `NoMemory`. The keeper holds what it held then,
/// and what was settled of the chain stays.
pub fn commit_next<D: Keeper>(
    alloc: Global,
    keeper: &mut D,
    chain: &mut Chain,
) -> Result<(), KeepFault>
    // The height rose since then.
    requires holds { (p : State) × (q : State) × StandsFor chain.old.settled p
        × StandsFor chain.old.kept q × HasRisen p q × Holds (items_of p) (D.rows keeper.old) }
    ensures commits { (q : State) → StandsFor chain.old.kept q
        → Commits result (items_of q) (D.rows keeper.old) (D.rows keeper.new)
        (D.is_honest keeper.old) (D.is_honest keeper.new)
        (D.may_leave keeper.old) (D.may_leave keeper.new) }
    ensures kept { chain.new.kept ≡ chain.old.kept }
    ensures settled { OnOk result (chain.new.settled ≡ chain.old.kept) }
    ensures unsettled { OnErr result (chain.new.settled ≡ chain.old.settled) }
    ensures honest { D.is_honest keeper.new → D.is_honest keeper.old }
    ensures later { D.faults keeper.old ≤ D.faults keeper.new }
    ensures cause { IsErrOf result KeepFault.Failed
        → Rose (D.faults keeper.old) (D.faults keeper.new) }
    ensures quiet { UnlessLost result (D.faults keeper.new ≡ D.faults keeper.old) }
{
    if !keeper.keeps_rows() {
        chain.settle();
        return Ok(());
    }
    let list = match next_changes(alloc, chain) {
        Ok(list) => list,
        Err(fault) => return Err(fault),
    };
    match commit_made(keeper, &list) {
        Ok(()) => {
            chain.settle();
            Ok(())
        }
        Err(fault) => Err(fault),
    }
}

/// Commits the changes that bring the rows of a keeper to those of a chain in the format that is
/// written. Where there are none, the rows are so, and nothing is done.
///
/// # Errors
/// `Failed`, only where the count of faults rose, and `NoMemory`. The rows are as before then.
pub fn commit_migration<D: Keeper>(keeper: &mut D, list: &[Change]) -> Result<(), KeepFault>
    requires ordinary { (list.now ≡ []) ⊎ IsOrdinary list.now }
    requires changing { ChangeRows list.now (D.rows keeper.old) }
    ensures commits { (items : List Item) → LeadTo items list.now (D.rows keeper.old)
        → Commits result items (D.rows keeper.old) (D.rows keeper.new)
        (D.is_honest keeper.old) (D.is_honest keeper.new)
        (D.may_leave keeper.old) (D.may_leave keeper.new) }
    // Where nothing is to be done nothing fails.
    ensures none { list.now ≡ [] → result ≡ Ok tt }
    ensures honest { D.is_honest keeper.new → D.is_honest keeper.old }
    ensures later { D.faults keeper.old ≤ D.faults keeper.new }
    ensures cause { IsErrOf result KeepFault.Failed
        → Rose (D.faults keeper.old) (D.faults keeper.new) }
    ensures quiet { UnlessLost result (D.faults keeper.new ≡ D.faults keeper.old) }
{
    if list.is_empty() {
        return Ok(());
    }
    keeper.commit(list)
}
