//! Rows that are loaded, and the chain of them.

ghost use Rattle.std.specs.Prelude.{◌≡◌, ◌≢◌, ◌≤◌, ◌<◌, [], All, Contains, List, Some, length, map, true, false, IfErr, IfOk, IfSome, IsErrOf, IsSome, OnErr, OnOk};
ghost use Rattle.base_io.specs.declared.keeper.Change.{Change};
ghost use Rattle.base_io.specs.Outside.{Rose};
ghost use Rattle.base_io.specs.Rows.{Makes, Pair};
ghost use Rattle.base_io.specs.Changes.{LeavesRows, Rises, pair_of};
ghost use Rattle.base_roles.specs.declared.items.Item.{Item};
ghost use Rattle.store_rows.specs.declared.format.Format.{Format};
ghost use Rattle.store_rows.specs.Rows.{row_in};
ghost use Rattle.store_rows.specs.Spelled.{HasRow};
ghost use Rattle.store_rows.specs.Told.{format_told};
ghost use Rattle.store_items.specs.Migrating.{AreListed};
ghost use Rattle.store_resuming.specs.Restored.{AreLoaded, AreOfNone};
ghost use Rattle.store_resuming.specs.Restoring.{AreChangesFrom, AreOfNoneIn, HasLongWindow, InOrder, IsChainIn, IsChainOf, IsNoChain, IsNotResumed, IsOfItems, IsOfNothing, IsRestored, IsUnrestored, UnlessFailed, not_read};

use crate::fault::RestoreFault;
use crate::from_items;
use base_io::{Change, KeepFault, Keeper, Row};
use chain_whole::{Chain, ChainFault};
use std::alloc::Global;
use store_items::{items_can_be_kept, items_of, migrate};
use store_rows::{Format, RowFault, format_of, window_of};

/// Nothing, where there are rows. It takes no memory: where there are none, the error is `Empty`.
fn are_some(rows: &[Row]) -> Result<(), RestoreFault>
    ensures some { OnOk result (0 < length rows.now) }
    ensures fault { IfErr result (λ fault. fault ≡ RestoreFault.Empty) }
    ensures none { OnErr result (length rows.now ≡ 0) }
{
    if rows.is_empty() {
        Err(RestoreFault::Empty)
    } else {
        Ok(())
    }
}

/// The rows of a keeper, of which there are some. The rows are left, and what a stop may leave.
///
/// # Errors
/// `Failed`, only where the count of faults rose; `Empty`, exactly where there are no rows; and `NoMemory`.
pub fn load_rows<D: Keeper>(keeper: &mut D) -> Result<Vec<Row>, RestoreFault>
    ensures rows { IfOk result (λ rows.
        IfSome (D.rows keeper.new) (λ now. map pair_of rows.items ≡ now)) }
    ensures some { IfOk result (λ rows. map pair_of rows.items ≢ []) }
    ensures told { OnOk result (D.is_honest keeper.new → IsSome (D.rows keeper.old)
        → IsSome (D.rows keeper.new)) }
    ensures ascending { IfSome (D.rows keeper.new) Rises }
    ensures fault { IfErr result (IsUnrestored
        (D.rows keeper.old) (D.rows keeper.new) (D.is_honest keeper.new)) }
    // They are not judged.
    ensures unjudged { IfErr result (λ fault. fault ≢ RestoreFault.Unsound) }
    // One that keeps nothing has no rows.
    ensures unkept { D.keeps keeper.old ≡ false → IsOfNothing result }
    ensures same { Makes (λ rows. rows) (D.rows keeper.old) (D.rows keeper.new) }
    ensures settled { LeavesRows (D.may_leave keeper.new) (D.rows keeper.new) }
    ensures honest { D.is_honest keeper.new → D.is_honest keeper.old }
    ensures stop { D.is_honest keeper.new → (left : List Pair)
        → D.may_leave keeper.new left → D.may_leave keeper.old left }
    ensures takes { (changes : List Change) → D.takes keeper.old changes
        → D.takes keeper.new changes }
    ensures later { D.faults keeper.old ≤ D.faults keeper.new }
    ensures cause { IsErrOf result RestoreFault.Failed
        → Rose (D.faults keeper.old) (D.faults keeper.new) }
    ensures quiet { UnlessFailed result (D.faults keeper.new ≡ D.faults keeper.old) }
{
    let rows = match keeper.load() {
        Ok(rows) => rows,
        Err(KeepFault::Failed) => return Err(RestoreFault::Failed),
        Err(KeepFault::NoMemory) => return Err(RestoreFault::NoMemory),
    };
    match are_some(&rows) {
        Ok(()) => Ok(rows),
        Err(fault) => Err(fault),
    }
}

/// Why no chain comes of rows that are not read as items.
fn not_read(fault: RowFault) -> RestoreFault
    ensures { result ≡ not_read fault }
{
    match fault {
        RowFault::BadRow => RestoreFault::Unsound,
        RowFault::NoMemory => RestoreFault::NoMemory,
    }
}

/// Why no chain comes of the items of rows.
fn not_resumed(fault: ChainFault) -> RestoreFault
    requires { IsOfItems fault }
    ensures { IsNotResumed fault result }
{
    match fault {
        ChainFault::BadGenesis(_) => unreachable!(),
        ChainFault::BadItems => RestoreFault::Unsound,
        ChainFault::NoMemory => RestoreFault::NoMemory,
    }
}

/// The chain of rows in a format. The errors are `Unsound`, exactly where they are those of no
/// sound state, and `NoMemory`.
fn chain_of(alloc: Global, format: Format, rows: &[Row]) -> Result<Chain, RestoreFault>
    ensures chain { IfOk result (IsChainIn format (InOrder (map pair_of rows.now))) }
    ensures listed { IfOk result
        (λ _. (items : List Item) × AreListed format items (map pair_of rows.now)) }
    ensures fault { IfErr result (IsNoChain (AreOfNoneIn format) (map pair_of rows.now)) }
{
    items_can_be_kept();
    let items = match items_of(alloc, format, rows) {
        Ok(items) => items,
        Err(fault) => return Err(not_read(fault)),
    };
    match from_items(alloc, items) {
        Ok(chain) => Ok(chain),
        Err(fault) => Err(not_resumed(fault)),
    }
}

/// The most places that the window of a signing record has in a sound state.
const LONGEST_WINDOW: u32 = 100_000;

/// Whether a row tells a window that no sound state has.
fn has_long_window(row: &Row) -> bool
    ensures { result ≡ true → (f : Format) (i : Item) → HasRow i
        → row_in f i ≡ pair_of row.now → HasLongWindow i }
{
    match window_of(row) {
        Some(count) => LONGEST_WINDOW < count,
        None => false,
    }
}

/// Whether one of the rows does.
fn have_long_window(rows: &[Row]) -> bool
    ensures { result ≡ true → (f : Format) (items : List Item) → All HasRow items
        → map (row_in f) items ≡ map pair_of rows.now
        → (i : Item) × Contains items i × HasLongWindow i }
{
    for row in rows {
        if has_long_window(row) {
            return true;
        }
    }
    false
}

/// The format that rows tell, where none of them tells a window that no sound state has. It takes no memory: the error is
/// `Unsound`, only where the rows are those of no sound state in either format.
fn format_of_state(rows: &[Row]) -> Result<Format, RestoreFault>
    ensures format { IfOk result
        (λ format. format_told (map pair_of rows.now) ≡ Some format) }
    ensures fault { IfErr result (λ fault. fault ≡ RestoreFault.Unsound) }
    ensures none { OnErr result (InOrder (map pair_of rows.now) AreOfNone) }
{
    items_can_be_kept();
    if have_long_window(rows) {
        return Err(RestoreFault::Unsound);
    }
    match format_of(rows) {
        Some(format) => Ok(format),
        None => Err(RestoreFault::Unsound),
    }
}

/// The chain of rows in the format that they tell, and this format. What a row tells of a window
/// takes no memory where no sound state has it. The errors are `Unsound`, exactly where they are
/// those of no sound state in either format, and `NoMemory`.
fn chain_told(alloc: Global, rows: &[Row]) -> Result<(Chain, Format), RestoreFault>
    ensures chain { IfOk result (λ r. IsChainIn r.1 (InOrder (map pair_of rows.now)) r.0) }
    ensures listed { IfOk result
        (λ r. (items : List Item) × AreListed r.1 items (map pair_of rows.now)) }
    ensures fault { IfErr result (IsNoChain AreOfNone (map pair_of rows.now)) }
{
    let format = match format_of_state(rows) {
        Ok(format) => format,
        Err(fault) => return Err(fault),
    };
    match chain_of(alloc, format, rows) {
        Ok(chain) => Ok((chain, format)),
        Err(fault) => Err(fault),
    }
}

/// The chain of rows in either format, settled, in the order of their keys: it stands for each sound state of which they are
/// the rows. The errors are `Unsound`, exactly where they are those of no sound state in either format, and `NoMemory`.
pub fn chain_of_rows(alloc: Global, rows: &[Row]) -> Result<Chain, RestoreFault>
    ensures chain { IfOk result (IsChainOf (InOrder (map pair_of rows.now))) }
    ensures fault { IfErr result (IsNoChain AreOfNone (map pair_of rows.now)) }
{
    match chain_told(alloc, rows) {
        Ok((chain, _)) => Ok(chain),
        Err(fault) => Err(fault),
    }
}

/// The chain of a keeper's rows in either format, settled: it stands for each sound state of which
/// they are the rows. The rows are left, and what a stop may leave.
///
/// # Errors
/// `Failed`, only where the count of faults rose; `Empty`, exactly where there are no rows;
/// `Unsound`, exactly where they are those of no sound state in either format; and `NoMemory`.
pub fn restore<D: Keeper>(alloc: Global, keeper: &mut D) -> Result<Chain, RestoreFault>
    ensures chain { IfOk result (IsChainOf
        (AreLoaded (D.rows keeper.old) (D.rows keeper.new) (D.is_honest keeper.new))) }
    ensures fault { IfErr result (IsUnrestored
        (D.rows keeper.old) (D.rows keeper.new) (D.is_honest keeper.new)) }
    ensures unkept { D.keeps keeper.old ≡ false → IsOfNothing result }
    ensures same { Makes (λ rows. rows) (D.rows keeper.old) (D.rows keeper.new) }
    ensures settled { LeavesRows (D.may_leave keeper.new) (D.rows keeper.new) }
    ensures honest { D.is_honest keeper.new → D.is_honest keeper.old }
    ensures stop { D.is_honest keeper.new → (left : List Pair)
        → D.may_leave keeper.new left → D.may_leave keeper.old left }
    ensures takes { (changes : List Change) → D.takes keeper.old changes
        → D.takes keeper.new changes }
    ensures later { D.faults keeper.old ≤ D.faults keeper.new }
    ensures cause { IsErrOf result RestoreFault.Failed
        → Rose (D.faults keeper.old) (D.faults keeper.new) }
    ensures quiet { UnlessFailed result (D.faults keeper.new ≡ D.faults keeper.old) }
{
    let rows = match load_rows(keeper) {
        Ok(rows) => rows,
        Err(fault) => return Err(fault),
    };
    match chain_told(alloc, &rows) {
        Ok((chain, _)) => Ok(chain),
        Err(fault) => Err(fault),
    }
}

/// A chain of rows, and the changes that bring these to the format that is written: none where they
/// are in it.
#[derive(Drop)]
pub struct Restored {
    pub chain: Chain,
    pub changes: Vec<Change>,
}

/// The changes that bring rows of a format to the one that is written. Of rows that are those of items the only error is
/// `NoMemory`.
fn changes_from(alloc: Global, format: Format, rows: &[Row]) -> Result<Vec<Change>, RowFault>
    ensures changes { IfOk result
        (λ list. AreChangesFrom format (map pair_of rows.now) list.items) }
    ensures fault { (items : List Item) → AreListed format items (map pair_of rows.now)
        → IfErr result (λ fault. fault ≡ RowFault.NoMemory) }
{
    match format {
        Format::First => migrate(alloc, rows),
        Format::Second => Ok(Vec::new(alloc)),
    }
}

/// The chain of a keeper's rows in either format, as [`restore`] gives it, and the changes that
/// bring these rows to the format that is written, for a run that goes on from them. The rows are
/// left, and what a stop may leave.
///
/// # Errors
/// Those of [`restore`].
pub fn restore_with_changes<D: Keeper>(
    alloc: Global,
    keeper: &mut D,
) -> Result<Restored, RestoreFault>
    ensures restored { IfOk result (λ r. IsRestored
        (AreLoaded (D.rows keeper.old) (D.rows keeper.new) (D.is_honest keeper.new))
        r.chain r.changes.items) }
    ensures fault { IfErr result (IsUnrestored
        (D.rows keeper.old) (D.rows keeper.new) (D.is_honest keeper.new)) }
    ensures unkept { D.keeps keeper.old ≡ false → IsOfNothing result }
    ensures same { Makes (λ rows. rows) (D.rows keeper.old) (D.rows keeper.new) }
    ensures settled { LeavesRows (D.may_leave keeper.new) (D.rows keeper.new) }
    ensures honest { D.is_honest keeper.new → D.is_honest keeper.old }
    ensures stop { D.is_honest keeper.new → (left : List Pair)
        → D.may_leave keeper.new left → D.may_leave keeper.old left }
    ensures takes { (changes : List Change) → D.takes keeper.old changes
        → D.takes keeper.new changes }
    ensures later { D.faults keeper.old ≤ D.faults keeper.new }
    ensures cause { IsErrOf result RestoreFault.Failed
        → Rose (D.faults keeper.old) (D.faults keeper.new) }
    ensures quiet { UnlessFailed result (D.faults keeper.new ≡ D.faults keeper.old) }
{
    let rows = match load_rows(keeper) {
        Ok(rows) => rows,
        Err(fault) => return Err(fault),
    };
    let (chain, format) = match chain_told(alloc, &rows) {
        Ok(told) => told,
        Err(fault) => return Err(fault),
    };
    match changes_from(alloc, format, &rows) {
        Ok(changes) => Ok(Restored { chain, changes }),
        Err(RowFault::NoMemory) => Err(RestoreFault::NoMemory),
        Err(RowFault::BadRow) => unreachable!(),
    }
}
