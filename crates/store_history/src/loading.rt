//! What is loaded from the keeper below.

ghost use Rattle.std.specs.Prelude.{◌≡◌, ◌≤◌, List, [], false, map, IfOk, IfSome, IsErrOf, IsSome, OnOk};
ghost use Rattle.base_io.specs.declared.keeper.Change.{Change};
ghost use Rattle.base_io.specs.Keeping.{UnlessLost};
ghost use Rattle.base_io.specs.Outside.{Rose};
ghost use Rattle.base_io.specs.Changes.{pair_of, LeavesRows, Rises};
ghost use Rattle.base_io.specs.Rows.{Makes, Pair};
ghost use Rattle.store_history.specs.Held.{Knows};
ghost use Rattle.store_history.specs.Opened.{open_fault, OnLoaded, UnlessFailed};
ghost use Rattle.store_history.specs.History.{stored_base, visible, IsHistory};

use crate::forms::is_visible;
use crate::history::{History, history_of, is_history};
use base_io::{KeepFault, Keeper, Row};
use std::alloc::Global;

/// Why no history is kept.
#[derive(Clone, Copy, Debug, PartialEq, Eq)]
pub enum OpenFault {
    /// The keeper failed, and its count of faults rose.
    Failed,
    /// A history in the rows is not of its form.
    BadHistory,
    /// Memory is wanting.
    NoMemory,
}

/// Why no history is kept, where a keeper failed or memory is wanting.
fn open_fault(fault: KeepFault) -> OpenFault
    ensures { result ≡ open_fault fault }
{
    match fault {
        KeepFault::Failed => OpenFault::Failed,
        KeepFault::NoMemory => OpenFault::NoMemory,
    }
}

/// Leaves the visible rows alone.
fn keep_visible(rows: &mut Vec<Row>)
    ensures { map pair_of rows.new.items ≡ visible (map pair_of rows.old.items) }
{
    rows.retain(|row| is_visible(row.key.as_slice()));
}

/// The visible rows of a keeper.
pub(crate) fn load_visible<D: Keeper>(keeper: &mut D) -> Result<Vec<Row>, KeepFault>
    ensures rows { IfOk result (λ list.
        IfSome (D.rows keeper.new) (λ rows. map pair_of list.items ≡ visible rows)) }
    ensures ascending { IfSome (D.rows keeper.new) Rises }
    ensures unkept { D.keeps keeper.old ≡ false → IfOk result (λ list. list.items ≡ []) }
    ensures same { Makes (λ pairs. pairs) (D.rows keeper.old) (D.rows keeper.new) }
    ensures told { OnOk result (D.is_honest keeper.new
        → IsSome (D.rows keeper.old) → IsSome (D.rows keeper.new)) }
    ensures settled { LeavesRows (D.may_leave keeper.new) (D.rows keeper.new) }
    ensures honest { D.is_honest keeper.new → D.is_honest keeper.old }
    ensures stop { D.is_honest keeper.new → (left : List Pair)
        → D.may_leave keeper.new left → D.may_leave keeper.old left }
    ensures takes { (changes : List Change) → D.takes keeper.old changes
        → D.takes keeper.new changes }
    ensures later { D.faults keeper.old ≤ D.faults keeper.new }
    ensures cause { IsErrOf result KeepFault.Failed
        → Rose (D.faults keeper.old) (D.faults keeper.new) }
    ensures quiet { UnlessLost result (D.faults keeper.new ≡ D.faults keeper.old) }
{
    let mut rows = keeper.load()?;
    keep_visible(&mut rows);
    Ok(rows)
}

/// What is known of the rows of a keeper, which are loaded.
pub(crate) fn load_history<D: Keeper>(alloc: Global, keeper: &mut D) -> Result<History, KeepFault>
    ensures knows { IfOk result (λ it. Knows (D.rows keeper.new) it.base it.visible) }
    ensures same { Makes (λ pairs. pairs) (D.rows keeper.old) (D.rows keeper.new) }
    ensures told { OnOk result (D.is_honest keeper.new
        → IsSome (D.rows keeper.old) → IsSome (D.rows keeper.new)) }
    ensures settled { LeavesRows (D.may_leave keeper.new) (D.rows keeper.new) }
    ensures honest { D.is_honest keeper.new → D.is_honest keeper.old }
    ensures stop { D.is_honest keeper.new → (left : List Pair)
        → D.may_leave keeper.new left → D.may_leave keeper.old left }
    ensures takes { (changes : List Change) → D.takes keeper.old changes
        → D.takes keeper.new changes }
    ensures later { D.faults keeper.old ≤ D.faults keeper.new }
    ensures cause { IsErrOf result KeepFault.Failed
        → Rose (D.faults keeper.old) (D.faults keeper.new) }
    ensures quiet { UnlessLost result (D.faults keeper.new ≡ D.faults keeper.old) }
{
    let rows = keeper.load()?;
    let history = history_of(alloc, rows.as_slice())?;
    Ok(history)
}

/// What is known of rows in which a history is of its form.
fn read_rows(alloc: Global, rows: &[Row]) -> Result<History, OpenFault>
    ensures visible { IfOk result (λ it. Rises (map pair_of rows.now)
        → it.visible ≡ visible (map pair_of rows.now)) }
    ensures base { IfOk result (λ it. Rises (map pair_of rows.now)
        → it.base ≡ stored_base (map pair_of rows.now)) }
    ensures history { OnOk result (Rises (map pair_of rows.now)
        → IsHistory (map pair_of rows.now)) }
    ensures bad { IsErrOf result OpenFault.BadHistory → Rises (map pair_of rows.now)
        → IsHistory (map pair_of rows.now) → ⊥ }
    ensures read { IsErrOf result OpenFault.Failed → ⊥ }
{
    match history_of(alloc, rows) {
        Ok(history) => {
            if !is_history(&history, rows) {
                return Err(OpenFault::BadHistory);
            }
            Ok(history)
        }
        Err(_) => Err(OpenFault::NoMemory),
    }
}

/// What is known of the rows of a keeper, in which a history is of its form. They are loaded.
///
/// # Errors
/// `Failed`, only where the count of faults rose, `BadHistory` where a history in the rows is not of its
/// form, and `NoMemory`.
pub fn read_history<D: Keeper>(alloc: Global, keeper: &mut D) -> Result<History, OpenFault>
    ensures knows { IfOk result (λ it. Knows (D.rows keeper.new) it.base it.visible) }
    ensures history { OnOk result (IfSome (D.rows keeper.new) IsHistory) }
    ensures bad { IsErrOf result OpenFault.BadHistory
        → IfSome (D.rows keeper.new) (λ rows. IsHistory rows → ⊥) }
    ensures ascending { IfSome (D.rows keeper.new) Rises }
    ensures same { Makes (λ pairs. pairs) (D.rows keeper.old) (D.rows keeper.new) }
    // A keeper that keeps nothing has nothing to load.
    ensures unkept { D.keeps keeper.old ≡ false → IsErrOf result OpenFault.BadHistory → ⊥ }
    // Where the rows were loaded, an honest keeper tells them still.
    ensures told { OnLoaded result (D.is_honest keeper.new
        → IsSome (D.rows keeper.old) → IsSome (D.rows keeper.new)) }
    ensures settled { LeavesRows (D.may_leave keeper.new) (D.rows keeper.new) }
    ensures honest { D.is_honest keeper.new → D.is_honest keeper.old }
    ensures stop { D.is_honest keeper.new → (left : List Pair)
        → D.may_leave keeper.new left → D.may_leave keeper.old left }
    ensures takes { (changes : List Change) → D.takes keeper.old changes
        → D.takes keeper.new changes }
    ensures later { D.faults keeper.old ≤ D.faults keeper.new }
    ensures cause { IsErrOf result OpenFault.Failed
        → Rose (D.faults keeper.old) (D.faults keeper.new) }
    ensures quiet { UnlessFailed result (D.faults keeper.new ≡ D.faults keeper.old) }
{
    match keeper.load() {
        Ok(rows) => read_rows(alloc, rows.as_slice()),
        Err(fault) => Err(open_fault(fault)),
    }
}
