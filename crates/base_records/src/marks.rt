//! Marks of tables that are marked together.

ghost use Rattle.std.specs.Prelude.{◌≡◌, OnOk, OnErr};
ghost use Rattle.base_table.specs.Tabled.{with_mark};

use base_table::{Table, TableFault};
use base_types::Copied;
use std::hash::Hash;

/// Opens a mark of both tables, or of none.
///
/// The errors are those of [`Table::mark`], of the first table or else of the second: `Spent` where the
/// table is spent, and `NoMemory` where as many of its marks are open as a `usize` counts.
pub fn mark_both<A: Ord + Hash + Copied, B: Copied, C: Ord + Hash + Copied, D: Copied>(
    first: &mut Table<A, B>,
    second: &mut Table<C, D>,
) -> Result<(), TableFault>
    ensures first { OnOk result (first.new ≡ with_mark first.old) }
    ensures second { OnOk result (second.new ≡ with_mark second.old) }
    ensures first_err { OnErr result (first.new ≡ first.old) }
    ensures second_err { OnErr result (second.new ≡ second.old) }
{
    first.mark()?;
    match second.mark() {
        Ok(()) => Ok(()),
        Err(fault) => {
            first.back();
            Err(fault)
        }
    }
}
