//! Visible rows in memory, in the order of their keys.

ghost use Rattle.std.specs.Prelude.{◌≡◌, [], map, IfOk, OnOk, OnErr, option_map};
ghost use Rattle.store_history.specs.Held.{row_in};
ghost use Rattle.base_io.specs.Changes.{changed, changed_by, pair_of, remove, value_of, Rises};
ghost use Rattle.base_io.specs.Rows.{put};

use base_io::{Change, Row};
use std::alloc::{AllocError, Global};
use std::collections::BTreeMap;
use std::marker::Model;

/// Rows in memory, in the order of their keys. Contracts see them as pairs.
#[derive(Drop)]
pub(crate) struct VisibleRows {
    alloc: Global,
    tree: BTreeMap<Vec<u8>, Vec<u8>>,
}

impl Model for VisibleRows {
    ghost use Rattle.std.specs.Prelude.{List, map};
    ghost use Rattle.base_io.specs.Rows.{Pair};
    ghost use Rattle.base_io.specs.Changes.{Rises};

    ghost Value = { List Pair };

    ghost view = { λ r. map (λ e. (e.0.items, e.1.items)) r.tree.entries };

    ghost invariant = { λ r. Rises (map (λ e. (e.0.items, e.1.items)) r.tree.entries) };
}

impl VisibleRows {
    /// No rows.
    pub(crate) fn new(alloc: Global) -> VisibleRows
        ensures { result ≡ [] }
    {
        VisibleRows {
            alloc,
            tree: BTreeMap::new(alloc),
        }
    }

    /// The value of a key.
    pub(crate) fn get(&self, key: &[u8]) -> Option<&[u8]>
        ensures value { option_map (λ value. value.now) result ≡ value_of key.now self.now }
        ensures rises { Rises self.now }
    {
        match self.tree.get(key) {
            Some(value) => Some(value.as_slice()),
            None => None,
        }
    }

    /// Puts the row of this key.
    pub(crate) fn put(&mut self, key: Vec<u8>, value: Vec<u8>) -> Result<(), AllocError>
        ensures ok { OnOk result (self.new ≡ put (key.items, value.items) self.old) }
        ensures err { OnErr result (self.new ≡ self.old) }
    {
        match self.tree.insert(key, value) {
            Ok(_) => Ok(()),
            Err(refused) => Err(AllocError::from(refused)),
        }
    }

    /// Removes the row of this key, if it stands.
    pub(crate) fn remove(&mut self, key: &[u8])
        ensures { self.new ≡ remove key.now self.old }
    {
        let _ = self.tree.remove(key);
    }

    /// Makes a change.
    fn change(&mut self, change: &Change) -> Result<(), AllocError>
        ensures { OnOk result (self.new ≡ changed_by change.now self.old) }
    {
        match change {
            Change::Put(row) => {
                let key = row.key.clone()?;
                let value = row.value.clone()?;
                self.put(key, value)
            }
            Change::Remove(key) => {
                self.remove(key.as_slice());
                Ok(())
            }
        }
    }

    /// Makes the changes. Where memory is wanting, only the first of them may be made.
    pub(crate) fn change_all(&mut self, changes: &[Change]) -> Result<(), AllocError>
        ensures { OnOk result (self.new ≡ changed changes.now self.old) }
    {
        for change in changes {
            self.change(change)?;
        }
        Ok(())
    }

    /// The rows, moved into a list.
    pub(crate) fn into_rows(self) -> Result<Vec<Row>, AllocError>
        ensures rows { IfOk result (λ rows. map pair_of rows.items ≡ self) }
        ensures rises { Rises self }
    {
        let VisibleRows { alloc, tree } = self;
        rows_of(alloc, tree)
    }
}

/// The entries of a map as rows.
fn rows_of(alloc: Global, tree: BTreeMap<Vec<u8>, Vec<u8>>) -> Result<Vec<Row>, AllocError>
    ensures { IfOk result (λ rows. rows.items ≡ map row_in tree.entries) }
{
    let mut rows = Vec::new(alloc);
    rows.extend(tree.into_iter().map(|(key, value)| Row { key, value }))?;
    Ok(rows)
}
