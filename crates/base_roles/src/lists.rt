//! Lists of values that stand in records and messages.

ghost use Rattle.std.specs.Prelude.{◌≡◌, [], length, slice_get, map};
ghost use Rattle.std.specs.Option.{option_copied};

use base_types::{Copied, TableFault};
use std::alloc::Global;
use std::marker::Model;

/// A list of values that stands in a record or in a message. Contracts see the list.
#[derive(Debug, Drop)]
pub struct Listed<T> {
    list: Vec<T>,
}

impl<T> Model for Listed<T> {
    ghost use Rattle.std.specs.Prelude.{List};

    ghost Value = { List T };

    ghost view = { λ l. l.list.items };
}

impl<T> Listed<T> {
    /// The empty list. Takes no memory.
    pub fn new(alloc: Global) -> Listed<T>
        ensures { result ≡ [] }
    {
        Listed {
            list: Vec::new(alloc),
        }
    }

    /// The list of these values. Takes no memory.
    pub fn of(list: Vec<T>) -> Listed<T>
        ensures { result ≡ list.items }
    {
        Listed { list }
    }

    /// The values. Takes no memory.
    pub fn into_vec(self) -> Vec<T>
        ensures { result.items ≡ self }
    {
        self.list
    }

    /// The values in place.
    pub fn as_slice(&self) -> &[T]
        ensures { result.now ≡ self.now }
    {
        &self.list
    }

    /// How many values there are.
    pub fn len(&self) -> usize
        ensures { result ≡ length self.now }
    {
        self.list.len()
    }

    /// The value at this place, counted from 0, or None exactly where there are not so many.
    pub fn at(&self, place: usize) -> Option<&T>
        ensures { option_copied result ≡ slice_get self.now place }
    {
        self.list.get(place)
    }
}

impl<T: Copied> Copied for Listed<T> {
    fn copied(&self) -> Result<Listed<T>, TableFault> {
        let mut list = Vec::new(self.list.allocator().clone()?);
        for value in &self.list {
            let copy = value.copied()?;
            list.push(copy)?;
        }
        Ok(Listed { list })
    }
}
