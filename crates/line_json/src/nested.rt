//! Members that are objects or lists.
ghost use Rattle.std.specs.Prelude.{◌≡◌, Result};
ghost use Rattle.serde_json.specs.Data.{Data};
ghost use Rattle.base_bech32.specs.declared.form.Form.{Form};
ghost use Rattle.base_messages.specs.declared.faults.LineFault.{LineFault};
ghost use Rattle.line_json.specs.Reading.{Gives};
ghost use Rattle.line_json.specs.Nested.{object_at, each_element, list_at};

use crate::tree::Tree;
use base_bech32::Form;
use base_messages::LineFault;
use base_roles::Listed;
use std::alloc::Global;

/// A value that an object stands for.
pub trait FromTree: Drop {
    ghost reading: { Form → Data → Result Self LineFault };

    /// Reads it, with its addresses in this form.
    fn from_tree<N: Tree>(form: Form, alloc: Global, tree: &N) -> Result<Self, LineFault>
        ensures { Gives (λ value. value) result (reading form (N.seen tree.now)) };
}

/// The member of this name, an object.
///
/// # Errors
/// `BadShape` with the given number, where the member is missing; the error of its form, where it is not of that; and
/// `NoMemory`.
pub fn object_at<T: FromTree, N: Tree>(
    form: Form,
    alloc: Global,
    number: u16,
    name: &str,
    tree: &N,
) -> Result<T, LineFault>
    ensures { Gives (λ value. value) result (object_at (T.reading form) number name.now (N.seen tree.now)) }
{
    match tree.get(name) {
        Some(found) => T::from_tree(form, alloc, &found),
        None => Err(LineFault::BadShape(number)),
    }
}

/// Every element.
fn each<T: FromTree, N: Tree>(
    form: Form,
    alloc: Global,
    elements: N::Elements,
) -> Result<Vec<T>, LineFault>
    ensures { Gives (λ values. values.items) result (each_element (T.reading form) (N.left elements)) }
{
    let mut elements = elements;
    let mut values = Vec::new(alloc);
    while let Some(element) = N::next(&mut elements) {
        let value = T::from_tree(form, alloc, &element)?;
        values.push(value)?;
    }
    Ok(values)
}

/// The member of this name, a list, with every element.
///
/// # Errors
/// `BadShape` with the given number, where the member is missing or no list; the error of the first element that is not
/// of its form; and `NoMemory`.
pub fn list_at<T: FromTree, N: Tree>(
    form: Form,
    alloc: Global,
    number: u16,
    name: &str,
    tree: &N,
) -> Result<Listed<T>, LineFault>
    ensures { Gives (λ list. list) result (list_at (T.reading form) number name.now (N.seen tree.now)) }
{
    match tree.get(name) {
        Some(found) => match found.elements() {
            Some(elements) => Ok(Listed::of(each::<T, N>(form, alloc, elements)?)),
            None => Err(LineFault::BadShape(number)),
        },
        None => Err(LineFault::BadShape(number)),
    }
}
