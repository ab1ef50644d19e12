//! The tree that `serde_json` builds.
ghost use Rattle.std.specs.Prelude.{◌≡◌, string_bytes, map, Some, ◌∷◌, [], None, IfOk};
ghost use Rattle.std.specs.List.{list_all};
ghost use Rattle.std.specs.BTreeMap.{keys};
ghost use Rattle.line_json.specs.Members.{is_among, texts_of};

use crate::names::is_among;
use crate::tree::Tree;
use serde_json::{Map, Value};

/// Whether each key is among the names.
fn are_among(names: &[&str], map: &Map<String, Value>) -> bool
    ensures { result
        ≡ list_all (λ key. is_among (texts_of names.now) (string_bytes key)) (keys map.now) }
{
    map.keys().all(|key| is_among(names, key.as_str()))
}

/// The values that are left of a list.
#[derive(Drop)]
pub struct Values<'v> {
    values: &'v [Value],
}

impl<'v> Tree for &'v Value {
    ghost use Rattle.serde_json.specs.View.{view, items_view};

    type Elements = Values<'v>;

    ghost seen = { λ value. view value.now };

    ghost left = { λ values. items_view values.values.now };

    fn get(&self, name: &str) -> Option<&'v Value> {
        let value: &'v Value = *self;
        value.get(name)
    }

    fn as_count(&self) -> Option<u64> {
        let value: &'v Value = *self;
        value.as_u64()
    }

    fn as_bool(&self) -> Option<bool> {
        let value: &'v Value = *self;
        value.as_bool()
    }

    fn as_str(&self) -> Option<&str> {
        let value: &'v Value = *self;
        value.as_str()
    }

    fn elements(&self) -> Option<Values<'v>> {
        let value: &'v Value = *self;
        match value.as_array() {
            Some(list) => Some(Values {
                values: list.as_slice(),
            }),
            None => None,
        }
    }

    fn next(elements: &mut Values<'v>) -> Option<&'v Value> {
        match elements.values.split_first() {
            Some((first, others)) => {
                elements.values = others;
                Some(first)
            }
            None => None,
        }
    }

    fn named_among(&self, names: &[&str]) -> Option<bool> {
        let value: &'v Value = *self;
        match value.as_object() {
            Some(map) => Some(are_among(names, map)),
            None => None,
        }
    }
}
