//! The tree that a tape holds, read in place.
ghost use Rattle.std.specs.Prelude.{◌≡◌, MatchOption};
ghost use Rattle.json.specs.Json as spec;
ghost use Rattle.json.specs.Find.{BeginsWith, InMembers, as_object};
ghost use Rattle.line_json.specs.Members.{texts_of};
ghost use Rattle.line_json.specs.Tape.{IsTree, keys_among};

use crate::count::count_of;
use crate::names::is_expected;
use crate::tree::Tree;
use json::{Element, Items, Members};
use std::marker::Model;

/// A place of a tape, where a tree begins that `serde_json` reads. Contracts see the tokens from there on.
#[derive(Drop)]
pub struct Place<'t, 'a> {
    element: Element<'t, 'a>,
}

impl<'t, 'a> Model for Place<'t, 'a> {
    ghost use Rattle.std.specs.Prelude.{List};
    ghost use Rattle.json.specs.Token.{Token, tokens_code};

    ghost Value = { List Token };

    ghost coded = { tokens_code };

    ghost use Rattle.line_json.specs.Tape.{IsTree};

    ghost view = { λ place. place.element };

    ghost invariant = { λ place. IsTree place.element };
}

/// The elements of an array that are left. Contracts see the tokens from there on.
#[derive(Drop)]
pub struct PlacesLeft<'t, 'a> {
    items: Items<'t, 'a>,
}

impl<'t, 'a> Model for PlacesLeft<'t, 'a> {
    ghost use Rattle.std.specs.Prelude.{List};
    ghost use Rattle.json.specs.Token.{Token, tokens_code};

    ghost Value = { List Token };

    ghost coded = { tokens_code };

    ghost use Rattle.line_json.specs.Tape.{AreElements};

    ghost view = { λ left. left.items };

    ghost invariant = { λ left. AreElements left.items };
}

impl<'t, 'a> Place<'t, 'a> {
    /// The place of this element.
    pub(crate) fn of(element: Element<'t, 'a>) -> Place<'t, 'a>
        requires { IsTree element }
        ensures { result ≡ element.entry }
    {
        Place { element }
    }
}

/// Whether each of these members has one of these names.
fn all_named(members: Members<'_, '_>, names: &[&str]) -> bool
    ensures { (ms : spec.Members) → InMembers members.entry ms
        → keys_among (texts_of names.now) ms ≡ result }
{
    let mut members = members;
    let mut place = 0usize;
    while let Some((key, _)) = members.next() {
        if !is_expected(names, place, key) {
            return false;
        }
        place = place.saturating_add(1);
    }
    true
}

/// Whether each member has one of these names, where the element is an object.
fn are_named(element: &Element<'_, '_>, names: &[&str]) -> Option<bool>
    ensures { MatchOption result ((j : spec.Json) → BeginsWith element.now j → as_object j ≡ None)
        (λ b. (j : spec.Json) → BeginsWith element.now j
        → (ms : spec.Members) × (j ≡ spec.object ms) × (keys_among (texts_of names.now) ms ≡ b)) }
{
    match element.members() {
        Some(members) => Some(all_named(members, names)),
        None => None,
    }
}

impl<'t, 'a> Tree for Place<'t, 'a> {
    ghost use Rattle.line_json.specs.Tape.{tree_at, elements_at};

    type Elements = PlacesLeft<'t, 'a>;

    ghost seen = { tree_at };

    ghost left = { elements_at };

    fn get(&self, name: &str) -> Option<Place<'t, 'a>> {
        match self.element.get(name) {
            Some(element) => Some(Place { element }),
            None => None,
        }
    }

    fn as_count(&self) -> Option<u64> {
        match self.element.as_number() {
            Some(text) => count_of(text),
            None => None,
        }
    }

    fn as_bool(&self) -> Option<bool> {
        self.element.as_bool()
    }

    fn as_str(&self) -> Option<&str> {
        self.element.as_str()
    }

    fn elements(&self) -> Option<PlacesLeft<'t, 'a>> {
        match self.element.items() {
            Some(items) => Some(PlacesLeft { items }),
            None => None,
        }
    }

    fn next(elements: &mut PlacesLeft<'t, 'a>) -> Option<Place<'t, 'a>> {
        match elements.items.next() {
            Some(element) => Some(Place { element }),
            None => None,
        }
    }

    fn named_among(&self, names: &[&str]) -> Option<bool> {
        are_named(&self.element, names)
    }
}
