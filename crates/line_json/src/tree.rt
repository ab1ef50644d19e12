//! A tree that a line spells, whatever holds it.
ghost use Rattle.std.specs.Prelude.{◌≡◌, MatchOption, option_map};
ghost use Rattle.serde_json.specs.Data.{Data, Items, no_items, item};
ghost use Rattle.serde_json.specs.Find.{get, as_bool, as_str, as_array};
ghost use Rattle.line_json.specs.Members.{as_count, named_among, texts_of};

/// A place in a tree.
pub trait Tree: Drop {
    /// The elements of an array that are left.
    type Elements: Drop;

    ghost seen: { Self → Data };

    ghost left: { Self.Elements → Items };

    /// The member of this name.
    fn get(&self, name: &str) -> Option<Self>
        ensures { option_map seen result ≡ get name.now (seen self.now) };

    /// The number, where it is whole and fits 64 bits.
    fn as_count(&self) -> Option<u64>
        ensures { result ≡ as_count (seen self.now) };

    /// Whether it is true, where it is a truth value.
    fn as_bool(&self) -> Option<bool>
        ensures { result ≡ as_bool (seen self.now) };

    /// The string.
    fn as_str(&self) -> Option<&str>
        ensures { option_map (λ text. text.now) result ≡ as_str (seen self.now) };

    /// The elements of the array.
    fn elements(&self) -> Option<Self::Elements>
        ensures { option_map left result ≡ as_array (seen self.now) };

    /// The next element.
    fn next(elements: &mut Self::Elements) -> Option<Self>
        ensures { MatchOption result (left elements.old ≡ no_items)
            (λ tree. left elements.old ≡ item (seen tree) (left elements.new)) };

    /// Whether each member has one of these names, where there are members.
    fn named_among(&self, names: &[&str]) -> Option<bool>
        ensures { result ≡ named_among (texts_of names.now) (seen self.now) };
}
