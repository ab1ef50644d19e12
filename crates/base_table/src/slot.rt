//! A place of a key.

ghost use Rattle.std.specs.Prelude.{◌≡◌, option_map};
ghost use Rattle.base_table.specs.Places.{entry_of, is_full};

/// What stands at the place of a key.
#[derive(Drop)]
pub(crate) enum Slot<K, V> {
    /// Nothing: the key was taken out, or has had no value since its place was made.
    Empty,
    /// A value.
    Filled(V),
    /// A value, under a key that equals that of the place: it was put after the key of the place was taken
    /// out.
    Renamed(Box<K>, V),
}

impl<K, V> Slot<K, V> {
    /// The entry that is seen of the place of this key.
    pub(crate) fn entry<'a>(&'a self, key: &'a K) -> Option<(&'a K, &'a V)>
        ensures { option_map (λ entry. (entry.0.now, entry.1.now)) result
            ≡ entry_of key.now self.now }
    {
        match self {
            Slot::Empty => None,
            Slot::Filled(value) => Some((key, value)),
            Slot::Renamed(name, value) => Some((name, value)),
        }
    }

    /// Whether a value stands here.
    pub(crate) fn is_full(&self) -> bool
        ensures { result ≡ is_full self.now }
    {
        matches!(self, Slot::Filled(_) | Slot::Renamed(_, _))
    }
}

/// The place of a key.
#[derive(Drop)]
pub(crate) struct Place<K, V> {
    /// What stands here.
    pub(crate) slot: Slot<K, V>,
    /// Where the key stands in the touched list, if it stands there: a stamp of an earlier list tells of
    /// another key, or lies beyond the list.
    pub(crate) stamp: usize,
}
