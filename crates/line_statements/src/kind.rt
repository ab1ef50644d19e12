//! The kinds of entries, by their names.
ghost use Rattle.std.specs.Prelude.{◌≡◌};
ghost use Rattle.line_statements.specs.Entries.{kind_of};

use line_json::{Scalar, Tree};

/// The kind of an entry of a statement.
#[derive(Clone, Copy, Debug, PartialEq, Eq)]
pub enum EntryKind {
    Started,
    Allocated,
    Ended,
    Slashed,
    Touched,
}

/// The kind of this name.
#[tactic(auto, unfolding(crate::specs::Entries::kind_of))]
fn kind_of(name: &str) -> Option<EntryKind>
    ensures { result ≡ kind_of name.now }
{
    match name {
        "started" => Some(EntryKind::Started),
        "allocated" => Some(EntryKind::Allocated),
        "ended" => Some(EntryKind::Ended),
        "slashed" => Some(EntryKind::Slashed),
        "touched" => Some(EntryKind::Touched),
        _ => None,
    }
}

/// A string that names a kind.
impl Scalar for EntryKind {
    ghost use Rattle.line_json.specs.Members.{spelled_by};
    ghost use Rattle.line_statements.specs.Entries.{kind_of};

    ghost form = { spelled_by kind_of };

    fn from_tree<N: Tree>(tree: &N) -> Option<EntryKind> {
        tree.as_str().and_then(kind_of)
    }
}
