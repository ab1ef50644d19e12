//! The names of members.
ghost use Rattle.std.specs.Prelude.{◌≡◌};
ghost use Rattle.line_json.specs.Members.{is_among, texts_of};

/// Whether the name is one of these.
pub(crate) fn is_among(names: &[&str], name: &str) -> bool
    ensures { result ≡ is_among (texts_of names.now) name.now }
{
    for known in names {
        if *known == name {
            return true;
        }
    }
    false
}

/// Whether the name is one of these. It looks at the place where the name is expected first.
#[inline]
pub(crate) fn is_expected(names: &[&str], place: usize, name: &str) -> bool
    ensures { result ≡ is_among (texts_of names.now) name.now }
{
    if place < names.len() && names[place] == name {
        return true;
    }
    is_among(names, name)
}
