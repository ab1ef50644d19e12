//! The bytes of a row, as fields are taken from them.

/// Bytes of a row that are not read yet. Each reader of a field takes it from their front.
#[derive(Drop)]
pub(crate) struct Unread<'a> {
    pub(crate) left: &'a [u8],
}
