//! Worked examples, each a theorem that its function's contract names.

ghost use Rattle.mod_recorder.specs.Worked.{NotesInOrder, SlashIsCut, StartBehindParts};

/// A start behind the facts of earlier parts of its block.
pub fn start_behind_parts()
    ensures { StartBehindParts }
{}

/// A slash whose burn is cut.
pub fn slash_is_cut()
    ensures { SlashIsCut }
{}

/// Notes in the order of their calls.
pub fn notes_in_order()
    ensures { NotesInOrder }
{}
