//! Worked lines in the form Bech32, computed from the definitions.
ghost use Rattle.line_json.specs.SpelledExample.{AddressesSpelled, SpellingsRead, SpellingsWritten};

/// What is read of spellings, of a block and of messages that hold them, and what is refused; and what is written of a
/// block and of facts.
pub fn lines_spelled_by_example()
    ensures addresses { AddressesSpelled }
    ensures read { SpellingsRead }
    ensures written { SpellingsWritten }
{}
