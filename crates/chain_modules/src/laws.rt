//! What a listener does to blocks: a law as a function that does nothing, whose contract is the law.

ghost use Rattle.chain_modules.specs.Erasing.{BlocksAreUnheard};

use base_roles::Extra;

/// No listener changes anything: a block with it is that of the machine, without what it heard.
pub fn a_listener_changes_nothing<E: Extra>()
    ensures { BlocksAreUnheard E.hears E.parted E.ended }
{}
