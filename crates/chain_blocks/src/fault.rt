//! The fault of a block, by that of a hook or of a module's records in it.

ghost use Rattle.std.specs.Prelude.{◌≡◌};
ghost use Rattle.chain_blocks.specs.Answers.{fault_of_hook, fault_of_record};

use base_messages::BlockFault;
use base_roles::{HookFault, RecordFault};

/// The fault of a block a part of which met the limit of decimals, or wanted memory.
pub(crate) fn fault_of_hook(fault: HookFault) -> BlockFault
    ensures { result ≡ fault_of_hook fault }
{
    match fault {
        HookFault::Over(over) => BlockFault::RatioLimit(over),
        HookFault::NoMemory => BlockFault::NoMemory,
    }
}

/// The fault of a block a part of which wanted memory.
pub(crate) fn fault_of_record(fault: RecordFault) -> BlockFault
    ensures { result ≡ fault_of_record fault }
{
    match fault {
        RecordFault::NoMemory => BlockFault::NoMemory,
    }
}
