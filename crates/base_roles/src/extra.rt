//! Listeners: hooks that hear what staking does, and change nothing of it.

ghost use Rattle.std.specs.Prelude.{◌≡◌, ℕ};
ghost use Rattle.base_roles.specs.Extra.{Listens};
ghost use Rattle.base_roles.specs.World.{Hook, View};

use crate::hooks::StakingHooks;
use crate::records::Records;

/// A listener to staking, beside the hooks of other modules. It calls no bank, tells no fact, exceeds nothing and
/// logs nothing; it has no items, so it is in no state; and going back to a mark restores what it heard. So a
/// chain does the same with every listener.
///
/// What it heard is a plain value: after each call of a hook it is what `hears` says. Its laws are `Listens`.
///
/// The facts of a block are told part by part: its beginning, each transaction, and its end. A hook sees the facts
/// of its own part alone; so the chain says behind each part how many facts this had told, and when the block has
/// ended.
pub trait Extra: StakingHooks + Records + Drop {
    /// What it heard, as a plain value.
    ghost Heard: { Type 0 };

    ghost heard: { Self → Heard };

    /// What it has heard after one more call of a hook, over this ground.
    ghost hears: { Heard → Hook → View → Heard };

    /// What it has heard after a part of a block that told so many facts.
    ghost parted: { Heard → ℕ → Heard };

    /// What it has heard after a block.
    ghost ended: { Heard → Heard };

    /// After a part of a block, which is not its last and told so many facts. Takes no memory.
    fn after_part(&mut self, facts: usize)
        ensures heard { heard self.new ≡ parted (heard self.old) facts }
        ensures marks { Self.Records.marks self.new ≡ Self.Records.marks self.old };

    /// After the last part of a block. Takes no memory.
    fn after_block(&mut self)
        ensures heard { heard self.new ≡ ended (heard self.old) }
        ensures marks { Self.Records.marks self.new ≡ Self.Records.marks self.old };

    ghost listens: { Listens Self.holds Self.tells Self.StakingHooks.marks Self.kept
        Self.Records.marks Self.items Self.is_kind heard hears };
}
