//! What the definitions mean: laws as a function that does nothing, whose contract is the laws.

ghost use Rattle.mod_signing.specs.Laws.{BanningCarries, ResizingCarries};

/// Banning what is kept is banning what it stands for.
pub fn banning_carries_records()
    ensures { BanningCarries }
{}

/// Resizing what is kept is resizing what it stands for.
pub fn resizing_carries_records()
    ensures { ResizingCarries }
{}
