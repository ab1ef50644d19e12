//! The lines that wait: what they led to is committed, and only then their texts are written.

ghost use Rattle.std.specs.Prelude.{◌≡◌, ◌<◌, ◌+◌, ◌++◌, ◌^◌, [], Some, ℕ, List, Option, length, IfErr, IfSome, OnErr, OnOk};
ghost use Rattle.base_bech32.specs.declared.form.Form.{Form};
ghost use Rattle.base_io.specs.Calls.{AddsPart};
ghost use Rattle.run_app.specs.Counts.{Moved};
ghost use Rattle.run_app.specs.Kept.{Began, HasGrown, Keeping, LeftIn};
ghost use Rattle.run_app.specs.Machine.{Standing};
ghost use Rattle.run_app.specs.Parts.{IsLoss, IsOfKeeper, IsOfSink, Loses, Stands, is_keep_stop, is_write_stop, not_kept};

use crate::progress::Progress;
use crate::status::LineStop;
use base_io::{KeepFault, Keeper, Sink, SinkFault, write_all};
use chain_whole::Chain;
use std::alloc::Global;
use store_commits::commit_next;

/// So many bytes of texts wait at most, before those of the last line: a mebibyte.
pub(crate) const MOST_HELD: usize = 1 << 20;

/// Why lines are not written that the keeper did not take.
pub(crate) fn not_kept(fault: KeepFault) -> LineStop
    ensures { result ≡ not_kept fault }
{
    match fault {
        KeepFault::Failed => LineStop::Keep,
        KeepFault::NoMemory => LineStop::NoMemory,
    }
}

/// Commits what the lines led to since the last commit: before the genesis there is nothing.
///
/// # Errors
/// `Keep`, only where the keeper's count of faults rose, and `NoMemory`.
fn commit<D: Keeper>(
    alloc: Global,
    keeper: &mut D,
    chain: &mut Option<Chain>,
) -> Result<(), LineStop>
    requires kept { (b : Began) × (s : Standing) × (t : Standing) × Keeping b chain.old
        (D.rows keeper.old) (D.is_honest keeper.old) (D.may_leave keeper.old) s t × HasGrown s t }
    ensures ok { (b : Began) → (s : Standing) → (t : Standing) → Keeping b chain.old
        (D.rows keeper.old) (D.is_honest keeper.old) (D.may_leave keeper.old) s t
        → OnOk result (Keeping b chain.new
        (D.rows keeper.new) (D.is_honest keeper.new) (D.may_leave keeper.new) t t) }
    ensures err { (b : Began) → (s : Standing) → (t : Standing) → Keeping b chain.old
        (D.rows keeper.old) (D.is_honest keeper.old) (D.may_leave keeper.old) s t
        → OnErr result
        (LeftIn b (D.rows keeper.new) (D.is_honest keeper.new) (D.may_leave keeper.new) s t) }
    ensures stop { IfErr result IsOfKeeper }
    ensures keeps { Moved (is_keep_stop result) (D.faults keeper.old) (D.faults keeper.new) }
    ensures honest { D.is_honest keeper.new → D.is_honest keeper.old }
{
    match chain {
        Some(chain) => match commit_next(alloc, keeper, chain) {
            Ok(()) => Ok(()),
            Err(fault) => Err(not_kept(fault)),
        },
        None => Ok(()),
    }
}

/// Writes the texts that wait, and then none do.
///
/// # Errors
/// `Write`, only where the sink's count of faults rose, and `NoMemory`. A part of the texts was written then.
pub(crate) fn write_held<K: Sink>(
    sink: &mut K,
    held: &mut Vec<u8>,
    waiting: &mut u64,
) -> Result<(), LineStop>
    ensures ok { OnOk result (IfSome (K.written sink.old)
        (λ bytes. K.written sink.new ≡ Some (bytes ++ held.old.items))) }
    ensures empty { OnOk result (held.new.items ≡ []) }
    ensures none { OnOk result (waiting.new ≡ 0) }
    ensures err { OnErr result (AddsPart (K.written sink.old) (K.written sink.new) held.old.items) }
    ensures stop { IfErr result IsOfSink }
    ensures writes { Moved (is_write_stop result) (K.faults sink.old) (K.faults sink.new) }
{
    match write_all(sink, held) {
        Ok(()) => {
            held.clear();
            *waiting = 0;
            Ok(())
        }
        Err(SinkFault::Failed) => Err(LineStop::Write),
        Err(SinkFault::NoMemory) => Err(LineStop::NoMemory),
    }
}

/// Commits what the waiting lines led to, and writes their texts. None waits then.
///
/// # Errors
/// `Keep`, only where the keeper's count of faults rose, and `Write`, only where the sink's did; and `NoMemory`. Lines
/// waited then, and are lost.
pub(crate) fn release<K: Sink, D: Keeper>(
    alloc: Global,
    sink: &mut K,
    keeper: &mut D,
    progress: &mut Progress,
) -> Result<(), LineStop>
    requires stands { (form : Form) × (every : ℕ) × (b : Began) × (lines : List (List ℕ))
        × (end : Standing) × (from : Option (List ℕ))
        × Stands form (every + 1) b lines end progress.old.number progress.old.chain
        progress.old.waiting progress.old.held.items from (K.written sink.old)
        (D.rows keeper.old) (D.is_honest keeper.old) (D.may_leave keeper.old) }
    ensures ok { (form : Form) → (every : ℕ) → (b : Began) → (lines : List (List ℕ))
        → (end : Standing) → (from : Option (List ℕ))
        → Stands form (every + 1) b lines end progress.old.number progress.old.chain
        progress.old.waiting progress.old.held.items from (K.written sink.old)
        (D.rows keeper.old) (D.is_honest keeper.old) (D.may_leave keeper.old)
        → OnOk result (Stands form 1 b lines end progress.new.number progress.new.chain
        progress.new.waiting progress.new.held.items from (K.written sink.new)
        (D.rows keeper.new) (D.is_honest keeper.new) (D.may_leave keeper.new)) }
    ensures stops { (form : Form) → (every : ℕ) → (b : Began) → (lines : List (List ℕ))
        → (end : Standing) → (from : Option (List ℕ))
        → Stands form (every + 1) b lines end progress.old.number progress.old.chain
        progress.old.waiting progress.old.held.items from (K.written sink.old)
        (D.rows keeper.old) (D.is_honest keeper.old) (D.may_leave keeper.old)
        → IfErr result (Loses form every b.first
        (LeftIn b (D.rows keeper.new) (D.is_honest keeper.new) (D.may_leave keeper.new))
        lines from (K.written sink.new)) }
    ensures some { OnErr result (0 < progress.old.waiting) }
    ensures loss { IfErr result IsLoss }
    ensures number { progress.new.number ≡ progress.old.number }
    ensures line { progress.new.line.items ≡ progress.old.line.items }
    ensures writes { Moved (is_write_stop result) (K.faults sink.old) (K.faults sink.new) }
    ensures keeps { Moved (is_keep_stop result) (D.faults keeper.old) (D.faults keeper.new) }
    ensures honest { D.is_honest keeper.new → D.is_honest keeper.old }
{
    if progress.waiting == 0 {
        return Ok(());
    }
    if let Err(stop) = commit(alloc, keeper, &mut progress.chain) {
        return Err(stop);
    }
    write_held(sink, &mut progress.held, &mut progress.waiting)
}

/// Releases the waiting lines at the Nth, and where a mebibyte of texts waits. Fewer than N wait then.
///
/// # Errors
/// Those of `release`.
pub(crate) fn settle<K: Sink, D: Keeper>(
    alloc: Global,
    every: u64,
    sink: &mut K,
    keeper: &mut D,
    progress: &mut Progress,
) -> Result<(), LineStop>
    requires every { 0 < every }
    requires stands { (form : Form) × (b : Began) × (lines : List (List ℕ))
        × (end : Standing) × (from : Option (List ℕ))
        × Stands form (every + 1) b lines end progress.old.number progress.old.chain
        progress.old.waiting progress.old.held.items from (K.written sink.old)
        (D.rows keeper.old) (D.is_honest keeper.old) (D.may_leave keeper.old) }
    ensures ok { (form : Form) → (b : Began) → (lines : List (List ℕ))
        → (end : Standing) → (from : Option (List ℕ))
        → Stands form (every + 1) b lines end progress.old.number progress.old.chain
        progress.old.waiting progress.old.held.items from (K.written sink.old)
        (D.rows keeper.old) (D.is_honest keeper.old) (D.may_leave keeper.old)
        → OnOk result (Stands form every b lines end progress.new.number progress.new.chain
        progress.new.waiting progress.new.held.items from (K.written sink.new)
        (D.rows keeper.new) (D.is_honest keeper.new) (D.may_leave keeper.new)) }
    ensures stops { (form : Form) → (b : Began) → (lines : List (List ℕ))
        → (end : Standing) → (from : Option (List ℕ))
        → Stands form (every + 1) b lines end progress.old.number progress.old.chain
        progress.old.waiting progress.old.held.items from (K.written sink.old)
        (D.rows keeper.old) (D.is_honest keeper.old) (D.may_leave keeper.old)
        → IfErr result (Loses form every b.first
        (LeftIn b (D.rows keeper.new) (D.is_honest keeper.new) (D.may_leave keeper.new))
        lines from (K.written sink.new)) }
    // No sooner.
    ensures waits { progress.old.waiting < every → length progress.old.held.items < 2 ^ 20
        → progress.new.waiting ≡ progress.old.waiting }
    ensures loss { IfErr result IsLoss }
    ensures number { progress.new.number ≡ progress.old.number }
    ensures line { progress.new.line.items ≡ progress.old.line.items }
    ensures writes { Moved (is_write_stop result) (K.faults sink.old) (K.faults sink.new) }
    ensures keeps { Moved (is_keep_stop result) (D.faults keeper.old) (D.faults keeper.new) }
    ensures honest { D.is_honest keeper.new → D.is_honest keeper.old }
{
    if progress.waiting < every && progress.held.len() < MOST_HELD {
        return Ok(());
    }
    release(alloc, sink, keeper, progress)
}
