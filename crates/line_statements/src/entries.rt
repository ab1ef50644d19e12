//! The entries of a statement, as its line spells them. Each is an object of its kind and of the members of that kind.
ghost use Rattle.std.specs.Prelude.{◌≡◌};
ghost use Rattle.line_json.specs.Nested.{each_element};
ghost use Rattle.line_json.specs.Reading.{Gives};
ghost use Rattle.line_statements.specs.Entries.{allocated_of, alone, entries_at, entry_of, entry_of_kind, slashed_of, started_of, tokens_at};

use crate::kind::EntryKind;
use base_messages::LineFault;
use base_roles::Listed;
use line_json::{Tree, dec_coins_at, member_at, only_named};
use mod_statement::Entry;
use std::alloc::Global;

/// The validator's tokens, whole.
fn tokens_at<N: Tree>(tree: &N) -> Result<u128, LineFault>
    ensures { result ≡ tokens_at (N.seen tree.now) }
{
    member_at(133, "tokens", tree)
}

/// The start of a delegation's rewards.
#[tactic(auto, unfolding(crate::specs::Entries::started_of))]
fn started_of<N: Tree>(tree: &N) -> Result<Entry, LineFault>
    ensures { result ≡ started_of (N.seen tree.now) }
{
    let shares = member_at(132, "shares", tree)?;
    let tokens = tokens_at(tree)?;
    let total = member_at(135, "total", tree)?;
    only_named(&["kind", "shares", "tokens", "total"], tree)?;
    Ok(Entry::Started {
        shares,
        tokens,
        total,
    })
}

/// Coins that the validator's delegators get.
#[tactic(auto, unfolding(crate::specs::Entries::allocated_of))]
fn allocated_of<N: Tree>(alloc: Global, tree: &N) -> Result<Entry, LineFault>
    ensures { Gives (λ entry. entry) result (allocated_of (N.seen tree.now)) }
{
    let coins = dec_coins_at(alloc, 136, "coins", tree)?;
    let tokens = tokens_at(tree)?;
    only_named(&["kind", "coins", "tokens"], tree)?;
    Ok(Entry::Allocated { coins, tokens })
}

/// A slash.
#[tactic(auto, unfolding(crate::specs::Entries::slashed_of))]
fn slashed_of<N: Tree>(tree: &N) -> Result<Entry, LineFault>
    ensures { result ≡ slashed_of (N.seen tree.now) }
{
    let burned = member_at(137, "burned", tree)?;
    let tokens = tokens_at(tree)?;
    only_named(&["kind", "burned", "tokens"], tree)?;
    Ok(Entry::Slashed { burned, tokens })
}

/// An entry that has its kind alone.
fn alone<N: Tree>(entry: Entry, tree: &N) -> Result<Entry, LineFault>
    ensures { result ≡ alone entry (N.seen tree.now) }
{
    only_named(&["kind"], tree)?;
    Ok(entry)
}

/// The entry of this kind.
fn entry_of_kind<N: Tree>(alloc: Global, kind: EntryKind, tree: &N) -> Result<Entry, LineFault>
    ensures { Gives (λ entry. entry) result (entry_of_kind kind (N.seen tree.now)) }
{
    match kind {
        EntryKind::Started => started_of(tree),
        EntryKind::Allocated => allocated_of(alloc, tree),
        EntryKind::Ended => alone(Entry::Ended, tree),
        EntryKind::Slashed => slashed_of(tree),
        EntryKind::Touched => alone(Entry::Touched, tree),
    }
}

/// The entry of a tree.
#[tactic(auto, unfolding(crate::specs::Entries::entry_of))]
fn entry_of<N: Tree>(alloc: Global, tree: &N) -> Result<Entry, LineFault>
    ensures { Gives (λ entry. entry) result (entry_of (N.seen tree.now)) }
{
    let kind = member_at(131, "kind", tree)?;
    entry_of_kind(alloc, kind, tree)
}

/// Every element, as an entry.
fn entries_of<N: Tree>(alloc: Global, elements: N::Elements) -> Result<Vec<Entry>, LineFault>
    ensures { Gives (λ entries. entries.items) result
        (each_element entry_of (N.left elements)) }
{
    let mut elements = elements;
    let mut entries = Vec::new(alloc);
    while let Some(element) = N::next(&mut elements) {
        let entry = entry_of(alloc, &element)?;
        entries.push(entry)?;
    }
    Ok(entries)
}

/// The entries of a statement, in their order.
///
/// # Errors
/// `BadShape` with 130, where the member `entries` is missing or no list; the error of the first entry that is not of its
/// form; and `NoMemory`.
pub(crate) fn entries_at<N: Tree>(alloc: Global, tree: &N) -> Result<Listed<Entry>, LineFault>
    ensures { Gives (λ entries. entries) result (entries_at (N.seen tree.now)) }
{
    match tree.get("entries") {
        Some(found) => match found.elements() {
            Some(elements) => Ok(Listed::of(entries_of::<N>(alloc, elements)?)),
            None => Err(LineFault::BadShape(130)),
        },
        None => Err(LineFault::BadShape(130)),
    }
}
