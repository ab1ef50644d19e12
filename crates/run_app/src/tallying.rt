//! The command `tally`: the ballots of an input are counted by the stake of the chain that a keeper has.

ghost use Rattle.std.specs.Prelude.{◌≡◌, IfOk, IfErr, true, false};
ghost use Rattle.base_roles.specs.Entries.{at};
ghost use Rattle.base_types.specs.Orders.{addr_cmp};
ghost use Rattle.chain_modules.specs.Kept.{StandsFor};
ghost use Rattle.line_ballots.specs.Ballots.{text_of_tally};
ghost use Rattle.mod_tally.specs.Tally.{tally_of};
ghost use Rattle.rule_modules.specs.Chain.{State};
ghost use Rattle.rule_modules.specs.Sound.{IsSound};
ghost use Rattle.run_app.specs.Counts.{Moved, is_keep_fault, is_read_fault, is_write_fault};
ghost use Rattle.run_app.specs.Tallies.{Counts, TallyEnds};
ghost use Rattle.run_app.specs.Unkept.{FindsNoRows};
ghost use Rattle.run_app.specs.Writes.{Writes};
ghost use Rattle.run_app.specs.Seen.{by_keeper, by_sink, by_source};

use crate::balloting::{Balloting, read_ballots};
use crate::generating::status_of_sink;
use crate::resuming::status_of_restore;
use crate::status::{EndStop, Status};
use base_bech32::Form;
use base_io::{Keeper, Sink, Source};
use base_messages::LineFault;
use chain_whole::{Chain, ChainFault};
use json::Scratch;
use line_ballots::push_line_of_tally;
use mod_tally::laws::sound_states_are_tallied;
use mod_tally::{Ballots, count};
use run_generated::write_text;
use std::alloc::Global;
use store_resuming::restore;

/// The line of the tally of ballots over a chain. The only error is `NoMemory`.
fn tally_text(alloc: Global, chain: &Chain, ballots: &Ballots) -> Result<Vec<u8>, EndStop>
    requires sound { (p : State) × IsSound p × StandsFor chain.now.kept p }
    ensures text { (p : State) → IsSound p → StandsFor chain.now.kept p
        → IfOk result (λ text. text.items
        ≡ text_of_tally (tally_of p.mine.staked (at addr_cmp ballots.now))) }
    ensures fault { IfErr result (λ stop. stop ≡ EndStop.NoMemory) }
{
    sound_states_are_tallied();
    let items = match chain.items(alloc) {
        Ok(items) => items,
        Err(ChainFault::NoMemory) => return Err(EndStop::NoMemory),
        Err(_) => unreachable!(),
    };
    let Ok(tally) = count(alloc, &items, ballots) else {
        return Err(EndStop::NoMemory);
    };
    let mut text = Vec::new(alloc);
    match push_line_of_tally(alloc, &mut text, &tally) {
        Ok(()) => Ok(text),
        Err(LineFault::NoMemory) => Err(EndStop::NoMemory),
        Err(_) => unreachable!(),
    }
}

/// Writes the line of the tally of ballots over a chain.
fn write_tally<K: Sink>(alloc: Global, sink: &mut K, chain: &Chain, ballots: &Ballots) -> Status
    requires sound { (p : State) × IsSound p × StandsFor chain.now.kept p }
    ensures ends { (p : State) → IsSound p → StandsFor chain.now.kept p
        → Writes (text_of_tally (tally_of p.mine.staked (at addr_cmp ballots.now)))
        (K.written sink.old) (K.written sink.new) result }
    ensures busy { result ≡ Status.Usage → ⊥ }
    ensures read { is_read_fault result ≡ false }
    ensures keep { is_keep_fault result ≡ false }
    ensures writes { Moved (is_write_fault result) (K.faults sink.old) (K.faults sink.new)
        × (result ≡ Status.Done → K.clean sink.new ≡ true) }
{
    match tally_text(alloc, chain, ballots) {
        Ok(text) => status_of_sink(write_text(sink, &text)),
        Err(_) => Status::NoMemory,
    }
}

/// Counts the ballots of the source over a chain. Nothing is written unless the source was read to its end, and each of
/// its lines is a ballot.
fn count_ballots<S: Source, K: Sink>(
    form: Form,
    alloc: Global,
    source: &mut S,
    sink: &mut K,
    chain: &Chain,
) -> Status
    requires sound { (p : State) × IsSound p × StandsFor chain.now.kept p }
    ensures counts { (p : State) → IsSound p → StandsFor chain.now.kept p
        → Counts form p.mine.staked (S.left source.old) (S.left source.new)
        (K.written sink.old) (K.written sink.new) result }
    ensures busy { result ≡ Status.Usage → ⊥ }
    ensures reads { Moved (is_read_fault result) (S.faults source.old) (S.faults source.new) }
    ensures writes { Moved (is_write_fault result) (K.faults sink.old) (K.faults sink.new)
        × (result ≡ Status.Done → K.clean sink.new ≡ true) }
    ensures keep { is_keep_fault result ≡ false }
{
    let mut balloting = Balloting {
        number: 1,
        line: Vec::new(alloc),
        ballots: Ballots::new(alloc),
        scratch: Scratch::new(alloc),
    };
    match read_ballots(form, alloc, source, &mut balloting) {
        Ok(()) => write_tally(alloc, sink, chain, &balloting.ballots),
        Err(status) => status,
    }
}

/// The command `tally`: the ballots of the source are counted, the line of their tally is written, and nothing is
/// committed.
pub(crate) fn tally<S: Source, K: Sink, D: Keeper>(
    form: Form,
    alloc: Global,
    source: &mut S,
    sink: &mut K,
    keeper: &mut D,
) -> Status
    ensures ends { TallyEnds form (by_source S.left source.old source.new)
        (by_sink K.written sink.old sink.new)
        (by_keeper D.rows D.is_honest D.may_leave keeper.old keeper.new) result }
    ensures unkept { D.keeps keeper.old ≡ false → FindsNoRows
        (by_source S.left source.old source.new) (by_sink K.written sink.old sink.new) result }
    ensures busy { result ≡ Status.Usage → ⊥ }
    ensures reads { Moved (is_read_fault result) (S.faults source.old) (S.faults source.new) }
    ensures writes { Moved (is_write_fault result) (K.faults sink.old) (K.faults sink.new)
        × (result ≡ Status.Done → K.clean sink.new ≡ true) }
    ensures keeps { Moved (is_keep_fault result) (D.faults keeper.old) (D.faults keeper.new) }
    ensures honest { D.is_honest keeper.new → D.is_honest keeper.old }
{
    match restore(alloc, keeper) {
        Ok(chain) => count_ballots(form, alloc, source, sink, &chain),
        Err(fault) => status_of_restore(fault),
    }
}
