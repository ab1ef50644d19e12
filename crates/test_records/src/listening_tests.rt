//! A chain with a recorder does what a chain without one does, and the recorder notes what it hears.

ghost use Rattle.std.specs.Prelude.{◌<◌, ◌^◌};

use base_messages::Block;
use base_roles::Extra;
use chain_whole::Chain;
use mod_recorder::{Note, Recorder};
use mod_statement::Entry;
use run_generated::{Generator, first_genesis};
use std::process::Abort;

/// The chain that the generated genesis starts, with a recorder.
fn recorded(rt: &(impl Abort + AllocGlobal)) -> Chain<Recorder> {
    let genesis = first_genesis(rt.alloc()).expect(rt, "a genesis");
    let recorder = Recorder::new(rt.alloc());
    let (chain, _facts) = Chain::with(rt.alloc(), &genesis, recorder).expect(rt, "a chain");
    chain
}

fn is_creation(note: Option<&Note>) -> bool {
    matches!(note, Some(Note { entry: None, .. }))
}

fn is_start(note: Option<&Note>) -> bool {
    match note {
        Some(note) => matches!(note.entry, Some(Entry::Started { .. })),
        None => false,
    }
}

/// What a chain tells of a block, and keeps behind it.
fn told<E: Extra>(rt: &(impl Abort + AllocGlobal), chain: &mut Chain<E>, block: &Block) -> String
    requires { block.now.height < 2 ^ 63 }
{
    let report = chain.apply_block(rt.alloc(), block).expect(rt, "a block");
    let items = chain.items(rt.alloc()).expect(rt, "items");
    format!(in rt.alloc(); "{report:?} {items:?}").expect(rt, "memory")
}

#[test]
fn a_chain_with_a_recorder_goes_on_alike(rt: HostRuntime) {
    let genesis = first_genesis(rt.alloc()).expect(&rt, "a genesis");
    let (mut alone, _facts) = Chain::genesis(rt.alloc(), &genesis).expect(&rt, "a chain");
    let mut heard = recorded(&rt);
    let mut generator = Generator::new(7);
    for height in 1..=12u64 {
        let block = generator.block(rt.alloc(), height).expect(&rt, "a block");
        let alike = told(&rt, &mut alone, &block) == told(&rt, &mut heard, &block);
        assert!(rt; alike, "{height}");
    }
}

#[test]
fn a_recorder_notes_the_start_of_each_validator_and_delegation(rt: HostRuntime) {
    let genesis = first_genesis(rt.alloc()).expect(&rt, "a genesis");
    let chain = recorded(&rt);
    let notes = chain.extra();
    let places = 0..notes.len();
    let created = places.filter(|place| is_creation(notes.at(*place))).count();
    let places = 0..notes.len();
    let started = places.filter(|place| is_start(notes.at(*place))).count();
    assert_eq!(rt; created, genesis.validators.as_slice().len());
    assert_eq!(rt; started, genesis.delegations.as_slice().len());
    assert!(rt; notes.at(notes.len()).is_none());
}
