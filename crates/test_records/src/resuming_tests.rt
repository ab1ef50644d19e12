//! A chain out of the items of another, which goes on alike, and items that give none.

ghost use Rattle.std.specs.Prelude.{◌<◌, ◌^◌};

use base_messages::Block;
use base_roles::Item;
use chain_whole::{Chain, ChainFault};
use run_generated::{Generator, first_genesis};
use std::process::Abort;
use store_resuming::from_items;

/// The chain that the generated genesis starts.
fn started(rt: &(impl Abort + AllocGlobal)) -> Chain {
    let genesis = first_genesis(rt.alloc()).expect(rt, "a genesis");
    let (chain, _facts) = Chain::genesis(rt.alloc(), &genesis).expect(rt, "a chain");
    chain
}

/// The items of a chain.
fn items_of(rt: &(impl Abort + AllocGlobal), chain: &Chain) -> Vec<Item> {
    chain.items(rt.alloc()).expect(rt, "items")
}

/// The chain of the items of another.
fn out_of_items(rt: &(impl Abort + AllocGlobal), chain: &Chain) -> Chain {
    from_items(rt.alloc(), items_of(rt, chain)).expect(rt, "items of a chain")
}

/// What a chain tells of a block, and keeps behind it.
fn told(rt: &(impl Abort + AllocGlobal), chain: &mut Chain, block: &Block) -> String
    requires { block.now.height < 2 ^ 63 }
{
    let report = chain.apply_block(rt.alloc(), block).expect(rt, "a block");
    let items = items_of(rt, chain);
    format!(in rt.alloc(); "{report:?} {items:?}").expect(rt, "memory")
}

/// Whether these are the items of no chain.
fn are_bad(rt: &impl AllocGlobal, items: Vec<Item>) -> bool {
    matches!(from_items(rt.alloc(), items), Err(ChainFault::BadItems))
}

#[test]
fn a_chain_out_of_items_goes_on_alike(rt: HostRuntime) {
    for seed in [7u64, 101] {
        let mut generator = Generator::new(seed);
        let mut chain = started(&rt);
        let mut other = started(&rt);
        for height in 1..=12u64 {
            other = out_of_items(&rt, &other);
            let block = generator.block(rt.alloc(), height).expect(&rt, "a block");
            let alike = told(&rt, &mut chain, &block) == told(&rt, &mut other, &block);
            assert!(rt; alike, "{seed} {height}");
        }
    }
}

#[test]
fn items_without_one_are_bad(rt: HostRuntime) {
    let chain = started(&rt);
    let count = items_of(&rt, &chain).len();
    for left_out in 0..count {
        let mut items = items_of(&rt, &chain);
        if left_out < items.len() {
            let _item = items.swap_remove(left_out);
            assert!(rt; are_bad(&rt, items), "{left_out}");
        }
    }
}

#[test]
fn items_with_one_twice_are_bad(rt: HostRuntime) {
    let chain = started(&rt);
    let count = items_of(&rt, &chain).len();
    for again in 0..count {
        let mut items = items_of(&rt, &chain);
        let mut others = items_of(&rt, &chain);
        if again < others.len() {
            items.push(others.swap_remove(again)).expect(&rt, "memory");
            assert!(rt; are_bad(&rt, items), "{again}");
        }
    }
}
