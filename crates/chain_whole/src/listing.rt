//! What a chain keeps, as lists: its items, what changed of them, how much there is of each denomination, and the
//! community pool.

ghost use Rattle.std.specs.Prelude.{◌≡◌, ◌<◌, ◌++◌, IfOk, OnOk};
ghost use Rattle.std.specs.List.{filter_map};
ghost use Rattle.std.specs.Option.{option_copied, option_to_list};
ghost use Rattle.mod_bank.specs.Items.{items_of};
ghost use Rattle.base_roles.specs.Holdings.{IsBacked};
ghost use Rattle.base_roles.specs.Items.{AreChanges};
ghost use Rattle.base_roles.specs.Staked.{validator_at};
ghost use Rattle.rule_modules.specs.Chain.{State};
ghost use Rattle.mod_distribution.specs.Items.{AreInOrder};
ghost use Rattle.chain_modules.specs.Kept.{StandsFor, kept_of, parts_of, listener_of};
ghost use Rattle.chain_modules.specs.Marks.{AreAtRest, settled_of, settled_over};
ghost use Rattle.chain_modules.specs.Items.{items_of as module_items};
ghost use Rattle.chain_whole.specs.Chained.{coin_in};

use base_coins::{Coin, Coins, DecCoins};
use base_roles::{Ctx, Extra, Item, RecordFault, Records, Validator, ValidatorView};
use base_table::TableFault;
use base_types::{Addr, Copied, Steps};
use chain_modules::Modules;
use mod_bank::BankBalances;
use mod_distribution::Distr;
use std::alloc::{AllocFailed, Global};
use std::sync::ledger::{Blank, Ledger};

/// The items of modules.
pub(crate) fn items_of<E: Extra, L: Ledger>(
    alloc: Global,
    modules: &Modules<E>,
    blank: Blank,
) -> Result<Vec<Item>, RecordFault>
    requires name { blank.name ≡ L.name }
    requires parts { blank.parts ≡ L.parts }
    requires some { 0 < L.parts }
    ensures items { IfOk result (λ items. items.items ≡ module_items (kept_of modules.now)) }
    ensures order { AreInOrder (kept_of modules.now).shared }
{
    let mut steps: Steps<L> = Steps::new(blank);
    modules.ordered();
    let mut items = Vec::new(alloc);
    modules.items_into(&mut items, &mut steps)?;
    Ok(items)
}

/// The items by which modules differ from what was settled over a context.
pub(crate) fn changes_of<E: Extra, L: Ledger>(
    alloc: Global,
    modules: &Modules<E>,
    settled: &Ctx,
    blank: Blank,
) -> Result<Vec<(Item, bool)>, RecordFault>
    requires name { blank.name ≡ L.name }
    requires parts { blank.parts ≡ L.parts }
    requires some { 0 < L.parts }
    ensures changes { IfOk result (λ changes. AreChanges
        (module_items (settled_over settled.now modules.now))
        (module_items (kept_of modules.now)) changes.items) }
    ensures order { AreInOrder (kept_of modules.now).shared }
{
    let mut steps: Steps<L> = Steps::new(blank);
    modules.ordered();
    let mut changes = Vec::new(alloc);
    modules.changes_into(settled, &mut changes, &mut steps)?;
    Ok(changes)
}

/// From now on changes of modules are told from here.
pub(crate) fn settle_modules<E: Extra, L: Ledger>(modules: &mut Modules<E>, blank: Blank)
    requires name { blank.name ≡ L.name }
    requires parts { blank.parts ≡ L.parts }
    requires some { 0 < L.parts }
    requires rest { AreAtRest modules.old }
    ensures settled { settled_of modules.new ≡ parts_of modules.old }
    ensures same { kept_of modules.new ≡ kept_of modules.old }
    ensures listener { listener_of modules.new ≡ listener_of modules.old }
    ensures rest { AreAtRest modules.new }
    ensures order { AreInOrder (settled_of modules.new).shared }
{
    let mut steps: Steps<L> = Steps::new(blank);
    modules.ordered();
    modules.settle(&mut steps);
}

/// Appends the items of a bank. After an error some of them may stand there.
fn append_book<L: Ledger>(
    book: &BankBalances,
    items: &mut Vec<Item>,
    blank: Blank,
) -> Result<(), RecordFault>
    requires name { blank.name ≡ L.name }
    requires parts { blank.parts ≡ L.parts }
    requires some { 0 < L.parts }
    ensures { OnOk result (items.new.items ≡ items.old.items ++ items_of book.now.holdings) }
{
    let mut steps: Steps<L> = Steps::new(blank);
    book.items_into(items, &mut steps)
}

/// The coin of a supply, or None where the item is another.
#[tactic(auto, unfolding(crate::specs::Chained::coin_in))]
fn coin_in(item: &Item) -> Option<Coin>
    ensures { result ≡ coin_in item.now }
{
    match item {
        Item::Supply { denom, amount } => Some(Coin {
            denom: *denom,
            amount: *amount,
        }),
        _ => None,
    }
}

/// Appends the coin of a supply; another item changes nothing.
fn append_coin(coins: &mut Vec<Coin>, item: &Item) -> Result<(), AllocFailed<Coin>>
    ensures { OnOk result (coins.new.items ≡ coins.old.items ++ option_to_list (coin_in item.now)) }
{
    match coin_in(item) {
        Some(coin) => coins.push(coin),
        None => Ok(()),
    }
}

/// The coins of the supplies among items.
fn coins_in(alloc: Global, items: &[Item]) -> Result<Vec<Coin>, RecordFault>
    ensures { IfOk result (λ coins. coins.items ≡ filter_map coin_in items.now) }
{
    let mut coins = Vec::new(alloc);
    for item in items {
        append_coin(&mut coins, item)?;
    }
    Ok(coins)
}

/// How much a bank has of each denomination.
pub(crate) fn supply_of<L: Ledger>(
    alloc: Global,
    book: &BankBalances,
    blank: Blank,
) -> Result<Coins, RecordFault>
    requires name { blank.name ≡ L.name }
    requires parts { blank.parts ≡ L.parts }
    requires some { 0 < L.parts }
    requires backed { IsBacked book.now.holdings }
    ensures { IfOk result (λ coins. coins ≡ book.now.holdings.supplies) }
{
    let mut items = Vec::new(alloc);
    append_book::<L>(book, &mut items, blank)?;
    let coins = coins_in(alloc, &items)?;
    Ok(Coins::of(coins).unwrap())
}

/// A copy of the community pool.
pub(crate) fn pool_of<L: Ledger>(distr: &Distr, blank: Blank) -> Result<DecCoins, TableFault>
    requires name { blank.name ≡ L.name }
    requires parts { blank.parts ≡ L.parts }
    requires some { 0 < L.parts }
    ensures { IfOk result (λ coins. coins ≡ distr.now.kept.purses.pool) }
{
    let mut steps: Steps<L> = Steps::new(blank);
    distr.alloc.pool(&mut steps).copied()
}

/// The validator of an operator.
pub(crate) fn validator_of<'a, E: Extra, L: Ledger>(
    modules: &'a Modules<E>,
    operator: &Addr,
    blank: Blank,
) -> Option<&'a Validator>
    requires name { blank.name ≡ L.name }
    requires parts { blank.parts ≡ L.parts }
    requires some { 0 < L.parts }
    ensures { (p : State) → StandsFor (kept_of modules.now) p
        → option_copied result ≡ validator_at p.mine.staked operator.now }
{
    let mut steps: Steps<L> = Steps::new(blank);
    modules.stakes.staking.validator(operator, &mut steps)
}
