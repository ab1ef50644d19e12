//! The bank, over a scene of two accounts: a message that sends coins, marks, items and changes.

ghost use Rattle.std.specs.Prelude.{◌≡◌, ℕ, ◌<◌, ◌≤◌, [], List, IfOk, OnOk};
ghost use Rattle.base_coins.specs.Coins.{amount_of};
ghost use Rattle.base_roles.specs.Holdings.{IsBacked};
ghost use Rattle.mod_bank.specs.Booked.{behind, new_book};

use crate::bank_letting_go::{let_go_of_book, let_go_of_facts};
use base_coins::{Coin, CoinFault, Coins};
use base_roles::{Bank, BankFault, Facts, Item, MessageFault, RecordFault, Records};
use base_types::{Account, Addr, Denom, Steps};
use mod_bank::BankBalances;
use std::process::Abort;
use std::sync::ledger::Ledger;

fn denom(rt: &impl Abort, name: &[u8]) -> Denom {
    Denom::of(name).expect(rt, "a denomination")
}

fn atom(rt: &impl Abort) -> Denom {
    denom(rt, b"uatom")
}

fn addr(rt: &impl Abort, byte: u8) -> Addr {
    Addr::of([byte; 20]).expect(rt, "no module's address")
}

fn user(rt: &impl Abort, byte: u8) -> Account {
    Account::User(addr(rt, byte))
}

/// So much stake and so many uatom, where there is memory.
fn coins(rt: &(impl Abort + AllocGlobal), stake: u128, atoms: u128) -> Result<Coins, CoinFault>
    requires stake { stake ≤ 1000 }
    requires atoms { atoms ≤ 1000 }
    ensures { IfOk result (λ coins. (d : List ℕ) → amount_of coins d ≤ 1000) }
{
    let mut list = Vec::new(rt.alloc());
    list.push(Coin {
        denom: denom(rt, b"stake"),
        amount: stake,
    })?;
    list.push(Coin {
        denom: atom(rt),
        amount: atoms,
    })?;
    Ok(Coins::of(list)?)
}

/// So much stake and so many uatom.
fn purse(rt: &(impl Abort + AllocGlobal), stake: u128, atoms: u128) -> Coins
    requires stake { stake ≤ 1000 }
    requires atoms { atoms ≤ 1000 }
    ensures { (d : List ℕ) → amount_of result d ≤ 1000 }
{
    coins(rt, stake, atoms).expect(rt, "coins")
}

/// A user with 3 stake and 10 uatom, and one with 5 uatom.
fn two_accounts<L: Ledger>(
    rt: &(impl Abort + AllocGlobal),
    steps: &mut Steps<L>,
) -> Result<BankBalances, BankFault>
    ensures backed { IfOk result (λ book. IsBacked book.holdings) }
    ensures marks { IfOk result (λ book. book.marks ≡ []) }
{
    let accounts = [
        (user(rt, 9), purse(rt, 0, 5)),
        (user(rt, 7), purse(rt, 3, 10)),
    ];
    BankBalances::start(rt.alloc(), &accounts, steps)
}

/// A book of two accounts, one that holds nothing, and the facts so far.
pub(crate) struct Scene {
    book: BankBalances,
    empty: BankBalances,
    facts: Facts,
}

impl Drop for Scene {
    fn drop(self) {
        let Scene { book, empty, facts } = self;
        let_go_of_book(book);
        let_go_of_book(empty);
        let_go_of_facts(facts);
    }
}

/// A book of two accounts, and no facts yet.
pub(crate) fn opened<L: Ledger>(
    rt: &(impl Abort + AllocGlobal),
    steps: &mut Steps<L>,
) -> Result<Scene, BankFault>
    ensures backed { IfOk result (λ scene. IsBacked scene.book.holdings) }
    ensures marks { IfOk result (λ scene. scene.book.marks ≡ []) }
    ensures empty { IfOk result (λ scene. scene.empty ≡ new_book) }
{
    let book = two_accounts(rt, steps)?;
    Ok(Scene {
        book,
        empty: BankBalances::new(rt.alloc()),
        facts: Facts::new(rt.alloc()),
    })
}

/// Whether an account holds this and there is so much of it, over any bank.
fn holds<B: Bank, L: Ledger>(
    bank: &B,
    who: &Account,
    denom: &Denom,
    amount: u128,
    supply: u128,
    steps: &mut Steps<L>,
) -> bool {
    bank.balance(who, denom, steps) == amount && bank.supply(denom, steps) == supply
}

/// What a message of a user that sends coins to an account answers.
fn send_message<L: Ledger>(
    rt: &(impl Abort + AllocGlobal),
    scene: &mut Scene,
    from: u8,
    to: &Account,
    coins: &Coins,
    steps: &mut Steps<L>,
) -> Result<(), MessageFault>
    requires { IsBacked scene.old.book.holdings }
    ensures backed { IsBacked scene.new.book.holdings }
    ensures behind { behind scene.new.book ≡ behind scene.old.book }
{
    let from = addr(rt, from);
    scene
        .book
        .transfer(rt.alloc(), &mut scene.facts, &from, to, coins, steps)
}

/// A user sends all stake and 4 uatom to another.
fn send_most<L: Ledger>(
    rt: &(impl Abort + AllocGlobal),
    scene: &mut Scene,
    steps: &mut Steps<L>,
) -> Result<(), MessageFault>
    requires { IsBacked scene.old.book.holdings }
    ensures backed { IsBacked scene.new.book.holdings }
    ensures behind { behind scene.new.book ≡ behind scene.old.book }
{
    let coins = purse(rt, 3, 4);
    send_message(rt, scene, 7, &user(rt, 9), &coins, steps)
}

/// Whether the users hold what they do after the message.
fn is_sent<L: Ledger>(rt: &impl Abort, book: &BankBalances, steps: &mut Steps<L>) -> bool {
    let sent = holds(book, &user(rt, 9), &atom(rt), 9, 15, steps);
    sent & holds(book, &user(rt, 7), &denom(rt, b"stake"), 0, 3, steps)
}

/// A message that is undone.
fn message_gone_back<L: Ledger>(
    rt: &(impl Abort + AllocGlobal),
    scene: &mut Scene,
    steps: &mut Steps<L>,
) -> Result<bool, BankFault>
    requires { IsBacked scene.old.book.holdings }
    ensures { OnOk result (scene.new.book.holdings ≡ scene.old.book.holdings) }
{
    scene.book.mark(rt.alloc(), steps)?;
    let answer = send_most(rt, scene, steps);
    scene.book.back(steps);
    Ok(answer == Ok(()))
}

/// A message behind a mark that is forgotten.
fn message_kept<L: Ledger>(
    rt: &(impl Abort + AllocGlobal),
    scene: &mut Scene,
    steps: &mut Steps<L>,
) -> Result<bool, BankFault>
    requires { IsBacked scene.old.book.holdings }
{
    scene.book.mark(rt.alloc(), steps)?;
    let answer = send_most(rt, scene, steps);
    scene.book.forget(steps);
    Ok(answer == Ok(()))
}

/// Goes back over a message, and then forgets a mark before it.
pub(crate) fn goes_back<L: Ledger>(
    rt: &(impl Abort + AllocGlobal),
    scene: &mut Scene,
    steps: &mut Steps<L>,
) -> Result<bool, BankFault>
    requires { IsBacked scene.old.book.holdings }
{
    let undone = message_gone_back(rt, scene, steps)?;
    let back = holds(&scene.book, &user(rt, 9), &atom(rt), 5, 15, steps);
    let kept = message_kept(rt, scene, steps)?;
    Ok(undone & back & kept & is_sent(rt, &scene.book, steps))
}

/// Whether an item is this balance of uatom.
fn is_balance(item: Option<&Item>, who: &Account, expected: u128) -> bool {
    match item {
        Some(
            Item::Balance {
                account,
                amount,
                ..
            },
        ) => account == who && *amount == expected,
        _ => false,
    }
}

/// Whether an item is this supply.
fn is_supply(item: Option<&Item>, expected: u128) -> bool {
    matches!(item, Some(Item::Supply { amount, .. }) if *amount == expected)
}

/// Two items are loaded and settled: 10 uatom of a user, which are all.
fn load_two<L: Ledger>(
    rt: &(impl Abort + AllocGlobal),
    book: &mut BankBalances,
    steps: &mut Steps<L>,
) -> Result<(), RecordFault>
    requires { book.old ≡ new_book }
{
    let denom = atom(rt);
    let balance = Item::Balance {
        account: user(rt, 7),
        denom,
        amount: 10,
    };
    book.load(rt.alloc(), &balance, steps)?;
    book.load(rt.alloc(), &Item::Supply { denom, amount: 10 }, steps)?;
    book.settle(steps);
    Ok(())
}

/// The items of a book.
fn items_of<L: Ledger>(
    rt: &(impl Abort + AllocGlobal),
    book: &BankBalances,
    steps: &mut Steps<L>,
) -> Result<Vec<Item>, RecordFault> {
    let mut items = Vec::new(rt.alloc());
    book.items_into(&mut items, steps)?;
    Ok(items)
}

/// The changes of a book.
fn changes_of<L: Ledger>(
    rt: &(impl Abort + AllocGlobal),
    book: &BankBalances,
    steps: &mut Steps<L>,
) -> Result<Vec<(Item, bool)>, RecordFault> {
    let mut changes = Vec::new(rt.alloc());
    book.changes_into(&mut changes, steps)?;
    Ok(changes)
}

/// Whether the items of a book are the two that are loaded.
fn lists_two<L: Ledger>(
    rt: &(impl Abort + AllocGlobal),
    book: &BankBalances,
    steps: &mut Steps<L>,
) -> Result<bool, BankFault> {
    let items = items_of(rt, book, steps)?;
    let balance = is_balance(items.get(0), &user(rt, 7), 10);
    Ok((items.len() == 2) & balance & is_supply(items.get(1), 10))
}

/// Whether a book tells so many changes.
fn tells<L: Ledger>(
    rt: &(impl Abort + AllocGlobal),
    book: &BankBalances,
    count: usize,
    steps: &mut Steps<L>,
) -> Result<bool, BankFault> {
    let changes = changes_of(rt, book, steps)?;
    Ok(changes.len() == count)
}

/// The items of a book that was loaded from two, and no changes.
pub(crate) fn loads<L: Ledger>(
    rt: &(impl Abort + AllocGlobal),
    scene: &mut Scene,
    steps: &mut Steps<L>,
) -> Result<bool, BankFault>
    requires { scene.old.empty ≡ new_book }
{
    load_two(rt, &mut scene.empty, steps)?;
    let listed = lists_two(rt, &scene.empty, steps)?;
    let settled = tells(rt, &scene.empty, 0, steps)?;
    Ok(listed & settled)
}

/// Whether four changes tell the message: who sent has no stake any more, and who received has 9 uatom.
fn tells_message<L: Ledger>(
    rt: &(impl Abort + AllocGlobal),
    book: &BankBalances,
    steps: &mut Steps<L>,
) -> Result<bool, BankFault> {
    let changes = changes_of(rt, book, steps)?;
    Ok((changes.len() == 4) & are_of_message(rt, &changes))
}

fn are_of_message(rt: &impl Abort, changes: &[(Item, bool)]) -> bool {
    let gone = changes
        .iter()
        .any(|c| !c.1 && is_balance(Some(&c.0), &user(rt, 7), 0));
    let stands = changes
        .iter()
        .any(|c| c.1 && is_balance(Some(&c.0), &user(rt, 9), 9));
    gone && stands
}

/// The changes of a book of which nothing is settled, and those after a settling, once a user has sent a message.
pub(crate) fn tells_changes<L: Ledger>(
    rt: &(impl Abort + AllocGlobal),
    scene: &mut Scene,
    steps: &mut Steps<L>,
) -> Result<bool, BankFault>
    requires backed { IsBacked scene.old.book.holdings }
    requires marks { scene.old.book.marks ≡ [] }
{
    let first = tells(rt, &scene.book, 5, steps)?;
    scene.book.settle(steps);
    let answer = send_most(rt, scene, steps);
    let later = tells_message(rt, &scene.book, steps)?;
    Ok(first & (answer == Ok(())) & later)
}
