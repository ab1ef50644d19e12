//! The chain of items.

ghost use Rattle.std.specs.Prelude.{◌≡◌, [], true, false, None, Ok, Some, IfOk, IfErr, OnErr, OnOk};
ghost use Rattle.rule_modules.specs.Chain.{State};
ghost use Rattle.chain_modules.specs.Kept.{StandsFor};
ghost use Rattle.store_records.specs.Gathering.{records_in};
ghost use Rattle.store_records.specs.Plain.{seen, AreAscending};
ghost use Rattle.store_soundness.specs.Sound.{is_sound};
ghost use Rattle.law_records.specs.Coins.{AreCoins};
ghost use Rattle.law_records.specs.PassLaws.{AreInMemory};
ghost use Rattle.store_loading.specs.Loaded.{kept_in};
ghost use Rattle.store_resuming.specs.Resumed.{IsJudged, IsResumed, IsResumeFault, IsStateOf, IsVerdict};

use crate::telling::{tell_money, tell_numbers};
use base_roles::Item;
use chain_whole::{Chain, ChainFault};
use std::alloc::{AllocError, Global};
use std::marker::Brand;
use std::sync::ledger::Blank;
use store_loading::modules_of;
use store_records::{PlainRecords, records_of};
use store_soundness::is_sound;

/// Lets go of records.
fn let_go(_records: PlainRecords) {}

/// The chain of records that pass the tests.
fn loaded(alloc: Global, records: PlainRecords) -> Result<Chain, ChainFault>
    requires ascending { AreAscending (seen records).lists }
    requires coins { AreCoins (seen records) }
    requires memory { AreInMemory (seen records) }
    requires sound { is_sound (seen records) ≡ true }
    ensures chain { IfOk result (IsResumed (seen records)) }
    ensures fault { IfErr result (λ fault. fault ≡ ChainFault.NoMemory) }
{
    let modules = modules_of::<Brand>(alloc, records, Blank::new(1))?;
    Ok(Chain::over(modules))
}

/// What is answered of records that were judged: nothing, where they pass the tests; `BadItems`, where they do not; and
/// `NoMemory`, where that is not known for want of memory.
fn verdict(sound: Result<bool, AllocError>) -> Result<(), ChainFault>
    ensures ok { OnOk result (sound ≡ Ok true) }
    ensures fault { IfErr result (IsVerdict sound) }
{
    match sound {
        Ok(true) => Ok(()),
        Ok(false) => Err(ChainFault::BadItems),
        Err(_) => Err(ChainFault::NoMemory),
    }
}

/// The chain of records, where they pass the tests.
fn judged(alloc: Global, records: PlainRecords) -> Result<Chain, ChainFault>
    requires ascending { AreAscending (seen records).lists }
    ensures sound { IfOk result (λ _. is_sound (seen records) ≡ true) }
    ensures coins { AreCoins (seen records) }
    ensures memory { AreInMemory (seen records) }
    ensures chain { IfOk result (IsResumed (seen records)) }
    ensures fault { IfErr result (IsJudged (seen records)) }
{
    tell_money(&records);
    tell_numbers(&records);
    match verdict(is_sound(alloc, &records)) {
        Ok(()) => loaded(alloc, records),
        Err(fault) => {
            let_go(records);
            Err(fault)
        }
    }
}

/// The records of items, where they are those of some; the error is `BadItems`.
fn some_records(found: Option<PlainRecords>) -> Result<PlainRecords, ChainFault>
    ensures records { IfOk result (λ records. found ≡ Some records) }
    ensures fault { IfErr result (λ fault. fault ≡ ChainFault.BadItems) }
    ensures none { OnErr result (found ≡ None) }
{
    match found {
        Some(records) => Ok(records),
        None => Err(ChainFault::BadItems),
    }
}

/// The chain of which these are the items, in any order, settled: it stands for each sound state that has them.
///
/// The errors are `BadItems`, exactly where they are the items of no sound state, and `NoMemory`.
pub fn from_items(alloc: Global, items: Vec<Item>) -> Result<Chain, ChainFault>
    ensures chain { IfOk result
        (λ chain. (p : State) → IsStateOf items.items p → StandsFor chain.kept p) }
    ensures some { IfOk result
        (λ chain. (p : State) × IsStateOf items.items p × StandsFor chain.kept p) }
    ensures facts { IfOk result (λ chain. chain.kept.view.facts ≡ []) }
    ensures settled { IfOk result (λ chain. chain.settled ≡ chain.kept) }
    ensures unspent { IfOk result (λ chain. chain.spent ≡ false) }
    ensures fault { IfErr result (IsResumeFault items.items) }
{
    let found = records_of(alloc, items)?;
    match some_records(found) {
        Ok(records) => judged(alloc, records),
        Err(fault) => Err(fault),
    }
}
