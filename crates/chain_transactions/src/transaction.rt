//! Transactions: the fee, then messages that stand or fall together (`baseapp`: `runTx`).

ghost use Rattle.std.specs.Prelude.{◌≡◌, [], true, false, map, IfOk, OnOk, Ok, Err, None};
ghost use Rattle.base_roles.specs.declared.refusal.Refusal.TheVariants as refused;
ghost use Rattle.base_roles.specs.Ground.{SameMoment};
ghost use Rattle.rule_machine.specs.GenesisState.{without_facts};
ghost use Rattle.rule_machine.specs.Machine.{tx_applied, txs_applied};
ghost use Rattle.rule_machine.specs.Messages.{effect_of};
ghost use Rattle.rule_modules.specs.Chain.{State};
ghost use Rattle.rule_modules.specs.Effects.{fee_paid, effects_of, stands_or_fee, transaction_applied};
ghost use Rattle.rule_machine.specs.Listening.{Hearing, messages_heard, paid_heard, silently, stands_heard, tx_heard, txs_heard};
ghost use Rattle.chain_modules.specs.Heard.{Hears, HearsAfter};
ghost use Rattle.chain_modules.specs.Kept.{StandsWhole, kept_of, AreSteady, listener_of};
ghost use Rattle.chain_modules.specs.Marks.{behind_of, GoOn, MessagesGoOn};
ghost use Rattle.chain_transactions.specs.Answers.{MessagesEnd, EndsAs};

use crate::message::apply_message;
use base_messages::{Msg, Outcome, Tx, TxReport};
use base_roles::{Bank, BankFault, Extra, Facts, MessageFault, RecordFault, Refusal};
use base_types::{Account, Module, Steps};
use chain_modules::Modules;
use std::alloc::Global;
use std::mem;
use std::sync::ledger::Ledger;

/// Pays the fee of a transaction to the fee collector (`x/auth/ante`: `DeductFeeDecorator`); false where the
/// payer is short, and then nothing changes.
fn pay_fee<E: Extra, L: Ledger>(
    alloc: Global,
    modules: &mut Modules<E>,
    tx: &Tx,
    steps: &mut Steps<L>,
) -> Result<bool, RecordFault>
    requires steady { AreSteady modules.old }
    ensures paid { (p : State) → StandsWhole (kept_of modules.old) p
        → IfOk result (λ paid. paid ≡ true
        → (due : State) × (fee_paid tx.now.payer tx.now.fee p ≡ Ok due)
        × StandsWhole (kept_of modules.new) due) }
    ensures unpaid { (p : State) → StandsWhole (kept_of modules.old) p
        → IfOk result (λ paid. paid ≡ false
        → fee_paid tx.now.payer tx.now.fee p ≡ Err refused.FeeUnpaid) }
    ensures unchanged { IfOk result
        (λ paid. paid ≡ false → kept_of modules.new ≡ kept_of modules.old) }
    ensures steady { OnOk result (AreSteady modules.new) }

    // Whatever the answer.
    ensures go_on { GoOn modules.old modules.new }
    ensures listener { listener_of modules.new ≡ listener_of modules.old }
{
    // It tells that the fee is a list of coins.
    let _ = tx.fee.len();
    let collector = Account::Module(Module::FeeCollector);
    let payer = Account::User(tx.payer);
    let facts = &mut modules.ground.facts;
    match modules
        .ground
        .bank
        .send(alloc, facts, &payer, &collector, &tx.fee, steps)
    {
        Ok(()) => Ok(true),
        Err(BankFault::Short) => Ok(false),
        Err(BankFault::NoMemory) => Err(RecordFault::NoMemory),
    }
}

/// Carries out messages one after the other, up to the first that is refused, of which it answers the place and
/// the reason.
fn apply_messages<E: Extra, L: Ledger>(
    alloc: Global,
    modules: &mut Modules<E>,
    messages: &[Msg],
    steps: &mut Steps<L>,
) -> Result<Option<(usize, Refusal)>, RecordFault>
    requires steady { AreSteady modules.old }
    ensures ends { (p : State) → StandsWhole (kept_of modules.old) p → IfOk result
        (λ stop. MessagesEnd (effects_of 0 (map effect_of messages.now) p) stop
        (kept_of modules.new)) }
    ensures heard { (w : Hearing E.Heard) → Hears E.heard StandsWhole modules.old w → IfOk result
        (λ stop. stop ≡ None → HearsAfter E.heard StandsWhole
        (messages_heard E.hears messages.now w) modules.new) }
    ensures steady { IfOk result (λ stop. stop ≡ None → AreSteady modules.new) }

    // Whatever the answer.
    ensures go_on { MessagesGoOn modules.old modules.new }
    ensures listener { E.Records.marks (listener_of modules.new)
        ≡ E.Records.marks (listener_of modules.old) }
{
    for (place, message) in messages.iter().enumerate() {
        match apply_message(alloc, modules, message, steps) {
            Ok(()) => {}
            Err(MessageFault::Refused(why)) => return Ok(Some((place, why))),
            Err(MessageFault::NoMemory) => return Err(RecordFault::NoMemory),
        }
    }
    Ok(None)
}

/// Carries out all messages or, where one is refused, none; then parameters that were replaced are put back too.
/// After an error some of it may stand.
fn all_or_none<E: Extra, L: Ledger>(
    alloc: Global,
    modules: &mut Modules<E>,
    messages: &[Msg],
    steps: &mut Steps<L>,
) -> Result<Outcome, RecordFault>
    requires steady { AreSteady modules.old }
    ensures ended { (p : State) → StandsWhole (kept_of modules.old) p → IfOk result
        (λ outcome. EndsAs (stands_or_fee p (effects_of 0 (map effect_of messages.now) p)) outcome
        (kept_of modules.new)) }
    ensures heard { (w : Hearing E.Heard) → Hears E.heard StandsWhole modules.old w → OnOk result
        (Hears E.heard StandsWhole modules.new
        (stands_heard E.hears w (messages_heard E.hears messages.now w))) }
    ensures steady { OnOk result (AreSteady modules.new) }
    ensures moment { OnOk result
        (SameMoment modules.old.ground.ctx modules.new.ground.ctx) }

    // Whatever the answer.
    ensures behind { behind_of modules.new ≡ behind_of modules.old }
    ensures listener { E.Records.marks (listener_of modules.new)
        ≡ E.Records.marks (listener_of modules.old) }
{
    let told = modules.ground.facts.len();
    let ctx = modules.ground.ctx;
    modules.mark(alloc, steps)?;
    match apply_messages(alloc, modules, messages, steps) {
        Ok(None) => {
            modules.forget(steps);
            Ok(Outcome::Accepted)
        }
        Ok(Some((place, why))) => {
            modules.back(steps);
            modules.ground.ctx = ctx;
            modules.ground.facts.cut(told);
            Ok(Outcome::Refused(place, why))
        }
        Err(fault) => {
            modules.back(steps);
            Err(fault)
        }
    }
}

/// Pays the fee, then carries out the messages. After an error some of it may stand.
fn pay_and_apply<E: Extra, L: Ledger>(
    alloc: Global,
    modules: &mut Modules<E>,
    tx: &Tx,
    steps: &mut Steps<L>,
) -> Result<Outcome, RecordFault>
    requires steady { AreSteady modules.old }
    ensures ended { (p : State) → StandsWhole (kept_of modules.old) p → IfOk result
        (λ outcome. EndsAs
        (transaction_applied tx.now.payer tx.now.fee (map effect_of tx.now.msgs) p)
        outcome (kept_of modules.new)) }
    ensures heard { (w : Hearing E.Heard) → Hears E.heard StandsWhole modules.old w → OnOk result
        (Hears E.heard StandsWhole modules.new (paid_heard E.hears tx.now.msgs w
        (silently (fee_paid tx.now.payer tx.now.fee) w))) }
    ensures steady { OnOk result (AreSteady modules.new) }
    ensures moment { OnOk result
        (SameMoment modules.old.ground.ctx modules.new.ground.ctx) }

    // Whatever the answer.
    ensures behind { behind_of modules.new ≡ behind_of modules.old }
    ensures listener { E.Records.marks (listener_of modules.new)
        ≡ E.Records.marks (listener_of modules.old) }
{
    if pay_fee(alloc, modules, tx, steps)? {
        all_or_none(alloc, modules, tx.msgs.as_slice(), steps)
    } else {
        Ok(Outcome::FeeUnpaid)
    }
}

/// Applies a transaction, takes its facts, and tells the listener how many they are. After an error some of it may stand.
fn apply_transaction<E: Extra, L: Ledger>(
    alloc: Global,
    modules: &mut Modules<E>,
    tx: &Tx,
    steps: &mut Steps<L>,
) -> Result<TxReport, RecordFault>
    requires steady { AreSteady modules.old }
    requires none { modules.old.ground.facts ≡ [] }
    ensures report { (p : State) → StandsWhole (kept_of modules.old) p
        → IfOk result (λ report. report ≡ (tx_applied tx.now p).report) }
    ensures state { (p : State) → StandsWhole (kept_of modules.old) p
        → OnOk result (StandsWhole (kept_of modules.new)
        (without_facts (tx_applied tx.now p).state)) }
    ensures heard { (w : Hearing E.Heard) → Hears E.heard StandsWhole modules.old w → OnOk result
        (Hears E.heard StandsWhole modules.new (tx_heard E.hears E.parted E.ended tx.now w)) }
    ensures steady { OnOk result (AreSteady modules.new) }
    ensures moment { OnOk result
        (SameMoment modules.old.ground.ctx modules.new.ground.ctx) }
    ensures none { OnOk result (modules.new.ground.facts ≡ []) }

    // Whatever the answer.
    ensures behind { behind_of modules.new ≡ behind_of modules.old }
    ensures listener { E.Records.marks (listener_of modules.new)
        ≡ E.Records.marks (listener_of modules.old) }
{
    let outcome = pay_and_apply(alloc, modules, tx, steps)?;
    let facts = mem::replace(&mut modules.ground.facts, Facts::new(alloc));
    modules.hooks.first.second.listener.after_part(facts.len());
    Ok(TxReport { facts, outcome })
}

/// Applies the transactions of a block, one after the other (`DeliverTx`), over modules that have told nothing yet. The
/// only error is `NoMemory`; some may have been applied then.
pub fn apply_transactions<E: Extra, L: Ledger>(
    alloc: Global,
    modules: &mut Modules<E>,
    txs: &[Tx],
    steps: &mut Steps<L>,
) -> Result<Vec<TxReport>, RecordFault>
    requires steady { AreSteady modules.old }
    requires none { modules.old.ground.facts ≡ [] }
    ensures reports { (p : State) → StandsWhole (kept_of modules.old) p
        → IfOk result (λ reports. reports.items ≡ (txs_applied txs.now p).reports) }
    ensures state { (p : State) → StandsWhole (kept_of modules.old) p → OnOk result
        (StandsWhole (kept_of modules.new) (without_facts (txs_applied txs.now p).state)) }
    ensures heard { (w : Hearing E.Heard) → Hears E.heard StandsWhole modules.old w → OnOk result
        (Hears E.heard StandsWhole modules.new (txs_heard E.hears E.parted E.ended txs.now w)) }
    ensures steady { OnOk result (AreSteady modules.new) }
    ensures moment { OnOk result
        (SameMoment modules.old.ground.ctx modules.new.ground.ctx) }
    ensures none { OnOk result (modules.new.ground.facts ≡ []) }

    // Whatever the answer.
    ensures behind { behind_of modules.new ≡ behind_of modules.old }
    ensures listener { E.Records.marks (listener_of modules.new)
        ≡ E.Records.marks (listener_of modules.old) }
{
    let mut reports = Vec::new(alloc);
    for tx in txs {
        let report = apply_transaction(alloc, modules, tx, steps)?;
        reports.push(report)?;
    }
    Ok(reports)
}
